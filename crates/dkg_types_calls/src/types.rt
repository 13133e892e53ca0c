use crate::asserts::{holds, is, is_at};
use dkg_ceremony::{
    Digest, Element, EncodeSize, Epoch, Height, Key, Map, Mark, Mem, ModeVersion, NoMemory,
    Private, Public, Set, Share, Value, decode_cfg, encode, round_trip,
};
use dkg_infos::*;
use dkg_types::*;
use std::alloc::Global;
use std::num::NonZeroU32;
use std::test::Fail;

/// The keys 1 to 4 as a set is spelled.
const FOUR: [u8; 17] = [4, 0, 0, 0, 1, 0, 0, 0, 2, 0, 0, 0, 3, 0, 0, 0, 4];

/// Success, epoch 0, and four players who share 5 + x + 2x².
const HEAD: [u8; 19] = [0, 0, 0, 0, 0, 0, 0, 0, 0, 0, 0, 4, 3, 0, 5, 0, 1, 0, 2];

/// The bytes of an info with that head, whose players are the same now and next.
fn info_bytes(alloc: Global) -> Mem<Vec<u8>> {
    let pieces: [&[u8]; 6] = [&HEAD, &FOUR, &FOUR, &[0], &FOUR, &FOUR];
    Ok(pieces.concat(alloc)?)
}

fn four() -> Result<NonZeroU32, Fail> {
    Ok(NonZeroU32::new(4).ok_or("four is not zero")?)
}

fn info(alloc: Global) -> Result<EpochInfo<Unit>, Fail> {
    let limits = limits()?;
    let bytes = info_bytes(alloc)?;
    Ok(decode_cfg::<EpochInfo<Unit>>(alloc, &bytes, &limits)?)
}

/// The keys from 1 on.
fn first_keys(alloc: Global, count: u32) -> Mem<Vec<Key>> {
    let mut keys = Vec::new(alloc);
    for number in 0..count {
        keys.push(Key(number + 1))?;
    }
    Ok(keys)
}

fn keys(alloc: Global, count: u32) -> Result<Set, Fail> {
    let keys = first_keys(alloc, count)?;
    if keys.len() > 70000 {
        return Err(Fail::from("too many keys"));
    }
    Ok(Set::from_any(alloc, &keys)?)
}

fn limits() -> Result<(NonZeroU32, ModeVersion), Fail> {
    Ok((four()?, ModeVersion(0)))
}

/// A payload that is a log: dealer 2's of one coefficient, and no entry.
const LOG: [u8; 17] = [0, 0, 0, 0, 2, 1, 0, 5, 0, 1, 2, 3, 4, 5, 6, 7, 8];

fn payload_of(alloc: Global, bytes: &[u8]) -> Result<Payload<Unit>, Fail> {
    Ok(decode_cfg::<Payload<Unit>>(alloc, bytes, &limits()?)?)
}

/// Whether a payload is the worked info.
fn is_info(alloc: Global, payload: &Payload<Unit>) -> Result<bool, Fail> {
    let info = Payload::EpochInfo(info(alloc)?);
    Ok(payload.same(&info))
}

fn log_is_info(alloc: Global) -> Result<bool, Fail> {
    let log = payload_of(alloc, &LOG)?;
    is_info(alloc, &log)
}

#[test]
fn a_log_is_no_info(rt: HostRuntime) -> Result<(), Fail> {
    let alloc = rt.alloc();
    is(&rt, log_is_info(alloc)?, false);
    let block = block_of(alloc, payload_of(alloc, &LOG)?)?;
    holds(&rt, block.payload().is_some());
    holds(&rt, block.epoch_info().is_none());
    Ok(())
}

#[test]
fn bounds_are_those_of_four_participants(rt: HostRuntime) -> Result<(), Fail> {
    let max = four()?;
    is(&rt, EpochInfo::<Unit>::max_encode_size(max), 143);
    is(&rt, Payload::<Unit>::max_encode_size(max), 144);
    is(&rt, Block::<Unit>::max_encode_size(max), 253);
    is(&rt, Message::max_encode_size(max), 16);
    is(&rt, max_payload_size(max), 26);
    Ok(())
}

fn participants(
    alloc: Global,
    (dealers, players, next_players): (u32, u32, u32),
) -> Result<Participants, Fail> {
    Ok(Participants {
        dealers: keys(alloc, dealers)?,
        players: keys(alloc, players)?,
        next_players: keys(alloc, next_players)?,
    })
}

/// What comes of these participants in a round behind the worked info's, or in one of no output.
fn validated_in(
    alloc: Global,
    participants: &Participants,
    max: NonZeroU32,
    round: Option<u64>,
) -> Result<Result<(), ParticipantsError>, Fail> {
    let Some(round) = round else {
        return Ok(participants.validate(max, None, 0));
    };
    let info = info(alloc)?;
    Ok(participants.validate(max, Some(&info.output), round))
}

fn validated(
    alloc: Global,
    sizes: (u32, u32, u32),
    max: u32,
    round: Option<u64>,
) -> Result<Result<(), ParticipantsError>, Fail> {
    let max = NonZeroU32::new(max).ok_or("a limit is not zero")?;
    let participants = participants(alloc, sizes)?;
    validated_in(alloc, &participants, max, round)
}

fn above(actual: u32, max: u32) -> Result<(), ParticipantsError> {
    Err(ParticipantsError::TooManyParticipants { actual, max })
}

#[test]
fn participants_are_validated_in_order(rt: HostRuntime) -> Result<(), Fail> {
    let rows = [
        ((1, 4, 0), 3, None, above(4, 3)),
        ((0, 0, 9), 3, None, Err(ParticipantsError::EmptyDealers)),
        ((9, 0, 9), 3, None, Err(ParticipantsError::EmptyPlayers)),
        ((5, 6, 7), 4, None, above(5, 4)),
        ((4, 6, 7), 4, None, above(6, 4)),
        ((4, 4, 7), 4, Some(0), above(7, 4)),
        (
            (3, 4, 4),
            4,
            Some(0),
            Err(ParticipantsError::InitialReshareDealers),
        ),
        ((3, 4, 4), 4, Some(1), Ok(())),
        (
            (5, 4, 4),
            5,
            Some(1),
            Err(ParticipantsError::UnknownReshareDealer),
        ),
        ((4, 4, 0), 4, Some(0), Ok(())),
        ((5, 5, 5), 5, None, Ok(())),
    ];
    for (sizes, max, round, want) in rows {
        let answer = validated(rt.alloc(), sizes, max, round)?;
        is_at(&rt, answer, want, (sizes, max));
    }
    Ok(())
}

#[test]
fn outcomes_are_read(rt: HostRuntime) -> Result<(), Fail> {
    let alloc = rt.alloc();
    is(
        &rt,
        decode_cfg::<EpochOutcome>(alloc, &[0], &()),
        Ok(EpochOutcome::Success),
    );
    is(
        &rt,
        round_trip(alloc, &EpochOutcome::Failure, &()),
        Ok(EpochOutcome::Failure),
    );
    Ok(())
}

/// Two dealers, three players, and the next players 9 and 2.
fn few(alloc: Global) -> Result<Participants, Fail> {
    Ok(Participants {
        dealers: keys(alloc, 2)?,
        players: keys(alloc, 3)?,
        next_players: Set::from_any(alloc, &[Key(9), Key(2)])?,
    })
}

/// The peers of participants.
fn peers_of(alloc: Global, participants: &Participants) -> Result<TrackedPeers, Fail> {
    if participants.players.len() > 9 || participants.next_players.len() > 9 {
        return Err(Fail::from("too many keys"));
    }
    Ok(participants.tracked_peers(alloc)?)
}

/// A copy of the peers of those few.
fn tracked(alloc: Global) -> Result<TrackedPeers, Fail> {
    let participants = few(alloc)?;
    let peers = peers_of(alloc, &participants)?;
    Ok(peers.copy(alloc)?)
}

/// How many players the worked info has.
fn players_of_info(alloc: Global) -> Result<u32, Fail> {
    let info = info(alloc)?;
    Ok(info.participants(alloc)?.players.len())
}

#[test]
fn players_are_tracked_beside_dealers(rt: HostRuntime) -> Result<(), Fail> {
    let alloc = rt.alloc();
    is(&rt, players_of_info(alloc)?, 4);
    let peers = tracked(alloc)?;
    is(&rt, peers.primary.len(), 2);
    let want = [Key(1), Key(2), Key(3), Key(9)];
    is(&rt, peers.secondary.as_slice(), want.as_slice());
    Ok(())
}

/// The worked info's scheme for a key.
fn scheme_of(alloc: Global, key: u32, share: Option<Share>) -> Result<SchemeInfo, Fail> {
    let keys = keys(alloc, 4)?;
    let sharing = info(alloc)?.output.sharing;
    Ok(SchemeInfo::new(Key(key), keys, sharing, share))
}

/// Registers a copy of a scheme. Fails where the copy differs.
fn register_copy(alloc: Global, scheme: &SchemeInfo) -> Result<(), Fail> {
    let copy = scheme.copy(alloc)?;
    if !copy.same(scheme) {
        return Err(Fail::from("a copy differs"));
    }
    Ok(NoopRegistrar.register(alloc, Epoch(0), copy)?)
}

fn role_in(scheme: &SchemeInfo) -> Role {
    match scheme {
        SchemeInfo::Verifier { .. } => Role::Verifier,
        SchemeInfo::Member { .. } => Role::Member,
        SchemeInfo::Signer { .. } => Role::Signer,
    }
}

/// The part that a key has in that scheme.
fn part_of(alloc: Global, key: u32, share: Option<Share>) -> Result<Role, Fail> {
    let scheme = scheme_of(alloc, key, share)?;
    register_copy(alloc, &scheme)?;
    Ok(role_in(&scheme))
}

#[test]
fn a_share_makes_a_signer(rt: HostRuntime) -> Result<(), Fail> {
    let alloc = rt.alloc();
    let share = decode_cfg::<Share>(alloc, &[0, 8], &())?;
    is(&rt, part_of(alloc, 1, Some(share))?, Role::Signer);
    is(&rt, part_of(alloc, 4, None)?, Role::Member);
    is(&rt, part_of(alloc, 5, None)?, Role::Verifier);
    Ok(())
}

fn block_of(alloc: Global, payload: Payload<Unit>) -> Result<Block<Unit>, Fail> {
    let mut parent = [0; 32];
    for i in 0..32 {
        parent[i] = i as u8;
    }
    let context = Context {
        epoch: Epoch(1),
        view: 300,
        leader: Key(3),
        parent_view: 2,
        parent: Digest(parent),
    };
    let below = Digest([9; 32]);
    Ok(Block::new(alloc, context, below, Height(15), Some(payload))?)
}

fn later_block(alloc: Global) -> Result<Block<Unit>, Fail> {
    block_of(alloc, Payload::EpochInfo(info(alloc)?))
}

#[test]
fn the_first_block_is_empty(rt: HostRuntime) -> Result<(), Fail> {
    let block = Block::<Unit>::genesis(rt.alloc(), Key(7))?;
    let digest = [
        0x71, 0x43, 0xc1, 0x8e, 0xd4, 0x1f, 0xfd, 0x7f, 0xb2, 0xe3, 0x58, 0x2c, 0x47, 0xee, 0xcd,
        0xd1, 0xc7, 0x1f, 0xae, 0xd3, 0x57, 0xf4, 0x93, 0xd2, 0xc8, 0x81, 0x99, 0xc5, 0x51, 0x39,
        0x51, 0x6a,
    ];
    is(&rt, block.digest(), Digest(digest));
    is(&rt, block.height(), Height(0));
    holds(&rt, block.payload().is_none());
    Ok(())
}

#[test]
fn a_block_has_the_digest_of_its_encoding(rt: HostRuntime) -> Result<(), Fail> {
    let block = later_block(rt.alloc())?;
    let digest = [
        0xc5, 0x36, 0x13, 0x30, 0xd6, 0xdb, 0x7c, 0x6d, 0xe7, 0x7c, 0xa8, 0xff, 0x14, 0x65, 0xb6,
        0x98, 0xa5, 0xbb, 0x4b, 0x22, 0xa8, 0x1d, 0x2a, 0xf0, 0x19, 0xfd, 0x5c, 0xc1, 0x37, 0xe1,
        0x60, 0xa7,
    ];
    is(&rt, block.digest(), Digest(digest));
    is(&rt, block.parent(), Digest([9; 32]));
    is(&rt, block.context().view, 300);
    holds(&rt, block.epoch_info().is_some());
    Ok(())
}

fn is_copied_block(alloc: Global) -> Result<bool, Fail> {
    let block = later_block(alloc)?;
    let copy = block.copy(alloc)?;
    Ok(copy.same(&block))
}

#[test]
fn a_copied_block_is_the_same(rt: HostRuntime) -> Result<(), Fail> {
    holds(&rt, is_copied_block(rt.alloc())?);
    Ok(())
}

#[test]
fn a_finalization_bears_its_certificate(rt: HostRuntime) -> Result<(), Fail> {
    let alloc = rt.alloc();
    let scheme = StandScheme::new(Key(7));
    let sealed = scheme.seal(alloc, Epoch(1), 300, 2, Digest([9; 32]))?;
    let mark = [0x97, 0x84, 0xe5, 0x22, 0xd3, 0xa9, 0x90, 0xf7];
    is(&rt, sealed.certificate, Mark(mark));
    is(&rt, verified(&scheme, alloc, &sealed)?, true);
    is(&rt, StandScheme::new(Key(8)).verify(alloc, &sealed)?, false);
    is(&rt, round_trip(alloc, &sealed, &()), Ok(sealed));
    is(&rt, sealed.encode_size(), 44);
    Ok(())
}

fn verified<S: Scheme>(scheme: &S, alloc: Global, sealed: &Finalization) -> Mem<bool> {
    scheme.verify(alloc, sealed)
}

/// What a provider of any kind says of an epoch.
fn provided<P: ParticipantsProvider>(provider: &mut P, alloc: Global) -> Mem<(u32, bool)>
where
    P::Dir: Drop,
{
    let set = provider.participants(alloc, Epoch(3))?;
    let directory = provider.directory(alloc, Epoch(3), &set)?;
    let matches = directory.matches(&set);
    Ok((set.len(), matches))
}

#[test]
fn a_provider_gives_its_set(rt: HostRuntime) -> Result<(), Fail> {
    let alloc = rt.alloc();
    let mut provider = StaticParticipants::new(keys(alloc, 3)?, Unit);
    is(&rt, provided(&mut provider, alloc)?, (3, true));
    Ok(())
}

/// Tells a step and a copy of a fault.
fn tell(alloc: Global, told: &mut Transcript, fault: &Fault) -> Mem<()> {
    told.reserve(2)?;
    told.push(Entry::Step { step: 0 })?;
    told.push(Entry::Fault(fault.copy(alloc)?))
}

/// How many entries a transcript has then.
fn told_of(alloc: Global, fault: &Fault) -> Mem<usize> {
    let mut told = Transcript::new(alloc);
    tell(alloc, &mut told, fault)?;
    Ok(told.entries().len())
}

/// The number of a fault's copy.
fn number_of_copy(alloc: Global, fault: &Fault) -> Mem<u8> {
    Ok(fault.copy(alloc)?.number())
}

#[test]
fn a_transcript_keeps_its_entries(rt: HostRuntime) -> Result<(), Fail> {
    let alloc = rt.alloc();
    is(&rt, Fault::from(NoMemory).number(), 1);
    is(&rt, number_of_copy(alloc, &Fault::FloorBlockMissing)?, 19);
    let fault = Fault::LocalState(LocalCause::ShareRefused { epoch: Epoch(2) });
    is(&rt, fault.number(), 17);
    is(&rt, told_of(alloc, &fault)?, 2);
    Ok(())
}

#[test]
fn bounds_grow_with_a_directory(rt: HostRuntime) -> Result<(), Fail> {
    let max = four()?;
    is(&rt, EpochInfo::<Addresses>::max_encode_size(max), 357);
    is(&rt, Payload::<Addresses>::max_encode_size(max), 358);
    is(&rt, Block::<Addresses>::max_encode_size(max), 467);
    Ok(())
}

const ONE: Address = Address::Symmetric(Socket { ip: 1, port: 1 });

const TWO: Address = Address::Asymmetric {
    ingress: Socket { ip: 2, port: 2 },
    egress: Socket { ip: 3, port: 3 },
};

/// The addresses of keys 1 and 2.
const ADDRESSES: [(Key, Address); 2] = [(Key(1), ONE), (Key(2), TWO)];

/// The directory of these addresses.
fn addresses(alloc: Global, pairs: &[(Key, Address)]) -> Mem<Addresses> {
    if pairs.len() > 9 {
        return Err(NoMemory);
    }
    Addresses::from_pairs(alloc, pairs.to_vec(alloc)?)
}

/// Whether a directory is one of so many keys.
fn matches(alloc: Global, directory: &Addresses, count: u32) -> Result<bool, Fail> {
    let keys = keys(alloc, count)?;
    Ok(directory.matches(&keys))
}

#[test]
fn a_directory_matches_its_keys_alone(rt: HostRuntime) -> Result<(), Fail> {
    let alloc = rt.alloc();
    let directory = addresses(alloc, &ADDRESSES)?;
    let rows = [(2, true), (3, false), (1, false)];
    for (count, want) in rows {
        is_at(&rt, matches(alloc, &directory, count)?, want, count);
    }
    is(&rt, directory.get(Key(2)), Some(&TWO));
    is(&rt, directory.get(Key(3)), None);
    Ok(())
}

/// The directory of a directory's map, copied. Fails where the copy differs.
fn made_again(alloc: Global, directory: &Addresses) -> Result<Addresses, Fail> {
    let copy = directory.copy(alloc)?;
    if !copy.same(directory) {
        return Err(Fail::from("a copy differs"));
    }
    Ok(Addresses::from_map(copy.into_inner()))
}

#[test]
fn a_directory_is_spelled_as_a_map(rt: HostRuntime) -> Result<(), Fail> {
    let alloc = rt.alloc();
    let again = made_again(alloc, &addresses(alloc, &ADDRESSES)?)?;
    let bytes = encode(alloc, &again)?;
    let want = [
        2, 0, 0, 0, 1, 0, 0, 0, 2, 2, 0, 0, 0, 0, 1, 0, 1, 1, 0, 0, 0, 2, 0, 2, 0, 0, 0, 3, 0, 3,
    ];
    is(&rt, bytes.as_slice(), want.as_slice());
    is(&rt, again.size(), 30);
    Ok(())
}

/// The keys that have addresses.
fn keys_of(alloc: Global, addresses: &Map<Address>) -> Mem<Set> {
    let mut keys = Vec::new(alloc);
    for (key, _) in addresses.as_slice() {
        keys.push(*key)?;
    }
    if keys.len() > 9 {
        return Err(NoMemory);
    }
    Set::from_any(alloc, &keys)
}

/// A manager of peers that keeps the last set that it was handed.
#[derive(Drop)]
struct Kept {
    id: u64,
    primary: Option<Set>,
}

impl Provider for Kept {
    ghost use Rattle.std.specs.Prelude.{None, false};

    ghost tells = { false };

    ghost sets = { λ _ _. None };

    fn peer_set(&mut self, alloc: Global, id: u64) -> Mem<Option<TrackedPeers>> {
        match &self.primary {
            Some(primary) if id == self.id => Ok(Some(TrackedPeers {
                primary: primary.copy(alloc)?,
                secondary: Set::from_any(alloc, &[])?,
            })),
            _ => Ok(None),
        }
    }
}

impl PeerManager for Kept {
    fn track(&mut self, _alloc: Global, id: u64, peers: TrackedPeers) -> Mem<()> {
        self.id = id;
        self.primary = Some(peers.primary);
        Ok(())
    }
}

impl AddressedPeerManager for Kept {
    ghost use Rattle.std.specs.Prelude.{None};

    ghost reached = { λ _ _. None };

    fn track(
        &mut self,
        alloc: Global,
        id: u64,
        primary: Map<Address>,
        _secondary: Map<Address>,
    ) -> Mem<()> {
        self.primary = Some(keys_of(alloc, &primary)?);
        self.id = id;
        Ok(())
    }
}

/// How many primary peers a manager tracks by the number 0.
fn primary_of<M: Manager>(manager: &mut M, alloc: Global) -> Mem<Option<u32>> {
    match manager.peer_set(alloc, 0)? {
        Some(peers) => Ok(Some(peers.primary.len())),
        None => Ok(None),
    }
}

/// What a manager of any kind answers where keys 1 and 2 are primary, and how many peers it tracks then.
fn tracked_by<M: Manager>(
    manager: &mut M,
    alloc: Global,
    directory: &M::Dir,
) -> Result<(Result<(), TrackError>, Option<u32>), Fail> {
    let peers = TrackedPeers {
        primary: keys(alloc, 2)?,
        secondary: keys(alloc, 0)?,
    };
    let answer = manager.track(alloc, Epoch(0), peers, directory);
    Ok((answer, primary_of(manager, alloc)?))
}

fn empty_manager() -> Kept {
    Kept {
        id: 9,
        primary: None,
    }
}

#[test]
fn a_refused_call_tracks_nobody(rt: HostRuntime) -> Result<(), Fail> {
    let alloc = rt.alloc();
    let mut manager = AddressableManager::new(empty_manager());
    let missing = TrackError::Missing(MissingAddress(Key(2)));
    let answer = tracked_by(&mut manager, alloc, &addresses(alloc, &ADDRESSES[..1])?)?;
    is(&rt, answer, (Err(missing), None));
    let answer = tracked_by(&mut manager, alloc, &addresses(alloc, &ADDRESSES)?)?;
    is(&rt, answer, (Ok(()), Some(2)));
    Ok(())
}

#[test]
fn keys_alone_never_miss(rt: HostRuntime) -> Result<(), Fail> {
    let mut manager = KeyOnlyManager::new(empty_manager());
    let answer = tracked_by(&mut manager, rt.alloc(), &Unit)?;
    is(&rt, answer, (Ok(()), Some(2)));
    Ok(())
}

/// Whether a copy is the value, and no other value is.
fn is_copied<T: Value + Drop>(alloc: Global, value: &T, other: &T) -> Result<bool, Fail> {
    let copy = value.copy(alloc)?;
    Ok(copy.same(value) && !copy.same(other))
}

/// A public half of one coefficient.
fn constant(alloc: Global, byte: u8) -> Result<Public, Fail> {
    Ok(decode_cfg::<Public>(alloc, &[1, 0, byte], &4)?)
}

fn restored(alloc: Global, byte: u8) -> Result<Restored, Fail> {
    let private = Private(Element::new(7).ok_or("an element")?);
    Ok(Restored {
        epoch: Epoch(0),
        dealer: Key(2),
        public: constant(alloc, byte)?,
        private,
    })
}

fn opened(alloc: Global, byte: u8) -> Result<Entry, Fail> {
    let restored = vec![in alloc; restored(alloc, byte)?]?;
    Ok(Entry::Opened {
        life: 1,
        restored: RestoredList(restored),
    })
}

fn openings_are_copied(alloc: Global) -> Result<bool, Fail> {
    let one = opened(alloc, 5)?;
    let other = opened(alloc, 6)?;
    is_copied(alloc, &one, &other)
}

fn boxed(alloc: Global, byte: u8) -> Result<BoxedPublic, Fail> {
    Ok(BoxedPublic::of(alloc, constant(alloc, byte)?)?)
}

fn other_dealing(alloc: Global, byte: u8) -> Result<Entry, Fail> {
    Ok(Entry::Fault(Fault::LocalState(LocalCause::OwnDealing {
        epoch: Epoch(0),
        kept: boxed(alloc, 5)?,
        dealt: boxed(alloc, byte)?,
    })))
}

fn other_dealings_are_copied(alloc: Global) -> Result<bool, Fail> {
    let one = other_dealing(alloc, 6)?;
    let other = other_dealing(alloc, 7)?;
    is_copied(alloc, &one, &other)
}

fn answered(answer: AnswerLine) -> Entry {
    Entry::Answer { request: 1, answer }
}

fn answers_are_copied(alloc: Global) -> Result<bool, Fail> {
    let one = answered(AnswerLine::Available(None));
    let other = answered(AnswerLine::Unavailable(Why::Short));
    is_copied(alloc, &one, &other)
}

fn preparations_are_copied(alloc: Global) -> Result<bool, Fail> {
    let one = Entry::Prepared(PreparedLine::Ready(None));
    let other = Entry::Prepared(PreparedLine::Wait);
    is_copied(alloc, &one, &other)
}

#[test]
fn entries_are_copied_and_compared(rt: HostRuntime) -> Result<(), Fail> {
    let alloc = rt.alloc();
    holds(&rt, openings_are_copied(alloc)?);
    holds(&rt, other_dealings_are_copied(alloc)?);
    holds(&rt, answers_are_copied(alloc)?);
    holds(&rt, preparations_are_copied(alloc)?);
    Ok(())
}

#[test]
fn a_block_is_within_its_bound(rt: HostRuntime) -> Result<(), Fail> {
    is(&rt, Block::<Unit>::max_encode_size(four()?), 253);
    let block = later_block(rt.alloc())?;
    block.fits_limits();
    is(&rt, block.encode_size(), 163);
    Ok(())
}

#[test]
fn a_directory_is_within_its_bound(rt: HostRuntime) -> Result<(), Fail> {
    is(&rt, Addresses::max_encode_size(2), 44);
    let directory = addresses(rt.alloc(), &ADDRESSES)?;
    directory.fits_peers();
    is(&rt, directory.size(), 30);
    Ok(())
}
