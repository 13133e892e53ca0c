//! What a probe is made of, of any parts and of those that the cases have, and the blocks that it serves from.
ghost use Rattle.std.specs.Prelude.{◌+◌, ◌<◌, ◌^◌, ◌↔◌, length, IfSome, IsTrue};

use dkg_ceremony::ModeVersion;
use dkg_infos::{Directory, EpochInfo, Participants, TrackedPeers, Unit};
use dkg_probe::{Actor, Blocks, Bootstrap, Config};
use dkg_types::{
    Address, AddressedPeerManager, Block, Context, Finalization, KeyOnlyManager, Manager, Payload,
    PeerManager, Provider, Scheme, StandScheme,
};
use dkg_values::{Digest, Epoch, Height, Key, Map, Mem, Set, decode_cfg, encode};
use std::alloc::Global;
use std::num::{NonZeroU32, NonZeroU64};

/// How many keys a set in a block may have, and the newest mode that a sharing may have.
pub fn probe_limits() -> Option<(NonZeroU32, ModeVersion)> {
    Some((NonZeroU32::new(4)?, ModeVersion(0)))
}

/// The identity of the cases' scheme.
pub fn probe_scheme() -> StandScheme {
    StandScheme::new(Key(0))
}

/// A certified finalization of a digest of equal bytes.
pub fn sealed(alloc: Global, epoch: u64, view: u64, byte: u8) -> Option<Finalization> {
    probe_scheme()
        .seal(alloc, Epoch(epoch), view, 0, Digest([byte; 32]))
        .ok()
}

/// The keys 1 to 4.
fn four_keys(alloc: Global) -> Option<Set> {
    Set::from_any(alloc, &[Key(1), Key(2), Key(3), Key(4)]).ok()
}

/// The bytes of an info of an epoch below 128.
fn info_bytes(alloc: Global, epoch: u8) -> Option<Vec<u8>> {
    let keys = encode(alloc, &four_keys(alloc)?).ok()?;
    // The outcome, the epoch and what the round was.
    let mut bytes = Vec::from_slice(alloc, &[0, epoch]).ok()?;
    bytes.extend_from_slice(&[0; 8]).ok()?;
    // The sharing's mode, its total and its polynomial, and who dealt, who plays and who is revealed.
    bytes.extend_from_slice(&[0, 4, 3, 0, 5, 0, 1, 0, 2]).ok()?;
    bytes.extend_from_slice(keys.as_slice()).ok()?;
    bytes.extend_from_slice(keys.as_slice()).ok()?;
    bytes.extend_from_slice(&[0]).ok()?;
    // The players, and the next ones.
    bytes.extend_from_slice(keys.as_slice()).ok()?;
    bytes.extend_from_slice(keys.as_slice()).ok()?;
    Some(bytes)
}

/// An info of an epoch below 128: success, the keys 1 to 4, who share 5 + x + 2x², and the same players now and next.
pub fn probe_info(alloc: Global, epoch: u8) -> Option<EpochInfo<Unit>> {
    let bytes = info_bytes(alloc, epoch)?;
    decode_cfg::<EpochInfo<Unit>>(alloc, bytes.as_slice(), &probe_limits()?).ok()
}

/// Blocks from genesis on, two an epoch, and their finalizations, each height's at its index.
#[derive(Drop)]
pub struct HeldBlocks {
    blocks: Vec<Block<Unit>>,
    finalizations: Vec<Finalization>,
}

impl Blocks<Unit> for HeldBlocks {
    ghost use Rattle.std.specs.Prelude.{slice_get, length, ◌-◌};

    ghost source = { λ h. record { block = λ height. slice_get h.blocks.items height; finalization = λ height. slice_get h.finalizations.items height; latest = slice_get h.finalizations.items (length h.finalizations.items - 1) } };

    fn block(&self, height: Height) -> Option<&Block<Unit>> {
        self.blocks.get(height.0 as usize)
    }

    fn finalization(&self, _alloc: Global, height: Height) -> Mem<Option<Finalization>> {
        Ok(self.finalizations.get(height.0 as usize).copied())
    }

    fn latest(&self, _alloc: Global) -> Mem<Option<Finalization>> {
        Ok(
            self.finalizations
                .get(self.finalizations.len().saturating_sub(1))
                .copied(),
        )
    }
}

/// What the block at a height carries: the last of each epoch the next one's info, and the first of all that of epoch zero.
fn carried(alloc: Global, height: u8) -> Option<Option<Payload<Unit>>> {
    if height == 0 {
        Some(Some(Payload::EpochInfo(probe_info(alloc, 0)?)))
    } else if height % 2 == 1 {
        Some(Some(Payload::EpochInfo(probe_info(alloc, height / 2 + 1)?)))
    } else {
        Some(None)
    }
}

/// The block at a height, behind its parent. Its view is its height.
pub fn held_block(alloc: Global, height: u8, parent: Digest) -> Option<Block<Unit>> {
    let context = Context {
        epoch: Epoch(u64::from(height / 2)),
        view: u64::from(height),
        leader: Key(0),
        parent_view: 0,
        parent,
    };
    let carried = carried(alloc, height)?;
    Block::new(alloc, context, parent, Height(u64::from(height)), carried).ok()
}

impl HeldBlocks {
    /// Takes the block at a height in, and gives its digest.
    fn add(&mut self, alloc: Global, height: u8, parent: Digest) -> Option<Digest> {
        let block = held_block(alloc, height, parent)?;
        let digest = block.digest();
        self.blocks.push(block).ok()?;
        let (epoch, view) = (u64::from(height / 2), u64::from(height));
        let finalization = probe_scheme().seal(alloc, Epoch(epoch), view, 0, digest);
        self.finalizations.push(finalization.ok()?).ok()?;
        Some(digest)
    }
}

/// So many blocks.
pub fn held_blocks(alloc: Global, count: u8) -> Option<HeldBlocks> {
    let mut made = HeldBlocks {
        blocks: Vec::new(alloc),
        finalizations: Vec::new(alloc),
    };
    let mut parent = Digest([0; 32]);
    for height in 0..count {
        parent = made.add(alloc, height, parent)?;
    }
    Some(made)
}

/// A manager of peers that counts how often it was asked to track some.
#[derive(Drop)]
pub struct TrackCount {
    tracked: u64,
}

impl TrackCount {
    /// Nobody was tracked yet.
    pub fn new() -> TrackCount {
        TrackCount { tracked: 0 }
    }
}

impl Provider for TrackCount {
    ghost use Rattle.std.specs.Prelude.{None, false};

    ghost tells = { false };

    ghost sets = { λ _ _. None };

    fn peer_set(&mut self, _alloc: Global, _id: u64) -> Mem<Option<TrackedPeers>> {
        Ok(None)
    }
}

impl PeerManager for TrackCount {
    fn track(&mut self, _alloc: Global, _id: u64, _peers: TrackedPeers) -> Mem<()> {
        self.tracked = self.tracked.saturating_add(1);
        Ok(())
    }
}

impl AddressedPeerManager for TrackCount {
    ghost use Rattle.std.specs.Prelude.{None};

    ghost reached = { λ _ _. None };

    fn track(
        &mut self,
        _alloc: Global,
        _id: u64,
        _primary: Map<Address>,
        _secondary: Map<Address>,
    ) -> Mem<()> {
        self.tracked = self.tracked.saturating_add(1);
        Ok(())
    }
}

fn are_in_bound(participants: &Participants) -> bool
    ensures { IsTrue result ↔ (length participants.now.players + length participants.now.next_players < 2 ^ 32) }
{
    participants
        .players
        .len()
        .checked_add(participants.next_players.len())
        .is_some()
}

fn no_players(alloc: Global, dealers: Set) -> Option<Participants> {
    Some(Participants {
        dealers,
        players: Set::from_any(alloc, &[]).ok()?,
        next_players: Set::from_any(alloc, &[]).ok()?,
    })
}

/// The keys 1 to 4 as dealers, and no players.
pub fn four_dealers(alloc: Global) -> Option<Participants>
    ensures { IfSome result (λ made. length made.players + length made.next_players < 2 ^ 32) }
{
    let participants = no_players(alloc, four_keys(alloc)?)?;
    if are_in_bound(&participants) {
        Some(participants)
    } else {
        None
    }
}

/// What a probe of any parts is made of, beside its participants.
#[derive(Drop)]
pub struct ProbeSetting<M, S, Dir> {
    /// Who tracks the checkpoint's peers.
    pub manager: M,
    /// Who checks finalizations.
    pub verifier: S,
    /// That of the checkpoint.
    pub directory: Dir,
    /// The info of epoch zero.
    pub genesis: EpochInfo<Dir>,
}

/// The numbers of a probe: its checkpoint's epoch, a floor, if any, how many blocks an epoch has, and the limits.
#[derive(Clone, Copy)]
pub struct ProbeNumbers {
    least: u64,
    floor: Option<Finalization>,
    blocks_per_epoch: NonZeroU64,
    limits: (NonZeroU32, ModeVersion),
}

/// The numbers of a probe of epochs of two blocks.
pub fn probe_numbers(least: u64, floor: Option<Finalization>) -> Option<ProbeNumbers> {
    Some(ProbeNumbers {
        least,
        floor,
        blocks_per_epoch: NonZeroU64::new(2)?,
        limits: probe_limits()?,
    })
}

/// A probe of any parts.
pub fn probe_of<M: Manager<Dir = Dir>, S: Scheme, Dir: Directory + Drop>(
    alloc: Global,
    numbers: ProbeNumbers,
    participants: Participants,
    setting: ProbeSetting<M, S, Dir>,
) -> Actor<M, S, Dir>
where
    Dir::Cfg: Drop,
    requires { length participants.players + length participants.next_players < 2 ^ 32 }
{
    let ProbeSetting {
        manager,
        verifier,
        directory,
        genesis,
    } = setting;
    let ProbeNumbers {
        least,
        floor,
        blocks_per_epoch,
        limits,
    } = numbers;
    Actor::new(
        alloc,
        Config {
            manager,
            bootstrap: Bootstrap {
                epoch: Epoch(least),
                participants,
                directory,
            },
            floor,
            verifier,
            genesis,
            blocks_per_epoch,
            limits,
        },
    )
}

/// A probe without a directory, over the cases' manager and scheme.
pub type PlainProbe = Actor<KeyOnlyManager<TrackCount>, StandScheme, Unit>;

/// A floor of this epoch, if any.
fn floor_of(alloc: Global, epoch: Option<u64>) -> Option<Option<Finalization>> {
    match epoch {
        None => Some(None),
        Some(epoch) => Some(Some(sealed(alloc, epoch, 0, 0)?)),
    }
}

/// A probe without a directory whose checkpoint is of this epoch, with a floor of another, if any.
pub fn plain_probe(alloc: Global, least: u64, floor: Option<u64>) -> Option<PlainProbe> {
    let numbers = probe_numbers(least, floor_of(alloc, floor)?)?;
    let participants = four_dealers(alloc)?;
    let setting = ProbeSetting {
        manager: KeyOnlyManager::new(TrackCount::new()),
        verifier: probe_scheme(),
        directory: Unit,
        genesis: probe_info(alloc, 0)?,
    };
    Some(probe_of(alloc, numbers, participants, setting))
}
