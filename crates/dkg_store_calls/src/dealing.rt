//! What a dealer does at its end, and what a store keeps of an epoch that is committed. All of it over any ceremony, devices and directory: only the
//! tests pick them. What a dealer makes of acknowledgements, and its log, stand in rows of `dkg_replay`.
ghost use Rattle.std.specs.Prelude.{◌≡◌, IfOk, IfSome, Contains, true};
ghost use Rattle.dkg_store.specs.Dealer.{IsDealerOf};

use crate::asserts::is;
use crate::memory::{Memory, opened};
use dkg_ceremony::{
    Ceremony, Mode, ModeVersion, Output, Reveal, Round, Share, Signer, StandCeremony, StandSigner,
    decode_cfg,
};
use dkg_infos::{EpochInfo, EpochOutcome, Unit};
use dkg_journal::Disk;
use dkg_store::{Dealer, Devices, SecretStore, Store, StoreError};
use dkg_values::{Element, Epoch, Key, Seed, Set};
use std::alloc::Global;
use std::test::Fail;

pub(crate) const ME: Key = Key(1);

const KEYS: [Key; 4] = [Key(1), Key(2), Key(3), Key(4)];

const SEED: Seed = Seed([7; 32]);

pub(crate) fn round_of<C: Ceremony>(alloc: Global, ceremony: &C) -> Result<Round, Fail> {
    let keys = Set::from_any(alloc, &KEYS)?;
    let mode = Mode::NonZeroCounter;
    Ok(ceremony.round(alloc, b"", 0, None, mode, Reveal::V1, &keys, &keys)?)
}

/// The dealer that a store makes of a signer that deals.
fn created<C: Ceremony, Dir: Drop>(
    alloc: Global,
    ceremony: &C,
    signer: &C::Signer,
    store: &Store<Dir>,
    round: &Round,
) -> Result<Option<Dealer>, StoreError>
    requires { Contains round.now.dealers (C.Signer.key_of signer.now) }
    ensures is_open { IfOk result (λ made. IfSome made (λ dealer. dealer.is_open ≡ true)) }
    ensures me { IfOk result (λ made. IfSome made (λ dealer. dealer.me ≡ C.Signer.key_of signer.now)) }
    ensures dealer { IfOk result (λ made. IfSome made (λ dealer. IsDealerOf C.deal_of C.check_ack_of dealer)) }
{
    store.create_dealer(alloc, ceremony, Epoch(0), signer, round, None, &SEED)
}

/// The signer's dealer.
fn made<C: Ceremony, Dir: Drop>(
    alloc: Global,
    ceremony: &C,
    signer: &C::Signer,
    store: &Store<Dir>,
    round: &Round,
) -> Result<Dealer, Fail>
    ensures is_open { IfOk result (λ dealer. dealer.is_open ≡ true) }
    ensures me { IfOk result (λ dealer. dealer.me ≡ C.Signer.key_of signer.now) }
    ensures dealer { IfOk result (λ dealer. IsDealerOf C.deal_of C.check_ack_of dealer) }
{
    if !round.parts().dealers.has(signer.public_key()) {
        return Err(Fail::from("the key doesn't deal"));
    }
    match created(alloc, ceremony, signer, store, round)? {
        Some(dealer) => Ok(dealer),
        None => Err(Fail::from("no dealer")),
    }
}

/// Whether a dealer has a log, and none once it forgets it.
fn forgets(dealer: &mut Dealer) -> bool {
    let had = dealer.finalized().is_some();
    dealer.clear_finalized();
    had && dealer.finalized().is_none()
}

/// Whether a dealer makes its log at the first call, not at the second, is closed then, and forgets the log when it is told to.
fn closes_once<C: Ceremony>(
    alloc: Global,
    ceremony: &C,
    signer: &C::Signer,
    dealer: &mut Dealer,
) -> Result<bool, Fail>
    requires me { C.Signer.key_of signer.now ≡ dealer.old.me }
    requires dealer { IsDealerOf C.deal_of C.check_ack_of dealer.old }
{
    let first = dealer.finalize(alloc, ceremony, signer)?;
    let again = dealer.finalize(alloc, ceremony, signer)?;
    Ok(first && !again && !dealer.is_open() && forgets(dealer))
}

/// Whether a dealer whom nobody has acknowledged has a quorum of 12 players, and of 13; and whether it closes as it should.
fn ends<C: Ceremony>(
    alloc: Global,
    ceremony: &C,
    signer: &C::Signer,
    dealer: &mut Dealer,
) -> Result<[bool; 3], Fail>
    requires me { C.Signer.key_of signer.now ≡ dealer.old.me }
    requires dealer { IsDealerOf C.deal_of C.check_ack_of dealer.old }
{
    let twelve = dealer.has_acknowledgement_quorum(12);
    let thirteen = dealer.has_acknowledgement_quorum(13);
    let closes = closes_once(alloc, ceremony, signer, dealer)?;
    Ok([twelve, thirteen, closes])
}

/// That of the signer's dealer.
fn ended<C: Ceremony, Dir: Drop>(
    alloc: Global,
    ceremony: &C,
    signer: &C::Signer,
    store: &Store<Dir>,
    round: &Round,
) -> Result<[bool; 3], Fail> {
    let mut dealer = made(alloc, ceremony, signer, store, round)?;
    let ends = ends(alloc, ceremony, signer, &mut dealer);
    drop(dealer);
    ends
}

/// That of a store over these devices.
fn ended_in<D: Disk, X: SecretStore>(
    alloc: Global,
    devices: &mut Devices<'_, D, X>,
    round: &Round,
) -> Result<[bool; 3], Fail> {
    let store: Store<Unit> = opened(alloc, devices)?;
    ended(alloc, &StandCeremony, &StandSigner::new(ME), &store, round)
}

/// That over empty devices, in a round of four.
fn ended_in_memory(alloc: Global) -> Result<[bool; 3], Fail> {
    let round = round_of(alloc, &StandCeremony)?;
    let mut memory = Memory::new(alloc);
    let ended = ended_in(alloc, &mut memory.devices(), &round);
    drop(memory);
    ended
}

// Four players are to acknowledge: three may be at fault of twelve, and four of thirteen.
#[test]
fn a_dealer_closes_once(rt: HostRuntime) -> Result<(), Fail> {
    is(&rt, ended_in_memory(rt.alloc())?, [false, true, true]);
    Ok(())
}

/// A mark of zeros, and 5 + x + 2x² among four.
const SHARED: [u8; 17] = [0, 0, 0, 0, 0, 0, 0, 0, 0, 4, 3, 0, 5, 0, 1, 0, 2];

/// The keys of the four.
const SET: [u8; 17] = [4, 0, 0, 0, 1, 0, 0, 0, 2, 0, 0, 0, 3, 0, 0, 0, 4];

/// Puts that output: all four players have dealt it, and nobody's private half is revealed.
fn put_output(bytes: &mut Vec<u8>) -> Result<(), Fail> {
    bytes.extend_from_slice(&SHARED)?;
    bytes.extend_from_slice(&SET)?;
    bytes.extend_from_slice(&SET)?;
    bytes.push(0)?;
    Ok(())
}

fn output(alloc: Global) -> Result<Output, Fail> {
    let mut bytes = Vec::new(alloc);
    put_output(&mut bytes)?;
    Ok(decode_cfg::<Output>(alloc, bytes.as_slice(), &(4, ModeVersion(0)))?)
}

/// The four, as an epoch's players and as the next one's.
fn both_players(alloc: Global) -> Result<(Set, Set), Fail> {
    let players = Set::from_any(alloc, &KEYS)?;
    Ok((players, Set::from_any(alloc, &KEYS)?))
}

/// What the next epoch is committed with.
fn next_info(alloc: Global) -> Result<EpochInfo<Unit>, Fail> {
    let output = output(alloc)?;
    let (players, next_players) = both_players(alloc)?;
    Ok(EpochInfo {
        outcome: EpochOutcome::Success,
        epoch: Epoch(1),
        output,
        players,
        next_players,
        directory: Unit,
    })
}

/// The epoch that is current.
fn current_of<Dir: Drop>(store: &Store<Dir>) -> Option<Epoch> {
    match store.current() {
        Some(info) => Some(info.epoch),
        None => None,
    }
}

/// Whether the next epoch has both secrets.
fn has_secrets<D: Disk, X: SecretStore, Dir: Drop>(
    alloc: Global,
    devices: &mut Devices<'_, D, X>,
    store: &mut Store<Dir>,
    share: Share,
) -> Result<bool, StoreError> {
    let kept = store.share(alloc, devices, Epoch(1))?;
    let newest = store.share_below(alloc, devices, Epoch(2))?;
    let seed = store.seed(alloc, devices, Epoch(1))?;
    Ok(kept == Some(share) && newest == kept && seed == Some(SEED))
}

/// Commits an epoch, which is the next one. Which epoch is current then, and whether it has both secrets.
fn committed<D: Disk, X: SecretStore, Dir: Drop>(
    alloc: Global,
    devices: &mut Devices<'_, D, X>,
    store: &mut Store<Dir>,
    info: EpochInfo<Dir>,
    share: Share,
) -> Result<(Option<Epoch>, bool), Fail> {
    store.commit_epoch(alloc, devices, info, SEED, Some(share))?;
    let has_secrets = has_secrets(alloc, devices, store, share)?;
    Ok((current_of(store), has_secrets))
}

/// Commits the next epoch.
fn next_committed<D: Disk, X: SecretStore>(
    alloc: Global,
    devices: &mut Devices<'_, D, X>,
    store: &mut Store<Unit>,
) -> Result<(Option<Epoch>, bool), Fail> {
    let share = Share(Element::new(8).ok_or("no element")?);
    let info = next_info(alloc)?;
    committed(alloc, devices, store, info, share)
}

/// That in a store of its own.
fn committed_once<D: Disk, X: SecretStore>(
    alloc: Global,
    devices: &mut Devices<'_, D, X>,
) -> Result<(Option<Epoch>, bool), Fail> {
    let mut store: Store<Unit> = opened(alloc, devices)?;
    let found = next_committed(alloc, devices, &mut store);
    drop(store);
    found
}

/// That over empty devices.
fn committed_in_memory(alloc: Global) -> Result<(Option<Epoch>, bool), Fail> {
    let mut memory = Memory::new(alloc);
    let found = committed_once(alloc, &mut memory.devices());
    drop(memory);
    found
}

#[test]
fn a_committed_epoch_is_current(rt: HostRuntime) -> Result<(), Fail> {
    is(
        &rt,
        committed_in_memory(rt.alloc())?,
        (Some(Epoch(1)), true),
    );
    Ok(())
}
