//! The chain's ceremonies: each epoch's round, what is dealt in it, the logs, and the info that they make.
//!
//! `plan` asks for an epoch at a time, each after the one before.
ghost use Rattle.std.specs.Prelude.{◌≡◌, ℕ, ◌∷◌, [], ◌++◌, ◌<◌, ◌^◌, length, Some, IfOk, IsSome, Contains};
ghost use Rattle.std.specs.Int.{w64, to_be_bytes};
ghost use Rattle.dkg_values.specs.Rising.{lookup};
ghost use Rattle.dkg_ceremony.specs.Deals.{coefficient_of};
ghost use Rattle.dkg_ceremony.specs.Outcomes.{outcome_of};
ghost use Rattle.dkg_ceremony.specs.PartialPublics.{partial_public_of};
ghost use Rattle.dkg_infos.specs.NextInfos.{info_by, next_info};
ghost use Rattle.dkg_generator.specs.Chain.{acks_of as acks_from, by_dealer as by_dealer_of, dealer_seed as dealer_seed_of, everybody as everybody_of, genesis as genesis_of, genesis_poly, halves_of, log_by, provided, round_after as round_from};

use dkg_ceremony::{
    Ack, Blob, Ceremony, DealError, DealerLog, Element, Epoch, Key, Map, Mark, Mem, Mode, NoMemory,
    Output, Private, Public, Reveal, Round, RoundParts, Seed, Set, Share, Sharing, SignedDealerLog,
    StandCeremony, StandSigner, Value,
};
use dkg_infos::{EpochInfo, EpochOutcome, Unit};
use sha2::{Digest, Sha256};
use std::alloc::Global;

/// Who takes part in each epoch.
pub(crate) const KEYS: [Key; 7] = [Key(1), Key(2), Key(3), Key(4), Key(5), Key(6), Key(7)];

/// The set of all keys.
pub(crate) fn everybody(alloc: Global) -> Mem<Set>
    ensures { IfOk result (λ set. set ≡ everybody_of) }
{
    Set::from_any(alloc, &KEYS)
}

/// A coefficient of the first polynomial, drawn from the script's number.
#[tactic(auto, unfolding(dkg_ceremony::specs::Deals::coefficient_of))]
fn coefficient(number: u64, index: u32) -> Element
    ensures { result ≡ coefficient_of (to_be_bytes w64 number ++ 1 ∷ []) index }
{
    let mut hasher = Sha256::new();
    hasher.update(&number.to_be_bytes());
    hasher.update(&[1]);
    hasher.update(&index.to_be_bytes());
    let digest: [u8; 32] = hasher.finalize();
    match Element::new(u16::from_be_bytes([digest[0], digest[1]]) % 65521) {
        Some(element) => element,
        None => unreachable!(),
    }
}

/// The first polynomial, with a quorum's coefficients.
#[tactic(auto, unfolding(crate::specs::Chain::genesis_poly))]
fn polynomial(alloc: Global, number: u64) -> Mem<Public>
    ensures { IfOk result (λ poly. poly ≡ genesis_poly number) }
{
    let mut elements = Vec::new(alloc);
    for index in 0..5 {
        elements.push(coefficient(number, index))?;
    }
    Ok(Public::new(alloc, elements)?)
}

/// The info that the first block carries.
#[tactic(auto, unfolding(crate::specs::Chain::genesis))]
pub(crate) fn genesis(alloc: Global, number: u64) -> Mem<EpochInfo<Unit>>
    ensures { IfOk result (λ info. info ≡ genesis_of number) }
{
    let poly = polynomial(alloc, number)?;
    let output = Output {
        summary: Mark([0; 8]),
        sharing: Sharing {
            mode: Mode::NonZeroCounter,
            total: 7,
            poly,
        },
        dealers: everybody(alloc)?,
        players: everybody(alloc)?,
        revealed: Set::from_any(alloc, &[])?,
    };
    Ok(EpochInfo {
        outcome: EpochOutcome::Success,
        epoch: Epoch(0),
        output,
        players: everybody(alloc)?,
        next_players: everybody(alloc)?,
        directory: Unit,
    })
}

/// The round of an info's epoch.
pub(crate) fn round_after(alloc: Global, info: &EpochInfo<Unit>) -> Mem<Round>
    ensures { IfOk result (λ round. round ≡ round_from info.now) }
{
    let parts = RoundParts {
        namespace: Blob::new(Vec::new(alloc)),
        number: info.epoch.0,
        previous: Some(info.output.copy(alloc)?),
        mode: Mode::NonZeroCounter,
        reveal: Reveal::V1,
        dealers: everybody(alloc)?,
        players: everybody(alloc)?,
    };
    Round::new(alloc, parts)
}

/// What a dealer but this node draws its coefficients from.
#[tactic(auto, unfolding(crate::specs::Chain::dealer_seed))]
pub(crate) fn dealer_seed(number: u64, key: Key, epoch: Epoch) -> Seed
    ensures { result ≡ dealer_seed_of number key epoch }
{
    let mut hasher = Sha256::new();
    hasher.update(&number.to_be_bytes());
    hasher.update(&key.0.to_be_bytes());
    hasher.update(&epoch.0.to_be_bytes());
    Seed(hasher.finalize())
}

/// A key's share of an output.
fn share_of(output: &Output, key: Key) -> Share
    requires holders { output.now.players ≡ everybody_of }
    requires holder { Contains everybody_of key }
    ensures { partial_public_of output.now key ≡ Some result }
{
    match StandCeremony.partial_public(output, key) {
        Some(element) => Share(element),
        None => unreachable!(),
    }
}

/// What a key deals with its share of the info's output.
pub(crate) fn deal(
    alloc: Global,
    info: &EpochInfo<Unit>,
    round: &Round,
    key: Key,
    seed: &Seed,
) -> Mem<(Public, Map<Private>)>
    requires holders { info.now.output.players ≡ everybody_of }
    requires round { round.now ≡ round_from info.now }
    requires dealer { Contains everybody_of key }
    ensures dealt { IfOk result (λ halves. halves ≡ halves_of info.now key seed.now) }
    ensures whole { IfOk result (λ halves. (player : ℕ) → Contains everybody_of player → IsSome (lookup player halves.1)) }
{
    let share = share_of(&info.output, key);
    match StandCeremony.deal(alloc, round, &StandSigner::new(key), Some(&share), seed) {
        Ok(halves) => Ok(halves),
        Err(DealError::NoMemory) => Err(NoMemory),
        Err(DealError::ShareRefused) => unreachable!(),
    }
}

/// Each player's acknowledgement of a dealer's public half.
#[tactic(auto, unfolding(crate::specs::Chain::acks_of))]
fn acks_of(alloc: Global, round: &Round, dealer: Key, public: &Public) -> Mem<Map<Ack>>
    requires { round.now.players ≡ everybody_of }
    ensures { IfOk result (λ acks. acks ≡ acks_from round.now dealer public.now) }
{
    let mut acks = Vec::new(alloc);
    for player in KEYS {
        let ack = StandCeremony.ack(alloc, &StandSigner::new(player), round, dealer, public)?;
        acks.push((player, ack))?;
    }
    Map::from_any(alloc, acks)
}

/// The log of a dealer whom every player acknowledged.
pub(crate) fn sign(
    alloc: Global,
    round: &Round,
    dealer: Key,
    halves: &(Public, Map<Private>),
) -> Mem<SignedDealerLog>
    requires players { round.now.players ≡ everybody_of }
    requires dealers { Contains round.now.dealers dealer }
    requires whole { (player : ℕ) → Contains everybody_of player → IsSome (lookup player halves.now.1) }
    ensures { IfOk result (λ signed. signed ≡ log_by round.now dealer halves.now) }
{
    let acks = acks_of(alloc, round, dealer, &halves.0)?;
    let signer = StandSigner::new(dealer);
    StandCeremony.sign_log(alloc, &signer, round, &halves.0, &halves.1, &acks)
}

/// The logs by their dealers.
fn by_dealer(alloc: Global, logs: &[SignedDealerLog]) -> Mem<Map<DealerLog>>
    requires { length logs.now < 2 ^ 32 }
    ensures { IfOk result (λ map. map ≡ by_dealer_of logs.now) }
{
    let mut pairs = Vec::new(alloc);
    for signed in logs {
        pairs.push((signed.dealer, signed.log.copy(alloc)?))?;
    }
    Map::from_any(alloc, pairs)
}

/// The info after an info, with the output that its epoch's ceremony made, or else with the old one again.
fn info_with(alloc: Global, info: &EpochInfo<Unit>, made: Option<Output>) -> Mem<EpochInfo<Unit>>
    requires { info.now.epoch < 5 }
    ensures { IfOk result (λ next. next ≡ info_by provided info.now made) }
{
    let (outcome, output) = match made {
        Some(output) => (EpochOutcome::Success, output),
        None => (EpochOutcome::Failure, info.output.copy(alloc)?),
    };
    Ok(EpochInfo {
        outcome,
        epoch: Epoch(info.epoch.0 + 1),
        output,
        players: info.next_players.copy(alloc)?,
        next_players: everybody(alloc)?,
        directory: Unit,
    })
}

/// The info after an epoch's info, by the logs that the epoch's blocks carry.
pub(crate) fn info_after(
    alloc: Global,
    info: &EpochInfo<Unit>,
    round: &Round,
    logs: &[SignedDealerLog],
) -> Mem<EpochInfo<Unit>>
    requires epoch { info.now.epoch < 5 }
    requires in_bound { length logs.now < 2 ^ 32 }
    ensures { IfOk result (λ next. next ≡ next_info outcome_of provided info.now round.now (by_dealer_of logs.now)) }
{
    let logs = by_dealer(alloc, logs)?;
    let made = StandCeremony.observe(alloc, round, &logs)?;
    info_with(alloc, info, made)
}
