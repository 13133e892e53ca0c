//! A round in which the keys from 1 on deal and play, and each log bears the acknowledgement of each player.
ghost use Rattle.std.specs.Prelude.{ℕ, Contains, IsTrue};
ghost use Rattle.dkg_ceremony.specs.ValidLogs.{has_entry};

use dkg_ceremony::{
    Ack, Ceremony, Mode, Private, Public, Reveal, Round, Seed, SignedDealerLog, Signer,
    StandCeremony, StandSigner,
};
use dkg_values::{Key, Map, Set};
use std::alloc::Global;

/// The most keys.
const MOST: usize = 1000;

fn first_keys(alloc: Global, count: u32) -> Option<Set> {
    let mut keys = Vec::new(alloc);
    for number in 0..count {
        keys.push(Key(number + 1)).ok()?;
    }
    if keys.len() > MOST {
        return None;
    }
    Set::from_sorted(keys).ok()
}

/// A map of these pairs, if they are no more than the most of a round.
pub fn map_of<V: Drop>(alloc: Global, pairs: Vec<(Key, V)>) -> Option<Map<V>> {
    if pairs.len() > MOST {
        return None;
    }
    Map::from_any(alloc, pairs).ok()
}

fn draw<C: Ceremony>(alloc: Global, ceremony: &C, keys: &Set) -> Option<Round> {
    let (mode, reveal) = (Mode::NonZeroCounter, Reveal::V1);
    ceremony
        .round(alloc, b"", 0, None, mode, reveal, keys, keys)
        .ok()
}

/// A round of so many keys.
pub fn of(alloc: Global, count: u32) -> Option<Round> {
    let keys = first_keys(alloc, count)?;
    draw(alloc, &StandCeremony, &keys)
}

fn seed_of(dealer: Key) -> Seed {
    let [_, _, high, low] = dealer.0.to_be_bytes();
    let mut seed = [low; 32];
    seed[0] = high;
    Seed(seed)
}

fn deal<C: Ceremony>(
    alloc: Global,
    ceremony: &C,
    round: &Round,
    signer: &C::Signer,
    seed: &Seed,
) -> Option<(Public, Map<Private>)> {
    if !round.parts().dealers.has(signer.public_key()) {
        return None;
    }
    ceremony.deal(alloc, round, signer, None, seed).ok()
}

/// What a dealer deals.
pub fn dealt(alloc: Global, round: &Round, dealer: Key) -> Option<(Public, Map<Private>)> {
    let signer = StandSigner::new(dealer);
    deal(alloc, &StandCeremony, round, &signer, &seed_of(dealer))
}

fn ack<C: Ceremony>(
    alloc: Global,
    ceremony: &C,
    round: &Round,
    signer: &C::Signer,
    dealer: Key,
    public: &Public,
) -> Option<Ack> {
    if !round.parts().players.has(signer.public_key()) {
        return None;
    }
    ceremony.ack(alloc, signer, round, dealer, public).ok()
}

fn ack_by(alloc: Global, round: &Round, player: Key, dealer: Key, public: &Public) -> Option<Ack> {
    let signer = StandSigner::new(player);
    ack(alloc, &StandCeremony, round, &signer, dealer, public)
}

/// The acknowledgements of all players.
fn acks(alloc: Global, round: &Round, dealer: Key, public: &Public) -> Option<Map<Ack>> {
    let mut pairs = Vec::new(alloc);
    for key in round.parts().players.as_slice() {
        pairs
            .push((*key, ack_by(alloc, round, *key, dealer, public)?))
            .ok()?;
    }
    map_of(alloc, pairs)
}

/// Whether there is something to write for each player.
fn have_entries(players: &Set, privates: &Map<Private>, acks: &Map<Ack>) -> bool
    ensures { IsTrue result → (player : ℕ) → Contains players.now player → IsTrue (has_entry privates.now acks.now player) }
{
    for key in players.as_slice() {
        if acks.get(*key).is_none() && privates.get(*key).is_none() {
            return false;
        }
    }
    true
}

fn sign<C: Ceremony>(
    alloc: Global,
    ceremony: &C,
    signer: &C::Signer,
    round: &Round,
    public: &Public,
    privates: &Map<Private>,
    acks: &Map<Ack>,
) -> Option<SignedDealerLog> {
    if !round.parts().dealers.has(signer.public_key()) {
        return None;
    }
    if !have_entries(&round.parts().players, privates, acks) {
        return None;
    }
    ceremony
        .sign_log(alloc, signer, round, public, privates, acks)
        .ok()
}

fn log_of(
    alloc: Global,
    round: &Round,
    dealer: Key,
    public: &Public,
    privates: &Map<Private>,
) -> Option<SignedDealerLog> {
    let signer = StandSigner::new(dealer);
    let acks = acks(alloc, round, dealer, public)?;
    sign(
        alloc,
        &StandCeremony,
        &signer,
        round,
        public,
        privates,
        &acks,
    )
}

fn log_by(alloc: Global, round: &Round, dealer: Key) -> Option<SignedDealerLog> {
    let (public, privates) = dealt(alloc, round, dealer)?;
    log_of(alloc, round, dealer, &public, &privates)
}

/// The log of each dealer.
pub fn logs(alloc: Global, round: &Round) -> Option<Vec<SignedDealerLog>> {
    let mut logs = Vec::new(alloc);
    for dealer in round.parts().dealers.as_slice() {
        logs.push(log_by(alloc, round, *dealer)?).ok()?;
    }
    Some(logs)
}
