//! A dealer's part of a round: the polynomial that it deals, and each player's value of it.
//!
//! The stand-in ceremony deals so. A new key's polynomial is drawn from the seed; one that is dealt again begins with
//! the dealer's share.
ghost use Rattle.std.specs.Prelude.{◌≤◌, ◌≡◌, ℕ, ◌+◌, ◌<◌, IfOk, map};
ghost use Rattle.std.specs.Option.{option_copied};
ghost use Rattle.dkg_ceremony.specs.Deals.{AnswersDeal, again_of, coefficient_of, deal_of, dealt_at, dealt_poly, fresh_seed as fresh_seed_of, halves_from, is_share_of};
ghost use Rattle.dkg_ceremony.specs.declared.deal.DealError.TheVariants.{NoMemory as NoMemoryLeft};

use crate::evaluate::{fits, value_of};
use crate::output::Output;
use crate::private::{Private, Share};
use crate::public::Public;
use crate::round::Round;
use crate::threshold::quorum;
use dkg_values::{Element, Epoch, Key, Map, Mem, NoMemory, Seed, Set};
use sha2::{Digest, Sha256};
use std::alloc::{AllocError, AllocFailed, Global};
use thiserror::Error;

/// Why nothing is dealt.
#[derive(Clone, Copy, Debug, PartialEq, Eq, Error)]
pub enum DealError {
    /// There is a previous output, and no share, or one that is not the dealer's.
    #[error("the share is not the dealer's")]
    ShareRefused,
    #[error("out of memory")]
    NoMemory,
}

impl From<NoMemory> for DealError {
    ghost from_gives = { λ _ e. e ≡ NoMemoryLeft };

    fn from(_e: NoMemory) -> DealError {
        DealError::NoMemory
    }
}

impl From<AllocError> for DealError {
    ghost from_gives = { λ _ e. e ≡ NoMemoryLeft };

    fn from(_e: AllocError) -> DealError {
        DealError::NoMemory
    }
}

impl<T: Drop> From<AllocFailed<T>> for DealError {
    ghost from_gives = { λ _ e. e ≡ NoMemoryLeft };

    fn from(_e: AllocFailed<T>) -> DealError {
        DealError::NoMemory
    }
}

/// The seed that a node draws for an epoch of which it has none yet, in a life with this random word.
#[tactic(auto, unfolding(crate::specs::Deals::fresh_seed))]
pub fn fresh_seed(word: u64, epoch: Epoch) -> Seed
    ensures { result ≡ fresh_seed_of word epoch }
{
    let mut hasher = Sha256::new();
    hasher.update(&word.to_be_bytes());
    hasher.update(&epoch.0.to_be_bytes());
    Seed(hasher.finalize())
}

/// The element of a number below 65,521.
pub(crate) fn element_of(number: u32) -> Element
    requires { number < 65521 }
    ensures { result ≡ number }
{
    match Element::new(number as u16) {
        Some(element) => element,
        None => unreachable!(),
    }
}

/// A coefficient that is drawn from the seed: the first two bytes of SHA-256 over the seed and the index, modulo the
/// prime.
#[tactic(auto, unfolding(crate::specs::Deals::coefficient_of))]
fn coefficient(seed: &Seed, index: u32) -> Element
    ensures { result ≡ coefficient_of seed.now index }
{
    let mut hasher = Sha256::new();
    hasher.update(&seed.0);
    hasher.update(&index.to_be_bytes());
    let digest: [u8; 32] = hasher.finalize();
    let number = u16::from_be_bytes([digest[0], digest[1]]);
    element_of(u32::from(number) % 65521)
}

/// A coefficient of the public half.
fn dealt(again: &Option<Element>, seed: &Seed, index: u32) -> Element
    ensures { result ≡ dealt_at again.now seed.now index }
{
    match again {
        Some(share) if index == 0 => *share,
        _ => coefficient(seed, index),
    }
}

/// The public half.
fn polynomial(alloc: Global, again: &Option<Element>, seed: &Seed, count: u32) -> Mem<Public>
    requires { 1 ≤ count }
    ensures { IfOk result (λ poly. poly ≡ dealt_poly again.now seed.now count) }
{
    let mut elements = Vec::new(alloc);
    for index in 0..count {
        elements.push(dealt(again, seed, index))?;
    }
    Ok(Public::new(alloc, elements)?)
}

/// The private half of each player.
fn halves(alloc: Global, poly: &Public, players: &Set) -> Mem<Map<Private>>
    ensures { IfOk result (λ map. map ≡ halves_from poly.now 0 players.now) }
{
    let mut pairs = Vec::new(alloc);
    let keys = players.as_slice();
    for index in 0..players.len() {
        let private = Private(element_of(value_of(poly, index)));
        pairs.push((keys[index as usize], private))?;
    }
    match Map::from_sorted(pairs) {
        Ok(map) => Ok(map),
        Err(_) => unreachable!(),
    }
}

/// Whether the share is the dealer's of the previous output, where there is one.
fn is_share(previous: &Option<Output>, dealer: Key, share: Option<&Share>) -> bool
    ensures { result ≡ is_share_of previous.now dealer (option_copied share.entry) }
{
    match (previous, share) {
        (None, _) => true,
        (Some(_), None) => false,
        (Some(output), Some(share)) => fits(&output.players, dealer, &output.sharing.poly, share.0),
    }
}

/// The constant coefficient that is dealt again.
fn share_again(previous: &Option<Output>, share: Option<&Share>) -> Option<Element>
    ensures { result ≡ again_of previous.now (option_copied share.entry) }
{
    match (previous, share) {
        (Some(_), Some(share)) => Some(share.0),
        _ => None,
    }
}

/// Deals: the public half, and the private half of each player.
#[tactic(auto, unfolding(crate::specs::Deals::deal_of))]
pub(crate) fn deal(
    alloc: Global,
    round: &Round,
    dealer: Key,
    share: Option<&Share>,
    seed: &Seed,
) -> Result<(Public, Map<Private>), DealError>
    ensures { AnswersDeal (deal_of round.now dealer (option_copied share.entry) seed.now) result }
{
    if !is_share(&round.parts().previous, dealer, share) {
        return Err(DealError::ShareRefused);
    }
    let again = share_again(&round.parts().previous, share);
    let count = quorum(round.parts().players.len()).max(1);
    let poly = polynomial(alloc, &again, seed, count)?;
    let map = halves(alloc, &poly, &round.parts().players)?;
    Ok((poly, map))
}
