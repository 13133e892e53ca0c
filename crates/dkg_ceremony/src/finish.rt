//! What a player takes from a round: the outcome that all see, and its own share.
//!
//! The share is the same sum over private halves as the output is over public ones. A private half comes from the
//! player's dealings, or from a log that reveals it.
ghost use Rattle.std.specs.Prelude.{◌≡◌, length, Some, None, Contains, IfOk, IfErr};
ghost use Rattle.std.specs.List.{zip};
ghost use Rattle.std.specs.Str.{bytes_eq};
ghost use Rattle.dkg_ceremony.specs.Finishes.{AnswersFinish, TellsMissingDealing, finish_of, first_missing, first_that, known_privates, lacks_dealing, private_in, weighted_total};
ghost use Rattle.dkg_ceremony.specs.Outcomes.{selected_of};
ghost use Rattle.dkg_ceremony.specs.declared.finish.FinishError.TheVariants.{NoMemory as NoMemoryLeft};

use crate::combine::combine;
use crate::deal::element_of;
use crate::dealer_log::DealerLog;
use crate::log_entry::LogEntry;
use crate::output::Output;
use crate::private::{Private, Share};
use crate::public::Public;
use crate::round::Round;
use crate::select::select;
use crate::valid_log::entry_of;
use crate::weigh::weigh;
use dkg_values::{Element, Key, Map, NoMemory, Set, Value};
use std::alloc::{AllocError, AllocFailed, Global};
use thiserror::Error;

/// Why a player has no share.
#[derive(Clone, Copy, Debug, PartialEq, Eq, Error)]
pub enum FinishError {
    /// A selected log bears the player's acknowledgement, and no dealing has its public half.
    #[error("the dealing of {dealer:?} is missing")]
    MissingDealing { dealer: Key },
    #[error("out of memory")]
    NoMemory,
}

impl From<NoMemory> for FinishError {
    ghost from_gives = { λ _ e. e ≡ NoMemoryLeft };

    fn from(_e: NoMemory) -> FinishError {
        FinishError::NoMemory
    }
}

impl From<AllocError> for FinishError {
    ghost from_gives = { λ _ e. e ≡ NoMemoryLeft };

    fn from(_e: AllocError) -> FinishError {
        FinishError::NoMemory
    }
}

impl<T: Drop> From<AllocFailed<T>> for FinishError {
    ghost from_gives = { λ _ e. e ≡ NoMemoryLeft };

    fn from(_e: AllocFailed<T>) -> FinishError {
        FinishError::NoMemory
    }
}

/// Whether two public halves are one.
fn is_same(one: &Public, other: &Public) -> bool
    ensures { result ≡ bytes_eq one.now other.now }
{
    one.same(other)
}

/// A player's private half of what a dealer dealt, where it is known.
fn private_of(
    players: &Set,
    me: Key,
    dealings: &Map<(Public, Private)>,
    logs: &Map<DealerLog>,
    dealer: Key,
) -> Option<Element>
    ensures { result ≡ private_in players.now me dealings.now logs.now dealer }
{
    let log = logs.get(dealer)?;
    match entry_of(players, me, log)? {
        LogEntry::Reveal(private) => Some(private.0),
        LogEntry::Ack(_) => {
            let (public, private) = dealings.get(dealer)?;
            if is_same(public, &log.public) {
                Some(private.0)
            } else {
                None
            }
        }
    }
}

/// A player's private half of what each selected dealer dealt.
fn privates_of(
    alloc: Global,
    players: &Set,
    me: Key,
    dealings: &Map<(Public, Private)>,
    logs: &Map<DealerLog>,
    selected: &[Key],
) -> Result<Vec<Element>, FinishError>
    ensures all { IfOk result
        (λ privates. (first_missing (private_in players.now me dealings.now logs.now) selected.now ≡ None)
        × (privates.items ≡ known_privates (private_in players.now me dealings.now logs.now) selected.now)) }
    ensures missing { IfErr result (λ e. TellsMissingDealing (first_missing (private_in players.now me dealings.now logs.now) selected.now) e) }
{
    let mut privates = Vec::new(alloc);
    for dealer in selected {
        match private_of(players, me, dealings, logs, *dealer) {
            Some(private) => privates.push(private)?,
            None => return Err(FinishError::MissingDealing { dealer: *dealer }),
        }
    }
    Ok(privates)
}

/// A player's private half of what each selected dealer dealt, or the first dealing that it lacks.
fn gather(
    alloc: Global,
    round: &Round,
    me: Key,
    dealings: &Map<(Public, Private)>,
    logs: &Map<DealerLog>,
    selected: &[Key],
) -> Result<Vec<Element>, FinishError>
    requires player { Contains round.now.players me }
    requires chosen { selected_of round.now logs.now ≡ Some selected.now }
    ensures all { IfOk result
        (λ privates. (first_that (lacks_dealing round.now me dealings.now logs.now) selected.now ≡ None)
        × (privates.items ≡ known_privates (private_in round.now.players me dealings.now logs.now) selected.now)) }
    ensures missing { IfErr result (λ e. TellsMissingDealing (first_that (lacks_dealing round.now me dealings.now logs.now) selected.now) e) }
{
    privates_of(alloc, &round.parts().players, me, dealings, logs, selected)
}

/// The weighted sum of the private halves.
#[tactic(auto, using(crate::specs::FinishLaws::total_more, crate::specs::FinishLaws::total_none))]
fn share(weights: &[u32], privates: &[Element]) -> Share
    requires { length weights.now ≡ length privates.now }
    ensures { result ≡ weighted_total (zip weights.now privates.now) }
{
    let mut total = 0u64;
    let mut i = privates.len();
    while i > 0 {
        i -= 1;
        let term = u64::from(weights[i]) * u64::from(privates[i].get()) % 65521;
        total = (term + total) % 65521;
    }
    Share(element_of(total as u32))
}

/// The outcome of a round and a player's share of it, or none.
#[tactic(auto, unfolding(crate::specs::Finishes::finish_of, crate::specs::Finishes::finish_with, crate::specs::Finishes::share_of))]
pub(crate) fn finish(
    alloc: Global,
    round: &Round,
    me: Key,
    dealings: &Map<(Public, Private)>,
    logs: &Map<DealerLog>,
) -> Result<Option<(Output, Share)>, FinishError>
    requires { Contains round.now.players me }
    ensures { AnswersFinish (finish_of round.now me dealings.now logs.now) result }
{
    let Some(selected) = select(alloc, round, logs)? else {
        return Ok(None);
    };
    let privates = gather(alloc, round, me, dealings, logs, &selected)?;
    let weights = weigh(alloc, &round.parts().previous, &selected)?;
    let Some(output) = combine(alloc, round, logs, &weights, &selected)? else {
        return Ok(None);
    };
    Ok(Some((output, share(&weights, &privates))))
}
