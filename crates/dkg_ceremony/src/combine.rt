//! What the selected logs of a round make together: the output.
ghost use Rattle.std.specs.Prelude.{◌≡◌, ℕ, ◌<◌, ◌≤◌, ◌^◌, length, map, slice_index, vec_len, replicate, Some, IfOk};
ghost use Rattle.std.specs.List.{list_any, zip};
ghost use Rattle.dkg_ceremony.specs.Agreement.{PartsAgree};
ghost use Rattle.dkg_ceremony.specs.Outcomes.{combined_of, keeps_key, output_with, outcome_of, public_in, reveals_at, revealed_from, revealed_of, selected_of, sum_of, round_summary};
ghost use Rattle.dkg_ceremony.specs.PolynomialLaws.{poly_sum, poly_times, weighted_sum};
ghost use Rattle.dkg_ceremony.specs.Thresholds.{quorum_of};
ghost use Rattle.dkg_ceremony.specs.Weights.{weights_of};

use crate::deal::element_of;
use crate::dealer_log::DealerLog;
use crate::log_entry::LogEntry;
use crate::output::Output;
use crate::public::Public;
use crate::round::Round;
use crate::select::select;
use crate::sharing::Sharing;
use crate::sign::{Domain, mark_of};
use crate::threshold::quorum;
use crate::weigh::weigh;
use dkg_values::{Element, Key, Map, Mark, Mem, Set, Value};
use std::alloc::Global;

/// A polynomial of zeros.
pub(crate) fn zeros(alloc: Global, count: u32) -> Mem<Vec<Element>>
    ensures { IfOk result (λ sum. sum.items ≡ replicate count 0) }
{
    let mut sum = Vec::new(alloc);
    for _ in 0..count {
        sum.push(element_of(0))?;
    }
    Ok(sum)
}

/// Adds so many times a polynomial.
fn add_times(sum: &mut [Element], weight: u32, public: &[Element])
    requires { length public.now ≡ length sum.old }
    ensures { sum.new ≡ poly_sum (poly_times weight public.now) sum.old }
{
    for i in 0..sum.len() {
        let term = u64::from(weight) * u64::from(public[i].get()) % 65521;
        let number = (term + u64::from(sum[i].get())) % 65521;
        sum[i] = element_of(number as u32);
    }
}

/// The public half of a dealer's log.
fn public_of<'a>(logs: &'a Map<DealerLog>, dealer: Key) -> &'a [Element]
    ensures { result.now ≡ public_in logs.now dealer }
{
    match logs.get(dealer) {
        Some(log) => log.public.as_slice(),
        None => &[],
    }
}

/// The weighted sum of the public halves.
fn sum(
    alloc: Global,
    count: u32,
    logs: &Map<DealerLog>,
    weights: &[u32],
    selected: &[Key],
) -> Mem<Public>
    requires some { 1 ≤ count }
    requires weighed { length weights.now ≡ length selected.now }
    requires long { (i : ℕ) → i < length selected.now → length (public_in logs.now (slice_index selected.now i)) ≡ count }
    ensures long { IfOk result (λ poly. length poly ≡ count) }
    ensures exact { IfOk result (λ poly. poly ≡ weighted_sum count (zip weights.now (map (public_in logs.now) selected.now))) }
{
    let mut sum = zeros(alloc, count)?;
    let mut i = selected.len();
    while i > 0 {
        i -= 1;
        add_times(&mut sum, weights[i], public_of(logs, selected[i]));
    }
    Ok(Public::new(alloc, sum)?)
}

/// Whether a dealer's log reveals the player at an index.
fn reveals(logs: &Map<DealerLog>, index: u32, dealer: Key) -> bool
    ensures { result ≡ reveals_at logs.now index dealer }
{
    match logs.get(dealer) {
        None => false,
        Some(log) => match log.entries.as_slice().get(index as usize) {
            Some(LogEntry::Reveal(_)) => true,
            _ => false,
        },
    }
}

/// Whether a selected log reveals the player at an index.
fn is_revealed(logs: &Map<DealerLog>, selected: &[Key], index: u32) -> bool
    ensures { result ≡ list_any (reveals_at logs.now index) selected.now }
{
    for dealer in selected {
        if reveals(logs, index, *dealer) {
            return true;
        }
    }
    false
}

/// The players whom a selected log reveals.
fn revealed_players(
    alloc: Global,
    players: &Set,
    logs: &Map<DealerLog>,
    selected: &[Key],
) -> Mem<Vec<Key>>
    ensures exact { IfOk result (λ keys. keys.items ≡ revealed_from logs.now selected.now 0 players.now) }
    ensures in_bound { IfOk result (λ keys. vec_len keys < 2 ^ 32) }
{
    let mut revealed = Vec::new(alloc);
    let keys = players.as_slice();
    for index in 0..players.len() {
        if is_revealed(logs, selected, index) {
            revealed.push(keys[index as usize])?;
        }
    }
    Ok(revealed)
}

/// The revealed players as a set.
#[tactic(auto, unfolding(crate::specs::Outcomes::revealed_of))]
fn reveal(alloc: Global, round: &Round, logs: &Map<DealerLog>, selected: &[Key]) -> Mem<Set>
    ensures { IfOk result (λ keys. keys ≡ revealed_of round.now logs.now selected.now) }
{
    let keys = revealed_players(alloc, &round.parts().players, logs, selected)?;
    Ok(Set::from_any(alloc, &keys)?)
}

/// Whether a polynomial shares the key of before.
fn keeps(previous: &Option<Output>, poly: &Public) -> bool
    ensures { result ≡ keeps_key previous.now poly.now }
{
    match previous {
        None => true,
        Some(output) => match (poly.as_slice(), output.sharing.poly.as_slice()) {
            ([one, ..], [other, ..]) => *one == *other,
            _ => false,
        },
    }
}

/// What an output says of its round: a mark on the round's bytes.
#[tactic(auto, unfolding(crate::specs::Outcomes::round_summary))]
fn summarize(round: &Round) -> Mark
    ensures { result ≡ round_summary round.now }
{
    mark_of(Key(0), Domain::Round, round.bytes())
}

/// The output of a polynomial and the revealed players.
#[tactic(auto, unfolding(crate::specs::Outcomes::output_with))]
fn output_of(alloc: Global, round: &Round, poly: Public, revealed: Set) -> Mem<Output>
    requires { PartsAgree (length round.now.players) poly round.now.players revealed }
    ensures { IfOk result (λ output. Some output ≡ output_with round.now poly revealed) }
{
    let sharing = Sharing {
        mode: round.parts().mode,
        total: round.parts().players.len(),
        poly,
    };
    Ok(Output {
        summary: summarize(round),
        sharing,
        dealers: round.parts().dealers.copy(alloc)?,
        players: round.parts().players.copy(alloc)?,
        revealed,
    })
}

/// The output that the selected logs make, or none where the key would change.
#[tactic(auto, unfolding(crate::specs::Outcomes::combined_of, crate::specs::Outcomes::sum_of), using(crate::specs::OutcomeLaws::no_players))]
pub(crate) fn combine(
    alloc: Global,
    round: &Round,
    logs: &Map<DealerLog>,
    weights: &[u32],
    selected: &[Key],
) -> Mem<Option<Output>>
    requires weighed { weights.now ≡ weights_of round.now.previous selected.now }
    requires chosen { selected_of round.now logs.now ≡ Some selected.now }
    ensures { IfOk result (λ output. output ≡ combined_of round.now logs.now selected.now) }
{
    // No ceremony draws up such a round.
    if round.parts().players.is_empty() {
        return Ok(None);
    }
    let poly = sum(
        alloc,
        quorum(round.parts().players.len()),
        logs,
        weights,
        selected,
    )?;
    if !keeps(&round.parts().previous, &poly) {
        return Ok(None);
    }
    let revealed = reveal(alloc, round, logs, selected)?;
    Ok(Some(output_of(alloc, round, poly, revealed)?))
}

/// The outcome of a round and the logs of its dealers, or none.
#[tactic(auto, unfolding(crate::specs::Outcomes::outcome_of))]
pub(crate) fn observe(alloc: Global, round: &Round, logs: &Map<DealerLog>) -> Mem<Option<Output>>
    ensures { IfOk result (λ output. output ≡ outcome_of round.now logs.now) }
{
    let Some(selected) = select(alloc, round, logs)? else {
        return Ok(None);
    };
    let weights = weigh(alloc, &round.parts().previous, &selected)?;
    Ok(combine(alloc, round, logs, &weights, &selected)?)
}
