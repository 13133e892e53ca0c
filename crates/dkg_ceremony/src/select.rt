//! Of which logs the outcome of a round is made.
ghost use Rattle.std.specs.Prelude.{◌≡◌, IfOk, option_map};
ghost use Rattle.dkg_ceremony.specs.Outcomes.{has_valid, selected_of};

use crate::dealer_log::DealerLog;
use crate::round::Round;
use crate::threshold::quorum;
use crate::valid_log::is_valid_log;
use dkg_values::{Key, Map, Mem};
use std::alloc::Global;

/// Whether a dealer has a valid log.
fn is_to_select(alloc: Global, round: &Round, logs: &Map<DealerLog>, dealer: Key) -> Mem<bool>
    ensures { IfOk result (λ b. b ≡ has_valid round.now logs.now dealer) }
{
    match logs.get(dealer) {
        None => Ok(false),
        Some(log) => Ok(is_valid_log(alloc, round, dealer, log)?),
    }
}

/// The first quorum of the dealers with valid logs, in the order of their keys, or none.
#[tactic(auto, using(crate::specs::SelectionLaws::found_enough, crate::specs::SelectionLaws::found_all, crate::specs::SelectionLaws::found_too_few), unfolding(crate::specs::Outcomes::selected_of))]
pub(crate) fn select(alloc: Global, round: &Round, logs: &Map<DealerLog>) -> Mem<Option<Vec<Key>>>
    ensures { IfOk result (λ selected. option_map (λ keys. keys.items) selected ≡ selected_of round.now logs.now) }
{
    let enough = quorum(round.parts().dealers.len()) as usize;
    let mut selected = Vec::new(alloc);
    for dealer in round.parts().dealers.as_slice() {
        if selected.len() == enough {
            return Ok(Some(selected));
        }
        if is_to_select(alloc, round, logs, *dealer)? {
            selected.push(*dealer)?;
        }
    }
    if selected.len() < enough {
        return Ok(None);
    }
    Ok(Some(selected))
}
