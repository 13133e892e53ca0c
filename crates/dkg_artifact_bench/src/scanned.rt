//! A scan of blocks.
ghost use Rattle.std.specs.Prelude.{◌≡◌, IfSome, IsTrue};
ghost use Rattle.dkg_artifact.specs.Scans.{IsAwaiting};

use dkg_artifact::{Fed, Scan};
use dkg_ceremony::{Bounds, Ceremony, DealerLog, Round};
use dkg_infos::Unit;
use dkg_types::Block;
use dkg_values::Map;
use std::alloc::Global;

fn is_need(fed: &Fed) -> bool
    ensures { IsTrue result → fed.now ≡ Fed.Need }
{
    match fed {
        Fed::Need => true,
        _ => false,
    }
}

fn start<C: Ceremony>(alloc: Global, ceremony: &C, round: &Round, bounds: Bounds) -> Option<Scan>
    ensures { IfSome result (λ scan. IsAwaiting scan) }
{
    match Scan::start::<C, Unit>(alloc, ceremony, round, bounds, None) {
        Ok((scan, Fed::Need)) => Some(scan),
        _ => None,
    }
}

/// The answer to the first block, from the last one on, that isn't Need.
fn answer<C: Ceremony>(
    alloc: Global,
    ceremony: &C,
    scan: &mut Scan,
    blocks: &[Block<Unit>],
) -> Option<Fed>
    requires { IsAwaiting scan.old }
{
    for block in blocks.iter().rev() {
        let fed = scan.feed(alloc, ceremony, block).ok()?;
        if !is_need(&fed) {
            return Some(fed);
        }
    }
    None
}

/// The logs that a scan finds that is fed blocks from the last one on.
pub fn logs<C: Ceremony>(
    alloc: Global,
    ceremony: &C,
    round: &Round,
    bounds: Bounds,
    blocks: &[Block<Unit>],
) -> Option<Map<DealerLog>> {
    let mut scan = start(alloc, ceremony, round, bounds)?;
    match answer(alloc, ceremony, &mut scan, blocks) {
        Some(Fed::Logs(logs)) => Some(logs),
        _ => None,
    }
}
