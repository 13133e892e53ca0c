//! Blocks of an ancestry, each of which carries a log.
use dkg_ceremony::{Bounds, Epocher, SignedDealerLog};
use dkg_infos::Unit;
use dkg_types::{Block, Context, Payload};
use dkg_values::{Digest, Epoch, Height, Key, Value};
use std::alloc::Global;
use std::num::NonZeroU64;

/// The bounds of an epoch that has so many blocks from its midpoint on, besides the final one.
pub fn bounds(count: u64) -> Option<Bounds> {
    let blocks = count.checked_add(1)?.checked_mul(2)?;
    Epocher::new(NonZeroU64::new(blocks)?).containing(Height(0))
}

fn payload(alloc: Global, signed: &SignedDealerLog) -> Option<Payload<Unit>> {
    let signed = signed.copy(alloc).ok()?;
    Some(Payload::DealerLog(signed))
}

/// A block on another, that carries this.
fn block_with(
    alloc: Global,
    parent: Digest,
    height: u64,
    payload: Option<Payload<Unit>>,
) -> Option<Block<Unit>> {
    let context = Context {
        epoch: Epoch(0),
        view: height,
        leader: Key(1),
        parent_view: 0,
        parent,
    };
    Block::new(alloc, context, parent, Height(height), payload).ok()
}

/// A block on another, that carries a log.
fn block_on(
    alloc: Global,
    parent: Digest,
    height: u64,
    signed: &SignedDealerLog,
) -> Option<Block<Unit>> {
    let payload = payload(alloc, signed)?;
    block_with(alloc, parent, height, Some(payload))
}

/// A block that carries nothing.
pub fn bare(alloc: Global) -> Option<Block<Unit>> {
    block_with(alloc, Digest([0; 32]), 0, None)
}

fn in_turn(logs: &[SignedDealerLog], index: u64) -> Option<&SignedDealerLog> {
    let index = index.checked_rem(logs.len() as u64)?;
    logs.get(index as usize)
}

/// So many blocks from a height on. They carry these logs in turns.
pub fn blocks(
    alloc: Global,
    lowest: Height,
    count: u64,
    logs: &[SignedDealerLog],
) -> Option<Vec<Block<Unit>>> {
    let mut blocks = Vec::new(alloc);
    let mut parent = Digest([0; 32]);
    for index in 0..count {
        let height = lowest.0.checked_add(index)?;
        let block = block_on(alloc, parent, height, in_turn(logs, index)?)?;
        parent = block.digest();
        blocks.push(block).ok()?;
    }
    Some(blocks)
}
