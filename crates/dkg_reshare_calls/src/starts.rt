//! Where a life starts, with a floor and without one.

use crate::blocks::{bare, first_source};
use dkg_infos::Unit;
use dkg_setup::{BlockSource, startup};
use std::alloc::Global;
use std::test::Fail;

/// The heights at which a life starts without a floor, and with one of height 3 whose parent's digest is the first block's.
fn starts<B: BlockSource<Unit>>(alloc: Global, source: &B) -> Result<[u64; 2], Fail> {
    let Some(first) = source.anchor() else {
        return Err(Fail::from("no block"));
    };
    let digest = first.digest();
    let floor = bare(alloc, digest, 3)?;
    match (startup(source, None), startup(source, Some(&floor))) {
        (Some(held), Some(above)) if held.digest == digest && above.digest == digest => {
            Ok([held.height.0, above.height.0])
        }
        _ => Err(Fail::from("no start, or of another block")),
    }
}

/// .. over a source of the first block.
fn started(alloc: Global) -> Result<[u64; 2], Fail> {
    let source = first_source(alloc)?;
    starts(alloc, &source)
}

#[test]
fn a_life_starts_at_the_floor(rt: HostRuntime) -> Result<(), Fail> {
    assert_eq!(rt; started(rt.alloc())?, [0, 2]);
    Ok(())
}
