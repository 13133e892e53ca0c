//! Requests for a final block's payload: they are fed, ended and taken away by their numbers.

use dkg_artifact::{Path, Request, Requests};
use dkg_infos::Unit;
use dkg_types::{Block, Context};
use dkg_values::{Digest, Epoch, Height, Key, Mem};
use std::alloc::Global;
use std::test::Fail;

/// Puts a request last that was fed nothing yet.
fn ask(alloc: Global, requests: &mut Requests<Unit>, number: u64) -> Mem<()> {
    requests.push(Request {
        number,
        blocks: Path(Vec::new(alloc)),
        ended: false,
    })
}

/// The first request: its number, how many blocks it was fed, and whether its ancestry has ended.
fn first(requests: &mut Requests<Unit>) -> Option<(u64, usize, bool)> {
    let request = requests.pop()?;
    Some((request.number, request.blocks.0.len(), request.ended))
}

/// A block that carries nothing.
pub(crate) fn bare(alloc: Global, parent: Digest, height: u64) -> Mem<Block<Unit>> {
    let context = Context {
        epoch: Epoch(0),
        view: height,
        leader: Key(1),
        parent_view: 0,
        parent,
    };
    Block::new(alloc, context, parent, Height(height), None)
}

#[test]
fn requests_are_known_by_number(rt: HostRuntime) -> Result<(), Fail> {
    let alloc = rt.alloc();
    let block = bare(alloc, Digest([0; 32]), 6)?;
    let mut requests = Requests::new(alloc);
    ask(alloc, &mut requests, 1)?;
    ask(alloc, &mut requests, 2)?;
    ask(alloc, &mut requests, 3)?;
    requests.feed(alloc, 1, &block)?;
    requests.end(1);
    // It has ended, so this is not fed to it.
    requests.feed(alloc, 1, &block)?;
    requests.remove(2);
    assert_eq!(rt; requests.len(), 2);
    assert_eq!(rt; first(&mut requests), Some((1, 1, true)));
    assert_eq!(rt; first(&mut requests), Some((3, 0, false)));
    assert_eq!(rt; requests.len(), 0);
    Ok(())
}
