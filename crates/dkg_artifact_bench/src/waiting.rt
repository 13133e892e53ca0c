//! Requests that wait, and what is done to them by their numbers.
use dkg_artifact::{Path, Request, Requests};
use dkg_infos::Unit;
use dkg_types::Block;
use dkg_values::Mem;
use std::alloc::Global;

/// So many requests, whose numbers rise.
pub fn asked(alloc: Global, count: u64) -> Mem<Requests<Unit>> {
    let mut requests = Requests::new(alloc);
    for number in 0..count {
        requests.push(Request {
            number,
            blocks: Path(Vec::new(alloc)),
            ended: false,
        })?;
    }
    Ok(requests)
}

/// Feeds each of so many requests a block and ends its ancestry, the last first.
pub fn fed(
    alloc: Global,
    requests: &mut Requests<Unit>,
    count: u64,
    block: &Block<Unit>,
) -> Mem<()> {
    for number in (0..count).rev() {
        requests.feed(alloc, number, block)?;
        requests.end(number);
    }
    Ok(())
}

/// How many of the first half of so many requests were fed one block and have ended. The second half is taken away, from the middle on.
pub fn counted(requests: &mut Requests<Unit>, count: u64) -> u32 {
    for number in count / 2..count {
        requests.remove(number);
    }
    let mut found = 0u32;
    for _ in 0..requests.len() {
        let Some(request) = requests.pop() else {
            return found;
        };
        if request.ended && request.blocks.0.len() == 1 {
            found = found.saturating_add(1);
        }
    }
    found
}
