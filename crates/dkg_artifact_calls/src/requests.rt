//! Requests that wait, and a gate for the work that they make.

use crate::asserts::{holds, is, is_copied};
use crate::fed::bare;
use dkg_artifact::{Path, Request, Requests, WorkGate};
use dkg_infos::Directory;
use dkg_types::{Addresses, Block};
use dkg_values::{Digest, Mem, Value};
use std::alloc::Global;
use std::test::Fail;

fn request<Dir: Directory>(alloc: Global, number: u64) -> Request<Dir> {
    Request {
        number,
        blocks: Path(Vec::new(alloc)),
        ended: false,
    }
}

fn popped<Dir: Directory + Drop>(requests: &mut Requests<Dir>) -> Option<u64> {
    let request = requests.pop()?;
    Some(request.number)
}

/// Puts the requests 1 and 2 last, and 3 first.
fn push_three<Dir: Directory + Drop>(alloc: Global) -> Mem<Requests<Dir>> {
    let mut requests = Requests::<Dir>::new(alloc);
    requests.push(request(alloc, 1))?;
    requests.push(request(alloc, 2))?;
    requests.push_front(request(alloc, 3))?;
    Ok(requests)
}

/// The numbers in the order in which they are popped.
fn numbers<Dir: Directory + Drop>(alloc: Global) -> Mem<[Option<u64>; 4]> {
    let mut requests = push_three::<Dir>(alloc)?;
    let first = popped(&mut requests);
    let second = popped(&mut requests);
    let third = popped(&mut requests);
    Ok([first, second, third, popped(&mut requests)])
}

#[test]
fn requests_wait_in_order(rt: HostRuntime) -> Result<(), Fail> {
    let numbers = numbers::<Addresses>(rt.alloc())?;
    is(&rt, numbers, [Some(3), Some(1), Some(2), None]);
    Ok(())
}

fn fed_request<Dir: Directory + Drop>(alloc: Global, block: Block<Dir>) -> Mem<Request<Dir>> {
    let mut request = request::<Dir>(alloc, 4);
    request.blocks.0.push(block)?;
    Ok(request)
}

/// Whether a request that was fed a block is equal to a copy of it, and to one that was fed none.
fn compared<Dir: Directory + Drop>(alloc: Global, block: Block<Dir>) -> Mem<(bool, bool)> {
    let fed = fed_request(alloc, block)?;
    let copied = is_copied(alloc, &fed)?;
    Ok((copied, fed.same(&request(alloc, 4))))
}

#[test]
fn a_request_is_what_it_was_fed(rt: HostRuntime) -> Result<(), Fail> {
    let block = bare(rt.alloc(), Digest([0; 32]), 6)?;
    let alike = compared(rt.alloc(), block)?;
    is(&rt, alike, (true, false));
    Ok(())
}

/// A gate that lets all work through.
#[derive(Drop)]
struct AlwaysOpen;

impl WorkGate for AlwaysOpen {
    fn open(&self) -> bool {
        true
    }
}

#[test]
fn a_gate_needs_no_answers(rt: HostRuntime) {
    let gate = AlwaysOpen;
    gate.answered(1);
    holds(&rt, gate.open());
}
