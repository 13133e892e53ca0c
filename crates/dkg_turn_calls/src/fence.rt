//! A fence that is marked, asked and closed, and a queue with a cancelled message.

use crate::asserts::is;
use dkg_fence::{Fence, Queue, Waited};
use dkg_values::{Epoch, Mem};
use std::alloc::Global;
use std::test::Fail;

/// A wait for an epoch that is ready already.
fn marked_then_asked() -> (bool, bool, Waited) {
    let mut fence = Fence::new();
    let first = fence.mark(Epoch(2));
    let second = fence.mark(Epoch(1));
    (first, second, fence.wait(Epoch(2)))
}

/// A wait that is woken by a mark.
fn asked_then_marked() -> (Waited, bool, Waited) {
    let mut fence = Fence::new();
    let before = fence.wait(Epoch(0));
    let woke = fence.mark(Epoch(0));
    (before, woke, fence.wait(Epoch(0)))
}

/// A wait at a closed fence.
fn closed_then_asked() -> (bool, Waited) {
    let mut fence = Fence::new();
    let woke = fence.close();
    (woke, fence.wait(Epoch(3)))
}

/// A wait at a closed fence, for an epoch that is ready.
fn marked_and_closed() -> (bool, bool, Waited) {
    let mut fence = Fence::new();
    let marked = fence.mark(Epoch(1));
    let closed = fence.close();
    (marked, closed, fence.wait(Epoch(1)))
}

/// A wait that a mark below it doesn't wake, and that a close does: nothing is marked behind it.
fn woken_by_close(fence: &mut Fence) -> (Waited, bool, bool, bool) {
    let before = fence.wait(Epoch(7));
    let marked = fence.mark(Epoch(6));
    let closed = fence.close();
    (before, marked, closed, fence.mark(Epoch(7)))
}

#[test]
fn a_fence_tells_whom_it_wakes(rt: HostRuntime) {
    is(&rt, marked_then_asked(), (false, false, Waited::Ready));
    is(
        &rt,
        asked_then_marked(),
        (Waited::Pending, true, Waited::Ready),
    );
    is(&rt, closed_then_asked(), (false, Waited::Closed));
    is(&rt, marked_and_closed(), (false, false, Waited::Ready));
}

#[test]
fn a_close_wakes(rt: HostRuntime) {
    let mut fence = Fence::new();
    let told = woken_by_close(&mut fence);
    is(&rt, told, (Waited::Pending, false, true, false));
    is(&rt, fence.wait(Epoch(7)), Waited::Closed);
    is(&rt, fence.wait(Epoch(6)), Waited::Ready);
}

/// Puts a message and a cancelled one, and takes two.
fn put_and_taken<M: Drop>(
    alloc: Global,
    kept: M,
    cancelled: M,
) -> Mem<(bool, bool, Option<M>, Option<M>)> {
    let mut queue = Queue::new(alloc);
    let first = queue.push(kept, false)?;
    let second = queue.push(cancelled, true)?;
    let taken = queue.pop();
    Ok((first, second, taken, queue.pop()))
}

#[test]
fn a_queue_keeps_what_was_not_cancelled(rt: HostRuntime) -> Result<(), Fail> {
    let told = put_and_taken(rt.alloc(), 1u64, 2)?;
    is(&rt, told, (true, false, Some(1), None));
    Ok(())
}
