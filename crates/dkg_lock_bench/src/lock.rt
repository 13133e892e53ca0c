//! Calls through the turn lock.
ghost use Rattle.std.specs.Prelude.{◌≡◌, ◌≤◌};
ghost use Rattle.dkg_turn.specs.Passes.{IsPassOf};

use crate::Measured;
use crate::counter::{Counter, longer, nanos_since};
use crate::task::{self, Task};
use dkg_turn::{Pass, TurnLock};
use std::alloc::Global;
use std::sync::{Barrier, Wait};
use std::thread::{Threads, join};
use std::time::{Clock, Instant};

type Took = (Pass<Counter>, Option<u64>);

// The calls of one thread through its pass, and whether each was answered.
fn calls_by<R: Wait>(
    rt: &R,
    alloc: Global,
    lock: &TurnLock<Counter>,
    mut pass: Pass<Counter>,
    calls: u64,
) -> (Pass<Counter>, bool)
    requires { IsPassOf lock.now pass }
    ensures { IsPassOf lock.now result.0 }
{
    for i in 0..calls {
        if pass.call(rt, alloc, lock, i).is_err() {
            return (pass, false);
        }
    }
    (pass, true)
}

fn by_one<R: Wait + Clock>(
    rt: &R,
    alloc: Global,
    lock: &TurnLock<Counter>,
    barrier: &Barrier,
    pass: Pass<Counter>,
    calls: u64,
) -> Took
    requires { IsPassOf lock.now pass }
    ensures { IsPassOf lock.now result.0 }
{
    barrier.wait(rt);
    let Ok(start) = Instant::now(rt) else {
        return (pass, None);
    };
    let (pass, answered) = calls_by(rt, alloc, lock, pass, calls);
    if !answered {
        return (pass, None);
    }
    (pass, nanos_since(rt, start))
}

fn by_two<R: Threads + Wait + Clock + Sync>(
    rt: &R,
    alloc: Global,
    lock: &TurnLock<Counter>,
    barrier: &Barrier,
    mut pass: Pass<Counter>,
    calls: u64,
) -> Took
    requires own { IsPassOf lock.now pass }
    requires two { 2 ≤ pass.parts }
    ensures { IsPassOf lock.now result.0 }
{
    let Ok(other) = pass.split(rt, lock) else {
        return (pass, None);
    };
    let ((mut pass, one), (other, two)) = join(
        rt,
        move ||
            requires { IsPassOf lock.now pass }
            ensures { IsPassOf lock.entry.now result.0 }
        { by_one(rt, alloc, lock, barrier, pass, calls) },
        move ||
            requires { IsPassOf lock.now other }
            ensures { IsPassOf lock.entry.now result.0 }
        { by_one(rt, alloc, lock, barrier, other, calls) },
    );
    pass.join(lock, other);
    (pass, longer(one, two))
}

fn by_four<R: Threads + Wait + Clock + Sync>(
    rt: &R,
    alloc: Global,
    lock: &TurnLock<Counter>,
    barrier: &Barrier,
    mut pass: Pass<Counter>,
    calls: u64,
) -> Took
    requires own { IsPassOf lock.now pass }
    requires four { 4 ≤ pass.parts }
    ensures { IsPassOf lock.now result.0 }
{
    let Ok(other) = pass.split(rt, lock) else {
        return (pass, None);
    };
    let ((mut pass, one), (other, two)) = join(
        rt,
        move ||
            requires { IsPassOf lock.now pass × (2 ≤ pass.parts) }
            ensures { IsPassOf lock.entry.now result.0 }
        { by_two(rt, alloc, lock, barrier, pass, calls) },
        move ||
            requires { IsPassOf lock.now other × (2 ≤ other.parts) }
            ensures { IsPassOf lock.entry.now result.0 }
        { by_two(rt, alloc, lock, barrier, other, calls) },
    );
    pass.join(lock, other);
    (pass, longer(one, two))
}

/// The calls of all threads.
pub fn measure<R: Threads + Wait + Clock + Sync>(
    rt: &R,
    alloc: Global,
    task: &Task,
) -> Option<Measured> {
    let (lock, pass) = TurnLock::new(alloc, Counter::new(task.rounds)).ok()?;
    let barrier = Barrier::new(task.threads.count() as usize);
    let (pass, nanos) = match task.threads {
        task::Threads::One => by_one(rt, alloc, &lock, &barrier, pass, task.calls),
        task::Threads::Two => by_two(rt, alloc, &lock, &barrier, pass, task.calls),
        task::Threads::Four => by_four(rt, alloc, &lock, &barrier, pass, task.calls),
    };
    let nanos = nanos?;
    let (counter, history) = pass.close(rt, lock).ok()?;
    Some(Measured {
        calls: history.len() as u64,
        nanos,
        seed: counter.seed,
    })
}
