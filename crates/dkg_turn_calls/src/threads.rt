//! Callers of a lock in two threads and in eight.
ghost use Rattle.std.specs.Prelude.{◌≡◌, ◌≤◌};
ghost use Rattle.dkg_turn.specs.Passes.{IsPassOf};

use crate::asserts::{holds, is};
use crate::till::{Till, empty_till};
use crate::turns::{close, locked};
use dkg_turn::{Carries, Pass, Turn, TurnLock, Turned};
use std::alloc::Global;
use std::process::Abort;
use std::rt::Clock;
use std::sync::Wait;
use std::sync::atomic::{AtomicU64, Ordering};
use std::test::Fail;
use std::thread;
use std::thread::Threads;
use std::time::Duration;

/// Adds each of so many numbers from the first on.
fn add_each<T: Carries<u64, u64>, R: Wait>(
    rt: &R,
    alloc: Global,
    lock: &TurnLock<T>,
    mut pass: Pass<T>,
    first: u64,
    count: u64,
) -> Pass<T>
    requires { IsPassOf lock.now pass }
    ensures { IsPassOf lock.now result }
{
    for i in 0..count {
        let _ = pass.post(rt, alloc, lock, first.wrapping_add(i));
    }
    pass
}

/// The same by two threads, which add so many numbers each.
fn add_by_two<T: Carries<u64, u64>, R: Threads + Wait + Sync>(
    rt: &R,
    alloc: Global,
    lock: &TurnLock<T>,
    mut pass: Pass<T>,
    first: u64,
    count: u64,
) -> Pass<T>
    requires own { IsPassOf lock.now pass }
    requires two { 2 ≤ pass.parts }
    ensures { IsPassOf lock.now result }
{
    let Ok(other) = pass.split(rt, lock) else {
        return pass;
    };
    let (mut pass, other) = thread::join(
        rt,
        move ||
            requires { IsPassOf lock.now pass }
            ensures { IsPassOf lock.entry.now result }
        { add_each(rt, alloc, lock, pass, first, count) },
        move ||
            requires { IsPassOf lock.now other }
            ensures { IsPassOf lock.entry.now result }
        { add_each(rt, alloc, lock, other, first.wrapping_add(count), count) },
    );
    pass.join(lock, other);
    pass
}

fn add_by_four<T: Carries<u64, u64>, R: Threads + Wait + Sync>(
    rt: &R,
    alloc: Global,
    lock: &TurnLock<T>,
    mut pass: Pass<T>,
    first: u64,
    count: u64,
) -> Pass<T>
    requires own { IsPassOf lock.now pass }
    requires four { 4 ≤ pass.parts }
    ensures { IsPassOf lock.now result }
{
    let Ok(other) = pass.split(rt, lock) else {
        return pass;
    };
    let (mut pass, other) = thread::join(
        rt,
        move ||
            requires { IsPassOf lock.now pass × (2 ≤ pass.parts) }
            ensures { IsPassOf lock.entry.now result }
        { add_by_two(rt, alloc, lock, pass, first, count) },
        move ||
            requires { IsPassOf lock.now other × (2 ≤ other.parts) }
            ensures { IsPassOf lock.entry.now result }
        {
            add_by_two(
                rt,
                alloc,
                lock,
                other,
                first.wrapping_add(count.wrapping_mul(2)),
                count,
            )
        },
    );
    pass.join(lock, other);
    pass
}

fn add_by_eight<T: Carries<u64, u64>, R: Threads + Wait + Sync>(
    rt: &R,
    alloc: Global,
    lock: &TurnLock<T>,
    mut pass: Pass<T>,
    first: u64,
    count: u64,
) -> Pass<T>
    requires own { IsPassOf lock.now pass }
    requires eight { 8 ≤ pass.parts }
    ensures { IsPassOf lock.now result }
{
    let Ok(other) = pass.split(rt, lock) else {
        return pass;
    };
    let (mut pass, other) = thread::join(
        rt,
        move ||
            requires { IsPassOf lock.now pass × (4 ≤ pass.parts) }
            ensures { IsPassOf lock.entry.now result }
        { add_by_four(rt, alloc, lock, pass, first, count) },
        move ||
            requires { IsPassOf lock.now other × (4 ≤ other.parts) }
            ensures { IsPassOf lock.entry.now result }
        {
            add_by_four(
                rt,
                alloc,
                lock,
                other,
                first.wrapping_add(count.wrapping_mul(4)),
                count,
            )
        },
    );
    pass.join(lock, other);
    pass
}

/// The value and the history that two threads leave.
fn left_by_two<T: Carries<u64, u64>, R: Threads + Wait + Sync>(
    rt: &R,
    alloc: Global,
    value: T,
    count: u64,
) -> Result<(T, Vec<Turned<T>>), Fail> {
    let (lock, pass) = locked(alloc, value)?;
    let pass = add_by_two(rt, alloc, &lock, pass, 0, count);
    close(rt, lock, pass)
}

/// .. that eight threads leave
fn left_by_eight<T: Carries<u64, u64>, R: Threads + Wait + Sync>(
    rt: &R,
    alloc: Global,
    value: T,
    count: u64,
) -> Result<(T, Vec<Turned<T>>), Fail> {
    let (lock, pass) = locked(alloc, value)?;
    let pass = add_by_eight(rt, alloc, &lock, pass, 0, count);
    close(rt, lock, pass)
}

/// Whether each reply is what a new till gives, one call after the other.
fn is_replayed(alloc: Global, history: &[Turned<Till>]) -> bool {
    let mut till = empty_till();
    history
        .iter()
        .all(|entry| till.turn(alloc, &entry.call).1 == entry.reply)
}

/// The numbers that were added, rising.
fn added(alloc: Global, history: &[Turned<Till>]) -> Result<Vec<u64>, Fail> {
    let mut added = Vec::with_capacity(alloc, history.len())?;
    for entry in history {
        if let Some(more) = entry.call {
            added.push(more)?;
        }
    }
    added.sort_unstable();
    Ok(added)
}

/// How often each of the numbers was added is once.
fn has_each(alloc: Global, history: &[Turned<Till>], count: usize) -> Result<bool, Fail> {
    let added = added(alloc, history)?;
    Ok(added.len() == count && added.iter().enumerate().all(|(i, more)| *more == i as u64))
}

#[test]
fn two_threads_are_answered_as_one(rt: HostRuntime) -> Result<(), Fail> {
    let (till, history) = left_by_two(&rt, rt.alloc(), empty_till(), 500)?;
    is(&rt, till.sum, 499500);
    holds(&rt, has_each(rt.alloc(), history.as_slice(), 1000)?);
    holds(&rt, is_replayed(rt.alloc(), history.as_slice()));
    Ok(())
}

#[test]
fn eight_threads_end(rt: HostRuntime) -> Result<(), Fail> {
    let (till, history) = left_by_eight(&rt, rt.alloc(), empty_till(), 1250)?;
    is(&rt, till.sum, 49995000);
    holds(&rt, has_each(rt.alloc(), history.as_slice(), 10000)?);
    holds(&rt, is_replayed(rt.alloc(), history.as_slice()));
    Ok(())
}

/// Ends the test where the word is still 0 after thirty seconds.
fn watch<R: Abort + Clock>(rt: &R, done: &AtomicU64) {
    for _ in 0..1500 {
        if done.load(Ordering::SeqCst) > 0 {
            return;
        }
        let _ = thread::sleep(rt, Duration::from_millis(20));
    }
    assert!(rt;
        done.load(Ordering::SeqCst) > 0,
        "a caller that sleeps was not woken"
    );
}

/// Eight threads add, and then the word is 1.
fn add_and_tell<T: Carries<u64, u64>, R: Threads + Wait + Sync>(
    rt: &R,
    alloc: Global,
    lock: &TurnLock<T>,
    pass: Pass<T>,
    done: &AtomicU64,
) -> Pass<T>
    requires own { IsPassOf lock.now pass }
    requires eight { 8 ≤ pass.parts }
    ensures { IsPassOf lock.now result }
{
    let pass = add_by_eight(rt, alloc, lock, pass, 0, 250);
    done.store(1, Ordering::SeqCst);
    pass
}

/// Eight threads add, and a ninth watches them.
fn add_watched<T: Carries<u64, u64>, R: Threads + Wait + Sync + Abort + Clock>(
    rt: &R,
    alloc: Global,
    lock: &TurnLock<T>,
    pass: Pass<T>,
    done: &AtomicU64,
)
    requires own { IsPassOf lock.now pass }
    requires eight { 8 ≤ pass.parts }
{
    let (pass, ()) = thread::join(
        rt,
        move ||
            requires { IsPassOf lock.now pass × (8 ≤ pass.parts) }
            ensures { IsPassOf lock.entry.now result }
        { add_and_tell(rt, alloc, lock, pass, done) },
        || watch(rt, done),
    );
    drop(pass);
}

/// .. at a lock round a value
fn watched<T: Carries<u64, u64>, R: Threads + Wait + Sync + Abort + Clock>(
    rt: &R,
    alloc: Global,
    value: T,
) -> Result<(), Fail> {
    let (lock, pass) = locked(alloc, value)?;
    add_watched(rt, alloc, &lock, pass, &AtomicU64::new(0));
    Ok(())
}

#[test]
fn who_sleeps_is_woken(rt: HostRuntime) -> Result<(), Fail> {
    watched(&rt, rt.alloc(), empty_till())
}
