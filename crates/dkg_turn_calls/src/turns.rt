//! Callers of a lock, one behind the other.
ghost use Rattle.std.specs.Prelude.{◌≡◌, ◌≤◌, IfOk};
ghost use Rattle.dkg_turn.specs.Passes.{IsPassOf};

use crate::asserts::{holds, is};
use crate::till::{Till, empty_till};
use dkg_turn::{Carries, Pass, Turn, TurnError, TurnLock, Turned};
use dkg_values::Mem;
use std::alloc::Global;
use std::sync::Wait;
use std::test::Fail;

/// A lock round a value, with its first pass.
pub(crate) fn locked<T: Turn>(alloc: Global, value: T) -> Result<(TurnLock<T>, Pass<T>), Fail>
    ensures own { IfOk result (λ made. IsPassOf made.0 made.1) }
    ensures parts { IfOk result (λ made. 8 ≤ made.1.parts) }
{
    match TurnLock::new(alloc, value) {
        Ok(made) => Ok(made),
        Err(_) => Err(Fail::from("no memory")),
    }
}

/// The value and the history of a lock.
pub(crate) fn close<T: Turn, R: Wait>(
    rt: &R,
    lock: TurnLock<T>,
    pass: Pass<T>,
) -> Result<(T, Vec<Turned<T>>), Fail>
    requires { IsPassOf lock pass }
{
    match pass.close(rt, lock) {
        Ok(ended) => Ok(ended),
        Err(_) => Err(Fail::from("no ticket is left")),
    }
}

/// Adds three, and makes another caller's pass.
fn add_and_split<T: Carries<u64, u64>, R: Wait>(
    rt: &R,
    alloc: Global,
    lock: &TurnLock<T>,
    pass: &mut Pass<T>,
) -> Result<(Option<u64>, Pass<T>), Fail>
    requires own { IsPassOf lock.now pass.old }
    requires two { 2 ≤ pass.old.parts }
    ensures own { IsPassOf lock.now pass.new }
    ensures other { IfOk result (λ made. IsPassOf lock.now made.1) }
{
    let reply = pass.call(rt, alloc, lock, T::call_of(3))?;
    let other = pass.split(rt, lock)?;
    Ok((T::answer_of(reply), other))
}

/// The answer in the reply to a call.
fn called<T: Carries<u64, u64>, R: Wait>(
    rt: &R,
    alloc: Global,
    lock: &TurnLock<T>,
    pass: &mut Pass<T>,
    call: T::Call,
) -> Result<Option<u64>, TurnError>
    requires { IsPassOf lock.now pass.old }
    ensures { IsPassOf lock.now pass.new }
{
    let reply = pass.call(rt, alloc, lock, call)?;
    Ok(T::answer_of(reply))
}

/// The answer in the reply that is taken for a number.
fn taken<T: Carries<u64, u64>, R: Wait>(
    rt: &R,
    alloc: Global,
    lock: &TurnLock<T>,
    pass: &mut Pass<T>,
    number: u64,
) -> Result<Option<u64>, TurnError>
    requires { IsPassOf lock.now pass.old }
    ensures { IsPassOf lock.now pass.new }
{
    let reply = pass.take_reply(rt, alloc, lock, number)?;
    Ok(T::answer_of(reply))
}

/// Whether there is no reply for a number yet.
fn is_early<T: Carries<u64, u64>, R: Wait>(
    rt: &R,
    alloc: Global,
    lock: &TurnLock<T>,
    pass: &mut Pass<T>,
    number: u64,
) -> bool
    requires { IsPassOf lock.now pass.old }
    ensures { IsPassOf lock.now pass.new }
{
    matches!(taken(rt, alloc, lock, pass, number), Err(TurnError::NotYet))
}

/// Whether the other is early for seven, what it is answered once it adds four, what the first then takes for seven, and what a stop answers.
type Asked = (bool, Option<u64>, Option<u64>, Option<u64>);

fn ask_both<T: Carries<u64, u64>, R: Wait>(
    rt: &R,
    alloc: Global,
    lock: &TurnLock<T>,
    one: &mut Pass<T>,
    other: &mut Pass<T>,
    stop: T::Call,
) -> Result<Asked, Fail>
    requires one { IsPassOf lock.now one.old }
    requires other { IsPassOf lock.now other.old }
    ensures one { IsPassOf lock.now one.new }
    ensures other { IsPassOf lock.now other.new }
{
    let early = is_early(rt, alloc, lock, other, 7);
    let answer = other.post(rt, alloc, lock, 4)?;
    let reply = taken(rt, alloc, lock, one, 7)?;
    let stopped = called(rt, alloc, lock, other, stop)?;
    Ok((early, answer, reply, stopped))
}

/// What two callers are answered, and the value and the history that they leave.
fn played_by_two<T: Carries<u64, u64>, R: Wait>(
    rt: &R,
    alloc: Global,
    value: T,
    stop: T::Call,
) -> Result<(Option<u64>, Asked, (T, Vec<Turned<T>>)), Fail> {
    let (lock, mut one) = locked(alloc, value)?;
    let (first, mut other) = add_and_split(rt, alloc, &lock, &mut one)?;
    let asked = ask_both(rt, alloc, &lock, &mut one, &mut other, stop)?;
    one.join(&lock, other);
    Ok((first, asked, close(rt, lock, one)?))
}

/// Who called, what for, and the reply.
type Row = (u64, Option<u64>, Option<u64>);

fn rows_of(alloc: Global, history: &[Turned<Till>]) -> Mem<Vec<Row>> {
    let mut rows = Vec::new(alloc);
    for entry in history {
        rows.push((entry.caller, entry.call, entry.reply))?;
    }
    Ok(rows)
}

#[test]
fn each_call_answers(rt: HostRuntime) -> Result<(), Fail> {
    let (first, asked, ended) = played_by_two(&rt, rt.alloc(), empty_till(), None)?;
    is(&rt, first, Some(3));
    is(&rt, asked, (true, Some(7), Some(7), None));
    is(&rt, ended.0.sum, 7);
    let rows = rows_of(rt.alloc(), ended.1.as_slice())?;
    let (one, two) = ((0, Some(3), Some(3)), (2, Some(4), Some(7)));
    is(&rt, rows.as_slice(), &[one, two, (2, None, None)][..]);
    Ok(())
}

/// What a caller is answered that adds three, stops, adds four, and takes a reply for nine.
type Stopped = (Option<u64>, Option<u64>, Option<u64>, Option<u64>);

fn stop_between<T: Carries<u64, u64>, R: Wait>(
    rt: &R,
    alloc: Global,
    lock: &TurnLock<T>,
    pass: &mut Pass<T>,
    stop: T::Call,
) -> Result<Stopped, Fail>
    requires { IsPassOf lock.now pass.old }
    ensures { IsPassOf lock.now pass.new }
{
    let before = pass.post(rt, alloc, lock, 3)?;
    let stopped = called(rt, alloc, lock, pass, stop)?;
    let behind = pass.post(rt, alloc, lock, 4)?;
    let reply = taken(rt, alloc, lock, pass, 9)?;
    Ok((before, stopped, behind, reply))
}

/// .. with the value and the history that it leaves
fn played_with_stop<T: Carries<u64, u64>, R: Wait>(
    rt: &R,
    alloc: Global,
    value: T,
    stop: T::Call,
) -> Result<(Stopped, (T, Vec<Turned<T>>)), Fail> {
    let (lock, mut pass) = locked(alloc, value)?;
    let told = stop_between(rt, alloc, &lock, &mut pass, stop)?;
    Ok((told, close(rt, lock, pass)?))
}

#[test]
fn a_stop_is_for_good(rt: HostRuntime) -> Result<(), Fail> {
    let (told, (till, history)) = played_with_stop(&rt, rt.alloc(), empty_till(), None)?;
    is(&rt, told, (Some(3), None, None, None));
    holds(&rt, till.closed);
    is(&rt, till.sum, 3);
    is(&rt, history.len(), 3);
    Ok(())
}
