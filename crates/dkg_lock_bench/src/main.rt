//! How long calls through the turn lock take, and through a mutex that keeps the same history. `bench/lock` runs it.
//!
//! Its words are `lock` or `mutex`, how many threads (1, 2 or 4), how many rounds of arithmetic a turn takes, and how many calls
//! each thread makes. It writes the number of calls made to standard output, and to standard error the nanoseconds from the moment at
//! which all threads began until the last of them ended, and what the arithmetic came to. The word `turns` in place of the first makes
//! the turns of one thread without a lock.
#![tactic(auto)]

mod counter;
mod lock;
mod mutex;
mod task;

use std::io;
use std::process::ExitCode;
use task::{Subject, Task};

/// What a run of a task came to.
pub struct Measured {
    pub calls: u64,
    pub nanos: u64,
    /// What the arithmetic came to. It is told so that no compiler leaves the work out.
    pub seed: u64,
}

fn main(rt: HostRuntime) -> io::Result<ExitCode> {
    let alloc = rt.alloc();
    let Some(task) = task::read(&rt)? else {
        eprintln!(rt; "usage: dkg_lock_bench lock|mutex|turns 1|2|4 ROUNDS CALLS")?;
        return Ok(ExitCode::from(2));
    };
    let measured = match task.subject {
        Subject::Lock => lock::measure(&rt, alloc, &task),
        Subject::Mutex => mutex::measure(&rt, alloc, &task),
        Subject::Turns => counter::measure(&rt, &task),
    };
    let Some(Measured { calls, nanos, seed }) = measured else {
        eprintln!(rt; "out of memory, or without a clock")?;
        return Ok(ExitCode::from(1));
    };
    println!(rt; "{calls}")?;
    eprintln!(rt; "{nanos} {seed}")?;
    Ok(ExitCode::SUCCESS)
}
