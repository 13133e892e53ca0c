//! How long a scan takes, and the verification of the logs that it finds beside the ceremony's own call; and how long requests take that
//! wait. `bench/artifact` runs it.
//!
//! Its words are KEYS and BLOCKS. A round of so many keys, each of which deals and plays, has full logs, and so many blocks of an
//! ancestry carry them in turns. It writes how many logs the scan found to standard output, and to standard error the nanoseconds of four
//! things: the scan, the ceremony's `observe` of the logs, their verification for an observer, and that for a player. A time is 0 where
//! the clock doesn't tell it.
//!
//! With the words `requests` and COUNT so many requests are asked, each is fed a block and ended, the last first, the second half is taken
//! away, and the first half is read. It writes how many of the first half were fed and have ended, and the nanoseconds of all of it.
#![tactic(auto)]

mod chain;
mod measure;
mod player;
mod round;
mod scanned;
mod task;
mod waiting;

use measure::Measured;
use std::alloc::Global;
use std::io;
use std::process::ExitCode;
use task::Task;

/// A round's measures, written, or what is missing.
fn write_round(rt: &HostRuntime, alloc: Global, keys: u32, blocks: u64) -> io::Result<ExitCode> {
    let Some(measured) = measure::measure(rt, alloc, keys, blocks) else {
        eprintln!(rt; "no such round, out of memory, or without a clock")?;
        return Ok(ExitCode::from(1));
    };
    let Measured {
        logs,
        scan,
        observe,
        observer,
        player,
    } = measured;
    println!(rt; "{logs}")?;
    eprintln!(rt; "{scan} {observe} {observer} {player}")?;
    Ok(ExitCode::SUCCESS)
}

/// .. those of requests
fn write_requests(rt: &HostRuntime, alloc: Global, count: u64) -> io::Result<ExitCode> {
    let Some((found, took)) = measure::requests(rt, alloc, count) else {
        eprintln!(rt; "out of memory, or without a clock")?;
        return Ok(ExitCode::from(1));
    };
    println!(rt; "{found}")?;
    eprintln!(rt; "{took}")?;
    Ok(ExitCode::SUCCESS)
}

fn main(rt: HostRuntime) -> io::Result<ExitCode> {
    let alloc = rt.alloc();
    match task::read(&rt)? {
        Some(Task::Round { keys, blocks }) => write_round(&rt, alloc, keys, blocks),
        Some(Task::Requests { count }) => write_requests(&rt, alloc, count),
        None => {
            eprintln!(rt;
                "usage: dkg_artifact_bench KEYS BLOCKS, or dkg_artifact_bench requests COUNT"
            )?;
            Ok(ExitCode::from(2))
        }
    }
}
