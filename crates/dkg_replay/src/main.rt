//! Replays scripts whose transcripts an independent model wrote, and tells each difference.
//!
//! Beside the program lie a file of the forms' names, a file a form, one of encoded values, one of scanned ancestries and one of probes, which
//! `tools/replay-data` makes, the examples, whose transcripts it makes, and a file of what persons are told, which `tools/told-cases` makes. It prints a line a file, one for the examples, one for the scripts that were written again, and a total,
//! and ends with status 1 where something differs or a file can't be read.
#![tactic(auto)]

mod examples;
mod replay;
mod telling;

use dkg_cases::{Count, tell_count};
use std::process::ExitCode;
use std::{fs, io};

/// Replays the cases of a form, and tells how many there are and how many differ. Its scripts are read, and written again, too.
fn replay_form(rt: &HostRuntime, form: &str, written: &mut Count) -> io::Result<Count> {
    let alloc = rt.alloc();
    let name = format!(in alloc; "{form}.cases")?;
    let bytes = fs::read(rt, name.as_str())?;
    let mut sink = io::writer(rt);
    let count = replay::all(alloc, form, bytes.as_slice(), &mut sink)?;
    tell_count(alloc, form, &count, &mut sink)?;
    dkg_cases::write_scripts(alloc, bytes.as_slice(), written, &mut sink)?;
    Ok(count)
}

/// Reads the values, and writes them again.
fn read_values(rt: &HostRuntime) -> io::Result<Count> {
    let alloc = rt.alloc();
    let bytes = fs::read(rt, "values.cases")?;
    let mut sink = io::writer(rt);
    let count = dkg_cases::read_values(alloc, bytes.as_slice(), &mut sink)?;
    tell_count(alloc, "values", &count, &mut sink)?;
    Ok(count)
}

/// Scans the ancestries.
fn scan_paths(rt: &HostRuntime) -> io::Result<Count> {
    let alloc = rt.alloc();
    let bytes = fs::read(rt, "paths.cases")?;
    let mut sink = io::writer(rt);
    let count = dkg_cases::scan_ancestries(alloc, bytes.as_slice(), &mut sink)?;
    tell_count(alloc, "paths", &count, &mut sink)?;
    Ok(count)
}

/// Plays the probes.
fn play_probes(rt: &HostRuntime) -> io::Result<Count> {
    let alloc = rt.alloc();
    let bytes = fs::read(rt, "probes.cases")?;
    let mut sink = io::writer(rt);
    let count = dkg_cases::play_probes(alloc, bytes.as_slice(), &mut sink)?;
    tell_count(alloc, "probes", &count, &mut sink)?;
    Ok(count)
}

/// Runs the scripts of which a person is told something.
fn tell_persons(rt: &HostRuntime) -> io::Result<Count> {
    let alloc = rt.alloc();
    let bytes = fs::read(rt, "told.cases")?;
    let mut sink = io::writer(rt);
    let count = telling::all(alloc, bytes.as_slice(), &mut sink)?;
    tell_count(alloc, "told", &count, &mut sink)?;
    Ok(count)
}

/// Replays all forms, and tells how many of their scripts were written again.
fn replay_forms(rt: &HostRuntime, total: &mut Count) -> io::Result<()> {
    let mut written = Count::new();
    let forms = fs::read_to_string(rt, "forms")?;
    for form in forms.lines() {
        total.add(&replay_form(rt, form, &mut written)?);
    }
    tell_count(rt.alloc(), "written", &written, &mut io::writer(rt))?;
    total.add(&written);
    Ok(())
}

/// Runs the examples, replays all forms, reads all values, scans all ancestries, plays all probes, and
/// compares what persons are told.
fn replay_all(rt: &HostRuntime) -> io::Result<Count> {
    let mut total = examples::all(rt, &mut io::writer(rt))?;
    replay_forms(rt, &mut total)?;
    total.add(&read_values(rt)?);
    total.add(&scan_paths(rt)?);
    total.add(&play_probes(rt)?);
    total.add(&tell_persons(rt)?);
    tell_count(rt.alloc(), "all", &total, &mut io::writer(rt))?;
    Ok(total)
}

fn main(rt: HostRuntime) -> ExitCode {
    match replay_all(&rt) {
        Ok(total) if total.is_clean() => ExitCode::SUCCESS,
        _ => ExitCode::FAILURE,
    }
}
