//! The examples: a file of their names and statuses, and of each a script and its transcript.

use crate::replay;
use dkg_cases::{Case, Count, tell_count};
use std::fs;
use std::io::{self, Write};

/// An example's name and its status, from its line.
fn named(line: &str) -> Option<(&str, u8)> {
    let mut words = line.split(' ');
    let name = words.next()?;
    let status = words.next()?.parse::<u8>().ok()?;
    Some((name, status))
}

/// Runs one example, and tells where it differs. A line that names none counts as one that differs.
fn one<W: Write>(rt: &HostRuntime, line: &str, count: &mut Count, sink: &mut W) -> io::Result<()> {
    let alloc = rt.alloc();
    let Some((name, status)) = named(line) else {
        count.take(false);
        return Ok(());
    };
    let script = format!(in alloc; "examples/{name}.script")?;
    let transcript = format!(in alloc; "examples/{name}.transcript")?;
    let script = fs::read(rt, script.as_str())?;
    let transcript = fs::read(rt, transcript.as_str())?;
    let case = Case {
        name,
        status,
        script: script.as_slice(),
        transcript: transcript.as_slice(),
    };
    replay::one(alloc, "examples", &case, count, sink)
}

/// Runs all examples.
pub fn all<W: Write>(rt: &HostRuntime, sink: &mut W) -> io::Result<Count> {
    let mut count = Count::new();
    let names = fs::read_to_string(rt, "examples/names")?;
    for line in names.lines() {
        one(rt, line, &mut count, sink)?;
    }
    tell_count(rt.alloc(), "examples", &count, sink)?;
    Ok(count)
}
