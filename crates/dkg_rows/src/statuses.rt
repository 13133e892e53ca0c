//! What words, sources and sinks give that are no script's affair.

use crate::runs::{command, compare};
use crate::texts::{HEAD, text};
use dkg_journal::MemoryDisk;
use dkg_run::{MemorySink, MemorySource};
use dkg_store::MemorySecrets;
use std::alloc::Global;
use std::test::Fail;

/// Words, each in a line of its own; the numbers of the calls of the source and of the sink that fail, from 1; the number of the status, and what is
/// written, of a script without blocks and lives.
const CALLS: [(&str, u64, u64, u8, &str); 18] = [
    ("run", 0, 0, 0, "done\n"),
    ("", 0, 0, 2, "usage\n"),
    ("run\nx", 0, 0, 2, "usage\n"),
    ("Run", 0, 0, 2, "usage\n"),
    ("run ", 0, 0, 2, "usage\n"),
    ("make", 0, 0, 2, "usage\n"),
    ("make\n07", 0, 0, 2, "usage\n"),
    ("make\n07\nscript", 0, 0, 2, "usage\n"),
    ("make\n-\nscript", 0, 0, 2, "usage\n"),
    ("make\n18446744073709551616\nscript", 0, 0, 2, "usage\n"),
    ("make\n7\nscripts", 0, 0, 2, "usage\n"),
    ("make\n7\nscript\nx", 0, 0, 2, "usage\n"),
    ("run", 1, 0, 7, ""),
    ("run", 2, 0, 7, ""),
    ("run", 0, 1, 8, ""),
    ("walk", 0, 1, 8, ""),
    ("make\n18446744073709551615\nscript", 0, 1, 8, ""),
    ("make\n7", 0, 1, 8, ""),
];

/// The number of the status that words give over new devices.
fn status_of(
    alloc: Global,
    words: &str,
    source: &mut MemorySource,
    sink: &mut MemorySink,
) -> Result<u8, Fail> {
    let mut disk = MemoryDisk::new(alloc);
    let mut secrets = MemorySecrets::new(alloc);
    command(alloc, words, source, sink, &mut disk, &mut secrets)
}

/// Fails where words don't give the number of this status, or write other lines.
fn ends(
    alloc: Global,
    words: &str,
    source: &mut MemorySource,
    sink: &mut MemorySink,
    status: u8,
    lines: &str,
) -> Result<(), Fail> {
    let number = status_of(alloc, words, source, sink)?;
    compare(words, number, sink.bytes(), status, lines)
}

/// A source of this script whose call of this number fails.
fn failing_source(alloc: Global, script: &str, call: u64) -> Result<MemorySource, Fail> {
    let calls = vec![in alloc; call]?;
    let bytes = Vec::from_slice(alloc, script.as_bytes())?;
    Ok(MemorySource::failing(bytes, calls))
}

/// A sink whose call of this number fails.
fn failing_sink(alloc: Global, call: u64) -> Result<MemorySink, Fail> {
    Ok(MemorySink::failing(alloc, vec![in alloc; call]?))
}

/// Fails where the words of a row don't end as it says.
pub fn ends_as(alloc: Global, script: &str, row: (&str, u64, u64, u8, &str)) -> Result<(), Fail> {
    let (words, read, write, status, lines) = row;
    let mut source = failing_source(alloc, script, read)?;
    let mut sink = failing_sink(alloc, write)?;
    ends(alloc, words, &mut source, &mut sink, status, lines)
}

#[test]
fn each_call_ends_with_its_status(rt: HostRuntime) -> Result<(), Fail> {
    let alloc = rt.alloc();
    let script = text(alloc, &[HEAD, "end\n"])?;
    for row in CALLS {
        ends_as(alloc, script.as_str(), row)?;
    }
    Ok(())
}

/// The number of the status that a source of so many empty lines gives.
fn status_of_lines(alloc: Global, count: usize) -> Result<u8, Fail> {
    let mut source = MemorySource::new(alloc, vec![in alloc; b'\n'; count]?);
    let mut sink = MemorySink::new(alloc);
    status_of(alloc, "run", &mut source, &mut sink)
}

#[test]
fn a_source_of_too_many_bytes_is_refused(rt: HostRuntime) -> Result<(), Fail> {
    assert_eq!(rt; status_of_lines(rt.alloc(), 16_777_216)?, 3);
    assert_eq!(rt; status_of_lines(rt.alloc(), 16_777_217)?, 9);
    Ok(())
}
