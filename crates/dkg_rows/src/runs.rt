//! What a test runs: a script of one node over devices.

use dkg_infos::Transcript;
use dkg_journal::Disk;
use dkg_run::{MemorySink, MemorySource, Sink, Source, run_command};
use dkg_store::SecretStore;
use std::alloc::Global;
use std::str;
use std::test::Fail;

/// Words, each of a line of its own.
fn words_of(alloc: Global, lines: &str) -> Result<Vec<String>, Fail> {
    let mut words = Vec::new(alloc);
    for word in lines.lines() {
        words.push(String::from_str(alloc, word)?)?;
    }
    Ok(words)
}

/// The number of the status that words give.
fn number_of<S: Source, K: Sink, D: Disk, X: SecretStore>(
    alloc: Global,
    words: &[String],
    source: &mut S,
    sink: &mut K,
    disk: &mut D,
    secrets: &mut X,
) -> u8 {
    let mut out = Transcript::new(alloc);
    run_command(alloc, words, source, sink, disk, secrets, &mut out).number()
}

/// .. each in a line of its own.
pub fn command<S: Source, K: Sink, D: Disk, X: SecretStore>(
    alloc: Global,
    lines: &str,
    source: &mut S,
    sink: &mut K,
    disk: &mut D,
    secrets: &mut X,
) -> Result<u8, Fail> {
    let words = words_of(alloc, lines)?;
    Ok(number_of(alloc, &words, source, sink, disk, secrets))
}

/// Fails where words that gave this number, and wrote these bytes, had to give that of another status, or to write other lines.
pub fn compare(
    words: &str,
    number: u8,
    written: &[u8],
    status: u8,
    lines: &str,
) -> Result<(), Fail> {
    if number == status && written == lines.as_bytes() {
        return Ok(());
    }
    Err(Fail::from((words, number, str::from_utf8(written)?)))
}

/// Fails where `run` over this source and this sink doesn't end with the number of this status, or writes other lines.
fn source_runs_to<S: Source, D: Disk, X: SecretStore>(
    alloc: Global,
    source: &mut S,
    sink: &mut MemorySink,
    disk: &mut D,
    secrets: &mut X,
    status: u8,
    lines: &str,
) -> Result<(), Fail> {
    let number = command(alloc, "run", source, sink, disk, secrets)?;
    compare("run", number, sink.bytes(), status, lines)
}

/// .. over a source of this script.
pub fn runs_to<D: Disk, X: SecretStore>(
    alloc: Global,
    script: &str,
    disk: &mut D,
    secrets: &mut X,
    status: u8,
    lines: &str,
) -> Result<(), Fail> {
    let bytes = Vec::from_slice(alloc, script.as_bytes())?;
    let mut source = MemorySource::new(alloc, bytes);
    let mut sink = MemorySink::new(alloc);
    source_runs_to(alloc, &mut source, &mut sink, disk, secrets, status, lines)
}
