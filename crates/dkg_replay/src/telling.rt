//! Runs scripts, and compares what a person is told of each with what a table says.
//!
//! Of such a case the second text is not a transcript but what stands on standard error.

use dkg_cases::{Case, Count, case_of, tell_lines};
use dkg_infos::Transcript;
use dkg_run::{MemorySink, MemorySource, fresh_devices, run_command};
use dkg_told::KeptSource;
use std::alloc::{AllocError, Global};
use std::io::{self, Write};

/// What a run gave: the number of its status, and what is told of it.
#[derive(Drop)]
struct Telling {
    status: u8,
    words: Vec<u8>,
}

/// Runs a script as the program does.
fn run_script(alloc: Global, script: &[u8]) -> io::Result<Telling> {
    let source = MemorySource::new(alloc, Vec::from_slice(alloc, script)?);
    let mut source = KeptSource::new(source);
    let mut sink = MemorySink::new(alloc);
    let mut out = Transcript::new(alloc);
    let (mut disk, mut secrets) = fresh_devices(alloc);
    let words = vec![in alloc; String::from_str(alloc, "run")?]?;
    let status = run_command(
        alloc,
        &words,
        &mut source,
        &mut sink,
        &mut disk,
        &mut secrets,
        &mut out,
    );
    match dkg_told::told(alloc, &status, source.kept(), out.entries()) {
        Ok(words) => Ok(Telling {
            status: status.number(),
            words,
        }),
        Err(_) => Err(io::Error::from(AllocError)),
    }
}

/// Runs one case, and tells where it differs.
fn one<W: Write>(
    alloc: Global,
    case: &Case<'_>,
    count: &mut Count,
    sink: &mut W,
) -> io::Result<()> {
    let telling = run_script(alloc, case.script)?;
    let agrees = telling.status == case.status && telling.words.as_slice() == case.transcript;
    count.take(agrees);
    if !agrees {
        tell_lines(alloc, "told", case, telling.status, &telling.words, sink)?;
    }
    Ok(())
}

/// Runs all cases of a file. Bytes behind the last whole case count as a case that differs.
pub fn all<W: Write>(alloc: Global, bytes: &[u8], sink: &mut W) -> io::Result<Count> {
    let mut count = Count::new();
    let mut rest = bytes;
    for _ in 0..bytes.len() {
        let Some((case, behind)) = case_of(rest) else {
            break;
        };
        one(alloc, &case, &mut count, sink)?;
        rest = behind;
    }
    if !rest.is_empty() {
        count.take(false);
    }
    Ok(count)
}
