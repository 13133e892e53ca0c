//! Runs cases over new devices in memory, and compares.

use dkg_cases::{Case, Count, case_of, tell_lines};
use dkg_infos::Transcript;
use dkg_run::{MemorySink, MemorySource, fresh_devices, run_command};
use std::alloc::Global;
use std::io::{self, Write};

/// What a run gave: the number of its status, and what it wrote.
#[derive(Drop)]
pub struct Run {
    pub status: u8,
    pub sink: MemorySink,
}

/// Runs a script.
fn run_script(alloc: Global, script: &[u8]) -> io::Result<Run> {
    let mut source = MemorySource::new(alloc, Vec::from_slice(alloc, script)?);
    let mut sink = MemorySink::new(alloc);
    let mut out = Transcript::new(alloc);
    let (mut disk, mut secrets) = fresh_devices(alloc);
    let words = vec![in alloc; String::from_str(alloc, "run")?]?;
    let status = run_command(
        alloc,
        &words,
        &mut source,
        &mut sink,
        &mut disk,
        &mut secrets,
        &mut out,
    );
    Ok(Run {
        status: status.number(),
        sink,
    })
}

/// Whether the run gave what is wanted.
fn agrees(case: &Case<'_>, run: &Run) -> bool {
    run.status == case.status && run.sink.bytes() == case.transcript
}

/// Replays one case, and tells where it differs.
pub fn one<W: Write>(
    alloc: Global,
    form: &str,
    case: &Case<'_>,
    count: &mut Count,
    sink: &mut W,
) -> io::Result<()> {
    let run = run_script(alloc, case.script)?;
    let agrees = agrees(case, &run);
    count.take(agrees);
    if !agrees {
        tell_lines(alloc, form, case, run.status, run.sink.bytes(), sink)?;
    }
    Ok(())
}

/// Replays all cases of a file. Bytes behind the last whole case count as a case that differs.
pub fn all<W: Write>(alloc: Global, form: &str, bytes: &[u8], sink: &mut W) -> io::Result<Count> {
    let mut count = Count::new();
    let mut rest = bytes;
    for _ in 0..bytes.len() {
        let Some((case, behind)) = case_of(rest) else {
            break;
        };
        one(alloc, form, &case, &mut count, sink)?;
        rest = behind;
    }
    if !rest.is_empty() {
        count.take(false);
    }
    Ok(count)
}
