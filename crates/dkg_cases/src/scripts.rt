//! Reads the scripts of cases, and writes them again.

use crate::cases::case_of;
use crate::counts::Count;
use dkg_reading::{ScriptError, read_script};
use dkg_text::script_text;
use dkg_values::{Mem, NoMemory};
use std::alloc::{AllocError, Global};
use std::io;

/// The status of a text that is no script.
const BAD: u8 = 3;

/// Whether a text is a script's, which is written as that text.
fn is_written(alloc: Global, text: &[u8]) -> Mem<bool> {
    match read_script(alloc, text, false) {
        Ok(script) => {
            let written = script_text(alloc, &script)?;
            Ok(written.as_slice() == text)
        }
        Err(ScriptError::NoMemory) => Err(NoMemory),
        Err(ScriptError::Bad { .. }) => Ok(false),
    }
}

/// Counts one script, and tells its name where it isn't written as it was.
fn count_script<W: io::Write>(
    alloc: Global,
    name: &str,
    text: &[u8],
    count: &mut Count,
    sink: &mut W,
) -> io::Result<()> {
    let Ok(agrees) = is_written(alloc, text) else {
        return Err(io::Error::from(AllocError));
    };
    count.take(agrees);
    if !agrees {
        sink.write_all(name.as_bytes())?;
        sink.write_all(b": not written as it was\n")?;
    }
    Ok(())
}

/// Reads the scripts of a file's cases and writes them again, those of a form that isn't run too, but no text that is no script.
pub fn write_scripts<W: io::Write>(
    alloc: Global,
    bytes: &[u8],
    count: &mut Count,
    sink: &mut W,
) -> io::Result<()> {
    let mut rest = bytes;
    for _ in 0..bytes.len() {
        let Some((case, behind)) = case_of(rest) else {
            break;
        };
        if case.status != BAD {
            count_script(alloc, case.name, case.script, count, sink)?;
        }
        rest = behind;
    }
    Ok(())
}
