//! The reading of a script that is to be run; the program calls it on the bytes that it was given.
//!
//! There is one form yet that is run: a reshare of any blocks, whose lives begin anywhere and receive messages of the dealing channel, blocks,
//! requests for logs, and messages of final blocks' requests.
ghost use Rattle.std.specs.Prelude.{◌≡◌, IfOk};
ghost use Rattle.dkg_reading.specs.Grammar.{script_or_place};
ghost use Rattle.dkg_script.specs.InForm.{ReadsInForm, TellsBadPlace, read_refusal};
ghost use Rattle.dkg_script.specs.Inclusion.{IsFormOfInclusion};
ghost use Rattle.dkg_script.specs.declared.read.ReadError.TheVariants.{NoMemory as OutOfMemory};

use crate::in_form::is_in_form;
use dkg_ceremony::NoMemory;
use dkg_reading::{ScriptError, read_script};
use dkg_text::Script;
use std::alloc::Global;
use thiserror::Error;

/// Why no script was read that can be run.
#[derive(Clone, Copy, Debug, PartialEq, Eq, Error)]
pub enum ReadError {
    /// The offset of the first line that no script has after the lines before it; the length, where only
    /// the last line is missing.
    #[error("no script from byte {place} on")]
    Bad { place: u64 },
    /// The bytes are a script of a form that isn't run yet.
    #[error("a script of a form that is not run yet")]
    Unsupported,
    #[error("out of memory")]
    NoMemory,
}

impl From<NoMemory> for ReadError {
    ghost from_gives = { λ _ e. e ≡ OutOfMemory };

    fn from(_e: NoMemory) -> ReadError {
        ReadError::NoMemory
    }
}

impl From<ScriptError> for ReadError {
    ghost from_gives = { λ error e. e ≡ read_refusal error };

    fn from(error: ScriptError) -> ReadError {
        match error {
            ScriptError::Bad { place } => ReadError::Bad { place },
            ScriptError::NoMemory => ReadError::NoMemory,
        }
    }
}

/// Reads a script of a form that is run so far; `addressed` says that directories in it hold addresses.
///
/// The time and the memory grow linearly with the text.
///
/// # Errors
///
/// `Bad` names the first line that no script has after the lines before it, and `Unsupported` is a script of another form.
pub fn read_in_form(alloc: Global, bytes: &[u8], addressed: bool) -> Result<Script, ReadError>
    // What is read is what the bytes spell, and what they spell is read or refused by its form, unless memory runs out.
    ensures reads { ReadsInForm (script_or_place addressed bytes.now) result }
    // Some script's text begins with the lines before the place that is told, and none's goes on with the line there.
    ensures place { TellsBadPlace addressed bytes.now result }
    ensures form { IfOk result IsFormOfInclusion }
{
    let script = read_script(alloc, bytes, addressed)?;
    if is_in_form(alloc, &script)? {
        Ok(script)
    } else {
        Err(ReadError::Unsupported)
    }
}
