//! What is said on standard error, by the status.
ghost use Rattle.std.specs.Prelude.{◌≡◌, IfOk, Some};
ghost use Rattle.std.specs.Option.{option_copied};
ghost use Rattle.dkg_words.specs.Help.{help_text};
ghost use Rattle.dkg_told.specs.Tells.{DeviceTold, TellsByStatus, TellsOf, Warns, is_of_text as is_of_text_status};

use dkg_infos::Entry;
use dkg_outside::Status;
use dkg_values::{Mem, NoMemory};
use dkg_words::{
    bad_line, chain_warning, fault_line, help, own_warning, sentence, unsupported_line,
};
use std::alloc::Global;

/// The warnings of a script that was run to its end.
fn warnings(alloc: Global, text: &[u8]) -> Mem<Vec<u8>>
    ensures { IfOk result (λ words. Warns text.now words.items) }
{
    let mut out = own_warning(alloc, text)?;
    let more = chain_warning(alloc, text)?;
    out.extend_from_slice(&more)?;
    Ok(out)
}

/// The line of a device's failure, which is the last entry.
fn device_line(alloc: Global, text: &[u8], entries: &[Entry]) -> Mem<Vec<u8>>
    ensures { IfOk result (λ words. DeviceTold text.now entries.now words.items) }
{
    match entries.last() {
        Some(Entry::Fault(fault)) => fault_line(alloc, text, entries, fault),
        _ => sentence(alloc, b"a device failed"),
    }
}

fn help_words(alloc: Global) -> Mem<Vec<u8>>
    ensures { IfOk result (λ words. words.items ≡ help_text) }
{
    Ok(Vec::from_slice(alloc, help())?)
}

/// What is told where the script's text is kept.
fn told_of(alloc: Global, status: &Status, text: &[u8], entries: &[Entry]) -> Mem<Vec<u8>>
    ensures { IfOk result (λ words. TellsByStatus status.now text.now entries.now words.items) }
{
    match status {
        Status::Done => warnings(alloc, text),
        Status::BadScript { place } => bad_line(alloc, text, *place),
        Status::Unsupported => unsupported_line(alloc, text),
        Status::Fault(fault) => fault_line(alloc, text, entries, fault),
        Status::Device => device_line(alloc, text, entries),
        Status::Usage => help_words(alloc),
        Status::NoMemory => sentence(alloc, b"memory ran out"),
        Status::ReadFault => {
            sentence(
                alloc,
                b"standard input could not be read, and nothing was run",
            )
        }
        Status::WriteFault => {
            sentence(
                alloc,
                b"standard output could not be written: what stands there is a front of what was to be",
            )
        }
        Status::TooLong => {
            sentence(
                alloc,
                b"standard input has more than 16777216 bytes, and nothing was run",
            )
        }
    }
}

/// Whether what is told of a status is about the script's text.
fn is_of_text(status: &Status) -> bool
    ensures { result ≡ is_of_text_status status.now }
{
    match status {
        Status::Done | Status::BadScript { .. } | Status::Unsupported => true,
        _ => false,
    }
}

/// What a person is told of a run that ended so: by the script's text, where it was kept, and the entries that it added.
/// Nothing can be told of a text that wasn't kept for want of memory.
pub fn told(alloc: Global, status: &Status, text: Option<&[u8]>, entries: &[Entry]) -> Mem<Vec<u8>>
    ensures { IfOk result (λ words. TellsOf status.now (option_copied text.entry) entries.now words.items) }
{
    if let Some(text) = text {
        return told_of(alloc, status, text, entries);
    }
    if is_of_text(status) {
        return Err(NoMemory);
    }
    told_of(alloc, status, &[], entries)
}
