//! Tells the length and the SHA-256 digest of the text of each generated script from 1 to 64.
//!
//! `tools/made-scripts` writes what it is to print, by an independent model. A script whose text isn't read again as that text is told as `lost`.
#![tactic(auto)]

use dkg_generator::make_script;
use dkg_reading::read_script;
use dkg_text::script_text;
use dkg_values::{Mem, NoMemory};
use sha2::{Digest, Sha256};
use std::alloc::Global;
use std::io::{self, Write};
use std::process::ExitCode;

/// Whether a text is read as a script, and that script's text is the same.
fn is_read_again(alloc: Global, text: &[u8]) -> Mem<bool> {
    let Ok(script) = read_script(alloc, text, false) else {
        return Ok(false);
    };
    let written = script_text(alloc, &script)?;
    Ok(written.as_slice() == text)
}

/// The line of a number.
fn line_of(alloc: Global, number: u64) -> Mem<String> {
    let script = make_script(alloc, number)?;
    let text = script_text(alloc, &script)?;
    if !is_read_again(alloc, &text)? {
        return Ok(format!(in alloc; "{number} lost\n")?);
    }
    let mut hasher = Sha256::new();
    hasher.update(&text);
    let digest: [u8; 32] = hasher.finalize();
    let digest = hex::encode(alloc, digest.as_slice())?;
    Ok(format!(in alloc; "{number} {} {digest}\n", text.len())?)
}

/// Tells all.
fn tell<W: Write>(alloc: Global, sink: &mut W) -> io::Result<Mem<()>> {
    for number in 1..65 {
        match line_of(alloc, number) {
            Ok(line) => sink.write_all(line.as_str().as_bytes())?,
            Err(NoMemory) => return Ok(Err(NoMemory)),
        }
    }
    Ok(Ok(()))
}

fn main(rt: HostRuntime) -> ExitCode {
    match tell(rt.alloc(), &mut io::writer(&rt)) {
        Ok(Ok(())) => ExitCode::SUCCESS,
        _ => ExitCode::FAILURE,
    }
}
