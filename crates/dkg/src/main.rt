//! The program: reads a script from standard input, and writes its transcript to standard output.
//!
//! Its exit status is the number of the command's status. What a person is told of it stands on standard error.
#![tactic(auto)]

use dkg_infos::{Entry, Transcript};
use dkg_run::{Status, StdSink, StdSource, fresh_devices, run_command};
use dkg_told::{KeptSource, told};
use dkg_values::{Mem, NoMemory};
use std::io::Write;
use std::process::ExitCode;
use std::{env, io, mem};

/// The words of the command line. Where one is no text, there are none.
fn words<R: env::Env + AllocGlobal>(rt: &R) -> Mem<Vec<String>> {
    match env::args(rt) {
        Ok(args) => Ok(args.skip(1).collect(rt.alloc())?),
        Err(error) => {
            if error.kind() == io::ErrorKind::OutOfMemory {
                return Err(NoMemory);
            }
            Ok(Vec::new(rt.alloc()))
        }
    }
}

/// Tells a person how the run ended. (That standard error takes no words is let go.)
fn tell(rt: &HostRuntime, status: &Status, text: Option<&[u8]>, entries: &[Entry]) {
    let _ = match told(rt.alloc(), status, text, entries) {
        Ok(words) => rt.stderr().write_all(&words),
        Err(NoMemory) => rt.stderr().write_all(b"no memory was left to say more\n"),
    };
}

fn main(rt: HostRuntime) -> ExitCode {
    let alloc = rt.alloc();
    let Ok(words) = words(&rt) else {
        tell(&rt, &Status::NoMemory, None, &[]);
        return ExitCode::from(Status::NoMemory.number());
    };
    let mut source = KeptSource::new(StdSource::new(rt.reader()));
    let mut sink = StdSink::new(io::writer(&rt));
    let (mut disk, mut secrets) = fresh_devices(alloc);
    let mut out = Transcript::new(alloc);
    let status = run_command(
        alloc,
        &words,
        &mut source,
        &mut sink,
        &mut disk,
        &mut secrets,
        &mut out,
    );
    // Of a command that read no script there is nothing to warn of.
    let text = source.kept().unwrap_or(&[]);
    tell(&rt, &status, Some(text), out.entries());
    // The process ends here, and its memory with it: the entries needn't be freed one by one.
    mem::forget(out);
    ExitCode::from(status.number())
}
