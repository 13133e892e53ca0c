//! Lives that `run_lives` runs for who has read a script already: one is cut inside a device call, and the next one finds what was written before.
ghost use Rattle.dkg_script.specs.Inclusion.{IsFormOfInclusion};

use crate::texts::{DEALING, RESTORED, SET_UP, life, text};
use dkg_infos::{Fault, Transcript};
use dkg_journal::MemoryDisk;
use dkg_run::run_lives;
use dkg_script::{Script, print_of, read_in_form};
use dkg_store::MemorySecrets;
use std::alloc::Global;
use std::test::Fail;

/// The lives of a script, run to their end over empty devices.
fn runs(alloc: Global, script: &Script, out: &mut Transcript) -> Result<(), Fault>
    requires { IsFormOfInclusion script.now }
{
    let mut disk = MemoryDisk::new(alloc);
    let mut secrets = MemorySecrets::new(alloc);
    run_lives(alloc, script, &mut disk, &mut secrets, out)
}

/// What they tell behind a transcript's entries.
fn lines_of(alloc: Global, script: &Script, out: &mut Transcript) -> Result<Vec<u8>, Fail>
    requires { IsFormOfInclusion script.now }
{
    runs(alloc, script, out)?;
    Ok(print_of(alloc, out.entries())?)
}

/// What the lives of the script that a text spells tell.
fn told(alloc: Global, text: &str) -> Result<Vec<u8>, Fail> {
    let script = read_in_form(alloc, text.as_bytes(), false)?;
    let mut out = Transcript::new(alloc);
    lines_of(alloc, &script, &mut out)
}

/// What a life tells that is cut while it records a dealing, and the next one.
fn told_of_a_cut(alloc: Global) -> Result<Vec<u8>, Fail> {
    // A dealing's step makes six calls that change a device, of which the fifth writes the record's gate; pick 0 keeps that.
    let events = text(alloc, &[DEALING, "cut 1 5 0\nstop 0\nlife 9\nheld 0\n"])?;
    let script = life(alloc, events.as_str())?;
    told(alloc, script.as_str())
}

#[test]
fn lives_are_run_without_a_source_and_a_sink(rt: HostRuntime) -> Result<(), Fail> {
    let alloc = rt.alloc();
    let wanted = text(
        alloc,
        &[
            "opened 0 0\n",
            SET_UP,
            "cut 1 5\nopened 1 1\n",
            RESTORED,
            SET_UP,
        ],
    )?;
    let lines = told_of_a_cut(alloc)?;
    assert_eq!(rt; lines.as_slice(), wanted.as_bytes());
    Ok(())
}
