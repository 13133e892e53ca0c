//! What a run finds on devices that another run left, and what it blames them for.

use crate::runs::runs_to;
use crate::texts::{ANSWERED, DEALING, RESTORED, SET_UP, life, text};
use dkg_journal::{Disk, MemoryDisk};
use dkg_store::{MemorySecrets, SecretStore};
use dkg_values::Name;
use std::alloc::Global;
use std::test::Fail;

/// A segment whose record is a byte longer than its length says: that byte stands as an open gate with no whole record behind it.
const SHORT_LENGTH: [u8; 18] = *b"\x01\0\0\0\x0b\0\0\0\0\x02\x03\0\x0f\0\x07\0\x01\0";

/// A segment that ends within its record.
const SHORT_RECORD: [u8; 6] = *b"\x01\0\0\0\x09\x05";

/// A segment whose record is whole, and is no event.
const NO_EVENT: [u8; 6] = *b"\x01\0\0\0\x01\x05";

/// Fails where a script of one life with these events doesn't end with this status over these devices, or writes other lines than these in a row.
fn lives_to<D: Disk, X: SecretStore>(
    alloc: Global,
    events: &str,
    disk: &mut D,
    secrets: &mut X,
    status: u8,
    lines: &[&str],
) -> Result<(), Fail> {
    let script = life(alloc, events)?;
    let lines = text(alloc, lines)?;
    runs_to(
        alloc,
        script.as_str(),
        disk,
        secrets,
        status,
        lines.as_str(),
    )
}

/// The same for a life with the dealing, where the segment of epoch 0 has these bytes.
fn hears_on<D: Disk, X: SecretStore>(
    alloc: Global,
    disk: &mut D,
    secrets: &mut X,
    bytes: &[u8],
    status: u8,
    lines: &[&str],
) -> Result<(), Fail> {
    disk.install(alloc, Name::Segment(0), bytes)?;
    lives_to(alloc, DEALING, disk, secrets, status, lines)
}

/// .. over memory.
fn hears_over(alloc: Global, bytes: &[u8], status: u8, lines: &[&str]) -> Result<(), Fail> {
    let mut disk = MemoryDisk::new(alloc);
    let mut secrets = MemorySecrets::new(alloc);
    hears_on(alloc, &mut disk, &mut secrets, bytes, status, lines)
}

#[test]
fn an_open_record_is_whole_and_an_event(rt: HostRuntime) -> Result<(), Fail> {
    let alloc = rt.alloc();
    hears_over(alloc, &SHORT_LENGTH, 4, &["fault 4 segment 0 16\n"])?;
    hears_over(alloc, &SHORT_RECORD, 4, &["fault 4 segment 0 0\n"])?;
    hears_over(alloc, &NO_EVENT, 4, &["fault 4 segment 0 0\n"])?;
    // A gate of 7 isn't open, so nothing is recorded there.
    let lines = ["opened 0 0\n", SET_UP, ANSWERED, "done\n"];
    hears_over(alloc, &[7], 0, &lines)
}

/// Fails where a disk whose fifth call fails, which is a sync, has the dealing behind a crash.
fn nothing_is_left<D: Disk, X: SecretStore>(
    alloc: Global,
    disk: &mut D,
    secrets: &mut X,
) -> Result<(), Fail> {
    let lines = ["opened 0 0\n", SET_UP, "fault 2\n"];
    lives_to(alloc, DEALING, disk, secrets, 5, &lines)?;
    disk.crash(0);
    secrets.crash(0);
    let lines = ["opened 0 0\n", SET_UP, "done\n"];
    lives_to(alloc, "", disk, secrets, 0, &lines)
}

#[test]
fn a_failed_sync_leaves_nothing(rt: HostRuntime) -> Result<(), Fail> {
    let alloc = rt.alloc();
    // An opening calls barrier and list, and the dealing then install, write_at and sync: its gate stays closed.
    let mut disk = MemoryDisk::failing(alloc, vec![in alloc; 5]?);
    let mut secrets = MemorySecrets::new(alloc);
    nothing_is_left(alloc, &mut disk, &mut secrets)
}

/// Fails where a run over devices without files, or the next one over them, doesn't end as it has to.
fn later_runs_go_on<D: Disk, X: SecretStore>(
    alloc: Global,
    disk: &mut D,
    secrets: &mut X,
) -> Result<(), Fail> {
    let lines = ["opened 0 0\n", SET_UP, ANSWERED, "done\n"];
    lives_to(alloc, DEALING, disk, secrets, 0, &lines)?;
    let lines = ["opened 0 1\n", RESTORED, SET_UP, "done\n"];
    lives_to(alloc, "", disk, secrets, 0, &lines)
}

#[test]
fn a_later_run_goes_on_over_the_same_devices(rt: HostRuntime) -> Result<(), Fail> {
    let alloc = rt.alloc();
    let mut disk = MemoryDisk::new(alloc);
    let mut secrets = MemorySecrets::new(alloc);
    later_runs_go_on(alloc, &mut disk, &mut secrets)
}
