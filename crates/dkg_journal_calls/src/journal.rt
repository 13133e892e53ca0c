ghost use Rattle.std.specs.Prelude.{◌≡◌, []};

use crate::asserts::{is, is_at};
use dkg_journal::*;
use dkg_values::Name;
use std::alloc::Global;
use std::test::Fail;

/// Writes to a file that is there, where there is room.
fn write_to<D: Disk>(
    alloc: Global,
    disk: &mut D,
    name: Name,
    place: u64,
    bytes: &[u8],
) -> Result<(), DiskError> {
    match disk.read(alloc, name)? {
        None => Ok(()),
        Some(old) => {
            if place <= old.len() as u64 {
                disk.write_at(alloc, name, place, bytes)?;
            }
            Ok(())
        }
    }
}

fn torn_disk<D: Disk>(alloc: Global, disk: &mut D) -> Result<(), DiskError> {
    disk.install(alloc, Name::Segment(3), &[60])?;
    disk.install(alloc, Name::Flat, &[10, 11, 12, 13])?;
    disk.install(alloc, Name::Plan, &[20, 21])?;
    write_to(alloc, disk, Name::Flat, 2, &[30, 31, 32, 33])?;
    write_to(alloc, disk, Name::Plan, 0, &[40])?;
    write_to(alloc, disk, Name::Flat, 0, &[50, 51])?;
    Ok(())
}

/// The bytes of all files, in the order of their names.
fn all_bytes<D: Disk>(alloc: Global, disk: &mut D) -> Result<Vec<u8>, DiskError> {
    let mut all = Vec::new(alloc);
    for name in disk.list(alloc)? {
        if let Some(bytes) = disk.read(alloc, name)? {
            all.extend_from_slice(&bytes)
                .map_err(|_| DiskError::NoMemory)?;
        }
    }
    Ok(all)
}

/// A file whose bytes are written over and past their end, and one behind it in the order of the names.
fn overwritten_disk<D: Disk>(alloc: Global, disk: &mut D) -> Result<(), DiskError> {
    disk.install(alloc, Name::Flat, &[10, 11, 12, 13, 14, 15])?;
    disk.install(alloc, Name::Segment(0), &[0, 0, 0])?;
    write_to(alloc, disk, Name::Flat, 3, &[30, 31])?;
    write_to(alloc, disk, Name::Flat, 0, &[40])?;
    write_to(alloc, disk, Name::Flat, 4, &[50, 51, 52])?;
    write_to(alloc, disk, Name::Flat, 4, &[60])?;
    write_to(alloc, disk, Name::Segment(0), 0, &[1, 2, 3])
}

#[test]
fn a_crash_leaves_what_its_pick_says(rt: HostRuntime) -> Result<(), Fail> {
    let rows: [(u64, &[u8]); 11] = [
        (0, &[40, 11, 12, 30, 60, 51, 52, 1, 2, 3]),
        (1, &[10, 11, 12, 13, 14, 15, 0, 0, 0]),
        (2, &[10, 11, 12, 13, 14, 15, 0, 0, 0]),
        (6, &[40, 11, 12, 13, 14, 15, 0, 0, 0]),
        (10, &[40, 11, 12, 30, 14, 15, 0, 0, 0]),
        (14, &[40, 11, 12, 30, 60, 15, 0, 0, 0]),
        (18, &[40, 11, 12, 30, 60, 51, 0, 0, 0]),
        (22, &[40, 11, 12, 30, 60, 51, 52, 0, 0, 0]),
        // Five bytes of the first file are loose: two of seven are left for the other one.
        (30, &[40, 11, 12, 30, 60, 51, 52, 1, 2, 0]),
        (3, &[0, 11, 12, 0, 0, 0, 0, 0, 0, 0]),
        (1203, &[44, 11, 12, 44, 44, 44, 44, 44, 44, 44]),
    ];
    for (pick, want) in rows {
        let mut disk = MemoryDisk::new(rt.alloc());
        overwritten_disk(rt.alloc(), &mut disk)?;
        disk.crash(pick);
        let left = all_bytes(rt.alloc(), &mut disk)?;
        is_at(&rt, left.as_slice(), want, pick);
        disk.crash(1);
        let left = all_bytes(rt.alloc(), &mut disk)?;
        is_at(&rt, left.as_slice(), want, pick);
    }
    Ok(())
}

#[test]
fn files_are_torn_in_the_order_of_their_names(rt: HostRuntime) -> Result<(), Fail> {
    let rows: [(u64, &[u8]); 9] = [
        (0, &[40, 21, 50, 51, 30, 31, 32, 33, 60]),
        (1, &[20, 21, 10, 11, 12, 13, 60]),
        (2, &[20, 21, 10, 11, 12, 13, 60]),
        (6, &[40, 21, 10, 11, 12, 13, 60]),
        (10, &[40, 21, 50, 11, 12, 13, 60]),
        (18, &[40, 21, 50, 51, 30, 13, 60]),
        (26, &[40, 21, 50, 51, 30, 31, 32, 60]),
        (34, &[40, 21, 50, 51, 30, 31, 32, 33, 60]),
        (31, &[7, 21, 7, 7, 7, 7, 7, 7, 60]),
    ];
    for (pick, want) in rows {
        let mut disk = MemoryDisk::new(rt.alloc());
        torn_disk(rt.alloc(), &mut disk)?;
        disk.crash(pick);
        is_at(
            &rt,
            all_bytes(rt.alloc(), &mut disk)?.as_slice(),
            want,
            pick,
        );
    }
    Ok(())
}

#[test]
fn a_cut_call_is_done_at_an_even_pick(rt: HostRuntime) -> Result<(), Fail> {
    let rows: [(u64, &[u8], &[u8]); 4] = [
        (0, &[40, 21, 9, 60], &[50, 51, 30, 31, 32, 33, 60]),
        (
            1,
            &[20, 21, 50, 51, 30, 31, 32, 33, 60],
            &[40, 21, 10, 11, 12, 13, 60],
        ),
        (2, &[20, 21, 9, 60], &[10, 11, 12, 13, 60]),
        (
            3,
            &[0, 21, 50, 51, 30, 31, 32, 33, 60],
            &[40, 21, 0, 0, 0, 0, 0, 0, 60],
        ),
    ];
    for (pick, installed, removed) in rows {
        let mut disk = SureDisk::new(rt.alloc());
        torn_disk(rt.alloc(), &mut disk)?;
        let install = Op::Install {
            name: Name::Flat,
            bytes: dkg_values::Blob::new(Vec::from_slice(rt.alloc(), &[9])?),
        };
        disk.cut(rt.alloc(), &install, pick)?;
        is_at(
            &rt,
            all_bytes(rt.alloc(), &mut disk)?.as_slice(),
            installed,
            pick,
        );
        let mut disk = SureDisk::new(rt.alloc());
        torn_disk(rt.alloc(), &mut disk)?;
        disk.cut(rt.alloc(), &Op::Remove { name: Name::Plan }, pick)?;
        is_at(
            &rt,
            all_bytes(rt.alloc(), &mut disk)?.as_slice(),
            removed,
            pick,
        );
    }
    Ok(())
}

#[test]
fn calls_fail_by_number(rt: HostRuntime) -> Result<(), Fail> {
    let numbers = Vec::from_slice(rt.alloc(), &[4, 2, 7])?;
    let mut disk = MemoryDisk::failing(rt.alloc(), numbers);
    let one = Name::Segment(u64::MAX);
    is(&rt, disk.install(rt.alloc(), one, &[1]), Ok(()));
    is(
        &rt,
        disk.install(rt.alloc(), one, &[2]),
        Err(DiskError::Failed),
    );
    disk.crash(0);
    is(&rt, disk.cut(rt.alloc(), &Op::Barrier, 0), Ok(()));
    is(&rt, disk.barrier(rt.alloc()), Ok(()));
    is(&rt, disk.remove(rt.alloc(), one), Err(DiskError::Failed));
    is(&rt, disk.sync(rt.alloc(), Name::Plan), Ok(()));
    is(&rt, all_bytes(rt.alloc(), &mut disk).is_err(), true);
    is(
        &rt,
        all_bytes(rt.alloc(), &mut disk)?.as_slice(),
        [1].as_slice(),
    );
    Ok(())
}

/// Opens the journal of an empty disk and appends to it.
fn fill(alloc: Global, disk: &mut MemoryDisk, fuse: &mut Fuse) -> Result<(), JournalError>
    requires { disk.old.disk.files ≡ [] }
{
    let mut journal = Journal::open(alloc, disk, fuse)?;
    journal.append(alloc, disk, fuse, 6, &[0xbb])?;
    journal.append(alloc, disk, fuse, 5, &[0xaa])?;
    Ok(())
}

/// The sections and bodies that are read again.
fn read_again(alloc: Global, disk: &mut MemoryDisk) -> Result<Vec<u8>, JournalError> {
    let mut journal = Journal::open(alloc, disk, &mut Fuse::never())?;
    let mut all = Vec::new(alloc);
    for entry in journal.replay(alloc) {
        all.push((entry.section % 256) as u8)?;
        all.extend_from_slice(entry.body.as_slice())?;
    }
    Ok(all)
}

#[test]
fn what_was_appended_is_replayed(rt: HostRuntime) -> Result<(), Fail> {
    let mut disk = MemoryDisk::new(rt.alloc());
    let mut fuse = Fuse::never();
    fill(rt.alloc(), &mut disk, &mut fuse)?;
    is(&rt, fuse.spent(), 10);
    is(
        &rt,
        read_again(rt.alloc(), &mut disk)?.as_slice(),
        [5, 0xaa, 6, 0xbb].as_slice(),
    );
    Ok(())
}

#[test]
fn a_cut_leaves_whole_entries(rt: HostRuntime) -> Result<(), Fail> {
    let one: &[u8] = &[6, 0xbb];
    let both: &[u8] = &[5, 0xaa, 6, 0xbb];
    // The call that is cut, the pick, and what is read again.
    let rows: [(u64, u64, &[u8]); 14] = [
        (1, 0, &[]),
        (1, 1, &[]),
        (2, 0, &[]),
        (2, 7, &[]),
        (4, 0, one),
        (4, 1, &[]),
        (4, 2, &[]),
        (4, 6, one),
        (4, 7, one),
        (4, 11, &[]),
        (7, 0, one),
        (9, 6, both),
        (10, 1, one),
        (11, 1, both),
    ];
    for (call, pick, want) in rows {
        let mut disk = MemoryDisk::new(rt.alloc());
        let mut fuse = Fuse::at(call, pick);
        let ended = fill(rt.alloc(), &mut disk, &mut fuse);
        is_at(&rt, ended.is_err(), call < 11, (call, pick));
        is_at(
            &rt,
            read_again(rt.alloc(), &mut disk)?.as_slice(),
            want,
            (call, pick),
        );
    }
    Ok(())
}

#[test]
fn every_cut_of_an_append_leaves_it_or_not(rt: HostRuntime) -> Result<(), Fail> {
    let one: &[u8] = &[6, 0xbb];
    let both: &[u8] = &[5, 0xaa, 6, 0xbb];
    for call in 1..11u64 {
        // Each append makes the file of its section too: five calls.
        let (before, after) = if call <= 5 {
            (&[][..], one)
        } else {
            (one, both)
        };
        for pick in 0..8u64 {
            let mut disk = MemoryDisk::new(rt.alloc());
            let ended = fill(rt.alloc(), &mut disk, &mut Fuse::at(call, pick));
            is_at(&rt, ended, Err(JournalError::Cut), (call, pick));
            let all = read_again(rt.alloc(), &mut disk)?;
            let is_either = all.as_slice() == before || all.as_slice() == after;
            is_at(&rt, is_either, true, (call, pick));
        }
    }
    Ok(())
}

/// A segment that ends without a gate.
fn open_ended(alloc: Global, disk: &mut MemoryDisk) -> Result<(), DiskError> {
    disk.install(alloc, Name::Segment(5), &[1, 0, 0, 0, 1, 0xaa])
}

/// A flat file with entries of sections 7, 5 and 7, a segment that it does not name, and one that it names, with another entry.
fn flat_disk(alloc: Global, disk: &mut MemoryDisk) -> Result<(), DiskError> {
    disk.install(
        alloc,
        Name::Flat,
        &[
            1, 0, 0, 0, 9, 0, 0, 0, 0, 0, 0, 0, 7, 0xcc, 1, 0, 0, 0, 9, 0, 0, 0, 0, 0, 0, 0, 5,
            0xaa, 1, 0, 0, 0, 9, 0, 0, 0, 0, 0, 0, 0, 7, 0xdd, 0,
        ],
    )?;
    disk.install(alloc, Name::Segment(3), &[1, 0, 0, 0, 1, 0x33, 0])?;
    disk.install(alloc, Name::Segment(7), &[1, 0, 0, 0, 1, 0x77, 0])
}

#[test]
fn every_cut_of_a_mending_keeps_the_entry(rt: HostRuntime) -> Result<(), Fail> {
    for pick in 0..8u64 {
        let mut disk = MemoryDisk::new(rt.alloc());
        open_ended(rt.alloc(), &mut disk)?;
        let mut fuse = Fuse::at(1, pick);
        let is_cut = matches!(
            &Journal::open(rt.alloc(), &mut disk, &mut fuse),
            Err(JournalError::Cut)
        );
        is_at(&rt, is_cut, true, pick);
        is_at(&rt, fuse.blown(), true, pick);
        is_at(
            &rt,
            read_again(rt.alloc(), &mut disk)?.as_slice(),
            [5, 0xaa].as_slice(),
            pick,
        );
    }
    Ok(())
}

#[test]
fn every_stop_of_a_parting_keeps_the_entries(rt: HostRuntime) -> Result<(), Fail> {
    // A remove, two installs, and the remove of the flat file. The fifth call is not made.
    for call in 1..6u64 {
        for pick in 0..8u64 {
            let mut disk = MemoryDisk::new(rt.alloc());
            flat_disk(rt.alloc(), &mut disk)?;
            let mut fuse = Fuse::at(call, pick);
            let is_open = Journal::open(rt.alloc(), &mut disk, &mut fuse).is_ok();
            is_at(&rt, is_open, call == 5, (call, pick));
            is_at(
                &rt,
                read_again(rt.alloc(), &mut disk)?.as_slice(),
                [5, 0xaa, 7, 0xcc, 7, 0xdd].as_slice(),
                (call, pick),
            );
            is_at(
                &rt,
                disk.list(rt.alloc())?.as_slice(),
                [Name::Segment(5), Name::Segment(7)].as_slice(),
                (call, pick),
            );
        }
    }
    Ok(())
}

/// Opens the journal of an empty disk, appends to it, and takes the entries below section 6 away.
fn fill_and_prune(alloc: Global, disk: &mut MemoryDisk, fuse: &mut Fuse) -> Result<(), JournalError>
    requires { disk.old.disk.files ≡ [] }
{
    let mut journal = Journal::open(alloc, disk, fuse)?;
    journal.append(alloc, disk, fuse, 5, &[0xaa])?;
    journal.append(alloc, disk, fuse, 6, &[0xbb])?;
    journal.prune(alloc, disk, fuse, 6)?;
    journal.prune(alloc, disk, fuse, 6)
}

#[test]
fn a_prune_leaves_the_sections_from_its_minimum_on(rt: HostRuntime) -> Result<(), Fail> {
    let left: &[u8] = &[6, 0xbb];
    let both: &[u8] = &[5, 0xaa, 6, 0xbb];
    // The call that is cut, the pick, the calls that were made, and what is read again.
    let rows: [(u64, u64, u64, &[u8]); 7] = [
        (0, 0, 11, left),
        (12, 0, 11, left),
        (11, 0, 11, left),
        (11, 1, 11, both),
        (11, 6, 11, left),
        (11, 7, 11, both),
        (10, 1, 10, &[5, 0xaa]),
    ];
    for (call, pick, calls, want) in rows {
        let mut disk = MemoryDisk::new(rt.alloc());
        let mut fuse = Fuse::at(call, pick);
        let ended = fill_and_prune(rt.alloc(), &mut disk, &mut fuse);
        is_at(&rt, ended.is_ok(), call == 0 || call == 12, (call, pick));
        is_at(&rt, fuse.spent(), calls, (call, pick));
        is_at(
            &rt,
            read_again(rt.alloc(), &mut disk)?.as_slice(),
            want,
            (call, pick),
        );
    }
    Ok(())
}

#[test]
fn a_value_is_put_read_and_cleared(rt: HostRuntime) -> Result<(), Fail> {
    let mut disk = MemoryDisk::new(rt.alloc());
    let mut fuse = Fuse::never();
    is(&rt, Record::get(rt.alloc(), &mut disk)?.is_none(), true);
    Record::put(rt.alloc(), &mut disk, &mut fuse, &[1])?;
    let read = Record::get(rt.alloc(), &mut disk)?.unwrap_or_else(|| Vec::new(rt.alloc()));
    is(&rt, read.as_slice(), [1].as_slice());
    Record::clear(rt.alloc(), &mut disk, &mut fuse)?;
    is(&rt, Record::get(rt.alloc(), &mut disk)?.is_none(), true);
    is(&rt, fuse.spent(), 2);
    Ok(())
}

#[test]
fn records_that_are_not_whole(rt: HostRuntime) -> Result<(), Fail> {
    let rows: [(Name, &[u8], Option<u64>, u64); 12] = [
        (Name::Segment(5), &[], None, 1),
        (Name::Segment(5), &[0], None, 0),
        (Name::Segment(5), &[9, 1, 1, 1], None, 0),
        (Name::Segment(5), &[1, 0, 0, 0, 1, 5], None, 1),
        (Name::Segment(5), &[1, 0, 0, 0, 0, 1, 0, 0], Some(5), 0),
        (Name::Segment(5), &[1, 0, 0, 0, 9, 5], Some(0), 0),
        (Name::Flat, &[], None, 1),
        (Name::Flat, &[7], None, 1),
        (
            Name::Flat,
            &[1, 0, 0, 0, 8, 0, 0, 0, 0, 0, 0, 0, 5],
            None,
            2,
        ),
        (
            Name::Flat,
            &[1, 0, 0, 0, 8, 0, 0, 0, 0, 0, 0, 0, 5, 1, 0, 0],
            Some(13),
            0,
        ),
        (
            Name::Flat,
            &[1, 0, 0, 0, 9, 0, 0, 0, 0, 0, 0, 0, 5],
            Some(0),
            0,
        ),
        (
            Name::Flat,
            &[1, 0, 0, 0, 7, 0, 0, 0, 0, 0, 0, 5, 0],
            Some(0),
            0,
        ),
    ];
    for (name, bytes, broken, calls) in rows {
        let mut disk = MemoryDisk::new(rt.alloc());
        disk.install(rt.alloc(), name, bytes)?;
        let want = broken.map(|place| JournalError::Corrupt { name, place });
        let mut fuse = Fuse::never();
        let fault = match Journal::open(rt.alloc(), &mut disk, &mut fuse) {
            Ok(_) => None,
            Err(fault) => Some(fault),
        };
        is_at(&rt, fault, want, bytes);
        is_at(&rt, fuse.spent(), calls, bytes);
        is(&rt, fuse.blown(), false);
    }
    Ok(())
}
