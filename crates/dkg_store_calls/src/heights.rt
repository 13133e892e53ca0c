//! Logs that were recorded with heights and without, and which of them count at a tip.
ghost use Rattle.std.specs.Prelude.{OnOk, IsTrue};
ghost use Rattle.dkg_journal.specs.Journals.{IsOpen};

use crate::asserts::is;
use crate::memory::{Memory, opened};
use dkg_ceremony::DealerLog;
use dkg_infos::Unit;
use dkg_journal::Disk;
use dkg_store::{Devices, SecretStore, Store};
use dkg_values::{EncodeSize, Epoch, Height, Key, Name, decode_cfg};
use std::alloc::Global;
use std::test::Fail;

/// A log of the dealing 15 + 7x + x² with one acknowledgement.
const LOG: [u8; 26] = [
    0x03, 0x00, 0x0f, 0x00, 0x07, 0x00, 0x01, 0x04, 0x00, 0x13, 0x48, 0x84, 0x48, 0x6f, 0x93, 0x7d,
    0x35, 0x01, 0x00, 0x21, 0x01, 0x00, 0x2d, 0x01, 0x00, 0x3b,
];

/// A journal's file with the record of that log of key 2 in the first epoch, without a height.
const OLD: [u8; 45] = [
    1, 0, 0, 0, 39, 0, 0, 0, 0, 0, 0, 0, 0, 2, 0, 0, 0, 2, 0x03, 0x00, 0x0f, 0x00, 0x07, 0x00,
    0x01, 0x04, 0x00, 0x13, 0x48, 0x84, 0x48, 0x6f, 0x93, 0x7d, 0x35, 0x01, 0x00, 0x21, 0x01, 0x00,
    0x2d, 0x01, 0x00, 0x3b, 0,
];

/// Puts that file on a disk.
fn put_old<D: Disk>(alloc: Global, disk: &mut D) -> Result<(), Fail> {
    disk.install(alloc, Name::Flat, &OLD)?;
    Ok(())
}

/// Whose logs count at a tip: their keys as digits.
fn counted<Dir: Drop>(alloc: Global, store: &Store<Dir>, tip: Option<Height>) -> Result<u32, Fail> {
    let logs = store.logs(alloc, Epoch(0), Height(4), tip)?;
    let mut digits = 0u32;
    for (key, _) in logs.iter() {
        digits = digits.wrapping_mul(10).wrapping_add(key.0);
    }
    Ok(digits)
}

/// That at height 3, at 4, at 5, and without a tip.
fn counted_at<Dir: Drop>(alloc: Global, store: &Store<Dir>) -> Result<[u32; 4], Fail> {
    let three = counted(alloc, store, Some(Height(3)))?;
    let four = counted(alloc, store, Some(Height(4)))?;
    let five = counted(alloc, store, Some(Height(5)))?;
    Ok([three, four, five, counted(alloc, store, None)?])
}

/// Records this log of a dealer at height 5. Whether it is new.
fn noted<D: Disk, X: SecretStore, Dir: Drop>(
    alloc: Global,
    devices: &mut Devices<'_, D, X>,
    store: &mut Store<Dir>,
    dealer: Key,
) -> Result<bool, Fail>
    requires { IsTrue D.tells → IsOpen store.old.journal (D.files devices.old.disk.now) (D.image devices.old.disk.now) }
    ensures { OnOk result (IsTrue D.tells → IsOpen store.new.journal (D.files devices.new.disk.now) (D.image devices.new.disk.now)) }
{
    let log = decode_cfg::<DealerLog>(alloc, &LOG, &4)?;
    if log.encode_size() > 1000 {
        return Err(Fail::from("the log is too long"));
    }
    Ok(store.append_log(alloc, devices, Epoch(0), dealer, Height(5), log)?)
}

/// Records a log of key 3, and one of key 2. Whether each is new, whether keys 3 and 4 have a log then, and whose logs count.
fn two_logs<D: Disk, X: SecretStore, Dir: Drop>(
    alloc: Global,
    devices: &mut Devices<'_, D, X>,
    store: &mut Store<Dir>,
) -> Result<([bool; 4], [u32; 4]), Fail>
    requires { IsTrue D.tells → IsOpen store.old.journal (D.files devices.old.disk.now) (D.image devices.old.disk.now) }
{
    let first = noted(alloc, devices, store, Key(3))?;
    let second = noted(alloc, devices, store, Key(2))?;
    let third = store.has_log(Epoch(0), Key(3));
    let fourth = store.has_log(Epoch(0), Key(4));
    Ok(([first, second, third, fourth], counted_at(alloc, store)?))
}

/// That over a disk with that file.
fn two_logs_in<D: Disk, X: SecretStore, Dir: Drop>(
    alloc: Global,
    devices: &mut Devices<'_, D, X>,
) -> Result<([bool; 4], [u32; 4]), Fail> {
    put_old(alloc, devices.disk)?;
    let mut store: Store<Dir> = opened(alloc, devices)?;
    let found = two_logs(alloc, devices, &mut store);
    drop(store);
    found
}

/// That over empty devices.
fn two_logs_in_memory(alloc: Global) -> Result<([bool; 4], [u32; 4]), Fail> {
    let mut memory = Memory::new(alloc);
    let found = two_logs_in::<_, _, Unit>(alloc, &mut memory.devices());
    drop(memory);
    found
}

#[test]
fn logs_count_from_their_heights_on(rt: HostRuntime) -> Result<(), Fail> {
    let found = two_logs_in_memory(rt.alloc())?;
    is(&rt, found, ([true, false, true, false], [0, 2, 23, 0]));
    Ok(())
}
