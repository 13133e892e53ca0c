//! A prune that fails, and the values that tests of a store deal.
ghost use Rattle.std.specs.Prelude.{◌≡◌, IfOk, IsTrue, OnOk, length};
ghost use Rattle.dkg_journal.specs.Journals.{IsOpen};

use crate::asserts::is;
use crate::memory::{Memory, opened};
use dkg_ceremony::{Private, Public};
use dkg_infos::Unit;
use dkg_journal::Disk;
use dkg_store::{Devices, SecretStore, Store};
use dkg_values::{Element, Epoch, Key};
use std::alloc::Global;
use std::test::Fail;

pub(crate) fn element(value: u16) -> Result<Element, Fail> {
    Ok(Element::new(value).ok_or("no element")?)
}

pub(crate) fn public_of(alloc: Global, coefficients: [u16; 3]) -> Result<Public, Fail>
    ensures { IfOk result (λ p. length p ≡ 3) }
{
    let [a, b, c] = coefficients;
    let elements = vec![in alloc; element(a)?, element(b)?, element(c)?]?;
    Ok(Public::new(alloc, elements)?)
}

/// Records a dealing.
fn recorded<D: Disk, X: SecretStore, Dir: Drop>(
    alloc: Global,
    devices: &mut Devices<'_, D, X>,
    store: &mut Store<Dir>,
) -> Result<bool, Fail>
    requires open { IsTrue D.tells → IsOpen store.old.journal (D.files devices.old.disk.now) (D.image devices.old.disk.now) }
    ensures open { OnOk result (IsTrue D.tells → IsOpen store.new.journal (D.files devices.new.disk.now) (D.image devices.new.disk.now)) }
{
    let private = Private(element(23)?);
    let public = public_of(alloc, [15, 7, 1])?;
    Ok(store.append_dealing(alloc, devices, Epoch(0), Key(2), public, private)?)
}

/// Records a dealing, and prunes behind it. Whether it was new, whether the prune failed, and how many dealings are kept.
fn pruned<D: Disk, X: SecretStore, Dir: Drop>(
    alloc: Global,
    devices: &mut Devices<'_, D, X>,
    store: &mut Store<Dir>,
) -> Result<(bool, bool, u32), Fail>
    requires { IsTrue D.tells → IsOpen store.old.journal (D.files devices.old.disk.now) (D.image devices.old.disk.now) }
{
    let new = recorded(alloc, devices, store)?;
    let failed = store.prune(alloc, devices, Epoch(1)).is_err();
    let kept = store.dealings(alloc, Epoch(0))?.len();
    Ok((new, failed, kept))
}

/// That over what the devices hold.
fn pruned_once<D: Disk, X: SecretStore, Dir: Drop>(
    alloc: Global,
    devices: &mut Devices<'_, D, X>,
) -> Result<(bool, bool, u32), Fail> {
    let mut store: Store<Dir> = opened(alloc, devices)?;
    let pruned = pruned(alloc, devices, &mut store);
    drop(store);
    pruned
}

/// That over empty devices, where these calls of the secrets fail.
fn pruned_in_memory(alloc: Global, failing: Vec<u64>) -> Result<(bool, bool, u32), Fail> {
    let mut memory = Memory::failing(alloc, failing);
    let pruned = pruned_once::<_, _, Unit>(alloc, &mut memory.devices());
    drop(memory);
    pruned
}

#[test]
fn a_failed_prune_forgets_nothing(rt: HostRuntime) -> Result<(), Fail> {
    let alloc = rt.alloc();
    // the dealing's private half is the first call, and the prune the second
    let failing = vec![in alloc; 2]?;
    is(&rt, pruned_in_memory(alloc, failing)?, (true, true, 1));
    let failing = Vec::new(alloc);
    is(&rt, pruned_in_memory(alloc, failing)?, (true, false, 0));
    Ok(())
}
