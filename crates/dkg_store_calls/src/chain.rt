//! Four calls of a store in a row, with an early return in between: their acts are made as those of one call.
ghost use Rattle.std.specs.Prelude.{◌≡◌, ◌<◌, ◌+◌, ◌^◌, List, length, OnOk, IsTrue};
ghost use Rattle.std.specs.FinMap as map;
ghost use Rattle.dkg_infos.specs.declared.entry.Entry.{Entry};
ghost use Rattle.dkg_journal.specs.Journals.{IsOpen};
ghost use Rattle.dkg_store.specs.Acts.{MadeOn, Goes, bind};
ghost use Rattle.dkg_store.specs.Calls.{ended, recording, noting, pruning};
ghost use Rattle.dkg_store.specs.Chain.{taking};
ghost use Rattle.dkg_store.specs.Events.{event_spelling};
ghost use Rattle.dkg_store.specs.declared.event.Event.TheVariants as events;

use crate::asserts::is;
use crate::memory::{Memory, opened};
use crate::prune::{element, public_of};
use dkg_ceremony::{Ack, Private, Public};
use dkg_infos::Unit;
use dkg_journal::Disk;
use dkg_store::{Devices, SecretStore, Store, StoreError};
use dkg_values::{Epoch, Key, Mark};
use std::alloc::Global;
use std::test::Fail;

/// Records an acknowledgement, and forgets what is below the epoch. What it was told goes out again.
fn noted_and_pruned<D: Disk, X: SecretStore, Dir: Drop>(
    alloc: Global,
    devices: &mut Devices<'_, D, X>,
    store: &mut Store<Dir>,
    epoch: Epoch,
    dealer: Key,
    ack: Ack,
    new: bool,
) -> Result<bool, StoreError>
    requires open { IsTrue D.tells → IsOpen store.old.journal (D.files devices.old.disk.now) (D.image devices.old.disk.now) }
    ensures open { OnOk result (IsTrue D.tells → IsOpen store.new.journal (D.files devices.new.disk.now) (D.image devices.new.disk.now)) }
    ensures acts { IsTrue D.tells → IsTrue X.tells → (out : List Entry) → MadeOn D.files D.image X.held
        (bind (noting (map.contains_key store.old.acks (epoch, dealer)) (epoch, event_spelling (events.Ack dealer ack)))
        (λ noted. bind (pruning epoch) (λ gone. Goes new)))
        (ended result) devices.old devices.new out out }
    ensures same_disk { devices.new.disk.ghost_name ≡ devices.old.disk.ghost_name }
    ensures same_secrets { devices.new.secrets.ghost_name ≡ devices.old.secrets.ghost_name }
{
    store.append_ack(alloc, devices, epoch, dealer, ack)?;
    store.prune(alloc, devices, epoch)?;
    Ok(new)
}

/// Records a dealer's dealing and its acknowledgement of this node's, and forgets what is below the epoch. Whether the dealing is new.
/// Where the epoch has a share nothing is done.
fn taken<D: Disk, X: SecretStore, Dir: Drop>(
    alloc: Global,
    devices: &mut Devices<'_, D, X>,
    store: &mut Store<Dir>,
    epoch: Epoch,
    dealer: Key,
    public: Public,
    private: Private,
    ack: Ack,
) -> Result<bool, StoreError>
    requires short { length (event_spelling (events.Dealing dealer public)) < 2 ^ 32 }
    requires open { IsTrue D.tells → IsOpen store.old.journal (D.files devices.old.disk.now) (D.image devices.old.disk.now) }
    ensures open { OnOk result (IsTrue D.tells → IsOpen store.new.journal (D.files devices.new.disk.now) (D.image devices.new.disk.now)) }
    // One after another, as far as it came, whatever image is left.
    ensures acts { IsTrue D.tells → IsTrue X.tells → (out : List Entry) → MadeOn D.files D.image X.held
        (taking (recording (map.contains_key store.old.dealings (epoch, dealer)) epoch dealer public private)
        (map.contains_key store.old.acks (epoch, dealer)) (epoch, event_spelling (events.Ack dealer ack)) epoch)
        (ended result) devices.old devices.new out out }
    ensures same_disk { devices.new.disk.ghost_name ≡ devices.old.disk.ghost_name }
    ensures same_secrets { devices.new.secrets.ghost_name ≡ devices.old.secrets.ghost_name }
{
    if store.share(alloc, devices, epoch)?.is_some() {
        return Ok(false);
    }
    let new = store.append_dealing(alloc, devices, epoch, dealer, public, private)?;
    noted_and_pruned(alloc, devices, store, epoch, dealer, ack, new)
}

/// Takes a dealing with its acknowledgement.
fn taken_in<D: Disk, X: SecretStore, Dir: Drop>(
    alloc: Global,
    devices: &mut Devices<'_, D, X>,
    store: &mut Store<Dir>,
) -> Result<bool, Fail>
    requires { IsTrue D.tells → IsOpen store.old.journal (D.files devices.old.disk.now) (D.image devices.old.disk.now) }
{
    let private = Private(element(23)?);
    let ack = Ack(Mark([7; 8]));
    let public = public_of(alloc, [15, 7, 1])?;
    Ok(taken(
        alloc,
        devices,
        store,
        Epoch(1),
        Key(2),
        public,
        private,
        ack,
    )?)
}

/// That over what the devices hold.
fn taken_once<D: Disk, X: SecretStore, Dir: Drop>(
    alloc: Global,
    devices: &mut Devices<'_, D, X>,
) -> Result<bool, Fail> {
    let mut store: Store<Dir> = opened(alloc, devices)?;
    let taken = taken_in(alloc, devices, &mut store);
    drop(store);
    taken
}

/// That over empty devices.
fn taken_in_memory(alloc: Global) -> Result<bool, Fail> {
    let mut memory = Memory::new(alloc);
    let taken = taken_once::<_, _, Unit>(alloc, &mut memory.devices());
    drop(memory);
    taken
}

#[test]
fn four_calls_are_made_as_one(rt: HostRuntime) -> Result<(), Fail> {
    is(&rt, taken_in_memory(rt.alloc())?, true);
    Ok(())
}
