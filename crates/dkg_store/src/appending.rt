//! Appends of events: what is recorded is kept in memory, and its record is appended to the journal.
ghost use Rattle.std.specs.Prelude.{◌≡◌, ◌⊎◌, ◌<◌, ◌^◌, ⊤, List, length, OnOk, IfErr, IsTrue, None, true};
ghost use Rattle.std.specs.Prelude.{map as map_list};
ghost use Rattle.std.specs.FinMap as map;
ghost use Rattle.dkg_infos.specs.declared.entry.Entry.{Entry};
ghost use Rattle.dkg_journal.specs.Disk.{ImagesFollow, Lands, Rose};
ghost use Rattle.dkg_journal.specs.Fuse.{Reached};
ghost use Rattle.dkg_journal.specs.Journals.{IsOpen, append_calls};
ghost use Rattle.dkg_journal.specs.Steps.{AddsEntry, MayAdd};
ghost use Rattle.dkg_store.specs.Acts.{MadeOn};
ghost use Rattle.dkg_store.specs.Both.{on_disk};
ghost use Rattle.dkg_store.specs.Called.{Called, ErrorIsDue, if_made, made_in};
ghost use Rattle.dkg_store.specs.Calls.{appended, ended};
ghost use Rattle.dkg_store.specs.Left.{Extends};

use crate::call::{StoreError, of_journal};
use crate::devices::Devices;
use dkg_journal::{Disk, Journal};
use dkg_secrets::{PairMap, SecretStore};
use dkg_values::{Epoch, Key};
use std::alloc::Global;

/// Keeps a value, and appends its record, of which these are the bytes. After an error the value isn't kept.
pub(crate) fn append_event<V: Drop, D: Disk, X: SecretStore>(
    alloc: Global,
    notes: &mut PairMap<V>,
    journal: &mut Journal,
    devices: &mut Devices<'_, D, X>,
    epoch: Epoch,
    key: Key,
    value: V,
    body: &[u8],
) -> Result<(), StoreError>
    requires short { length body.now < 2 ^ 32 }
    requires new { map.get notes.old (epoch, key) ≡ None }
    requires open { IsTrue D.tells → IsOpen journal.old (D.files devices.old.disk.now) (D.image devices.old.disk.now) }
    ensures open { OnOk result (IsTrue D.tells → IsOpen journal.new (D.files devices.new.disk.now) (D.image devices.new.disk.now)) }
    ensures kept { notes.new ≡ if_made (made_in true result) (map.insert notes.old (epoch, key) value) notes.old }
    ensures added { OnOk result (IsTrue D.tells → ImagesFollow (AddsEntry (epoch, body.now)) (D.image devices.old.disk.now) (D.image devices.new.disk.now)) }
    // Each image has the entries from before, with the new one or without.
    ensures images { IsTrue D.tells → ImagesFollow (MayAdd (epoch, body.now)) (D.image devices.old.disk.now) (D.image devices.new.disk.now) }
    // Whatever a crash leaves of the disk.
    ensures extends { IsTrue D.tells → Extends (made_in true result)
        epoch body.now
        (D.files devices.old.disk.now) (D.files devices.new.disk.now) (D.image devices.old.disk.now) (D.image devices.new.disk.now) }
    ensures secrets { devices.new.secrets.now ≡ devices.old.secrets.now }
    // The append: all of it at Ok, and at any other exit a part, whatever image is left.
    ensures acts { IsTrue D.tells → (out : List Entry) → MadeOn D.files D.image X.held
        (appended (epoch, body.now) tt)
        (ended result) devices.old devices.new out out }
    ensures called { Called ⊤ D.made X.made D.faults X.faults (made_in true result)
        (map_list on_disk (append_calls journal.old (epoch, body.now))) devices.old devices.new }
    // The secret store is not called. After a cut nothing of the disk is loose.
    ensures due { IfErr result (λ e. ErrorIsDue e (Rose (D.faults devices.old.disk.now) (D.faults devices.new.disk.now)) ⊥
        (Reached devices.old.fuse devices.new.fuse × (IsTrue D.tells → Lands (D.files devices.new.disk.now) (D.image devices.new.disk.now)))
        (((notes.new ≡ notes.old) × (journal.new ≡ journal.old) × (devices.new ≡ devices.old))
        ⊎ Rose (D.wants devices.old.disk.now) (D.wants devices.new.disk.now))) }
{
    notes.insert(epoch, key, value)?;
    if let Err(error) = journal.append(alloc, devices.disk, &mut devices.fuse, epoch.0, body) {
        notes.remove(epoch, key);
        return Err(of_journal(error));
    }
    Ok(())
}
