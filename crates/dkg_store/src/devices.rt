//! Both devices of a step, and the calls that change them, in one order.
ghost use Rattle.std.specs.Prelude.{◌≡◌, ⊤, [], List, OnOk, IfErr, IsTrue, true};
ghost use Rattle.std.specs.FinMap.{keys};
ghost use Rattle.dkg_infos.specs.declared.entry.Entry.{Entry};
ghost use Rattle.dkg_journal.specs.Disk.{ImagesFollow, IsUnchanged, Rose};
ghost use Rattle.dkg_journal.specs.Fuse.{Reached};
ghost use Rattle.dkg_journal.specs.Journals.{IsOpen};
ghost use Rattle.dkg_journal.specs.Ready.{CanAppend};
ghost use Rattle.dkg_journal.specs.Steps.{AddsEntry, MayAdd};
ghost use Rattle.dkg_store.specs.Acts.{MadeOn};
ghost use Rattle.dkg_store.specs.Both.{IsWant, IsWanted, prune_both, put_then_append};
ghost use Rattle.dkg_store.specs.Called.{Called, ErrorIsDue, made_in};
ghost use Rattle.dkg_store.specs.Calls.{put_and_appended, pruning, ended};
ghost use Rattle.dkg_store.specs.Left.{Extends, GivesAbove, Shrinks};
ghost use Rattle.dkg_store.specs.On.{StaysFirm};
ghost use Rattle.dkg_store.specs.Pairs.{PutsFirst};
ghost use Rattle.dkg_secrets.specs.Secrets.{Tries, after};

use crate::call::{StoreError, of_journal, perform_secret};
use dkg_journal::{Disk, Fuse, Journal, Prepared};
use dkg_secrets::{SecretOp, SecretStore};
use dkg_values::Epoch;
use std::alloc::Global;

/// Both devices, and the fuse that counts the changing calls of one step on either.
#[derive(Drop)]
pub struct Devices<'a, D, X> {
    pub disk: &'a mut D,
    pub secrets: &'a mut X,
    pub fuse: Fuse,
}

/// Puts a secret, and then appends an entry.
pub fn put_and_append<D: Disk, X: SecretStore>(
    alloc: Global,
    devices: &mut Devices<'_, D, X>,
    journal: &mut Journal,
    put: &SecretOp,
    calls: &Prepared,
    section: u64,
    body: &[u8],
) -> Result<(), StoreError>
    requires ready { CanAppend calls.now journal.old (section, body.now) }
    requires open { IsTrue D.tells → IsOpen journal.old (D.files devices.old.disk.now) (D.image devices.old.disk.now) }
    ensures open { OnOk result (IsTrue D.tells → IsOpen journal.new (D.files devices.new.disk.now) (D.image devices.new.disk.now)) }
    ensures done { OnOk result (IsTrue X.tells → X.held devices.new.secrets.now ≡ after put.now (X.held devices.old.secrets.now)) }
    ensures added { OnOk result (IsTrue D.tells → ImagesFollow (AddsEntry (section, body.now)) (D.image devices.old.disk.now) (D.image devices.new.disk.now)) }
    // Each image has the entries from before, with the new one or without.
    ensures images { IsTrue D.tells → ImagesFollow (MayAdd (section, body.now)) (D.image devices.old.disk.now) (D.image devices.new.disk.now) }
    ensures steps { IsTrue D.tells → IsTrue X.tells → PutsFirst put.now (section, body.now)
        (D.image devices.old.disk.now) (D.image devices.new.disk.now) (X.held devices.old.secrets.now) (X.held devices.new.secrets.now) }
    // Whatever a crash leaves of the disk.
    ensures extends { IsTrue D.tells → Extends (made_in true result)
        section body.now
        (D.files devices.old.disk.now) (D.files devices.new.disk.now) (D.image devices.old.disk.now) (D.image devices.new.disk.now) }
    // The put, and then the append: both at Ok, and at any other exit a part, whatever image is left.
    ensures acts { IsTrue D.tells → IsTrue X.tells → (out : List Entry) → MadeOn D.files D.image X.held
        (put_and_appended put.now (section, body.now) tt)
        (ended result) devices.old devices.new out out }
    ensures called { Called ⊤ D.made X.made D.faults X.faults (made_in true result)
        (put_then_append put.now journal.old (section, body.now)) devices.old devices.new }
    // The secret store comes first: where it failed, the disk is as it was. After a cut nothing of the disk is loose, where nothing was.
    ensures due { IfErr result (λ e. ErrorIsDue e (Rose (D.faults devices.old.disk.now) (D.faults devices.new.disk.now))
        (Rose (X.faults devices.old.secrets.now) (X.faults devices.new.secrets.now) × (devices.new.disk.now ≡ devices.old.disk.now))
        (Reached devices.old.fuse devices.new.fuse × (IsTrue D.tells → StaysFirm D.files D.image devices.old.disk.now devices.new.disk.now))
        (IsWanted (D.wants devices.old.disk.now) (D.wants devices.new.disk.now) (X.wants devices.old.secrets.now) (X.wants devices.new.secrets.now))) }
{
    perform_secret(alloc, devices.secrets, &mut devices.fuse, put)?;
    match journal.append_ready(alloc, devices.disk, &mut devices.fuse, calls, section, body) {
        Ok(()) => Ok(()),
        Err(error) => Err(of_journal(error)),
    }
}

/// Prunes the journal, and then the secrets.
pub(crate) fn prune_devices<D: Disk, X: SecretStore>(
    alloc: Global,
    devices: &mut Devices<'_, D, X>,
    journal: &mut Journal,
    min: Epoch,
) -> Result<(), StoreError>
    requires open { IsTrue D.tells → IsOpen journal.old (D.files devices.old.disk.now) (D.image devices.old.disk.now) }
    ensures open { OnOk result (IsTrue D.tells → IsOpen journal.new (D.files devices.new.disk.now) (D.image devices.new.disk.now)) }
    ensures done { OnOk result (IsTrue X.tells → X.held devices.new.secrets.now ≡ after (SecretOp.Prune min) (X.held devices.old.secrets.now)) }
    ensures crash { Tries (SecretOp.Prune min) (X.held devices.old.secrets.now) (X.held devices.new.secrets.now) }
    // Each image with the secrets then held is whole as before, and gives all from before, or what lies at or above the minimum; at Ok the latter.
    ensures gives { IsTrue D.tells → GivesAbove min (made_in true result)
        (D.image devices.old.disk.now) (D.image devices.new.disk.now) (X.held devices.old.secrets.now) (X.held devices.new.secrets.now) }
    // Each image has the names of segments from before, or those at or above the minimum, and every other file as it was.
    ensures shrinks { IsTrue D.tells → Shrinks min (made_in true result)
        (D.files devices.old.disk.now) (D.files devices.new.disk.now) (D.image devices.old.disk.now) (D.image devices.new.disk.now) }
    // The journal, and then the secrets: both at Ok, and at any other exit a part, whatever image is left.
    ensures acts { IsTrue D.tells → IsTrue X.tells → (out : List Entry) → MadeOn D.files D.image X.held
        (pruning min)
        (ended result) devices.old devices.new out out }
    ensures called { Called (IsTrue D.tells) D.made X.made D.faults X.faults (made_in true result)
        (prune_both min (keys (D.files devices.old.disk.now))) devices.old devices.new }
    // The disk comes first: where it failed, the secrets are as they were. After a cut nothing of the disk is loose, where nothing was.
    ensures due { IfErr result (λ e. ErrorIsDue e
        (Rose (D.faults devices.old.disk.now) (D.faults devices.new.disk.now) × (devices.new.secrets.now ≡ devices.old.secrets.now))
        (Rose (X.faults devices.old.secrets.now) (X.faults devices.new.secrets.now))
        (Reached devices.old.fuse devices.new.fuse × (IsTrue D.tells → StaysFirm D.files D.image devices.old.disk.now devices.new.disk.now))
        (IsWant ((journal.new ≡ journal.old)
        × D.made devices.old.disk.now devices.new.disk.now [] × IsUnchanged D.files D.image devices.old.disk.now devices.new.disk.now
        × (devices.new.secrets.now ≡ devices.old.secrets.now) × (devices.new.fuse ≡ devices.old.fuse))
        (D.wants devices.old.disk.now) (D.wants devices.new.disk.now) (X.wants devices.old.secrets.now) (X.wants devices.new.secrets.now))) }
{
    if let Err(error) = journal.prune(alloc, devices.disk, &mut devices.fuse, min.0) {
        return Err(of_journal(error));
    }
    perform_secret(
        alloc,
        devices.secrets,
        &mut devices.fuse,
        &SecretOp::Prune { min },
    )?;
    Ok(())
}
