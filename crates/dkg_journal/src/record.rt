//! One value, kept whole in the file `Plan`.
//!
//! A start plan is kept so, beside the journal.
ghost use Rattle.std.specs.Prelude.{◌≡◌, ◌⊎◌, ◌<◌, ◌≤◌, ◌^◌, ◌+◌, [], ◌∷◌, Option, Some, None, OnOk, IfOk, IfErr, IsErrOf, IsTrue, option_map};
ghost use Rattle.std.specs.FinMap.{get};
ghost use Rattle.dkg_journal.specs.Errors.{IsOfDevice, IsOfDisk};
ghost use Rattle.dkg_journal.specs.Counts.{Caused, Counts};
ghost use Rattle.dkg_journal.specs.Disk.{ImagesFollow, IsUnchanged, Rose, SameElse};
ghost use Rattle.dkg_journal.specs.Fuse.{HasRun, RanAll};
ghost use Rattle.dkg_journal.specs.Operations.{FinishedOn, TriedOn, PutsPlan, ClearsPlan};
ghost use Rattle.dkg_values.specs.declared.name.Name.TheVariants.{Plan};

use crate::call::perform_own;
use crate::{Disk, DiskError, Fuse, JournalError, Op};
use dkg_values::{Blob, Name};
use std::alloc::Global;

/// The value in the file `Plan`. It is there whole or not at all, whatever a crash leaves.
pub struct Record;

impl Record {
    /// Puts a value in place of an earlier one, by one call of the disk.
    pub fn put<D: Disk>(
        alloc: Global,
        disk: &mut D,
        fuse: &mut Fuse,
        bytes: &[u8],
    ) -> Result<(), JournalError>
        ensures put { OnOk result (IsTrue D.tells → get (D.files disk.new) Plan ≡ Some bytes.now) }
        ensures others { ImagesFollow (SameElse Plan) (D.image disk.old) (D.image disk.new) }
        ensures done { OnOk result (IsTrue D.tells → FinishedOn D.files D.image (PutsPlan bytes.now) disk.old disk.new fuse.old fuse.new) }
        ensures tried { TriedOn D.files D.image (PutsPlan bytes.now) disk.old disk.new fuse.old fuse.new }
        ensures caused { Caused (IsTrue D.tells) D.files D.image D.faults D.wants result disk.old disk.new fuse.old fuse.new }
        ensures kept { IsErrOf result JournalError.NoMemory → IsUnchanged D.files D.image disk.old disk.new }
        ensures memory { IsErrOf result JournalError.NoMemory → ((disk.new ≡ disk.old) × (fuse.new ≡ fuse.old)) ⊎ Rose (D.wants disk.old) (D.wants disk.new) }
        ensures error_kinds { IfErr result IsOfDevice }
        ensures calls { HasRun D.made result disk.old disk.new fuse.old fuse.new (Op.Install Plan bytes.now ∷ []) }
    {
        let install = Op::Install {
            name: Name::Plan,
            bytes: Blob::new(Vec::from_slice(alloc, bytes)?),
        };
        perform_own(alloc, disk, fuse, install)
    }

    /// The value, if there is one.
    pub fn get<D: Disk>(alloc: Global, disk: &mut D) -> Result<Option<Vec<u8>>, JournalError>
        ensures bytes { IfOk result (λ bytes. IsTrue D.tells → option_map (λ v. v.items) bytes ≡ get (D.files disk.old) Plan) }
        ensures same { IsUnchanged D.files D.image disk.old disk.new }
        ensures counts { Counts D.faults D.wants result disk.old disk.new }
        ensures wanted { IsErrOf result JournalError.NoMemory → Rose (D.wants disk.old) (D.wants disk.new) }
        ensures error_kinds { IfErr result IsOfDisk }
        ensures calls { D.made disk.old disk.new [] }
    {
        match disk.read(alloc, Name::Plan) {
            Ok(bytes) => Ok(bytes),
            Err(DiskError::Failed) => Err(JournalError::Disk),
            Err(DiskError::NoMemory) => Err(JournalError::NoMemory),
        }
    }

    /// Takes the value away, if there is one, by one call of the disk.
    pub fn clear<D: Disk>(alloc: Global, disk: &mut D, fuse: &mut Fuse) -> Result<(), JournalError>
        ensures cleared { OnOk result (IsTrue D.tells → get (D.files disk.new) Plan ≡ None) }
        ensures others { ImagesFollow (SameElse Plan) (D.image disk.old) (D.image disk.new) }
        ensures done { OnOk result (IsTrue D.tells → FinishedOn D.files D.image ClearsPlan disk.old disk.new fuse.old fuse.new) }
        ensures tried { TriedOn D.files D.image ClearsPlan disk.old disk.new fuse.old fuse.new }
        ensures caused { Caused (IsTrue D.tells) D.files D.image D.faults D.wants result disk.old disk.new fuse.old fuse.new }
        ensures wanted { IsErrOf result JournalError.NoMemory → Rose (D.wants disk.old) (D.wants disk.new) }
        ensures error_kinds { IfErr result IsOfDevice }
        ensures all { RanAll D.made disk.old disk.new fuse.old fuse.new (Op.Remove Plan ∷ []) }
    {
        perform_own(alloc, disk, fuse, Op::Remove { name: Name::Plan })
    }
}
