//! The changing calls of a disk: each is counted by a fuse, which may cut it.
//!
//! The journal makes all its changing calls through `perform`, and so do the crates above it.
ghost use Rattle.std.specs.Prelude.{◌≡◌, ◌⊎◌, ◌≤◌, [], ◌∷◌, OnOk, IsErrOf, IsTrue, IfErr, ◌+◌, None};
ghost use Rattle.dkg_journal.specs.DeviceCall.{CallMade};
ghost use Rattle.dkg_journal.specs.Counts.{Caused};
ghost use Rattle.dkg_journal.specs.Disk.{Inside, ImagesFollow, Allowed, Did, IsUnchanged, HasCause, HasWant, Rose};
ghost use Rattle.dkg_journal.specs.Fuse.{calls_in, spent_once, RanAll};
ghost use Rattle.dkg_journal.specs.Errors.{IsOfDevice};
ghost use Rattle.dkg_journal.specs.declared.call.JournalError.TheVariants.{NoMemory as WantOfMemory};

use crate::{Disk, DiskError, Fuse, Op};
use dkg_values::{Name, NoMemory};
use std::alloc::{AllocError, AllocFailed, Global};
use thiserror::Error;

/// Why a call of the journal, or a changing call of a disk, did not end.
#[derive(Clone, Copy, Debug, PartialEq, Eq, Error)]
pub enum JournalError {
    /// A call of the disk failed.
    #[error("a call of the disk failed")]
    Disk,
    /// The record whose gate stands at this place passes the file's end, or has no room for its section.
    #[error("the record at byte {place} of the file {name:?} is not whole")]
    Corrupt { name: Name, place: u64 },
    /// The body has 2^32 bytes or more, counted with what the file's form puts before it.
    #[error("the body is too long for a record")]
    TooLong,
    /// The fuse cut this call: the step ends.
    #[error("cut")]
    Cut,
    #[error("out of memory")]
    NoMemory,
}

impl From<NoMemory> for JournalError {
    ghost from_gives = { λ _ e. e ≡ WantOfMemory };

    fn from(_: NoMemory) -> Self {
        JournalError::NoMemory
    }
}

impl From<AllocError> for JournalError {
    ghost from_gives = { λ _ e. e ≡ WantOfMemory };

    fn from(_: AllocError) -> Self {
        JournalError::NoMemory
    }
}

impl<T: Drop> From<AllocFailed<T>> for JournalError {
    ghost from_gives = { λ _ e. e ≡ WantOfMemory };

    fn from(_: AllocFailed<T>) -> Self {
        JournalError::NoMemory
    }
}

fn made_call<D: Disk>(alloc: Global, disk: &mut D, op: &Op) -> Result<(), DiskError>
    requires { IsTrue D.tells → Allowed (D.files disk.old) op.now }
    ensures done { OnOk result (IsTrue D.tells → Did op.now (D.files disk.old) (D.files disk.new) (D.image disk.new)) }
    ensures crash { ImagesFollow (Inside op.now) (D.image disk.old) (D.image disk.new) }
    ensures memory { IsErrOf result DiskError.NoMemory → IsUnchanged D.files D.image disk.old disk.new }
    ensures cause { HasCause (D.faults disk.old) (D.faults disk.new) result }
    ensures want { HasWant (D.wants disk.old) (D.wants disk.new) result }
    ensures calls { D.made disk.old disk.new (CallMade op.now ∷ []) }
{
    match op {
        Op::WriteAt { name, place, bytes } => disk.write_at(alloc, *name, *place, bytes.as_slice()),
        Op::Sync { name } => disk.sync(alloc, *name),
        Op::Barrier => disk.barrier(alloc),
        Op::Install { name, bytes } => disk.install(alloc, *name, bytes.as_slice()),
        Op::Remove { name } => disk.remove(alloc, *name),
    }
}

/// Makes the call, or begins it and stops in it where the fuse says so.
pub fn perform<D: Disk>(
    alloc: Global,
    disk: &mut D,
    fuse: &mut Fuse,
    op: &Op,
) -> Result<(), JournalError>
    requires { IsTrue D.tells → Allowed (D.files disk.old) op.now }
    ensures done { OnOk result (IsTrue D.tells → Did op.now (D.files disk.old) (D.files disk.new) (D.image disk.new)) }
    ensures crash { ImagesFollow (Inside op.now) (D.image disk.old) (D.image disk.new) }
    ensures memory { IsErrOf result JournalError.NoMemory → IsUnchanged D.files D.image disk.old disk.new }
    ensures caused { Caused (IsTrue D.tells) D.files D.image D.faults D.wants result disk.old disk.new fuse.old fuse.new }
    ensures wanted { IsErrOf result JournalError.NoMemory → Rose (D.wants disk.old) (D.wants disk.new) }
    // It was made, or cut where the fuse says so.
    ensures calls { D.made disk.old disk.new (calls_in fuse.old (op.now ∷ [])) }
    ensures counted { fuse.new ≡ spent_once fuse.old }
    ensures error_kinds { IfErr result IsOfDevice }
{
    if let Some(pick) = fuse.spend() {
        return match disk.cut(alloc, op, pick) {
            Ok(()) => Err(JournalError::Cut),
            Err(NoMemory) => Err(JournalError::NoMemory),
        };
    }
    match made_call(alloc, disk, op) {
        Ok(()) => Ok(()),
        Err(DiskError::Failed) => Err(JournalError::Disk),
        Err(DiskError::NoMemory) => Err(JournalError::NoMemory),
    }
}

/// Makes a call whose bytes are its own, as `perform` does.
pub(crate) fn perform_own<D: Disk>(
    alloc: Global,
    disk: &mut D,
    fuse: &mut Fuse,
    op: Op,
) -> Result<(), JournalError>
    requires { IsTrue D.tells → Allowed (D.files disk.old) op }
    ensures done { OnOk result (IsTrue D.tells → Did op (D.files disk.old) (D.files disk.new) (D.image disk.new)) }
    ensures crash { ImagesFollow (Inside op) (D.image disk.old) (D.image disk.new) }
    ensures memory { IsErrOf result JournalError.NoMemory → IsUnchanged D.files D.image disk.old disk.new }
    ensures caused { Caused (IsTrue D.tells) D.files D.image D.faults D.wants result disk.old disk.new fuse.old fuse.new }
    ensures wanted { IsErrOf result JournalError.NoMemory → Rose (D.wants disk.old) (D.wants disk.new) }
    ensures all { RanAll D.made disk.old disk.new fuse.old fuse.new (op ∷ []) }
    ensures error_kinds { IfErr result IsOfDevice }
{
    perform(alloc, disk, fuse, &op)
}
