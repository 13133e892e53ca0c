//! A disk: what a read gives, what a crash may leave, and how often it has failed.
//!
//! The journal reads and changes it; the memory disks beside it stand for it in runs.
ghost use Rattle.std.specs.Prelude.{◌≡◌, ◌≤◌, ◌++◌, [], ◌∷◌, List, ℕ, Option, Some, length, IfOk, OnOk, OnErr, IsErrOf, IsTrue, Bool, option_map};
ghost use Rattle.std.specs.FinMap as map;
ghost use Rattle.dkg_journal.specs.Names.{Files};
ghost use Rattle.dkg_journal.specs.Disk.{Inside, ImagesFollow, Allowed, Did, Lands, IsUnchanged, HasCause, HasWant, Rose};
ghost use Rattle.dkg_journal.specs.DeviceCall.{DeviceCall, CallMade, CutIn, Crashes};
ghost use Rattle.dkg_journal.specs.declared.disk.Op.{Op};

use dkg_values::{Blob, Mem, Name};
use std::alloc::Global;
use thiserror::Error;

/// Why a call of a disk did not end.
#[derive(Clone, Copy, Debug, PartialEq, Eq, Error)]
pub enum DiskError {
    #[error("the disk failed")]
    Failed,
    #[error("out of memory")]
    NoMemory,
}

/// A call that changes a disk.
#[derive(Drop)]
pub enum Op {
    WriteAt { name: Name, place: u64, bytes: Blob },
    Sync { name: Name },
    Barrier,
    Install { name: Name, bytes: Blob },
    Remove { name: Name },
}

/// A finite map from names to bytes, of which a crash may tear what was written since a name's last sync. Whether a disk tells what it
/// holds is a matter of its type. A count of faults, and one of how often the disk itself wanted memory, never fall and stand still at
/// their last value; a call answers `Failed`, or `NoMemory`, only where its count rose in this call. A call that answers `NoMemory` changed
/// nothing.
pub trait Disk {
    /// Whether the type tells what its disks hold.
    ghost tells: { Bool };

    /// What a read gives, where it is told.
    ghost files: { Self → Files };

    /// What a crash at this moment may leave.
    ghost image: { Self → Files → Type 0 };

    /// How often the disk has failed.
    ghost faults: { Self → ℕ };

    /// How often the disk itself wanted memory.
    ghost wants: { Self → ℕ };

    /// The second disk is the first after these changing calls, cuts and crashes, and no others.
    ghost made: { Self → Self → List (DeviceCall Op) → Type 0 };

    /// The names that are there, in their order.
    fn list(&mut self, alloc: Global) -> Result<Vec<Name>, DiskError>
        ensures names { IfOk result (λ names. IsTrue tells → names.items ≡ map.keys (files self.old)) }
        ensures same { IsUnchanged files image self.old self.new }
        ensures cause { HasCause (faults self.old) (faults self.new) result }
        ensures want { HasWant (wants self.old) (wants self.new) result }
        ensures calls { made self.old self.new [] };

    /// All the bytes of a file, if it is there.
    fn read(&mut self, alloc: Global, name: Name) -> Result<Option<Vec<u8>>, DiskError>
        ensures bytes { IfOk result (λ bytes. IsTrue tells → option_map (λ v. v.items) bytes ≡ map.get (files self.old) name) }
        ensures same { IsUnchanged files image self.old self.new }
        ensures cause { HasCause (faults self.old) (faults self.new) result }
        ensures want { HasWant (wants self.old) (wants self.new) result }
        ensures calls { made self.old self.new [] };

    /// Writes over what is there, and past the end, of a file that is there, at a place in it or at its end. Until a sync a crash may
    /// leave any bytes in the range, and from the old end on.
    fn write_at(
        &mut self,
        alloc: Global,
        name: Name,
        place: u64,
        bytes: &[u8],
    ) -> Result<(), DiskError>
        requires { IsTrue tells → Allowed (files self.old) (Op.WriteAt name place bytes.now) }
        ensures done { OnOk result (IsTrue tells → Did (Op.WriteAt name place bytes.now) (files self.old) (files self.new) (image self.new)) }
        ensures crash { ImagesFollow (Inside (Op.WriteAt name place bytes.now)) (image self.old) (image self.new) }
        ensures memory { IsErrOf result DiskError.NoMemory → IsUnchanged files image self.old self.new }
        ensures cause { HasCause (faults self.old) (faults self.new) result }
        ensures want { HasWant (wants self.old) (wants self.new) result }
        ensures calls { made self.old self.new (CallMade (Op.WriteAt name place bytes.now) ∷ []) };

    /// After it, a crash leaves of this file what a read gives. An absent name is Ok.
    fn sync(&mut self, alloc: Global, name: Name) -> Result<(), DiskError>
        requires { IsTrue tells → Allowed (files self.old) (Op.Sync name) }
        ensures done { OnOk result (IsTrue tells → Did (Op.Sync name) (files self.old) (files self.new) (image self.new)) }
        ensures failed { files self.new ≡ files self.old }
        ensures crash { ImagesFollow (Inside (Op.Sync name)) (image self.old) (image self.new) }
        ensures memory { IsErrOf result DiskError.NoMemory → IsUnchanged files image self.old self.new }
        ensures cause { HasCause (faults self.old) (faults self.new) result }
        ensures want { HasWant (wants self.old) (wants self.new) result }
        ensures calls { made self.old self.new (CallMade (Op.Sync name) ∷ []) };

    /// That for all files.
    fn barrier(&mut self, alloc: Global) -> Result<(), DiskError>
        ensures done { OnOk result (IsTrue tells → Did Op.Barrier (files self.old) (files self.new) (image self.new)) }
        ensures failed { files self.new ≡ files self.old }
        ensures crash { ImagesFollow (Inside Op.Barrier) (image self.old) (image self.new) }
        ensures memory { IsErrOf result DiskError.NoMemory → IsUnchanged files image self.old self.new }
        ensures cause { HasCause (faults self.old) (faults self.new) result }
        ensures want { HasWant (wants self.old) (wants self.new) result }
        ensures calls { made self.old self.new (CallMade Op.Barrier ∷ []) };

    /// Makes or replaces a whole file. It is durable at once, and all or nothing at a crash.
    fn install(&mut self, alloc: Global, name: Name, bytes: &[u8]) -> Result<(), DiskError>
        ensures done { OnOk result (IsTrue tells → Did (Op.Install name bytes.now) (files self.old) (files self.new) (image self.new)) }
        ensures crash { ImagesFollow (Inside (Op.Install name bytes.now)) (image self.old) (image self.new) }
        ensures memory { IsErrOf result DiskError.NoMemory → IsUnchanged files image self.old self.new }
        ensures cause { HasCause (faults self.old) (faults self.new) result }
        ensures want { HasWant (wants self.old) (wants self.new) result }
        ensures calls { made self.old self.new (CallMade (Op.Install name bytes.now) ∷ []) };

    /// Takes a file away, if it is there. It is durable at once, and all or nothing at a crash.
    fn remove(&mut self, alloc: Global, name: Name) -> Result<(), DiskError>
        ensures done { OnOk result (IsTrue tells → Did (Op.Remove name) (files self.old) (files self.new) (image self.new)) }
        ensures crash { ImagesFollow (Inside (Op.Remove name)) (image self.old) (image self.new) }
        ensures memory { IsErrOf result DiskError.NoMemory → IsUnchanged files image self.old self.new }
        ensures cause { HasCause (faults self.old) (faults self.new) result }
        ensures want { HasWant (wants self.old) (wants self.new) result }
        ensures calls { made self.old self.new (CallMade (Op.Remove name) ∷ []) };

    /// Begins the call and stops in it. Then the disk reads as one of the images of that moment.
    fn cut(&mut self, alloc: Global, op: &Op, pick: u64) -> Mem<()>
        requires { IsTrue tells → Allowed (files self.old) op.now }
        ensures cut { OnOk result (IsTrue tells → Lands (files self.new) (image self.new)) }
        ensures crash { ImagesFollow (Inside op.now) (image self.old) (image self.new) }
        ensures memory { OnErr result (IsUnchanged files image self.old self.new) }
        ensures cause { faults self.new ≡ faults self.old }
        ensures later { wants self.old ≤ wants self.new }
        ensures wanted { OnErr result (Rose (wants self.old) (wants self.new)) }
        ensures calls { made self.old self.new (CutIn op.now pick ∷ []) };

    /// Stops between two calls. Then the disk reads as one of the images of this moment.
    fn crash(&mut self, pick: u64)
        ensures lands { IsTrue tells → Lands (files self.new) (image self.new) }
        ensures crash { (c : Files) → image self.new c → image self.old c }
        ensures cause { faults self.new ≡ faults self.old }
        ensures later { wants self.old ≤ wants self.new }
        ensures calls { made self.old self.new (Crashes pick ∷ []) };

    /// A disk as it reads is one of its images.
    ghost reads: { (disk : Self) → IsTrue tells → image disk (files disk) };

    /// No calls, and some calls after others.
    ghost made_none: { (a : Self) → made a a [] };

    ghost made_more: { (a b c : Self) (xs ys : List (DeviceCall Op)) → made a b xs → made b c ys → made a c (xs ++ ys) };
}
