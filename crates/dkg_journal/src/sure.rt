//! A disk in memory that never fails, and whose crashes are picked.
//!
//! The memory disk that may fail stands on it.
ghost use Rattle.std.specs.Prelude.{◌≡◌, ◌≤◌, ℕ, [], ◌∷◌, None, OnOk, OnErr, IsErrOf};
ghost use Rattle.dkg_journal.specs.declared.sure.SureDisk.{SureDisk};
ghost use Rattle.dkg_journal.specs.Disk.{Allowed, Did, Rose, Lands, ImagesFollow, Inside, IsUnchanged, HasCause, HasWant};
ghost use Rattle.dkg_journal.specs.Fuse.{counted};
ghost use Rattle.dkg_journal.specs.DeviceCall.{CallMade, CutIn, Crashes};
ghost use Rattle.dkg_journal.specs.Made.{Made};
ghost use Rattle.dkg_journal.specs.Names.{Files};
ghost use Rattle.dkg_journal.specs.Table.{contents, RowsImage, CrashedBy, CutBy, spared_by, KeepsSynced};

use crate::table::Table;
use crate::{Disk, DiskError, Op};
use dkg_values::{Mem, Name, NoMemory};
use std::alloc::Global;

/// A disk in memory that never fails. A pick is `r + 4 q`: at a crash, where r is 0 all files are as written, where r is 1 as they were
/// last synced, where r is 2 the first q unsynced bytes are as written, and where r is 3 each unsynced byte is q mod 256.
#[derive(Drop)]
pub struct SureDisk {
    files: Table,
    /// How often a call found no memory.
    wants: u64,
    /// How many calls were to change the disk.
    changes: u64,
}

/// A count stands still at its last value.
fn one_more(count: u64) -> u64
    ensures counted { result ≡ counted count }
    ensures rose { Rose count result }
    ensures later { count ≤ result }
{
    count.saturating_add(1)
}

/// The file that a crash inside a call leaves as it is: what stands there is the old or the new one.
fn spared(op: &Op) -> Option<Name>
    ensures { result ≡ spared_by op.now }
{
    match op {
        Op::Install { name, .. } => Some(*name),
        Op::Remove { name } => Some(*name),
        Op::WriteAt { .. } | Op::Sync { .. } | Op::Barrier => None,
    }
}

impl SureDisk {
    /// An empty disk.
    pub fn new(alloc: Global) -> SureDisk
        ensures files { result.files ≡ [] }
        ensures wants { result.wants ≡ 0 }
        ensures changes { result.changes ≡ 0 }
    {
        SureDisk {
            files: Table::new(alloc),
            wants: 0,
            changes: 0,
        }
    }

    /// Counts a call that is to change the disk.
    pub(crate) fn count_change(&mut self)
        ensures changes { self.new.changes ≡ counted self.old.changes }
        ensures wants { self.new.wants ≡ self.old.wants }
        ensures files { self.new.files ≡ self.old.files }
    {
        self.changes = one_more(self.changes);
    }
}

impl Disk for SureDisk {
    ghost use Rattle.std.specs.Prelude.{◌≡◌, true, List, ℕ};
    ghost use Rattle.dkg_journal.specs.Made.{Made, made_nothing, made_both};
    ghost use Rattle.dkg_journal.specs.Table.{contents, RowsImage, reads_image};

    ghost tells = { true };

    ghost files = { λ d. contents d.files };

    ghost image = { λ d. RowsImage d.files };

    ghost faults = { λ d. 0 };

    ghost wants = { λ d. d.wants };

    ghost made = { λ a b calls. Made calls a.changes b.changes a.files b.files };

    ghost reads = { λ d tells. reads_image d.files };

    ghost made_none = { λ a. made_nothing a.changes a.files };

    ghost made_more = { λ a b c xs ys p q. made_both xs ys a.changes b.changes c.changes a.files b.files c.files p q };

    fn list(&mut self, alloc: Global) -> Result<Vec<Name>, DiskError> {
        match self.files.names(alloc) {
            Ok(names) => Ok(names),
            Err(_) => {
                self.wants = one_more(self.wants);
                Err(DiskError::NoMemory)
            }
        }
    }

    fn read(&mut self, alloc: Global, name: Name) -> Result<Option<Vec<u8>>, DiskError> {
        match self.files.read(alloc, name) {
            Ok(bytes) => Ok(bytes),
            Err(_) => {
                self.wants = one_more(self.wants);
                Err(DiskError::NoMemory)
            }
        }
    }

    fn write_at(
        &mut self,
        alloc: Global,
        name: Name,
        place: u64,
        bytes: &[u8],
    ) -> Result<(), DiskError>
        requires { Allowed (contents self.old.files) (Op.WriteAt name place bytes.now) }
        ensures done { OnOk result (Did (Op.WriteAt name place bytes.now) (contents self.old.files) (contents self.new.files) (RowsImage self.new.files)) }
        ensures crash { ImagesFollow (Inside (Op.WriteAt name place bytes.now)) (RowsImage self.old.files) (RowsImage self.new.files) }
        ensures memory { IsErrOf result DiskError.NoMemory
            → IsUnchanged (λ (d : SureDisk). contents d.files) (λ (d : SureDisk). RowsImage d.files) self.old self.new }
        ensures cause { HasCause 0 0 result }
        ensures want { HasWant self.old.wants self.new.wants result }
        ensures calls { Made (CallMade (Op.WriteAt name place bytes.now) ∷ []) self.old.changes self.new.changes self.old.files self.new.files }
        // What the last sync left is not touched.
        ensures synced { KeepsSynced self.old.files self.new.files }
    {
        self.changes = one_more(self.changes);
        match self.files.write(alloc, name, place as usize, bytes) {
            Ok(()) => Ok(()),
            Err(_) => {
                self.wants = one_more(self.wants);
                Err(DiskError::NoMemory)
            }
        }
    }

    fn sync(&mut self, alloc: Global, name: Name) -> Result<(), DiskError> {
        self.changes = one_more(self.changes);
        self.files.settle(name);
        Ok(())
    }

    fn barrier(&mut self, alloc: Global) -> Result<(), DiskError> {
        self.changes = one_more(self.changes);
        self.files.settle_all();
        Ok(())
    }

    fn install(&mut self, alloc: Global, name: Name, bytes: &[u8]) -> Result<(), DiskError> {
        self.changes = one_more(self.changes);
        match self.files.install(alloc, name, bytes) {
            Ok(()) => Ok(()),
            Err(_) => {
                self.wants = one_more(self.wants);
                Err(DiskError::NoMemory)
            }
        }
    }

    fn remove(&mut self, alloc: Global, name: Name) -> Result<(), DiskError> {
        self.changes = one_more(self.changes);
        self.files.remove(name);
        Ok(())
    }

    fn cut(&mut self, alloc: Global, op: &Op, pick: u64) -> Mem<()>
        requires { Allowed (contents self.old.files) op.now }
        ensures cut { OnOk result (Lands (contents self.new.files) (RowsImage self.new.files)) }
        ensures crash { ImagesFollow (Inside op.now) (RowsImage self.old.files) (RowsImage self.new.files) }
        ensures memory { OnErr result (IsUnchanged (λ (d : SureDisk). contents d.files) (λ (d : SureDisk). RowsImage d.files) self.old self.new) }
        ensures cause { ◌≡◌ {A = ℕ} 0 0 }
        ensures later { self.old.wants ≤ self.new.wants }
        ensures wanted { OnErr result (Rose self.old.wants self.new.wants) }
        ensures calls { Made (CutIn op.now pick ∷ []) self.old.changes self.new.changes self.old.files self.new.files }
        // It has done what the pick says.
        ensures picked { OnOk result (CutBy op.now pick self.old.files self.new.files) }
    {
        self.changes = one_more(self.changes);
        match self.files.begin(alloc, op, pick) {
            Ok(()) => {
                self.files.crash(pick, spared(op));
                Ok(())
            }
            Err(NoMemory) => {
                self.wants = one_more(self.wants);
                Err(NoMemory)
            }
        }
    }

    fn crash(&mut self, pick: u64)
        ensures lands { Lands (contents self.new.files) (RowsImage self.new.files) }
        ensures crash { (c : Files) → RowsImage self.new.files c → RowsImage self.old.files c }
        ensures cause { ◌≡◌ {A = ℕ} 0 0 }
        ensures later { self.old.wants ≤ self.new.wants }
        ensures calls { Made (Crashes pick ∷ []) self.old.changes self.new.changes self.old.files self.new.files }
        // It has left what the pick says.
        ensures picked { CrashedBy pick None self.old.files self.new.files }
    {
        self.files.crash(pick, None);
    }
}
