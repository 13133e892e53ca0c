//! A disk in memory whose calls fail by number.
//!
//! Runs and tests stand on it. What it holds, and what a crash leaves, is the affair of the sure disk inside.
ghost use Rattle.std.specs.Prelude.{◌≡◌, ◌≤◌, ◌%◌, ◌↔◌, [], ◌∷◌, None, OnOk, OnErr, IfOk, IsErrOf, IsTrue, Contains, option_map};
ghost use Rattle.std.specs.FinMap as map;
ghost use Rattle.dkg_journal.specs.Fuse.{counted};
ghost use Rattle.dkg_journal.specs.Failing.{files_of, images_of, FailsByNumber};
ghost use Rattle.dkg_journal.specs.Disk.{Allowed, Did, Rose, Lands, ImagesFollow, Inside, IsUnchanged, HasCause, HasWant};
ghost use Rattle.dkg_journal.specs.DeviceCall.{CallMade, CutIn, Crashes};
ghost use Rattle.dkg_journal.specs.Made.{Made};
ghost use Rattle.dkg_journal.specs.Names.{Files};
ghost use Rattle.dkg_journal.specs.Table.{CrashedBy, CutBy, KeepsSynced, synced_at};
ghost use Rattle.dkg_values.specs.declared.name.Name.{Name};

use crate::{Disk, DiskError, Op, SureDisk};
use dkg_values::{Mem, Name};
use std::alloc::Global;

/// A disk in memory, of which some calls fail. A call that fails changes nothing.
#[derive(Drop)]
pub struct MemoryDisk {
    disk: SureDisk,
    /// The numbers, from 1, of the calls that fail.
    failing: Vec<u64>,
    /// How many calls were made that may fail: all but `cut` and `crash`.
    calls: u64,
    /// How many of them failed.
    faults: u64,
}

impl MemoryDisk {
    /// An empty disk that never fails.
    pub fn new(alloc: Global) -> MemoryDisk
        ensures files { result.disk.files ≡ [] }
        ensures faults { result.faults ≡ 0 }
        ensures failing { result.failing.items ≡ [] }
    {
        MemoryDisk::failing(alloc, Vec::new(alloc))
    }

    /// An empty disk on which the calls of these numbers fail. The first is 1. `cut` and `crash` don't fail and are not counted.
    pub fn failing(alloc: Global, calls: Vec<u64>) -> MemoryDisk
        ensures files { result.disk.files ≡ [] }
        ensures faults { result.faults ≡ 0 }
        ensures failing { result.failing.items ≡ calls.items }
        ensures calls { result.calls ≡ 0 }
    {
        MemoryDisk {
            disk: SureDisk::new(alloc),
            failing: calls,
            calls: 0,
            faults: 0,
        }
    }

    /// Counts a call, and whether it fails.
    fn fails(&mut self) -> bool
        ensures disk { self.new.disk ≡ self.old.disk }
        ensures later { self.old.faults ≤ self.new.faults }
        ensures failed { IsTrue result → Rose self.old.faults self.new.faults }
        // Exactly the calls of these numbers fail.
        ensures number { self.new.calls ≡ counted self.old.calls }
        ensures exact { IsTrue result ↔ Contains self.old.failing.items (counted self.old.calls) }
        ensures failing { self.new.failing ≡ self.old.failing }
    {
        self.calls = self.calls.saturating_add(1);
        if self.failing.contains(&self.calls) {
            self.faults = self.faults.saturating_add(1);
            return true;
        }
        false
    }
}

impl Disk for MemoryDisk {
    ghost use Rattle.std.specs.Prelude.{◌≡◌, true, List, ℕ};
    ghost use Rattle.dkg_journal.specs.Made.{Made, made_nothing, made_both};
    ghost use Rattle.dkg_journal.specs.Table.{contents, RowsImage, reads_image};

    ghost tells = { true };

    ghost files = { λ d. contents d.disk.files };

    ghost image = { λ d. RowsImage d.disk.files };

    ghost faults = { λ d. d.faults };

    ghost wants = { λ d. d.disk.wants };

    ghost made = { λ a b calls. Made calls a.disk.changes b.disk.changes a.disk.files b.disk.files };

    ghost reads = { λ d tells. reads_image d.disk.files };

    ghost made_none = { λ a. made_nothing a.disk.changes a.disk.files };

    ghost made_more = { λ a b c xs ys p q. made_both xs ys a.disk.changes b.disk.changes c.disk.changes a.disk.files b.disk.files c.disk.files p q };

    fn list(&mut self, alloc: Global) -> Result<Vec<Name>, DiskError>
        ensures names { IfOk result (λ names. names.items ≡ map.keys (files_of self.old)) }
        ensures same { IsUnchanged files_of images_of self.old self.new }
        ensures cause { HasCause self.old.faults self.new.faults result }
        ensures want { HasWant self.old.disk.wants self.new.disk.wants result }
        ensures calls { Made [] self.old.disk.changes self.new.disk.changes self.old.disk.files self.new.disk.files }
        // Exactly the calls of these numbers fail.
        ensures number { FailsByNumber DiskError.Failed self.old.failing.items self.old.calls self.new.calls result }
        ensures numbers { self.new.failing ≡ self.old.failing }
    {
        if self.fails() {
            return Err(DiskError::Failed);
        }
        self.disk.list(alloc)
    }

    fn read(&mut self, alloc: Global, name: Name) -> Result<Option<Vec<u8>>, DiskError>
        ensures bytes { IfOk result (λ bytes. option_map (λ v. v.items) bytes ≡ map.get (files_of self.old) name) }
        ensures same { IsUnchanged files_of images_of self.old self.new }
        ensures cause { HasCause self.old.faults self.new.faults result }
        ensures want { HasWant self.old.disk.wants self.new.disk.wants result }
        ensures calls { Made [] self.old.disk.changes self.new.disk.changes self.old.disk.files self.new.disk.files }
        // Exactly the calls of these numbers fail.
        ensures number { FailsByNumber DiskError.Failed self.old.failing.items self.old.calls self.new.calls result }
        ensures numbers { self.new.failing ≡ self.old.failing }
    {
        if self.fails() {
            return Err(DiskError::Failed);
        }
        self.disk.read(alloc, name)
    }

    fn write_at(
        &mut self,
        alloc: Global,
        name: Name,
        place: u64,
        bytes: &[u8],
    ) -> Result<(), DiskError>
        requires { Allowed (files_of self.old) (Op.WriteAt name place bytes.now) }
        ensures done { OnOk result (Did (Op.WriteAt name place bytes.now) (files_of self.old) (files_of self.new) (images_of self.new)) }
        ensures crash { ImagesFollow (Inside (Op.WriteAt name place bytes.now)) (images_of self.old) (images_of self.new) }
        ensures memory { IsErrOf result DiskError.NoMemory → IsUnchanged files_of images_of self.old self.new }
        ensures cause { HasCause self.old.faults self.new.faults result }
        ensures want { HasWant self.old.disk.wants self.new.disk.wants result }
        ensures calls { Made (CallMade (Op.WriteAt name place bytes.now) ∷ []) self.old.disk.changes self.new.disk.changes
            self.old.disk.files self.new.disk.files }
        // What the last sync left is not touched.
        ensures synced { KeepsSynced self.old.disk.files self.new.disk.files }
        // Exactly the calls of these numbers fail.
        ensures number { FailsByNumber DiskError.Failed self.old.failing.items self.old.calls self.new.calls result }
        ensures numbers { self.new.failing ≡ self.old.failing }
    {
        if self.fails() {
            self.disk.count_change();
            return Err(DiskError::Failed);
        }
        self.disk.write_at(alloc, name, place, bytes)
    }

    fn sync(&mut self, alloc: Global, name: Name) -> Result<(), DiskError>
        ensures done { OnOk result (Did (Op.Sync name) (files_of self.old) (files_of self.new) (images_of self.new)) }
        ensures failed { files_of self.new ≡ files_of self.old }
        ensures crash { ImagesFollow (Inside (Op.Sync name)) (images_of self.old) (images_of self.new) }
        ensures memory { IsErrOf result DiskError.NoMemory → IsUnchanged files_of images_of self.old self.new }
        ensures cause { HasCause self.old.faults self.new.faults result }
        ensures want { HasWant self.old.disk.wants self.new.disk.wants result }
        ensures calls { Made (CallMade (Op.Sync name) ∷ []) self.old.disk.changes self.new.disk.changes self.old.disk.files self.new.disk.files }
        // Exactly the calls of these numbers fail.
        ensures number { FailsByNumber DiskError.Failed self.old.failing.items self.old.calls self.new.calls result }
        ensures numbers { self.new.failing ≡ self.old.failing }
    {
        if self.fails() {
            self.disk.count_change();
            return Err(DiskError::Failed);
        }
        self.disk.sync(alloc, name)
    }

    fn barrier(&mut self, alloc: Global) -> Result<(), DiskError>
        ensures done { OnOk result (Did Op.Barrier (files_of self.old) (files_of self.new) (images_of self.new)) }
        ensures failed { files_of self.new ≡ files_of self.old }
        ensures crash { ImagesFollow (Inside Op.Barrier) (images_of self.old) (images_of self.new) }
        ensures memory { IsErrOf result DiskError.NoMemory → IsUnchanged files_of images_of self.old self.new }
        ensures cause { HasCause self.old.faults self.new.faults result }
        ensures want { HasWant self.old.disk.wants self.new.disk.wants result }
        ensures calls { Made (CallMade Op.Barrier ∷ []) self.old.disk.changes self.new.disk.changes self.old.disk.files self.new.disk.files }
        // Exactly the calls of these numbers fail.
        ensures number { FailsByNumber DiskError.Failed self.old.failing.items self.old.calls self.new.calls result }
        ensures numbers { self.new.failing ≡ self.old.failing }
    {
        if self.fails() {
            self.disk.count_change();
            return Err(DiskError::Failed);
        }
        self.disk.barrier(alloc)
    }

    fn install(&mut self, alloc: Global, name: Name, bytes: &[u8]) -> Result<(), DiskError>
        ensures done { OnOk result (Did (Op.Install name bytes.now) (files_of self.old) (files_of self.new) (images_of self.new)) }
        ensures crash { ImagesFollow (Inside (Op.Install name bytes.now)) (images_of self.old) (images_of self.new) }
        ensures memory { IsErrOf result DiskError.NoMemory → IsUnchanged files_of images_of self.old self.new }
        ensures cause { HasCause self.old.faults self.new.faults result }
        ensures want { HasWant self.old.disk.wants self.new.disk.wants result }
        ensures calls { Made (CallMade (Op.Install name bytes.now) ∷ []) self.old.disk.changes self.new.disk.changes self.old.disk.files self.new.disk.files }
        // Exactly the calls of these numbers fail.
        ensures number { FailsByNumber DiskError.Failed self.old.failing.items self.old.calls self.new.calls result }
        ensures numbers { self.new.failing ≡ self.old.failing }
    {
        if self.fails() {
            self.disk.count_change();
            return Err(DiskError::Failed);
        }
        self.disk.install(alloc, name, bytes)
    }

    fn remove(&mut self, alloc: Global, name: Name) -> Result<(), DiskError>
        ensures done { OnOk result (Did (Op.Remove name) (files_of self.old) (files_of self.new) (images_of self.new)) }
        ensures crash { ImagesFollow (Inside (Op.Remove name)) (images_of self.old) (images_of self.new) }
        ensures memory { IsErrOf result DiskError.NoMemory → IsUnchanged files_of images_of self.old self.new }
        ensures cause { HasCause self.old.faults self.new.faults result }
        ensures want { HasWant self.old.disk.wants self.new.disk.wants result }
        ensures calls { Made (CallMade (Op.Remove name) ∷ []) self.old.disk.changes self.new.disk.changes self.old.disk.files self.new.disk.files }
        // Exactly the calls of these numbers fail.
        ensures number { FailsByNumber DiskError.Failed self.old.failing.items self.old.calls self.new.calls result }
        ensures numbers { self.new.failing ≡ self.old.failing }
    {
        if self.fails() {
            self.disk.count_change();
            return Err(DiskError::Failed);
        }
        self.disk.remove(alloc, name)
    }

    fn cut(&mut self, alloc: Global, op: &Op, pick: u64) -> Mem<()>
        requires { Allowed (files_of self.old) op.now }
        ensures cut { OnOk result (Lands (files_of self.new) (images_of self.new)) }
        ensures crash { ImagesFollow (Inside op.now) (images_of self.old) (images_of self.new) }
        ensures memory { OnErr result (IsUnchanged files_of images_of self.old self.new) }
        ensures cause { self.new.faults ≡ self.old.faults }
        ensures later { self.old.disk.wants ≤ self.new.disk.wants }
        ensures wanted { OnErr result (Rose self.old.disk.wants self.new.disk.wants) }
        ensures calls { Made (CutIn op.now pick ∷ []) self.old.disk.changes self.new.disk.changes self.old.disk.files self.new.disk.files }
        ensures uncounted { (self.new.calls ≡ self.old.calls) × (self.new.failing ≡ self.old.failing) }
        // It has done what the pick says.
        ensures picked { OnOk result (CutBy op.now pick self.old.disk.files self.new.disk.files) }
    {
        self.disk.cut(alloc, op, pick)
    }

    fn crash(&mut self, pick: u64)
        ensures lands { Lands (files_of self.new) (images_of self.new) }
        ensures crash { (c : Files) → images_of self.new c → images_of self.old c }
        ensures cause { self.new.faults ≡ self.old.faults }
        ensures later { self.old.disk.wants ≤ self.new.disk.wants }
        ensures calls { Made (Crashes pick ∷ []) self.old.disk.changes self.new.disk.changes self.old.disk.files self.new.disk.files }
        ensures uncounted { (self.new.calls ≡ self.old.calls) × (self.new.failing ≡ self.old.failing) }
        // Where the pick says so it has left what the last sync left.
        ensures synced { pick % 4 ≡ 1 → (name : Name) → map.get (files_of self.new) name ≡ synced_at name self.old.disk.files }
        // It has left what the pick says.
        ensures picked { CrashedBy pick None self.old.disk.files self.new.disk.files }
    {
        self.disk.crash(pick);
    }
}
