//! The files of a memory disk by name.
//!
//! A tree in the order of the names, so that what is listed, and what a crash counts, comes in that order. To find a file, to add one and to take
//! one away each costs the tree's height.
ghost use Rattle.std.specs.Prelude.{◌≡◌, ◌≤◌, [], Some, None, length, IsTrue, IfOk, OnOk, OnErr, map, option_map};
ghost use Rattle.dkg_journal.specs.Disk.{Allowed, Inside, ImagesFollow};
ghost use Rattle.std.specs.FinMap.Entries.{is_sorted};
ghost use Rattle.dkg_journal.specs.Names.{name_cmp};
ghost use Rattle.dkg_journal.specs.Kept.{KeptBytes, FileImage, settled, wrote};
ghost use Rattle.dkg_journal.specs.Table.{Rows, RowsImage, file_bytes, contents, file_at, IsUpdate, made_sure, FileLands, PickedRow, CrashedBy, Begun, KeepsSynced};
ghost use Rattle.dkg_values.specs.declared.name.Name.{Name};

use crate::Op;
use crate::file::File;
use crate::ordered::Ordered;
use dkg_values::{Mem, Name};
use std::alloc::{AllocError, Global};
use std::collections::BTreeMap;
use std::marker::Model;

/// Files by name.
#[derive(Drop)]
pub struct Table {
    held: BTreeMap<Ordered, File>,
}

impl Model for Table {
    ghost use Rattle.dkg_journal.specs.Table.{Rows};

    ghost Value = { Rows };

    ghost view = { λ t. t.held.entries };
}

/// What a crash leaves of a file by its pick, and how many loose bytes may be kept of the files behind it.
fn crash_one(name: Name, file: &mut File, pick: u64, but: Option<Name>, count: u64) -> u64
    ensures image { FileImage file.old file.new.bytes }
    ensures settled { file.new ≡ settled file.new.bytes }
    ensures picked { PickedRow pick count but name file.old file.new result }
{
    if but.is_some_and(|spared| Ordered { name: spared } == Ordered { name }) {
        file.settle();
        count
    } else {
        file.crash(pick, count)
    }
}

impl Table {
    /// A table without files.
    pub fn new(alloc: Global) -> Table
        ensures { result ≡ [] }
    {
        Table {
            held: BTreeMap::new(alloc),
        }
    }

    fn get(&self, name: Name) -> Option<&File>
        ensures { option_map (λ f. f.now) result ≡ file_at name self.now }
    {
        self.held.get(&Ordered { name })
    }

    /// A copy of the bytes of a file, if it is there.
    pub fn read(&self, alloc: Global, name: Name) -> Result<Option<Vec<u8>>, AllocError>
        ensures { IfOk result (λ bytes. option_map (λ v. v.items) bytes ≡ file_bytes (file_at name self.now)) }
    {
        match self.get(name) {
            None => Ok(None),
            Some(file) => {
                let copy = Vec::from_slice(alloc, file.bytes())?;
                Ok(Some(copy))
            }
        }
    }

    /// The names, rising.
    pub fn names(&self, alloc: Global) -> Result<Vec<Name>, AllocError>
        ensures names { IfOk result (λ names. names.items ≡ map (λ e. e.0) self.now) }
        ensures sorted { IsTrue (is_sorted name_cmp self.now) }
    {
        let mut names = Vec::with_capacity(alloc, self.held.len())?;
        for key in self.held.keys() {
            names.push(key.name)?;
        }
        Ok(names)
    }

    /// Makes or replaces a file.
    fn put(&mut self, name: Name, file: File) -> Result<(), AllocError>
        ensures done { OnOk result (IsUpdate name (Some file) self.old self.new) }
        ensures kept { OnErr result (self.new ≡ self.old) }
    {
        self.held.insert(Ordered { name }, file)?;
        Ok(())
    }

    /// Makes or replaces a file, of a copy of these bytes.
    pub fn install(&mut self, alloc: Global, name: Name, bytes: &[u8]) -> Result<(), AllocError>
        ensures done { OnOk result (IsUpdate name (Some (settled bytes.now)) self.old self.new) }
        ensures kept { OnErr result (self.new ≡ self.old) }
    {
        let file = File::new(Vec::from_slice(alloc, bytes)?);
        self.put(name, file)
    }

    /// Takes a file away, if it is there.
    pub fn remove(&mut self, name: Name)
        ensures { IsUpdate name None self.old self.new }
    {
        self.held.remove(&Ordered { name });
    }

    /// Writes to a file that is there, at a place in it or at its end.
    pub fn write(
        &mut self,
        alloc: Global,
        name: Name,
        place: usize,
        bytes: &[u8],
    ) -> Result<(), AllocError>
        requires { (f : KeptBytes) × (file_at name self.old ≡ Some f) × (place ≤ length f.bytes) }
        ensures done { OnOk result ((f : KeptBytes) → file_at name self.old ≡ Some f
            → (f.synced ≤ length f.bytes) × IsUpdate name (Some (wrote place bytes.now f)) self.old self.new) }
        ensures kept { OnErr result (self.new ≡ self.old) }
        ensures synced { KeepsSynced self.old self.new }
    {
        match self.held.get_mut(&Ordered { name }) {
            Some(file) => {
                file.write(alloc, place, bytes)?;
                Ok(())
            }
            None => unreachable!(),
        }
    }

    /// Makes sure of a file, if it is there.
    pub fn settle(&mut self, name: Name)
        ensures { IsUpdate name (made_sure (file_at name self.old)) self.old self.new }
    {
        match self.held.get_mut(&Ordered { name }) {
            Some(file) => file.settle(),
            None => {}
        }
    }

    /// Makes sure of all files.
    pub fn settle_all(&mut self)
        ensures { (q : Name) → file_at q self.new ≡ made_sure (file_at q self.old) }
    {
        // All are kept: `retain` is the walk whose clause tells what it left of each.
        self.held.retain(|_, file| {
            file.settle();
            true
        });
    }

    /// What a crash leaves by its pick, of all files but one that is made sure of.
    pub fn crash(&mut self, pick: u64, but: Option<Name>)
        ensures lands { (q : Name) → FileLands (file_at q self.old) (file_at q self.new) }
        ensures picked { CrashedBy pick but self.old self.new }
    {
        let mut count = pick / 4;
        self.held.retain(move |key, file| {
            count = crash_one(key.name, file, pick, but, count);
            true
        });
    }

    /// Begins a call and stops in it: a write is made, and a file is made or taken away where the pick is even.
    pub fn begin(&mut self, alloc: Global, op: &Op, pick: u64) -> Mem<()>
        requires { Allowed (contents self.old) op.now }
        ensures inside { ImagesFollow (Inside op.now) (RowsImage self.old) (RowsImage self.new) }
        ensures begun { OnOk result (Begun op.now pick self.old self.new) }
        ensures kept { OnErr result (self.new ≡ self.old) }
    {
        match op {
            Op::WriteAt { name, place, bytes } => {
                self.write(alloc, *name, *place as usize, bytes.as_slice())?;
                Ok(())
            }
            Op::Install { name, bytes } => {
                if pick % 2 == 0 {
                    self.install(alloc, *name, bytes.as_slice())?;
                    Ok(())
                } else {
                    Ok(())
                }
            }
            Op::Remove { name } => {
                if pick % 2 == 0 {
                    self.remove(*name);
                    Ok(())
                } else {
                    Ok(())
                }
            }
            Op::Sync { .. } | Op::Barrier => Ok(()),
        }
    }
}
