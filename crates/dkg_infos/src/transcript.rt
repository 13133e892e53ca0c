//! What a run has told so far. Whoever must not fail after a device call takes room first.
ghost use Rattle.std.specs.Prelude.{◌≡◌, ◌≤◌, ◌<◌, ◌+◌, ◌++◌, ◌∷◌, [], OnOk, OnErr, IsOk};

use crate::entry::Entry;
use dkg_ceremony::Mem;
use std::alloc::Global;
use std::marker::Model;

/// The entries of a run, and room for more.
#[derive(Drop)]
pub struct Transcript {
    entries: Vec<Entry>,
}

impl Model for Transcript {
    ghost use Rattle.std.specs.Prelude.{◌-◌, vec_len, vec_capacity};
    ghost use Rattle.dkg_infos.specs.Told.{ToldEntries, coded_told};

    ghost Value = { ToldEntries };

    ghost coded = { coded_told };

    ghost view = { λ t. record { entries = t.entries.items; spare = vec_capacity t.entries - vec_len t.entries } };
}

impl Transcript {
    /// A transcript without entries.
    pub fn new(alloc: Global) -> Transcript
        ensures { result.entries ≡ [] }
    {
        Transcript {
            entries: Vec::new(alloc),
        }
    }

    /// Makes room for so many more entries.
    pub fn reserve(&mut self, more: usize) -> Mem<()>
        ensures room { OnOk result (more ≤ self.new.spare) }
        ensures same { self.new.entries ≡ self.old.entries }
    {
        self.entries.reserve(more)?;
        Ok(())
    }

    /// Adds an entry. Where there is room it succeeds.
    pub fn push(&mut self, entry: Entry) -> Mem<()>
        ensures ok { OnOk result (self.new.entries ≡ self.old.entries ++ entry ∷ []) }
        ensures err { OnErr result (self.new.entries ≡ self.old.entries) }
        ensures sure { 0 < self.old.spare → IsOk result }
        ensures room { self.old.spare ≤ self.new.spare + 1 }
    {
        self.entries.push(entry)?;
        Ok(())
    }

    /// The entries, in the order in which they came.
    pub fn entries(&self) -> &[Entry]
        ensures { result.now ≡ self.now.entries }
    {
        &self.entries
    }
}
