//! The entries of a dealer's log, one for each player of the round, in the order of their keys.
ghost use Rattle.std.specs.Prelude.{◌≡◌, ◌↔◌, ℕ, ◌+◌, ◌*◌, ◌<◌, ◌≤◌, ◌^◌, IfOk, IsTrue, length, vec_len};
ghost use Rattle.std.specs.List.{AllByRecursion};
ghost use Rattle.dkg_ceremony.specs.LogEntries.{EntryFits, EntriesFit, entries_spelling};
ghost use Rattle.dkg_ceremony.specs.Entries.{AreEntries};

use crate::log_entry::{LogEntry, known};
use bytes::BytesMut;
use dkg_values::{
    CodecError, EncodeSize, Mem, Read, Reader, Shared, Spelled, Value, Write, read_count,
    read_many, uint_size, write_uint,
};
use std::alloc::Global;
use std::marker::Model;

/// What the entries of a log and their copies share: fewer than 2^32 of them, which contracts see as a list.
#[derive(Drop)]
struct Listed(Vec<LogEntry>);

impl Model for Listed {
    ghost use Rattle.std.specs.Prelude.{List};
    ghost use Rattle.dkg_ceremony.specs.declared.log_entry.LogEntry.{LogEntry};
    ghost use Rattle.dkg_ceremony.specs.Entries.{AreEntries};

    ghost Value = { List LogEntry };

    ghost view = { λ e. e.0.items };

    ghost invariant = { λ e. AreEntries e.0.items };
}

/// The entries of a log, fewer than 2^32, in memory that copies share. Contracts see them as a list.
#[derive(Drop)]
pub struct LogEntries(Shared<Listed>);

impl Model for LogEntries {
    ghost use Rattle.std.specs.Prelude.{List};
    ghost use Rattle.dkg_ceremony.specs.declared.log_entry.LogEntry.{LogEntry};

    ghost Value = { List LogEntry };

    ghost view = { λ e. e.0 };
}

/// Each entry keeps all that its spelling asks: to know it, each is read.
#[tactic(auto, using(crate::specs::Entries::fit_more, crate::specs::Entries::fit_all))]
fn all_known(entries: &[LogEntry])
    ensures { AllByRecursion EntryFits entries.now }
{
    for entry in entries {
        known(entry);
    }
}

impl Listed {
    fn as_slice(&self) -> &[LogEntry]
        ensures items { result.now ≡ self.now }
        ensures kept { AreEntries self.now }
    {
        &self.0
    }

    fn same(&self, other: &Listed) -> bool
        ensures { IsTrue result ↔ (self.now ≡ other.now) }
    {
        if self.0.len() != other.0.len() {
            return false;
        }
        for i in 0..self.0.len() {
            if !self.0[i].same(&other.0[i]) {
                return false;
            }
        }
        true
    }
}

impl Spelled for Listed {
    ghost use Rattle.dkg_ceremony.specs.LogEntries.{entries_spelling};

    ghost spelling = { entries_spelling };
}

impl EncodeSize for Listed {
    #[tactic(auto, using(crate::specs::LogEntries::entries_size_more))]
    fn encode_size(&self) -> usize
        ensures size { result ≡ length (entries_spelling self.now) }
        ensures bound { result ≤ 2 ^ 36 }
        ensures limit { (most : ℕ) → length self.now ≤ most → result ≤ 5 + 9 * most }
    {
        let mut size = uint_size(self.0.len() as u64);
        for entry in &self.0 {
            size += entry.encode_size();
        }
        size
    }
}

impl Write for Listed {
    fn put(&self, out: &mut BytesMut) -> Mem<()> {
        write_uint(out, self.0.len() as u64)?;
        for entry in &self.0 {
            entry.put(out)?;
        }
        Ok(())
    }
}

/// Entries, as those of a log.
fn entries_of(alloc: Global, entries: Vec<LogEntry>) -> Mem<LogEntries>
    requires { AreEntries entries.items }
    ensures { IfOk result (λ made. made ≡ entries.items) }
{
    Ok(LogEntries(Shared::of(alloc, Listed(entries))?))
}

impl LogEntries {
    /// The entries of a log.
    pub fn new(alloc: Global, entries: Vec<LogEntry>) -> Mem<LogEntries>
        requires { vec_len entries < 2 ^ 32 }
        ensures { IfOk result (λ made. made ≡ entries.items) }
    {
        all_known(&entries);
        entries_of(alloc, entries)
    }

    /// The entries, in the order of the players' keys.
    pub fn as_slice(&self) -> &[LogEntry]
        ensures items { result.now ≡ self.now }
        ensures kept { AreEntries self.now }
    {
        self.0.get().as_slice()
    }

    /// Entries may be read under each limit that is no less than their number.
    #[tactic(auto, using(crate::specs::Entries::entries_fit))]
    pub fn fits_limits(&self)
        ensures { (most : ℕ) → length self.now ≤ most → EntriesFit most self.now }
    {
        let _entries = self.as_slice();
    }
}

impl Value for LogEntries {
    fn copy(&self, _alloc: Global) -> Mem<LogEntries> {
        Ok(LogEntries(self.0.share()?))
    }

    fn same(&self, other: &LogEntries) -> bool {
        self.0.get().same(other.0.get())
    }
}

impl Spelled for LogEntries {
    ghost use Rattle.dkg_ceremony.specs.LogEntries.{entries_spelling};

    ghost spelling = { entries_spelling };
}

impl EncodeSize for LogEntries {
    fn encode_size(&self) -> usize
        ensures size { result ≡ length (entries_spelling self.now) }
        ensures bound { result ≤ 2 ^ 36 }
        ensures limit { (most : ℕ) → length self.now ≤ most → result ≤ 5 + 9 * most }
    {
        self.0.get().encode_size()
    }
}

impl Write for LogEntries {
    fn put(&self, out: &mut BytesMut) -> Mem<()> {
        self.0.get().put(out)
    }
}

impl Read for LogEntries {
    /// How many entries there may be.
    type Cfg = u32;

    ghost use Rattle.dkg_ceremony.specs.LogEntries.{EntriesFit, entries_at, entries_grammar};

    ghost fits = { EntriesFit };

    ghost read_of = { entries_at };

    ghost grammar = { entries_grammar };

    fn read_cfg(
        alloc: Global,
        input: &mut Reader<'_>,
        cfg: &u32,
    ) -> Result<LogEntries, CodecError> {
        let count = read_count(input, 0, *cfg)?;
        let entries = read_many::<LogEntry>(alloc, input, count, &())?;
        all_known(&entries);
        Ok(entries_of(alloc, entries)?)
    }
}
