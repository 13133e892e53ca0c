//! What a dealer publishes of its dealing.
//!
//! Blocks carry signed logs, and a round's outcome is made of those that are valid.
ghost use Rattle.std.specs.Prelude.{◌≡◌, ℕ, ◌+◌, ◌*◌, ◌^◌, ◌≤◌, length};
ghost use Rattle.dkg_ceremony.specs.Logs.{log_spelling, LogFits};

use crate::log_entries::LogEntries;
use crate::public::Public;
use bytes::BytesMut;
use dkg_values::{CodecError, EncodeSize, Mem, Read, Reader, Spelled, Value, Write};
use std::alloc::Global;

/// The public half of a dealing, and an entry for each player of the round in the order of their keys.
#[derive(Drop)]
pub struct DealerLog {
    pub public: Public,
    pub entries: LogEntries,
}

impl DealerLog {
    /// A log may be read under each limit that is no less than its numbers of coefficients and of entries.
    #[tactic(auto, using(crate::specs::Logs::log_fits))]
    pub fn fits_limits(&self)
        ensures { (most : ℕ) → length self.now.public ≤ most → length self.now.entries ≤ most → LogFits most self.now }
    {
        self.public.fits_limits();
        self.entries.fits_limits();
    }
}

impl Value for DealerLog {
    fn copy(&self, alloc: Global) -> Mem<DealerLog> {
        Ok(DealerLog {
            public: self.public.copy(alloc)?,
            entries: self.entries.copy(alloc)?,
        })
    }

    fn same(&self, other: &DealerLog) -> bool {
        self.public.same(&other.public) && self.entries.same(&other.entries)
    }
}

impl Spelled for DealerLog {
    ghost use Rattle.dkg_ceremony.specs.Logs.{log_spelling};

    ghost spelling = { log_spelling };
}

impl EncodeSize for DealerLog {
    fn encode_size(&self) -> usize
        ensures size { result ≡ length (log_spelling self.now) }
        ensures bound { result ≤ 2 ^ 37 }
        ensures limit { (most : ℕ) → length self.now.public ≤ most → length self.now.entries ≤ most → result ≤ 10 + 11 * most }
    {
        self.public.encode_size() + self.entries.encode_size()
    }
}

impl Write for DealerLog {
    fn put(&self, out: &mut BytesMut) -> Mem<()> {
        self.public.put(out)?;
        self.entries.put(out)
    }
}

impl Read for DealerLog {
    /// How many coefficients and how many entries there may be.
    type Cfg = u32;

    ghost use Rattle.dkg_ceremony.specs.Logs.{log_at, LogFits, log_grammar};

    ghost fits = { LogFits };

    ghost read_of = { log_at };

    ghost grammar = { log_grammar };

    fn read_cfg(alloc: Global, input: &mut Reader<'_>, cfg: &u32) -> Result<DealerLog, CodecError> {
        let public = Public::read_cfg(alloc, input, cfg)?;
        let entries = LogEntries::read_cfg(alloc, input, cfg)?;
        Ok(DealerLog { public, entries })
    }
}
