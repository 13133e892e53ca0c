//! What a dealer's log has for one player.
//!
//! Contracts see an acknowledgement as its list of bytes and a private half as the number.
ghost use Rattle.std.specs.Prelude.{◌≡◌, ◌≤◌, length, IsErrOf};
ghost use Rattle.dkg_values.specs.Codec.{Reads};
ghost use Rattle.dkg_ceremony.specs.LogEntries.{EntryFits, entry_at, entry_spelling};

use crate::private::{Ack, Private};
use bytes::{BufMut, BytesMut};
use dkg_values::{CodecError, EncodeSize, Mem, Read, Reader, Spelled, Value, Write, read_byte};
use std::alloc::Global;

/// What a log has for a player, as the upstream's signed dealer logs do: its acknowledgement, or what it was dealt.
#[derive(Clone, Copy, Debug, PartialEq, Eq)]
pub enum LogEntry {
    /// The player's acknowledgement of the dealing.
    Ack(Ack),
    /// The player's private half, revealed to all.
    Reveal(Private),
}

/// How many bytes an acknowledgement takes.
fn size_of_ack(ack: &Ack) -> usize
    ensures size { result ≡ length ack.now }
    ensures bound { result ≡ 8 }
{
    let mark = &ack.0;
    let bytes = &mark.0;
    bytes.len()
}

/// An entry keeps all that its spelling asks.
pub(crate) fn known(entry: &LogEntry)
    ensures { EntryFits entry.now }
{
    match entry {
        LogEntry::Ack(ack) => {
            let _size = size_of_ack(ack);
        }
        LogEntry::Reveal(private) => {
            let _number = private.0.get();
        }
    }
}

impl Value for LogEntry {
    fn copy(&self, _alloc: Global) -> Mem<LogEntry> {
        Ok(*self)
    }

    fn same(&self, other: &LogEntry) -> bool {
        match (self, other) {
            (LogEntry::Ack(one), LogEntry::Ack(two)) => one.same(two),
            (LogEntry::Reveal(one), LogEntry::Reveal(two)) => one.same(two),
            _ => false,
        }
    }
}

impl Spelled for LogEntry {
    ghost use Rattle.dkg_ceremony.specs.LogEntries.{entry_spelling};

    ghost spelling = { entry_spelling };
}

impl EncodeSize for LogEntry {
    fn encode_size(&self) -> usize
        ensures size { result ≡ length (entry_spelling self.now) }
        ensures bound { result ≤ 9 }
    {
        match self {
            LogEntry::Ack(ack) => 1 + size_of_ack(ack),
            LogEntry::Reveal(private) => 1 + private.encode_size(),
        }
    }
}

impl Write for LogEntry {
    fn put(&self, out: &mut BytesMut) -> Mem<()> {
        match self {
            LogEntry::Ack(ack) => {
                out.put_u8(0)?;
                ack.put(out)
            }
            LogEntry::Reveal(private) => {
                out.put_u8(1)?;
                private.put(out)
            }
        }
    }
}

impl Read for LogEntry {
    type Cfg = ();

    ghost use Rattle.dkg_ceremony.specs.LogEntries.{EntryFits, entry_at, entry_grammar};

    ghost fits = { λ _. EntryFits };

    ghost read_of = { λ _. entry_at };

    ghost grammar = { λ _. entry_grammar };

    #[tactic(auto, unfolding(crate::specs::LogEntries::entry_after))]
    fn read_cfg(alloc: Global, input: &mut Reader<'_>, cfg: &()) -> Result<LogEntry, CodecError>
        ensures exact { Reads (entry_at input.old) result input.new }
        ensures sure { IsErrOf result CodecError.NoMemory → ⊥ }
    {
        match read_byte(input)? {
            0 => Ok(LogEntry::Ack(Ack::read_cfg(alloc, input, cfg)?)),
            1 => Ok(LogEntry::Reveal(Private::read_cfg(alloc, input, cfg)?)),
            other => Err(CodecError::InvalidEnum(other)),
        }
    }
}
