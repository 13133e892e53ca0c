//! Any reader as a source and any writer as a sink, as `main` makes of standard input and output. They tell no content.
ghost use Rattle.std.specs.Prelude.{◌≡◌, ◌<◌, ◌≤◌, IfSome, IfNone, IfOk, OnErr, OnOk, length, take};
ghost use Rattle.std.specs.Io.KnownBytes.{ReadConsumes, WriteAppends, Consumes, Appends, IsAtEnd, Keeps};
ghost use Rattle.dkg_journal.specs.Disk.{Rose};

use crate::sink::Sink;
use crate::source::{Failed, Source};
use std::io;

/// Standard input, or any other reader. A read that was interrupted is made again.
///
/// Its clauses don't say when a read succeeds, since that is known to the reader alone: a source that always fails meets them too.
#[derive(Drop)]
pub struct StdSource<R> {
    reader: R,
    faults: u64,
}

impl<R: io::Read> StdSource<R> {
    /// The source over a reader.
    pub fn new(reader: R) -> StdSource<R>
        ensures { result ≡ record { reader = reader; faults = 0 } }
    {
        StdSource { reader, faults: 0 }
    }
}

/// One read, made again while it is interrupted.
#[tactic(auto, using(crate::proofs::Interrupted::kept_consumes, crate::proofs::Interrupted::kept_twice))]
fn read_some<R: io::Read>(reader: &mut R, into: &mut [u8]) -> Option<usize>
    ensures within { IfSome result (λ n. n ≤ length into.new) }
    ensures bytes { IfSome result (λ n. Consumes (R.remaining reader.old) (R.remaining reader.new) (take n into.new)) }
    ensures end { IfSome result (λ n. n ≡ 0 → 0 < length into.new → IsAtEnd (R.remaining reader.new)) }
    ensures kept { IfNone result (Keeps (R.remaining reader.old) (R.remaining reader.new)) }
{
    for _ in 0..u64::MAX {
        match reader.read(into) {
            Ok(count) => return Some(count),
            Err(error) => {
                if error.kind() != io::ErrorKind::Interrupted {
                    return None;
                }
            }
        }
    }
    None
}

impl<R: io::Read> Source for StdSource<R> {
    ghost use Rattle.std.specs.Prelude.{false, []};

    ghost tells = { false };

    ghost left = { λ _. [] };

    ghost faults = { λ s. s.faults };

    ghost has_back = { λ _ _. Unit {0} };

    fn read(&mut self, into: &mut [u8]) -> Result<usize, Failed>
        ensures within { IfOk result (λ n. n ≤ length into.new) }
        ensures later { self.old.faults ≤ self.new.faults }
        ensures went { OnOk result (self.new.faults ≡ self.old.faults) }
        ensures failed { OnErr result (Rose self.old.faults self.new.faults) }
        // Where the reader's type tells what its readers will give, just that is given.
        ensures bytes { ReadConsumes (R.remaining self.old.reader) (R.remaining self.new.reader) result into.new }
    {
        match read_some(&mut self.reader, into) {
            Some(count) => Ok(count),
            None => {
                self.faults = self.faults.saturating_add(1);
                Err(Failed)
            }
        }
    }

    /// It forgets them.
    fn give_back(&mut self, _text: Vec<u8>)
        ensures { self.new ≡ self.old }
    {}
}

/// Standard output, or any other writer. A write that was interrupted is made again, and one that takes nothing of a
/// piece that has bytes is a failure.
///
/// Its clauses don't say when a write succeeds, since that is known to the writer alone: a sink that always fails meets them too.
#[derive(Drop)]
pub struct StdSink<W> {
    writer: W,
    faults: u64,
}

impl<W: io::Write> StdSink<W> {
    /// The sink over a writer.
    pub fn new(writer: W) -> StdSink<W>
        ensures { result ≡ record { writer = writer; faults = 0 } }
    {
        StdSink { writer, faults: 0 }
    }
}

/// One write, made again while it is interrupted.
#[tactic(auto, using(crate::proofs::Interrupted::kept_appends, crate::proofs::Interrupted::kept_twice, crate::proofs::Interrupted::nothing_appended))]
fn write_some<W: io::Write>(writer: &mut W, piece: &[u8]) -> Option<usize>
    ensures within { IfSome result (λ n. n ≤ length piece.now) }
    ensures some { IfSome result (λ n. 0 < length piece.now → 0 < n) }
    ensures bytes { IfSome result (λ n. Appends (W.contents writer.old) (W.contents writer.new) (take n piece.now)) }
    ensures kept { IfNone result (Keeps (W.contents writer.old) (W.contents writer.new)) }
{
    for _ in 0..u64::MAX {
        match writer.write(piece) {
            Ok(count) => {
                if count == 0 && !piece.is_empty() {
                    return None;
                }
                return Some(count);
            }
            Err(error) => {
                if error.kind() != io::ErrorKind::Interrupted {
                    return None;
                }
            }
        }
    }
    None
}

impl<W: io::Write> Sink for StdSink<W> {
    ghost use Rattle.std.specs.Prelude.{false, []};

    ghost tells = { false };

    ghost held = { λ _. [] };

    ghost faults = { λ s. s.faults };

    fn write(&mut self, piece: &[u8]) -> Result<usize, Failed>
        ensures within { IfOk result (λ n. n ≤ length piece.now) }
        ensures some { IfOk result (λ n. 0 < length piece.now → 0 < n) }
        ensures later { self.old.faults ≤ self.new.faults }
        ensures went { OnOk result (self.new.faults ≡ self.old.faults) }
        ensures failed { OnErr result (Rose self.old.faults self.new.faults) }
        // Where the writer's type tells what its writers hold, just that is added.
        ensures bytes { WriteAppends (W.contents self.old.writer) (W.contents self.new.writer) result piece.now }
    {
        match write_some(&mut self.writer, piece) {
            Some(count) => Ok(count),
            None => {
                self.faults = self.faults.saturating_add(1);
                Err(Failed)
            }
        }
    }
}
