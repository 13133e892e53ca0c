//! Where a command writes its transcript to: any writer of bytes that may fail, and two in memory.
ghost use Rattle.std.specs.Prelude.{◌≡◌, ◌<◌, ◌≤◌, ◌+◌, ◌-◌, ◌^◌, ◌++◌, List, [], ℕ, Bool, Contains, IsTrue, IsOk, IfOk, OnErr, OnOk, length, min, take, true, false, if◌then◌else◌};
ghost use Rattle.dkg_journal.specs.Disk.{Rose};

use crate::calls::Calls;
use crate::source::Failed;
use std::alloc::Global;

/// Bytes that are written at the end.
pub trait Sink {
    /// Whether the type tells what its sinks hold.
    ghost tells: { Bool };

    /// The bytes that it holds.
    ghost held: { Self → List ℕ };

    /// How often the sink has failed.
    ghost faults: { Self → ℕ };

    /// Takes some bytes from the front of a piece, and says how many: at least one, where the piece has any.
    fn write(&mut self, piece: &[u8]) -> Result<usize, Failed>
        ensures within { IfOk result (λ n. n ≤ length piece.now) }
        ensures some { IfOk result (λ n. 0 < length piece.now → 0 < n) }
        ensures takes { IfOk result (λ n. IsTrue tells → held self.new ≡ held self.old ++ take n piece.now) }
        ensures lost { OnErr result (IsTrue tells → held self.new ≡ held self.old) }
        ensures later { faults self.old ≤ faults self.new }
        ensures went { OnOk result (faults self.new ≡ faults self.old) }
        ensures failed { OnErr result (Rose (faults self.old) (faults self.new)) };
}

/// A sink in memory, some calls of which fail. Want of memory is a failure too.
#[derive(Drop)]
pub struct MemorySink {
    bytes: Vec<u8>,
    calls: Calls,
}

impl MemorySink {
    /// A sink that fails only where memory runs out.
    pub fn new(alloc: Global) -> MemorySink
        ensures empty { result.bytes.items ≡ [] }
        ensures calls { (result.calls.made ≡ 0) × (result.calls.failing.items ≡ []) × (result.calls.faults ≡ 0) }
    {
        MemorySink::failing(alloc, Vec::new(alloc))
    }

    /// A sink whose calls with these numbers fail. The first call has number 1.
    pub fn failing(alloc: Global, calls: Vec<u64>) -> MemorySink
        ensures empty { result.bytes.items ≡ [] }
        ensures calls { result.calls ≡ record { made = 0; failing = calls; faults = 0 } }
    {
        MemorySink {
            bytes: Vec::new(alloc),
            calls: Calls::failing(calls),
        }
    }

    /// What the sink holds.
    pub fn bytes(&self) -> &[u8]
        ensures { result.now ≡ self.now.bytes.items }
    {
        &self.bytes
    }
}

impl Sink for MemorySink {
    ghost use Rattle.std.specs.Prelude.{true};

    ghost tells = { true };

    ghost held = { λ s. s.bytes.items };

    ghost faults = { λ s. s.calls.faults };

    fn write(&mut self, piece: &[u8]) -> Result<usize, Failed>
        ensures within { IfOk result (λ n. n ≤ length piece.now) }
        ensures some { IfOk result (λ n. 0 < length piece.now → 0 < n) }
        ensures takes { IfOk result (λ n. self.new.bytes.items ≡ self.old.bytes.items ++ take n piece.now) }
        ensures lost { OnErr result (self.new.bytes.items ≡ self.old.bytes.items) }
        ensures later { self.old.calls.faults ≤ self.new.calls.faults }
        ensures went { OnOk result (self.new.calls.faults ≡ self.old.calls.faults) }
        ensures failed { OnErr result (Rose self.old.calls.faults self.new.calls.faults) }
        // It counts one call more, and fails where that is named; else memory was wanting.
        ensures made { self.new.calls.made ≡ min (self.old.calls.made + 1) (2 ^ 64 - 1) }
        ensures failing { self.new.calls.failing ≡ self.old.calls.failing }
        ensures goes { OnOk result (Contains self.old.calls.failing.items self.new.calls.made → ⊥) }
    {
        self.calls.make()?;
        match self.bytes.extend_from_slice(piece) {
            Ok(()) => Ok(piece.len()),
            Err(_) => Err(self.calls.fail()),
        }
    }
}

/// A sink in memory that never fails. Where memory runs out it keeps no more than it has, so it tells nothing of
/// what it holds: a front of what it was given.
#[derive(Drop)]
pub struct SureSink {
    bytes: Vec<u8>,
    is_full: bool,
}

impl SureSink {
    /// A sink that holds nothing, and is not full.
    pub fn new(alloc: Global) -> SureSink
        ensures { (result.bytes.items ≡ []) × (result.is_full ≡ false) }
    {
        SureSink {
            bytes: Vec::new(alloc),
            is_full: false,
        }
    }

    /// What the sink holds.
    pub fn bytes(&self) -> &[u8]
        ensures { result.now ≡ self.now.bytes.items }
    {
        &self.bytes
    }
}

impl Sink for SureSink {
    ghost use Rattle.std.specs.Prelude.{false, []};

    ghost tells = { false };

    ghost held = { λ _. [] };

    ghost faults = { λ _. 0 };

    fn write(&mut self, piece: &[u8]) -> Result<usize, Failed>
        ensures sure { result ≡ Ok (length piece.now) }
        ensures keeps { self.new.bytes.items ≡ (if self.new.is_full then self.old.bytes.items else self.old.bytes.items ++ piece.now) }
        ensures full { IsTrue self.old.is_full → IsTrue self.new.is_full }
    {
        if !self.is_full && self.bytes.extend_from_slice(piece).is_err() {
            self.is_full = true;
        }
        Ok(piece.len())
    }
}
