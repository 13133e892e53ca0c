//! Where a command reads its script from: any reader of bytes that may fail, and two in memory.
ghost use Rattle.std.specs.Prelude.{◌≡◌, ◌<◌, ◌≤◌, ◌+◌, ◌-◌, ◌^◌, List, [], ℕ, Bool, Contains, IsTrue, IfOk, OnErr, OnOk, length, min, take, drop};
ghost use Rattle.dkg_journal.specs.Disk.{Rose};
ghost use Rattle.dkg_outside.specs.Outside.{TookPiece};

use crate::calls::Calls;
use std::alloc::Global;
use std::marker::Model;
use thiserror::Error;

/// A source or a sink failed in this call.
#[derive(Clone, Copy, Debug, PartialEq, Eq, Error)]
#[error("the device failed")]
pub struct Failed;

/// Bytes that are read from the front.
pub trait Source {
    /// Whether the type tells what its sources have left.
    ghost tells: { Bool };

    /// The bytes that reads will still give.
    ghost left: { Self → List ℕ };

    /// How often the source has failed.
    ghost faults: { Self → ℕ };

    /// What is so of a source that was given back these bytes.
    ghost has_back: { Self → List ℕ → Type 0 };

    /// Reads some bytes into the front of a piece, and says how many. None for a piece that has room is the end.
    fn read(&mut self, into: &mut [u8]) -> Result<usize, Failed>
        ensures within { IfOk result (λ n. n ≤ length into.new) }
        ensures gives { IfOk result (λ n. IsTrue tells → TookPiece n into.new (left self.old) (left self.new)) }
        ensures lost { OnErr result (left self.new ≡ left self.old) }
        ensures later { faults self.old ≤ faults self.new }
        ensures went { OnOk result (faults self.new ≡ faults self.old) }
        ensures failed { OnErr result (Rose (faults self.old) (faults self.new)) };

    /// Takes back all that was read of it, where that is needed no more.
    fn give_back(&mut self, text: Vec<u8>)
        ensures left { left self.new ≡ left self.old }
        ensures faults { faults self.new ≡ faults self.old }
        ensures back { has_back self.new text.items };
}

/// Takes bytes from the front of what is left, at most as many as the piece has room for.
fn take_front(left: &[u8], into: &mut [u8]) -> usize
    ensures within { result ≤ length into.new }
    ensures gives { TookPiece result into.new left.now (drop result left.now) }
{
    let count = left.len().min(into.len());
    into[..count].copy_from_slice(&left[..count]);
    count
}

/// A source over bytes in memory, some calls of which fail.
#[derive(Drop)]
pub struct MemorySource {
    bytes: Vec<u8>,
    place: usize,
    calls: Calls,
    ghost within: { place ≤ length bytes.items },
}

impl MemorySource {
    /// A source that never fails.
    pub fn new(alloc: Global, bytes: Vec<u8>) -> MemorySource
        ensures bytes { (result.bytes ≡ bytes) × (result.place ≡ 0) }
        ensures calls { (result.calls.made ≡ 0) × (result.calls.failing.items ≡ []) × (result.calls.faults ≡ 0) }
    {
        MemorySource::failing(bytes, Vec::new(alloc))
    }

    /// A source whose calls with these numbers fail. The first call has number 1.
    pub fn failing(bytes: Vec<u8>, calls: Vec<u64>) -> MemorySource
        ensures bytes { (result.bytes ≡ bytes) × (result.place ≡ 0) }
        ensures calls { result.calls ≡ record { made = 0; failing = calls; faults = 0 } }
    {
        MemorySource {
            bytes,
            place: 0,
            calls: Calls::failing(calls),
        }
    }
}

impl Source for MemorySource {
    ghost use Rattle.std.specs.Prelude.{true, drop};

    ghost tells = { true };

    ghost left = { λ s. drop s.place s.bytes.items };

    ghost faults = { λ s. s.calls.faults };

    ghost has_back = { λ _ _. Unit {0} };

    fn read(&mut self, into: &mut [u8]) -> Result<usize, Failed>
        ensures within { IfOk result (λ n. n ≤ length into.new) }
        ensures gives { IfOk result (λ n. TookPiece n into.new (drop self.old.place self.old.bytes.items) (drop self.new.place self.new.bytes.items)) }
        ensures lost { OnErr result (drop self.new.place self.new.bytes.items ≡ drop self.old.place self.old.bytes.items) }
        ensures later { self.old.calls.faults ≤ self.new.calls.faults }
        ensures went { OnOk result (self.new.calls.faults ≡ self.old.calls.faults) }
        ensures failed { OnErr result (Rose self.old.calls.faults self.new.calls.faults) }
        // It counts one call more, and fails exactly where that is named.
        ensures made { self.new.calls.made ≡ min (self.old.calls.made + 1) (2 ^ 64 - 1) }
        ensures failing { self.new.calls.failing ≡ self.old.calls.failing }
        ensures fails { OnErr result (Contains self.old.calls.failing.items self.new.calls.made) }
        ensures goes { OnOk result (Contains self.old.calls.failing.items self.new.calls.made → ⊥) }
    {
        self.calls.make()?;
        let count = take_front(&self.bytes[self.place..], into);
        self.place += count;
        Ok(count)
    }

    /// It forgets them.
    fn give_back(&mut self, _text: Vec<u8>)
        ensures { self.new ≡ self.old }
    {}
}

/// A source over bytes in memory that never fails.
#[derive(Drop)]
pub struct SureSource {
    bytes: Vec<u8>,
    place: usize,
    ghost within: { place ≤ length bytes.items },
}

impl SureSource {
    /// The source of these bytes, from the first.
    pub fn new(bytes: Vec<u8>) -> SureSource
        ensures { (result.bytes ≡ bytes) × (result.place ≡ 0) }
    {
        SureSource { bytes, place: 0 }
    }
}

impl Source for SureSource {
    ghost use Rattle.std.specs.Prelude.{true, drop};

    ghost tells = { true };

    ghost left = { λ s. drop s.place s.bytes.items };

    ghost faults = { λ _. 0 };

    ghost has_back = { λ _ _. Unit {0} };

    fn read(&mut self, into: &mut [u8]) -> Result<usize, Failed> {
        let count = take_front(&self.bytes[self.place..], into);
        self.place += count;
        Ok(count)
    }

    /// It forgets them.
    fn give_back(&mut self, _text: Vec<u8>)
        ensures { self.new ≡ self.old }
    {}
}
