//! Bytes that a value owns.
ghost use Rattle.std.specs.Prelude.{◌≡◌, ◌↔◌, IfOk, IsTrue};

use crate::memory::Mem;
use crate::value::Value;
use std::alloc::Global;
use std::marker::Model;

/// Bytes, which contracts see as a list.
#[derive(Debug, Drop)]
pub struct Blob {
    bytes: Vec<u8>,
}

impl Model for Blob {
    ghost use Rattle.std.specs.Prelude.{List, ℕ};

    ghost Value = { List ℕ };

    ghost view = { λ b. b.bytes.items };
}

impl Blob {
    /// Takes the bytes as they are.
    pub fn new(bytes: Vec<u8>) -> Blob
        ensures { result ≡ bytes.items }
    {
        Blob { bytes }
    }

    /// The bytes.
    pub fn as_slice(&self) -> &[u8]
        ensures { result.now ≡ self.now }
    {
        &self.bytes
    }
}

/// Whether both are the same bytes.
fn is_same(one: &[u8], other: &[u8]) -> bool
    ensures { IsTrue result ↔ (one.now ≡ other.now) }
{
    one == other
}

impl Value for Blob {
    fn copy(&self, alloc: Global) -> Mem<Blob> {
        Ok(Blob::new(Vec::from_slice(alloc, self.as_slice())?))
    }

    fn same(&self, other: &Blob) -> bool {
        is_same(self.as_slice(), other.as_slice())
    }
}
