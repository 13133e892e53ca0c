//! What an event says at length: the bytes of a message and the numbers of an ancestry.
//!
//! A reader makes it its own, and whoever looks into events is lent it.
ghost use Rattle.std.specs.Prelude.{◌≡◌};

use crate::script::Indexes;
use dkg_ceremony::Blob;
use std::marker::Model;

/// Items that lie here, or that are lent.
#[derive(Debug, Drop)]
pub(crate) enum OwnOrLent<'a, O, T> {
    Own(O),
    Lent(&'a [T]),
}

/// The bytes of a message, which contracts see as a list.
#[derive(Debug, Drop)]
pub struct MessageBytes<'a> {
    held: OwnOrLent<'a, Blob, u8>,
}

impl<'a> Model for MessageBytes<'a> {
    ghost use Rattle.std.specs.Prelude.{List, ℕ};
    ghost use Rattle.dkg_text.specs.OwnOrLent.{items_held};

    ghost Value = { List ℕ };

    ghost view = { λ b. items_held b.held };
}

impl<'a> MessageBytes<'a> {
    /// Bytes that it owns.
    pub fn new(bytes: Blob) -> MessageBytes<'a>
        ensures { result ≡ bytes }
    {
        MessageBytes {
            held: OwnOrLent::Own(bytes),
        }
    }

    /// The same bytes, where they lie.
    pub fn lent(bytes: &'a [u8]) -> MessageBytes<'a>
        ensures { result ≡ bytes.now }
    {
        MessageBytes {
            held: OwnOrLent::Lent(bytes),
        }
    }

    /// The bytes, owned or lent.
    pub fn as_slice(&self) -> &[u8]
        ensures { result.now ≡ self.now }
    {
        match &self.held {
            OwnOrLent::Own(bytes) => bytes.as_slice(),
            OwnOrLent::Lent(bytes) => bytes,
        }
    }
}

/// The numbers of an ancestry's blocks, which contracts see as a list.
#[derive(Debug, Drop)]
pub struct Ancestry<'a> {
    held: OwnOrLent<'a, Indexes, u32>,
}

impl<'a> Model for Ancestry<'a> {
    ghost use Rattle.std.specs.Prelude.{List, ℕ};
    ghost use Rattle.dkg_text.specs.OwnOrLent.{items_held};

    ghost Value = { List ℕ };

    ghost view = { λ n. items_held n.held };
}

impl<'a> Ancestry<'a> {
    /// Numbers that it owns.
    pub fn new(numbers: Indexes) -> Ancestry<'a>
        ensures { result ≡ numbers }
    {
        Ancestry {
            held: OwnOrLent::Own(numbers),
        }
    }

    /// The same numbers, where they lie.
    pub fn lent(numbers: &'a [u32]) -> Ancestry<'a>
        ensures { result ≡ numbers.now }
    {
        Ancestry {
            held: OwnOrLent::Lent(numbers),
        }
    }

    /// The numbers, owned or lent.
    pub fn as_slice(&self) -> &[u32]
        ensures { result.now ≡ self.now }
    {
        match &self.held {
            OwnOrLent::Own(numbers) => numbers.as_slice(),
            OwnOrLent::Lent(numbers) => numbers,
        }
    }
}
