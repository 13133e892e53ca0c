//! The numbers that name keys, epochs and heights, and the elements of the ceremony's field.
//!
//! Contracts see each as its number. Sets, maps, rounds and blocks are made of these.
ghost use Rattle.std.specs.Prelude.{◌≡◌, ℕ, ◌-◌, ◌<◌, ◌≤◌, ◌^◌, ◌↔◌, ◌==◌, length, IsSome, IfSome, IsErrOf};
ghost use Rattle.std.specs.Hash as fed;
ghost use Rattle.std.specs.Int.{w16, w32, to_be_bytes};
ghost use Rattle.std.specs.Ordering.{nat_cmp};
ghost use Rattle.dkg_values.specs.Codec.{Reads, number_at};
ghost use Rattle.dkg_values.specs.Uint.{uint, uint_at};
ghost use Rattle.dkg_values.specs.Lists.{element_at};

use crate::codec::{CodecError, EncodeSize, Read, Reader, Spelled, What, Write};
use crate::counted::{read_be16, read_be32};
use crate::memory::Mem;
use crate::uint::{read_u64, uint_size, write_uint};
use bytes::{BufMut, BytesMut};
use std::alloc::Global;
use std::hash::Hash;
use std::marker::Model;

/// A participant's public key, by which all sets and maps are ordered.
#[derive(Clone, Copy, Debug, PartialEq, Eq, PartialOrd, Ord, Hash)]
pub struct Key(pub u32);

impl Model for Key {
    ghost Value = { ℕ };

    ghost view = { λ k. k.0 };

    ghost inverse = { λ n. record { 0 = n } };
}

impl Key {
    /// The key as a number.
    pub fn number(&self) -> u32
        ensures { result ≡ self.now }
    {
        self.0
    }
}

/// A period of the chain through which one set of holders keeps the key, counted from 0.
#[derive(Clone, Copy, Debug, PartialEq, Eq, PartialOrd, Ord, Hash)]
pub struct Epoch(pub u64);

impl Model for Epoch {
    ghost Value = { ℕ };

    ghost view = { λ k. k.0 };

    ghost inverse = { λ n. record { 0 = n } };
}

/// Where a block stands in the chain, counted from 0.
#[derive(Clone, Copy, Debug, PartialEq, Eq, PartialOrd, Ord, Hash)]
pub struct Height(pub u64);

impl Model for Height {
    ghost Value = { ℕ };

    ghost view = { λ k. k.0 };

    ghost inverse = { λ n. record { 0 = n } };
}

/// An element of the ceremony's field: a number below the prime 65,521.
#[derive(Clone, Copy, Debug, PartialEq, Eq)]
pub struct Element(u16);

impl Model for Element {
    ghost use Rattle.std.specs.Prelude.{ℕ, ◌<◌};

    ghost Value = { ℕ };

    ghost view = { λ e. e.0 };

    ghost invariant = { λ e. e.0 < 65521 };

    ghost inverse = { λ n. record { 0 = n } };
}

impl Element {
    /// The number as an element, where it is one.
    pub fn new(value: u16) -> Option<Element>
        ensures below { IsSome result ↔ (value < 65521) }
        ensures same { IfSome result (λ e. e ≡ value) }
    {
        if value < 65521 {
            Some(Element(value))
        } else {
            None
        }
    }

    /// The element as a number.
    pub fn get(&self) -> u16
        ensures same { result ≡ self.now }
        ensures below { result < 65521 }
    {
        self.0
    }
}

/// Keys, epochs, heights and elements are equal where their numbers are; the first three are ordered as these, and
/// hashed as these.
pub fn numbers_compare()
    ensures keys { (a b : ℕ) → (⟦<Key as PartialEq>⟧.eq a b ≡ (a == b)) × (⟦<Key as PartialOrd>⟧.partial_cmp a b ≡ Some (nat_cmp a b))
        × (⟦<Key as Ord>⟧.cmp a b ≡ nat_cmp a b) × (⟦<Key as Hash>⟧.hash_input a ≡ fed.u32 a) }
    ensures epochs { (a b : ℕ)
        → (⟦<Epoch as PartialEq>⟧.eq a b ≡ (a == b)) × (⟦<Epoch as PartialOrd>⟧.partial_cmp a b ≡ Some (nat_cmp a b)) × (⟦<Epoch as Ord>⟧.cmp a b ≡ nat_cmp a b)
        × (⟦<Epoch as Hash>⟧.hash_input a ≡ fed.u64 a) }
    ensures heights { (a b : ℕ)
        → (⟦<Height as PartialEq>⟧.eq a b ≡ (a == b)) × (⟦<Height as PartialOrd>⟧.partial_cmp a b ≡ Some (nat_cmp a b))
        × (⟦<Height as Ord>⟧.cmp a b ≡ nat_cmp a b) × (⟦<Height as Hash>⟧.hash_input a ≡ fed.u64 a) }
    ensures elements { (a b : ℕ) → ⟦<Element as PartialEq>⟧.eq a b ≡ (a == b) }
{}

impl Spelled for Key {
    ghost use Rattle.std.specs.Int.{w32, to_be_bytes};

    ghost spelling = { to_be_bytes w32 };
}

impl EncodeSize for Key {
    fn encode_size(&self) -> usize
        ensures size { result ≡ length (to_be_bytes w32 self.now) }
        ensures bound { result ≡ 4 }
    {
        4
    }
}

impl Write for Key {
    fn put(&self, out: &mut BytesMut) -> Mem<()> {
        Ok(out.put_u32(self.0)?)
    }
}

impl Read for Key {
    type Cfg = ();

    ghost use Rattle.std.specs.Prelude.{◌<◌, ◌^◌};
    ghost use Rattle.std.specs.Int.{w32};
    ghost use Rattle.dkg_values.specs.Codec.{number_at};
    ghost use Rattle.dkg_values.specs.ListGrammar.{be32_grammar};

    ghost fits = { λ _ n. n < 2 ^ 32 };

    ghost read_of = { λ _. number_at w32 };

    ghost grammar = { λ _. be32_grammar };

    fn read_cfg(_alloc: Global, input: &mut Reader<'_>, _cfg: &()) -> Result<Key, CodecError>
        ensures exact { Reads (number_at w32 input.old) result input.new }
        ensures sure { IsErrOf result CodecError.NoMemory → ⊥ }
    {
        Ok(Key(read_be32(input)?))
    }
}

impl Spelled for Epoch {
    ghost use Rattle.dkg_values.specs.Uint.{uint};

    ghost spelling = { uint };
}

impl EncodeSize for Epoch {
    fn encode_size(&self) -> usize
        ensures size { result ≡ length (uint self.now) }
        ensures bound { result ≤ 10 }
    {
        uint_size(self.0)
    }
}

impl Write for Epoch {
    fn put(&self, out: &mut BytesMut) -> Mem<()> {
        write_uint(out, self.0)
    }
}

impl Read for Epoch {
    type Cfg = ();

    ghost use Rattle.std.specs.Prelude.{◌-◌, ◌<◌, ◌^◌};
    ghost use Rattle.dkg_values.specs.Uint.{uint_at};
    ghost use Rattle.dkg_values.specs.UintGrammar.{u64_grammar};

    ghost fits = { λ _ n. n < 2 ^ 64 };

    ghost read_of = { λ _. uint_at (2 ^ 64 - 1) };

    ghost grammar = { λ _. u64_grammar };

    fn read_cfg(_alloc: Global, input: &mut Reader<'_>, _cfg: &()) -> Result<Epoch, CodecError>
        ensures exact { Reads (uint_at (2 ^ 64 - 1) input.old) result input.new }
        ensures sure { IsErrOf result CodecError.NoMemory → ⊥ }
    {
        Ok(Epoch(read_u64(input)?))
    }
}

impl Spelled for Height {
    ghost use Rattle.dkg_values.specs.Uint.{uint};

    ghost spelling = { uint };
}

impl EncodeSize for Height {
    fn encode_size(&self) -> usize
        ensures size { result ≡ length (uint self.now) }
        ensures bound { result ≤ 10 }
    {
        uint_size(self.0)
    }
}

impl Write for Height {
    fn put(&self, out: &mut BytesMut) -> Mem<()> {
        write_uint(out, self.0)
    }
}

impl Read for Height {
    type Cfg = ();

    ghost use Rattle.std.specs.Prelude.{◌-◌, ◌<◌, ◌^◌};
    ghost use Rattle.dkg_values.specs.Uint.{uint_at};
    ghost use Rattle.dkg_values.specs.UintGrammar.{u64_grammar};

    ghost fits = { λ _ n. n < 2 ^ 64 };

    ghost read_of = { λ _. uint_at (2 ^ 64 - 1) };

    ghost grammar = { λ _. u64_grammar };

    fn read_cfg(_alloc: Global, input: &mut Reader<'_>, _cfg: &()) -> Result<Height, CodecError>
        ensures exact { Reads (uint_at (2 ^ 64 - 1) input.old) result input.new }
        ensures sure { IsErrOf result CodecError.NoMemory → ⊥ }
    {
        Ok(Height(read_u64(input)?))
    }
}

impl Spelled for Element {
    ghost use Rattle.std.specs.Int.{w16, to_be_bytes};

    ghost spelling = { to_be_bytes w16 };
}

impl EncodeSize for Element {
    fn encode_size(&self) -> usize
        ensures size { result ≡ length (to_be_bytes w16 self.now) }
        ensures bound { result ≡ 2 }
    {
        2
    }
}

impl Write for Element {
    fn put(&self, out: &mut BytesMut) -> Mem<()> {
        Ok(out.put_u16(self.0)?)
    }
}

impl Read for Element {
    type Cfg = ();

    ghost use Rattle.std.specs.Prelude.{◌<◌};
    ghost use Rattle.dkg_values.specs.Lists.{element_at};
    ghost use Rattle.dkg_values.specs.ListGrammar.{element_grammar};

    ghost fits = { λ _ n. n < 65521 };

    ghost read_of = { λ _. element_at };

    ghost grammar = { λ _. element_grammar };

    fn read_cfg(_alloc: Global, input: &mut Reader<'_>, _cfg: &()) -> Result<Element, CodecError>
        ensures exact { Reads (element_at input.old) result input.new }
        ensures sure { IsErrOf result CodecError.NoMemory → ⊥ }
    {
        let value = read_be16(input)?;
        Element::new(value).ok_or(CodecError::Invalid(What::Element))
    }
}
