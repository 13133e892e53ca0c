//! Sets of participants: dealers, players and peers, in rising order of their keys.
ghost use Rattle.std.specs.Prelude.{◌≡◌, ℕ, ◌+◌, ◌*◌, ◌<◌, ◌≤◌, ◌^◌, ◌++◌, ◌↔◌, ◌⊎◌, ◌==◌, List, length, vec_len, slice_index, Contains, IfOk, IfSome, IsTrue, IsErr, IsOk, is_some};
ghost use Rattle.std.specs.Iterator.{YieldsFirst, item_count};
ghost use Rattle.std.specs.List.Sorted.{IsStrictlyIncreasing};
ghost use Rattle.dkg_values.specs.Lists.{set_spelling, SetFits};
ghost use Rattle.dkg_values.specs.Rising.{IsSetOf, IsSet, index_of, set_of};

use crate::codec::{CodecError, EncodeSize, Read, Reader, Spelled, Write};
use crate::counted::{read_count, read_keys};
use crate::memory::Mem;
use crate::numbers::Key;
use crate::uint::{uint_size, write_uint};
use crate::value::Value;
use bytes::{BufMut, BytesMut};
use std::alloc::Global;
use std::marker::Model;
use thiserror::Error;

/// Two neighbours don't rise, so the list is no set or no map.
#[derive(Clone, Copy, Debug, PartialEq, Eq, Error)]
#[error("the keys don't rise")]
pub struct NotRising;

/// Keys, rising, each once; contracts see the list. Fewer than 2^32.
#[derive(Debug, Drop)]
pub struct Set {
    keys: Vec<Key>,
}

impl Model for Set {
    ghost use Rattle.std.specs.Prelude.{List, ℕ};
    ghost use Rattle.dkg_values.specs.Lists.{set_spelling};
    ghost use Rattle.dkg_values.specs.Rising.{IsSet};

    ghost Value = { List ℕ };

    ghost view = { λ s. s.keys.items };

    ghost invariant = { λ s. IsSet s.keys.items };
}

/// Whether each key is below the next.
fn is_rising(keys: &[Key]) -> bool
    ensures { IsTrue result ↔ IsStrictlyIncreasing keys.now }
{
    for i in 1..keys.len() {
        if keys[i - 1] >= keys[i] {
            return false;
        }
    }
    true
}

/// Each key is a number of 32 bits: to know it, each is read.
fn known(keys: &[Key])
    ensures { (i : ℕ) → slice_index keys.now i < 2 ^ 32 }
{
    for key in keys {
        let _number = key.number();
    }
}

/// Sorts the keys and drops repeats, in place.
fn in_order(mut keys: Vec<Key>) -> Set
    requires { vec_len keys < 2 ^ 32 }
    ensures exact { result ≡ set_of keys.items }
    ensures members { IsSetOf (λ x. Contains keys.items x) result }
{
    keys.sort_unstable();
    keys.dedup();
    known(&keys);
    Set { keys }
}

impl Set {
    /// The keys as they are, which must rise.
    pub fn from_sorted(keys: Vec<Key>) -> Result<Set, NotRising>
        requires { vec_len keys < 2 ^ 32 }
        ensures ok { IfOk result (λ set. set ≡ keys.items) }
        ensures rising { IsOk result ↔ IsStrictlyIncreasing keys.items }
    {
        if is_rising(&keys) {
            known(&keys);
            Ok(Set { keys })
        } else {
            Err(NotRising)
        }
    }

    /// The keys of a list, rising, each once.
    pub fn from_any(alloc: Global, keys: &[Key]) -> Mem<Set>
        requires { length keys.now < 2 ^ 32 }
        ensures exact { IfOk result (λ set. set ≡ set_of keys.now) }
        ensures members { IfOk result (IsSetOf (λ x. Contains keys.now x)) }
    {
        let keys = Vec::from_slice(alloc, keys)?;
        Ok(in_order(keys))
    }

    /// The keys of either set.
    pub fn union(&self, alloc: Global, other: &Set) -> Mem<Set>
        requires { length self.now + length other.now < 2 ^ 32 }
        ensures exact { IfOk result (λ set. set ≡ set_of (self.now ++ other.now)) }
        ensures members { IfOk result (IsSetOf (λ x. Contains self.now x ⊎ Contains other.now x)) }
    {
        let mut keys = Vec::with_capacity(alloc, self.keys.len() + other.keys.len())?;
        keys.extend_from_slice(&self.keys)?;
        keys.extend_from_slice(&other.keys)?;
        Ok(in_order(keys))
    }

    /// The index of a key, from 0, by binary search.
    pub fn position(&self, key: Key) -> Option<u32>
        ensures index { result ≡ index_of key self.now }
        ensures within { IfSome result (λ i. i < length self.now) }
    {
        match self.keys.binary_search(&key) {
            Ok(i) => Some(i as u32),
            Err(_) => None,
        }
    }

    /// Whether the key is there.
    #[tactic(auto, using(crate::specs::IndexLaws::has_index))]
    pub fn has(&self, key: Key) -> bool
        ensures index { result ≡ is_some (index_of key self.now) }
        ensures member { IsTrue result ↔ Contains self.now key }
    {
        self.position(key).is_some()
    }

    /// How many keys there are.
    pub fn len(&self) -> u32
        ensures { result ≡ length self.now }
    {
        self.keys.len() as u32
    }

    /// Whether there is none.
    pub fn is_empty(&self) -> bool
        ensures { result ≡ (length self.now == 0) }
    {
        self.keys.is_empty()
    }

    /// The keys, rising.
    pub fn as_slice(&self) -> &[Key]
        ensures items { result.now ≡ self.now }
        ensures kept { IsSet self.now }
    {
        &self.keys
    }

    /// A set may be read under each limit that is no less than its length.
    #[tactic(auto, using(crate::specs::Fits::set_fits))]
    pub fn fits_limits(&self)
        ensures { (most : ℕ) → length self.now ≤ most → SetFits most self.now }
    {
        let _keys = self.as_slice();
    }

    /// Each key, rising.
    pub fn iter(&self) -> SetIter<'_>
        ensures { result ≡ self.now }
    {
        SetIter { rest: &self.keys }
    }
}

impl Spelled for Set {
    ghost spelling = { set_spelling };
}

impl EncodeSize for Set {
    #[tactic(auto, using(crate::specs::ListGrammar::set_size))]
    fn encode_size(&self) -> usize
        ensures size { result ≡ length (set_spelling self.now) }
        ensures bound { result ≤ 2 ^ 35 }
        ensures limit { (most : ℕ) → length self.now ≤ most → result ≤ 5 + 4 * most }
    {
        uint_size(u64::from(self.len())) + 4 * self.keys.len()
    }
}

impl Write for Set {
    fn put(&self, out: &mut BytesMut) -> Mem<()> {
        write_uint(out, u64::from(self.len()))?;
        for key in &self.keys {
            out.put_u32(key.0)?;
        }
        Ok(())
    }
}

impl Read for Set {
    type Cfg = u32;

    ghost use Rattle.dkg_values.specs.Lists.{set_at, SetFits};
    ghost use Rattle.dkg_values.specs.ListGrammar.{set_grammar};

    ghost fits = { SetFits };

    ghost read_of = { set_at };

    ghost grammar = { set_grammar };

    fn read_cfg(alloc: Global, input: &mut Reader<'_>, cfg: &u32) -> Result<Set, CodecError> {
        let count = read_count(input, 0, *cfg)?;
        let keys = read_keys(alloc, input, count)?;
        known(&keys);
        Ok(Set { keys })
    }
}

impl Value for Set {
    fn copy(&self, alloc: Global) -> Mem<Set> {
        let keys = Vec::from_slice(alloc, &self.keys)?;
        Ok(Set { keys })
    }

    fn same(&self, other: &Set) -> bool {
        self.keys == other.keys
    }
}

/// The keys of a set, rising.
#[derive(Drop)]
pub struct SetIter<'a> {
    rest: &'a [Key],
}

impl<'a> Model for SetIter<'a> {
    ghost use Rattle.std.specs.Prelude.{List, ℕ};

    ghost Value = { List ℕ };

    ghost view = { λ s. s.rest.now };
}

impl Iterator for SetIter<'_> {
    type Item = Key;

    ghost next_gives = { YieldsFirst (λ s. s) };

    ghost remaining = { item_count (λ s. s) };

    fn next(&mut self) -> Option<Key> {
        let (first, rest) = self.rest.split_first()?;
        self.rest = rest;
        Some(*first)
    }
}
