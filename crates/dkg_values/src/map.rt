//! Maps from keys to values: shares, acknowledgements, logs and addresses by participant.
ghost use Rattle.std.specs.Prelude.{◌≡◌, ℕ, ◌+◌, ◌*◌, ◌<◌, ◌≤◌, ◌^◌, ◌↔◌, ◌==◌, List, length, vec_len, slice_index, IfOk, IsTrue, IsOk};
ghost use Rattle.std.specs.Option.{option_copied};
ghost use Rattle.std.specs.Iterator.{YieldsFirstBy, item_count};
ghost use Rattle.std.specs.List.Sorted.{IsStrictlyIncreasing};
ghost use Rattle.dkg_values.specs.Codec.{ReadsBy};
ghost use Rattle.std.specs.List.{AllByRecursion};
ghost use Rattle.dkg_values.specs.Lists.{pairs_at, map_spelling, values_of, MapFits};
ghost use Rattle.dkg_values.specs.Rising.{IsMap, keys_of, lookup, map_of};
ghost use Rattle.dkg_values.specs.Sizes.{MapSizes};

use crate::codec::{CodecError, EncodeSize, Read, Reader, Spelled, Write};
use crate::counted::{read_count, read_keys};
use crate::memory::Mem;
use crate::numbers::Key;
use crate::set::{NotRising, Set};
use crate::uint::{read_u32, uint_size, write_uint};
use crate::value::Value;
use bytes::{BufMut, BytesMut};
use std::alloc::Global;
use std::marker::Model;

/// Values under keys, the keys rising; contracts see the list of the pairs. Fewer than 2^32.
#[derive(Debug, Drop)]
pub struct Map<V> {
    pairs: Vec<(Key, V)>,
}

impl<V> Model for Map<V> {
    ghost use Rattle.std.specs.Prelude.{List, ℕ};
    ghost use Rattle.dkg_values.specs.Codec.{ReadsBy};
    ghost use Rattle.dkg_values.specs.Lists.{pairs_at};
    ghost use Rattle.dkg_values.specs.Rising.{IsMap};

    ghost Value = { List (ℕ × V) };

    ghost view = { λ m. m.pairs.items };

    ghost invariant = { λ m. IsMap m.pairs.items };
}

/// Whether each key is below the next.
#[tactic(auto, using(crate::proofs::Keys::key_at))]
fn is_rising<V>(pairs: &[(Key, V)]) -> bool
    ensures { IsTrue result ↔ IsStrictlyIncreasing (keys_of pairs.now) }
{
    for i in 1..pairs.len() {
        if pairs[i - 1].0 >= pairs[i].0 {
            return false;
        }
    }
    true
}

/// Each key is a number of 32 bits: to know it, each is read.
#[tactic(auto, using(crate::proofs::Keys::key_at))]
fn known<V>(pairs: &[(Key, V)])
    ensures { (i : ℕ) → slice_index (keys_of pairs.now) i < 2 ^ 32 }
{
    for (key, _) in pairs {
        let _number = key.number();
    }
}

impl<V: Drop> Map<V> {
    /// The first pair of each key, the keys rising.
    pub fn from_any(_alloc: Global, mut pairs: Vec<(Key, V)>) -> Mem<Map<V>>
        requires { vec_len pairs < 2 ^ 32 }
        ensures exact { IfOk result (λ map. map ≡ map_of pairs.items) }
        ensures first { IfOk result (λ map. (key : ℕ) → lookup key map ≡ lookup key pairs.items) }
    {
        pairs.sort_by_key(|pair| pair.0)?;
        pairs.dedup_by_key(|pair| pair.0);
        known(&pairs);
        Ok(Map { pairs })
    }

    /// The pairs as they are, whose keys must rise.
    pub fn from_sorted(pairs: Vec<(Key, V)>) -> Result<Map<V>, NotRising>
        requires { vec_len pairs < 2 ^ 32 }
        ensures ok { IfOk result (λ map. map ≡ pairs.items) }
        ensures rising { IsOk result ↔ IsStrictlyIncreasing (keys_of pairs.items) }
    {
        if is_rising(&pairs) {
            known(&pairs);
            Ok(Map { pairs })
        } else {
            Err(NotRising)
        }
    }
}

impl<V> Map<V> {
    /// The value at a key, by binary search.
    pub fn get(&self, key: Key) -> Option<&V>
        ensures { option_copied result ≡ lookup key self.now }
    {
        match self.pairs.binary_search_by_key(&key, |pair| pair.0) {
            Ok(i) => Some(&self.pairs[i].1),
            Err(_) => None,
        }
    }

    /// How many keys there are.
    pub fn len(&self) -> u32
        ensures { result ≡ length self.now }
    {
        self.pairs.len() as u32
    }

    /// Whether there is none.
    pub fn is_empty(&self) -> bool
        ensures { result ≡ (length self.now == 0) }
    {
        self.pairs.is_empty()
    }

    /// The pairs, keys rising.
    pub fn as_slice(&self) -> &[(Key, V)]
        ensures items { result.now ≡ self.now }
        ensures kept { IsMap self.now }
    {
        &self.pairs
    }

    /// Each key with its value, keys rising.
    pub fn iter(&self) -> MapIter<'_, V>
        ensures { result ≡ self.now }
    {
        MapIter { rest: &self.pairs }
    }

    /// Whether the keys are just these.
    #[tactic(auto, using(crate::proofs::Keys::key_at))]
    pub fn has_keys(&self, keys: &Set) -> bool
        ensures { IsTrue result ↔ (keys_of self.now ≡ keys.now) }
    {
        let keys = keys.as_slice();
        if self.pairs.len() != keys.len() {
            return false;
        }
        for i in 0..keys.len() {
            if self.pairs[i].0 != keys[i] {
                return false;
            }
        }
        true
    }
}

impl<V: EncodeSize> Map<V> {
    /// A map has a size where its values have one each, of at most 2^30 bytes.
    pub fn has_size(&self)
        ensures { (each : ℕ) → each ≤ 2 ^ 30 → AllByRecursion (λ v. length (V.spelling v) ≤ each) (values_of self.now)
            → AllByRecursion V.can_size (values_of self.now) → MapSizes V.spelling V.can_size self.now }
    {
        let _pairs = self.as_slice();
    }
}

impl<V: Read> Map<V> {
    /// A map may be read under each limits that its length keeps to, where its values may.
    pub fn fits_limits(&self)
        ensures { (cfg : V.Cfg) (least most : ℕ) → least ≤ length self.now → length self.now ≤ most → AllByRecursion (V.fits cfg) (values_of self.now)
            → MapFits (V.fits cfg) least most self.now }
    {
        let _pairs = self.as_slice();
    }
}

/// How many keys a map may have, and how its values are read.
#[derive(Clone, Copy, Debug, PartialEq, Eq)]
pub struct MapCfg<C> {
    /// The fewest keys.
    pub least: u32,
    /// The most keys.
    pub most: u32,
    /// The limits of each value.
    pub value: C,
}

impl<V: Spelled> Spelled for Map<V> {
    ghost use Rattle.dkg_values.specs.Lists.{map_spelling};

    ghost spelling = { map_spelling V.spelling };
}

impl<V: Write> Write for Map<V> {
    fn put(&self, out: &mut BytesMut) -> Mem<()> {
        write_uint(out, u64::from(self.len()))?;
        for (key, _) in &self.pairs {
            out.put_u32(key.0)?;
        }
        write_uint(out, u64::from(self.len()))?;
        for (_, value) in &self.pairs {
            value.write(out)?;
        }
        Ok(())
    }
}

impl<V: EncodeSize> EncodeSize for Map<V> {
    ghost use Rattle.dkg_values.specs.Sizes.{MapSizes};

    ghost can_size = { MapSizes V.spelling V.can_size };

    fn encode_size(&self) -> usize
        requires { MapSizes V.spelling V.can_size self.now }
        ensures size { result ≡ length (map_spelling V.spelling self.now) }
        ensures limit { (most each : ℕ) → length self.now ≤ most → AllByRecursion (λ v. length (V.spelling v) ≤ each) (values_of self.now)
            → result ≤ 10 + 4 * most + most * each }
    {
        let mut size = 2 * uint_size(u64::from(self.len())) + 4 * self.pairs.len();
        for (_, value) in &self.pairs {
            size += value.encode_size();
        }
        size
    }
}

/// A value for each key.
fn read_pairs<V: Read + Drop>(
    alloc: Global,
    input: &mut Reader<'_>,
    keys: &[Key],
    cfg: &V::Cfg,
) -> Result<Vec<(Key, V)>, CodecError>
    ensures exact { ReadsBy (λ pairs. pairs.items) (pairs_at (V.read_of cfg.now) keys.now input.old) result input.new }
    ensures keys { IfOk result (λ pairs. keys_of pairs.items ≡ keys.now) }
{
    let mut pairs = Vec::new(alloc);
    for key in keys {
        let value = V::read_cfg(alloc, input, cfg)?;
        pairs.push((*key, value))?;
    }
    Ok(pairs)
}

impl<V: Read + Drop> Read for Map<V> {
    type Cfg = MapCfg<V::Cfg>;

    ghost use Rattle.dkg_values.specs.Lists.{map_at, MapFits};
    ghost use Rattle.dkg_values.specs.ListGrammar.{map_grammar};

    ghost fits = { λ cfg. MapFits (V.fits cfg.value) cfg.least cfg.most };

    ghost read_of = { λ cfg. map_at (V.read_of cfg.value) cfg.least cfg.most };

    ghost grammar = { λ cfg. map_grammar (V.fits cfg.value) V.spelling (V.read_of cfg.value) (V.grammar cfg.value) cfg.least cfg.most };

    fn read_cfg(
        alloc: Global,
        input: &mut Reader<'_>,
        cfg: &MapCfg<V::Cfg>,
    ) -> Result<Map<V>, CodecError> {
        let count = read_count(input, cfg.least, cfg.most)?;
        let keys = read_keys(alloc, input, count)?;
        let again = read_u32(input)?;
        if again != count {
            return Err(CodecError::InvalidLength {
                got: u64::from(again),
                max: u64::from(count),
            });
        }
        let pairs = read_pairs::<V>(alloc, input, &keys, &cfg.value)?;
        known(&pairs);
        Ok(Map { pairs })
    }
}

impl<V: Value + Drop> Value for Map<V> {
    fn copy(&self, alloc: Global) -> Mem<Map<V>> {
        let mut pairs = Vec::with_capacity(alloc, self.pairs.len())?;
        for (k, v) in &self.pairs {
            pairs.push((*k, v.copy(alloc)?))?;
        }
        Ok(Map { pairs })
    }

    fn same(&self, other: &Map<V>) -> bool {
        if self.len() != other.len() {
            return false;
        }
        for i in 0..self.pairs.len() {
            let (k, v) = &self.pairs[i];
            let (l, w) = &other.pairs[i];
            if *k != *l || !v.same(w) {
                return false;
            }
        }
        true
    }
}

/// The pairs of a map, keys rising.
#[derive(Drop)]
pub struct MapIter<'a, V> {
    rest: &'a [(Key, V)],
}

impl<'a, V> Model for MapIter<'a, V> {
    ghost use Rattle.std.specs.Prelude.{List, ℕ};

    ghost Value = { List (ℕ × V) };

    ghost view = { λ s. s.rest.now };
}

impl<'a, V> Iterator for MapIter<'a, V> {
    type Item = (Key, &'a V);

    ghost next_gives = { YieldsFirstBy (λ item. (item.0, item.1.now)) (λ s. s) };

    ghost remaining = { item_count (λ s. s) };

    fn next(&mut self) -> Option<(Key, &'a V)> {
        let (first, rest) = self.rest.split_first()?;
        self.rest = rest;
        Some((first.0, &first.1))
    }
}
