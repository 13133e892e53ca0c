//! Values by one number, an epoch or a key: what a secret store keeps by epoch, and what a player keeps by dealer.
ghost use Rattle.std.specs.Prelude.{◌≡◌, ℕ, ◌+◌, ◌%◌, ◌<◌, nat_lt, nat_le, filter, length, OnOk, OnErr, IfOk, IfSome, IfNone, IsSome, None};
ghost use Rattle.std.specs.Option.{option_copied};
ghost use Rattle.std.specs.FinMap as map;
ghost use Rattle.dkg_secrets.specs.Cuts.{cleared, keys_below};
ghost use Rattle.dkg_secrets.specs.Secrets.{newest_below};

use std::alloc::{AllocError, AllocFailed, Global};
use std::collections::BTreeMap;
use std::collections::btree_map::Range;
use std::marker::Model;

/// Values by one number, seen as a finite map.
#[derive(Drop)]
pub struct NumberMap<V> {
    values: BTreeMap<u64, V>,
}

impl<V> Model for NumberMap<V> {
    ghost use Rattle.std.specs.Ordering.{nat_cmp};
    ghost use Rattle.std.specs.FinMap as map;
    ghost use Rattle.std.specs.Coded.{coded_ℕ};

    ghost Value = { map.FinMap nat_cmp V };

    ghost coded = { map.code coded_ℕ V.code };

    ghost view = { λ a. map.from_entries a.values.entries };
}

impl<V: Drop> NumberMap<V> {
    /// A map without keys.
    pub fn new(alloc: Global) -> NumberMap<V>
        ensures { result ≡ map.empty }
    {
        NumberMap {
            values: BTreeMap::new(alloc),
        }
    }

    /// The value of a key, if it has one.
    pub fn get(&self, key: u64) -> Option<&V>
        ensures { option_copied result ≡ map.get self.now key }
    {
        self.values.get(&key)
    }

    /// Puts a value in the place of what was there. Where memory runs out all is as before.
    pub fn insert(&mut self, key: u64, value: V) -> Result<(), AllocFailed<(u64, V)>>
        ensures done { OnOk result (self.new ≡ map.insert self.old key value) }
        ensures kept { OnErr result (self.new ≡ self.old) }
    {
        self.values.insert(key, value)?;
        Ok(())
    }

    /// Takes the key's value away, if it has one.
    pub fn remove(&mut self, key: u64)
        ensures { self.new ≡ map.remove self.old key }
    {
        self.values.remove(&key);
    }

    /// The least key, if it is below the minimum.
    fn first_below(&self, min: u64) -> Option<u64>
        ensures some { IfSome result (λ key. (key < min) × IsSome (map.get self.now key)) }
        ensures none { IfNone result ((q : ℕ) → q < min → map.get self.now q ≡ None) }
    {
        match self.values.first_key_value() {
            Some((key, _)) if *key < min => Some(*key),
            _ => None,
        }
    }

    /// Takes all below the minimum away, in time of what goes.
    pub fn prune(&mut self, min: u64)
        ensures { self.new ≡ map.retain_keys self.old (nat_le min) }
    {
        while let Some(key) = self.first_below(min) {
            self.remove(key);
        }
    }

    /// What is below the minimum, keys rising.
    fn below(&self, min: u64) -> Range<'_, u64, V>
        ensures { result ≡ filter (λ e. nat_lt e.0 min) (map.entries self.now) }
    {
        self.values.range(..min)
    }

    /// The value of the highest key below a bound, if one is there.
    pub fn newest_below(&self, bound: u64) -> Option<&V>
        ensures { option_copied result ≡ newest_below (map.entries self.now) bound }
    {
        match self.below(bound).next_back() {
            Some((_, value)) => Some(value),
            None => None,
        }
    }

    /// The keys below the minimum, rising.
    pub fn keys_below(&self, alloc: Global, min: u64) -> Result<Vec<u64>, AllocError>
        ensures { IfOk result (λ keys. keys.items ≡ keys_below (λ key. key) min self.now) }
    {
        let mut keys = Vec::new(alloc);
        for (key, _) in self.below(min) {
            keys.push(*key)?;
        }
        Ok(keys)
    }

    /// Takes of these keys those away at whose indexes the pick's bits are 0. The first key has the first index; what is given is the
    /// index behind the last. Indexes turn at 64.
    pub fn remove_some(&mut self, keys: &[u64], pick: u64, first: u32) -> u32
        requires { first < 64 }
        ensures cleared { self.new ≡ cleared pick first keys.now self.old }
        ensures behind { result ≡ (first + length keys.now) % 64 }
    {
        let mut index = first;
        for key in keys {
            if (pick >> index) % 2 == 0 {
                self.remove(*key);
            }
            index = (index + 1) % 64;
        }
        index
    }
}
