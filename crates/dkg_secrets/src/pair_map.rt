//! Values by an epoch and a dealer: the private halves of a secret store, and the recorded dealings of a store.
ghost use Rattle.std.specs.Prelude.{◌≡◌, ℕ, ◌+◌, ◌%◌, ◌<◌, ◌^◌, ◌==◌, ◌&&◌, filter, length, nat_lt, nat_le, OnOk, OnErr, IfOk, IfSome, IfNone, IsSome, None};
ghost use Rattle.std.specs.Option.{option_copied};
ghost use Rattle.std.specs.FinMap as map;
ghost use Rattle.dkg_secrets.specs.Cuts.{cleared, keys_below};

use dkg_values::{Epoch, Key};
use std::alloc::{AllocError, AllocFailed, Global};
use std::collections::BTreeMap;
use std::collections::btree_map::{Iter, Range};
use std::marker::Model;

/// Values by epoch and dealer, seen as a finite map.
#[derive(Drop)]
pub struct PairMap<V> {
    values: BTreeMap<(u64, u32), V>,
}

impl<V> Model for PairMap<V> {
    ghost use Rattle.dkg_secrets.specs.Keys.{key_cmp};
    ghost use Rattle.std.specs.FinMap as map;
    ghost use Rattle.std.specs.Coded.{coded×, coded_ℕ};

    ghost Value = { map.FinMap key_cmp V };

    ghost coded = { map.code (coded× coded_ℕ coded_ℕ) V.code };

    ghost view = { λ a. map.from_entries a.values.entries };
}

impl<V: Drop> PairMap<V> {
    /// A map without keys.
    pub fn new(alloc: Global) -> PairMap<V>
        ensures { result ≡ map.empty }
    {
        PairMap {
            values: BTreeMap::new(alloc),
        }
    }

    fn get_at(&self, epoch: u64, dealer: u32) -> Option<&V>
        ensures { option_copied result ≡ map.get self.now (epoch, dealer) }
    {
        self.values.get(&(epoch, dealer))
    }

    /// The values, by epoch and dealer, rising.
    pub fn iter(&self) -> Iter<'_, (u64, u32), V>
        ensures { result ≡ map.entries self.now }
    {
        self.values.iter()
    }

    /// The values of one epoch, by dealer, rising.
    pub fn of_epoch(&self, epoch: u64) -> Range<'_, (u64, u32), V>
        ensures { result ≡ filter (λ e. (e.0.0 == epoch) && nat_lt e.0.1 (2 ^ 32)) (map.entries self.now) }
    {
        self.values.range((epoch, 0)..=(epoch, u32::MAX))
    }

    fn insert_at(
        &mut self,
        epoch: u64,
        dealer: u32,
        value: V,
    ) -> Result<(), AllocFailed<((u64, u32), V)>>
        ensures done { OnOk result (self.new ≡ map.insert self.old (epoch, dealer) value) }
        ensures kept { OnErr result (self.new ≡ self.old) }
    {
        self.values.insert((epoch, dealer), value)?;
        Ok(())
    }

    fn remove_at(&mut self, epoch: u64, dealer: u32)
        ensures { self.new ≡ map.remove self.old (epoch, dealer) }
    {
        self.values.remove(&(epoch, dealer));
    }

    /// The value of an epoch's dealer.
    pub fn get(&self, epoch: Epoch, dealer: Key) -> Option<&V>
        ensures { option_copied result ≡ map.get self.now (epoch, dealer) }
    {
        self.get_at(epoch.0, dealer.0)
    }

    /// Puts a value in the place of what was there. Where memory runs out all is as before.
    pub fn insert(
        &mut self,
        epoch: Epoch,
        dealer: Key,
        value: V,
    ) -> Result<(), AllocFailed<((u64, u32), V)>>
        ensures done { OnOk result (self.new ≡ map.insert self.old (epoch, dealer) value) }
        ensures kept { OnErr result (self.new ≡ self.old) }
        ensures fits { dealer < 2 ^ 32 }
    {
        self.insert_at(epoch.0, dealer.0, value)
    }

    /// Takes the value of a pair away, if it has one.
    pub fn remove(&mut self, epoch: Epoch, dealer: Key)
        ensures { self.new ≡ map.remove self.old (epoch, dealer) }
    {
        self.remove_at(epoch.0, dealer.0);
    }

    /// The least key, if it is below the minimum.
    fn first_below(&self, min: u64) -> Option<(u64, u32)>
        ensures some { IfSome result (λ key. (key.0 < min) × IsSome (map.get self.now key)) }
        ensures none { IfNone result ((q : ℕ × ℕ) → q.0 < min → map.get self.now q ≡ None) }
    {
        match self.values.first_key_value() {
            Some((key, _)) if key.0 < min => Some(*key),
            _ => None,
        }
    }

    /// Takes all below the minimum away, in time of what goes.
    pub fn prune(&mut self, min: u64)
        ensures { self.new ≡ map.retain_keys self.old (λ key. nat_le min key.0) }
    {
        while let Some(key) = self.first_below(min) {
            self.remove_at(key.0, key.1);
        }
    }

    /// What is of epochs below the minimum, keys rising.
    fn below(&self, min: u64) -> Range<'_, (u64, u32), V>
        ensures { result ≡ filter (λ e. nat_lt e.0.0 min) (map.entries self.now) }
    {
        self.values.range(..(min, 0))
    }

    /// The keys of epochs below the minimum, rising.
    pub fn keys_below(&self, alloc: Global, min: u64) -> Result<Vec<(u64, u32)>, AllocError>
        ensures { IfOk result (λ keys. keys.items ≡ keys_below (λ key. key.0) min self.now) }
    {
        let mut keys = Vec::new(alloc);
        for (key, _) in self.below(min) {
            keys.push(*key)?;
        }
        Ok(keys)
    }

    /// Takes of these keys those away at whose indexes the pick's bits are 0. The first key has the first index; what is given is the
    /// index behind the last. Indexes turn at 64.
    pub fn remove_some(&mut self, keys: &[(u64, u32)], pick: u64, first: u32) -> u32
        requires { first < 64 }
        ensures cleared { self.new ≡ cleared pick first keys.now self.old }
        ensures behind { result ≡ (first + length keys.now) % 64 }
    {
        let mut index = first;
        for key in keys {
            if (pick >> index) % 2 == 0 {
                self.remove_at(key.0, key.1);
            }
            index = (index + 1) % 64;
        }
        index
    }
}
