//! Values by a key: the dealings that a player has of its own, by dealer.
ghost use Rattle.std.specs.Prelude.{◌≡◌, OnOk, OnErr, IfOk};
ghost use Rattle.std.specs.Option.{option_copied};
ghost use Rattle.std.specs.FinMap as map;

use crate::store::in_order;
use dkg_values::{Key, Map, Mem};
use std::alloc::{AllocFailed, Global};
use std::collections::BTreeMap;
use std::marker::Model;

/// Values by key, seen as a finite map.
#[derive(Drop)]
pub struct KeyMap<V> {
    values: BTreeMap<u32, V>,
}

impl<V> Model for KeyMap<V> {
    ghost use Rattle.std.specs.Ordering.{nat_cmp};
    ghost use Rattle.std.specs.FinMap as map;
    ghost use Rattle.std.specs.Coded.{coded_ℕ};

    ghost Value = { map.FinMap nat_cmp V };

    ghost coded = { map.code coded_ℕ V.code };

    ghost view = { λ a. map.from_entries a.values.entries };
}

impl<V: Drop> KeyMap<V> {
    /// A map without keys.
    pub fn new(alloc: Global) -> KeyMap<V>
        ensures { result ≡ map.empty }
    {
        KeyMap {
            values: BTreeMap::new(alloc),
        }
    }

    fn get_at(&self, key: u32) -> Option<&V>
        ensures { option_copied result ≡ map.get self.now key }
    {
        self.values.get(&key)
    }

    fn insert_at(&mut self, key: u32, value: V) -> Result<(), AllocFailed<(u32, V)>>
        ensures done { OnOk result (self.new ≡ map.insert self.old key value) }
        ensures kept { OnErr result (self.new ≡ self.old) }
    {
        self.values.insert(key, value)?;
        Ok(())
    }

    fn remove_at(&mut self, key: u32)
        ensures { self.new ≡ map.remove self.old key }
    {
        self.values.remove(&key);
    }

    /// The value of a key, if it has one.
    pub fn get(&self, key: Key) -> Option<&V>
        ensures { option_copied result ≡ map.get self.now key }
    {
        self.get_at(key.0)
    }

    /// Puts a value in the place of what was there. Where memory runs out all is as before.
    pub fn insert(&mut self, key: Key, value: V) -> Result<(), AllocFailed<(u32, V)>>
        ensures done { OnOk result (self.new ≡ map.insert self.old key value) }
        ensures kept { OnErr result (self.new ≡ self.old) }
    {
        self.insert_at(key.0, value)
    }

    /// Takes the key's value away, if it has one.
    pub fn remove(&mut self, key: Key)
        ensures { self.new ≡ map.remove self.old key }
    {
        self.remove_at(key.0);
    }

    /// The values as a map whose keys rise. They are moved, in time linear in how many there are.
    pub fn into_map(self, alloc: Global) -> Mem<Map<V>>
        ensures { IfOk result (λ made. made ≡ map.entries self) }
    {
        let mut pairs = Vec::new(alloc);
        for (key, value) in self.values {
            pairs.push((Key(key), value))?;
        }
        in_order(pairs)
    }
}
