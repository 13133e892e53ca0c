//! Values by section, found in logarithmic time.
//!
//! A journal keeps the places behind its files so, and an opening the segments that a flat file is parted into.
ghost use Rattle.std.specs.Prelude.{◌≡◌, ℕ, ◌<◌, nat_lt, nat_le, filter, OnOk, OnErr, IfSome, IfNone, IsSome, None};
ghost use Rattle.std.specs.Option.{option_copied};
ghost use Rattle.std.specs.FinMap as map;

use dkg_values::Mem;
use std::alloc::Global;
use std::collections::BTreeMap;
use std::collections::btree_map::{Iter, Range};
use std::marker::Model;

/// Values by section, seen as a finite map.
#[derive(Drop)]
pub struct BySection<V> {
    values: BTreeMap<u64, V>,
}

impl<V> Model for BySection<V> {
    ghost use Rattle.std.specs.Ordering.{nat_cmp};
    ghost use Rattle.std.specs.FinMap as map;
    ghost use Rattle.std.specs.Coded.{coded_ℕ};

    ghost Value = { map.FinMap nat_cmp V };

    ghost coded = { map.code coded_ℕ V.code };

    ghost view = { λ a. map.from_entries a.values.entries };
}

impl<V: Drop> BySection<V> {
    /// No section has a value.
    pub fn new(alloc: Global) -> BySection<V>
        ensures { result ≡ map.empty }
    {
        BySection {
            values: BTreeMap::new(alloc),
        }
    }

    /// The value of a section, if it has one.
    pub fn get(&self, section: u64) -> Option<&V>
        ensures { option_copied result ≡ map.get self.now section }
    {
        self.values.get(&section)
    }

    /// Puts a value in the place of the section's. Where memory runs out all is as before.
    pub fn insert(&mut self, section: u64, value: V) -> Mem<()>
        ensures done { OnOk result (self.new ≡ map.insert self.old section value) }
        ensures kept { OnErr result (self.new ≡ self.old) }
        ensures absent { OnErr result (map.get self.old section ≡ None) }
    {
        self.values.insert(section, value)?;
        Ok(())
    }

    /// Puts a value in place of one that is there.
    pub fn set(&mut self, section: u64, value: V)
        requires { IsSome (map.get self.old section) }
        ensures { self.new ≡ map.insert self.old section value }
    {
        let set = self.insert(section, value);
        prove!(set.is_ok());
        let _ = set;
    }

    /// Takes a value away, and gives it.
    pub fn take(&mut self, section: u64) -> Option<V>
        ensures value { result ≡ map.get self.old section }
        ensures gone { self.new ≡ map.remove self.old section }
    {
        self.values.remove(&section)
    }

    fn remove(&mut self, section: u64)
        ensures { self.new ≡ map.remove self.old section }
    {
        self.values.remove(&section);
    }

    /// The values, sections rising.
    pub fn iter(&self) -> Iter<'_, u64, V>
        ensures { result ≡ map.entries self.now }
    {
        self.values.iter()
    }

    /// The values of sections below the minimum, rising.
    pub fn below(&self, min: u64) -> Range<'_, u64, V>
        ensures { result ≡ filter (λ e. nat_lt e.0 min) (map.entries self.now) }
    {
        self.values.range(..min)
    }

    /// The least section, if it is below the minimum.
    fn first_below(&self, min: u64) -> Option<u64>
        ensures some { IfSome result (λ section. (section < min) × IsSome (map.get self.now section)) }
        ensures none { IfNone result ((q : ℕ) → q < min → map.get self.now q ≡ None) }
    {
        match self.values.first_key_value() {
            Some((section, _)) if *section < min => Some(*section),
            _ => None,
        }
    }

    /// Takes all below the minimum away, in time of what goes.
    pub fn prune(&mut self, min: u64)
        ensures { self.new ≡ map.retain_keys self.old (nat_le min) }
    {
        while let Some(section) = self.first_below(min) {
            self.remove(section);
        }
    }
}
