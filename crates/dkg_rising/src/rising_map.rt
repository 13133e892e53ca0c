//! A list of entries whose numbers rise, and a tree for the numbers that came late.
//!
//! Whoever counts on asks mostly for the newest number: it stands last in the list, where it is looked for first.
ghost use Rattle.std.specs.Prelude.{◌≡◌, OnOk, OnErr, IfOk, IfErr, Some, is_some};
ghost use Rattle.std.specs.BTreeMap as tree;
ghost use Rattle.std.specs.List.Sorted.{IsStrictlyIncreasing};
ghost use Rattle.std.specs.Map.{keys_of};
ghost use Rattle.std.specs.Option.{option_copied};
ghost use Rattle.std.specs.Ordering.{nat_cmp};
ghost use Rattle.std.specs.FinMap as map;
ghost use Rattle.dkg_rising.specs.Indexes.{IsAt, IsGap};

use dkg_values::Mem;
use std::alloc::Global;
use std::collections::BTreeMap;
use std::marker::Model;

/// Values by numbers that mostly rise, seen as a finite map.
///
/// A number above all before it goes to the end of a list, in constant time. Any other goes to a tree, unless it stands in the list: then its
/// new value takes the place of the old one. Of a list and a tree of `n` entries each call but that costs the logarithm of `n`.
#[derive(Drop)]
pub struct RisingMap<V> {
    /// Each number is above the one before.
    rising: Vec<(u64, V)>,
    others: BTreeMap<u64, V>,
}

impl<V> Model for RisingMap<V> {
    ghost use Rattle.std.specs.Prelude.{◌++◌};
    ghost use Rattle.std.specs.Ordering.{nat_cmp};
    ghost use Rattle.std.specs.FinMap as map;
    ghost use Rattle.std.specs.Coded.{coded_ℕ};
    ghost use Rattle.std.specs.List.Sorted.{IsStrictlyIncreasing};
    ghost use Rattle.std.specs.Map.{keys_of};

    ghost Value = { map.FinMap nat_cmp V };

    ghost coded = { map.code coded_ℕ V.code };

    ghost view = { λ a. map.from_entries (a.rising.items ++ a.others.entries) };

    ghost invariant = { λ a. IsStrictlyIncreasing (keys_of a.rising.items) };
}

/// Where a number stands, or would go, by binary search.
#[inline(never)]
fn search<V>(rising: &[(u64, V)], number: u64) -> Result<usize, usize>
    requires { IsStrictlyIncreasing (keys_of rising.now) }
    ensures there { IfOk result (IsAt number rising.now) }
    ensures absent { IfErr result (IsGap number rising.now) }
{
    rising.binary_search_by_key(&number, |entry| entry.0)
}

/// Where a number stands, or would go. The last entry is looked at first.
#[inline]
fn index_of<V>(rising: &[(u64, V)], number: u64) -> Result<usize, usize>
    requires { IsStrictlyIncreasing (keys_of rising.now) }
    ensures there { IfOk result (IsAt number rising.now) }
    ensures absent { IfErr result (IsGap number rising.now) }
{
    match rising.last() {
        None => Err(0),
        Some(last) if last.0 < number => Err(rising.len()),
        Some(last) if last.0 == number => Ok(rising.len() - 1),
        _ => search(rising, number),
    }
}

/// The value at a number among those that came late. It stands apart, so that the way of the newest number is short.
#[inline(never)]
fn late<V>(others: &BTreeMap<u64, V>, number: u64) -> Option<&V>
    ensures { option_copied result ≡ tree.get nat_cmp others.now number }
{
    others.get(&number)
}

/// Gives a number that came late a value.
#[inline(never)]
fn insert_late<V: Drop>(others: &mut BTreeMap<u64, V>, number: u64, value: V) -> Mem<()>
    ensures done { OnOk result (tree.Updates nat_cmp others.old others.new number (Some value)) }
    ensures kept { OnErr result (tree.IsUnchanged others.old others.new) }
{
    others.insert(number, value)?;
    Ok(())
}

impl<V: Drop> RisingMap<V> {
    /// No number. It takes no memory.
    pub fn new(alloc: Global) -> RisingMap<V>
        ensures { result ≡ map.empty }
    {
        RisingMap {
            rising: Vec::new(alloc),
            others: BTreeMap::new(alloc),
        }
    }

    /// The value at a number.
    #[inline]
    pub fn get(&self, number: u64) -> Option<&V>
        ensures { option_copied result ≡ map.get self.now number }
    {
        match index_of(&self.rising, number) {
            Ok(at) => Some(&self.rising[at].1),
            Err(_) if self.others.is_empty() => None,
            Err(_) => late(&self.others, number),
        }
    }

    /// Whether a number has a value.
    #[inline]
    pub fn has(&self, number: u64) -> bool
        ensures { result ≡ is_some (map.get self.now number) }
    {
        self.get(number).is_some()
    }

    /// Gives a number a value. Where memory runs out all is as before, and the value is given up.
    #[inline]
    pub fn insert(&mut self, number: u64, value: V) -> Mem<()>
        ensures done { OnOk result (self.new ≡ map.insert self.old number value) }
        ensures kept { OnErr result (self.new ≡ self.old) }
    {
        match index_of(&self.rising, number) {
            Ok(at) => {
                self.rising[at] = (number, value);
                Ok(())
            }
            Err(at) if at == self.rising.len() => Ok(self.rising.push((number, value))?),
            Err(_) => {
                insert_late(&mut self.others, number, value)?;
                Ok(())
            }
        }
    }
}
