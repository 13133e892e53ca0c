//! The logs that a scan has found: of each dealer the lowest.
ghost use Rattle.std.specs.Prelude.{◌≡◌, ◌+◌, ◌≤◌, ◌<◌, ◌^◌, [], length, vec_capacity, vec_len, OnOk, OnErr, IfOk};
ghost use Rattle.std.specs.BTreeMap.{btree_map_len};
ghost use Rattle.std.specs.List.Sorted.{IsStrictlyIncreasing};
ghost use Rattle.dkg_values.specs.Rising.{keys_of, with_pair};
ghost use Rattle.dkg_artifact.specs.Found.{with_log};

use dkg_ceremony::DealerLog;
use dkg_values::{Key, Map, Mem, NoMemory, NotRising};
use std::alloc::Global;
use std::collections::BTreeMap;
use std::marker::Model;
use std::mem;

/// Logs by dealer, keys rising.
#[derive(Drop)]
pub(crate) struct Lowest {
    logs: BTreeMap<u32, DealerLog>,
}

impl Model for Lowest {
    ghost use Rattle.dkg_ceremony.specs.Outcomes.{LogMap};

    ghost Value = { LogMap };

    ghost view = { λ l. l.logs.entries };
}

/// The logs by key, put where there is room for them.
fn pairs_of(
    logs: BTreeMap<u32, DealerLog>,
    mut room: Vec<(Key, DealerLog)>,
) -> Vec<(Key, DealerLog)>
    requires empty { room.items ≡ [] }
    requires none { vec_len room ≡ 0 }
    requires enough { btree_map_len logs ≤ vec_capacity room }
    ensures pairs { result.items ≡ logs.entries }
    ensures rising { IsStrictlyIncreasing (keys_of logs.entries) }
    ensures count { vec_len result ≡ btree_map_len logs }
{
    for (dealer, log) in logs {
        room.push_reserved((Key(dealer), log));
    }
    room
}

/// Fewer than 2^32 pairs as a map, whose keys rise.
fn in_order(pairs: Vec<(Key, DealerLog)>) -> Map<DealerLog>
    requires in_bound { vec_len pairs < 2 ^ 32 }
    requires rising { IsStrictlyIncreasing (keys_of pairs.items) }
    ensures { result ≡ pairs.items }
{
    match Map::from_sorted(pairs) {
        Ok(made) => made,
        Err(NotRising) => unreachable!(),
    }
}

impl Lowest {
    pub(crate) fn new(alloc: Global) -> Lowest
        ensures { result ≡ [] }
    {
        Lowest {
            logs: BTreeMap::new(alloc),
        }
    }

    fn put_at(&mut self, dealer: u32, log: DealerLog) -> Mem<()>
        ensures done { OnOk result (self.new ≡ with_pair (dealer, log) self.old) }
        ensures same { OnErr result (self.new ≡ self.old) }
    {
        self.logs.insert(dealer, log)?;
        Ok(())
    }

    /// Puts a log in the place of its dealer's. Where memory runs out all is as before.
    pub(crate) fn put(&mut self, dealer: Key, log: DealerLog) -> Mem<()>
        ensures done { OnOk result (self.new ≡ with_pair (dealer, log) self.old) }
        ensures same { OnErr result (self.new ≡ self.old) }
    {
        self.put_at(dealer.0, log)
    }

    /// Puts a log, if there is one.
    pub(crate) fn add(&mut self, log: Option<(Key, DealerLog)>) -> Mem<()>
        ensures done { OnOk result (self.new ≡ with_log log self.old) }
        ensures same { OnErr result (self.new ≡ self.old) }
    {
        match log {
            Some((dealer, log)) => self.put(dealer, log),
            None => Ok(()),
        }
    }

    /// Forgets all logs.
    pub(crate) fn clear(&mut self)
        ensures { self.new ≡ [] }
    {
        self.logs.clear();
    }

    /// Room for these logs and one more.
    fn room(&self, alloc: Global) -> Mem<Vec<(Key, DealerLog)>>
        ensures empty { IfOk result (λ pairs. pairs.items ≡ []) }
        ensures none { IfOk result (λ pairs. vec_len pairs ≡ 0) }
        ensures enough { IfOk result (λ pairs. length self.now + 1 ≤ vec_capacity pairs) }
        ensures in_bound { IfOk result (λ pairs. length self.now + 1 < 2 ^ 32) }
    {
        let count = self.logs.len();
        if count >= u32::MAX as usize {
            return Err(NoMemory);
        }
        Ok(Vec::with_capacity(alloc, count + 1)?)
    }

    /// The logs as a map, with one more, if there is one. None are left. Where memory runs out all is as before.
    pub(crate) fn finish(
        &mut self,
        alloc: Global,
        log: Option<(Key, DealerLog)>,
    ) -> Mem<Map<DealerLog>>
        ensures logs { IfOk result (λ logs. logs ≡ with_log log self.old) }
        ensures done { OnOk result (self.new ≡ []) }
        ensures same { OnErr result (self.new ≡ self.old) }
    {
        let room = self.room(alloc)?;
        self.add(log)?;
        let logs = mem::replace(&mut self.logs, BTreeMap::new(alloc));
        Ok(in_order(pairs_of(logs, room)))
    }
}
