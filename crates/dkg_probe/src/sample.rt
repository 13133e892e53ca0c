//! The sample of dealers' latest finalizations, from which the floor of a joining node is chosen.
//!
//! With at most f of 3f + 1 dealers stale or false, of any f + 1 of them one is current: the highest reply is no older than that one's.
ghost use Rattle.std.specs.Prelude.{◌≡◌, ◌<◌, length, OnOk, OnErr, IfSome};
ghost use Rattle.std.specs.Option.{option_copied};
ghost use Rattle.dkg_ceremony.specs.Thresholds.{max_faults_of};
ghost use Rattle.dkg_probe.specs.Sampling.{IsHighest, awaits, better, highest, floor_of, sample_forgotten, is_enough, is_higher, new_sample, sample_recorded, reply_at, selected};

use dkg_ceremony::{Epoch, Key, Mem, max_faults};
use dkg_types::Finalization;
use std::alloc::Global;
use std::collections::BTreeMap;
use std::marker::Model;

/// The replies of dealers, at most one of each, and the floor that was chosen among them.
#[derive(Drop)]
pub struct Sample {
    /// Replies of lower epochs are stale.
    minimum: Epoch,
    replies: BTreeMap<u32, Finalization>,
    chosen: Option<Finalization>,
}

impl Model for Sample {
    ghost use Rattle.dkg_probe.specs.Sampling.{Sampled};

    ghost Value = { Sampled };

    ghost view = { λ s. record { minimum = s.minimum; replies = s.replies.entries; chosen = s.chosen } };
}

/// Whether one finalization is above another.
fn is_above(one: &Finalization, other: &Finalization) -> bool
    ensures { result ≡ is_higher one.now other.now }
{
    one.epoch.0 > other.epoch.0 || (one.epoch.0 == other.epoch.0 && one.view > other.view)
}

/// The better of the best so far and another.
fn better_of(best: Option<Finalization>, other: &Finalization) -> Option<Finalization>
    ensures { result ≡ better best other.now }
{
    match best {
        None => Some(*other),
        Some(best) => {
            if is_above(other, &best) {
                Some(*other)
            } else {
                Some(best)
            }
        }
    }
}

/// The highest of some replies, and of equally high ones that of the least key.
fn highest_of(replies: &BTreeMap<u32, Finalization>) -> Option<Finalization>
    ensures { result ≡ highest replies.now.entries }
{
    let mut best = None;
    for reply in replies.values() {
        best = better_of(best, reply);
    }
    best
}

impl Sample {
    /// No replies yet. `minimum` is the least epoch of a reply that counts.
    pub fn new(alloc: Global, minimum: Epoch) -> Sample
        ensures { result ≡ new_sample minimum }
    {
        Sample {
            minimum,
            replies: BTreeMap::new(alloc),
            chosen: None,
        }
    }

    /// The least epoch of a reply that counts.
    pub fn minimum(&self) -> Epoch
        ensures { result ≡ self.now.minimum }
    {
        self.minimum
    }

    /// A reply that is held.
    fn has(&self, peer: Key) -> Option<&Finalization>
        ensures { option_copied result ≡ reply_at peer self.now.replies }
    {
        self.replies.get(&peer.0)
    }

    /// Whether a reply of the peer would count: no floor is chosen, and none of its replies is held.
    pub fn awaits(&self, peer: Key) -> bool
        ensures { result ≡ awaits self.now peer }
    {
        self.chosen.is_none() && self.has(peer).is_none()
    }

    /// Adds the reply of a peer that is awaited, and does nothing for any other.
    pub fn record(&mut self, peer: Key, finalization: Finalization) -> Mem<()>
        ensures ok { OnOk result (self.new ≡ sample_recorded self.old peer finalization) }
        ensures err { OnErr result (self.new ≡ self.old) }
    {
        if self.awaits(peer) {
            self.replies.insert(peer.0, finalization)?;
        }
        Ok(())
    }

    /// Chooses the floor and gives it, where none is chosen yet and one more has replied than may fail of so many dealers.
    pub fn select(&mut self, dealers: u32) -> Option<Finalization>
        ensures floor { result ≡ floor_of self.old dealers }
        ensures enough { IfSome result (λ _. max_faults_of dealers < length self.old.replies) }
        ensures highest { IfSome result (IsHighest self.old.replies) }
        ensures chosen { self.new ≡ selected self.old dealers }
    {
        if self.chosen.is_some() || self.replies.len() <= max_faults(dealers) as usize {
            return None;
        }
        self.chosen = highest_of(&self.replies);
        self.chosen
    }

    /// Forgets the replies and the floor.
    pub fn reset(&mut self)
        ensures { self.new ≡ sample_forgotten self.old }
    {
        self.replies.clear();
        self.chosen = None;
    }

    /// The floor that was chosen.
    pub fn floor(&self) -> Option<&Finalization>
        ensures { option_copied result ≡ self.now.chosen }
    {
        self.chosen.as_ref()
    }
}
