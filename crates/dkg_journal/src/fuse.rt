//! A count of the changing calls of one step, at one of which the step is cut.
//!
//! `perform` spends it before each call, and so does whoever changes a secret store.
ghost use Rattle.std.specs.Prelude.{◌≡◌, IsTrue, IfSome, IfNone, ◌↔◌};
ghost use Rattle.dkg_journal.specs.Fuse.{spent_once, pick_now, IsBlown, Reached};

use std::marker::Model;

/// A count of changing calls, and the call, from 1, at which the step is cut. It stands still at its last value, 2^64 - 1.
#[derive(Drop)]
pub struct Fuse {
    call: u64,
    pick: u64,
    spent: u64,
}

impl Model for Fuse {
    ghost use Rattle.dkg_journal.specs.Burn.{Burn};

    ghost Value = { Burn };

    ghost view = { λ f. record { call = f.call; pick = f.pick; spent = f.spent } };
}

impl Fuse {
    /// Cuts no call.
    pub fn never() -> Fuse
        ensures { result ≡ record { call = 0; pick = 0; spent = 0 } }
    {
        Fuse {
            call: 0,
            pick: 0,
            spent: 0,
        }
    }

    /// Cuts this call, the first of which is 1.
    pub fn at(call: u64, pick: u64) -> Fuse
        ensures { result ≡ record { call = call; pick = pick; spent = 0 } }
    {
        Fuse {
            call,
            pick,
            spent: 0,
        }
    }

    /// Counts a call, and gives the pick where it is the one that is cut.
    pub fn spend(&mut self) -> Option<u64>
        ensures pick { result ≡ pick_now self.old }
        ensures counted { self.new ≡ spent_once self.old }
        ensures cut { IfSome result (λ _. Reached self.old self.new) }
        ensures not_cut { IfNone result (Reached self.old self.new → ⊥) }
    {
        if self.spent == u64::MAX {
            return None;
        }
        self.spent += 1;
        if self.spent == self.call {
            Some(self.pick)
        } else {
            None
        }
    }

    /// How many calls were counted.
    pub fn spent(&self) -> u64
        ensures { result ≡ self.now.spent }
    {
        self.spent
    }

    /// Whether the call that is cut was reached.
    pub fn blown(&self) -> bool
        ensures { IsTrue result ↔ IsBlown self.now }
    {
        self.call > 0 && self.call <= self.spent
    }
}
