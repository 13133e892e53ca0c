//! Which epochs are ready: all up to the greatest mark. It comes from the upstream's `fence`.
//!
//! The upstream's gate hands out a future; here a fence is plain data that the node lends to both halves, `wait` answers at once, and
//! `close` stands for the upstream's drop.
ghost use Rattle.std.specs.Prelude.{◌≡◌, ℕ, ◌↔◌, ◌++◌, ◌∷◌, [], List, false, IsTrue, IsSome, None};
ghost use Rattle.dkg_fence.specs.Fence.{Wakes, WaitsFor, marked, closed, waited, greatest};
ghost use Rattle.dkg_fence.specs.Readiness.{IsReady};

use dkg_values::Epoch;
use std::marker::Model;

/// What a wait for an epoch finds.
#[derive(Clone, Copy, Debug, PartialEq, Eq)]
pub enum Waited {
    /// The epoch is ready.
    Ready,
    /// It may become ready. The fence remembers the wait.
    Pending,
    /// The fence was closed before the epoch was ready.
    Closed,
}

/// Which epochs are ready, and the wait that is to be woken. No epoch is ready before the first mark, not even epoch 0.
///
/// A wait that answers `Pending` is remembered until it is woken or another wait is made. No call takes memory.
#[derive(Drop)]
pub struct Fence {
    ready: Option<Epoch>,
    closed: bool,
    awaited: Option<Epoch>,
}

impl Model for Fence {
    ghost use Rattle.dkg_fence.specs.Readiness.{Readiness, IsSoundReadiness};

    ghost Value = { Readiness };

    ghost view = { λ f. record { ready = f.ready; closed = f.closed; awaited = f.awaited } };

    ghost invariant = { λ f. IsSoundReadiness record { ready = f.ready; closed = f.closed; awaited = f.awaited } };
}

impl Fence {
    /// No epoch is ready.
    pub fn new() -> Fence
        ensures fresh { result ≡ record { ready = None; closed = false; awaited = None } }
        ensures greatest { result.ready ≡ greatest [] }
    {
        Fence {
            ready: None,
            closed: false,
            awaited: None,
        }
    }

    /// Makes every epoch up to this one ready, unless the fence is closed. It says whether that woke the remembered wait, which is
    /// then forgotten. A mark at or below the greatest ready epoch changes nothing.
    pub fn mark(&mut self, epoch: Epoch) -> bool
        ensures marked { self.new ≡ marked epoch self.old }
        ensures woke { IsTrue result ↔ Wakes self.old self.new }
        ensures never_falls { (e : ℕ) → IsReady self.old.ready e → IsReady self.new.ready e }
        ensures greatest { (marks : List ℕ) → self.old.closed ≡ false → self.old.ready ≡ greatest marks
            → self.new.ready ≡ greatest (marks ++ epoch ∷ []) }
    {
        if self.closed || self.ready.is_some_and(|ready| epoch.0 <= ready.0) {
            return false;
        }
        self.ready = Some(epoch);
        match self.awaited {
            Some(awaited) if awaited.0 <= epoch.0 => {
                self.awaited = None;
                true
            }
            _ => false,
        }
    }

    /// No further epoch becomes ready. It says whether that woke a remembered wait, which is then forgotten.
    pub fn close(&mut self) -> bool
        ensures closed { self.new ≡ closed self.old }
        ensures woke { IsTrue result ↔ IsSome self.old.awaited }
        ensures ready_stays { self.new.ready ≡ self.old.ready }
    {
        let wakes = self.awaited.is_some();
        self.closed = true;
        self.awaited = None;
        wakes
    }

    /// Asks for an epoch. It waits for nobody. A ready epoch is `Ready` after `close` too.
    pub fn wait(&mut self, epoch: Epoch) -> Waited
        ensures answer { WaitsFor epoch self.old result }
        ensures waited { self.new ≡ waited epoch result self.old }
        ensures ready_stays { self.new.ready ≡ self.old.ready }
    {
        self.awaited = None;
        if self.ready.is_some_and(|ready| epoch.0 <= ready.0) {
            return Waited::Ready;
        }
        if self.closed {
            return Waited::Closed;
        }
        self.awaited = Some(epoch);
        Waited::Pending
    }
}
