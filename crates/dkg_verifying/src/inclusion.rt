//! What an epoch's inclusion has in memory beside the life: the requests that wait, the verification, and the answers.
//!
//! From an epoch's midpoint on blocks carry the dealers' logs, and final-block requests are read, one at a time. Whoever takes a message here is
//! lent both the life and its inclusion.
ghost use Rattle.std.specs.Prelude.{◌≡◌, [], IsSome, None, OnErr, OnOk};
ghost use Rattle.dkg_core.specs.Core.{no_inclusion};
ghost use Rattle.dkg_verifying.specs.InclusionOf.{IsSeen, in_front};

use crate::told::Told;
use dkg_artifact::{ArtifactCache, Request, Requests, Scan, Verification};
use dkg_ceremony::Ceremony;
use dkg_infos::Directory;
use dkg_rising::RisingMap;
use dkg_values::{Height, Mem};
use std::alloc::Global;

/// The request that is read: its ancestry so far, and the scan of it, which awaits the next block.
#[derive(Drop)]
pub struct Hand<Dir: Directory> {
    pub request: Request<Dir>,
    pub scan: Scan,
}

/// What an epoch's inclusion has in memory, and what the requests of the life were told.
#[derive(Drop)]
pub struct Inclusion<C: Ceremony, Dir: Directory> {
    /// The height for which the own log counts as served.
    pub served: Option<Height>,
    /// The first of the requests that wait, where it is read.
    pub hand: Option<Hand<Dir>>,
    pub requests: Requests<Dir>,
    /// The verification that runs, and the result that is kept.
    pub verification: Verification<C>,
    /// The request that the running verification answers.
    pub waiter: Option<u64>,
    pub cache: ArtifactCache<Dir>,
    pub told: RisingMap<Told<Dir>>,
}

impl<C: Ceremony + Drop, Dir: Directory + Drop> Inclusion<C, Dir> {
    /// A life's, before its first epoch (`no_inclusion`).
    pub fn new(alloc: Global) -> Inclusion<C, Dir>
        ensures seen { IsSeen result no_inclusion }
        ensures empty { (result.hand ≡ None) × (result.requests ≡ []) × (result.verification.running ≡ None) × (result.served ≡ None) }
    {
        Inclusion {
            served: None,
            hand: None,
            requests: Requests::new(alloc),
            verification: Verification::new(),
            waiter: None,
            cache: ArtifactCache::new(),
            told: RisingMap::new(alloc),
        }
    }

    /// Begins the next epoch with nothing of this one but the answers (`anew`).
    pub fn renew(&mut self, alloc: Global)
        ensures { self.new ≡ record self.old {
          served = None;
          hand = None;
          requests = [];
          verification = record { running = None; kept = None };
          waiter = None;
          cache = None;
        } }
    {
        self.served = None;
        self.hand = None;
        self.requests = Requests::new(alloc);
        self.verification = Verification::new();
        self.waiter = None;
        self.cache = ArtifactCache::new();
    }

    /// Takes the request that is read back to the front of those that wait: over another tip its ancestry is read again.
    ///
    /// Memory may be wanting for a request in hand alone, which is given up then.
    pub fn put_back(&mut self) -> Mem<()>
        ensures ok { OnOk result (self.new ≡ record self.old { hand = None; requests = in_front self.old.hand self.old.requests }) }
        ensures err { OnErr result (self.new ≡ record self.old { hand = None }) }
        ensures held { OnErr result (IsSome self.old.hand) }
    {
        match self.hand.take() {
            None => Ok(()),
            Some(hand) => self.requests.push_front(hand.request),
        }
    }
}
