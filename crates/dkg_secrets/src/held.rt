//! What a secret store in memory holds, and what its changing calls do.
//!
//! The memory stores of runs and tests hold their content so.
ghost use Rattle.std.specs.Prelude.{◌≡◌, OnOk, OnErr, IsSome};
ghost use Rattle.std.specs.FinMap as map;
ghost use Rattle.dkg_secrets.specs.Cuts.{pruned_by, after_cut};
ghost use Rattle.dkg_secrets.specs.Secrets.{Secrets, Tries, after, IsTornPrune, newest_below};

use crate::number_map::NumberMap;
use crate::pair_map::PairMap;
use crate::secrets::SecretOp;
use dkg_ceremony::{Private, Share};
use dkg_values::{Epoch, Key, Mem, Seed};
use std::alloc::Global;
use std::marker::Model;

/// Shares and seeds by epoch, private halves by epoch and dealer.
#[derive(Drop)]
pub(crate) struct SecretMaps {
    shares: NumberMap<Share>,
    seeds: NumberMap<Seed>,
    privates: PairMap<Private>,
}

impl Model for SecretMaps {
    ghost use Rattle.dkg_secrets.specs.Secrets.{Secrets, coded_secrets};

    ghost Value = { Secrets };

    ghost coded = { coded_secrets };

    ghost view = { λ h. record { shares = h.shares; seeds = h.seeds; privates = h.privates } };
}

impl SecretMaps {
    pub(crate) fn new(alloc: Global) -> SecretMaps
        ensures { result ≡ record { shares = map.empty; seeds = map.empty; privates = map.empty } }
    {
        SecretMaps {
            shares: NumberMap::new(alloc),
            seeds: NumberMap::new(alloc),
            privates: PairMap::new(alloc),
        }
    }

    pub(crate) fn share(&self, epoch: Epoch) -> Option<Share>
        ensures { result ≡ map.get self.now.shares epoch }
    {
        self.shares.get(epoch.0).copied()
    }

    pub(crate) fn share_below(&self, epoch: Epoch) -> Option<Share>
        ensures { result ≡ newest_below (map.entries self.now.shares) epoch }
    {
        self.shares.newest_below(epoch.0).copied()
    }

    pub(crate) fn seed(&self, epoch: Epoch) -> Option<Seed>
        ensures { result ≡ map.get self.now.seeds epoch }
    {
        self.seeds.get(epoch.0).copied()
    }

    pub(crate) fn private(&self, epoch: Epoch, dealer: Key) -> Option<Private>
        ensures { result ≡ map.get self.now.privates (epoch, dealer) }
    {
        self.privates.get(epoch, dealer).copied()
    }

    fn prune(&mut self, min: Epoch)
        ensures { self.new ≡ after (SecretOp.Prune min) self.old }
    {
        self.shares.prune(min.0);
        self.seeds.prune(min.0);
        self.privates.prune(min.0);
    }

    /// Does what the call is for. Where memory runs out all is as before.
    pub(crate) fn apply(&mut self, op: &SecretOp) -> Mem<()>
        ensures done { OnOk result (self.new ≡ after op.now self.old) }
        ensures kept { OnErr result (self.new ≡ self.old) }
    {
        match *op {
            SecretOp::PutShare { epoch, share } => Ok(self.shares.insert(epoch.0, share)?),
            SecretOp::PutSeed { epoch, seed } => Ok(self.seeds.insert(epoch.0, seed)?),
            SecretOp::PutDealing {
                epoch,
                dealer,
                private,
            } => Ok(self.privates.insert(epoch, dealer, private)?),
            SecretOp::Prune { min } => {
                self.prune(min);
                Ok(())
            }
        }
    }

    /// Takes some of what is below the minimum away. Of the keys below it (of shares, of seeds, of private halves, each rising) the
    /// one at index i goes where bit i mod 64 of the pick is 0.
    fn prune_some(&mut self, alloc: Global, min: Epoch, pick: u64) -> Mem<()>
        ensures done { OnOk result (self.new ≡ pruned_by min pick self.old) }
        ensures torn { OnOk result (IsTornPrune min self.old self.new) }
        ensures kept { OnErr result (self.new ≡ self.old) }
    {
        let shares = self.shares.keys_below(alloc, min.0)?;
        let seeds = self.seeds.keys_below(alloc, min.0)?;
        let privates = self.privates.keys_below(alloc, min.0)?;
        let index = self.shares.remove_some(&shares, pick, 0);
        let index = self.seeds.remove_some(&seeds, pick, index);
        let _index = self.privates.remove_some(&privates, pick, index);
        Ok(())
    }

    /// Begins the call and stops in it. A put is done where the pick is even.
    pub(crate) fn cut(&mut self, alloc: Global, op: &SecretOp, pick: u64) -> Mem<()>
        ensures tried { Tries op.now self.old self.new }
        ensures done { OnOk result (self.new ≡ after_cut op.now pick self.old) }
        ensures kept { OnErr result (self.new ≡ self.old) }
    {
        if let SecretOp::Prune { min } = *op {
            return self.prune_some(alloc, min, pick);
        }
        if pick % 2 == 0 {
            return self.apply(op);
        }
        Ok(())
    }
}
