//! A secret store in memory that never fails.
ghost use Rattle.std.specs.Prelude.{◌≡◌, ◌≤◌, ◌∷◌, [], OnOk, OnErr, IsErrOf};
ghost use Rattle.std.specs.FinMap as map;
ghost use Rattle.dkg_journal.specs.DeviceCall.{CutIn, CallMade};
ghost use Rattle.dkg_journal.specs.Disk.{Rose};
ghost use Rattle.dkg_secrets.specs.Cuts.{after_cut};
ghost use Rattle.dkg_secrets.specs.Made.{MadeSecrets};
ghost use Rattle.dkg_secrets.specs.Secrets.{HasSecretWant, Tries, after};

use crate::held::SecretMaps;
use crate::secrets::{SecretError, SecretOp, SecretStore};
use dkg_ceremony::{Private, Share};
use dkg_values::{Epoch, Key, Mem, NoMemory, Seed};
use std::alloc::Global;

/// A secret store in memory that never fails: it may want memory.
#[derive(Drop)]
pub struct SureSecrets {
    held: SecretMaps,
    wants: u64,
}

impl SureSecrets {
    /// A store that holds nothing.
    pub fn new(alloc: Global) -> SureSecrets
        ensures { result.held ≡ record { shares = map.empty; seeds = map.empty; privates = map.empty } }
    {
        SureSecrets {
            held: SecretMaps::new(alloc),
            wants: 0,
        }
    }

    fn change(&mut self, op: &SecretOp) -> Result<(), SecretError>
        ensures done { OnOk result (self.new.held ≡ after op.now self.old.held) }
        ensures kept { OnErr result (self.new.held ≡ self.old.held) }
        ensures tried { Tries op.now self.old.held self.new.held }
        ensures calls { MadeSecrets (CallMade op.now ∷ []) self.old.held self.new.held }
        ensures sure { IsErrOf result SecretError.Failed → ⊥ }
        ensures want { HasSecretWant self.old.wants self.new.wants result }
    {
        match self.held.apply(op) {
            Ok(()) => Ok(()),
            Err(NoMemory) => {
                self.wants = self.wants.saturating_add(1);
                Err(SecretError::NoMemory)
            }
        }
    }
}

impl SecretStore for SureSecrets {
    ghost use Rattle.std.specs.Prelude.{true};
    ghost use Rattle.dkg_secrets.specs.Made.{MadeSecrets, secrets_made_both};

    ghost tells = { true };

    ghost held = { λ s. s.held };

    ghost faults = { λ _. 0 };

    ghost wants = { λ s. s.wants };

    ghost made = { λ old new calls. MadeSecrets calls old.held new.held };

    fn put_share(&mut self, _alloc: Global, epoch: Epoch, share: Share) -> Result<(), SecretError> {
        self.change(&SecretOp::PutShare { epoch, share })
    }

    fn get_share(&mut self, _alloc: Global, epoch: Epoch) -> Result<Option<Share>, SecretError> {
        Ok(self.held.share(epoch))
    }

    fn get_share_below(
        &mut self,
        _alloc: Global,
        epoch: Epoch,
    ) -> Result<Option<Share>, SecretError> {
        Ok(self.held.share_below(epoch))
    }

    fn put_seed(&mut self, _alloc: Global, epoch: Epoch, seed: Seed) -> Result<(), SecretError> {
        self.change(&SecretOp::PutSeed { epoch, seed })
    }

    fn get_seed(&mut self, _alloc: Global, epoch: Epoch) -> Result<Option<Seed>, SecretError> {
        Ok(self.held.seed(epoch))
    }

    fn put_dealing(
        &mut self,
        _alloc: Global,
        epoch: Epoch,
        dealer: Key,
        private: Private,
    ) -> Result<(), SecretError> {
        self.change(&SecretOp::PutDealing {
            epoch,
            dealer,
            private,
        })
    }

    fn get_dealing(
        &mut self,
        _alloc: Global,
        epoch: Epoch,
        dealer: Key,
    ) -> Result<Option<Private>, SecretError> {
        Ok(self.held.private(epoch, dealer))
    }

    fn prune(&mut self, _alloc: Global, min: Epoch) -> Result<(), SecretError> {
        self.change(&SecretOp::Prune { min })
    }

    fn cut(&mut self, alloc: Global, op: &SecretOp, pick: u64) -> Mem<()>
        ensures crash { Tries op.now self.old.held self.new.held }
        ensures memory { OnErr result (self.new.held ≡ self.old.held) }
        ensures later { self.old.wants ≤ self.new.wants }
        ensures wanted { OnErr result (Rose self.old.wants self.new.wants) }
        ensures calls { MadeSecrets (CutIn op.now pick ∷ []) self.old.held self.new.held }
        // A put is done where the pick is even; of the keys that a prune is to take, those go at whose indexes the bits are 0.
        ensures picked { OnOk result (self.new.held ≡ after_cut op.now pick self.old.held) }
    {
        if self.held.cut(alloc, op, pick).is_err() {
            self.wants = self.wants.saturating_add(1);
            return Err(NoMemory);
        }
        Ok(())
    }

    fn crash(&mut self, _pick: u64) {}

    ghost use Rattle.std.proofs.Common.{refl};

    ghost made_none = { λ _. refl };

    ghost made_more = { λ a b c xs ys. secrets_made_both xs ys a.held b.held c.held };
}
