//! A secret store in memory, whose calls fail where it is told.
//!
//! Runs and tests use it in place of a node's own secret store.
ghost use Rattle.std.specs.Prelude.{◌≡◌, ◌≤◌, ◌∷◌, [], OnOk, OnErr, IfOk, IsErrOf};
ghost use Rattle.dkg_journal.specs.Disk.{Rose};
ghost use Rattle.dkg_journal.specs.Failing.{FailsByNumber};
ghost use Rattle.std.specs.FinMap as map;
ghost use Rattle.dkg_secrets.specs.Cuts.{after_cut};
ghost use Rattle.dkg_journal.specs.DeviceCall.{CallMade, CutIn, Crashes};
ghost use Rattle.dkg_secrets.specs.Made.{MadeSecrets};
ghost use Rattle.dkg_secrets.specs.Secrets.{HasSecretCause, HasSecretWant, Tries, after, newest_below};

use crate::held::SecretMaps;
use crate::secrets::{SecretError, SecretOp, SecretStore};
use dkg_ceremony::{Private, Share};
use dkg_values::{Epoch, Key, Mem, NoMemory, Seed};
use std::alloc::Global;

/// A secret store in memory, of which calls may be told to fail. A failed call changes nothing.
#[derive(Drop)]
pub struct MemorySecrets {
    held: SecretMaps,
    /// The numbers, from 1, of the calls that fail.
    failing: Vec<u64>,
    /// How many calls were made that may fail: all but `cut` and `crash`.
    calls: u64,
    faults: u64,
    wants: u64,
}

impl MemorySecrets {
    /// A store that holds nothing and never fails.
    pub fn new(alloc: Global) -> MemorySecrets
        ensures held { result.held ≡ record { shares = map.empty; seeds = map.empty; privates = map.empty } }
        ensures failing { result.failing.items ≡ [] }
        ensures faults { result.faults ≡ 0 }
    {
        MemorySecrets::failing(alloc, Vec::new(alloc))
    }

    /// A store that holds nothing and fails at these of its calls, numbered from 1. `cut` and `crash` don't count.
    pub fn failing(alloc: Global, calls: Vec<u64>) -> MemorySecrets
        ensures held { result.held ≡ record { shares = map.empty; seeds = map.empty; privates = map.empty } }
        ensures failing { result.failing.items ≡ calls.items }
        ensures calls { result.calls ≡ 0 }
        ensures faults { result.faults ≡ 0 }
    {
        MemorySecrets {
            held: SecretMaps::new(alloc),
            failing: calls,
            calls: 0,
            faults: 0,
            wants: 0,
        }
    }

    /// Counts a call, and fails where it is one that was told to.
    fn begin(&mut self) -> Result<(), SecretError>
        ensures held { self.new.held ≡ self.old.held }
        ensures wants { self.new.wants ≡ self.old.wants }
        ensures failing { self.new.failing ≡ self.old.failing }
        // Exactly the calls of these numbers fail.
        ensures number { FailsByNumber SecretError.Failed self.old.failing.items self.old.calls self.new.calls result }
        ensures cause { HasSecretCause self.old.faults self.new.faults result }
        ensures error_kinds { IsErrOf result SecretError.NoMemory → ⊥ }
    {
        self.calls = self.calls.saturating_add(1);
        if self.failing.contains(&self.calls) {
            self.faults = self.faults.saturating_add(1);
            return Err(SecretError::Failed);
        }
        Ok(())
    }

    fn change(&mut self, op: &SecretOp) -> Result<(), SecretError>
        ensures done { OnOk result (self.new.held ≡ after op.now self.old.held) }
        ensures kept { OnErr result (self.new.held ≡ self.old.held) }
        ensures tried { Tries op.now self.old.held self.new.held }
        ensures calls { MadeSecrets (CallMade op.now ∷ []) self.old.held self.new.held }
        ensures cause { HasSecretCause self.old.faults self.new.faults result }
        ensures want { HasSecretWant self.old.wants self.new.wants result }
        ensures number { FailsByNumber SecretError.Failed self.old.failing.items self.old.calls self.new.calls result }
        ensures numbers { self.new.failing ≡ self.old.failing }
    {
        self.begin()?;
        match self.held.apply(op) {
            Ok(()) => Ok(()),
            Err(NoMemory) => {
                self.wants = self.wants.saturating_add(1);
                Err(SecretError::NoMemory)
            }
        }
    }
}

impl SecretStore for MemorySecrets {
    ghost use Rattle.std.specs.Prelude.{true};
    ghost use Rattle.dkg_secrets.specs.Made.{MadeSecrets, secrets_made_both};

    ghost tells = { true };

    ghost held = { λ s. s.held };

    ghost faults = { λ s. s.faults };

    ghost wants = { λ s. s.wants };

    ghost made = { λ old new calls. MadeSecrets calls old.held new.held };

    fn put_share(&mut self, _alloc: Global, epoch: Epoch, share: Share) -> Result<(), SecretError>
        ensures done { OnOk result (self.new.held ≡ after (SecretOp.PutShare epoch share) self.old.held) }
        ensures crash { Tries (SecretOp.PutShare epoch share) self.old.held self.new.held }
        ensures memory { IsErrOf result SecretError.NoMemory → self.new.held ≡ self.old.held }
        ensures cause { HasSecretCause self.old.faults self.new.faults result }
        ensures want { HasSecretWant self.old.wants self.new.wants result }
        ensures calls { MadeSecrets (CallMade (SecretOp.PutShare epoch share) ∷ []) self.old.held self.new.held }
        // A failed call changes nothing.
        ensures kept { OnErr result (self.new.held ≡ self.old.held) }
        ensures number { FailsByNumber SecretError.Failed self.old.failing.items self.old.calls self.new.calls result }
        ensures numbers { self.new.failing ≡ self.old.failing }
    {
        self.change(&SecretOp::PutShare { epoch, share })
    }

    fn get_share(&mut self, _alloc: Global, epoch: Epoch) -> Result<Option<Share>, SecretError>
        ensures share { IfOk result (λ share. share ≡ map.get self.old.held.shares epoch) }
        ensures same { self.new.held ≡ self.old.held }
        ensures cause { HasSecretCause self.old.faults self.new.faults result }
        ensures want { HasSecretWant self.old.wants self.new.wants result }
        ensures calls { MadeSecrets [] self.old.held self.new.held }
        ensures number { FailsByNumber SecretError.Failed self.old.failing.items self.old.calls self.new.calls result }
        ensures numbers { self.new.failing ≡ self.old.failing }
    {
        self.begin()?;
        Ok(self.held.share(epoch))
    }

    fn get_share_below(
        &mut self,
        _alloc: Global,
        epoch: Epoch,
    ) -> Result<Option<Share>, SecretError>
        ensures share { IfOk result (λ share. share ≡ newest_below (map.entries self.old.held.shares) epoch) }
        ensures same { self.new.held ≡ self.old.held }
        ensures cause { HasSecretCause self.old.faults self.new.faults result }
        ensures want { HasSecretWant self.old.wants self.new.wants result }
        ensures calls { MadeSecrets [] self.old.held self.new.held }
        ensures number { FailsByNumber SecretError.Failed self.old.failing.items self.old.calls self.new.calls result }
        ensures numbers { self.new.failing ≡ self.old.failing }
    {
        self.begin()?;
        Ok(self.held.share_below(epoch))
    }

    fn put_seed(&mut self, _alloc: Global, epoch: Epoch, seed: Seed) -> Result<(), SecretError>
        ensures done { OnOk result (self.new.held ≡ after (SecretOp.PutSeed epoch seed) self.old.held) }
        ensures crash { Tries (SecretOp.PutSeed epoch seed) self.old.held self.new.held }
        ensures memory { IsErrOf result SecretError.NoMemory → self.new.held ≡ self.old.held }
        ensures cause { HasSecretCause self.old.faults self.new.faults result }
        ensures want { HasSecretWant self.old.wants self.new.wants result }
        ensures calls { MadeSecrets (CallMade (SecretOp.PutSeed epoch seed) ∷ []) self.old.held self.new.held }
        // A failed call changes nothing.
        ensures kept { OnErr result (self.new.held ≡ self.old.held) }
        ensures number { FailsByNumber SecretError.Failed self.old.failing.items self.old.calls self.new.calls result }
        ensures numbers { self.new.failing ≡ self.old.failing }
    {
        self.change(&SecretOp::PutSeed { epoch, seed })
    }

    fn get_seed(&mut self, _alloc: Global, epoch: Epoch) -> Result<Option<Seed>, SecretError>
        ensures seed { IfOk result (λ seed. seed ≡ map.get self.old.held.seeds epoch) }
        ensures same { self.new.held ≡ self.old.held }
        ensures cause { HasSecretCause self.old.faults self.new.faults result }
        ensures want { HasSecretWant self.old.wants self.new.wants result }
        ensures calls { MadeSecrets [] self.old.held self.new.held }
        ensures number { FailsByNumber SecretError.Failed self.old.failing.items self.old.calls self.new.calls result }
        ensures numbers { self.new.failing ≡ self.old.failing }
    {
        self.begin()?;
        Ok(self.held.seed(epoch))
    }

    fn put_dealing(
        &mut self,
        _alloc: Global,
        epoch: Epoch,
        dealer: Key,
        private: Private,
    ) -> Result<(), SecretError>
        ensures done { OnOk result (self.new.held ≡ after (SecretOp.PutDealing epoch dealer private) self.old.held) }
        ensures crash { Tries (SecretOp.PutDealing epoch dealer private) self.old.held self.new.held }
        ensures memory { IsErrOf result SecretError.NoMemory → self.new.held ≡ self.old.held }
        ensures cause { HasSecretCause self.old.faults self.new.faults result }
        ensures want { HasSecretWant self.old.wants self.new.wants result }
        ensures calls { MadeSecrets (CallMade (SecretOp.PutDealing epoch dealer private) ∷ []) self.old.held self.new.held }
        // A failed call changes nothing.
        ensures kept { OnErr result (self.new.held ≡ self.old.held) }
        ensures number { FailsByNumber SecretError.Failed self.old.failing.items self.old.calls self.new.calls result }
        ensures numbers { self.new.failing ≡ self.old.failing }
    {
        self.change(&SecretOp::PutDealing {
            epoch,
            dealer,
            private,
        })
    }

    fn get_dealing(
        &mut self,
        _alloc: Global,
        epoch: Epoch,
        dealer: Key,
    ) -> Result<Option<Private>, SecretError>
        ensures private { IfOk result (λ private. private ≡ map.get self.old.held.privates (epoch, dealer)) }
        ensures same { self.new.held ≡ self.old.held }
        ensures cause { HasSecretCause self.old.faults self.new.faults result }
        ensures want { HasSecretWant self.old.wants self.new.wants result }
        ensures calls { MadeSecrets [] self.old.held self.new.held }
        ensures number { FailsByNumber SecretError.Failed self.old.failing.items self.old.calls self.new.calls result }
        ensures numbers { self.new.failing ≡ self.old.failing }
    {
        self.begin()?;
        Ok(self.held.private(epoch, dealer))
    }

    fn prune(&mut self, _alloc: Global, min: Epoch) -> Result<(), SecretError>
        ensures done { OnOk result (self.new.held ≡ after (SecretOp.Prune min) self.old.held) }
        ensures crash { Tries (SecretOp.Prune min) self.old.held self.new.held }
        ensures memory { IsErrOf result SecretError.NoMemory → self.new.held ≡ self.old.held }
        ensures cause { HasSecretCause self.old.faults self.new.faults result }
        ensures want { HasSecretWant self.old.wants self.new.wants result }
        ensures calls { MadeSecrets (CallMade (SecretOp.Prune min) ∷ []) self.old.held self.new.held }
        // A failed call changes nothing.
        ensures kept { OnErr result (self.new.held ≡ self.old.held) }
        ensures number { FailsByNumber SecretError.Failed self.old.failing.items self.old.calls self.new.calls result }
        ensures numbers { self.new.failing ≡ self.old.failing }
    {
        self.change(&SecretOp::Prune { min })
    }

    fn cut(&mut self, alloc: Global, op: &SecretOp, pick: u64) -> Mem<()>
        ensures crash { Tries op.now self.old.held self.new.held }
        ensures memory { OnErr result (self.new.held ≡ self.old.held) }
        ensures cause { self.new.faults ≡ self.old.faults }
        ensures later { self.old.wants ≤ self.new.wants }
        ensures wanted { OnErr result (Rose self.old.wants self.new.wants) }
        ensures calls { MadeSecrets (CutIn op.now pick ∷ []) self.old.held self.new.held }
        // A put is done where the pick is even; of the keys that a prune is to take, those go at whose indexes the bits are 0.
        ensures picked { OnOk result (self.new.held ≡ after_cut op.now pick self.old.held) }
        ensures uncounted { self.new.calls ≡ self.old.calls }
        ensures numbers { self.new.failing ≡ self.old.failing }
    {
        if self.held.cut(alloc, op, pick).is_err() {
            self.wants = self.wants.saturating_add(1);
            return Err(NoMemory);
        }
        Ok(())
    }

    fn crash(&mut self, pick: u64)
        ensures same { self.new.held ≡ self.old.held }
        ensures cause { self.new.faults ≡ self.old.faults }
        ensures later { self.old.wants ≤ self.new.wants }
        ensures calls { MadeSecrets (Crashes pick ∷ []) self.old.held self.new.held }
        ensures uncounted { self.new.calls ≡ self.old.calls }
        ensures numbers { self.new.failing ≡ self.old.failing }
    {}

    ghost use Rattle.std.proofs.Common.{refl};

    ghost made_none = { λ _. refl };

    ghost made_more = { λ a b c xs ys. secrets_made_both xs ys a.held b.held c.held };
}
