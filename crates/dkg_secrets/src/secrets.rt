//! Secret stores: what one holds by kind, epoch and dealer, and how often it has failed.
//!
//! A node keeps its shares, its seeds and the private halves of dealings in one, apart from its disk. The store above makes all
//! changing calls through `perform_secret`.
ghost use Rattle.std.specs.Prelude.{◌≡◌, ◌≤◌, ◌++◌, [], ◌∷◌, List, ℕ, IfOk, OnOk, OnErr, IsErrOf, IsTrue, Bool};
ghost use Rattle.std.specs.FinMap as map;
ghost use Rattle.dkg_journal.specs.DeviceCall.{DeviceCall, CallMade, CutIn, Crashes};
ghost use Rattle.dkg_journal.specs.Disk.{Rose};
ghost use Rattle.dkg_secrets.specs.Secrets.{Secrets, Tries, HasSecretCause, HasSecretWant, after, newest_below};
ghost use Rattle.dkg_secrets.specs.declared.secrets.SecretOp.{SecretOp};

use dkg_ceremony::{Private, Share};
use dkg_values::{Epoch, Key, Mem, Seed};
use std::alloc::Global;
use thiserror::Error;

/// Why a call of a secret store did not end.
#[derive(Clone, Copy, Debug, PartialEq, Eq, Error)]
pub enum SecretError {
    #[error("the secret store failed")]
    Failed,
    #[error("out of memory")]
    NoMemory,
}

/// A call that changes a secret store.
#[derive(Clone, Copy, Debug, PartialEq, Eq)]
pub enum SecretOp {
    PutShare {
        epoch: Epoch,
        share: Share,
    },
    PutSeed {
        epoch: Epoch,
        seed: Seed,
    },
    PutDealing {
        epoch: Epoch,
        dealer: Key,
        private: Private,
    },
    Prune {
        min: Epoch,
    },
}

/// Shares, seeds and the private halves of dealings.
///
/// A put is durable at Ok. A put that failed or was cut leaves what was there or what was put, a prune that failed or was cut
/// may leave some of what is below its minimum. A crash between two calls changes nothing, and so does a call that wanted
/// memory.
pub trait SecretStore {
    /// Whether the type tells what its stores hold.
    ghost tells: { Bool };

    /// What a read gives, and what a crash leaves.
    ghost held: { Self → Secrets };

    /// How often the store has failed.
    ghost faults: { Self → ℕ };

    /// How often the store itself wanted memory.
    ghost wants: { Self → ℕ };

    /// The second store is the first after these changing calls, cuts and crashes, and no others.
    ghost made: { Self → Self → List (DeviceCall SecretOp) → Type 0 };

    fn put_share(&mut self, alloc: Global, epoch: Epoch, share: Share) -> Result<(), SecretError>
        ensures done { OnOk result (IsTrue tells → held self.new ≡ after (SecretOp.PutShare epoch share) (held self.old)) }
        ensures crash { Tries (SecretOp.PutShare epoch share) (held self.old) (held self.new) }
        ensures memory { IsErrOf result SecretError.NoMemory → held self.new ≡ held self.old }
        ensures cause { HasSecretCause (faults self.old) (faults self.new) result }
        ensures want { HasSecretWant (wants self.old) (wants self.new) result }
        ensures calls { made self.old self.new (CallMade (SecretOp.PutShare epoch share) ∷ []) };

    fn get_share(&mut self, alloc: Global, epoch: Epoch) -> Result<Option<Share>, SecretError>
        ensures share { IfOk result (λ share. IsTrue tells → share ≡ map.get (held self.old).shares epoch) }
        ensures same { held self.new ≡ held self.old }
        ensures cause { HasSecretCause (faults self.old) (faults self.new) result }
        ensures want { HasSecretWant (wants self.old) (wants self.new) result }
        ensures calls { made self.old self.new [] };

    /// The newest share of an epoch below this one, if there is one.
    ///
    /// It asks for each epoch, the highest first. A store that finds its newest share sooner has a body of its own.
    fn get_share_below(&mut self, alloc: Global, epoch: Epoch) -> Result<Option<Share>, SecretError>
        ensures share { IfOk result (λ share. IsTrue tells → share ≡ newest_below (map.entries (held self.old).shares) epoch) }
        ensures same { held self.new ≡ held self.old }
        ensures cause { HasSecretCause (faults self.old) (faults self.new) result }
        ensures want { HasSecretWant (wants self.old) (wants self.new) result }
        ensures calls { made self.old self.new [] }
    {
        for below in (0..epoch.0).rev() {
            if let Some(share) = self.get_share(alloc, Epoch(below))? {
                return Ok(Some(share));
            }
        }
        Ok(None)
    }

    fn put_seed(&mut self, alloc: Global, epoch: Epoch, seed: Seed) -> Result<(), SecretError>
        ensures done { OnOk result (IsTrue tells → held self.new ≡ after (SecretOp.PutSeed epoch seed) (held self.old)) }
        ensures crash { Tries (SecretOp.PutSeed epoch seed) (held self.old) (held self.new) }
        ensures memory { IsErrOf result SecretError.NoMemory → held self.new ≡ held self.old }
        ensures cause { HasSecretCause (faults self.old) (faults self.new) result }
        ensures want { HasSecretWant (wants self.old) (wants self.new) result }
        ensures calls { made self.old self.new (CallMade (SecretOp.PutSeed epoch seed) ∷ []) };

    fn get_seed(&mut self, alloc: Global, epoch: Epoch) -> Result<Option<Seed>, SecretError>
        ensures seed { IfOk result (λ seed. IsTrue tells → seed ≡ map.get (held self.old).seeds epoch) }
        ensures same { held self.new ≡ held self.old }
        ensures cause { HasSecretCause (faults self.old) (faults self.new) result }
        ensures want { HasSecretWant (wants self.old) (wants self.new) result }
        ensures calls { made self.old self.new [] };

    fn put_dealing(
        &mut self,
        alloc: Global,
        epoch: Epoch,
        dealer: Key,
        private: Private,
    ) -> Result<(), SecretError>
        ensures done { OnOk result (IsTrue tells → held self.new ≡ after (SecretOp.PutDealing epoch dealer private) (held self.old)) }
        ensures crash { Tries (SecretOp.PutDealing epoch dealer private) (held self.old) (held self.new) }
        ensures memory { IsErrOf result SecretError.NoMemory → held self.new ≡ held self.old }
        ensures cause { HasSecretCause (faults self.old) (faults self.new) result }
        ensures want { HasSecretWant (wants self.old) (wants self.new) result }
        ensures calls { made self.old self.new (CallMade (SecretOp.PutDealing epoch dealer private) ∷ []) };

    fn get_dealing(
        &mut self,
        alloc: Global,
        epoch: Epoch,
        dealer: Key,
    ) -> Result<Option<Private>, SecretError>
        ensures private { IfOk result (λ private. IsTrue tells → private ≡ map.get (held self.old).privates (epoch, dealer)) }
        ensures same { held self.new ≡ held self.old }
        ensures cause { HasSecretCause (faults self.old) (faults self.new) result }
        ensures want { HasSecretWant (wants self.old) (wants self.new) result }
        ensures calls { made self.old self.new [] };

    /// Takes all below the minimum away. A prune that failed or was cut may leave some of it.
    fn prune(&mut self, alloc: Global, min: Epoch) -> Result<(), SecretError>
        ensures done { OnOk result (IsTrue tells → held self.new ≡ after (SecretOp.Prune min) (held self.old)) }
        ensures crash { Tries (SecretOp.Prune min) (held self.old) (held self.new) }
        ensures memory { IsErrOf result SecretError.NoMemory → held self.new ≡ held self.old }
        ensures cause { HasSecretCause (faults self.old) (faults self.new) result }
        ensures want { HasSecretWant (wants self.old) (wants self.new) result }
        ensures calls { made self.old self.new (CallMade (SecretOp.Prune min) ∷ []) };

    /// Begins the call and stops in it.
    fn cut(&mut self, alloc: Global, op: &SecretOp, pick: u64) -> Mem<()>
        ensures crash { Tries op.now (held self.old) (held self.new) }
        ensures memory { OnErr result (held self.new ≡ held self.old) }
        ensures cause { faults self.new ≡ faults self.old }
        ensures later { wants self.old ≤ wants self.new }
        ensures wanted { OnErr result (Rose (wants self.old) (wants self.new)) }
        ensures calls { made self.old self.new (CutIn op.now pick ∷ []) };

    /// Stops between two calls.
    fn crash(&mut self, pick: u64)
        ensures same { held self.new ≡ held self.old }
        ensures cause { faults self.new ≡ faults self.old }
        ensures later { wants self.old ≤ wants self.new }
        ensures calls { made self.old self.new (Crashes pick ∷ []) };

    /// No calls, and some calls after others.
    ghost made_none: { (a : Self) → made a a [] };

    ghost made_more: { (a b c : Self) (xs ys : List (DeviceCall SecretOp)) → made a b xs → made b c ys → made a c (xs ++ ys) };
}
