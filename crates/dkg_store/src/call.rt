//! The changing calls of a secret store: each is counted by the fuse that counts those of the disk, and may be cut.
//!
//! The store makes all its changing calls of secrets through `perform_secret`.
ghost use Rattle.std.specs.Prelude.{◌≡◌, ◌⊎◌, ◌≤◌, [], ◌∷◌, OnOk, IsErrOf, IsTrue, IfErr};
ghost use Rattle.dkg_journal.specs.DeviceCall.{CallMade};
ghost use Rattle.dkg_journal.specs.Disk.{Rose};
ghost use Rattle.dkg_journal.specs.Fuse.{calls_in, spent_once, Reached};
ghost use Rattle.dkg_store.specs.Acts.{EndsBy};
ghost use Rattle.dkg_store.specs.Calls.{cause_of};
ghost use Rattle.dkg_store.specs.Called.{ErrorIsDue};
ghost use Rattle.dkg_store.specs.Errors.{store_error_of};
ghost use Rattle.dkg_store.specs.declared.call.StoreError.TheVariants.{NoMemory as WantOfMemory};
ghost use Rattle.dkg_secrets.specs.Secrets.{Tries, HasSecretCause, HasSecretWant, after};

use dkg_infos::LocalCause;
use dkg_journal::{Fuse, JournalError};
use dkg_secrets::{SecretError, SecretOp, SecretStore};
use dkg_values::{Epoch, Name, NoMemory};
use std::alloc::{AllocError, AllocFailed, Global};
use thiserror::Error;

/// Why a call of the store did not end.
#[derive(Debug, Drop, Error)]
pub enum StoreError {
    /// A call of the disk failed.
    #[error("a call of the disk failed")]
    Disk,
    /// A call of the secret store failed.
    #[error("a call of the secret store failed")]
    Secrets,
    /// The record whose gate stands at this place is not whole, or no event within the limit.
    #[error("the record at byte {place} of the file {name:?} is no event")]
    Corrupt { name: Name, place: u64 },
    /// What this node keeps does not fit what it is to go on with.
    #[error("what this node keeps does not fit: {0:?}")]
    LocalState(LocalCause),
    /// Start material names two epochs.
    #[error("the start material names the epochs {info:?} and {floor:?}")]
    StateSyncEpochs { info: Epoch, floor: Epoch },
    /// Start material is not within the limits.
    #[error("the start material is not within the limits")]
    StateSyncMaterial,
    /// The fuse cut a call: the step ends.
    #[error("cut")]
    Cut,
    #[error("out of memory")]
    NoMemory,
}

/// What an error of the journal is to the store, whose bodies are never too long.
pub(crate) fn of_journal(error: JournalError) -> StoreError
    requires { error ≡ JournalError.TooLong → ⊥ }
    ensures { result ≡ store_error_of error }
{
    match error {
        JournalError::Disk => StoreError::Disk,
        JournalError::Corrupt { name, place } => StoreError::Corrupt { name, place },
        JournalError::TooLong => unreachable!(),
        JournalError::Cut => StoreError::Cut,
        JournalError::NoMemory => StoreError::NoMemory,
    }
}

impl From<AllocError> for StoreError {
    ghost from_gives = { λ _ e. e ≡ WantOfMemory };

    fn from(_: AllocError) -> StoreError {
        StoreError::NoMemory
    }
}

impl From<NoMemory> for StoreError {
    ghost from_gives = { λ _ e. e ≡ WantOfMemory };

    fn from(_: NoMemory) -> StoreError {
        StoreError::NoMemory
    }
}

impl<T: Drop> From<AllocFailed<T>> for StoreError {
    ghost from_gives = { λ _ e. e ≡ WantOfMemory };

    fn from(_: AllocFailed<T>) -> StoreError {
        StoreError::NoMemory
    }
}

fn made_call<X: SecretStore>(
    alloc: Global,
    secrets: &mut X,
    op: &SecretOp,
) -> Result<(), SecretError>
    ensures done { OnOk result (IsTrue X.tells → X.held secrets.new ≡ after op.now (X.held secrets.old)) }
    ensures crash { Tries op.now (X.held secrets.old) (X.held secrets.new) }
    ensures memory { IsErrOf result SecretError.NoMemory → X.held secrets.new ≡ X.held secrets.old }
    ensures cause { HasSecretCause (X.faults secrets.old) (X.faults secrets.new) result }
    ensures want { HasSecretWant (X.wants secrets.old) (X.wants secrets.new) result }
    ensures calls { X.made secrets.old secrets.new (CallMade op.now ∷ []) }
{
    match *op {
        SecretOp::PutShare { epoch, share } => secrets.put_share(alloc, epoch, share),
        SecretOp::PutSeed { epoch, seed } => secrets.put_seed(alloc, epoch, seed),
        SecretOp::PutDealing {
            epoch,
            dealer,
            private,
        } => secrets.put_dealing(alloc, epoch, dealer, private),
        SecretOp::Prune { min } => secrets.prune(alloc, min),
    }
}

/// Makes the call, or begins it and stops in it where the fuse says so.
pub fn perform_secret<X: SecretStore>(
    alloc: Global,
    secrets: &mut X,
    fuse: &mut Fuse,
    op: &SecretOp,
) -> Result<(), StoreError>
    ensures done { OnOk result (IsTrue X.tells → X.held secrets.new ≡ after op.now (X.held secrets.old)) }
    ensures crash { Tries op.now (X.held secrets.old) (X.held secrets.new) }
    // Want of memory changes nothing.
    ensures due { IfErr result (λ e. ErrorIsDue e ⊥ (Rose (X.faults secrets.old) (X.faults secrets.new)) (Reached fuse.old fuse.new)
        (Rose (X.wants secrets.old) (X.wants secrets.new) × (X.held secrets.new ≡ X.held secrets.old))) }
    ensures later { X.faults secrets.old ≤ X.faults secrets.new }
    ensures later_wants { X.wants secrets.old ≤ X.wants secrets.new }
    // It was made, or cut where the fuse says so.
    ensures calls { X.made secrets.old secrets.new (calls_in fuse.old (op.now ∷ [])) }
    ensures counted { fuse.new ≡ spent_once fuse.old }
    ensures not_cut { OnOk result (Reached fuse.old fuse.new → ⊥) }
    ensures reached { Reached fuse.old fuse.new → IsErrOf result StoreError.Cut ⊎ IsErrOf result StoreError.NoMemory }
    // A cut is where the fuse says, and no failure is.
    ensures ends { IfErr result (λ e. EndsBy (cause_of e) fuse.old fuse.new) }
{
    if let Some(pick) = fuse.spend() {
        return match secrets.cut(alloc, op, pick) {
            Ok(()) => Err(StoreError::Cut),
            Err(NoMemory) => Err(StoreError::NoMemory),
        };
    }
    match made_call(alloc, secrets, op) {
        Ok(()) => Ok(()),
        Err(SecretError::Failed) => Err(StoreError::Secrets),
        Err(SecretError::NoMemory) => Err(StoreError::NoMemory),
    }
}
