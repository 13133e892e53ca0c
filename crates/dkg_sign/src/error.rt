//! Why a desk does not do what it is asked.
ghost use Rattle.dkg_sign.specs.declared.error.DeskError.TheVariants.{NoMemory as DeskWant};
ghost use Rattle.dkg_sign.specs.declared.error.CombineError.TheVariants.{NoMemory as CombineWant};
ghost use Rattle.dkg_sign.specs.Errors.{desk_error_of};
ghost use Rattle.std.specs.Prelude.{◌≡◌};

use dkg_journal::JournalError;
use dkg_values::{Epoch, NoMemory};
use std::alloc::{AllocError, AllocFailed};
use thiserror::Error;

/// Why a desk is not opened, or material is not registered.
#[derive(Clone, Copy, Debug, PartialEq, Eq, Error)]
pub enum DeskError {
    /// A later epoch was registered, in this life or an earlier one.
    #[error("the epoch {asked:?} was replaced by {current:?}")]
    Replaced { asked: Epoch, current: Epoch },
    /// Other material of this epoch was registered in this life.
    #[error("other material of the epoch {epoch:?} is held")]
    Conflict { epoch: Epoch },
    /// The material is not this node's, or not of one output.
    #[error("the material of the epoch {epoch:?} is not this node's")]
    Foreign { epoch: Epoch },
    /// A call of the disk failed.
    #[error("a call of the disk failed")]
    Disk,
    /// The desk's record is not one whole epoch. The place is 0, where the record begins.
    #[error("the desk's record is no epoch")]
    Corrupt { place: u64 },
    /// The fuse cut a call of the disk.
    #[error("cut")]
    Cut,
    #[error("out of memory")]
    NoMemory,
}

/// Why nothing is signed.
#[derive(Clone, Copy, Debug, PartialEq, Eq, Error)]
pub enum SignError {
    /// A later epoch was registered, in this life or an earlier one.
    #[error("the epoch {asked:?} was replaced by {current:?}")]
    Replaced { asked: Epoch, current: Epoch },
    /// No material of the epoch is held in this life.
    #[error("no material of the epoch {epoch:?} is held")]
    Unknown { epoch: Epoch },
    /// This node is a participant without a share.
    #[error("no share of the epoch {epoch:?} is held")]
    NoShare { epoch: Epoch },
    /// It never comes: to sign takes no memory.
    #[error("out of memory")]
    NoMemory,
}

/// Why partials make no signature.
#[derive(Clone, Copy, Debug, PartialEq, Eq, Error)]
pub enum CombineError {
    /// No material of the epoch is held in this life.
    #[error("no material of the epoch {epoch:?} is held")]
    Unknown { epoch: Epoch },
    /// The partial at this index, from 0, is of another epoch, of no participant, or has another value than its signer's share gives.
    #[error("the partial at {index} is not valid")]
    Invalid { index: u32 },
    /// The signer of the partial at this index, from 0, has one before it.
    #[error("the signer of the partial at {index} has one before it")]
    Doubled { index: u32 },
    /// Fewer partials than a quorum of the participants.
    #[error("{got} partials, where {need} are needed")]
    Few { got: u32, need: u32 },
    #[error("out of memory")]
    NoMemory,
}

impl From<JournalError> for DeskError {
    ghost from_gives = { λ of_journal of_desk. of_desk ≡ desk_error_of of_journal };

    fn from(error: JournalError) -> DeskError {
        match error {
            JournalError::Disk => DeskError::Disk,
            JournalError::Corrupt { place, .. } => DeskError::Corrupt { place },
            JournalError::TooLong => DeskError::Corrupt { place: 0 },
            JournalError::Cut => DeskError::Cut,
            JournalError::NoMemory => DeskError::NoMemory,
        }
    }
}

impl From<NoMemory> for DeskError {
    ghost from_gives = { λ _ e. e ≡ DeskWant };

    fn from(_: NoMemory) -> DeskError {
        DeskError::NoMemory
    }
}

impl From<AllocError> for CombineError {
    ghost from_gives = { λ _ e. e ≡ CombineWant };

    fn from(_: AllocError) -> CombineError {
        CombineError::NoMemory
    }
}

impl<T: Drop> From<AllocFailed<T>> for CombineError {
    ghost from_gives = { λ _ e. e ≡ CombineWant };

    fn from(_: AllocFailed<T>) -> CombineError {
        CombineError::NoMemory
    }
}
