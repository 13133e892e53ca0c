//! Want of memory as an answer: no call aborts for it.
ghost use Rattle.std.specs.Prelude.{◌≡◌};
ghost use Rattle.dkg_values.specs.declared.memory.NoMemory.{NoMemory};

use std::alloc::{AllocError, AllocFailed};
use thiserror::Error;

/// Memory ran out. What the call was to change is as before, unless the call says otherwise.
#[derive(Clone, Copy, Debug, PartialEq, Eq, Error)]
#[error("out of memory")]
pub struct NoMemory;

/// An answer that may be want of memory.
pub type Mem<T> = Result<T, NoMemory>;

impl From<AllocError> for NoMemory {
    fn from(_e: AllocError) -> NoMemory {
        NoMemory
    }
}

impl<T: Drop> From<AllocFailed<T>> for NoMemory {
    fn from(_e: AllocFailed<T>) -> NoMemory {
        NoMemory
    }
}
