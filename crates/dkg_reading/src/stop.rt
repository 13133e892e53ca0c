//! Why reading stopped: a line that is not allowed, or want of memory.
ghost use Rattle.std.specs.Prelude.{◌≡◌};
ghost use Rattle.dkg_reading.specs.declared.stop.Stop.TheVariants.{NoMemory as OutOfMemory};

use dkg_ceremony::NoMemory;
use std::alloc::AllocFailed;

/// Why the readers of lines stop.
#[derive(Clone, Copy, Debug)]
pub(crate) enum Stop {
    /// A line is not allowed; so many bytes are left from its first one on.
    Line(usize),
    NoMemory,
}

impl From<NoMemory> for Stop {
    ghost from_gives = { λ _ e. e ≡ OutOfMemory };

    fn from(_e: NoMemory) -> Stop {
        Stop::NoMemory
    }
}

impl<T: Drop> From<AllocFailed<T>> for Stop {
    ghost from_gives = { λ _ e. e ≡ OutOfMemory };

    fn from(_e: AllocFailed<T>) -> Stop {
        Stop::NoMemory
    }
}
