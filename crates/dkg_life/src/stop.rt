//! Why a call of the actor did not end.
ghost use Rattle.std.specs.Prelude.{◌≡◌};
ghost use Rattle.dkg_infos.specs.declared.fault.Fault.TheVariants.{NoMemory as OutOfMemory};
ghost use Rattle.dkg_life.specs.Ends.{stop_of};
ghost use Rattle.dkg_life.specs.declared.stop.Stop.TheVariants.{Fault as Faulted};

use dkg_infos::Fault;
use dkg_store::StoreError;
use dkg_values::NoMemory;

/// Why a call did not end.
#[derive(Debug, Drop)]
pub enum Stop {
    Fault(Fault),
    /// The fuse cut a call of a device.
    Cut,
    /// A call before ended in a fault or a cut.
    Failed,
}

impl From<StoreError> for Stop {
    ghost from_gives = { λ error stop. stop ≡ stop_of error };

    fn from(error: StoreError) -> Stop {
        match error {
            StoreError::Disk => Stop::Fault(Fault::Disk),
            StoreError::Secrets => Stop::Fault(Fault::Secrets),
            StoreError::Corrupt { name, place } => Stop::Fault(Fault::Corrupt { name, place }),
            StoreError::LocalState(cause) => Stop::Fault(Fault::LocalState(cause)),
            StoreError::StateSyncEpochs { info, floor } => {
                Stop::Fault(Fault::StateSyncEpochs { info, floor })
            }
            StoreError::StateSyncMaterial => Stop::Fault(Fault::StateSyncMaterial),
            StoreError::Cut => Stop::Cut,
            StoreError::NoMemory => Stop::Fault(Fault::NoMemory),
        }
    }
}

impl From<NoMemory> for Stop {
    ghost from_gives = { λ _ stop. stop ≡ Faulted OutOfMemory };

    fn from(_: NoMemory) -> Stop {
        Stop::Fault(Fault::NoMemory)
    }
}

impl From<Fault> for Stop {
    ghost from_gives = { λ fault stop. stop ≡ Faulted fault };

    fn from(fault: Fault) -> Stop {
        Stop::Fault(fault)
    }
}
