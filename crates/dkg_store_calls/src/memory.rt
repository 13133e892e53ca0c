//! Devices in memory, and a store over any.
ghost use Rattle.std.specs.Prelude.{IfOk, IsTrue};
ghost use Rattle.dkg_journal.specs.Journals.{IsOpen};

use dkg_journal::{Disk, Fuse, MemoryDisk};
use dkg_store::{Devices, MemorySecrets, SecretStore, Store, StoreError};
use std::alloc::Global;
use std::num::NonZeroU32;
use std::test::Fail;

/// A disk and secrets in memory.
#[derive(Drop)]
pub(crate) struct Memory {
    disk: MemoryDisk,
    secrets: MemorySecrets,
}

impl Memory {
    pub(crate) fn new(alloc: Global) -> Memory {
        Memory {
            disk: MemoryDisk::new(alloc),
            secrets: MemorySecrets::new(alloc),
        }
    }

    /// Of the secrets these calls fail.
    pub(crate) fn failing(alloc: Global, calls: Vec<u64>) -> Memory {
        Memory {
            disk: MemoryDisk::new(alloc),
            secrets: MemorySecrets::failing(alloc, calls),
        }
    }

    pub(crate) fn devices(&mut self) -> Devices<'_, MemoryDisk, MemorySecrets> {
        Devices {
            disk: &mut self.disk,
            secrets: &mut self.secrets,
            fuse: Fuse::never(),
        }
    }
}

/// A store over any devices, of at most four participants.
pub(crate) fn opened<D: Disk, X: SecretStore, Dir: Drop>(
    alloc: Global,
    devices: &mut Devices<'_, D, X>,
) -> Result<Store<Dir>, Fail>
    ensures open { IfOk result (λ store. IsTrue D.tells → IsOpen store.journal (D.files devices.new.disk.now) (D.image devices.new.disk.now)) }
{
    let limit = NonZeroU32::new(4).ok_or("no limit")?;
    Ok(opened_for(alloc, devices, limit)?)
}

/// That of so many participants.
fn opened_for<D: Disk, X: SecretStore, Dir: Drop>(
    alloc: Global,
    devices: &mut Devices<'_, D, X>,
    limit: NonZeroU32,
) -> Result<Store<Dir>, StoreError>
    ensures open { IfOk result (λ store. IsTrue D.tells → IsOpen store.journal (D.files devices.new.disk.now) (D.image devices.new.disk.now)) }
{
    let store = Store::init(alloc, devices, limit)?;
    Ok(store)
}
