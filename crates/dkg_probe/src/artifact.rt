//! Where a probe begins, and what it finds.
ghost use Rattle.std.specs.Prelude.{◌≡◌, ◌↔◌, IfOk, IsTrue};

use dkg_ceremony::{Epoch, Mem, Value};
use dkg_infos::{Directory, EpochInfo, Participants};
use dkg_types::Finalization;
use std::alloc::Global;

/// The checkpoint that a joining node is configured with: an epoch's whole participants and their directory.
///
/// All of the participants are needed: fewer dealers would give a threshold that is too low, which nothing can show.
#[derive(Drop)]
pub struct Bootstrap<Dir> {
    pub epoch: Epoch,
    pub participants: Participants,
    pub directory: Dir,
}

/// What a joining node starts from.
#[derive(Drop)]
pub struct Artifact<Dir> {
    /// The finalization of the block that carries `info`. There is none for epoch zero, whose info is that of genesis.
    pub finalization: Option<Finalization>,
    /// The description of the epoch of `floor`.
    pub info: EpochInfo<Dir>,
    /// The finalization to sync the state from.
    pub floor: Finalization,
}

impl<Dir: Directory + Drop> Value for Bootstrap<Dir> {
    fn copy(&self, alloc: Global) -> Mem<Bootstrap<Dir>> {
        Ok(Bootstrap {
            epoch: self.epoch,
            participants: self.participants.copy(alloc)?,
            directory: self.directory.copy(alloc)?,
        })
    }

    fn same(&self, other: &Bootstrap<Dir>) -> bool {
        self.epoch == other.epoch
            && self.participants.same(&other.participants)
            && self.directory.same(&other.directory)
    }
}

impl<Dir: Directory + Drop> Value for Artifact<Dir> {
    fn copy(&self, alloc: Global) -> Mem<Artifact<Dir>> {
        Ok(Artifact {
            finalization: self.finalization,
            info: self.info.copy(alloc)?,
            floor: self.floor,
        })
    }

    fn same(&self, other: &Artifact<Dir>) -> bool {
        self.finalization == other.finalization
            && self.info.same(&other.info)
            && self.floor == other.floor
    }
}
