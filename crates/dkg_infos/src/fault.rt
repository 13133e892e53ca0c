//! Why a node stops. Setup and the steps answer these, and the top call prints them by number.
ghost use Rattle.std.specs.Prelude.{◌≡◌};
ghost use Rattle.dkg_infos.specs.Faults.{fault_number};
ghost use Rattle.dkg_infos.specs.declared.fault.Fault.TheVariants.{NoMemory as OutOfMemory};

use crate::boxed_public::BoxedPublic;
use crate::participants::ParticipantsError;
use dkg_ceremony::{Epoch, Height, Key, Mem, Name, NoMemory, RoundError, Value};
use std::alloc::Global;
use thiserror::Error;

/// What is wrong with a configuration.
#[derive(Clone, Copy, Debug, PartialEq, Eq, Error)]
pub enum ConfigCause {
    #[error("the sharing mode is not supported")]
    Mode,
    #[error("a reshare needs more than one block an epoch")]
    OneBlock,
    #[error("the one-shot set is empty")]
    OneShotEmpty,
    #[error("the one-shot set is without this node")]
    OneShotWithout,
}

/// Why an epoch's participants are refused.
#[derive(Clone, Copy, Debug, PartialEq, Eq, Error)]
pub enum ParticipantsCause {
    #[error("{0}")]
    Refused(ParticipantsError),
    #[error("the provider's set is empty")]
    ProviderEmpty,
    #[error("the provider's set has {actual} keys, where {max} is the limit")]
    ProviderAbove { actual: u32, max: u32 },
    #[error("no round: {0}")]
    Round(RoundError),
}

/// What a node's own state contradicts.
#[derive(Debug, Drop, Error)]
pub enum LocalCause {
    #[error("the stored dealing of dealer {} for epoch {} is refused", .dealer.0, .epoch.0)]
    StoredDealing {
        epoch: Epoch,
        dealer: Key,
    },
    #[error("the held share of epoch {} is refused", .epoch.0)]
    ShareRefused {
        epoch: Epoch,
    },
    #[error("the player keeps another dealing of this node for epoch {}", .epoch.0)]
    OwnDealing {
        epoch: Epoch,
        kept: BoxedPublic,
        dealt: BoxedPublic,
    },
    #[error("the ceremony succeeded and gave this node no share")]
    NoShare,
    #[error("the final block omits the outcome")]
    OutcomeOmitted,
}

impl Value for LocalCause {
    fn copy(&self, alloc: Global) -> Mem<LocalCause> {
        match self {
            LocalCause::StoredDealing { epoch, dealer } => Ok(LocalCause::StoredDealing {
                epoch: *epoch,
                dealer: *dealer,
            }),
            LocalCause::ShareRefused { epoch } => Ok(LocalCause::ShareRefused { epoch: *epoch }),
            LocalCause::OwnDealing { epoch, kept, dealt } => Ok(LocalCause::OwnDealing {
                epoch: *epoch,
                kept: kept.copy(alloc)?,
                dealt: dealt.copy(alloc)?,
            }),
            LocalCause::NoShare => Ok(LocalCause::NoShare),
            LocalCause::OutcomeOmitted => Ok(LocalCause::OutcomeOmitted),
        }
    }

    fn same(&self, other: &LocalCause) -> bool {
        match (self, other) {
            (
                LocalCause::StoredDealing { epoch, dealer },
                LocalCause::StoredDealing {
                    epoch: its_epoch,
                    dealer: its_dealer,
                },
            ) => *epoch == *its_epoch && *dealer == *its_dealer,
            (LocalCause::ShareRefused { epoch }, LocalCause::ShareRefused { epoch: its_epoch }) =>
                *epoch == *its_epoch,
            (
                LocalCause::OwnDealing { epoch, kept, dealt },
                LocalCause::OwnDealing {
                    epoch: its_epoch,
                    kept: its_kept,
                    dealt: its_dealt,
                },
            ) => *epoch == *its_epoch && kept.same(its_kept) && dealt.same(its_dealt),
            (LocalCause::NoShare, LocalCause::NoShare)
            | (LocalCause::OutcomeOmitted, LocalCause::OutcomeOmitted) => true,
            _ => false,
        }
    }
}

/// Why a node stops, in the order of the numbers, from 1.
#[derive(Debug, Drop, Error)]
pub enum Fault {
    #[error("out of memory")]
    NoMemory,
    #[error("the disk failed")]
    Disk,
    #[error("the secret store failed")]
    Secrets,
    #[error("no record in its grammar at {place} of {name:?}")]
    Corrupt { name: Name, place: u64 },
    #[error("{0}")]
    InvalidConfig(ConfigCause),
    #[error("the material's info is of epoch {}, its floor of epoch {}", .info.0, .floor.0)]
    StateSyncEpochs { info: Epoch, floor: Epoch },
    #[error("the material is refused under the limits")]
    StateSyncMaterial,
    #[error("another block at the tip's height {}", .height.0)]
    ConflictingBlock { height: Height },
    #[error("the block at height {} has another parent than the tip", .height.0)]
    DetachedBlock { height: Height },
    #[error("a block at height {}, where height {} is awaited", .got.0, .awaited.0)]
    SkippedHeight { awaited: Height, got: Height },
    #[error("the block at height {} is outside the awaited window", .height.0)]
    OutOfWindow { height: Height },
    #[error("a height or an epoch passes 64 bits")]
    HeightRange,
    #[error("the block at height {} carries no info", .height.0)]
    MissingEpochInfo { height: Height },
    #[error("an info of epoch {}, where epoch {} is expected", .got.0, .expected.0)]
    WrongEpoch { expected: Epoch, got: Epoch },
    #[error("{0}")]
    InvalidParticipants(ParticipantsCause),
    #[error("the directory of epoch {} does not match its peers", .epoch.0)]
    DirectoryMismatch { epoch: Epoch },
    #[error("{0}")]
    LocalState(LocalCause),
    #[error("the final block is not held")]
    FinalBlockMissing,
    #[error("the floor's block is not held")]
    FloorBlockMissing,
}

impl Fault {
    /// The number by which a fault is printed, from 1 to 19.
    pub fn number(&self) -> u8
        ensures { result ≡ fault_number self.now }
    {
        match self {
            Fault::NoMemory => 1,
            Fault::Disk => 2,
            Fault::Secrets => 3,
            Fault::Corrupt { .. } => 4,
            Fault::InvalidConfig(_) => 5,
            Fault::StateSyncEpochs { .. } => 6,
            Fault::StateSyncMaterial => 7,
            Fault::ConflictingBlock { .. } => 8,
            Fault::DetachedBlock { .. } => 9,
            Fault::SkippedHeight { .. } => 10,
            Fault::OutOfWindow { .. } => 11,
            Fault::HeightRange => 12,
            Fault::MissingEpochInfo { .. } => 13,
            Fault::WrongEpoch { .. } => 14,
            Fault::InvalidParticipants(_) => 15,
            Fault::DirectoryMismatch { .. } => 16,
            Fault::LocalState(_) => 17,
            Fault::FinalBlockMissing => 18,
            Fault::FloorBlockMissing => 19,
        }
    }
}

impl Value for Fault {
    fn copy(&self, alloc: Global) -> Mem<Fault> {
        match self {
            Fault::NoMemory => Ok(Fault::NoMemory),
            Fault::Disk => Ok(Fault::Disk),
            Fault::Secrets => Ok(Fault::Secrets),
            Fault::Corrupt { name, place } => Ok(Fault::Corrupt {
                name: *name,
                place: *place,
            }),
            Fault::InvalidConfig(cause) => Ok(Fault::InvalidConfig(*cause)),
            Fault::StateSyncEpochs { info, floor } => Ok(Fault::StateSyncEpochs {
                info: *info,
                floor: *floor,
            }),
            Fault::StateSyncMaterial => Ok(Fault::StateSyncMaterial),
            Fault::ConflictingBlock { height } => Ok(Fault::ConflictingBlock { height: *height }),
            Fault::DetachedBlock { height } => Ok(Fault::DetachedBlock { height: *height }),
            Fault::SkippedHeight { awaited, got } => Ok(Fault::SkippedHeight {
                awaited: *awaited,
                got: *got,
            }),
            Fault::OutOfWindow { height } => Ok(Fault::OutOfWindow { height: *height }),
            Fault::HeightRange => Ok(Fault::HeightRange),
            Fault::MissingEpochInfo { height } => Ok(Fault::MissingEpochInfo { height: *height }),
            Fault::WrongEpoch { expected, got } => Ok(Fault::WrongEpoch {
                expected: *expected,
                got: *got,
            }),
            Fault::InvalidParticipants(cause) => Ok(Fault::InvalidParticipants(*cause)),
            Fault::DirectoryMismatch { epoch } => Ok(Fault::DirectoryMismatch { epoch: *epoch }),
            Fault::LocalState(cause) => Ok(Fault::LocalState(cause.copy(alloc)?)),
            Fault::FinalBlockMissing => Ok(Fault::FinalBlockMissing),
            Fault::FloorBlockMissing => Ok(Fault::FloorBlockMissing),
        }
    }

    fn same(&self, other: &Fault) -> bool {
        match (self, other) {
            (
                Fault::Corrupt { name, place },
                Fault::Corrupt {
                    name: its_name,
                    place: its_place,
                },
            ) => *name == *its_name && *place == *its_place,
            (Fault::InvalidConfig(cause), Fault::InvalidConfig(its)) => *cause == *its,
            (
                Fault::StateSyncEpochs { info, floor },
                Fault::StateSyncEpochs {
                    info: its_info,
                    floor: its_floor,
                },
            ) => *info == *its_info && *floor == *its_floor,
            (Fault::ConflictingBlock { height }, Fault::ConflictingBlock { height: its })
            | (Fault::DetachedBlock { height }, Fault::DetachedBlock { height: its })
            | (Fault::OutOfWindow { height }, Fault::OutOfWindow { height: its })
            | (Fault::MissingEpochInfo { height }, Fault::MissingEpochInfo { height: its }) => {
                *height == *its
            }
            (
                Fault::SkippedHeight { awaited, got },
                Fault::SkippedHeight {
                    awaited: its_awaited,
                    got: its_got,
                },
            ) => *awaited == *its_awaited && *got == *its_got,
            (
                Fault::WrongEpoch { expected, got },
                Fault::WrongEpoch {
                    expected: its_expected,
                    got: its_got,
                },
            ) => *expected == *its_expected && *got == *its_got,
            (Fault::InvalidParticipants(cause), Fault::InvalidParticipants(its)) => *cause == *its,
            (Fault::DirectoryMismatch { epoch }, Fault::DirectoryMismatch { epoch: its }) => {
                *epoch == *its
            }
            (Fault::LocalState(cause), Fault::LocalState(its)) => cause.same(its),
            (Fault::NoMemory, Fault::NoMemory)
            | (Fault::Disk, Fault::Disk)
            | (Fault::Secrets, Fault::Secrets)
            | (Fault::StateSyncMaterial, Fault::StateSyncMaterial)
            | (Fault::HeightRange, Fault::HeightRange)
            | (Fault::FinalBlockMissing, Fault::FinalBlockMissing)
            | (Fault::FloorBlockMissing, Fault::FloorBlockMissing) => true,
            _ => false,
        }
    }
}

impl From<NoMemory> for Fault {
    ghost from_gives = { λ _ e. e ≡ OutOfMemory };

    fn from(_e: NoMemory) -> Fault {
        Fault::NoMemory
    }
}
