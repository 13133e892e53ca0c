//! What nodes agree on of an epoch and what is told of a run: infos, participants, faults and the transcript.
//!
//! The store stands on these, and `dkg_types` has what goes between nodes above them. Nothing here reaches a device.
#![tactic(auto)]

mod boxed_public;
mod directory;
mod entry;
mod fault;
mod info;
mod outcome;
mod participants;
mod transcript;

pub use boxed_public::BoxedPublic;
pub use directory::{Directory, Unit};
pub use entry::{
    AnswerLine, BlockedWhy, Entry, Part, PreparedLine, Restored, RestoredList, Role, Verdict, Why,
};
pub use fault::{ConfigCause, Fault, LocalCause, ParticipantsCause};
pub use info::EpochInfo;
pub use outcome::EpochOutcome;
pub use participants::{Participants, ParticipantsError, TrackedPeers};
pub use transcript::Transcript;
