//! What a reshare actor has of final-block requests: what each was told, the verifications of logs, and the artifacts that answer them.
//!
//! Each call is a part of a course of `dkg_core`, over a life of `dkg_life` and what inclusion has in memory beside it. The rules are those of
//! the upstream's `reshare::actor::inclusion`.
#![tactic(auto)]

mod answers;
mod artifacts;
mod inclusion;
mod told;
mod verifying;

pub use answers::{answer, answer_none, bytes_of, told_log};
pub use artifacts::keep_artifact;
pub use inclusion::{Hand, Inclusion};
pub use told::{EpochInfoResponse, Told, post};
pub use verifying::{
    answer_by, canonical, end_verifying, job_for, retain, start_verifying, verify,
};
