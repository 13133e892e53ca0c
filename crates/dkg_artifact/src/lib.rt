//! What a node takes from an epoch's dealer logs: the logs of an ancestry, their outcome, and the last artifact made of it.
//!
//! The reshare actor scans the ancestry of a block that is asked for, verifies the logs that it carries, and keeps what came of it.
//! It comes from the upstream's `reshare::actor::inclusion`. Nothing here reaches a device or knows of a node's step.
#![tactic(auto)]

mod artifact;
mod job;
mod laws;
mod lowest;
mod requests;
mod scan;
mod verification;
mod verified;

pub use artifact::{Artifact, ArtifactCache};
pub use job::{Dealings, Job, WorkGate, lacks_no_dealing};
pub use laws::answers_are_apart;
pub use requests::{Path, Request, Requests};
pub use scan::{Fed, Scan, Tip};
pub use verification::Verification;
pub use verified::{Verified, VerifiedLogs, verify_logs};
