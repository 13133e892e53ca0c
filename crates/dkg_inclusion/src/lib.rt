//! How a reshare actor reads the ancestry of final-block requests from an epoch's midpoint on, and goes on with what waits.
//!
//! Each call is a part of a course of `dkg_core`, over a life of `dkg_life` and what inclusion has in memory beside it. The rules are those of
//! the upstream's `reshare::actor::inclusion`.
#![tactic(auto)]

mod requests;
mod scanning;

pub use requests::{ask, cancel, end, feed, work};
pub use scanning::advance;
