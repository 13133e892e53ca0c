//! How a reshare actor hears dealings and acknowledgements, and offers its own dealing, in early blocks.
//!
//! Each call is a part of a course of `dkg_core`, run over the devices that it is lent. The rules are those of the upstream's
//! `reshare::actor::dealing`.
#![tactic(auto)]

mod dealing;
mod decoded;
mod offers;

pub use dealing::hear_peer;
pub use offers::deal;
