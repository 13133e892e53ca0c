//! How a reshare actor's life opens, and how it sets an epoch up: it reads what a node has, commits an info, and takes its parts in the round.
//!
//! Each call is a part of a course of `dkg_core`, run over the devices that it is lent. The rules are those of the upstream's
//! `reshare::actor::setup`.
#![tactic(auto)]

mod midpoint;
mod opening;
mod setup;
mod source;

pub use midpoint::begin_inclusion;
pub use opening::open_life;
pub use setup::{
    EpochSecrets, commit_and_register, dealer_for_phase, recovered_share, secrets_of, secrets_with,
    set_up_committed,
};
pub use source::{BlockSource, Processed, startup};
