//! The reshare actor: it opens a node's store, sets an epoch up, answers dealings and takes blocks.
//!
//! Each call is a course of `dkg_core`, run over the devices that it is lent: `Actor::open` is `opening`, and `Actor::step` is `step`. The rules
//! are those of the upstream's `reshare::actor`. `dkg_setup` has how a life opens and sets an epoch up, `dkg_dealing` what it does up to an epoch's
//! midpoint, and `dkg_inclusion` what it does for final-block requests from there on.
#![tactic(auto)]

mod actor;
mod blocks;
mod message;

pub use actor::Actor;
pub use dkg_life::{Config, Stop, Tip, check_config};
pub use dkg_setup::{BlockSource, Processed, dealer_for_phase, recovered_share, startup};
pub use dkg_verifying::{EpochInfoResponse, Told};
pub use message::Message;
