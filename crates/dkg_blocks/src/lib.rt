//! What a delivered block does to a life beside dealing and requests: its log is recorded, and an epoch's last block leads into the next epoch, whether the
//! node takes part in the epoch or only follows it; and whom this node's own log is served to.
//!
//! Each call is a part of a course of `dkg_core`, over a life of `dkg_life` and what inclusion has in memory beside it (`dkg_verifying`).
#![tactic(auto)]

mod final_block;
mod following;
mod logs;

pub use final_block::take_final_block;
pub use following::follow_block;
pub use logs::{observe, release, serve, unserve};
