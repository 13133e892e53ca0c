//! What a reshare actor has in memory between two calls of one life, why a call stops, and what is said of calls over two devices.
//!
//! Setups, dealing and verifications are parts of such a life, and stand on it beside one another.
#![tactic(auto)]

mod config;
mod life;
mod stop;
mod tip;

pub use config::{Config, Terms, check_config};
pub use life::{Life, Stage};
pub use stop::Stop;
pub use tip::{Judged, Tip, awaited, judge, tip_of};
