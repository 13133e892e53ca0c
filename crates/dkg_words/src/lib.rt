//! What a person reads: the line that is said of a script that can't be run, and of a run that ended early.
//!
//! Each call is a function of the script's bytes, and of how the run ended. `dkg_told` says which of them a status calls for.
#![tactic(auto)]

mod bad;
mod before;
mod chain;
mod fault;
mod forms;
mod lines;
mod message;
mod names;
mod notes;
mod own;
mod put;
mod seek;
mod stages;
mod unsupported;
mod usage;

pub use bad::bad_line;
pub use chain::chain_warning;
pub use fault::fault_line;
pub use own::own_warning;
pub use put::sentence;
pub use unsupported::unsupported_line;
pub use usage::help;
