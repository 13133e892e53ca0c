//! What the program tells a person of a run, beside its transcript.
#![tactic(auto)]

mod kept;
mod words;

pub use kept::KeptSource;
pub use words::told;
