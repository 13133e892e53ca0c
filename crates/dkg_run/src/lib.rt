//! A node run through the lives of a script, and the top call that reads the script and writes the transcript.
//!
//! `main` makes the outside (source, sink, devices) and calls `run_command`; whoever has a script already calls `run_lives`.
#![tactic(auto)]

mod again;
mod command;
mod lives;
mod memory;

pub use again::{acknowledges_as_before, runs_again};
pub use command::run_command;
pub use dkg_outside::{
    Failed, MemorySink, MemorySource, Sink, Source, Status, StdSink, StdSource, SureSink,
    SureSource,
};
pub use lives::run_lives;
pub use memory::fresh_devices;
