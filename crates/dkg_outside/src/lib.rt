//! Where a command reads its script from, and where it writes its transcript to: a source and a sink of bytes, which may fail; those in memory, and
//! any reader and any writer; how all of a source is read, and a text written whole; and how a command ended.
//!
//! It knows of no node but its faults, and of scripts no more than how many bytes one may have.
#![tactic(auto)]

mod calls;
mod sink;
mod source;
mod standard;
mod status;
mod transfer;

pub use sink::{MemorySink, Sink, SureSink};
pub use source::{Failed, MemorySource, Source, SureSource};
pub use standard::{StdSink, StdSource};
pub use status::Status;
pub use transfer::{ReadError, read_all, write_all};
