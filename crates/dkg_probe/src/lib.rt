//! How a node that joins late finds where to begin, and then serves others who do.
//!
//! A probe knows a checkpoint: the participants of some epoch. Once somebody subscribes it asks the dealers among them for their latest
//! finalization, and chooses the highest of one more than may fail of them: the floor. Then it asks all peers for the block that begins
//! the floor's epoch, which carries the epoch's info. Info and floor are the artifact. A probe with a source of blocks, on whose artifact
//! nobody waits, answers the same requests of others.
#![tactic(auto)]

mod actor;
mod artifact;
mod blocks;
mod candidates;
mod discovery;
mod event;
mod laws;
mod mailbox;
mod sample;
mod service;
mod state;
mod wire;

pub use actor::{Actor, Config};
pub use artifact::{Artifact, Bootstrap};
pub use blocks::Blocks;
pub use event::{Event, ProbeStop};
pub use laws::{requests_are_as_spelled, responses_are_as_spelled, written_is_read};
pub use mailbox::{HasProbe, Mailbox};
pub use sample::Sample;
pub use wire::{
    Message, Request, Response, Tag, max_payload_size, read_block, read_request, read_response,
};
