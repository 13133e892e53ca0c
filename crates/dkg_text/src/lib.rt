//! Scripts of a node's lives as plain data, and the text of scripts and transcripts.
//!
//! `script_text` writes a script's text, `print_of` a transcript's, and `summary` that of a run that is told by numbers. The crates above
//! read scripts, say what a run of one promises, and run it.
#![tactic(auto)]

mod events;
mod fault;
mod held;
mod payload;
mod payload_bytes;
mod print;
mod script;
mod tallies;
mod text;
mod words;
mod write;

pub use events::Events;
pub use held::{Ancestry, MessageBytes};
pub use payload::{MOST_PARTICIPANTS, is_info};
pub use payload_bytes::PayloadBytes;
pub use print::print_of;
pub use script::{
    Anchor, BlockLine, BlockLines, Cut, Event, Indexes, Life, Lives, PlayerLine, PlayerLines,
    ProbeLine, Script, ScriptConfig, SyncLine,
};
pub use tallies::summary;
pub use write::{event_bytes, script_text};
