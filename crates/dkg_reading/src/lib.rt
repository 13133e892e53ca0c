//! How a script's text is spelled, its reading, and what holds between reading and writing.
//!
//! `read_script` reads a script's text, line by line, as `specs/Grammar.antt` has it; `dkg_text` has what it makes, and writes the same
//! text again.
#![tactic(auto)]

mod asked;
mod block_lines;
mod config_lines;
mod error;
mod event_lines;
mod fields;
mod laws;
mod life_lines;
mod lines;
mod read;
mod stop;

pub use error::ScriptError;
pub use fields::number;
pub use laws::{place_is_first, read_is_written, written_is_read};
pub use read::read_script;
