//! A lock whose history is proved: callers take turns at a value, and what each was answered can be replayed on one thread.
//!
//! `TurnLock` holds a value that implements `Turn`. Who has a `Pass` of it may call: each call is one stay behind the lock, in the
//! order of the tickets that were drawn, and leaves one entry in the history. `close` gives the value and the history back.
//! The mailboxes of the actors post their messages through it, by `Carries`.
#![tactic(auto)]

mod bells;
mod carries;
mod lock;
mod pass;
mod play;
mod turn;
mod view;

pub use carries::Carries;
pub use lock::TurnLock;
pub use pass::{Pass, TurnError};
pub use turn::{HistoryEntry, Turn, Turned};
