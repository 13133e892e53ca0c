//! What the parts of a node wait for and are handed: the fence between its two halves, queues of messages, and the lock behind which
//! callers take turns at it.
//!
//! The reshare actor marks an epoch on the fence once its registration is done, and the orchestrator waits for the mark before it
//! enters any epoch, the one in which it starts included. So it reads an epoch's scheme only after the actor has registered it.
#![tactic(auto)]

mod fence;
mod queue;

pub use dkg_turn::{Carries, HistoryEntry, Pass, Turn, TurnError, TurnLock, Turned};
pub use fence::{Fence, Waited};
pub use queue::Queue;
