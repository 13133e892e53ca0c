//! What a node has around its actor: the orchestrator's half, the blocks that a life's source holds, and the participants that the script names.
//!
//! It stands on what the actor stands on, and not on the actor: so it is proved beside that.
#![tactic(auto)]

mod blocks;
mod half;
mod held;
mod players;

pub use blocks::blocks_of;
pub use half::Half;
pub use held::HeldBlocks;
pub use players::Players;
