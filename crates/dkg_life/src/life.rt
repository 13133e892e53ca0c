//! What an actor has in memory between two calls of one life.
use crate::tip::Tip;
use dkg_ceremony::Round;
use dkg_store::{Dealer, Player, Store};
use dkg_values::{Epoch, Height};

/// Which events the epoch's participation reads.
#[derive(Clone, Copy, Debug, PartialEq, Eq)]
pub enum Stage {
    /// Messages of the dealing channel, and early blocks.
    Dealing,
    /// Blocks from the midpoint on.
    Including,
    /// Blocks alone: the epoch's boundary block is not held.
    Following,
}

/// A life: the epoch that is awaited, as its setup left it, and the store. Without a round the node only follows.
#[derive(Drop)]
pub struct Life<Dir> {
    /// The life's random word, from which fresh seeds are drawn.
    pub word: u64,
    pub store: Store<Dir>,
    pub tip: Option<Tip>,
    pub epoch: Epoch,
    /// The height at which the epoch's dealing ends.
    pub midpoint: Height,
    pub stage: Stage,
    pub round: Option<Round>,
    /// This node as the round's dealer. While including it offers the log that it signed.
    pub dealer: Option<Dealer>,
    pub player: Option<Player>,
}
