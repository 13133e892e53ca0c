//! What the actor takes in a step.
use dkg_infos::Directory;
use dkg_types::Block;
use dkg_values::{Blob, Height, Key};

/// What the actor takes in a step. A request's number is its caller's own.
#[derive(Drop)]
pub enum Message<Dir: Directory> {
    /// Bytes of the dealing channel.
    Peer { from: Key, bytes: Blob },
    /// The next finalized block, or one that was delivered before.
    Finalized(Block<Dir>),
    /// Which log goes into the block of a height.
    NextLog { request: u64, height: Height },
    /// The block of that height does not carry the log.
    ReleaseLog { height: Height },
    /// Which info goes into the final block.
    EpochInfo { request: u64 },
    /// One more block of a request's ancestry.
    Feed { request: u64, block: Block<Dir> },
    /// The ancestry has ended.
    Over { request: u64 },
    /// The answer is not awaited any more.
    Cancel { request: u64 },
    /// The running verification ends.
    Work,
}
