//! The script of one node's lives, as plain data: what the node is given, the blocks that there are, and
//! what happens in each life.
//!
//! `dkg_reading` makes one from its text, and the node's driver goes through it life by life. Payloads are
//! bytes that decode; numbers of blocks count the block lines from 0.
ghost use Rattle.std.specs.Prelude.{◌≡◌};

use crate::events::Events;
use crate::held::{Ancestry, MessageBytes};
use crate::payload_bytes::PayloadBytes;
use dkg_ceremony::{Blob, Epoch, Height, Key, Map, Mode, ModeVersion, Set};
use dkg_types::Address;
use std::marker::Model;
use std::num::{NonZeroU32, NonZeroU64};

/// A run of one node: its configuration, the blocks and the lives, in order.
#[derive(Drop)]
pub struct Script {
    /// Whether directories are `Addresses`; else they are `Unit`.
    pub addressed: bool,
    pub config: ScriptConfig,
    pub blocks: BlockLines,
    pub lives: Lives,
}

/// What the node is given, the same in each life.
#[derive(Debug, Drop)]
pub struct ScriptConfig {
    pub me: Key,
    pub blocks_per_epoch: NonZeroU64,
    /// The limit of participants, at most 2^30.
    pub limit: NonZeroU32,
    pub mode: Mode,
    /// The highest sharing mode that is supported.
    pub max_mode: ModeVersion,
    pub namespace: Blob,
    /// In one-shot mode the participants.
    pub oneshot: Option<Set>,
    /// The provider's players, epochs rising; an epoch without a line has none.
    pub players: PlayerLines,
    /// The provider's addresses.
    pub addresses: Map<Address>,
    pub probe: Option<ProbeLine>,
}

/// The provider's players of one epoch.
#[derive(Debug, Drop)]
pub struct PlayerLine {
    pub epoch: Epoch,
    pub players: Set,
}

/// Lines of players, which contracts see as a list.
#[derive(Debug, Drop)]
pub struct PlayerLines(pub Vec<PlayerLine>);

/// Where the probe begins: a checkpoint, a floor and the infos of both ends, as encoded payloads.
#[derive(Debug, Drop)]
pub struct ProbeLine {
    pub checkpoint: Epoch,
    pub floor: Option<Epoch>,
    pub checkpoint_info: Blob,
    pub genesis_info: Blob,
}

/// A block: its parent is an earlier block's number, its payload is encoded.
#[derive(Drop)]
pub struct BlockLine {
    pub height: Height,
    pub parent: Option<u32>,
    pub view: u64,
    pub payload: Option<PayloadBytes>,
}

/// Lines of blocks, which contracts see as a list.
#[derive(Drop)]
pub struct BlockLines(pub Vec<BlockLine>);

/// One life, from an opening to a stop.
#[derive(Debug, Drop)]
pub struct Life {
    /// The random word of this life, from which fresh seeds are made.
    pub word: u64,
    pub anchor: Option<Anchor>,
    /// The numbers of the blocks that the life holds from its begin on, rising.
    pub held: Indexes,
    pub sync: Option<SyncLine>,
    pub events: Events,
    pub cut: Option<Cut>,
    /// What the devices keep of unsynced writes at the stop.
    pub pick: u64,
}

/// Lives in order, which contracts see as a list.
#[derive(Debug, Drop)]
pub struct Lives(pub Vec<Life>);

/// Numbers of blocks, which contracts see as a list.
#[derive(Debug, Drop)]
pub struct Indexes(pub Vec<u32>);

/// The position that a life begins at: a processed block, or no block at the height below a block.
#[derive(Clone, Copy, Debug, PartialEq, Eq)]
pub enum Anchor {
    Processed(u32),
    Absent(u32),
}

/// The material of a state sync: an encoded info, and a floor at a block.
#[derive(Debug, Drop)]
pub struct SyncLine {
    pub info: Blob,
    pub epoch: Epoch,
    pub view: u64,
    pub block: u32,
}

/// Where a life ends early: in a step, at a changing device call of that step, counted from 1. Call 0 is
/// before the step.
#[derive(Clone, Copy, Debug, PartialEq, Eq)]
pub struct Cut {
    pub step: u64,
    pub call: u64,
    /// What the devices keep of unsynced writes.
    pub pick: u64,
}

/// What reaches the node in one step.
#[derive(Debug, Drop)]
pub enum Event<'a> {
    /// A message of the dealing channel.
    Peer { from: Key, bytes: MessageBytes<'a> },
    /// A finalized block.
    Final { block: u32 },
    /// A request for the log to include at a height.
    Next { request: u64, height: Height },
    /// A log that was handed out is not included.
    Release { height: Height },
    /// A request for the info of the final block.
    Info { request: u64 },
    /// The next block of a request's ancestry.
    Feed { request: u64, block: u32 },
    /// A request's ancestry ends.
    Over { request: u64 },
    Cancel { request: u64 },
    /// The running verification ends.
    Work,
    /// The application's calls, each with the ancestry from the parent or the tip down.
    Prepare { ancestry: Ancestry<'a> },
    Propose { ancestry: Ancestry<'a> },
    Verify { ancestry: Ancestry<'a> },
    /// Consensus traffic of a later epoch.
    Later { from: Key, epoch: Epoch },
    /// The probe's events.
    Subscribe,
    Unsubscribe,
    Attach,
    /// A message of the probe's channel.
    Reply { from: Key, bytes: MessageBytes<'a> },
    Retry,
}

impl Model for PlayerLines {
    ghost use Rattle.std.specs.Prelude.{List};
    ghost use Rattle.dkg_text.specs.declared.script.PlayerLine.{PlayerLine};

    ghost Value = { List PlayerLine };

    ghost view = { λ l. l.0.items };
}

impl PlayerLines {
    /// These lines, in their order.
    pub fn new(lines: Vec<PlayerLine>) -> PlayerLines
        ensures { result ≡ lines.items }
    {
        PlayerLines(lines)
    }

    /// The lines, in their order.
    pub fn as_slice(&self) -> &[PlayerLine]
        ensures { result.now ≡ self.now }
    {
        &self.0
    }
}

impl Model for BlockLines {
    ghost use Rattle.std.specs.Prelude.{List};
    ghost use Rattle.dkg_text.specs.declared.script.BlockLine.{BlockLine};

    ghost Value = { List BlockLine };

    ghost view = { λ l. l.0.items };
}

impl BlockLines {
    /// These lines, in their order.
    pub fn new(lines: Vec<BlockLine>) -> BlockLines
        ensures { result ≡ lines.items }
    {
        BlockLines(lines)
    }

    /// The lines, in their order.
    pub fn as_slice(&self) -> &[BlockLine]
        ensures { result.now ≡ self.now }
    {
        &self.0
    }
}

impl Model for Lives {
    ghost use Rattle.std.specs.Prelude.{List};
    ghost use Rattle.dkg_text.specs.declared.script.Life.{Life};

    ghost Value = { List Life };

    ghost view = { λ l. l.0.items };
}

impl Lives {
    /// These lives, in their order.
    pub fn new(lives: Vec<Life>) -> Lives
        ensures { result ≡ lives.items }
    {
        Lives(lives)
    }

    /// The lives, in their order.
    pub fn as_slice(&self) -> &[Life]
        ensures { result.now ≡ self.now }
    {
        &self.0
    }
}

impl Model for Indexes {
    ghost use Rattle.std.specs.Prelude.{List, ℕ};

    ghost Value = { List ℕ };

    ghost view = { λ l. l.0.items };
}

impl Indexes {
    /// These numbers, in their order.
    pub fn new(numbers: Vec<u32>) -> Indexes
        ensures { result ≡ numbers.items }
    {
        Indexes(numbers)
    }

    /// The numbers, in their order.
    pub fn as_slice(&self) -> &[u32]
        ensures { result.now ≡ self.now }
    {
        &self.0
    }
}
