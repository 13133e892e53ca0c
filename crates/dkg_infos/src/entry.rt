//! What a run tells, entry by entry. The parts of a node push these, and the program prints each as a line.

ghost use Rattle.std.specs.Prelude.{◌≡◌, ◌↔◌, IfOk, IsTrue};

use crate::fault::Fault;
use dkg_ceremony::{Ack, Blob, Epoch, Height, Key, Mem, Phase, Private, Public, Share, Value};
use dkg_values::Shared;
use std::alloc::Global;
use std::marker::Model;

/// Why a final-block request has no answer.
#[derive(Clone, Copy, Debug, PartialEq, Eq)]
pub enum Why {
    /// The ancestry ended.
    Short,
    /// A block of another height came.
    WrongHeight { awaited: Height, got: Height },
    /// A block that is not the parent of the one above came.
    Unlinked { height: Height },
    /// The lowest block does not stand on the tip.
    Detached { height: Height },
    /// This life follows the epoch.
    Following,
    /// The one-shot ceremony is over.
    Terminal,
    /// The final block was applied first.
    Finished,
    /// The request was withdrawn while it waited.
    Held,
}

/// A dealing that an opening found recorded.
#[derive(Drop)]
pub struct Restored {
    pub epoch: Epoch,
    pub public: Public,
    pub dealer: Key,
    pub private: Private,
}

/// The dealings that an opening found recorded, by epoch and dealer, rising.
#[derive(Drop)]
pub struct RestoredList(pub Vec<Restored>);

impl Model for RestoredList {
    ghost use Rattle.std.specs.Prelude.{List};
    ghost use Rattle.dkg_infos.specs.declared.entry.Restored.{Restored};

    ghost Value = { List Restored };

    ghost view = { λ l. l.0.items };
}

/// This node's part in a registered scheme.
#[derive(Clone, Copy, Debug, PartialEq, Eq)]
pub enum Role {
    Signer,
    Member,
    Verifier,
}

/// This node's part in an epoch's ceremony.
#[derive(Clone, Copy, Debug, PartialEq, Eq)]
pub enum Part {
    Follow,
    Player,
    Dealer,
    Both,
    Observer,
}

/// Why a peer is blocked.
#[derive(Clone, Copy, Debug, PartialEq, Eq)]
pub enum BlockedWhy {
    Decode,
    Nonplayer,
    Nondealer,
    Dealer,
    Degree,
    Commitment,
    Share,
    Player,
    Ack,
    Reply,
    Member,
    Invalid,
    Boundary,
    Block,
}

/// The answer to a final-block request; a payload stands as its encoding.
#[derive(Drop)]
pub enum AnswerLine {
    Available(Option<Shared<Blob>>),
    Unavailable(Why),
}

/// What the application prepared; a block stands as its encoding.
#[derive(Drop)]
pub enum PreparedLine {
    Wait,
    Ready(Option<Blob>),
}

/// What the application says of an ancestry.
#[derive(Clone, Copy, Debug, PartialEq, Eq)]
pub enum Verdict {
    Accept,
    Reject,
    Unresolved,
}

/// One thing that a run tells. What is printed as an encoding is a `Blob` of it, which lies apart where the entry would be larger than 48 bytes with it.
#[derive(Drop)]
pub enum Entry {
    /// A life was opened, and these dealings were found.
    Opened {
        life: u64,
        restored: RestoredList,
    },
    /// The epoch's commit is complete.
    Committed {
        epoch: Epoch,
        share: Option<Share>,
    },
    /// The registrar took the epoch's scheme.
    Registered {
        epoch: Epoch,
        role: Role,
    },
    /// The epoch was set up; the phase is that of the awaited height.
    Setup {
        epoch: Epoch,
        phase: Phase,
        part: Part,
    },
    /// The record of a dealing is complete.
    Recorded {
        epoch: Epoch,
        dealer: Key,
        public: Public,
        private: Private,
    },
    /// An acknowledgement was sent to a dealer.
    Ack {
        epoch: Epoch,
        dealer: Key,
        ack: Ack,
    },
    /// A dealing was sent to a player.
    Offer {
        epoch: Epoch,
        player: Key,
        public: Public,
        private: Private,
    },
    /// A peer was blocked.
    Blocked {
        peer: Key,
        why: BlockedWhy,
    },
    /// The answer to a log request.
    Log {
        request: u64,
        payload: Option<Shared<Blob>>,
    },
    /// The answer to a final-block request.
    Answer {
        request: u64,
        answer: AnswerLine,
    },
    /// The orchestrator entered an epoch.
    Entered {
        epoch: Epoch,
    },
    /// The orchestrator halted.
    Halted,
    /// A finalization was asked of a peer.
    Hint {
        height: Height,
        peer: Key,
    },
    /// A block was acknowledged by both halves.
    Acked {
        height: Height,
    },
    /// The one-shot ceremony is over.
    Completed {
        outcome: Option<Blob>,
    },
    /// The application prepared a block.
    Prepared(PreparedLine),
    /// The application proposed a block.
    Proposed {
        block: Option<Blob>,
    },
    /// The application judged an ancestry.
    Verdict(Verdict),
    /// A probe message was sent, to all where no peer is named.
    Sent {
        to: Option<Key>,
        bytes: Blob,
    },
    /// The probe knows the artifact.
    Artifact {
        info: Blob,
        floor: Shared<Blob>,
    },
    /// A caller's turn began; the line is the event's text.
    Call {
        caller: u64,
        line: Blob,
    },
    /// A step was cut at a call; at call 0 the life ended before it.
    Cut {
        step: u64,
        call: u64,
    },
    /// A step was completed; step 0 is the opening.
    Step {
        step: u64,
    },
    /// The node stopped.
    Fault(Fault),
}

impl Value for Restored {
    fn copy(&self, alloc: Global) -> Mem<Restored> {
        Ok(Restored {
            epoch: self.epoch,
            dealer: self.dealer,
            public: self.public.copy(alloc)?,
            private: self.private,
        })
    }

    fn same(&self, other: &Restored) -> bool {
        self.epoch == other.epoch
            && self.dealer == other.dealer
            && self.public.same(&other.public)
            && self.private == other.private
    }
}

impl Value for RestoredList {
    fn copy(&self, alloc: Global) -> Mem<RestoredList> {
        let mut made = Vec::with_capacity(alloc, self.0.len())?;
        for restored in &self.0 {
            made.push(restored.copy(alloc)?)?;
        }
        Ok(RestoredList(made))
    }

    fn same(&self, other: &RestoredList) -> bool {
        if self.0.len() != other.0.len() {
            return false;
        }
        for i in 0..self.0.len() {
            if !self.0[i].same(&other.0[i]) {
                return false;
            }
        }
        true
    }
}

fn copy_of<T: Value>(alloc: Global, encoding: &Option<T>) -> Mem<Option<T>>
    ensures { IfOk result (λ made. made ≡ encoding.now) }
{
    match encoding {
        None => Ok(None),
        Some(bytes) => Ok(Some(bytes.copy(alloc)?)),
    }
}

fn are_same<T: Value>(one: &Option<T>, other: &Option<T>) -> bool
    ensures { IsTrue result ↔ (one.now ≡ other.now) }
{
    match (one, other) {
        (None, None) => true,
        (Some(bytes), Some(its)) => bytes.same(its),
        _ => false,
    }
}

impl Value for AnswerLine {
    fn copy(&self, alloc: Global) -> Mem<AnswerLine> {
        match self {
            AnswerLine::Available(payload) => Ok(AnswerLine::Available(copy_of(alloc, payload)?)),
            AnswerLine::Unavailable(why) => Ok(AnswerLine::Unavailable(*why)),
        }
    }

    fn same(&self, other: &AnswerLine) -> bool {
        match (self, other) {
            (AnswerLine::Available(payload), AnswerLine::Available(its)) => are_same(payload, its),
            (AnswerLine::Unavailable(why), AnswerLine::Unavailable(its)) => *why == *its,
            _ => false,
        }
    }
}

impl Value for PreparedLine {
    fn copy(&self, alloc: Global) -> Mem<PreparedLine> {
        match self {
            PreparedLine::Wait => Ok(PreparedLine::Wait),
            PreparedLine::Ready(block) => Ok(PreparedLine::Ready(copy_of(alloc, block)?)),
        }
    }

    fn same(&self, other: &PreparedLine) -> bool {
        match (self, other) {
            (PreparedLine::Wait, PreparedLine::Wait) => true,
            (PreparedLine::Ready(block), PreparedLine::Ready(its)) => are_same(block, its),
            _ => false,
        }
    }
}

impl Value for Entry {
    fn copy(&self, alloc: Global) -> Mem<Entry> {
        let made = match self {
            Entry::Opened { life, restored } => Entry::Opened {
                life: *life,
                restored: restored.copy(alloc)?,
            },
            Entry::Committed { epoch, share } => Entry::Committed {
                epoch: *epoch,
                share: *share,
            },
            Entry::Registered { epoch, role } => Entry::Registered {
                epoch: *epoch,
                role: *role,
            },
            Entry::Setup { epoch, phase, part } => Entry::Setup {
                epoch: *epoch,
                phase: *phase,
                part: *part,
            },
            Entry::Recorded {
                epoch,
                dealer,
                public,
                private,
            } => Entry::Recorded {
                epoch: *epoch,
                dealer: *dealer,
                public: public.copy(alloc)?,
                private: *private,
            },
            Entry::Ack { epoch, dealer, ack } => Entry::Ack {
                epoch: *epoch,
                dealer: *dealer,
                ack: *ack,
            },
            Entry::Offer {
                epoch,
                player,
                public,
                private,
            } => Entry::Offer {
                epoch: *epoch,
                player: *player,
                public: public.copy(alloc)?,
                private: *private,
            },
            Entry::Blocked { peer, why } => Entry::Blocked {
                peer: *peer,
                why: *why,
            },
            Entry::Log { request, payload } => Entry::Log {
                request: *request,
                payload: copy_of(alloc, payload)?,
            },
            Entry::Answer { request, answer } => Entry::Answer {
                request: *request,
                answer: answer.copy(alloc)?,
            },
            Entry::Entered { epoch } => Entry::Entered { epoch: *epoch },
            Entry::Halted => Entry::Halted,
            Entry::Hint { height, peer } => Entry::Hint {
                height: *height,
                peer: *peer,
            },
            Entry::Acked { height } => Entry::Acked { height: *height },
            Entry::Completed { outcome } => Entry::Completed {
                outcome: copy_of(alloc, outcome)?,
            },
            Entry::Prepared(it) => Entry::Prepared(it.copy(alloc)?),
            Entry::Proposed { block } => Entry::Proposed {
                block: copy_of(alloc, block)?,
            },
            Entry::Verdict(it) => Entry::Verdict(*it),
            Entry::Sent { to, bytes } => Entry::Sent {
                to: *to,
                bytes: bytes.copy(alloc)?,
            },
            Entry::Artifact { info, floor } => Entry::Artifact {
                info: info.copy(alloc)?,
                floor: floor.copy(alloc)?,
            },
            Entry::Call { caller, line } => Entry::Call {
                caller: *caller,
                line: line.copy(alloc)?,
            },
            Entry::Cut { step, call } => Entry::Cut {
                step: *step,
                call: *call,
            },
            Entry::Step { step } => Entry::Step { step: *step },
            Entry::Fault(it) => Entry::Fault(it.copy(alloc)?),
        };
        Ok(made)
    }

    fn same(&self, other: &Entry) -> bool {
        match (self, other) {
            (
                Entry::Opened { life, restored },
                Entry::Opened {
                    life: its_life,
                    restored: its_restored,
                },
            ) => *life == *its_life && restored.same(its_restored),
            (
                Entry::Committed { epoch, share },
                Entry::Committed {
                    epoch: its_epoch,
                    share: its_share,
                },
            ) => *epoch == *its_epoch && *share == *its_share,
            (
                Entry::Registered { epoch, role },
                Entry::Registered {
                    epoch: its_epoch,
                    role: its_role,
                },
            ) => *epoch == *its_epoch && *role == *its_role,
            (
                Entry::Setup { epoch, phase, part },
                Entry::Setup {
                    epoch: its_epoch,
                    phase: its_phase,
                    part: its_part,
                },
            ) => *epoch == *its_epoch && *phase == *its_phase && *part == *its_part,
            (
                Entry::Recorded {
                    epoch,
                    dealer,
                    public,
                    private,
                },
                Entry::Recorded {
                    epoch: its_epoch,
                    dealer: its_dealer,
                    public: its_public,
                    private: its_private,
                },
            ) => *epoch == *its_epoch
                && *dealer == *its_dealer
                && public.same(its_public)
                && *private == *its_private,
            (
                Entry::Ack { epoch, dealer, ack },
                Entry::Ack {
                    epoch: its_epoch,
                    dealer: its_dealer,
                    ack: its_ack,
                },
            ) => *epoch == *its_epoch && *dealer == *its_dealer && *ack == *its_ack,
            (
                Entry::Offer {
                    epoch,
                    player,
                    public,
                    private,
                },
                Entry::Offer {
                    epoch: its_epoch,
                    player: its_player,
                    public: its_public,
                    private: its_private,
                },
            ) => *epoch == *its_epoch
                && *player == *its_player
                && public.same(its_public)
                && *private == *its_private,
            (
                Entry::Blocked { peer, why },
                Entry::Blocked {
                    peer: its_peer,
                    why: its_why,
                },
            ) => *peer == *its_peer && *why == *its_why,
            (
                Entry::Log { request, payload },
                Entry::Log {
                    request: its_request,
                    payload: its_payload,
                },
            ) => *request == *its_request && are_same(payload, its_payload),
            (
                Entry::Answer { request, answer },
                Entry::Answer {
                    request: its_request,
                    answer: its_answer,
                },
            ) => *request == *its_request && answer.same(its_answer),
            (Entry::Entered { epoch }, Entry::Entered { epoch: its_epoch }) => *epoch == *its_epoch,
            (Entry::Halted, Entry::Halted) => true,
            (
                Entry::Hint { height, peer },
                Entry::Hint {
                    height: its_height,
                    peer: its_peer,
                },
            ) => *height == *its_height && *peer == *its_peer,
            (Entry::Acked { height }, Entry::Acked { height: its_height }) => *height
                == *its_height,
            (
                Entry::Completed { outcome },
                Entry::Completed {
                    outcome: its_outcome,
                },
            ) => are_same(outcome, its_outcome),
            (Entry::Prepared(it), Entry::Prepared(its)) => it.same(its),
            (Entry::Proposed { block }, Entry::Proposed { block: its_block }) => are_same(
                block, its_block,
            ),
            (Entry::Verdict(it), Entry::Verdict(its)) => *it == *its,
            (
                Entry::Sent { to, bytes },
                Entry::Sent {
                    to: its_to,
                    bytes: its_bytes,
                },
            ) => *to == *its_to && bytes.same(its_bytes),
            (
                Entry::Artifact { info, floor },
                Entry::Artifact {
                    info: its_info,
                    floor: its_floor,
                },
            ) => info.same(its_info) && floor.same(its_floor),
            (
                Entry::Call { caller, line },
                Entry::Call {
                    caller: its_caller,
                    line: its_line,
                },
            ) => *caller == *its_caller && line.same(its_line),
            (
                Entry::Cut { step, call },
                Entry::Cut {
                    step: its_step,
                    call: its_call,
                },
            ) => *step == *its_step && *call == *its_call,
            (Entry::Step { step }, Entry::Step { step: its_step }) => *step == *its_step,
            (Entry::Fault(it), Entry::Fault(its)) => it.same(its),
            _ => false,
        }
    }
}
