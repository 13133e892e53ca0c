//! Laws of the node's relation that stand on those of `dkg_core`: of the whole node at its openings and steps, of what is kept at every exit,
//! and of a life that passes through whole epochs.
//!
//! `dkg_core` has the relation, and the laws that refuse its wrong bodies. The crates of the actors stand on that alone, and are proved beside
//! this one.
//!
//! The functions here are calls without a body, whose contract is the law.
#![tactic(auto)]

ghost use Rattle.dkg_core.specs.Enduring.{OpeningsEndure, StepsGiveBack, StepsKeep};
ghost use Rattle.dkg_core.specs.Finishing.{StandInsFinish};
ghost use Rattle.dkg_core.specs.Fixed.{Fixed};
ghost use Rattle.dkg_core.specs.Forms.{HalvesBegin, NodeOpeningsLead, NodeOpeningsLeadOver, OpeningsLead, OpeningsLeadOver};
ghost use Rattle.dkg_core.specs.Laws.{StandInsAreCeremonies};
ghost use Rattle.dkg_laws.specs.NodeKept.{NodeOpeningsAgree, NodeOpeningsKeep, NodeOpeningsRestore};
ghost use Rattle.dkg_laws.specs.NodeKept.{NodePeersAreKept, NodeStepsAgree, NodeStepsGiveBack};
ghost use Rattle.dkg_core.specs.NodeEndings.{NodeDuesAreAnswered, NodeOpeningsAreQuiet, NodeStepsAreQuiet};
ghost use Rattle.dkg_core.specs.Said.{RunsSay};
ghost use Rattle.dkg_laws.specs.Spared.{NodeOpeningsKeepNotes, NodeOpeningsKeepPlans};
ghost use Rattle.dkg_laws.specs.BlocksKept.{BlocksKeep, NodeStepsKeepNotes, NodeStepsKeepPlans, NodeStepsSpareTheirLogs};
ghost use Rattle.dkg_core.specs.Asked.{read_somewhere};
ghost use Rattle.dkg_laws.specs.Idle.{MailsAreIdle};
ghost use Rattle.dkg_laws.specs.LogsRecorded.{NodeStepsRecordLogs, ObservesFirst, ObservesNothingElse};
ghost use Rattle.dkg_laws.specs.NodeSaying.{NodeStepsSayThroughAt};
ghost use Rattle.dkg_laws.specs.NodeThrough.{HalvesPassOn, NodeOpeningsThroughAt, NodeStepsComeThroughAt, OpeningsThroughAt};
ghost use Rattle.dkg_laws.specs.SharesMoved.{BlocksMoveSharesAt, BlocksPutSharesAt, NodeStepsSpareShares};
ghost use Rattle.dkg_core.specs.Through.{NextLivesStayThroughAt};
ghost use Rattle.dkg_core.specs.Transcripts.{OpeningsAreQuiet, StepsAreQuiet, TranscriptsMove};

/// The stand-in's rules are those of a ceremony.
pub fn stand_ins_are_ceremonies<Dir>()
    ensures { StandInsAreCeremonies Dir }
{}

/// .. and they promise what is asked of a round that is finished: a player that lacks no dealing finishes, with the round's outcome,
/// and where all its dealings are valid, its share fits the output.
pub fn stand_ins_finish<Dir>()
    ensures { StandInsFinish Dir }
{}

/// At every exit of any step, whatever an operation in hand leaves, if memory had what whole devices give back, and what is recorded fits a record: the
/// devices are whole, and each acknowledgement and each recorded dealing that was told, of the epochs that the step prunes nothing of, is that of a
/// dealing that they give back.
pub fn steps_keep<Dir>()
    ensures { StepsKeep Dir }
{}

/// A run from another transcript says the same lines, does the same and ends the same.
pub fn transcripts_move<F, S>()
    ensures { TranscriptsMove F S }
{}

/// At every exit of any step, on the same premise, the devices give back each dealing that they gave back before it, of the epochs that the step
/// prunes nothing of.
pub fn steps_give_back<Dir>()
    ensures { StepsGiveBack Dir }
{}

/// At every exit of an opening, whatever an operation in hand leaves: the devices are whole, and each acknowledgement and each recorded
/// dealing that was told, of the epoch that it starts in and of the one before on, is that of a dealing that they give back.
pub fn openings_endure<Dir>()
    ensures { OpeningsEndure Dir }
{}

/// A run says the lines of its acts.
pub fn runs_say<F, S>()
    ensures { RunsSay F S }
{}

/// A step says lines of the node's own alone: it neither opens a life, counts a step, nor tells a cut or a fault.
pub fn steps_are_quiet<Dir>()
    ensures { StepsAreQuiet Dir }
{}

/// An opening says first that the life is opened, and then lines of the node's own alone; where it ended by itself it has said so.
pub fn openings_are_quiet<Dir>()
    ensures { OpeningsAreQuiet Dir }
{}

/// An opening comes to such a setup by the info that the boundary block carries, which has no other faults than these and those of the heights and
/// of that block; without that block it leaves a life that follows, whatever the devices tell.
pub fn openings_lead<Dir>()
    ensures { OpeningsLead Dir }
{}

/// Over devices that tell it has read what these hold behind the journal's opening, the share and the seed among it.
pub fn openings_lead_over<Dir>()
    ensures { OpeningsLeadOver Dir }
{}

/// Behind such an opening the orchestrator's half never stops, where directories lack nobody: it enters the awaited epoch, or halts
/// without its boundary block.
pub fn halves_begin<Dir>()
    ensures { HalvesBegin Dir }
{}

/// In the form of epochs a node's opening stops by the faults of its reshare half alone, each with its cause, where directories lack nobody; or
/// it leaves such a life, with the awaited epoch entered, or halted without its boundary block.
pub fn node_openings_lead<Dir>()
    ensures { NodeOpeningsLead Dir }
{}

/// Over devices that tell it has read what these hold behind the journal's opening, the share and the seed among it.
pub fn node_openings_lead_over<Dir>()
    ensures { NodeOpeningsLeadOver Dir }
{}

/// At every exit of a node's opening in the form of epochs the plan is as it was.
pub fn node_openings_keep_plans<Dir>()
    ensures { NodeOpeningsKeepPlans Dir }
{}

/// At every exit of a node's opening, of whatever epoch, the devices give back the logs and the acknowledgements of that epoch, of the one before and of
/// later ones as they did, and no others of these.
pub fn node_openings_keep_notes<Dir>()
    ensures { NodeOpeningsKeepNotes Dir }
{}

/// At every exit a node's opening has listed first exactly what the devices gave back, and told nothing of dealings behind it; only one that was
/// broken off may have said nothing.
pub fn node_openings_restore<Dir>()
    ensures { NodeOpeningsRestore Dir }
{}

/// At every exit of a node's opening the devices give back each dealing of the epoch that it starts in and of the one before, as they did, and
/// whole devices are whole.
pub fn node_openings_keep<Dir>()
    ensures { NodeOpeningsKeep Dir }
{}

/// Over whole devices a node's opening leaves in memory what they give back.
pub fn node_openings_agree<Dir>()
    ensures { NodeOpeningsAgree Dir }
{}

/// At every exit of a node's step for a peer's message, whatever an operation in hand leaves: the devices are whole and give back the dealings from
/// before or with the sender's, and an acknowledgement is that of a dealing that they give back.
pub fn node_peers_are_kept<Dir>()
    ensures { NodePeersAreKept Dir }
{}

/// Where the devices are whole and give back what is recorded in memory before a node's step, they do so behind it, whatever the step takes, if what
/// it may record fits a record.
pub fn node_steps_agree<Dir>()
    ensures { NodeStepsAgree Dir }
{}

/// At every exit of a node's step, on the premise of `steps_keep`, the devices give back each dealing that they gave back before it, of the epochs that
/// the step prunes nothing of.
pub fn node_steps_give_back<Dir>()
    ensures { NodeStepsGiveBack Dir }
{}

/// A node's opening says first that the life is opened, and then lines of its own alone; where it ended by itself it has said so.
pub fn node_openings_are_quiet<Dir>()
    ensures { NodeOpeningsAreQuiet Dir }
{}

/// A node's step by a message of the reshare half, or by a block, neither opens a life, counts a step, nor tells a cut or a fault.
pub fn node_steps_are_quiet<Dir>()
    ensures { NodeStepsAreQuiet Dir }
{}

/// A peer's message that is due is acknowledged as the last thing of the node's step, where the orchestrator's half doesn't wait.
pub fn node_dues_are_answered<Dir>()
    ensures { NodeDuesAreAnswered Dir }
{}

/// At every exit of a node's step for a block, on the premise of `steps_keep`, the devices are whole and give back each dealing, acknowledgement and
/// log that they gave back, of the epochs that the step prunes nothing of; it acknowledged nothing, recorded of dealings this node's own alone, and
/// offered what its dealer deals.
pub fn blocks_keep<Dir>()
    ensures { BlocksKeep Dir }
{}

/// At every exit of a node's step in the form of epochs the devices give back the logs that they did, of the epochs that the step prunes nothing of,
/// if what it may record fits a record.
pub fn node_steps_spare_their_logs<Dir>()
    ensures { NodeStepsSpareTheirLogs Dir }
{}

/// At every exit of a node's step the devices give back each acknowledgement and each log that they gave back, of the epochs that the step prunes
/// nothing of, if what it may record fits a record.
pub fn node_steps_keep_notes<Dir>()
    ensures { NodeStepsKeepNotes Dir }
{}

/// At every exit of a node's step the plan is as it was.
pub fn node_steps_keep_plans<Dir>()
    ensures { NodeStepsKeepPlans Dir }
{}

/// The life that an opening leaves is one that passes through whole epochs.
pub fn openings_through<Dir>()
    ensures { (c : Fixed Dir) → OpeningsThroughAt c (read_somewhere c) }
{}

/// So is that of a node's opening, whose orchestrator waits for nothing.
pub fn node_openings_through<Dir>()
    ensures { (c : Fixed Dir) → NodeOpeningsThroughAt c (read_somewhere c) }
{}

/// At the last block of the entered epoch the orchestrator's half enters the next one, which is ready and registered, and acknowledges the block, where
/// directories lack nobody.
pub fn halves_pass_on<Dir>()
    ensures { HalvesPassOn Dir }
{}

/// In a life that passes through whole epochs, whose orchestrator waits for nothing, and where directories lack nobody, a node's step stops by the faults
/// of its reshare half alone, or leaves such a life.
pub fn node_steps_come_through<Dir>()
    ensures { (c : Fixed Dir) → NodeStepsComeThroughAt c (read_somewhere c) }
{}

/// Where no epoch is passed on, the life that a step leaves awaits the same epoch, in the same round and seat, by the same info.
pub fn next_lives_stay_through<Dir>()
    ensures { (c : Fixed Dir) → NextLivesStayThroughAt c (read_somewhere c) }
{}

/// Mail but a peer's touches no device, and says what requests are answered alone, where the orchestrator waits for nothing.
pub fn mails_are_idle<Dir>()
    ensures { MailsAreIdle Dir }
{}

/// At every exit of a node's step, on the premise of `steps_keep`, the devices give back the logs that they gave back, of the epochs that the step
/// prunes nothing of, but for one: that of an included block, of a dealer that had none.
pub fn node_steps_record_logs<Dir>()
    ensures { NodeStepsRecordLogs Dir }
{}

/// At every exit of a node's step that takes a block while including, each share is what it was, of the epochs that the step prunes nothing of, but
/// for the artifact's: the share of the canonical logs' next info, where the block carries that.
pub fn blocks_move_shares<Dir>()
    ensures { (c : Fixed Dir) → BlocksMoveSharesAt c (read_somewhere c) }
{}

/// .. and each share that is held then was held, or is such a one, whatever the epoch.
pub fn blocks_put_shares<Dir>()
    ensures { (c : Fixed Dir) → BlocksPutSharesAt c (read_somewhere c) }
{}

/// So it is of a node's step, whose orchestrator's half says that an epoch is entered, that it halted, or that a block is acknowledged.
pub fn node_steps_say_through<Dir>()
    ensures { (c : Fixed Dir) → NodeStepsSayThroughAt c (read_somewhere c) }
{}

/// The first log of a dealer that counts in the round stays recorded, with the height of the block that brought it first.
pub fn observes_first<Dir>()
    ensures { ObservesFirst Dir }
{}

/// A look at a block's log changes what is recorded of no other dealer and epoch.
pub fn observes_nothing_else<Dir>()
    ensures { ObservesNothingElse Dir }
{}

/// At every exit of a node's step that passes no epoch on, each share that was stored is stored, of the epochs that the step prunes nothing of.
pub fn node_steps_spare_shares<Dir>()
    ensures { NodeStepsSpareShares Dir }
{}
