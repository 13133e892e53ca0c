//! What a node does at an opening and in each step, as one relation over plain data.
//!
//! `specs/` has the relation, one file a phase. `Fixed` says what a step is given, and `Live` what a node has in memory; `Sources` has the
//! blocks that a step is lent. `Setup`, `Dealing`, `Including`, `Blocks`, `Plans` and `OneShots` are the reshare actor's phases, which `Core`
//! puts together; `Entering` is the orchestrator's half, `Applying` the application over any desk's answers, `Desk` the script's desk,
//! `Probing` the probe, whose step `dkg_probe` defines (`Joining`), and `Node` joins all of them. Each is a course (`Courses`): the store's
//! acts, and calls of what is outside of the node among them, in their order. The crates of the actors promise that their calls do these
//! courses, whole or broken off.
//!
//! The functions here are laws of the relation: calls without a body, whose contract is the law.
#![tactic(auto)]

ghost use Rattle.dkg_core.specs.Agreeing.{OpeningsAgree, SetupsAgree, StepsAgree};
ghost use Rattle.dkg_core.specs.Behind.{OpeningsRunBehind, OpeningsSayBehind, StepsRunBehind, StepsSayBehind};
ghost use Rattle.dkg_core.specs.Entered.{EntersRegistered, LastBlocksAreEntered};
ghost use Rattle.dkg_core.specs.Fixed.{Fixed};
ghost use Rattle.dkg_core.specs.Forms.{SetupsComeTo, SetupsStore};
ghost use Rattle.dkg_core.specs.Heard.{OpeningsKeep, OpeningsRestore, PeersAgree, PeersAreKept, RunsAreKept, SetupsKeep};
ghost use Rattle.dkg_core.specs.Joining.{JoinsTrack, ProbesJoin};
ghost use Rattle.dkg_core.specs.Laws.{DuesAreAnswered, OpeningsPrune, OthersAcknowledgeNothing, PeersAreHeard, SetupsAreSound, SetupsPrune};
ghost use Rattle.dkg_core.specs.Counted.{CutsFall, RunsCount};
ghost use Rattle.dkg_core.specs.Probes.{ProbesStep};
ghost use Rattle.dkg_core.specs.Storing.{NodeOpeningsKeepSecrets, NodeStepsKeepSecrets, OpeningsKeepSeeds, OpeningsKeepShares, StepsKeepSeeds, StepsKeepShares};
ghost use Rattle.dkg_core.specs.Offering.{NodeOffersAreDealt, OffersAreDealt};
ghost use Rattle.dkg_core.specs.Stepping.{CommitsAreRead, HalvesGoOn, NextLivesStay, NodeStepsLead, NodeStepsLeadOver, StepsLead, StepsLeadOver};
ghost use Rattle.dkg_core.specs.Asked.{AdvancesLeadAt, read_somewhere};
ghost use Rattle.dkg_core.specs.SayingThrough.{StepsSayThroughAt};
ghost use Rattle.dkg_core.specs.Through.{SetupsComeThrough, StepsComeThroughAt};
ghost use Rattle.dkg_core.specs.Transcripts.{RunsAddDeeds};

/// A peer's message records a valid dealing of its sender under a new key alone, behind its private half, and acknowledges only
/// the dealing that is recorded by then.
pub fn peers_are_heard<Dir>()
    ensures { PeersAreHeard Dir }
{}

/// At every exit of a peer's message, whatever an operation in hand leaves, if memory had what whole devices give back, and what is brought fits a
/// record: the devices are whole and give back the dealings from before or with the sender's, and an acknowledgement is that of a dealing that they give back.
pub fn peers_are_kept<Dir>()
    ensures { PeersAreKept Dir }
{}

/// A peer's message that is due is acknowledged, whatever the devices hold.
pub fn dues_are_answered<Dir>()
    ensures { DuesAreAnswered Dir }
{}

/// Any other message acknowledges nothing, records this node's own dealing alone, and prunes nothing of the epoch of the next
/// height, nor of the one before.
pub fn others_acknowledge_nothing<Dir>()
    ensures { OthersAcknowledgeNothing Dir }
{}

/// A setup puts a share and a seed, and prunes nothing of the awaited epoch, nor of the one before.
pub fn setups_prune<Dir>()
    ensures { SetupsPrune Dir }
{}

/// At every exit of a setup the devices give back each dealing of the awaited epoch and of the one before, as they did.
pub fn setups_keep<Dir>()
    ensures { SetupsKeep Dir }
{}

/// An opening prunes nothing of the epoch that it starts in, nor of the one before; it acknowledges nothing.
pub fn openings_prune<Dir>()
    ensures { OpeningsPrune Dir }
{}

/// At every exit of an opening the devices give back each dealing of the epoch that it starts in and of the one before, as they
/// did.
pub fn openings_keep<Dir>()
    ensures { OpeningsKeep Dir }
{}

/// An opening begins with the barrier and the journal's opening, and then lists exactly what the devices give back.
pub fn openings_restore<Dir>()
    ensures { OpeningsRestore Dir }
{}

/// An epoch is entered where the fence is ready for it and its scheme was registered, and no device is touched.
pub fn enters_registered<Dir>()
    ensures { EntersRegistered Dir }
{}

/// The last block of the entered epoch is acknowledged once the next epoch was entered.
pub fn last_blocks_are_entered<Dir>()
    ensures { LastBlocksAreEntered Dir }
{}

/// Where memory and devices agree on the dealings before a peer's message, they agree behind it.
pub fn peers_agree<Dir>()
    ensures { PeersAgree Dir }
{}

/// At every exit of a run of peers' messages, if memory had what whole devices give back, and what is brought fits a record: the devices are whole, and
/// each acknowledgement and each recorded dealing of the run is that of a dealing that they give back.
pub fn runs_are_kept<Dir>()
    ensures { RunsAreKept Dir }
{}

/// Under what a ceremony promises: a setup leaves the life awaiting the epoch of the next height, and where it takes part in a
/// round, that is the epoch's, and what this node deals to itself there is valid.
pub fn setups_are_sound<Dir>()
    ensures { SetupsAreSound Dir }
{}

/// Where the devices are whole and give back what is recorded in memory before a step, they do so behind it, whatever the step
/// takes, if what it may record fits a record.
pub fn steps_agree<Dir>()
    ensures { StepsAgree Dir }
{}

/// So they do behind a setup.
pub fn setups_agree<Dir>()
    ensures { SetupsAgree Dir }
{}

/// Over whole devices an opening in either mode leaves in memory what the devices give back.
pub fn openings_agree<Dir>()
    ensures { OpeningsAgree Dir }
{}

/// A run of a course adds the lines of its deeds, in their order, and all of them where nothing broke it off.
pub fn runs_add_deeds<Dir, F, S>()
    ensures { RunsAddDeeds Dir F S }
{}

/// A run counts the calls of its course: all of them where it ended by itself, and no more.
pub fn runs_count<Dir, F, S>()
    ensures { RunsCount Dir F S }
{}

/// Where a cut broke a course off, the call that is cut is one of the course's; where it ended by itself, and no cut was passed over,
/// that call is none of them.
pub fn cuts_fall<Dir, F, S>()
    ensures { CutsFall Dir F S }
{}

/// In the form of epochs a setup by an info, of any epoch, stops by faults of its own alone, each with its cause in the info, this node's share and
/// seed or what is recorded; or it leaves a life that takes part in the info's round, with the dealer that share and seed make. It reads once at most.
pub fn setups_come_to<Dir>()
    ensures { SetupsComeTo Dir }
{}

/// A setup that commits leaves the epoch's seed stored, and its share, if there is one.
pub fn setups_store<Dir>()
    ensures { SetupsStore Dir }
{}

/// Whatever runs as a probe's acts runs as the course that joins them to a node's, over any devices, which it leaves as they were, and with
/// the same lines. What broke a probe off is want of memory.
pub fn probes_join<Dir, F, G, S, T>()
    ensures { ProbesJoin Dir F G S T }
{}

/// A manager that does the calls of the course that joins a probe's acts tracks what these say.
pub fn joins_track<Dir, F, G, S, T>()
    ensures { JoinsTrack Dir F G S T }
{}

/// What runs as a probe's own step, from the state that the life has of it, runs as the node's half of the step: over any devices, which it
/// leaves as they were, with the same lines, and to the same end or fault. The life has the state that it went to.
pub fn probes_step<Dir>()
    ensures { ProbesStep Dir }
{}

/// At every exit a run of a node's opening is one of its reshare half's, behind which no device is touched, no call is counted, and nothing is said of
/// dealings.
pub fn openings_run_behind<Dir>()
    ensures { OpeningsRunBehind Dir }
{}

/// So is a run of a node's step for a message of the reshare half, or for a block.
pub fn steps_run_behind<Dir>()
    ensures { StepsRunBehind Dir }
{}

/// Whatever the devices tell, a node's opening says what its reshare half says, and behind it nothing of dealings.
pub fn openings_say_behind<Dir>()
    ensures { OpeningsSayBehind Dir }
{}

/// So does a node's step for a message of the reshare half, or for a block.
pub fn steps_say_behind<Dir>()
    ensures { StepsSayBehind Dir }
{}

/// At every exit of an opening the devices hold each seed that they held, of the epoch that it starts in and of the one before on.
pub fn openings_keep_seeds<Dir>()
    ensures { OpeningsKeepSeeds Dir }
{}

/// .. and each share.
pub fn openings_keep_shares<Dir>()
    ensures { OpeningsKeepShares Dir }
{}

/// At every exit of any step the devices hold each seed that they held, of the epochs that the step prunes nothing of.
pub fn steps_keep_seeds<Dir>()
    ensures { StepsKeepSeeds Dir }
{}

/// .. and each share, where the step commits the share that is recovered: any but a block while including.
pub fn steps_keep_shares<Dir>()
    ensures { StepsKeepShares Dir }
{}

/// At every exit of a node's opening the devices hold each seed and each share that they held, of the epoch that it starts in and of the one before
/// on.
pub fn node_openings_keep_secrets<Dir>()
    ensures { NodeOpeningsKeepSecrets Dir }
{}

/// So they do at every exit of a node's step, of the epochs that it prunes nothing of; of shares, where it commits those that are recovered.
pub fn node_steps_keep_secrets<Dir>()
    ensures { NodeStepsKeepSecrets Dir }
{}

/// Whatever the devices tell, each half that a step offers is one that the life's dealer deals, to another player whose acknowledgement doesn't count
/// by then.
pub fn offers_are_dealt<Dir>()
    ensures { OffersAreDealt Dir }
{}

/// So is each that a node's step offers.
pub fn node_offers_are_dealt<Dir>()
    ensures { NodeOffersAreDealt Dir }
{}

/// By what the form of epochs takes (`IsTakenIn`) a step stops by faults of its own alone that have their cause: the fault that the block in hand is
/// refused for, another dealing of this node that is recorded, or what the info of an epoch's last block is refused for while following; or it leaves
/// the life that follows from it.
pub fn steps_lead<Dir>()
    ensures { StepsLead Dir }
{}

/// So it does over devices that tell: what it read is what they held.
pub fn steps_lead_over<Dir>()
    ensures { StepsLeadOver Dir }
{}

/// The orchestrator's half of a block below the entered epoch's last never stops where it doesn't wait: it acknowledges where it has entered an
/// epoch, and changes nothing.
pub fn halves_go_on<Dir>()
    ensures { HalvesGoOn Dir }
{}

/// In the form of epochs a node's step stops by the faults of its reshare half alone; or it leaves the life that this half left, whose orchestrator
/// waits for nothing.
pub fn node_steps_lead<Dir>()
    ensures { NodeStepsLead Dir }
{}

/// So it does over devices that tell.
pub fn node_steps_lead_over<Dir>()
    ensures { NodeStepsLeadOver Dir }
{}

/// Over devices that tell, the setup behind a commit has the share and the seed that were committed.
pub fn commits_are_read<Dir>()
    ensures { CommitsAreRead Dir }
{}

/// Where no epoch is taken over, the life that a step of the form leaves awaits the same epoch, in the same round and seat, and beside it nothing has
/// changed.
pub fn next_lives_stay<Dir>()
    ensures { NextLivesStay Dir }
{}

/// A setup of a life that has nothing of requests stops by its faults alone, or leaves such a life; which requests were used, and what they were told, stays.
pub fn setups_come_through<Dir>()
    ensures { SetupsComeThrough Dir }
{}

/// Requests are read until one needs more, none is left, or a verification runs: so no request is left unread while inclusion runs none, and a
/// verification starts only where the logs that were found have neither a cached artifact nor a retained result.
pub fn advances_lead<Dir>()
    ensures { (c : Fixed Dir) → AdvancesLeadAt c (read_somewhere c) }
{}

/// In a life that passes through whole epochs any step stops by these faults alone, each of which has its cause; or it leaves such a life. A result
/// that is handed in is one, whoever found it (`IsTakenThrough`).
pub fn steps_come_through<Dir>()
    ensures { (c : Fixed Dir) → StepsComeThroughAt c (read_somewhere c) }
{}

/// Whatever is read: each answer of a step is that of a request that it reads, by the logs that were found or what lacks, or of the one that waited for
/// the verification that ended, or the last block finished it; and what it tells as committed is the carried info's share.
pub fn steps_say_through<Dir>()
    ensures { (c : Fixed Dir) → StepsSayThroughAt c (read_somewhere c) }
{}
