//! What a run of a node's lives promises, and which scripts are run so far. The scripts are those of `dkg_text`, read by `dkg_reading`.
//!
//! A reader of the promise begins with four files. `specs/Promise.antt` has what a run of a script promises and its premises:
//! `RunsInOrder`, `RunsAll`, `KeepsDealings` and `AnswersDealings` are the clauses of the call that runs the lives, and `IsBuilt` and
//! `IsHonestRun` are what they presume. `specs/Kept.antt` has what it is that a transcript and the devices keep (`Kept`), entry by entry.
//! `specs/SameOffers.antt` has what the node offers, `specs/Laws.antt` what follows for a dealer and for the node; the calls below prove it. From there one goes down as far as one
//! wants: `Order` (where an entry may stand), `Due` (when an acknowledgement is owed), `Consistent`, `OwnMarks` and `Valid` (what is
//! presumed of a script), `AsCut` and `AsCutLaws` (a script as its lives were cut, and what stays of it), `Ends` (how entries end), and
//! below these `Progress`, `Position`, `Blocks`, `Setting` and `Readings`. Which scripts are run so far is `Inclusion`, which the promise
//! presumes, and `InForm`, by which `read_in_form` answers. `Asked` is what requests are fed, `LogsKnown` what is known of recorded logs,
//! and `History` what is presumed of a script's past where something rests on all logs of an epoch.
#![tactic(auto)]

mod in_form;
mod promise;
mod read;

pub use dkg_text::{
    Anchor, BlockLine, BlockLines, Cut, Event, Events, Indexes, Life, Lives, PlayerLine,
    PlayerLines, ProbeLine, Script, ScriptConfig, SyncLine, print_of,
};
pub use in_form::is_in_form;
pub use promise::{
    acknowledged_survives, acknowledges_once, acknowledges_once_again, comes_as_far,
    ends_as_scripted, honest_anyhow, lies_within_inclusion, own_marks_stand_before, stays_in_order,
    stays_in_order_as_cut, stays_kept, stays_of_epochs, stays_of_inclusion, valid_anyhow,
    valid_as_cut,
};
pub use read::{ReadError, read_in_form};
