//! What the promise of a run means, over every script, every transcript and every crash.
//!
//! Each law is a call without a body, whose contract is the law. Whoever relies on the promise cites them.
ghost use Rattle.dkg_script.specs.AsCutLaws.{ComesAsFar, HonestAnyhow, StaysInOrderAsCut, StaysOfEpochs, StaysOfInclusion, ValidAnyhow, ValidAsCut};
ghost use Rattle.dkg_script.specs.InForm.{EpochsIsOfInclusion};
ghost use Rattle.dkg_script.specs.Laws.{AcknowledgesOnce, AcknowledgesOnceAgain, AcknowledgedSurvives, EndsAsScripted, OwnMarksStandBefore, StaysInOrder, StaysKept};

use dkg_journal::Disk;

/// No dealer gets two different acknowledgements of one epoch.
pub fn acknowledges_once<D: Disk>()
    ensures { AcknowledgesOnce D.image }
{}

/// .. nor in two runs, of which the second begins with what the first left.
pub fn acknowledges_once_again<D: Disk>()
    ensures { AcknowledgesOnceAgain D.image }
{}

/// An acknowledged dealing is found again after every crash, until an epoch two above has begun.
pub fn acknowledged_survives<D: Disk>()
    ensures { AcknowledgedSurvives D.image }
{}

/// What is kept stays kept under one entry more.
pub fn stays_kept<D: Disk>()
    ensures { StaysKept D.image }
{}

/// What is in order stays in order under one entry more.
pub fn stays_in_order()
    ensures { StaysInOrder }
{}

/// What is presumed of logs holds of the first entries of a transcript too.
pub fn own_marks_stand_before()
    ensures { OwnMarksStandBefore }
{}

/// The lives of a transcript in order ended as their script lets them.
pub fn ends_as_scripted()
    ensures { EndsAsScripted }
{}

/// A transcript in order comes as far over its script as it was cut.
pub fn comes_as_far()
    ensures { ComesAsFar }
{}

/// A transcript in order is in order over its script as it was cut.
pub fn stays_in_order_as_cut()
    ensures { StaysInOrderAsCut }
{}

/// A script of the form of epochs is of it as it was cut.
pub fn stays_of_epochs()
    ensures { StaysOfEpochs }
{}

/// A script of the form of inclusion is of it as it was cut.
pub fn stays_of_inclusion()
    ensures { StaysOfInclusion }
{}

/// A text's script of the form of epochs is of the form of inclusion.
pub fn lies_within_inclusion()
    ensures { EpochsIsOfInclusion }
{}

/// A script that is consistent wherever its cuts fall is consistent as it was cut.
pub fn honest_anyhow<D: Disk>()
    ensures { HonestAnyhow D.image }
{}

/// A script that is valid wherever its cuts fall is valid as it was cut.
pub fn valid_anyhow()
    ensures { ValidAnyhow }
{}

/// A script that is valid as it is cut, however that may be, is valid as it was cut.
pub fn valid_as_cut()
    ensures { ValidAsCut }
{}
