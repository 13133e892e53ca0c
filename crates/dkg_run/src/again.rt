//! One call behind another, over the same devices.
ghost use Rattle.dkg_run.specs.Again.{AcknowledgesAsBefore, RunsAgain};

use dkg_journal::Disk;

/// What running a script's lives leaves stands under the premises of the next call: at Ok as it is, and behind a fault or want of memory once the disk
/// was stopped.
pub fn runs_again<D: Disk>()
    ensures { RunsAgain D.files D.image }
{}

/// A second call acknowledges as the first did, where it begins with what that left.
pub fn acknowledges_as_before<D: Disk>()
    ensures { AcknowledgesAsBefore D.files D.image }
{}
