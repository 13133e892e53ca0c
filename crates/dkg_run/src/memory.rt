//! The devices of a program that begins with nothing.
ghost use Rattle.dkg_journal.specs.Table.{contents, RowsImage};
ghost use Rattle.dkg_run.specs.Fresh.{AreFresh};

use dkg_journal::SureDisk;
use dkg_store::SureSecrets;
use std::alloc::Global;

/// An empty disk and an empty secret store in memory, of the types that never fail: their counts of failures are always 0, so that no run over them ends in one.
/// They meet what a run asks of its devices, whatever the script.
pub fn fresh_devices(alloc: Global) -> (SureDisk, SureSecrets)
    ensures fresh { AreFresh (contents result.0.files) (RowsImage result.0.files) result.1.held }
{
    (SureDisk::new(alloc), SureSecrets::new(alloc))
}
