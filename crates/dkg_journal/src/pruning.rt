//! Pruning a journal: the files of sections below a minimum go.
//!
//! The store prunes a journal when the epoch before the last is done.
ghost use Rattle.std.specs.Prelude.{◌≡◌, ◌⊎◌, ◌≤◌, [], OnOk, IfOk, IfErr, IsErrOf, IsTrue};
ghost use Rattle.std.specs.FinMap.{keys};
ghost use Rattle.dkg_journal.specs.Counts.{Caused};
ghost use Rattle.dkg_journal.specs.Disk.{IsUnchanged, Rose};
ghost use Rattle.dkg_journal.specs.Errors.{IsOfDevice};
ghost use Rattle.dkg_journal.specs.Fuse.{HasRun};
ghost use Rattle.dkg_journal.specs.Operations.{Does, Prunes};
ghost use Rattle.dkg_journal.specs.Opening.{AreUnbroken};
ghost use Rattle.dkg_journal.specs.Places.{removes_below};
ghost use Rattle.dkg_journal.specs.Pruning.{prune_calls, Thins};
ghost use Rattle.dkg_journal.specs.Journals.{IsOpen};

use crate::by_section::BySection;
use crate::wholes::perform_all;
use crate::{Disk, Fuse, Journal, JournalError, Op};
use dkg_values::Name;
use std::alloc::{AllocError, Global};

/// The calls that take away the files of sections below the minimum, rising.
fn doomed(alloc: Global, places: &BySection<Option<u64>>, min: u64) -> Result<Vec<Op>, AllocError>
    ensures { IfOk result (λ ops. ops.items ≡ removes_below min places.now) }
{
    let mut ops = Vec::new(alloc);
    for (section, place) in places.below(min) {
        if place.is_some() {
            ops.push(Op::Remove {
                name: Name::Segment(*section),
            })?;
        }
    }
    Ok(ops)
}

impl Journal {
    /// Takes away the entries of sections below the minimum, by one call of the disk for each section that has a file, rising.
    /// After an error, open the journal again.
    pub fn prune<D: Disk>(
        &mut self,
        alloc: Global,
        disk: &mut D,
        fuse: &mut Fuse,
        min: u64,
    ) -> Result<(), JournalError>
        requires { IsTrue D.tells → IsOpen self.old (D.files disk.old) (D.image disk.old) }
        ensures open { OnOk result (IsTrue D.tells → IsOpen self.new (D.files disk.new) (D.image disk.new)) }
        // Each image has the entries at or above a minimum, at or below this one; at Ok it is this one.
        ensures thins { IsTrue D.tells → Thins min result (D.image disk.old) (D.image disk.new) }
        // .. and each record in it is whole.
        ensures sound { IsTrue D.tells → AreUnbroken (D.image disk.new) }
        ensures does { IsTrue D.tells → Does D.files D.image (Prunes min) result disk.old disk.new fuse.old fuse.new }
        ensures caused { Caused (IsTrue D.tells) D.files D.image D.faults D.wants result disk.old disk.new fuse.old fuse.new }
        ensures memory { IsErrOf result JournalError.NoMemory →
            ((self.new ≡ self.old) × D.made disk.old disk.new [] × IsUnchanged D.files D.image disk.old disk.new × (fuse.new ≡ fuse.old))
            ⊎ Rose (D.wants disk.old) (D.wants disk.new) }
        ensures error_kinds { IfErr result IsOfDevice }
        ensures calls { IsTrue D.tells → HasRun D.made result disk.old disk.new fuse.old fuse.new (prune_calls min (keys (D.files disk.old))) }
    {
        let ops = doomed(alloc, &self.places, min)?;
        perform_all(alloc, disk, fuse, &ops)?;
        self.places.prune(min);
        Ok(())
    }
}
