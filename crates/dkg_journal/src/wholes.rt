//! Calls that put or take away whole files, one behind the other.
//!
//! Opening a journal mends its files so, and a prune takes files away so.
ghost use Rattle.std.specs.Prelude.{◌≡◌, ◌≤◌, OnOk, IsErrOf, IsTrue, IfErr};
ghost use Rattle.dkg_journal.specs.Counts.{Caused};
ghost use Rattle.dkg_journal.specs.Disk.{ImagesFollow, Rose};
ghost use Rattle.dkg_journal.specs.Errors.{IsOfDevice};
ghost use Rattle.dkg_journal.specs.Fuse.{HasRun};
ghost use Rattle.dkg_journal.specs.Wholes.{Amid, AreOfWhole, Becomes, after_all};

use crate::{Disk, Fuse, JournalError, Op, perform};
use std::alloc::Global;

/// Makes calls that each put or take away a whole file.
pub fn perform_all<D: Disk>(
    alloc: Global,
    disk: &mut D,
    fuse: &mut Fuse,
    ops: &[Op],
) -> Result<(), JournalError>
    requires { IsTrue D.tells → AreOfWhole ops.now }
    ensures files { OnOk result (IsTrue D.tells → D.files disk.new ≡ after_all ops.now (D.files disk.old)) }
    ensures done { OnOk result (IsTrue D.tells → ImagesFollow (Becomes ops.now) (D.image disk.old) (D.image disk.new)) }
    ensures amid { IsTrue D.tells → ImagesFollow (Amid ops.now) (D.image disk.old) (D.image disk.new) }
    ensures caused { Caused (IsTrue D.tells) D.files D.image D.faults D.wants result disk.old disk.new fuse.old fuse.new }
    ensures wanted { IsErrOf result JournalError.NoMemory → Rose (D.wants disk.old) (D.wants disk.new) }
    ensures error_kinds { IfErr result IsOfDevice }
    ensures calls { HasRun D.made result disk.old disk.new fuse.old fuse.new ops.now }
{
    for op in ops {
        perform(alloc, disk, fuse, op)?;
    }
    Ok(())
}
