//! Two appends in a row, known by the journal's clauses alone: no gate and no file is named.
ghost use Rattle.std.specs.Prelude.{◌≡◌, OnOk, IsTrue};
ghost use Rattle.dkg_journal.specs.Disk.{Lands};
ghost use Rattle.dkg_journal.specs.Operations.{journaled, after_operation, Appends};
ghost use Rattle.dkg_journal.specs.Journals.{IsOpen};

use dkg_journal::{Disk, Fuse, Journal, JournalError};
use std::alloc::Global;

/// Appends two bodies to one section. What the files stand for then is what they stood for, with both entries in their order.
pub fn append_two<D: Disk>(
    alloc: Global,
    journal: &mut Journal,
    disk: &mut D,
    fuse: &mut Fuse,
    section: u64,
    first: &[u8],
    second: &[u8],
) -> Result<(), JournalError>
    requires open { IsTrue D.tells → IsOpen journal.old (D.files disk.old) (D.image disk.old) }
    requires settled { IsTrue D.tells → Lands (D.files disk.old) (D.image disk.old) }
    ensures both { OnOk result (IsTrue D.tells → journaled (D.files disk.new)
        ≡ after_operation (Appends (section, second.now)) (after_operation (Appends (section, first.now)) (journaled (D.files disk.old)))) }
    ensures settled { OnOk result (IsTrue D.tells → Lands (D.files disk.new) (D.image disk.new)) }
{
    journal.append(alloc, disk, fuse, section, first)?;
    journal.append(alloc, disk, fuse, section, second)?;
    Ok(())
}
