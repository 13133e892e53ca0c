//! An append-only journal, with one file for each section.
//!
//! The store above opens it once a life, replays its entries, and appends an entry for each event.
ghost use Rattle.std.specs.Prelude.{◌≡◌, ◌≢◌, ◌⊎◌, ◌↔◌, ◌<◌, ◌≤◌, ◌^◌, ◌+◌, ◌++◌, [], ◌∷◌, List, ℕ, Option, Some, None, length, OnOk, OnErr, IfOk, IfErr, IsErrOf, IsTrue};
ghost use Rattle.dkg_journal.specs.Errors.{IsOfDevice};
ghost use Rattle.dkg_journal.specs.Names.{Files};
ghost use Rattle.dkg_journal.specs.Opening.{AreUnbroken};
ghost use Rattle.dkg_journal.specs.Journals.{IsOpen, append_calls};
ghost use Rattle.dkg_journal.specs.Counts.{Caused};
ghost use Rattle.dkg_journal.specs.Disk.{ImagesFollow, Allowed, Torn, Rose, written};
ghost use Rattle.dkg_journal.specs.Fuse.{HasRun};
ghost use Rattle.dkg_journal.specs.Operations.{Does, Appends};
ghost use Rattle.dkg_journal.specs.Places.{has_room, place_at};
ghost use Rattle.dkg_journal.specs.Ready.{IsPrepared, CanAppend};
ghost use Rattle.dkg_journal.specs.Records.{behind_gate};
ghost use Rattle.dkg_journal.specs.Steps.{Firm, IsNextAppend, Into, KeepsBut, Grows, SegmentAt, place_or_start, make_segment, make_calls, append_calls_at};
ghost use Rattle.dkg_values.specs.declared.name.Name.{Name};

use crate::by_section::BySection;
use crate::{Disk, Fuse, JournalEntry, JournalError, Op, perform};
use dkg_values::{Blob, Mem, Name};
use std::alloc::{AllocError, Global};

const MAX_PLACE: u64 = 1 << 62;

/// A journal over one segment a section: the place of the closed gate of each file that is there, and the entries that are still to be
/// replayed.
#[derive(Drop)]
pub struct Journal {
    pub(crate) places: BySection<Option<u64>>,
    pub(crate) waiting: Vec<JournalEntry>,
}

/// Makes one write to a segment, and syncs it.
fn write_segment<D: Disk>(
    alloc: Global,
    disk: &mut D,
    fuse: &mut Fuse,
    section: u64,
    write: &Op,
) -> Result<(), JournalError>
    requires { IsTrue D.tells → Allowed (D.files disk.old) write.now }
    ensures done { OnOk result (IsTrue D.tells → (x bytes : List ℕ) (place : ℕ) → write.now ≡ Op.WriteAt (Name.Segment section) place bytes
        → Firm (Name.Segment section) x (D.files disk.old) (D.image disk.old)
        → Firm (Name.Segment section) (written place bytes x) (D.files disk.new) (D.image disk.new)) }
    ensures images { (x bytes : List ℕ) (place : ℕ) → write.now ≡ Op.WriteAt (Name.Segment section) place bytes
        → Firm (Name.Segment section) x (D.files disk.old) (D.image disk.old)
        → ImagesFollow (Into (Name.Segment section) (Torn place (length bytes) x)) (D.image disk.old) (D.image disk.new) }
    ensures caused { Caused (IsTrue D.tells) D.files D.image D.faults D.wants result disk.old disk.new fuse.old fuse.new }
    ensures wanted { IsErrOf result JournalError.NoMemory → Rose (D.wants disk.old) (D.wants disk.new) }
    ensures error_kinds { IfErr result IsOfDevice }
    ensures calls { HasRun D.made result disk.old disk.new fuse.old fuse.new (write.now ∷ Op.Sync (Name.Segment section) ∷ []) }
{
    perform(alloc, disk, fuse, write)?;
    perform(
        alloc,
        disk,
        fuse,
        &Op::Sync {
            name: Name::Segment(section),
        },
    )?;
    Ok(())
}

/// Makes the file of a section with a closed gate, if there is none.
fn make_file<D: Disk>(
    alloc: Global,
    disk: &mut D,
    fuse: &mut Fuse,
    section: u64,
    place: Option<u64>,
    make: &Op,
) -> Result<(), JournalError>
    requires { make.now ≡ make_segment section }
    ensures open { OnOk result (IsTrue D.tells → IsNextAppend section place (D.files disk.old) (D.image disk.old)
        → SegmentAt section (place_or_start place) (D.files disk.new) (D.image disk.new)) }
    ensures images { IsNextAppend section place (D.files disk.old) (D.image disk.old)
        → ImagesFollow (KeepsBut (Name.Segment section)) (D.image disk.old) (D.image disk.new) }
    ensures sound { IsNextAppend section place (D.files disk.old) (D.image disk.old) → AreUnbroken (D.image disk.old) → AreUnbroken (D.image disk.new) }
    ensures same { (p : ℕ) → place ≡ Some p → disk.new ≡ disk.old }
    ensures caused { Caused (IsTrue D.tells) D.files D.image D.faults D.wants result disk.old disk.new fuse.old fuse.new }
    ensures wanted { IsErrOf result JournalError.NoMemory → Rose (D.wants disk.old) (D.wants disk.new) }
    ensures error_kinds { IfErr result IsOfDevice }
    ensures calls { HasRun D.made result disk.old disk.new fuse.old fuse.new (make_calls section place) }
{
    match place {
        Some(_) => Ok(()),
        None => {
            perform(alloc, disk, fuse, make)?;
            Ok(())
        }
    }
}

/// What is written behind the closed gate.
#[tactic(auto, unfolding(crate::specs::Records::number32))]
fn bytes_behind(alloc: Global, body: &[u8]) -> Result<Vec<u8>, AllocError>
    requires { length body.now < 2 ^ 32 }
    ensures { IfOk result (λ v. v.items ≡ behind_gate body.now) }
{
    let len = body.len() as u32;
    let mut bytes = Vec::with_capacity(alloc, body.len() + 5)?;
    bytes.extend_from_slice(&len.to_be_bytes())?;
    bytes.extend_from_slice(body)?;
    bytes.push(0)?;
    Ok(bytes)
}

/// The calls of an append, with their bytes.
#[derive(Drop)]
pub struct Prepared {
    make: Op,
    write: Op,
    gate: Op,
}

fn prepare(alloc: Global, place: u64, section: u64, body: &[u8]) -> Result<Prepared, AllocError>
    requires short { length body.now < 2 ^ 32 }
    requires low { place < 2 ^ 63 }
    ensures make { IfOk result (λ p. p.make ≡ make_segment section) }
    ensures write { IfOk result (λ p. p.write ≡ Op.WriteAt (Name.Segment section) (place + 1) (behind_gate body.now)) }
    ensures gate { IfOk result (λ p. p.gate ≡ Op.WriteAt (Name.Segment section) place (1 ∷ [])) }
{
    let behind = bytes_behind(alloc, body)?;
    let open = vec![in alloc; 1]?;
    let closed = vec![in alloc; 0]?;
    let name = Name::Segment(section);
    Ok(Prepared {
        make: Op::Install {
            name,
            bytes: Blob::new(closed),
        },
        write: Op::WriteAt {
            name,
            place: place + 1,
            bytes: Blob::new(behind),
        },
        gate: Op::WriteAt {
            name,
            place,
            bytes: Blob::new(open),
        },
    })
}

/// Makes the calls of an append.
fn append_prepared<D: Disk>(
    alloc: Global,
    disk: &mut D,
    fuse: &mut Fuse,
    place: Option<u64>,
    calls: &Prepared,
    section: u64,
    body: &[u8],
) -> Result<(), JournalError>
    requires prepared { IsPrepared calls.now place (section, body.now) }
    requires next { IsTrue D.tells → IsNextAppend section place (D.files disk.old) (D.image disk.old) }
    ensures open { OnOk result (IsTrue D.tells → SegmentAt section (place_or_start place + 5 + length body.now) (D.files disk.new) (D.image disk.new)) }
    ensures grows { IsTrue D.tells → Grows (section, body.now) result (D.image disk.old) (D.image disk.new) }
    ensures sound { IsTrue D.tells → AreUnbroken (D.image disk.old) → AreUnbroken (D.image disk.new) }
    ensures does { IsTrue D.tells → Does D.files D.image (Appends (section, body.now)) result disk.old disk.new fuse.old fuse.new }
    ensures caused { Caused (IsTrue D.tells) D.files D.image D.faults D.wants result disk.old disk.new fuse.old fuse.new }
    ensures wanted { IsErrOf result JournalError.NoMemory → Rose (D.wants disk.old) (D.wants disk.new) }
    ensures error_kinds { IfErr result IsOfDevice }
    ensures calls { HasRun D.made result disk.old disk.new fuse.old fuse.new (append_calls_at place (section, body.now)) }
{
    make_file(alloc, disk, fuse, section, place, &calls.make)?;
    write_segment(alloc, disk, fuse, section, &calls.write)?;
    write_segment(alloc, disk, fuse, section, &calls.gate)?;
    Ok(())
}

impl Journal {
    /// Where the file of a section ends, if it is there.
    fn place_of(&self, section: u64) -> Option<u64>
        ensures { result ≡ place_at self.now.places section }
    {
        match self.places.get(section) {
            Some(place) => *place,
            None => None,
        }
    }

    /// Makes room for the place of a section.
    fn make_room(&mut self, section: u64) -> Mem<()>
        ensures room { OnOk result (IsTrue (has_room self.new.places section)) }
        ensures places { (s : ℕ) → place_at self.new.places s ≡ place_at self.old.places s }
        ensures waiting { self.new.waiting ≡ self.old.waiting }
        ensures kept { OnErr result (self.new ≡ self.old) }
    {
        match self.places.get(section) {
            Some(_) => Ok(()),
            None => self.places.insert(section, None),
        }
    }

    /// What an append will write, with all the memory that it takes.
    pub fn ready(
        &mut self,
        alloc: Global,
        section: u64,
        body: &[u8],
    ) -> Result<Prepared, JournalError>
        ensures calls { IfOk result (λ calls. CanAppend calls self.new (section, body.now)) }
        ensures places { (s : ℕ) → place_at self.new.places s ≡ place_at self.old.places s }
        ensures waiting { self.new.waiting ≡ self.old.waiting }
        ensures kept { OnErr result (self.new ≡ self.old) }
        ensures too_long { IsErrOf result JournalError.TooLong ↔ 2 ^ 32 ≤ length body.now }
        ensures error_kinds { IfErr result (λ e. (e ≡ JournalError.TooLong) ⊎ (e ≡ JournalError.NoMemory)) }
    {
        if body.len() >= 1 << 32 {
            return Err(JournalError::TooLong);
        }
        let place = self.place_of(section).unwrap_or(0);
        if place > MAX_PLACE {
            return Err(JournalError::NoMemory);
        }
        let calls = prepare(alloc, place, section, body)?;
        self.make_room(section)?;
        Ok(calls)
    }

    /// Makes the calls of an append that is ready. It takes no memory of its own. After an error, open the journal again.
    pub fn append_ready<D: Disk>(
        &mut self,
        alloc: Global,
        disk: &mut D,
        fuse: &mut Fuse,
        calls: &Prepared,
        section: u64,
        body: &[u8],
    ) -> Result<(), JournalError>
        requires ready { CanAppend calls.now self.old (section, body.now) }
        requires open { IsTrue D.tells → IsOpen self.old (D.files disk.old) (D.image disk.old) }
        ensures open { OnOk result (IsTrue D.tells → IsOpen self.new (D.files disk.new) (D.image disk.new)) }
        // Each image has the entries from before, with the new one or without; at Ok it has it.
        ensures grows { IsTrue D.tells → Grows (section, body.now) result (D.image disk.old) (D.image disk.new) }
        // .. and each record in it is whole.
        ensures sound { IsTrue D.tells → AreUnbroken (D.image disk.new) }
        ensures does { IsTrue D.tells → Does D.files D.image (Appends (section, body.now)) result disk.old disk.new fuse.old fuse.new }
        ensures caused { Caused (IsTrue D.tells) D.files D.image D.faults D.wants result disk.old disk.new fuse.old fuse.new }
        ensures wanted { IsErrOf result JournalError.NoMemory → Rose (D.wants disk.old) (D.wants disk.new) }
        ensures error_kinds { IfErr result IsOfDevice }
        ensures calls { HasRun D.made result disk.old disk.new fuse.old fuse.new (append_calls self.old (section, body.now)) }
    {
        let place = self.place_of(section);
        append_prepared(alloc, disk, fuse, place, calls, section, body)?;
        let end = place.unwrap_or(0) + 5 + body.len() as u64;
        self.places.set(section, Some(end));
        Ok(())
    }

    /// Adds an entry at the end of its section. After an error, open the journal again.
    pub fn append<D: Disk>(
        &mut self,
        alloc: Global,
        disk: &mut D,
        fuse: &mut Fuse,
        section: u64,
        body: &[u8],
    ) -> Result<(), JournalError>
        requires { IsTrue D.tells → IsOpen self.old (D.files disk.old) (D.image disk.old) }
        ensures open { OnOk result (IsTrue D.tells → IsOpen self.new (D.files disk.new) (D.image disk.new)) }
        // Each image has the entries from before, with the new one or without; at Ok it has it.
        ensures grows { IsTrue D.tells → Grows (section, body.now) result (D.image disk.old) (D.image disk.new) }
        // .. and each record in it is whole.
        ensures sound { IsTrue D.tells → AreUnbroken (D.image disk.new) }
        // What the files stand for, where nothing of the disk was loose: with the entry, and nothing is loose.
        ensures does { IsTrue D.tells → Does D.files D.image (Appends (section, body.now)) result disk.old disk.new fuse.old fuse.new }
        ensures too_long { IsErrOf result JournalError.TooLong ↔ 2 ^ 32 ≤ length body.now }
        ensures caused { Caused (IsTrue D.tells) D.files D.image D.faults D.wants result disk.old disk.new fuse.old fuse.new }
        ensures memory { IsErrOf result JournalError.NoMemory → ((self.new ≡ self.old) × (disk.new ≡ disk.old) × (fuse.new ≡ fuse.old))
            ⊎ Rose (D.wants disk.old) (D.wants disk.new) }
        ensures not_corrupt { (name : Name) (place : ℕ) → IsErrOf result (JournalError.Corrupt name place) → ⊥ }
        ensures calls { HasRun D.made result disk.old disk.new fuse.old fuse.new (append_calls self.old (section, body.now)) }
    {
        let calls = self.ready(alloc, section, body)?;
        self.append_ready(alloc, disk, fuse, &calls, section, body)
    }
}
