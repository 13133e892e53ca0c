//! Opening a journal on a disk that a crash may have left.
//!
//! The store calls it once a life, after a barrier.
ghost use Rattle.std.specs.Prelude.{◌≡◌, ◌⊎◌, ◌≤◌, ◌++◌, [], ◌∷◌, List, ℕ, false, Option, Some, None, filter, length, map as list_map, OnOk, IfOk, IfErr, IsErrOf, IsTrue, option_map};
ghost use Rattle.std.specs.Ordering.{nat_cmp, eq_by_cmp};
ghost use Rattle.std.specs.List.{list_any};
ghost use Rattle.std.specs.FinMap as map;
ghost use Rattle.std.specs.FinMap.{find, get, keys};
ghost use Rattle.dkg_journal.specs.Counts.{Caused, Counts};
ghost use Rattle.dkg_journal.specs.Errors.{IsOfDisk, IsOfReading};
ghost use Rattle.dkg_journal.specs.Names.{Files, name_cmp};
ghost use Rattle.dkg_journal.specs.Disk.{Rose, IsUnchanged, Lands};
ghost use Rattle.dkg_journal.specs.Found.{Takes, FindsSegments};
ghost use Rattle.dkg_journal.specs.Fuse.{HasRun};
ghost use Rattle.dkg_journal.specs.Operations.{Does, Opens};
ghost use Rattle.dkg_journal.specs.Opening.{first_break, broken_rows, is_unnamed, mend_of, open_calls, removes};
ghost use Rattle.dkg_journal.specs.Records.{SectionEntry, Whole, broken_at, entries};
ghost use Rattle.dkg_journal.specs.Gated.{gated, gated_entries};
ghost use Rattle.dkg_journal.specs.Segments.{Segments, parted, segment_rows, segments};
ghost use Rattle.dkg_journal.specs.Opens.{Judges, KeepsAll, Repeats};
ghost use Rattle.dkg_journal.specs.Journals.{IsOpen};
ghost use Rattle.dkg_journal.specs.Wholes.{AreOfWhole};
ghost use Rattle.dkg_journal.specs.declared.disk.Op.TheVariants.{Install, Remove};
ghost use Rattle.dkg_values.specs.declared.name.Name.{Name};
ghost use Rattle.dkg_values.specs.declared.name.Name.TheVariants.{Flat, Segment};

use crate::by_section::BySection;
use crate::opening::parse;
use crate::parting::{Piece, part};
use crate::wholes::perform_all;
use crate::{Disk, DiskError, Fuse, Journal, JournalEntry, JournalError, Op};
use dkg_values::{Blob, Name};
use std::alloc::{AllocError, Global};
use std::mem;

/// What a journal's files hold, and the calls that mend them.
#[derive(Drop)]
struct Found {
    waiting: Vec<JournalEntry>,
    places: BySection<Option<u64>>,
    mending: Vec<Op>,
}

impl Found {
    fn new(alloc: Global) -> Found
        ensures waiting { result.waiting.items ≡ [] }
        ensures places { result.places ≡ map.empty }
        ensures mending { result.mending.items ≡ [] }
    {
        Found {
            waiting: Vec::new(alloc),
            places: BySection::new(alloc),
            mending: Vec::new(alloc),
        }
    }

    /// Takes a segment in: its entries, the place behind its last record, and where it ends there, the call that adds a closed gate.
    fn take_in(&mut self, alloc: Global, section: u64, bytes: Vec<u8>) -> Result<(), JournalError>
        ensures taken { OnOk result ((before : List Op) (rows : List (ℕ × List ℕ)) → find nat_cmp section rows ≡ None
            → Takes before rows self.old.waiting.items self.old.places self.old.mending.items
            → Takes before (rows ++ (section, bytes.items) ∷ []) self.new.waiting.items self.new.places self.new.mending.items) }
        ensures broken { IfErr result (λ e. (e ≡ JournalError.NoMemory)
            ⊎ ((place : ℕ) × (e ≡ JournalError.Corrupt (Segment section) place) × (broken_at 0 bytes.items ≡ Some place))) }
    {
        let place = parse(alloc, section, &bytes, &mut self.waiting)?;
        self.places.insert(section, Some(place))?;
        if place < bytes.len() as u64 {
            return Ok(());
        }
        let mut mended = bytes;
        mended.push(0)?;
        self.mending.push(Op::Install {
            name: Name::Segment(section),
            bytes: Blob::new(mended),
        })?;
        Ok(())
    }
}

/// The names of a disk's files, in their order.
fn list<D: Disk>(alloc: Global, disk: &mut D) -> Result<Vec<Name>, JournalError>
    ensures names { IfOk result (λ names. IsTrue D.tells → names.items ≡ keys (D.files disk.old)) }
    ensures same { IsUnchanged D.files D.image disk.old disk.new }
    ensures counts { Counts D.faults D.wants result disk.old disk.new }
    ensures wanted { IsErrOf result JournalError.NoMemory → Rose (D.wants disk.old) (D.wants disk.new) }
    ensures error_kinds { IfErr result IsOfDisk }
    ensures calls { D.made disk.old disk.new [] }
{
    match disk.list(alloc) {
        Ok(names) => Ok(names),
        Err(DiskError::Failed) => Err(JournalError::Disk),
        Err(DiskError::NoMemory) => Err(JournalError::NoMemory),
    }
}

/// The bytes of a file, if it is there.
fn read<D: Disk>(alloc: Global, disk: &mut D, name: Name) -> Result<Option<Vec<u8>>, JournalError>
    ensures bytes { IfOk result (λ bytes. IsTrue D.tells → option_map (λ v. v.items) bytes ≡ get (D.files disk.old) name) }
    ensures same { IsUnchanged D.files D.image disk.old disk.new }
    ensures counts { Counts D.faults D.wants result disk.old disk.new }
    ensures wanted { IsErrOf result JournalError.NoMemory → Rose (D.wants disk.old) (D.wants disk.new) }
    ensures error_kinds { IfErr result IsOfDisk }
    ensures calls { D.made disk.old disk.new [] }
{
    match disk.read(alloc, name) {
        Ok(bytes) => Ok(bytes),
        Err(DiskError::Failed) => Err(JournalError::Disk),
        Err(DiskError::NoMemory) => Err(JournalError::NoMemory),
    }
}

fn is_flat(name: Name) -> bool
    ensures { result ≡ eq_by_cmp name_cmp Flat name }
{
    match name {
        Name::Flat => true,
        Name::Plan | Name::Segment(_) => false,
    }
}

fn has_flat(names: &[Name]) -> bool
    ensures { result ≡ list_any (eq_by_cmp name_cmp Flat) names.now }
{
    names.iter().any(|name| is_flat(*name))
}

/// The bytes of the flat file, if these names have it. Else nothing is read.
fn read_flat<D: Disk>(
    alloc: Global,
    disk: &mut D,
    names: &[Name],
) -> Result<Option<Vec<u8>>, JournalError>
    ensures bytes { IfOk result (λ bytes. IsTrue D.tells → names.now ≡ keys (D.files disk.old)
        → option_map (λ v. v.items) bytes ≡ get (D.files disk.old) Flat) }
    ensures same { IsUnchanged D.files D.image disk.old disk.new }
    ensures unread { list_any (eq_by_cmp name_cmp Flat) names.now ≡ false → disk.new ≡ disk.old }
    ensures counts { Counts D.faults D.wants result disk.old disk.new }
    ensures wanted { IsErrOf result JournalError.NoMemory → Rose (D.wants disk.old) (D.wants disk.new) }
    ensures error_kinds { IfErr result IsOfDisk }
    ensures calls { D.made disk.old disk.new [] }
{
    if has_flat(names) {
        read(alloc, disk, Name::Flat)
    } else {
        Ok(None)
    }
}

/// Reads the segments of these names, and judges each.
fn find_segments<D: Disk>(
    alloc: Global,
    disk: &mut D,
    names: &[Name],
) -> Result<Found, JournalError>
    ensures found { IfOk result (λ f. IsTrue D.tells → names.now ≡ keys (D.files disk.old)
        → Takes [] (segment_rows (map.entries (D.files disk.old))) f.waiting.items f.places f.mending.items) }
    ensures broken { (name : Name) (place : ℕ) → IsErrOf result (JournalError.Corrupt name place) → IsTrue D.tells
        → names.now ≡ keys (D.files disk.old) → broken_rows (segment_rows (map.entries (D.files disk.old))) ≡ Some (name, place) }
    ensures same { IsUnchanged D.files D.image disk.old disk.new }
    ensures counts { Counts D.faults D.wants result disk.old disk.new }
    ensures not_cut { IsErrOf result JournalError.Cut → ⊥ }
    ensures not_long { IsErrOf result JournalError.TooLong → ⊥ }
    ensures calls { D.made disk.old disk.new [] }
{
    let mut found = Found::new(alloc);
    for name in names {
        if let Name::Segment(section) = *name {
            if let Some(bytes) = read(alloc, disk, *name)? {
                found.take_in(alloc, section, bytes)?;
            }
        }
    }
    Ok(found)
}

/// Whether a name is that of a segment whose section is not among these.
fn is_unnamed(segments: &BySection<Piece>, name: Name) -> bool
    ensures { result ≡ is_unnamed segments.now name }
{
    match name {
        Name::Segment(section) => segments.get(section).is_none(),
        Name::Plan | Name::Flat => false,
    }
}

/// The calls that take away the segments whose sections are not among these.
fn unnamed(
    alloc: Global,
    names: &[Name],
    segments: &BySection<Piece>,
) -> Result<Vec<Op>, AllocError>
    ensures { IfOk result (λ ops. ops.items ≡ removes (filter (is_unnamed segments.now) names.now)) }
{
    let mut ops = Vec::new(alloc);
    for name in names {
        if is_unnamed(segments, *name) {
            ops.push(Op::Remove { name: *name })?;
        }
    }
    Ok(ops)
}

/// Takes in the segments that a flat file was parted into.
fn take_parted(
    alloc: Global,
    mending: Vec<Op>,
    segments: &BySection<Piece>,
) -> Result<Found, JournalError>
    ensures found { IfOk result (λ f. Takes mending.items (map.entries segments.now) f.waiting.items f.places f.mending.items) }
    ensures broken { (name : Name) (place : ℕ) → IsErrOf result (JournalError.Corrupt name place)
        → broken_rows (map.entries segments.now) ≡ Some (name, place) }
    ensures error_kinds { IfErr result IsOfReading }
{
    let mut found = Found::new(alloc);
    found.mending = mending;
    for (section, piece) in segments.iter() {
        let bytes = piece.copy(alloc)?;
        found.take_in(alloc, *section, bytes)?;
    }
    Ok(found)
}

/// Parts a flat file into segments: first those that it does not name go, then each that it names is put in place, and then it goes.
fn migrate(alloc: Global, names: &[Name], bytes: &[u8]) -> Result<Found, JournalError>
    ensures found { IfOk result (λ f. (files : Files) → names.now ≡ keys files → get files Flat ≡ Some bytes.now
        → FindsSegments files f.waiting.items f.places f.mending.items) }
    ensures broken { (name : Name) (place : ℕ) → IsErrOf result (JournalError.Corrupt name place) → (name ≡ Flat) × (broken_at 8 bytes.now ≡ Some place) }
    ensures error_kinds { IfErr result IsOfReading }
{
    let segments = part(alloc, bytes)?;
    let removed = unnamed(alloc, names, &segments)?;
    let mut found = take_parted(alloc, removed, &segments)?;
    found.mending.push(Op::Remove { name: Name::Flat })?;
    Ok(found)
}

/// Reads a journal's files, and judges them all.
fn find<D: Disk>(alloc: Global, disk: &mut D) -> Result<Found, JournalError>
    ensures found { IfOk result (λ f. IsTrue D.tells → FindsSegments (D.files disk.old) f.waiting.items f.places f.mending.items) }
    ensures broken { (name : Name) (place : ℕ) → IsErrOf result (JournalError.Corrupt name place) → IsTrue D.tells
        → first_break (D.files disk.old) ≡ Some (name, place) }
    ensures same { IsUnchanged D.files D.image disk.old disk.new }
    ensures counts { Counts D.faults D.wants result disk.old disk.new }
    ensures not_cut { IsErrOf result JournalError.Cut → ⊥ }
    ensures not_long { IsErrOf result JournalError.TooLong → ⊥ }
    ensures calls { D.made disk.old disk.new [] }
{
    let names = list(alloc, disk)?;
    match read_flat(alloc, disk, &names)? {
        None => find_segments(alloc, disk, &names),
        Some(bytes) => migrate(alloc, &names, &bytes),
    }
}

impl Journal {
    /// Opens the journal of a disk of which nothing is loose, as after a barrier, and mends the ends of its files. A flat file is parted
    /// into segments. An error leaves every entry as it was.
    pub fn open<D: Disk>(
        alloc: Global,
        disk: &mut D,
        fuse: &mut Fuse,
    ) -> Result<Journal, JournalError>
        ensures open { IfOk result (λ j. IsTrue D.tells → Lands (D.files disk.old) (D.image disk.old) → IsOpen j (D.files disk.new) (D.image disk.new)) }
        // What it read is what the files stand for, each entry with the place of its gate.
        ensures gated { IfOk result (λ j. IsTrue D.tells → list_map gated j.waiting.items ≡ gated_entries (D.files disk.old)) }
        // Each image has the entries from before; each record in it is whole, but where one of the files was not and nothing was changed.
        ensures images { IsTrue D.tells → Lands (D.files disk.old) (D.image disk.old) → KeepsAll (D.image disk.old) (D.image disk.new) }
        // What the files stand for, where nothing of the disk was loose: the same, and nothing is loose.
        ensures does { IsTrue D.tells → Does D.files D.image (Opens (length (open_calls (D.files disk.old)))) result disk.old disk.new fuse.old fuse.new }
        // A record that is not whole is the one cause of Corrupt, and no Ok passes over one.
        ensures judges { IsTrue D.tells → Judges result (D.files disk.old) }
        // Another opening finds the same: at Ok, and at Corrupt, which comes before any change.
        ensures again { Repeats (IsTrue D.tells) D.files D.image result disk.old disk.new }
        ensures caused { Caused (IsTrue D.tells) D.files D.image D.faults D.wants result disk.old disk.new fuse.old fuse.new }
        ensures memory { IsErrOf result JournalError.NoMemory
            → (D.made disk.old disk.new [] × IsUnchanged D.files D.image disk.old disk.new × (fuse.new ≡ fuse.old))
            ⊎ Rose (D.wants disk.old) (D.wants disk.new) }
        ensures not_long { IsErrOf result JournalError.TooLong → ⊥ }
        ensures calls { IsTrue D.tells → HasRun D.made result disk.old disk.new fuse.old fuse.new (open_calls (D.files disk.old)) }
    {
        let Found {
            waiting,
            places,
            mending,
        } = find(alloc, disk)?;
        perform_all(alloc, disk, fuse, &mending)?;
        Ok(Journal { places, waiting })
    }

    /// The entries that `open` read, sections rising and each in its order. A second call gives none.
    pub fn replay(&mut self, alloc: Global) -> Vec<JournalEntry>
        ensures listed { result.items ≡ self.old.waiting.items }
        ensures once { self.new.waiting.items ≡ [] }
        ensures places { self.new.places ≡ self.old.places }
    {
        mem::replace(&mut self.waiting, Vec::new(alloc))
    }
}
