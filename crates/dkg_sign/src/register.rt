//! How a desk is opened over its record, and how an epoch's material is registered.
//!
//! The record is one encoded epoch in the file `Plan` of the desk's own disk. A higher epoch is put there before the desk holds its material.
ghost use Rattle.std.specs.Prelude.{◌≡◌, ◌≢◌, ◌≤◌, ◌⊎◌, [], ◌∷◌, List, OnOk, IfOk, IfErr, IsErrOf, IsTrue, None, Some, Ok, option_map};
ghost use Rattle.dkg_journal.specs.Disk.{ImagesFollow, IsUnchanged, Lands, Rose};
ghost use Rattle.dkg_journal.specs.Fuse.{Fused, Ran, RanAll};
ghost use Rattle.dkg_journal.specs.Names.{Files};
ghost use Rattle.dkg_sign.specs.Lives.{DeskDeed, KeepsPromise, Covers, deeds_with_registered};
ghost use Rattle.dkg_sign.specs.Recorded.{recorded, epoch_in, IsAsLeft};
ghost use Rattle.dkg_sign.specs.Registers.{AnswersRecord, IsDiskKept, IsOfDeskOpening, IsOfPut, JudgesRegistration, AnswersOpening, Registers, SameFiles, is_recorded_below, put_call};

use crate::desk::SigningDesk;
use crate::error::DeskError;
use crate::material::is_own_of;
use dkg_journal::{Disk, Fuse, Op, Record, perform};
use dkg_types::SchemeInfo;
use dkg_values::{CodecError, Epoch, Key, Value, decode_cfg, encode};
use std::alloc::Global;

/// The epoch that a record has.
fn current_in(alloc: Global, bytes: &Option<Vec<u8>>) -> Result<Option<Epoch>, DeskError>
    ensures { AnswersRecord (epoch_in (option_map (λ v. v.items) bytes.now)) result }
{
    let Some(bytes) = bytes else {
        return Ok(None);
    };
    match decode_cfg::<Epoch>(alloc, bytes, &()) {
        Ok(epoch) => Ok(Some(epoch)),
        Err(CodecError::NoMemory) => Err(DeskError::NoMemory),
        Err(_) => Err(DeskError::Corrupt { place: 0 }),
    }
}

/// Puts an epoch into the record.
fn put_epoch<D: Disk>(
    alloc: Global,
    disk: &mut D,
    fuse: &mut Fuse,
    epoch: u64,
) -> Result<(), DeskError>
    ensures done { OnOk result (IsTrue D.tells → Lands (D.files disk.old) (D.image disk.old)
        → (recorded (D.files disk.new) ≡ Ok (Some epoch)) × Lands (D.files disk.new) (D.image disk.new)) }
    ensures tried { Lands (D.files disk.old) (D.image disk.old) → (c : Files) → D.image disk.new c
        → (recorded c ≡ recorded (D.files disk.old)) ⊎ (recorded c ≡ Ok (Some epoch)) }
    ensures memory { IsErrOf result DeskError.NoMemory → IsUnchanged D.files D.image disk.old disk.new }
    ensures later { D.faults disk.old ≤ D.faults disk.new }
    ensures disk { IsErrOf result DeskError.Disk → Rose (D.faults disk.old) (D.faults disk.new) }
    ensures error_kinds { IfErr result IsOfPut }
    ensures fused { Fused DeskError.Cut DeskError.NoMemory result fuse.old fuse.new }
    ensures all { OnOk result (RanAll D.made disk.old disk.new fuse.old fuse.new (put_call epoch ∷ [])) }
    ensures calls { Ran D.made disk.old disk.new fuse.old fuse.new (put_call epoch ∷ []) }
{
    let bytes = encode(alloc, &Epoch(epoch))?;
    Record::put(alloc, disk, fuse, bytes.as_slice())?;
    Ok(())
}

impl SigningDesk {
    /// A desk over its record, of which nothing is held yet. The disk is the desk's own.
    ///
    /// Corrupt: the record is not one whole epoch. Disk: a call of the disk failed. Cut: the fuse cut the barrier that the
    /// opening makes.
    pub fn open<D: Disk>(
        alloc: Global,
        disk: &mut D,
        fuse: &mut Fuse,
        me: Key,
    ) -> Result<SigningDesk, DeskError>
        ensures fresh { IfOk result (λ desk. (desk.me ≡ me) × (desk.held ≡ None)) }
        ensures exact { IsTrue D.tells → AnswersOpening (recorded (D.files disk.old)) result }
        ensures error_kinds { IfErr result IsOfDeskOpening }
        ensures stands { IfOk result (λ desk. IsTrue D.tells → IsAsLeft desk (D.files disk.new) (D.image disk.new)) }
        ensures same { ImagesFollow SameFiles (D.image disk.old) (D.image disk.new) }
        ensures later { D.faults disk.old ≤ D.faults disk.new }
        ensures disk { IsErrOf result DeskError.Disk → Rose (D.faults disk.old) (D.faults disk.new) }
        ensures fused { Fused DeskError.Cut DeskError.NoMemory result fuse.old fuse.new }
        ensures calls { RanAll D.made disk.old disk.new fuse.old fuse.new (Op.Barrier ∷ []) }
        // The promise over lives: what was registered in earlier lives is known to this one.
        ensures lives { IsTrue D.tells → (deeds : List DeskDeed) → KeepsPromise deeds (D.image disk.old)
            → KeepsPromise deeds (D.image disk.new) × IfOk result (λ desk. Covers desk.current deeds) }
    {
        perform(alloc, disk, fuse, &Op::Barrier)?;
        let bytes = Record::get(alloc, disk)?;
        let current = current_in(alloc, &bytes)?;
        Ok(SigningDesk {
            me,
            current,
            held: None,
        })
    }

    /// Whether material is to be taken, or why it is refused.
    fn judge(&self, epoch: Epoch, info: &SchemeInfo) -> Result<bool, DeskError>
        ensures { JudgesRegistration self.now epoch info.now result }
    {
        if let Some(current) = self.replaced(epoch) {
            return Err(DeskError::Replaced {
                asked: epoch,
                current,
            });
        }
        if !is_own_of(info, self.me) {
            return Err(DeskError::Foreign { epoch });
        }
        match self.material(epoch) {
            None => Ok(true),
            Some(held) if held.same(info) => Ok(false),
            Some(_) => Err(DeskError::Conflict { epoch }),
        }
    }

    /// Whether the record has a lower epoch, or none.
    fn is_below(&self, epoch: Epoch) -> bool
        ensures { result ≡ is_recorded_below self.now.current epoch }
    {
        match self.current {
            None => true,
            Some(current) => current < epoch,
        }
    }

    /// Takes an epoch's material in place of what is held. A higher epoch is put into the record first; the same material again changes
    /// nothing.
    ///
    /// In this order: Replaced, a later epoch was registered; Foreign, the material is not of one output or not this node's; Conflict,
    /// other material of the epoch was registered in this life. Disk: a call of the disk failed. Cut: the fuse cut the put of the record.
    /// After Disk or Cut the desk must be opened again.
    pub fn register<D: Disk>(
        &mut self,
        alloc: Global,
        disk: &mut D,
        fuse: &mut Fuse,
        epoch: Epoch,
        info: SchemeInfo,
    ) -> Result<(), DeskError>
        ensures exact { Registers self.old self.new epoch info result disk.old disk.new fuse.old fuse.new }
        ensures stands { IsTrue D.tells → IsAsLeft self.old (D.files disk.old) (D.image disk.old) → IsDiskKept result
            → IsAsLeft self.new (D.files disk.new) (D.image disk.new) }
        ensures tried { IsAsLeft self.old (D.files disk.old) (D.image disk.old) → (c : Files) → D.image disk.new c
            → (recorded c ≡ Ok self.old.current) ⊎ (recorded c ≡ Ok (Some epoch)) }
        ensures later { D.faults disk.old ≤ D.faults disk.new }
        ensures disk { IsErrOf result DeskError.Disk → Rose (D.faults disk.old) (D.faults disk.new) }
        ensures fused { Fused DeskError.Cut DeskError.NoMemory result fuse.old fuse.new }
        ensures memory { IsErrOf result DeskError.NoMemory → IsUnchanged D.files D.image disk.old disk.new }
        ensures put { OnOk result (self.new.current ≢ self.old.current
            → RanAll D.made disk.old disk.new fuse.old fuse.new (put_call epoch ∷ [])) }
        ensures calls { Ran D.made disk.old disk.new fuse.old fuse.new (put_call epoch ∷ []) }
        // The promise over lives: an epoch is in the record, whatever a crash leaves, before its registration is answered Ok.
        ensures lives { IsTrue D.tells → IsAsLeft self.old (D.files disk.old) (D.image disk.old) → (deeds : List DeskDeed)
            → KeepsPromise deeds (D.image disk.old)
            → KeepsPromise (deeds_with_registered result epoch deeds) (D.image disk.new) × Covers self.new.current (deeds_with_registered result epoch deeds) }
    {
        if !self.judge(epoch, &info)? {
            return Ok(());
        }
        if self.is_below(epoch) {
            put_epoch(alloc, disk, fuse, epoch.0)?;
        }
        self.current = Some(epoch);
        self.held = Some(info);
        Ok(())
    }
}
