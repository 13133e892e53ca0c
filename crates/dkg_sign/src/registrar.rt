//! A registrar that hands each registration to a signing desk over a disk of its own.
//!
//! A node is given one beside its own registrar. What the desk refuses is kept in a list and does not stop the node.
ghost use Rattle.std.specs.Prelude.{◌≡◌, ◌≤◌, ◌⊎◌, ◌||◌, ◌++◌, [], ◌∷◌, ℕ, List, None, Ok, true, false, OnOk, OnErr, IsErrOf, IsTrue};
ghost use Rattle.dkg_types.specs.declared.scheme.SchemeInfo.{SchemeInfo};
ghost use Rattle.dkg_journal.specs.Disk.{ImagesFollow, Rose};
ghost use Rattle.dkg_journal.specs.Fuse.{Fused, RanAll};
ghost use Rattle.dkg_sign.specs.Lives.{DeskDeed, KeepsPromise, Covers, Registered, deeds_with_registered};
ghost use Rattle.dkg_sign.specs.Recorded.{recorded};
ghost use Rattle.dkg_sign.specs.Registrars.{Asked, Attempted, IsAsLeftOrShut, PutsAtMost, RanUncut, DeskStaysShut, Wanted, is_broken, opening_calls};
ghost use Rattle.dkg_sign.specs.Registers.{IsDiskKept, SameFiles, put_call};

use crate::desk::SigningDesk;
use crate::error::DeskError;
use dkg_journal::{Disk, Fuse};
use dkg_types::{Registrar, SchemeInfo};
use dkg_values::{Epoch, Mem, NoMemory};
use std::alloc::Global;

/// A desk with its disk, told of a node's registrations. After a failed call of the disk the next registration opens the desk again first.
#[derive(Drop)]
pub struct DeskRegistrar<D: Disk> {
    desk: SigningDesk,
    disk: D,
    refused: Vec<DeskError>,
    /// A call of the disk failed, so the desk may lie behind its record.
    reopen: bool,
}

/// Whether a desk is to be opened again behind this refusal: where it had to be, or where its disk failed.
fn opens_again(reopen: bool, why: &DeskError) -> bool
    ensures { result ≡ (reopen || is_broken (Err why.now)) }
{
    reopen || matches!(why, DeskError::Disk | DeskError::Cut)
}

impl<D: Disk> DeskRegistrar<D> {
    /// A registrar of a desk and the disk on which it was opened.
    pub fn new(alloc: Global, desk: SigningDesk, disk: D) -> DeskRegistrar<D>
        ensures desk { result.desk ≡ desk }
        ensures disk { result.disk ≡ disk }
        ensures refused { result.refused.items ≡ [] }
        ensures open { result.reopen ≡ false }
    {
        DeskRegistrar {
            desk,
            disk,
            refused: Vec::new(alloc),
            reopen: false,
        }
    }

    /// What was refused, in order: every refusal but want of memory.
    pub fn refused(&self) -> &[DeskError]
        ensures { result.now ≡ self.now.refused.items }
    {
        &self.refused
    }

    /// The desk as the last registration left it.
    pub fn desk(&self) -> &SigningDesk
        ensures { result.now ≡ self.now.desk }
    {
        &self.desk
    }

    /// Opens the desk again where it has to be.
    fn ready(&mut self, alloc: Global, fuse: &mut Fuse) -> Result<(), DeskError>
        ensures refused { self.new.refused ≡ self.old.refused }
        ensures open { OnOk result (self.new.reopen ≡ false) }
        ensures first { OnOk result (self.old.reopen ≡ false → self.new.desk ≡ self.old.desk) }
        ensures again { OnOk result (self.old.reopen ≡ true → (self.new.desk.me ≡ self.old.desk.me) × (self.new.desk.held ≡ None)) }
        ensures reads { IsTrue D.tells → OnOk result (self.old.reopen ≡ true → recorded (D.files self.old.disk) ≡ Ok self.new.desk.current) }
        ensures shut { OnErr result
            (DeskStaysShut D.tells (recorded (D.files self.old.disk)) self.old.reopen self.new.reopen self.old.desk self.new.desk result) }
        ensures later { D.faults self.old.disk ≤ D.faults self.new.disk }
        ensures disk { IsErrOf result DeskError.Disk → Rose (D.faults self.old.disk) (D.faults self.new.disk) }
        ensures fused { Fused DeskError.Cut DeskError.NoMemory result fuse.old fuse.new }
        ensures calls { RanAll D.made self.old.disk self.new.disk fuse.old fuse.new (opening_calls self.old.reopen) }
        ensures same { ImagesFollow SameFiles (D.image self.old.disk) (D.image self.new.disk) }
        ensures stands { IsTrue D.tells → IsAsLeftOrShut self.old.reopen self.old.desk (D.files self.old.disk) (D.image self.old.disk)
            → IsAsLeftOrShut self.new.reopen self.new.desk (D.files self.new.disk) (D.image self.new.disk) }
        ensures lives { IsTrue D.tells → (deeds : List DeskDeed) → KeepsPromise deeds (D.image self.old.disk) → Covers self.old.desk.current deeds
            → KeepsPromise deeds (D.image self.new.disk) × Covers self.new.desk.current deeds }
    {
        if !self.reopen {
            return Ok(());
        }
        let me = self.desk.me;
        self.desk = SigningDesk::open(alloc, &mut self.disk, fuse, me)?;
        self.reopen = false;
        Ok(())
    }

    /// Registers with the desk. No fuse cuts its calls.
    fn attempt(&mut self, alloc: Global, epoch: Epoch, info: SchemeInfo) -> Result<(), DeskError>
        ensures refused { self.new.refused ≡ self.old.refused }
        ensures went { DeskStaysShut D.tells (recorded (D.files self.old.disk)) self.old.reopen self.new.reopen self.old.desk self.new.desk result
            ⊎ (Asked D.tells (recorded (D.files self.old.disk)) self.old.reopen self.old.desk self.new.desk epoch info result
            × (self.new.reopen ≡ false)) }
        ensures not_cut { IsErrOf result DeskError.Cut → ⊥ }
        ensures later { D.faults self.old.disk ≤ D.faults self.new.disk }
        ensures disk { IsErrOf result DeskError.Disk → Rose (D.faults self.old.disk) (D.faults self.new.disk) }
        ensures calls { RanUncut D.made self.old.disk self.new.disk (opening_calls self.old.reopen ++ put_call epoch ∷ []) }
        ensures tried { IsTrue D.tells → IsAsLeftOrShut self.old.reopen self.old.desk (D.files self.old.disk) (D.image self.old.disk)
            → ImagesFollow (PutsAtMost epoch) (D.image self.old.disk) (D.image self.new.disk) }
        ensures stands { IsTrue D.tells → IsAsLeftOrShut self.old.reopen self.old.desk (D.files self.old.disk) (D.image self.old.disk) → IsDiskKept result
            → IsAsLeftOrShut self.new.reopen self.new.desk (D.files self.new.disk) (D.image self.new.disk) }
        ensures lives { IsTrue D.tells → IsAsLeftOrShut self.old.reopen self.old.desk (D.files self.old.disk) (D.image self.old.disk) → (deeds : List DeskDeed)
            → KeepsPromise deeds (D.image self.old.disk) → Covers self.old.desk.current deeds
            → KeepsPromise (deeds_with_registered result epoch deeds) (D.image self.new.disk)
            × Covers self.new.desk.current (deeds_with_registered result epoch deeds) }
    {
        let mut fuse = Fuse::never();
        self.ready(alloc, &mut fuse)?;
        self.desk
            .register(alloc, &mut self.disk, &mut fuse, epoch, info)
    }
}

impl<D: Disk> Registrar for DeskRegistrar<D> {
    ghost use Rattle.std.specs.Prelude.{false, []};

    ghost tells = { false };

    ghost taken = { λ _. [] };

    /// Registers with the desk, which is opened again first where its disk failed. A refusal is kept in the list; want of memory is answered.
    fn register(&mut self, alloc: Global, epoch: Epoch, info: SchemeInfo) -> Mem<()>
        ensures ok { IsTrue false → OnOk result (◌≡◌ {A = List (ℕ × SchemeInfo)} [] ([] ++ (epoch, info) ∷ [])) }
        ensures err { IsTrue false → OnErr result (◌≡◌ {A = List (ℕ × SchemeInfo)} [] []) }
        // What the desk answered, and that a refusal is listed.
        ensures told { OnOk result (Attempted D.tells (recorded (D.files self.old.disk)) self.old.reopen self.new.reopen self.old.desk self.new.desk epoch info
            self.old.refused.items self.new.refused.items (D.faults self.old.disk) (D.faults self.new.disk)) }
        ensures wanted { OnErr result (Wanted D.tells (recorded (D.files self.old.disk)) self.old.reopen self.new.reopen self.old.desk self.new.desk
            × (self.new.refused.items ≡ self.old.refused.items)) }
        ensures later { D.faults self.old.disk ≤ D.faults self.new.disk }
        ensures calls { RanUncut D.made self.old.disk self.new.disk (opening_calls self.old.reopen ++ put_call epoch ∷ []) }
        ensures tried { IsTrue D.tells → IsAsLeftOrShut self.old.reopen self.old.desk (D.files self.old.disk) (D.image self.old.disk)
            → ImagesFollow (PutsAtMost epoch) (D.image self.old.disk) (D.image self.new.disk) }
        ensures stands { IsTrue D.tells → IsAsLeftOrShut self.old.reopen self.old.desk (D.files self.old.disk) (D.image self.old.disk)
            → IsAsLeftOrShut self.new.reopen self.new.desk (D.files self.new.disk) (D.image self.new.disk) }
        // The promise over lives.
        ensures lives { IsTrue D.tells → IsAsLeftOrShut self.old.reopen self.old.desk (D.files self.old.disk) (D.image self.old.disk) → (deeds : List DeskDeed)
            → KeepsPromise deeds (D.image self.old.disk) → Covers self.old.desk.current deeds
            → (KeepsPromise deeds (D.image self.new.disk) × Covers self.new.desk.current deeds)
            × OnOk result (self.new.refused.items ≡ self.old.refused.items
            → KeepsPromise (Registered epoch ∷ deeds) (D.image self.new.disk) × Covers self.new.desk.current (Registered epoch ∷ deeds)) }
    {
        self.refused.reserve(1)?;
        match self.attempt(alloc, epoch, info) {
            Ok(()) => Ok(()),
            Err(DeskError::NoMemory) => Err(NoMemory),
            Err(why) => {
                self.reopen = opens_again(self.reopen, &why);
                let kept = self.refused.push(why);
                prove!(kept.is_ok());
                let _ = kept;
                Ok(())
            }
        }
    }
}
