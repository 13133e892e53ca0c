//! The desk, and what it signs.
ghost use Rattle.std.specs.Prelude.{◌≡◌, ◌<◌, ◌*◌, ◌%◌, IfOk, List, OnOk};
ghost use Rattle.std.specs.Option.{option_copied};
ghost use Rattle.dkg_sign.specs.Desks.{replaced_by, material_of};
ghost use Rattle.dkg_sign.specs.Lives.{DeskDeed, Signed, Covers, KeptWith, NeverBack};
ghost use Rattle.dkg_sign.specs.Signing.{times};
ghost use Rattle.dkg_sign.specs.Signs.{sign_of, IsPartialOf};

use crate::error::SignError;
use crate::hash::hash_of;
use crate::material::share;
use crate::partial::Partial;
use dkg_types::SchemeInfo;
use dkg_values::{Element, Epoch, Key};
use std::marker::Model;

/// A node's desk in one life. It signs for the greatest epoch that was ever registered, and only once that epoch's material was
/// registered in this life.
#[derive(Drop)]
pub struct SigningDesk {
    /// Whose desk it is.
    pub(crate) me: Key,
    /// The greatest epoch registered, as the record has it.
    pub(crate) current: Option<Epoch>,
    /// The material of that epoch, where it was registered in this life.
    pub(crate) held: Option<SchemeInfo>,
}

impl Model for SigningDesk {
    ghost use Rattle.dkg_sign.specs.Desks.{Desk, HoldsOwn};

    ghost Value = { Desk };

    ghost view = { λ d. record { me = d.me; current = d.current; held = d.held } };

    ghost invariant = { λ d. HoldsOwn d.me d.current d.held };
}

/// An element times a message's hash.
pub(crate) fn times_of(hash: u32, number: u32) -> Element
    requires hash { hash < 65521 }
    requires number { number < 65521 }
    ensures { result ≡ times hash number }
{
    let product = u64::from(number) * u64::from(hash) % 65521;
    match Element::new(product as u16) {
        Some(element) => element,
        None => unreachable!(),
    }
}

impl SigningDesk {
    /// The greatest epoch that was registered, in this life or an earlier one.
    pub fn current(&self) -> Option<Epoch>
        ensures { result ≡ self.now.current }
    {
        self.current
    }

    /// The later epoch that was registered, if there is one.
    pub(crate) fn replaced(&self, epoch: Epoch) -> Option<Epoch>
        ensures { result ≡ replaced_by self.now.current epoch }
    {
        match self.current {
            Some(current) if epoch < current => Some(current),
            _ => None,
        }
    }

    /// What is held of an epoch.
    pub(crate) fn material(&self, epoch: Epoch) -> Option<&SchemeInfo>
        ensures { option_copied result ≡ material_of self.now epoch }
    {
        match self.current {
            Some(current) if current == epoch => self.held.as_ref(),
            _ => None,
        }
    }

    /// This node's part of an epoch's signature on a message. It takes no memory.
    ///
    /// In this order: Replaced, a later epoch was registered; Unknown, no material of the epoch is held; NoShare, it has no share.
    #[tactic(auto, using(crate::proofs::Deeds::signed_lives))]
    pub fn sign(&self, epoch: Epoch, message: &[u8]) -> Result<Partial, SignError>
        ensures exact { result ≡ sign_of self.now epoch message.now }
        ensures own { IfOk result (IsPartialOf self.now epoch message.now) }
        // The promise over lives: no later epoch was registered, so it is kept with this partial too.
        ensures lives { OnOk result ((deeds : List DeskDeed) → NeverBack deeds → Covers self.now.current deeds
            → KeptWith (Signed epoch) self.now.current deeds) }
    {
        if let Some(current) = self.replaced(epoch) {
            return Err(SignError::Replaced {
                asked: epoch,
                current,
            });
        }
        let info = match self.material(epoch) {
            Some(info) => info,
            None => return Err(SignError::Unknown { epoch }),
        };
        match share(info) {
            Some(share) => Ok(Partial {
                epoch,
                signer: self.me,
                value: times_of(hash_of(message), u32::from(share.0.get())),
            }),
            None => Err(SignError::NoShare { epoch }),
        }
    }
}
