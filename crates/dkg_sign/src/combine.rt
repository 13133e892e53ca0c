//! How partials make a signature: each is checked, and a quorum of them is combined.
ghost use Rattle.std.specs.Prelude.{◌≡◌, ◌<◌, ◌^◌, ℕ, true, not, List, [], ◌∷◌, length, is_some};
ghost use Rattle.std.specs.Bool.{OnTrue};
ghost use Rattle.dkg_sign.specs.Signs.{AreMet, AnswersFault, AnswersSignature, combine_of, fault_from, is_valid_partial};
ghost use Rattle.dkg_values.specs.Rising.{has_key, index_of};

use crate::desk::{SigningDesk, times_of};
use crate::error::CombineError;
use crate::hash::hash_of;
use crate::material::{participants, sharing, value};
use crate::partial::{Partial, Signature};
use dkg_ceremony::{Set, quorum};
use dkg_types::SchemeInfo;
use dkg_values::{Epoch, Key};
use std::alloc::Global;

/// Whether a partial is of this epoch, of a participant, and has its value.
fn is_partial(info: &SchemeInfo, epoch: Epoch, hash: u32, partial: &Partial) -> bool
    requires { hash < 65521 }
    ensures { result ≡ is_valid_partial info.now epoch hash partial.now }
{
    if partial.epoch != epoch {
        return false;
    }
    match value(info, partial.signer) {
        Some(number) => times_of(hash, number) == partial.value,
        None => false,
    }
}

/// Whether a participant is met for the first time, and then it was met.
fn is_first(participants: &Set, key: Key, seen: &mut [bool]) -> bool
    requires flags { length seen.old ≡ length participants.now }
    requires member { is_some (index_of key participants.now) ≡ true }
    ensures { (met : List ℕ) → AreMet participants.now met seen.old
        → (result ≡ not (has_key key met)) × OnTrue result (AreMet participants.now (key ∷ met) seen.new) }
{
    match participants.position(key) {
        Some(index) => {
            let first = !seen[index as usize];
            seen[index as usize] = true;
            first
        }
        None => true,
    }
}

/// The first fault of partials.
fn check(
    alloc: Global,
    info: &SchemeInfo,
    epoch: Epoch,
    hash: u32,
    partials: &[Partial],
) -> Result<(), CombineError>
    requires hash { hash < 65521 }
    requires in_bound { length partials.now < 2 ^ 32 }
    ensures { AnswersFault (fault_from info.now epoch hash [] 0 partials.now) result }
{
    let participants = participants(info);
    let mut seen = vec![in alloc; false; participants.len() as usize]?;
    let mut index = 0;
    for partial in partials {
        if !is_partial(info, epoch, hash, partial) {
            return Err(CombineError::Invalid { index });
        }
        if !is_first(participants, partial.signer, &mut seen) {
            return Err(CombineError::Doubled { index });
        }
        index += 1;
    }
    Ok(())
}

impl SigningDesk {
    /// The signature of an epoch on a message, from the partials of a quorum of its participants, which are fewer than 2^32.
    ///
    /// In this order: Unknown, no material of the epoch is held; Invalid or Doubled, of the first partial that is of another epoch, of no
    /// participant or of another value than its signer's, or else whose signer has one before it; Few, there is no quorum.
    pub fn combine(
        &self,
        alloc: Global,
        message: &[u8],
        epoch: Epoch,
        partials: &[Partial],
    ) -> Result<Signature, CombineError>
        requires { length partials.now < 2 ^ 32 }
        ensures { AnswersSignature (combine_of self.now message.now epoch partials.now) result }
    {
        let info = match self.material(epoch) {
            Some(info) => info,
            None => return Err(CombineError::Unknown { epoch }),
        };
        let hash = hash_of(message);
        check(alloc, info, epoch, hash, partials)?;
        let got = partials.len() as u32;
        let need = quorum(sharing(info).total);
        if got < need {
            return Err(CombineError::Few { got, need });
        }
        let value = times_of(hash, u32::from(sharing(info).poly.as_slice()[0].get()));
        Ok(Signature { epoch, value })
    }
}
