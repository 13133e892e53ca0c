//! The material of an epoch as a desk uses it: who takes part, the shared key in public, and this node's share.
ghost use Rattle.std.specs.Prelude.{◌≡◌, ◌<◌, IsTrue, IfSome, option_map, is_some};
ghost use Rattle.dkg_ceremony.specs.Polynomials.{value_at};
ghost use Rattle.dkg_sign.specs.Materials.{scheme_participants, sharing_of, scheme_share, is_own, value_of as value_from};
ghost use Rattle.dkg_values.specs.Rising.{index_of};

use dkg_ceremony::{Ceremony, Key, Set, Share, Sharing, StandCeremony, quorum, value_of};
use dkg_types::SchemeInfo;

/// Who takes part.
pub(crate) fn participants(info: &SchemeInfo) -> &Set
    ensures { result.now ≡ scheme_participants info.now }
{
    match info {
        SchemeInfo::Verifier { participants, .. }
        | SchemeInfo::Member { participants, .. }
        | SchemeInfo::Signer { participants, .. } => participants,
    }
}

/// The shared key in public.
pub(crate) fn sharing(info: &SchemeInfo) -> &Sharing
    ensures { result.now ≡ sharing_of info.now }
{
    match info {
        SchemeInfo::Verifier { sharing, .. }
        | SchemeInfo::Member { sharing, .. }
        | SchemeInfo::Signer { sharing, .. } => sharing,
    }
}

/// This node's share, where it holds one.
pub(crate) fn share(info: &SchemeInfo) -> Option<Share>
    ensures { result ≡ scheme_share info.now }
{
    match info {
        SchemeInfo::Verifier { .. } | SchemeInfo::Member { .. } => None,
        SchemeInfo::Signer { share, .. } => Some(*share),
    }
}

/// The sharing's value at the point of a participant.
pub(crate) fn value(info: &SchemeInfo, key: Key) -> Option<u32>
    ensures value { result ≡ value_from info.now key }
    ensures below { IfSome result (λ v. v < 65521) }
{
    let index = participants(info).position(key)?;
    Some(value_of(&sharing(info).poly, index))
}

/// Whether the material is of one output, and this node's: it is a participant, and its share, where it has one, is the sharing's value at
/// its point.
pub(crate) fn is_own_of(info: &SchemeInfo, me: Key) -> bool
    ensures { result ≡ is_own me info.now }
{
    let sharing = sharing(info);
    if sharing.total != participants(info).len() {
        return false;
    }
    if sharing.poly.as_slice().len() != quorum(sharing.total) as usize {
        return false;
    }
    match (share(info), value(info, me)) {
        (_, None) => false,
        (None, Some(_)) => true,
        (Some(share), Some(value)) => u32::from(StandCeremony.share_public(&share).get()) == value,
    }
}
