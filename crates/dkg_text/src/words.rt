//! The words that stand for what has no fields.
ghost use Rattle.std.specs.Prelude.{◌≡◌};
ghost use Rattle.dkg_text.specs.Words.{blocked_text, part_text, phase_text, role_text, verdict_text};

use dkg_ceremony::Phase;
use dkg_infos::{BlockedWhy, Part, Role, Verdict};

pub(crate) fn phase_word(phase: Phase) -> &'static [u8]
    ensures { result.now ≡ phase_text phase }
{
    match phase {
        Phase::Early => b"early",
        Phase::Midpoint => b"midpoint",
        Phase::Late => b"late",
    }
}

pub(crate) fn part_word(part: Part) -> &'static [u8]
    ensures { result.now ≡ part_text part }
{
    match part {
        Part::Follow => b"follow",
        Part::Player => b"player",
        Part::Dealer => b"dealer",
        Part::Both => b"both",
        Part::Observer => b"observer",
    }
}

pub(crate) fn role_word(role: Role) -> &'static [u8]
    ensures { result.now ≡ role_text role }
{
    match role {
        Role::Signer => b"signer",
        Role::Member => b"member",
        Role::Verifier => b"verifier",
    }
}

pub(crate) fn blocked_word(why: BlockedWhy) -> &'static [u8]
    ensures { result.now ≡ blocked_text why }
{
    match why {
        BlockedWhy::Decode => b"decode",
        BlockedWhy::Nonplayer => b"nonplayer",
        BlockedWhy::Nondealer => b"nondealer",
        BlockedWhy::Dealer => b"dealer",
        BlockedWhy::Degree => b"degree",
        BlockedWhy::Commitment => b"commitment",
        BlockedWhy::Share => b"share",
        BlockedWhy::Player => b"player",
        BlockedWhy::Ack => b"ack",
        BlockedWhy::Reply => b"reply",
        BlockedWhy::Member => b"member",
        BlockedWhy::Invalid => b"invalid",
        BlockedWhy::Boundary => b"boundary",
        BlockedWhy::Block => b"block",
    }
}

pub(crate) fn verdict_word(verdict: Verdict) -> &'static [u8]
    ensures { result.now ≡ verdict_text verdict }
{
    match verdict {
        Verdict::Accept => b"accept",
        Verdict::Reject => b"reject",
        Verdict::Unresolved => b"unresolved",
    }
}
