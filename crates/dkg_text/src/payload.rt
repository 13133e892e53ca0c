//! What an encoded payload is: the readers of lines ask it of every payload that a line carries.
ghost use Rattle.std.specs.Prelude.{◌≡◌, ◌^◌, IfOk, MatchResult, option_map};
ghost use Rattle.std.specs.Int.NonZero.{non_zero_u32_get};
ghost use Rattle.std.specs.Result.{result_ok};
ghost use Rattle.dkg_values.specs.Codec.{whole};
ghost use Rattle.dkg_types.specs.PayloadCodes.{payload_at};
ghost use Rattle.dkg_text.specs.PayloadKinds.{addressed_kind, payload_kind, is_info as is_info_of, kind_of, unit_kind};

use dkg_ceremony::{CodecError, Mem, ModeVersion, NoMemory, decode_cfg};
use dkg_infos::{Directory, Unit};
use dkg_types::{Addresses, Payload};
use std::alloc::Global;
use std::num::NonZeroU32;

/// What a payload is.
#[derive(Clone, Copy, Debug, PartialEq, Eq)]
pub(crate) enum PayloadKind {
    Log,
    Info,
}

/// The highest limit of participants.
pub const MOST_PARTICIPANTS: u32 = 1 << 30;

fn kind<Dir: Directory + Drop>(
    alloc: Global,
    cfg: &(NonZeroU32, ModeVersion),
    bytes: &[u8],
) -> Mem<Option<PayloadKind>>
where
    Dir::Cfg: Drop,
    ensures { IfOk result (λ made. made
        ≡ option_map kind_of (result_ok
        (whole (payload_at (λ peers. Dir.read_of (Dir.config_of peers)) Dir.matches_of (non_zero_u32_get cfg.now.0) cfg.now.1.0 bytes.now)))) }
{
    match decode_cfg::<Payload<Dir>>(alloc, bytes, cfg) {
        Ok(Payload::DealerLog(_)) => Ok(Some(PayloadKind::Log)),
        Ok(Payload::EpochInfo(_)) => Ok(Some(PayloadKind::Info)),
        Err(CodecError::NoMemory) => Err(NoMemory),
        Err(_) => Ok(None),
    }
}

/// What the bytes spell under these limits, if they spell a payload; directories hold addresses or say nothing.
#[tactic(auto, unfolding(crate::specs::PayloadKinds::payload_kind, crate::specs::PayloadKinds::addressed_kind, crate::specs::PayloadKinds::unit_kind))]
pub(crate) fn carried_by(
    alloc: Global,
    addressed: bool,
    limits: (NonZeroU32, ModeVersion),
    bytes: &[u8],
) -> Mem<Option<PayloadKind>>
    ensures { IfOk result (λ made. made ≡ payload_kind addressed (non_zero_u32_get limits.0) limits.1.0 bytes.now) }
{
    if addressed {
        kind::<Addresses>(alloc, &limits, bytes)
    } else {
        kind::<Unit>(alloc, &limits, bytes)
    }
}

/// The widest limits.
fn widest() -> (NonZeroU32, ModeVersion)
    ensures limit { non_zero_u32_get result.0 ≡ 2 ^ 30 }
    ensures version { result.1.0 ≡ 1 }
{
    (NonZeroU32::new(MOST_PARTICIPANTS).unwrap(), ModeVersion(1))
}

/// Whether the bytes spell an info under the widest limits.
#[tactic(auto, unfolding(crate::specs::PayloadKinds::is_info))]
pub fn is_info(alloc: Global, addressed: bool, bytes: &[u8]) -> Mem<bool>
    ensures { IfOk result (λ yes. yes ≡ is_info_of addressed bytes.now) }
{
    match carried_by(alloc, addressed, widest(), bytes)? {
        Some(PayloadKind::Info) => Ok(true),
        _ => Ok(false),
    }
}
