//! What a block may carry for the ceremony.

ghost use Rattle.std.specs.Prelude.{◌≡◌, ℕ, ◌+◌, ◌*◌, ◌^◌, ◌≤◌, length};
ghost use Rattle.std.specs.Int.NonZero.{non_zero_u32_get};
ghost use Rattle.dkg_values.specs.Codec.{Reads};
ghost use Rattle.dkg_infos.specs.InfoBounds.{IsBound};
ghost use Rattle.dkg_types.specs.Within.{PayloadWithin};
ghost use Rattle.dkg_types.specs.PayloadCodes.{PayloadFits, payload_info_at, logged_at, payload_spelling};

use bytes::{BufMut, BytesMut};
use dkg_ceremony::{
    CodecError, EncodeSize, Mem, ModeVersion, Read, Reader, SignedDealerLog, Spelled, Value, Write,
    read_byte,
};
use dkg_infos::{Directory, EpochInfo};
use std::alloc::Global;
use std::num::NonZeroU32;

/// What a block carries for the ceremony.
#[derive(Drop)]
pub enum Payload<Dir> {
    /// A dealer's signed log, in the second half of an epoch.
    DealerLog(SignedDealerLog),
    /// The description of the next epoch, in the last block of an epoch.
    EpochInfo(EpochInfo<Dir>),
}

impl<Dir: Directory + Drop> Value for Payload<Dir> {
    fn copy(&self, alloc: Global) -> Mem<Payload<Dir>> {
        match self {
            Payload::DealerLog(signed) => Ok(Payload::DealerLog(signed.copy(alloc)?)),
            Payload::EpochInfo(info) => Ok(Payload::EpochInfo(info.copy(alloc)?)),
        }
    }

    fn same(&self, other: &Payload<Dir>) -> bool {
        match (self, other) {
            (Payload::DealerLog(one), Payload::DealerLog(two)) => one.same(two),
            (Payload::EpochInfo(one), Payload::EpochInfo(two)) => one.same(two),
            _ => false,
        }
    }
}

#[tactic(auto, unfolding(crate::specs::PayloadCodes::logged_at))]
fn read_log(
    alloc: Global,
    input: &mut Reader<'_>,
    cfg: &(NonZeroU32, ModeVersion),
) -> Result<SignedDealerLog, CodecError>
    ensures { Reads (logged_at (non_zero_u32_get cfg.now.0) input.old) result input.new }
{
    SignedDealerLog::read_cfg(alloc, input, &cfg.0.get())
}

#[tactic(auto, unfolding(crate::specs::PayloadCodes::payload_info_at))]
fn read_info<Dir: Directory + Drop>(
    alloc: Global,
    input: &mut Reader<'_>,
    cfg: &(NonZeroU32, ModeVersion),
) -> Result<EpochInfo<Dir>, CodecError>
where
    Dir::Cfg: Drop,
    ensures { Reads (payload_info_at (λ peers. Dir.read_of (Dir.config_of peers)) Dir.matches_of
        (non_zero_u32_get cfg.now.0) cfg.now.1.0 input.old) result input.new }
{
    EpochInfo::read_cfg(alloc, input, cfg)
}

impl<Dir: Directory> Payload<Dir> {
    /// A bound, in bytes, of the encoding of a payload among at most `max` participants.
    pub fn max_encode_size(max: NonZeroU32) -> usize
        ensures bound { result ≡ 56 + 22 * non_zero_u32_get max + Dir.bound_of (3 * non_zero_u32_get max) }
        ensures small { result ≤ 2 ^ 62 + 1 }
        ensures enough { (version : ℕ)
            → IsBound (PayloadFits (λ peers. Dir.fits (Dir.config_of peers)) Dir.matches_of (non_zero_u32_get max) version)
            (payload_spelling Dir.spelling) result }
    {
        1 + EpochInfo::<Dir>::max_encode_size(max)
    }
}

impl<Dir: Directory> Payload<Dir> {
    /// A payload may be read under the limits that it keeps to.
    pub fn fits_limits(&self)
        ensures { (most version : ℕ) → PayloadWithin Dir.matches_of most version self.now
            → PayloadFits (λ peers. Dir.fits (Dir.config_of peers)) Dir.matches_of most version self.now }
    {
        match self {
            Payload::DealerLog(signed) => signed.fits_limits(),
            Payload::EpochInfo(info) => info.fits_limits(),
        }
    }
}

impl<Dir: Directory> Spelled for Payload<Dir> {
    ghost use Rattle.dkg_types.specs.PayloadCodes.{payload_spelling};

    ghost spelling = { payload_spelling Dir.spelling };
}

impl<Dir: Directory> EncodeSize for Payload<Dir> {
    fn encode_size(&self) -> usize
        ensures size { result ≡ length (payload_spelling Dir.spelling self.now) }
        ensures bound { result ≤ 2 ^ 62 + 1 }
    {
        match self {
            Payload::DealerLog(signed) => 1 + signed.encode_size(),
            Payload::EpochInfo(info) => 1 + info.encode_size(),
        }
    }
}

impl<Dir: Directory> Write for Payload<Dir> {
    fn put(&self, out: &mut BytesMut) -> Mem<()> {
        match self {
            Payload::DealerLog(signed) => {
                out.put_u8(0)?;
                signed.put(out)
            }
            Payload::EpochInfo(info) => {
                out.put_u8(1)?;
                info.put(out)
            }
        }
    }
}

impl<Dir: Directory + Drop> Read for Payload<Dir>
where
    Dir::Cfg: Drop,
{
    /// How many keys a set may have, and the newest mode that a sharing may have.
    type Cfg = (NonZeroU32, ModeVersion);

    ghost use Rattle.std.specs.Int.NonZero.{non_zero_u32_get};
    ghost use Rattle.dkg_types.specs.PayloadCodes.{payload_at, PayloadFits, payload_grammar};

    ghost fits = { λ cfg. PayloadFits (λ peers. Dir.fits (Dir.config_of peers)) Dir.matches_of (non_zero_u32_get cfg.0) cfg.1.0 };

    ghost read_of = { λ cfg. payload_at (λ peers. Dir.read_of (Dir.config_of peers)) Dir.matches_of (non_zero_u32_get cfg.0) cfg.1.0 };

    ghost grammar = { λ cfg. payload_grammar (λ peers. Dir.fits (Dir.config_of peers)) Dir.spelling (λ peers. Dir.read_of (Dir.config_of peers)) Dir.matches_of
        (λ peers. Dir.grammar (Dir.config_of peers)) (non_zero_u32_get cfg.0) cfg.1.0 };

    #[tactic(auto, unfolding(crate::specs::PayloadCodes::payload_after))]
    fn read_cfg(
        alloc: Global,
        input: &mut Reader<'_>,
        cfg: &(NonZeroU32, ModeVersion),
    ) -> Result<Payload<Dir>, CodecError> {
        match read_byte(input)? {
            0 => {
                let signed = read_log(alloc, input, cfg)?;
                Ok(Payload::DealerLog(signed))
            }
            1 => {
                let info = read_info(alloc, input, cfg)?;
                Ok(Payload::EpochInfo(info))
            }
            other => Err(CodecError::InvalidEnum(other)),
        }
    }
}
