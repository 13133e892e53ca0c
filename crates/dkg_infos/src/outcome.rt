//! How the ceremony of an epoch ended. An info carries it.
ghost use Rattle.std.specs.Prelude.{◌≡◌, IsErrOf};
ghost use Rattle.dkg_values.specs.Codec.{Reads};
ghost use Rattle.dkg_infos.specs.OutcomeCodes.{outcome_at, outcome_byte};

use bytes::{BufMut, BytesMut};
use dkg_ceremony::{CodecError, EncodeSize, Mem, Read, Reader, Spelled, Write, read_byte};
use std::alloc::Global;

/// Result of a DKG or reshare ceremony, as the upstream's `types` module has it.
#[derive(Clone, Copy, Debug, PartialEq, Eq)]
pub enum EpochOutcome {
    /// The ceremony produced a new public output.
    Success,
    /// The ceremony failed, and the previous public output is carried forward.
    Failure,
}

fn byte_of(outcome: EpochOutcome) -> u8
    ensures { result ≡ outcome_byte outcome }
{
    match outcome {
        EpochOutcome::Success => 0,
        EpochOutcome::Failure => 1,
    }
}

impl Spelled for EpochOutcome {
    ghost use Rattle.dkg_infos.specs.OutcomeCodes.{outcome_spelling};

    ghost spelling = { outcome_spelling };
}

impl EncodeSize for EpochOutcome {
    fn encode_size(&self) -> usize {
        1
    }
}

impl Write for EpochOutcome {
    fn put(&self, out: &mut BytesMut) -> Mem<()> {
        Ok(out.put_u8(byte_of(*self))?)
    }
}

impl Read for EpochOutcome {
    type Cfg = ();

    ghost use Rattle.dkg_ceremony.specs.Variants.{Always};
    ghost use Rattle.dkg_infos.specs.OutcomeCodes.{outcome_at, outcome_grammar};

    ghost fits = { λ _. Always };

    ghost read_of = { λ _. outcome_at };

    ghost grammar = { λ _. outcome_grammar };

    #[tactic(auto, unfolding(crate::specs::OutcomeCodes::outcome_after))]
    fn read_cfg(
        _alloc: Global,
        input: &mut Reader<'_>,
        _cfg: &(),
    ) -> Result<EpochOutcome, CodecError>
        ensures exact { Reads (outcome_at input.old) result input.new }
        ensures sure { IsErrOf result CodecError.NoMemory → ⊥ }
    {
        match read_byte(input)? {
            0 => Ok(EpochOutcome::Success),
            1 => Ok(EpochOutcome::Failure),
            other => Err(CodecError::InvalidEnum(other)),
        }
    }
}
