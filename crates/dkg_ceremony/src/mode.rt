//! How the points of a sharing are chosen, and how the players that are revealed are.
//!
//! A sharing and a round name their mode; a reader of outputs is told the newest mode that it may meet.
ghost use Rattle.std.specs.Prelude.{◌≡◌, length, IsErrOf};
ghost use Rattle.dkg_values.specs.Codec.{Reads};
ghost use Rattle.dkg_ceremony.specs.Modes.{mode_byte, mode_spelling, reveal_byte, supports_of, mode_at};

use bytes::{BufMut, BytesMut};
use dkg_values::{CodecError, EncodeSize, Mem, Read, Reader, Spelled, Write};
use std::alloc::Global;

/// How a participant's index becomes its point.
#[derive(Clone, Copy, Debug, PartialEq, Eq)]
pub enum Mode {
    NonZeroCounter,
    RootsOfUnity,
}

/// How the players whose shares are revealed are chosen.
#[derive(Clone, Copy, Debug, PartialEq, Eq)]
pub enum Reveal {
    V1,
}

/// The newest mode that a reader knows: version 0 the first one alone, version 1 both.
#[derive(Clone, Copy, Debug, PartialEq, Eq)]
pub struct ModeVersion(pub u8);

impl ModeVersion {
    /// Whether this version has the mode.
    pub fn supports(&self, mode: Mode) -> bool
        ensures { result ≡ supports_of self.now.0 mode }
    {
        match mode {
            Mode::NonZeroCounter => true,
            Mode::RootsOfUnity => self.0 >= 1,
        }
    }
}

/// The byte that stands for a mode.
pub(crate) fn byte_of_mode(mode: Mode) -> u8
    ensures { result ≡ mode_byte mode }
{
    match mode {
        Mode::NonZeroCounter => 0,
        Mode::RootsOfUnity => 1,
    }
}

/// The byte that stands for a way to reveal.
pub(crate) fn byte_of_reveal(reveal: Reveal) -> u8
    ensures { result ≡ reveal_byte reveal }
{
    match reveal {
        Reveal::V1 => 0,
    }
}

impl Spelled for Mode {
    ghost use Rattle.dkg_ceremony.specs.Modes.{mode_spelling};

    ghost spelling = { mode_spelling };
}

impl EncodeSize for Mode {
    fn encode_size(&self) -> usize
        ensures size { result ≡ length (mode_spelling self.now) }
        ensures bound { result ≡ 1 }
    {
        1
    }
}

impl Write for Mode {
    fn put(&self, out: &mut BytesMut) -> Mem<()> {
        Ok(out.put_u8(byte_of_mode(*self))?)
    }
}

impl Read for Mode {
    type Cfg = ModeVersion;

    ghost use Rattle.std.specs.Prelude.{IsTrue};
    ghost use Rattle.dkg_ceremony.specs.Modes.{supports_of, mode_at};
    ghost use Rattle.dkg_ceremony.specs.ModeGrammar.{mode_grammar};

    ghost fits = { λ version mode. IsTrue (supports_of version.0 mode) };

    ghost read_of = { λ version. mode_at version.0 };

    ghost grammar = { λ version. mode_grammar version.0 };

    #[tactic(auto, unfolding(crate::specs::Modes::mode_at))]
    fn read_cfg(
        _alloc: Global,
        input: &mut Reader<'_>,
        cfg: &ModeVersion,
    ) -> Result<Mode, CodecError>
        ensures exact { Reads (mode_at cfg.now.0 input.old) result input.new }
        ensures sure { IsErrOf result CodecError.NoMemory → ⊥ }
    {
        let piece = input.take(1)?;
        match piece[0] {
            0 => Ok(Mode::NonZeroCounter),
            1 if cfg.supports(Mode::RootsOfUnity) => Ok(Mode::RootsOfUnity),
            other => Err(CodecError::InvalidEnum(other)),
        }
    }
}
