//! Values of a fixed number of bytes: digests, seeds and marks.
//!
//! Contracts see each as its list of bytes; a spelling is the bytes themselves.
ghost use Rattle.std.specs.Prelude.{◌≡◌, ℕ, List, length, IsErrOf};
ghost use Rattle.dkg_values.specs.Codec.{Reads};
ghost use Rattle.dkg_values.specs.Bytes.{byte_at, bytes_at};

use crate::codec::{CodecError, EncodeSize, Read, Reader, Spelled, Write};
use crate::memory::Mem;
use bytes::{BufMut, BytesMut};
use std::alloc::Global;
use std::marker::Model;

/// A SHA-256 digest.
#[derive(Clone, Copy, Debug, PartialEq, Eq)]
pub struct Digest(pub [u8; 32]);

impl Model for Digest {
    ghost use Rattle.std.specs.Prelude.{List, ℕ};

    ghost Value = { List ℕ };

    ghost view = { λ m. m.0 };

    ghost inverse = { λ bytes. record { 0 = bytes } };
}

/// What all draws of one dealing are made from.
#[derive(Clone, Copy, Debug, PartialEq, Eq)]
pub struct Seed(pub [u8; 32]);

impl Model for Seed {
    ghost use Rattle.std.specs.Prelude.{List, ℕ};

    ghost Value = { List ℕ };

    ghost view = { λ m. m.0 };

    ghost inverse = { λ bytes. record { 0 = bytes } };
}

/// The first eight bytes of a SHA-256 digest.
#[derive(Clone, Copy, Debug, PartialEq, Eq)]
pub struct Mark(pub [u8; 8]);

impl Model for Mark {
    ghost use Rattle.std.specs.Prelude.{List, ℕ};

    ghost Value = { List ℕ };

    ghost view = { λ m. m.0 };

    ghost inverse = { λ bytes. record { 0 = bytes } };
}

/// One byte, as a tag or a flag is.
#[tactic(auto, unfolding(crate::specs::Bytes::byte_at))]
pub fn read_byte(input: &mut Reader<'_>) -> Result<u8, CodecError>
    ensures exact { Reads (byte_at input.old) result input.new }
    ensures sure { IsErrOf result CodecError.NoMemory → ⊥ }
{
    let piece = input.take(1)?;
    Ok(piece[0])
}

/// Exactly `N` bytes.
pub fn read_array<const N: usize>(input: &mut Reader<'_>) -> Result<[u8; N], CodecError>
    ensures exact { Reads (bytes_at N input.old) result input.new }
    ensures sure { IsErrOf result CodecError.NoMemory → ⊥ }
{
    let piece = input.take(N)?;
    let mut bytes = [0u8; N];
    bytes.copy_from_slice(piece);
    Ok(bytes)
}

impl Spelled for Digest {
    ghost spelling = { λ bytes. bytes };
}

impl EncodeSize for Digest {
    fn encode_size(&self) -> usize
        ensures size { result ≡ length self.now }
        ensures bound { result ≡ 32 }
    {
        let Digest(bytes) = *self;
        bytes.len()
    }
}

impl Write for Digest {
    fn put(&self, out: &mut BytesMut) -> Mem<()> {
        Ok(out.put_slice(&self.0)?)
    }
}

impl Read for Digest {
    type Cfg = ();

    ghost use Rattle.std.specs.Prelude.{◌≡◌, length};
    ghost use Rattle.dkg_values.specs.Bytes.{bytes_at, bytes_grammar};

    ghost fits = { λ _ bytes. length bytes ≡ 32 };

    ghost read_of = { λ _. bytes_at 32 };

    ghost grammar = { λ _. bytes_grammar 32 };

    fn read_cfg(_alloc: Global, input: &mut Reader<'_>, _cfg: &()) -> Result<Digest, CodecError>
        ensures exact { Reads (bytes_at 32 input.old) result input.new }
        ensures sure { IsErrOf result CodecError.NoMemory → ⊥ }
    {
        Ok(Digest(read_array(input)?))
    }
}

impl Spelled for Seed {
    ghost spelling = { λ bytes. bytes };
}

impl EncodeSize for Seed {
    fn encode_size(&self) -> usize
        ensures size { result ≡ length self.now }
        ensures bound { result ≡ 32 }
    {
        let Seed(bytes) = *self;
        bytes.len()
    }
}

impl Write for Seed {
    fn put(&self, out: &mut BytesMut) -> Mem<()> {
        Ok(out.put_slice(&self.0)?)
    }
}

impl Read for Seed {
    type Cfg = ();

    ghost use Rattle.std.specs.Prelude.{◌≡◌, length};
    ghost use Rattle.dkg_values.specs.Bytes.{bytes_at, bytes_grammar};

    ghost fits = { λ _ bytes. length bytes ≡ 32 };

    ghost read_of = { λ _. bytes_at 32 };

    ghost grammar = { λ _. bytes_grammar 32 };

    fn read_cfg(_alloc: Global, input: &mut Reader<'_>, _cfg: &()) -> Result<Seed, CodecError>
        ensures exact { Reads (bytes_at 32 input.old) result input.new }
        ensures sure { IsErrOf result CodecError.NoMemory → ⊥ }
    {
        Ok(Seed(read_array(input)?))
    }
}

impl Spelled for Mark {
    ghost spelling = { λ bytes. bytes };
}

impl EncodeSize for Mark {
    fn encode_size(&self) -> usize
        ensures size { result ≡ length self.now }
        ensures bound { result ≡ 8 }
    {
        let Mark(bytes) = *self;
        bytes.len()
    }
}

impl Write for Mark {
    fn put(&self, out: &mut BytesMut) -> Mem<()> {
        Ok(out.put_slice(&self.0)?)
    }
}

impl Read for Mark {
    type Cfg = ();

    ghost use Rattle.std.specs.Prelude.{◌≡◌, length};
    ghost use Rattle.dkg_values.specs.Bytes.{bytes_at, bytes_grammar};

    ghost fits = { λ _ bytes. length bytes ≡ 8 };

    ghost read_of = { λ _. bytes_at 8 };

    ghost grammar = { λ _. bytes_grammar 8 };

    fn read_cfg(_alloc: Global, input: &mut Reader<'_>, _cfg: &()) -> Result<Mark, CodecError>
        ensures exact { Reads (bytes_at 8 input.old) result input.new }
        ensures sure { IsErrOf result CodecError.NoMemory → ⊥ }
    {
        Ok(Mark(read_array(input)?))
    }
}
