//! How values are written as bytes and read again.
//!
//! A value has one spelling, which `Spelled` names and `Write`, `EncodeSize` and `Read` share. The types of all
//! crates above implement these; messages, records and journals go through `encode` and `decode_cfg`. A format's
//! laws, that what is written is read and that nothing else is, are proved once, at `Read`.
ghost use Rattle.std.specs.Prelude.{◌≡◌, ℕ, ◌<◌, ◌≤◌, ◌^◌, ◌++◌, List, length, take, drop, IfOk, OnOk, OnErr, MatchResult, Ok, Err};
ghost use Rattle.dkg_values.specs.Codec.{Reading, Reads, Decodes, whole, IsGrammar, IsBytes, StandsInFront};
ghost use Rattle.dkg_values.specs.declared.codec.CodecError.TheVariants.{NoMemory as OutOfMemory};

use crate::blob::Blob;
use crate::memory::{Mem, NoMemory};
use bytes::BytesMut;
use std::alloc::{AllocError, AllocFailed, Global};
use std::marker::Model;
use thiserror::Error;

/// What was not valid.
#[derive(Clone, Copy, Debug, PartialEq, Eq)]
pub enum What {
    /// Keys that don't rise.
    Set,
    /// A number past the ceremony's field.
    Element,
    /// An output whose parts don't fit each other.
    Output,
    /// A directory that doesn't match the peers it is for.
    Directory,
    /// A block whose digest isn't the commitment that was asked for.
    Commitment,
}

/// Why bytes were not read: the first fault in reading order.
#[derive(Clone, Copy, Debug, PartialEq, Eq, Error)]
pub enum CodecError {
    /// Fewer bytes are left than the value takes.
    #[error("the bytes end too early")]
    EndOfBuffer,
    /// A number in base 128 is past its width, or ends in a group of zero.
    #[error("no number of least length")]
    InvalidVarint,
    /// A count is outside its range, of which `max` is the upper end.
    #[error("a count of {got}, where {max} is the limit")]
    InvalidLength { got: u64, max: u64 },
    /// A tag, an outcome, a flag or a mode that is not known.
    #[error("an unknown tag {0}")]
    InvalidEnum(u8),
    /// Parts that were read each, and are no value together.
    #[error("no valid {0:?}")]
    Invalid(What),
    /// A value was read, and bytes are left after it.
    #[error("bytes are left")]
    ExtraData,
    /// Memory ran out, which says nothing of the bytes.
    #[error("out of memory")]
    NoMemory,
}

impl From<NoMemory> for CodecError {
    ghost from_gives = { λ _ e. e ≡ OutOfMemory };

    fn from(_e: NoMemory) -> CodecError {
        CodecError::NoMemory
    }
}

impl From<AllocError> for CodecError {
    ghost from_gives = { λ _ e. e ≡ OutOfMemory };

    fn from(_e: AllocError) -> CodecError {
        CodecError::NoMemory
    }
}

impl<T: Drop> From<AllocFailed<T>> for CodecError {
    ghost from_gives = { λ _ e. e ≡ OutOfMemory };

    fn from(_e: AllocFailed<T>) -> CodecError {
        CodecError::NoMemory
    }
}

/// Bytes that are read from the front: contracts see those that are left.
#[derive(Drop)]
pub struct Reader<'a> {
    left: &'a [u8],
}

impl<'a> Model for Reader<'a> {
    ghost use Rattle.std.specs.Prelude.{List, ℕ};

    ghost Value = { List ℕ };

    ghost view = { λ r. r.left.now };
}

impl<'a> Reader<'a> {
    /// Reads from the first of these bytes.
    pub fn new(bytes: &'a [u8]) -> Reader<'a>
        ensures { result ≡ bytes.now }
    {
        Reader { left: bytes }
    }

    /// The next `count` bytes, or `EndOfBuffer` where fewer are left, and then none is taken.
    pub fn take(&mut self, count: usize) -> Result<&'a [u8], CodecError>
        ensures enough { count ≤ length self.old → IfOk result (λ piece. piece.now ≡ take count self.old) }
        ensures rest { OnOk result (self.new ≡ drop count self.old) }
        ensures short { MatchResult result (λ _. count ≤ length self.old)
            (λ e. (length self.old < count) × (e ≡ CodecError.EndOfBuffer) × (self.new ≡ self.old)) }
    {
        if self.left.len() < count {
            return Err(CodecError::EndOfBuffer);
        }
        let (piece, left) = self.left.split_at(count);
        self.left = left;
        Ok(piece)
    }

    /// The bytes that are left.
    pub fn left(&self) -> &'a [u8]
        ensures { result.now ≡ self.now }
    {
        self.left
    }
}

/// A value that has one spelling as bytes.
pub trait Spelled {
    /// The spelling.
    ghost spelling: { Self → List ℕ };
}

/// How a value is written.
pub trait Write: Spelled {
    /// Writes the spelling at the end; on an error a part of it may be there. Types define this one.
    fn put(&self, out: &mut BytesMut) -> Mem<()>
        ensures ok { OnOk result (out.new.items ≡ out.old.items ++ Self.spelling self.now) }
        ensures err { OnErr result (StandsInFront out.old.items out.new.items) };

    /// Writes the spelling at the end, or nothing. Callers use this one.
    fn write(&self, out: &mut BytesMut) -> Mem<()>
        ensures ok { OnOk result (out.new.items ≡ out.old.items ++ Self.spelling self.now) }
        ensures err { OnErr result (out.new.items ≡ out.old.items) }
    {
        let start = out.len();
        match self.put(out) {
            Ok(()) => Ok(()),
            Err(e) => {
                out.truncate(start);
                Err(e)
            }
        }
    }
}

/// How many bytes a value takes.
pub trait EncodeSize: Spelled {
    /// Where the size is below 2^64: of a map it must be known of the whole.
    ghost can_size: { Self → Type 0 } = { λ _. Unit {0} };

    /// The length of the spelling.
    fn encode_size(&self) -> usize
        requires { can_size self.now }
        ensures { result ≡ length (Self.spelling self.now) };
}

/// How a value is read from the front of bytes.
pub trait Read: Spelled + Sized {
    /// The limits that reading keeps to, as the number of participants; `()` where there is none.
    type Cfg;

    /// What may be read under a configuration.
    ghost fits: { Self.Cfg → Self → Type 0 };

    /// What reading gives: the value and the bytes after it, or the first fault.
    ghost read_of: { Self.Cfg → List ℕ → Reading Self };

    /// Reads one value and leaves what follows it.
    fn read_cfg(alloc: Global, input: &mut Reader<'_>, cfg: &Self::Cfg) -> Result<Self, CodecError>
        ensures { Reads (read_of cfg.now input.old) result input.new };

    /// The spelling is what is read, and all that is read.
    ghost grammar: { (cfg : Self.Cfg) → IsGrammar (fits cfg) Self.spelling (read_of cfg) };
}

/// The one spelling of a value.
pub fn encode<T: Write + EncodeSize>(alloc: Global, value: &T) -> Mem<Blob>
    requires { T.can_size value.now }
    ensures { IfOk result (λ blob. blob ≡ T.spelling value.now) }
{
    let mut out = BytesMut::with_capacity(alloc, value.encode_size())?;
    value.write(&mut out)?;
    Ok(Blob::new(out.into_vec()?))
}

/// Reads one value and then finds no bytes left.
fn decode_whole<T: Read + Drop>(alloc: Global, bytes: &[u8], cfg: &T::Cfg) -> Result<T, CodecError>
    ensures { Decodes (whole (T.read_of cfg.now bytes.now)) result }
{
    let mut input = Reader::new(bytes);
    let value = T::read_cfg(alloc, &mut input, cfg)?;
    match input.left() {
        [] => Ok(value),
        [_, ..] => Err(CodecError::ExtraData),
    }
}

/// The value that the bytes spell, all of the bytes.
pub fn decode_cfg<T: Read + Drop>(
    alloc: Global,
    bytes: &[u8],
    cfg: &T::Cfg,
) -> Result<T, CodecError>
    // What is read is spelled so, within the limits.
    ensures found { IfOk result (λ v. T.fits cfg.now v × (bytes.now ≡ T.spelling v)) }
    // What is spelled so is read, unless memory runs out.
    ensures only { (v : T) → T.fits cfg.now v → bytes.now ≡ T.spelling v → Decodes (Ok v) result }
    // Which fault it is.
    ensures exact { Decodes (whole (T.read_of cfg.now bytes.now)) result }
{
    decode_whole(alloc, bytes, cfg)
}

/// Writes a value and reads it again: what comes back is the value, unless memory runs out.
pub fn round_trip<T: Write + EncodeSize + Read + Drop>(
    alloc: Global,
    value: &T,
    cfg: &T::Cfg,
) -> Result<T, CodecError>
    requires size { T.can_size value.now }
    requires fits { T.fits cfg.now value.now }
    ensures { Decodes (Ok value.now) result }
{
    let bytes = encode(alloc, value)?;
    decode_cfg(alloc, bytes.as_slice(), cfg)
}

/// No spelling begins another, so what was written is read again whatever follows it.
pub fn no_prefix<T: Read>()
    ensures { (cfg : T.Cfg) (a b : T) (x y : List ℕ) → T.fits cfg a → T.fits cfg b → T.spelling a ++ x ≡ T.spelling b ++ y → (a ≡ b) × (x ≡ y) }
{}
