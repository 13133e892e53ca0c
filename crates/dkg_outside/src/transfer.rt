//! All of a source read, and a text written whole, in pieces.
ghost use Rattle.std.specs.Prelude.{◌≡◌, ◌≢◌, ◌<◌, ◌≤◌, ◌+◌, ◌^◌, ◌++◌, ◌⊎◌, List, [], ℕ, IsTrue, IfOk, OnOk, OnErr, IsErrOf, IfErr, length, take, drop};
ghost use Rattle.dkg_journal.specs.Disk.{Rose};
ghost use Rattle.dkg_outside.specs.Outside.{TookAll, TookFew, TookMore, HoldsFront};
ghost use Rattle.dkg_outside.specs.declared.transfer.ReadError.TheVariants.{NoMemory as OutOfMemory};

use crate::sink::Sink;
use crate::source::{Failed, Source};
use std::alloc::{AllocError, AllocFailed, Global};
use thiserror::Error;

/// The most bytes that are moved at once.
const PIECE: usize = 65_536;

/// The most bytes that a script may have.
pub const MOST: usize = 16_777_216;

/// Why a source was not read to its end.
#[derive(Clone, Copy, Debug, PartialEq, Eq, Error)]
pub enum ReadError {
    #[error("the source failed")]
    Failed,
    #[error("the source has more than 16777216 bytes")]
    TooLong,
    #[error("out of memory")]
    NoMemory,
}

impl From<AllocError> for ReadError {
    ghost from_gives = { λ _ e. e ≡ OutOfMemory };

    fn from(_: AllocError) -> ReadError {
        ReadError::NoMemory
    }
}

impl From<Failed> for ReadError {
    ghost use Rattle.dkg_outside.specs.declared.transfer.ReadError.TheVariants.{Failed as SourceFailed};

    ghost from_gives = { λ _ e. e ≡ SourceFailed };

    fn from(_: Failed) -> ReadError {
        ReadError::Failed
    }
}

/// Room for a piece of this many bytes.
fn room(alloc: Global, size: usize) -> Result<Vec<u8>, AllocError>
    ensures { IfOk result (λ piece. length piece.items ≡ size) }
{
    vec![in alloc; 0u8; size]
}

/// All that a source has left, read by the piece, if that is at most so many bytes.
fn read_up_to<S: Source>(
    alloc: Global,
    source: &mut S,
    piece: &mut [u8],
    most: usize,
) -> Result<Vec<u8>, ReadError>
    requires room { 0 < length piece.old }
    requires most { most < 2 ^ 63 }
    ensures whole { IfOk result (λ bytes. IsTrue S.tells → TookAll bytes.items (S.left source.old) (S.left source.new)) }
    ensures short { IfOk result (λ bytes. length bytes.items ≤ most) }
    ensures too_long { IsErrOf result ReadError.TooLong → IsTrue S.tells → TookMore most (S.left source.old) (S.left source.new) }
    // Whatever it answers, it has taken one byte more than that at most.
    ensures in_bound { IsTrue S.tells → TookFew (most + 1) (S.left source.old) (S.left source.new) }
    ensures failed { IsErrOf result ReadError.Failed → Rose (S.faults source.old) (S.faults source.new) }
    ensures later { S.faults source.old ≤ S.faults source.new }
{
    let mut bytes = Vec::new(alloc);
    for turn in 0..most + 1 {
        let room = piece.len().min(most + 1 - bytes.len());
        let count = source.read(&mut piece[..room])?;
        if count == 0 {
            return Ok(bytes);
        }
        bytes.extend_from_slice(&piece[..count])?;
        if bytes.len() > most {
            return Err(ReadError::TooLong);
        }
    }
    Err(ReadError::TooLong)
}

/// All that a source has left, up to the most that a script may have.
pub fn read_all<S: Source>(alloc: Global, source: &mut S) -> Result<Vec<u8>, ReadError>
    ensures whole { IfOk result (λ bytes. IsTrue S.tells → TookAll bytes.items (S.left source.old) (S.left source.new)) }
    ensures short { IfOk result (λ bytes. length bytes.items ≤ 16777216) }
    ensures too_long { IsErrOf result ReadError.TooLong → IsTrue S.tells → TookMore 16777216 (S.left source.old) (S.left source.new) }
    ensures in_bound { IsTrue S.tells → TookFew 16777217 (S.left source.old) (S.left source.new) }
    ensures failed { IsErrOf result ReadError.Failed → Rose (S.faults source.old) (S.faults source.new) }
    ensures later { S.faults source.old ≤ S.faults source.new }
{
    let mut piece = room(alloc, PIECE)?;
    read_up_to(alloc, source, &mut piece, MOST)
}

/// Writes all the bytes.
pub fn write_all<K: Sink>(sink: &mut K, bytes: &[u8]) -> Result<(), Failed>
    ensures whole { OnOk result (IsTrue K.tells → K.held sink.new ≡ K.held sink.old ++ bytes.now) }
    ensures front { IsTrue K.tells → HoldsFront bytes.now (K.held sink.old) (K.held sink.new) }
    ensures failed { OnErr result (Rose (K.faults sink.old) (K.faults sink.new)) }
    ensures some { OnErr result (0 < length bytes.now) }
    ensures none { bytes.now ≡ [] → sink.new ≡ sink.old }
    ensures later { K.faults sink.old ≤ K.faults sink.new }
{
    let mut rest = bytes;
    while !rest.is_empty() {
        let count = sink.write(&rest[..rest.len().min(PIECE)])?;
        rest = &rest[count..];
    }
    Ok(())
}
