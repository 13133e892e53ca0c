//! Reads values that an independent model wrote, and writes them again.
//!
//! A line of the file is `KIND LIMIT VERSION ANSWER HEX TOLD`: the number of participants and the newest mode that the reader is given, the
//! answer, the bytes, and of what is read a block's digest and an epoch's number (else `-`). The answer is 0, or the number of the codec's error;
//! what the error names stands behind that where the line pins it: `3:GOT:MAX`, `4:BYTE`, `5:WHAT`. Behind a worked line stands its name.

use crate::counts::Count;
use dkg_ceremony::{DealerLog, ModeVersion, Output, Public};
use dkg_infos::{Directory, EpochInfo, EpochOutcome, Participants, Unit};
use dkg_types::{Address, Addresses, Block, Context, Finalization, Message, Payload};
use dkg_values::{
    CodecError, Element, EncodeSize, Epoch, Map, MapCfg, Mem, NoMemory, Read, Set, Value, What,
    Write, decode_cfg, encode,
};
use hex::FromHexError;
use std::alloc::{AllocError, Global};
use std::num::NonZeroU32;
use std::{io, str};

/// What reading a line's bytes is to give.
#[derive(Drop)]
enum Wanted {
    /// A value that is written so again.
    Value,
    /// An error of this number.
    Number(u8),
    /// Just this error.
    Fault(CodecError),
}

/// A line's fields.
#[derive(Drop)]
struct Line<'a> {
    kind: &'a str,
    limit: NonZeroU32,
    version: ModeVersion,
    wanted: Wanted,
    hex: &'a str,
    told: &'a str,
}

/// What a name that an error may have stands for.
fn what_of(name: &str) -> Option<What> {
    match name {
        "Set" => Some(What::Set),
        "Element" => Some(What::Element),
        "Output" => Some(What::Output),
        "Directory" => Some(What::Directory),
        _ => None,
    }
}

/// The error of a number, and of the fields behind it.
fn fault_of(number: u8, fields: &str) -> Option<CodecError> {
    match number {
        3 => {
            let (got, max) = fields.split_once(':')?;
            Some(CodecError::InvalidLength {
                got: got.parse::<u64>().ok()?,
                max: max.parse::<u64>().ok()?,
            })
        }
        4 => Some(CodecError::InvalidEnum(fields.parse::<u8>().ok()?)),
        5 => Some(CodecError::Invalid(what_of(fields)?)),
        _ => None,
    }
}

fn wanted_of(text: &str) -> Option<Wanted> {
    let Some((number, fields)) = text.split_once(':') else {
        return Some(match text.parse::<u8>().ok()? {
            0 => Wanted::Value,
            number => Wanted::Number(number),
        });
    };
    Some(Wanted::Fault(fault_of(number.parse::<u8>().ok()?, fields)?))
}

fn line_of(text: &str) -> Option<Line<'_>> {
    let mut words = text.split(' ');
    Some(Line {
        kind: words.next()?,
        limit: NonZeroU32::new(words.next()?.parse::<u32>().ok()?)?,
        version: ModeVersion(words.next()?.parse::<u8>().ok()?),
        wanted: wanted_of(words.next()?)?,
        hex: words.next()?,
        told: words.next()?,
    })
}

/// The number of a codec's error; none for want of memory, which says nothing of the bytes.
fn number_of(error: CodecError) -> Option<u8> {
    match error {
        CodecError::EndOfBuffer => Some(1),
        CodecError::InvalidVarint => Some(2),
        CodecError::InvalidLength { .. } => Some(3),
        CodecError::InvalidEnum(_) => Some(4),
        CodecError::Invalid(_) => Some(5),
        CodecError::ExtraData => Some(6),
        CodecError::NoMemory => None,
    }
}

/// Whether the value is written as these bytes.
fn is_written<T: Write + EncodeSize>(alloc: Global, value: &T, bytes: &[u8]) -> Mem<bool>
    requires { T.can_size value.now }
{
    Ok(encode(alloc, value)?.as_slice() == bytes)
}

/// Reads a value; whether it is written as it was read.
fn back<T: Write + EncodeSize + Read + Drop>(
    alloc: Global,
    bytes: &[u8],
    cfg: &T::Cfg,
) -> Result<bool, CodecError>
    requires { (v : T) → T.can_size v }
{
    let value = decode_cfg::<T>(alloc, bytes, cfg)?;
    Ok(is_written(alloc, &value, bytes)?)
}

/// Whether a value's copy is the value, and is written as these bytes.
fn is_copied<T: Value + Write + EncodeSize + Drop>(
    alloc: Global,
    value: &T,
    bytes: &[u8],
) -> Mem<bool>
    requires { (v : T) → T.can_size v }
{
    let copy = value.copy(alloc)?;
    Ok(copy.same(value) && is_written(alloc, &copy, bytes)?)
}

/// Reads a value; whether its copy is written as it was read.
fn copied_back<T: Value + Write + EncodeSize + Read + Drop>(
    alloc: Global,
    bytes: &[u8],
    cfg: &T::Cfg,
) -> Result<bool, CodecError>
    requires { (v : T) → T.can_size v }
{
    let value = decode_cfg::<T>(alloc, bytes, cfg)?;
    Ok(is_copied(alloc, &value, bytes)?)
}

/// Whether the block's digest is this.
fn has_digest<Dir: Directory>(alloc: Global, block: &Block<Dir>, digest: &str) -> Mem<bool> {
    Ok(hex::encode(alloc, block.digest().0.as_slice())?.as_str() == digest)
}

/// Reads a block; whether its copy is written as it was read, and it has the digest that the line tells.
fn block_back<Dir: Directory + Drop>(
    alloc: Global,
    bytes: &[u8],
    line: &Line<'_>,
) -> Result<bool, CodecError>
where
    Dir::Cfg: Drop,
{
    let block = decode_cfg::<Block<Dir>>(alloc, bytes, &(line.limit, line.version))?;
    Ok(is_copied(alloc, &block, bytes)? && has_digest(alloc, &block, line.told)?)
}

/// Reads an epoch; whether it is written as it was read, and has the number that the line tells.
fn epoch_back(alloc: Global, bytes: &[u8], line: &Line<'_>) -> Result<bool, CodecError> {
    let epoch = decode_cfg::<Epoch>(alloc, bytes, &())?;
    Ok(is_written(alloc, &epoch, bytes)? && line.told.parse::<u64>().ok() == Some(epoch.0))
}

/// Reads a map of one key at least to elements; whether it is not empty.
fn map_read(alloc: Global, bytes: &[u8], most: u32) -> Result<bool, CodecError> {
    let limits = MapCfg {
        least: 1,
        most,
        value: (),
    };
    Ok(!decode_cfg::<Map<Element>>(alloc, bytes, &limits)?.is_empty())
}

/// Reads a line's bytes as a part of a message; whether it is written as it was read; none where the kind is no part's.
fn part_back(alloc: Global, line: &Line<'_>, bytes: &[u8]) -> Option<Result<bool, CodecError>> {
    let most = line.limit.get();
    match line.kind {
        "epoch" => Some(epoch_back(alloc, bytes, line)),
        "set" => Some(copied_back::<Set>(alloc, bytes, &most)),
        "map" => Some(map_read(alloc, bytes, most)),
        "public" => Some(copied_back::<Public>(alloc, bytes, &most)),
        "output" => Some(copied_back::<Output>(alloc, bytes, &(most, line.version))),
        "log" => Some(copied_back::<DealerLog>(alloc, bytes, &most)),
        "outcome" => Some(back::<EpochOutcome>(alloc, bytes, &())),
        _ => None,
    }
}

/// Reads a line's bytes as a value of its kind; whether it is written as it was read.
fn value_back(alloc: Global, line: &Line<'_>, bytes: &[u8]) -> Result<bool, CodecError> {
    let limits = (line.limit, line.version);
    match line.kind {
        "info" => copied_back::<EpochInfo<Unit>>(alloc, bytes, &limits),
        "addressed-info" => copied_back::<EpochInfo<Addresses>>(alloc, bytes, &limits),
        "payload" => copied_back::<Payload<Unit>>(alloc, bytes, &limits),
        "addressed-payload" => copied_back::<Payload<Addresses>>(alloc, bytes, &limits),
        "block" => block_back::<Unit>(alloc, bytes, line),
        "addressed-block" => block_back::<Addresses>(alloc, bytes, line),
        "participants" => copied_back::<Participants>(alloc, bytes, &line.limit.get()),
        "message" => copied_back::<Message>(alloc, bytes, &line.limit.get()),
        "context" => back::<Context>(alloc, bytes, &()),
        "finalization" => copied_back::<Finalization>(alloc, bytes, &()),
        "address" => copied_back::<Address>(alloc, bytes, &()),
        _ => Ok(false),
    }
}

/// Whether an error is what was wanted.
fn is_wanted(wanted: &Wanted, error: CodecError) -> bool {
    match wanted {
        Wanted::Value => false,
        Wanted::Number(number) => number_of(error) == Some(*number),
        Wanted::Fault(fault) => *fault == error,
    }
}

/// Whether what reading a line's bytes gave is what the line says.
fn is_answered(line: &Line<'_>, answer: Result<bool, CodecError>) -> Mem<bool> {
    match answer {
        Ok(same) => Ok(same && matches!(line.wanted, Wanted::Value)),
        Err(CodecError::NoMemory) => Err(NoMemory),
        Err(error) => Ok(is_wanted(&line.wanted, error)),
    }
}

/// Whether a line's bytes are answered as it says.
fn agrees(alloc: Global, text: &str) -> Mem<bool> {
    let Some(line) = line_of(text) else {
        return Ok(false);
    };
    let bytes = match hex::decode(alloc, line.hex.as_bytes()) {
        Ok(bytes) => bytes,
        Err(FromHexError::OutOfMemory) => return Err(NoMemory),
        Err(_) => return Ok(false),
    };
    let answer = match part_back(alloc, &line, &bytes) {
        Some(answer) => answer,
        None => value_back(alloc, &line, &bytes),
    };
    is_answered(&line, answer)
}

/// Reads all lines of a file, and tells each that is answered otherwise.
pub fn read_values<W: io::Write>(alloc: Global, bytes: &[u8], sink: &mut W) -> io::Result<Count> {
    let mut count = Count::new();
    let Ok(text) = str::from_utf8(bytes) else {
        count.take(false);
        return Ok(count);
    };
    for line in text.lines() {
        let Ok(agrees) = agrees(alloc, line) else {
            return Err(io::Error::from(AllocError));
        };
        count.take(agrees);
        if !agrees {
            sink.write_all(line.as_bytes())?;
            sink.write_all(b"\n")?;
        }
    }
    Ok(count)
}
