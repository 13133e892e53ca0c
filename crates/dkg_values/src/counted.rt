//! Readers of counts, of fixed-width numbers and of many things in a row, for the codecs of sets, maps and lists.
ghost use Rattle.std.specs.Prelude.{◌≡◌, ℕ, ◌-◌, ◌<◌, ◌≤◌, ◌^◌, ◌++◌, List, length, IfOk, OnOk, IsErrOf};
ghost use Rattle.std.specs.List.Sorted.{IsStrictlyIncreasing};
ghost use Rattle.std.specs.Int.{w16, w32, to_be_bytes};
ghost use Rattle.dkg_values.specs.Codec.{Reading, Reads, ReadsBy, IsGrammar, number_at, many_at};
ghost use Rattle.dkg_values.specs.Uint.{uint};
ghost use Rattle.dkg_values.specs.Lists.{count_at, keys_at};

use crate::codec::{CodecError, Read, Reader, What};
use crate::numbers::Key;
use crate::uint::read_u32;
use std::alloc::Global;

/// A count within its range, as base 128. Past it `InvalidLength` names the count and `most`, below `least` too.
pub fn read_count(input: &mut Reader<'_>, least: u32, most: u32) -> Result<u32, CodecError>
    ensures exact { Reads (count_at least most input.old) result input.new }
    ensures sure { IsErrOf result CodecError.NoMemory → ⊥ }
{
    let count = read_u32(input)?;
    if count < least || count > most {
        return Err(CodecError::InvalidLength {
            got: u64::from(count),
            max: u64::from(most),
        });
    }
    Ok(count)
}

/// A number of four bytes, the high byte first.
pub fn read_be32(input: &mut Reader<'_>) -> Result<u32, CodecError>
    ensures exact { Reads (number_at w32 input.old) result input.new }
    ensures sure { IsErrOf result CodecError.NoMemory → ⊥ }
{
    let piece = input.take(4)?;
    Ok(u32::from_be_bytes([piece[0], piece[1], piece[2], piece[3]]))
}

/// A number of two bytes, the high byte first.
pub fn read_be16(input: &mut Reader<'_>) -> Result<u16, CodecError>
    ensures exact { Reads (number_at w16 input.old) result input.new }
    ensures sure { IsErrOf result CodecError.NoMemory → ⊥ }
{
    let piece = input.take(2)?;
    Ok(u16::from_be_bytes([piece[0], piece[1]]))
}

/// So many keys that rise. The first that doesn't is `Invalid(Set)`, whatever follows. It takes room for them at once, and for no more than there are bytes.
pub fn read_keys(alloc: Global, input: &mut Reader<'_>, count: u32) -> Result<Vec<Key>, CodecError>
    ensures exact { ReadsBy (λ keys. keys.items) (keys_at count 0 input.old) result input.new }
    ensures rising { IfOk result (λ keys. (length keys.items ≡ count) × IsStrictlyIncreasing keys.items) }
{
    let room = input.left().len().min(count as usize);
    let mut keys = Vec::with_capacity(alloc, room)?;
    let mut least = 0u64;
    for _ in 0..count {
        let key = read_be32(input)?;
        if u64::from(key) < least {
            return Err(CodecError::Invalid(What::Set));
        }
        keys.push(Key(key))?;
        least = u64::from(key) + 1;
    }
    Ok(keys)
}

/// So many things, one after another, for which it takes room at once.
pub fn read_many<T: Read + Drop>(
    alloc: Global,
    input: &mut Reader<'_>,
    count: u32,
    cfg: &T::Cfg,
) -> Result<Vec<T>, CodecError>
    ensures exact { ReadsBy (λ made. made.items) (many_at (T.read_of cfg.now) count input.old) result input.new }
    ensures count { IfOk result (λ made. length made.items ≡ count) }
{
    let room = input.left().len().min(count as usize);
    let mut made = Vec::with_capacity(alloc, room)?;
    for _ in 0..count {
        let one = T::read_cfg(alloc, input, cfg)?;
        made.push(one)?;
    }
    Ok(made)
}
