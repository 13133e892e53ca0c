//! Numbers in base 128, the low group first, of least length, as counts, epochs and heights are spelled.
//!
//! A group is a byte whose high bit says that more follow. The last of several groups is not zero, so a number has one
//! spelling. A group that would take the number past its width is refused where it stands, whatever follows.
ghost use Rattle.std.specs.Prelude.{◌≡◌, ℕ, ◌-◌, ◌*◌, ◌<◌, ◌≤◌, ◌^◌, ◌++◌, ◌+◌, length, IfOk, OnOk, OnErr, Err, IsErrOf};
ghost use Rattle.dkg_values.specs.Codec.{Reads, StandsInFront};
ghost use Rattle.dkg_values.specs.Uint.{groups, uint, groups_at, uint_at, IsMost};

use crate::codec::{CodecError, Reader};
use crate::memory::Mem;
use bytes::{BufMut, BytesMut};

/// A number up to `most` whose last group is at least `least`.
#[tactic(auto, using(crate::specs::Uints::most_step), unfolding(crate::specs::Uint::groups_at))]
fn read_groups(input: &mut Reader<'_>, least: u8, most: u64) -> Result<u64, CodecError>
    requires { IsMost most }
    ensures exact { Reads (groups_at least most input.old) result input.new }
    ensures bound { IfOk result (λ n. n ≤ most) }
    ensures sure { IsErrOf result CodecError.NoMemory → ⊥ }
{
    let piece = input.take(1)?;
    let byte = piece[0];
    if byte < 128 {
        if byte < least || u64::from(byte) > most {
            return Err(CodecError::InvalidVarint);
        }
        return Ok(u64::from(byte));
    }
    if most < 128 {
        return Err(CodecError::InvalidVarint);
    }
    let high = read_groups(input, 1, most / 128)?;
    Ok(u64::from(byte - 128) + 128 * high)
}

/// A number below 2^64, of at most ten groups.
pub fn read_u64(input: &mut Reader<'_>) -> Result<u64, CodecError>
    ensures exact { Reads (uint_at (2 ^ 64 - 1) input.old) result input.new }
    ensures sure { IsErrOf result CodecError.NoMemory → ⊥ }
{
    read_groups(input, 0, u64::MAX)
}

/// A number below 2^32, of at most five groups.
pub fn read_u32(input: &mut Reader<'_>) -> Result<u32, CodecError>
    ensures exact { Reads (uint_at (2 ^ 32 - 1) input.old) result input.new }
    ensures sure { IsErrOf result CodecError.NoMemory → ⊥ }
{
    let n = read_groups(input, 0, u64::from(u32::MAX))?;
    Ok(n as u32)
}

/// The groups of a number, low first.
#[tactic(auto, unfolding(crate::specs::Uint::groups))]
fn write_groups(out: &mut BytesMut, n: u64) -> Mem<()>
    ensures ok { OnOk result ((more : ℕ) → n < 128 * 128 ^ more → out.new.items ≡ out.old.items ++ groups more n) }
    ensures err { OnErr result (StandsInFront out.old.items out.new.items) }
{
    if n < 128 {
        out.put_u8(n as u8)?;
        return Ok(());
    }
    out.put_u8((n % 128) as u8 + 128)?;
    write_groups(out, n / 128)
}

/// Writes a number at the end; on an error a part of it may be there.
pub fn write_uint(out: &mut BytesMut, n: u64) -> Mem<()>
    ensures ok { OnOk result (out.new.items ≡ out.old.items ++ uint n) }
    ensures err { OnErr result (StandsInFront out.old.items out.new.items) }
{
    write_groups(out, n)
}

/// How many groups a number takes.
#[tactic(auto, unfolding(crate::specs::Uint::groups))]
fn groups_size(n: u64) -> usize
    ensures size { (more : ℕ) → n < 128 * 128 ^ more → result ≡ length (groups more n) }
    ensures short { result ≤ n + 1 }
{
    if n < 128 { 1 } else { 1 + groups_size(n / 128) }
}

/// How many bytes a number takes: at most ten, and at most five below 2^32.
#[tactic(auto, using(crate::specs::UintGrammar::uint_short))]
pub fn uint_size(n: u64) -> usize
    ensures size { result ≡ length (uint n) }
    ensures bound { result ≤ 10 }
    ensures narrow { n < 2 ^ 32 → result ≤ 5 }
{
    groups_size(n)
}
