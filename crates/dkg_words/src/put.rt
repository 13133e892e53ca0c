//! The writing of words: a text, a number, and a line of a script as it is shown.
ghost use Rattle.std.specs.Prelude.{◌≡◌, ◌++◌, ◌∷◌, [], ◌<◌, OnOk, IfOk, decimal};
ghost use Rattle.std.specs.List.{flat_map};
ghost use Rattle.dkg_words.specs.Shown.{escaped as escaped_of, nibble as nibble_of, shown, is_printable as is_plain_of};

use crate::lines::up_to;
use dkg_values::Mem;
use itoa::Buffer;
use std::alloc::Global;

/// Writes a text as it is.
pub(crate) fn put(out: &mut Vec<u8>, text: &[u8]) -> Mem<()>
    ensures { OnOk result (out.new.items ≡ out.old.items ++ text.now) }
{
    Ok(out.extend_from_slice(text)?)
}

/// Writes a number's digits.
pub(crate) fn put_number(out: &mut Vec<u8>, number: u64) -> Mem<()>
    ensures { OnOk result (out.new.items ≡ out.old.items ++ decimal number) }
{
    let mut buffer = Buffer::new();
    put(out, buffer.format(number).as_bytes())
}

/// A digit of base 16.
fn nibble(value: u8) -> u8
    requires { value < 16 }
    ensures { result ≡ nibble_of value }
{
    if value < 10 { 48 + value } else { 87 + value }
}

/// Whether a byte is shown as it is.
fn is_plain(byte: u8) -> bool
    ensures { result ≡ is_plain_of byte }
{
    32 <= byte && byte <= 126
}

/// Writes a byte: as it is, or by its two digits.
fn put_byte(out: &mut Vec<u8>, byte: u8) -> Mem<()>
    ensures { OnOk result (out.new.items ≡ out.old.items ++ escaped_of byte) }
{
    if is_plain(byte) {
        return put(out, &[byte]);
    }
    put(out, &[92, 120, nibble(byte / 16), nibble(byte % 16)])
}

fn put_bytes(out: &mut Vec<u8>, bytes: &[u8]) -> Mem<()>
    ensures { OnOk result (out.new.items ≡ out.old.items ++ flat_map escaped_of bytes.now) }
{
    for byte in bytes {
        put_byte(out, *byte)?;
    }
    Ok(())
}

/// The most bytes of a line that are shown.
const MOST: usize = 30;

/// How many bytes of a longer line are shown.
const SOME: u64 = 28;

/// Writes a line as it is shown: whole, or its first bytes and two dots.
pub(crate) fn put_shown(out: &mut Vec<u8>, line: &[u8]) -> Mem<()>
    ensures { OnOk result (out.new.items ≡ out.old.items ++ shown line.now) }
{
    if line.len() <= MOST {
        return put_bytes(out, line);
    }
    put_bytes(out, up_to(line, SOME))?;
    put(out, b"..")
}

/// A line of these words.
pub fn sentence(alloc: Global, words: &[u8]) -> Mem<Vec<u8>>
    ensures { IfOk result (λ line. line.items ≡ words.now ++ 10 ∷ []) }
{
    let mut out = Vec::new(alloc);
    put(&mut out, words)?;
    put(&mut out, b"\n")?;
    Ok(out)
}
