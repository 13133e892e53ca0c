//! The writing of lines: a word, then fields, each after one space.
//!
//! The printer of a transcript stands on it.
ghost use Rattle.std.specs.Prelude.{◌≡◌, ℕ, ◌++◌, ◌∷◌, [], ◌<◌, ◌/◌, ◌%◌, List, OnOk, decimal, slice_index};
ghost use Rattle.hex.specs.Hex.{encode_lower, lower_digits};
ghost use Rattle.dkg_text.specs.Fields.{bytes_field, hex_text, number_field, word_field};

use bytes::BytesMut;
use dkg_ceremony::{Mem, Write};
use itoa::Buffer;
use std::alloc::Global;
use std::marker::Model;

/// The text so far, which contracts see as a list, and room for the value that is being spelled.
#[derive(Drop)]
pub(crate) struct Text {
    written: Vec<u8>,
    spelled: BytesMut,
}

impl Model for Text {
    ghost use Rattle.std.specs.Prelude.{List, ℕ};

    ghost Value = { List ℕ };

    ghost view = { λ t. t.written.items };
}

/// A digit of base 16.
fn digit(value: u8) -> u8
    requires { value < 16 }
    ensures { result ≡ slice_index lower_digits value }
{
    b"0123456789abcdef"[value as usize]
}

fn put_pair(written: &mut Vec<u8>, byte: u8) -> Mem<()>
    ensures { OnOk result (written.new.items ≡ written.old.items ++ slice_index lower_digits (byte / 16) ∷ slice_index lower_digits (byte % 16) ∷ []) }
{
    written.push(digit(byte / 16))?;
    Ok(written.push(digit(byte % 16))?)
}

#[tactic(auto, unfolding(hex::specs::Hex::encode_with))]
fn put_digits(written: &mut Vec<u8>, bytes: &[u8]) -> Mem<()>
    ensures { OnOk result (written.new.items ≡ written.old.items ++ encode_lower bytes.now) }
{
    for byte in bytes {
        put_pair(written, *byte)?;
    }
    Ok(())
}

/// Writes a field that is bytes: a dash, or pairs of lower-case digits.
fn put_bytes(written: &mut Vec<u8>, bytes: &[u8]) -> Mem<()>
    ensures { OnOk result (written.new.items ≡ written.old.items ++ bytes_field bytes.now) }
{
    written.push(b' ')?;
    if bytes.is_empty() {
        return Ok(written.push(b'-')?);
    }
    put_digits(written, bytes)
}

impl Text {
    pub(crate) fn new(alloc: Global) -> Text
        ensures { result ≡ [] }
    {
        Text {
            written: Vec::new(alloc),
            spelled: BytesMut::new(alloc),
        }
    }

    pub(crate) fn into_bytes(self) -> Vec<u8>
        ensures { result.items ≡ self }
    {
        self.written
    }

    /// Writes some text as it is.
    pub(crate) fn put(&mut self, text: &[u8]) -> Mem<()>
        ensures { OnOk result (self.new ≡ self.old ++ text.now) }
    {
        Ok(self.written.extend_from_slice(text)?)
    }

    /// Writes a field that is a word.
    pub(crate) fn word(&mut self, text: &[u8]) -> Mem<()>
        ensures { OnOk result (self.new ≡ self.old ++ word_field text.now) }
    {
        self.written.push(b' ')?;
        Ok(self.written.extend_from_slice(text)?)
    }

    /// Writes a field that is a number.
    pub(crate) fn number(&mut self, number: u64) -> Mem<()>
        ensures { OnOk result (self.new ≡ self.old ++ number_field number) }
    {
        let mut buffer = Buffer::new();
        self.written.push(b' ')?;
        Ok(
            self.written
                .extend_from_slice(buffer.format(number).as_bytes())?,
        )
    }

    /// Writes a field that is bytes: a dash, or pairs of lower-case digits.
    pub(crate) fn bytes(&mut self, bytes: &[u8]) -> Mem<()>
        ensures { OnOk result (self.new ≡ self.old ++ bytes_field bytes.now) }
    {
        put_bytes(&mut self.written, bytes)
    }

    /// Writes a field that is a value's spelling.
    pub(crate) fn value<T: Write>(&mut self, value: &T) -> Mem<()>
        ensures { OnOk result (self.new ≡ self.old ++ bytes_field (T.spelling value.now)) }
    {
        self.spelled.clear();
        value.put(&mut self.spelled)?;
        put_bytes(&mut self.written, &self.spelled)
    }
}
