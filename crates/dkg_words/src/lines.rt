//! The parts of a text: its lines, and a line's fields.
ghost use Rattle.std.specs.Prelude.{◌≡◌, ◌≢◌, ◌<◌, ◌+◌, All, IfSome, List, MatchOption, None, Some, ℕ, [], length, take, drop};
ghost use Rattle.dkg_text.specs.Fields.{IsCutAt};
ghost use Rattle.dkg_words.specs.Lines.{IsParted, IsWholeLine, behind_byte as behind_of, first_number as first_number_of, line_number as line_number_of, number_or_zero as number_or_zero_of, over_lines, second_number as second_number_of, until as until_of};

use dkg_reading::number;
use memchr::memchr;

fn parted(text: &[u8], at: u8) -> Option<(&[u8], &[u8])>
    ensures { MatchOption result (All (λ b. b ≢ at) text.now) (λ parts. IsCutAt at text.now parts.0.now parts.1.now) }
{
    let place = memchr(at, text)?;
    Some((&text[..place], &text[place + 1..]))
}

/// What stands before and behind the first such byte.
pub(crate) fn cut(text: &[u8], at: u8) -> Option<(&[u8], &[u8])>
    ensures value { MatchOption result (IsWholeLine at text.now) (λ parts. IsParted at text.now parts.0.now parts.1.now) }
    ensures shorter { IfSome result (λ parts. length parts.1.now < length text.now) }
{
    parted(text, at)
}

/// What stands before the first such byte, or all of a text that has none.
pub(crate) fn until(text: &[u8], at: u8) -> &[u8]
    ensures { result.now ≡ until_of at text.now }
{
    match cut(text, at) {
        Some((before, _)) => before,
        None => text,
    }
}

/// What stands behind the first such byte.
pub(crate) fn behind(text: &[u8], at: u8) -> Option<&[u8]>
    ensures { MatchOption result (behind_of at text.now ≡ None) (λ rest. behind_of at text.now ≡ Some rest.now) }
{
    match cut(text, at) {
        Some((_, rest)) => Some(rest),
        None => None,
    }
}

/// The number that a field spells, and 0 where it spells none.
pub(crate) fn number_or_zero(field: &[u8]) -> u64
    ensures { result ≡ number_or_zero_of field.now }
{
    number(field).unwrap_or(0)
}

/// The number behind a line's name.
pub(crate) fn first_number(line: &[u8]) -> u64
    ensures { result ≡ first_number_of line.now }
{
    match behind(line, b' ') {
        Some(fields) => number_or_zero(until(fields, b' ')),
        None => 0,
    }
}

/// The number behind that.
pub(crate) fn second_number(line: &[u8]) -> u64
    ensures { result ≡ second_number_of line.now }
{
    match behind(line, b' ') {
        Some(fields) => first_number(fields),
        None => 0,
    }
}

/// A text up to a place, or all of it.
pub(crate) fn up_to(text: &[u8], place: u64) -> &[u8]
    ensures { result.now ≡ take place text.now }
{
    text.get(..place as usize).unwrap_or(text)
}

/// A text from a place on.
pub(crate) fn on_from(text: &[u8], place: u64) -> &[u8]
    ensures { result.now ≡ drop place text.now }
{
    text.get(place as usize..).unwrap_or(&[])
}

/// The number of the line that begins at a place, from 1.
pub(crate) fn line_number(text: &[u8], place: u64) -> u64
    ensures { result ≡ line_number_of text.now place }
{
    let mut number = 1u64;
    for byte in up_to(text, place) {
        if *byte == b'\n' {
            number += 1;
        }
    }
    number
}

/// What goes over the lines of a text, one after another.
pub(crate) trait Walk: Sized {
    /// What it is behind a line.
    ghost after: { Self → List ℕ → Self };

    fn pass(&mut self, line: &[u8])
        ensures { self.new ≡ after self.old line.now };
}

/// Goes over all lines of a text that are ended.
pub(crate) fn go_over<W: Walk>(walker: &mut W, text: &[u8])
    ensures { walker.new ≡ over_lines W.after walker.old [] text.now }
{
    let mut rest = text;
    while let Some((line, more)) = cut(rest, b'\n') {
        walker.pass(line);
        rest = more;
    }
}
