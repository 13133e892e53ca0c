//! The fields of a line: numbers and bytes, each with one spelling, parted by single spaces.
//!
//! `Field` is a kind of field, and `Row` what a line's fields spell together. The readers of lines say which row theirs is.
ghost use Rattle.std.specs.Prelude.{◌≡◌, ◌≢◌, ℕ, ◌+◌, ◌<◌, ◌^◌, ◌↔◌, ◌++◌, ◌∷◌, [], List, Option, IfOk, IsErr, IfSome, IsTrue, MatchOption, All, decimal, length, option_map};
ghost use Rattle.std.specs.Str.Parse.{IsNumeral, digits_value};
ghost use Rattle.hex.specs.Hex.{IsBytes, decode_of};
ghost use Rattle.dkg_text.specs.Fields.{hex_text, IsPlain, IsLower, SpellsNumber, IsCutAt};
ghost use Rattle.dkg_reading.specs.Rows.{TookFields, all_of, as_set, bytes_of, cut_at_byte, field as field_row, fields_in, is_over_of, mode_of, number_below, decimal_of, version_of, whole_row as whole_of};

use dkg_ceremony::{Blob, Epoch, Height, Key, Mem, Mode, ModeVersion, NoMemory, Set};
use dkg_text::Indexes;
use dkg_types::{Address, Socket};
use hex::FromHexError;
use memchr::memchr;
use std::alloc::Global;
use std::marker::Model;

/// Neither empty nor with a sign or a leading zero.
fn is_plain(text: &[u8]) -> bool
    ensures { IsTrue result ↔ IsPlain text.now }
{
    match text {
        [] | [b'+', ..] | [b'0', _, ..] => false,
        _ => true,
    }
}

/// The number that digits write, where it is below 2^64.
fn parsed(text: &[u8]) -> Option<u64>
    requires { 0 < length text.now }
    ensures { MatchOption result (SpellsNumber text.now → ⊥) (λ n. SpellsNumber text.now × (n ≡ digits_value 10 text.now)) }
{
    let mut number = 0u64;
    for byte in text {
        if !byte.is_ascii_digit() {
            return None;
        }
        number = number
            .checked_mul(10)?
            .checked_add(u64::from(*byte - b'0'))?;
    }
    Some(number)
}

/// The number that a field spells: decimal, without leading zeros, below 2^64.
pub fn number(text: &[u8]) -> Option<u64>
    ensures found { IfSome result (λ n. text.now ≡ decimal n) }
    ensures only { (n : ℕ) → n < 2 ^ 64 → text.now ≡ decimal n → result ≡ Some n }
    ensures value { result ≡ decimal_of text.now }
{
    if is_plain(text) { parsed(text) } else { None }
}

/// Such a number below a limit.
#[tactic(auto, unfolding(crate::specs::Rows::number_below))]
fn below(limit: u64, text: &[u8]) -> Option<u64>
    ensures value { result ≡ number_below limit text.now }
    ensures below { IfSome result (λ n. n < limit) }
{
    let value = number(text)?;
    if value < limit { Some(value) } else { None }
}

#[inline(always)]
fn parted(text: &[u8], at: u8) -> Option<(&[u8], &[u8])>
    ensures { MatchOption result (All (λ b. b ≢ at) text.now) (λ parts. IsCutAt at text.now parts.0.now parts.1.now) }
{
    let place = memchr(at, text)?;
    Some((&text[..place], &text[place + 1..]))
}

/// What stands before and after the first such byte.
#[inline(always)]
pub(crate) fn cut(text: &[u8], at: u8) -> Option<(&[u8], &[u8])>
    ensures value { MatchOption result (cut_at_byte at text.now ≡ None) (λ parts. cut_at_byte at text.now ≡ Some (parts.0.now, parts.1.now)) }
    ensures shorter { IfSome result (λ parts. length parts.1.now < length text.now) }
{
    parted(text, at)
}

fn is_lower(text: &[u8]) -> bool
    ensures { IsTrue result ↔ IsLower text.now }
{
    let mut others = false;
    for byte in text {
        others |= !matches!(*byte, b'0'..=b'9' | b'a'..=b'f');
    }
    !others
}

/// Some lower-case digits.
fn is_digits(text: &[u8]) -> bool
    ensures { IsTrue result ↔ ((0 < length text.now) × IsLower text.now) }
{
    !text.is_empty() && is_lower(text)
}

fn decoded(alloc: Global, text: &[u8]) -> Mem<Option<Blob>>
    ensures { IfOk result (λ made. MatchOption made (IsErr (decode_of text.now)) (λ blob. decode_of text.now ≡ Ok blob)) }
{
    match hex::decode(alloc, text) {
        Ok(bytes) => Ok(Some(Blob::new(bytes))),
        Err(FromHexError::OutOfMemory) => Err(NoMemory),
        Err(_) => Ok(None),
    }
}

fn is_dash(text: &[u8]) -> bool
    ensures { IsTrue result ↔ (text.now ≡ 45 ∷ []) }
{
    text == b"-".as_slice()
}

/// The bytes that a field spells: pairs of lower-case digits, or a dash for none.
fn bytes(alloc: Global, text: &[u8]) -> Mem<Option<Blob>>
    ensures found { IfOk result (λ made. IfSome made (λ blob. text.now ≡ hex_text blob)) }
    ensures only { (bytes : List ℕ) → IsBytes bytes → text.now ≡ hex_text bytes → IfOk result (λ made. made ≡ Some bytes) }
    ensures value { IfOk result (λ made. made ≡ bytes_of text.now) }
{
    if is_dash(text) {
        return Ok(Some(Blob::new(Vec::new(alloc))));
    }
    if is_digits(text) {
        return decoded(alloc, text);
    }
    Ok(None)
}

/// The fields of a line that are not read yet: contracts see a list of texts.
#[derive(Drop)]
pub(crate) struct Fields<'a> {
    /// What is left of the line; nothing behind the last field.
    rest: Option<&'a [u8]>,
}

impl<'a> Model for Fields<'a> {
    ghost use Rattle.std.specs.Prelude.{List, ℕ};
    ghost use Rattle.dkg_reading.specs.Rows.{fields_left};

    ghost Value = { List (List ℕ) };

    ghost view = { λ f. fields_left f.rest };
}

impl<'a> Fields<'a> {
    /// The fields of a line: what stands between its spaces.
    pub(crate) fn new(line: &'a [u8]) -> Fields<'a>
        ensures { result ≡ fields_in line.now }
    {
        Fields { rest: Some(line) }
    }

    /// The next field.
    #[inline(always)]
    pub(crate) fn next(&mut self) -> Option<&'a [u8]>
        ensures { MatchOption result ((self.old ≡ []) × (self.new ≡ [])) (λ field. self.old ≡ field.now ∷ self.new) }
    {
        let text = self.rest?;
        match cut(text, b' ') {
            Some((field, rest)) => {
                self.rest = Some(rest);
                Some(field)
            }
            None => {
                self.rest = None;
                Some(text)
            }
        }
    }

    /// Whether no field is left.
    pub(crate) fn is_over(&self) -> bool
        ensures { result ≡ is_over_of self.now }
    {
        self.rest.is_none()
    }
}

/// A kind of field.
pub(crate) trait Field: Sized {
    /// What a text spells.
    ghost of: { List ℕ → Option Self };

    fn of_field(alloc: Global, text: &[u8]) -> Mem<Option<Self>>
        ensures { IfOk result (λ made. made ≡ of text.now) };
}

impl Field for u64 {
    ghost use Rattle.dkg_reading.specs.Rows.{decimal_of};

    ghost of = { decimal_of };

    fn of_field(_alloc: Global, text: &[u8]) -> Mem<Option<u64>> {
        Ok(number(text))
    }
}

impl Field for Epoch {
    ghost use Rattle.dkg_reading.specs.Rows.{decimal_of};

    ghost of = { decimal_of };

    fn of_field(_alloc: Global, text: &[u8]) -> Mem<Option<Epoch>> {
        Ok(number(text).map(|n| Epoch(n)))
    }
}

impl Field for Height {
    ghost use Rattle.dkg_reading.specs.Rows.{decimal_of};

    ghost of = { decimal_of };

    fn of_field(_alloc: Global, text: &[u8]) -> Mem<Option<Height>> {
        Ok(number(text).map(|n| Height(n)))
    }
}

impl Field for u32 {
    ghost use Rattle.std.specs.Prelude.{◌^◌};
    ghost use Rattle.dkg_reading.specs.Rows.{number_below};

    ghost of = { number_below (2 ^ 32) };

    fn of_field(_alloc: Global, text: &[u8]) -> Mem<Option<u32>> {
        Ok(below(1 << 32, text).map(|n| n as u32))
    }
}

impl Field for Key {
    ghost use Rattle.std.specs.Prelude.{◌^◌};
    ghost use Rattle.dkg_reading.specs.Rows.{number_below};

    ghost of = { number_below (2 ^ 32) };

    fn of_field(alloc: Global, text: &[u8]) -> Mem<Option<Key>> {
        Ok(u32::of_field(alloc, text)?.map(|n| Key(n)))
    }
}

impl Field for u16 {
    ghost use Rattle.std.specs.Prelude.{◌^◌};
    ghost use Rattle.dkg_reading.specs.Rows.{number_below};

    ghost of = { number_below (2 ^ 16) };

    fn of_field(_alloc: Global, text: &[u8]) -> Mem<Option<u16>> {
        Ok(below(1 << 16, text).map(|n| n as u16))
    }
}

impl Field for Blob {
    ghost use Rattle.dkg_reading.specs.Rows.{bytes_of};

    ghost of = { bytes_of };

    fn of_field(alloc: Global, text: &[u8]) -> Mem<Option<Blob>> {
        bytes(alloc, text)
    }
}

/// The mode of a number.
#[tactic(auto, unfolding(crate::specs::Rows::mode_of))]
fn mode(text: &[u8]) -> Option<Mode>
    ensures { result ≡ mode_of text.now }
{
    match number(text)? {
        0 => Some(Mode::NonZeroCounter),
        1 => Some(Mode::RootsOfUnity),
        _ => None,
    }
}

/// The version of a number.
#[tactic(auto, unfolding(crate::specs::Rows::version_of))]
fn version(text: &[u8]) -> Option<ModeVersion>
    ensures { result ≡ version_of text.now }
{
    Some(ModeVersion(below(2, text)? as u8))
}

impl Field for Mode {
    ghost use Rattle.dkg_reading.specs.Rows.{mode_of};

    ghost of = { mode_of };

    fn of_field(_alloc: Global, text: &[u8]) -> Mem<Option<Mode>> {
        Ok(mode(text))
    }
}

impl Field for ModeVersion {
    ghost use Rattle.dkg_reading.specs.Rows.{version_of};

    ghost of = { version_of };

    fn of_field(_alloc: Global, text: &[u8]) -> Mem<Option<ModeVersion>> {
        Ok(version(text))
    }
}

impl<T: Field> Field for Option<T> {
    ghost use Rattle.dkg_reading.specs.Rows.{dash_or};

    ghost of = { dash_or T.of };

    #[tactic(auto, unfolding(crate::specs::Rows::dash_or))]
    fn of_field(alloc: Global, text: &[u8]) -> Mem<Option<Option<T>>> {
        if text == b"-".as_slice() {
            return Ok(Some(None));
        }
        Ok(T::of_field(alloc, text)?.map(|value| Some(value)))
    }
}

/// What the fields of a line spell, one after another.
pub(crate) trait Row: Sized {
    ghost use Rattle.dkg_reading.specs.Rows.{Row as RowOf, TookFields};

    /// What the first fields spell, and the fields behind them.
    ghost spells: { RowOf Self };

    fn read(alloc: Global, fields: &mut Fields<'_>) -> Mem<Option<Self>>
        ensures { IfOk result (λ made. TookFields (spells fields.old) made fields.new) };
}

/// The next field.
#[tactic(auto, unfolding(crate::specs::Rows::field))]
fn one<T: Field>(alloc: Global, fields: &mut Fields<'_>) -> Mem<Option<T>>
    ensures { IfOk result (λ made. TookFields (field_row T.of fields.old) made fields.new) }
{
    match fields.next() {
        Some(text) => T::of_field(alloc, text),
        None => Ok(None),
    }
}

/// What all fields spell.
#[inline(always)]
pub(crate) fn whole<T: Row + Drop>(alloc: Global, mut fields: Fields<'_>) -> Mem<Option<T>>
    ensures { IfOk result (λ made. made ≡ whole_of (T.spells fields.entry)) }
{
    let Some(value) = T::read(alloc, &mut fields)? else {
        return Ok(None);
    };
    if fields.is_over() {
        Ok(Some(value))
    } else {
        Ok(None)
    }
}

impl Row for () {
    ghost use Rattle.dkg_reading.specs.Rows.{no_fields};

    ghost spells = { no_fields };

    fn read(_alloc: Global, _fields: &mut Fields<'_>) -> Mem<Option<()>> {
        Ok(Some(()))
    }
}

impl Row for u64 {
    ghost use Rattle.dkg_reading.specs.Rows.{field as field_row, decimal_of};

    ghost spells = { field_row decimal_of };

    #[inline]
    fn read(alloc: Global, fields: &mut Fields<'_>) -> Mem<Option<u64>> {
        one(alloc, fields)
    }
}

impl Row for Height {
    ghost use Rattle.dkg_reading.specs.Rows.{field as field_row, decimal_of};

    ghost spells = { field_row decimal_of };

    #[inline]
    fn read(alloc: Global, fields: &mut Fields<'_>) -> Mem<Option<Height>> {
        one(alloc, fields)
    }
}

impl Row for u32 {
    ghost use Rattle.std.specs.Prelude.{◌^◌};
    ghost use Rattle.dkg_reading.specs.Rows.{field as field_row, number_below};

    ghost spells = { field_row (number_below (2 ^ 32)) };

    #[inline]
    fn read(alloc: Global, fields: &mut Fields<'_>) -> Mem<Option<u32>> {
        one(alloc, fields)
    }
}

impl Row for Key {
    ghost use Rattle.std.specs.Prelude.{◌^◌};
    ghost use Rattle.dkg_reading.specs.Rows.{field as field_row, number_below};

    ghost spells = { field_row (number_below (2 ^ 32)) };

    fn read(alloc: Global, fields: &mut Fields<'_>) -> Mem<Option<Key>> {
        one(alloc, fields)
    }
}

impl Row for Blob {
    ghost use Rattle.dkg_reading.specs.Rows.{field as field_row, bytes_of};

    ghost spells = { field_row bytes_of };

    fn read(alloc: Global, fields: &mut Fields<'_>) -> Mem<Option<Blob>> {
        one(alloc, fields)
    }
}

impl<A: Field + Drop, B: Field + Drop> Row for (A, B) {
    ghost use Rattle.dkg_reading.specs.Rows.{two};

    ghost spells = { two A.of B.of };

    #[inline]
    fn read(alloc: Global, fields: &mut Fields<'_>) -> Mem<Option<(A, B)>> {
        let Some(first) = one(alloc, fields)? else {
            return Ok(None);
        };
        let Some(second) = one(alloc, fields)? else {
            return Ok(None);
        };
        Ok(Some((first, second)))
    }
}

impl<A: Field + Drop, B: Field + Drop, C: Field + Drop> Row for (A, B, C) {
    ghost use Rattle.dkg_reading.specs.Rows.{three};

    ghost spells = { three A.of B.of C.of };

    fn read(alloc: Global, fields: &mut Fields<'_>) -> Mem<Option<(A, B, C)>> {
        let Some(first) = one(alloc, fields)? else {
            return Ok(None);
        };
        let Some(second) = one(alloc, fields)? else {
            return Ok(None);
        };
        let Some(third) = one(alloc, fields)? else {
            return Ok(None);
        };
        Ok(Some((first, second, third)))
    }
}

impl<A: Field + Drop, B: Field + Drop, C: Field + Drop, D: Field + Drop> Row for (A, B, C, D) {
    ghost use Rattle.dkg_reading.specs.Rows.{four};

    ghost spells = { four A.of B.of C.of D.of };

    fn read(alloc: Global, fields: &mut Fields<'_>) -> Mem<Option<(A, B, C, D)>> {
        let Some(first) = one(alloc, fields)? else {
            return Ok(None);
        };
        let Some(second) = one(alloc, fields)? else {
            return Ok(None);
        };
        let Some(third) = one(alloc, fields)? else {
            return Ok(None);
        };
        let Some(fourth) = one(alloc, fields)? else {
            return Ok(None);
        };
        Ok(Some((first, second, third, fourth)))
    }
}

/// Each of the fields.
fn all<T: Field + Drop>(alloc: Global, fields: &mut Fields<'_>) -> Mem<Option<Vec<T>>>
    ensures value { IfOk result (λ made. option_map (λ xs. xs.items) made ≡ all_of T.of fields.old) }
    ensures over { IfOk result (λ made. IfSome made (λ _. fields.new ≡ [])) }
{
    let mut values = Vec::new(alloc);
    'fields: while let Some(text) = fields.next() {
        let Some(value) = T::of_field(alloc, text)? else {
            return Ok(None);
        };
        values.push(value)?;
    }
    Ok(Some(values))
}

/// The set of some keys, where they rise; a set has fewer than 2^32 of them.
fn set_of(keys: Vec<Key>) -> Option<Set>
    ensures { result ≡ as_set keys.items }
{
    if keys.len() > u32::MAX as usize {
        return None;
    }
    match Set::from_sorted(keys) {
        Ok(set) => Some(set),
        Err(_) => None,
    }
}

impl Row for Set {
    ghost use Rattle.dkg_reading.specs.Rows.{set_row};

    ghost spells = { set_row };

    #[tactic(auto, unfolding(crate::specs::Rows::set_row))]
    fn read(alloc: Global, fields: &mut Fields<'_>) -> Mem<Option<Set>> {
        match all::<Key>(alloc, fields)? {
            Some(keys) => Ok(set_of(keys)),
            None => Ok(None),
        }
    }
}

impl Row for Indexes {
    ghost use Rattle.std.specs.Prelude.{◌^◌};
    ghost use Rattle.dkg_reading.specs.Rows.{all, number_below};

    ghost spells = { all (number_below (2 ^ 32)) };

    fn read(alloc: Global, fields: &mut Fields<'_>) -> Mem<Option<Indexes>> {
        match all::<u32>(alloc, fields)? {
            Some(numbers) => Ok(Some(Indexes::new(numbers))),
            None => Ok(None),
        }
    }
}

/// An epoch and its players.
impl Row for (Epoch, Set) {
    ghost use Rattle.dkg_reading.specs.Rows.{beside, field as field_row, decimal_of, set_row};

    ghost spells = { beside (field_row decimal_of) set_row };

    fn read(alloc: Global, fields: &mut Fields<'_>) -> Mem<Option<(Epoch, Set)>> {
        let Some(epoch) = one(alloc, fields)? else {
            return Ok(None);
        };
        match Set::read(alloc, fields)? {
            Some(players) => Ok(Some((epoch, players))),
            None => Ok(None),
        }
    }
}

impl Row for Socket {
    ghost use Rattle.dkg_reading.specs.Rows.{socket_row};

    ghost spells = { socket_row };

    #[tactic(auto, unfolding(crate::specs::Rows::socket_row))]
    fn read(alloc: Global, fields: &mut Fields<'_>) -> Mem<Option<Socket>> {
        let Some(ip) = one(alloc, fields)? else {
            return Ok(None);
        };
        let Some(port) = one(alloc, fields)? else {
            return Ok(None);
        };
        Ok(Some(Socket { ip, port }))
    }
}

/// A key and where it is reached: one socket, or two of them.
impl Row for (Key, Address) {
    ghost use Rattle.std.specs.Prelude.{◌^◌};
    ghost use Rattle.dkg_reading.specs.Rows.{address_row, beside, field as field_row, number_below};

    ghost spells = { beside (field_row (number_below (2 ^ 32))) address_row };

    #[tactic(auto, unfolding(crate::specs::Rows::address_row))]
    fn read(alloc: Global, fields: &mut Fields<'_>) -> Mem<Option<(Key, Address)>> {
        let Some(key) = one(alloc, fields)? else {
            return Ok(None);
        };
        let Some(ingress) = Socket::read(alloc, fields)? else {
            return Ok(None);
        };
        if fields.is_over() {
            return Ok(Some((key, Address::Symmetric(ingress))));
        }
        match Socket::read(alloc, fields)? {
            Some(egress) => Ok(Some((key, Address::Asymmetric { ingress, egress }))),
            None => Ok(None),
        }
    }
}
