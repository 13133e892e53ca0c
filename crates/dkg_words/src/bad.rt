//! The line that is said of a text that is no script.
ghost use Rattle.std.specs.Prelude.{◌≡◌, ◌++◌, ◌<◌, IfOk, OnOk};
ghost use Rattle.dkg_words.specs.Bad.{bad_text, is_bad_payload as is_bad_payload_of, is_number as is_number_of, is_parent_field as is_parent_of, line_wanted, name_wanted, needs_probe, next_wanted, probe_note, some_wanted, wanted};
ghost use Rattle.dkg_words.specs.Told.{line_told, quoted, subject};

use crate::before::Before;
use crate::forms::{put_form, put_payload_form};
use crate::lines::{behind, line_number, on_from, until, up_to};
use crate::names::{Name, is_probing, name_of};
use crate::notes::note;
use crate::put::{put, put_number, put_shown};
use crate::stages::{allows, stage_behind, words};
use dkg_reading::number;
use dkg_values::Mem;
use std::alloc::Global;

/// Writes a line between quotes, behind a colon.
fn put_quoted(out: &mut Vec<u8>, line: &[u8]) -> Mem<()>
    ensures { OnOk result (out.new.items ≡ out.old.items ++ quoted line.now) }
{
    put(out, b": '")?;
    put_shown(out, line)?;
    put(out, b"'")
}

/// Writes what the first line of a text's rest says.
fn put_subject(out: &mut Vec<u8>, rest: &[u8]) -> Mem<()>
    ensures { OnOk result (out.new.items ≡ out.old.items ++ subject rest.now) }
{
    match rest {
        [] => put(out, b": the text ends"),
        [_, ..] => put_quoted(out, until(rest, b'\n')),
    }
}

/// Writes which line of a text begins at a place, and what it says.
pub(crate) fn put_line(out: &mut Vec<u8>, text: &[u8], place: u64) -> Mem<()>
    ensures { OnOk result (out.new.items ≡ out.old.items ++ line_told text.now place) }
{
    put(out, b"line ")?;
    put_number(out, line_number(text, place))?;
    put_subject(out, on_from(text, place))
}

fn is_number(field: &[u8]) -> bool
    ensures { result ≡ is_number_of field.now }
{
    number(field).is_some()
}

/// Whether a field names one of so many blocks, or none.
fn is_parent(blocks: u64, field: &[u8]) -> bool
    ensures { result ≡ is_parent_of blocks field.now }
{
    if field == b"-".as_slice() {
        return true;
    }
    match number(field) {
        Some(number) => number < blocks,
        None => false,
    }
}

/// Whether the fields before a block's payload are right, and one stands there.
fn is_bad_payload(blocks: u64, line: &[u8]) -> bool
    ensures { result ≡ is_bad_payload_of blocks line.now }
{
    let Some(height) = behind(line, b' ') else {
        return false;
    };
    let Some(parent) = behind(height, b' ') else {
        return false;
    };
    let Some(view) = behind(parent, b' ') else {
        return false;
    };
    let Some(payload) = behind(view, b' ') else {
        return false;
    };
    is_number(until(height, b' '))
        && is_parent(blocks, until(parent, b' '))
        && is_number(until(view, b' '))
        && behind(payload, b' ').is_none()
}

/// Writes what may follow the lines before.
fn put_next(out: &mut Vec<u8>, before: &Before) -> Mem<()>
    ensures { OnOk result (out.new.items ≡ out.old.items ++ next_wanted before.now) }
{
    put(out, words(stage_behind(before.last), before.oneshot))
}

fn put_needs_probe(out: &mut Vec<u8>, word: &[u8]) -> Mem<()>
    ensures { OnOk result (out.new.items ≡ out.old.items ++ needs_probe word.now) }
{
    put(out, b" (")?;
    put(out, word)?;
    put(out, b" needs a probe line)")
}

/// Writes that an event needs a `probe` line, where that is why it may not stand there.
fn put_probe_note(out: &mut Vec<u8>, before: &Before, name: Name, line: &[u8]) -> Mem<()>
    ensures { OnOk result (out.new.items ≡ out.old.items ++ probe_note before.now name line.now) }
{
    if before.probe || !is_probing(name) {
        return Ok(());
    }
    put_needs_probe(out, until(line, b' '))
}

/// Writes what is wanted in place of a line of a name.
fn put_name_wanted(out: &mut Vec<u8>, before: &Before, name: Name, line: &[u8]) -> Mem<()>
    ensures { OnOk result (out.new.items ≡ out.old.items ++ name_wanted before.now name line.now) }
{
    if !allows(before, name) {
        put_next(out, before)?;
        return put_probe_note(out, before, name, line);
    }
    if name == Name::Block && is_bad_payload(before.blocks, line) {
        return put_payload_form(out, before);
    }
    put_form(out, before, name)
}

/// Writes what is wanted in place of a line that is ended.
fn put_line_wanted(out: &mut Vec<u8>, before: &Before, line: &[u8]) -> Mem<()>
    ensures { OnOk result (out.new.items ≡ out.old.items ++ line_wanted before.now line.now) }
{
    match name_of(until(line, b' ')) {
        Some(name) => put_name_wanted(out, before, name, line)?,
        None => put_next(out, before)?,
    }
    put(out, note(line))
}

/// Writes what is wanted in place of a text's rest that isn't empty.
fn put_some_wanted(out: &mut Vec<u8>, before: &Before, rest: &[u8]) -> Mem<()>
    ensures { OnOk result (out.new.items ≡ out.old.items ++ some_wanted before.now rest.now) }
{
    if behind(rest, b'\n').is_none() {
        return put(out, b"a line feed at its end");
    }
    put_line_wanted(out, before, until(rest, b'\n'))
}

/// Writes what is wanted in place of the rest of a text.
fn put_wanted(out: &mut Vec<u8>, before: &Before, rest: &[u8]) -> Mem<()>
    ensures { OnOk result (out.new.items ≡ out.old.items ++ wanted before.now rest.now) }
{
    match rest {
        [] => put_next(out, before),
        [_, ..] => put_some_wanted(out, before, rest),
    }
}

/// What is said of a text that is no script from a place on: the line's number, its text, and what is expected there.
pub fn bad_line(alloc: Global, text: &[u8], place: u64) -> Mem<Vec<u8>>
    ensures { IfOk result (λ line. line.items ≡ bad_text text.now place) }
{
    let mut out = Vec::new(alloc);
    put_line(&mut out, text, place)?;
    put(&mut out, b": expected ")?;
    put_wanted(
        &mut out,
        &Before::of(up_to(text, place)),
        on_from(text, place),
    )?;
    put(&mut out, b"\n")?;
    Ok(out)
}
