//! The warning of a message that has this node's own key.
ghost use Rattle.std.specs.Prelude.{◌≡◌, ◌++◌, IfOk, OnOk, None, Some};
ghost use Rattle.dkg_words.specs.Own.{place_behind_first, own_key, own_message, own_place, own_text, own_told};

use crate::bad::put_line;
use crate::before::counted;
use crate::lines::{behind, first_number, until};
use crate::put::{put, put_number};
use dkg_values::Mem;
use memchr::memmem;
use std::alloc::Global;

/// The key of this node: the number behind the name of a text's second line.
fn key(text: &[u8]) -> u64
    ensures { result ≡ own_key text.now }
{
    match behind(text, b'\n') {
        Some(lines) => first_number(until(lines, b'\n')),
        None => 0,
    }
}

/// How a line of a message of a key begins, with the line feed before it.
fn message_of(alloc: Global, key: u64) -> Mem<Vec<u8>>
    ensures { IfOk result (λ begin. begin.items ≡ own_message key) }
{
    let mut begin = Vec::new(alloc);
    put(&mut begin, b"\npeer ")?;
    put_number(&mut begin, key)?;
    put(&mut begin, b" ")?;
    Ok(begin)
}

/// The place behind the first line feed at which some words stand.
pub(crate) fn find(text: &[u8], words: &[u8]) -> Option<u64>
    ensures { result ≡ place_behind_first text.now words.now }
{
    match memmem::find(text, words) {
        Some(feed) => Some(counted(feed as u64)),
        None => None,
    }
}

/// Where the first line of a message with this node's own key begins.
fn message_place(alloc: Global, text: &[u8]) -> Mem<Option<u64>>
    ensures { IfOk result (λ found. found ≡ own_place text.now) }
{
    let begin = message_of(alloc, key(text))?;
    Ok(find(text, &begin))
}

fn put_own(out: &mut Vec<u8>, text: &[u8], place: u64) -> Mem<()>
    ensures { OnOk result (out.new.items ≡ out.old.items ++ own_told text.now (Some place)) }
{
    put(out, b"warning: ")?;
    put_line(out, text, place)?;
    put(
        out,
        b": a message of this node's own key: the promise doesn't cover this run\n",
    )
}

/// What is said of a script in which a message has this node's own key; nothing where none has.
pub fn own_warning(alloc: Global, text: &[u8]) -> Mem<Vec<u8>>
    ensures { IfOk result (λ line. line.items ≡ own_text text.now) }
{
    let mut out = Vec::new(alloc);
    match message_place(alloc, text)? {
        Some(place) => put_own(&mut out, text, place)?,
        None => {}
    }
    Ok(out)
}
