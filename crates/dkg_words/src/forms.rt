//! The form of a line, with its ranges as they hold after the lines before it.
ghost use Rattle.std.specs.Prelude.{◌≡◌, ◌++◌, OnOk};
ghost use Rattle.dkg_words.specs.Forms.{least_above as above_of, form, form_back, form_front, form_link, payload_form, range as range_of};

use crate::before::Before;
use crate::names::Name;
use crate::put::{put, put_number};
use dkg_values::Mem;

/// What stands before a line's range.
fn front(name: Name) -> &'static [u8]
    ensures { result.now ≡ form_front name }
{
    match name {
        Name::Dkg => b"dkg 1",
        Name::Me => b"me K, a number below 2^32 without leading zeros",
        Name::Blocks => b"blocks N, a number from 1 without leading zeros",
        Name::Limit => b"limit M, a number from 1 to 1073741824",
        Name::Mode => b"mode A B, each 0 or 1",
        Name::Space => b"space HEX, pairs of lower-case digits, or -",
        Name::Oneshot => b"oneshot K .., rising numbers below 2^32",
        Name::Players => b"players E K .., with rising keys",
        Name::Address => b"address K IP PORT, or address K IP PORT IP PORT",
        Name::Probe => b"probe E F PAY PAY, with two infos, and F a number or -",
        Name::Block => b"block H P V PAY, with P",
        Name::Life => b"life W, a number below 2^64",
        Name::End => b"end alone",
        Name::Processed => b"processed I, a block line's number",
        Name::Absent => b"absent I, a block line's number",
        Name::Held => b"held I .., rising numbers",
        Name::Sync => b"sync PAY E V I, with an info, and I",
        Name::Cut => b"cut J C P, with J",
        Name::Stop => b"stop P, a number below 2^64",
        Name::Peer => b"peer K HEX, a number below 2^32 and pairs of lower-case digits, or -",
        Name::Final => b"final I, a block line's number",
        Name::Next => b"next R H, two numbers",
        Name::Release => b"release H, a number",
        Name::Info => b"info R, a number that no next or info of this life has",
        Name::Feed => b"feed R I, with I a block line's number",
        Name::Over => b"over R, a number",
        Name::Cancel => b"cancel R, a number",
        Name::Work => b"work alone",
        Name::Prepare => b"prepare I .., block lines' numbers",
        Name::Propose => b"propose I .., block lines' numbers",
        Name::Verify => b"verify I .., block lines' numbers",
        Name::Later => b"later K E, with K below 2^32",
        Name::Subscribe => b"subscribe alone",
        Name::Unsubscribe => b"unsubscribe alone",
        Name::Attach => b"attach alone",
        Name::Reply => b"reply K HEX, a number below 2^32 and pairs of lower-case digits, or -",
        Name::Retry => b"retry alone",
    }
}

/// What stands between that and the range's number.
fn link(name: Name) -> &'static [u8]
    ensures { result.now ≡ form_link name }
{
    match name {
        Name::Players => b" and E above ",
        Name::Address => b", with K above ",
        Name::Cut => b" at most ",
        _ => b" below ",
    }
}

/// What stands behind a line's range.
fn back(name: Name) -> &'static [u8]
    ensures { result.now ≡ form_back name }
{
    match name {
        Name::Block => b" or -",
        Name::Absent => b" whose height isn't 0",
        Name::Final => b" (I is no height)",
        Name::Cut => b", the number of events",
        _ => b"",
    }
}

/// The number behind the last line's name, where that line has this name.
fn above(before: &Before, name: Name) -> Option<u64>
    ensures { result ≡ above_of before.now name }
{
    match (before.last, name) {
        (Some(Name::Players), Name::Players) | (Some(Name::Address), Name::Address) => {
            Some(before.above)
        }
        _ => None,
    }
}

/// The number of a line's range, where it has one.
fn range(before: &Before, name: Name) -> Option<u64>
    ensures { result ≡ range_of before.now name }
{
    match name {
        Name::Block
        | Name::Processed
        | Name::Absent
        | Name::Held
        | Name::Sync
        | Name::Final
        | Name::Feed
        | Name::Prepare
        | Name::Propose
        | Name::Verify => Some(before.blocks),
        Name::Cut => Some(before.events),
        _ => above(before, name),
    }
}

/// Writes the form of a line of a name.
pub(crate) fn put_form(out: &mut Vec<u8>, before: &Before, name: Name) -> Mem<()>
    ensures { OnOk result (out.new.items ≡ out.old.items ++ form before.now name) }
{
    put(out, front(name))?;
    if let Some(number) = range(before, name) {
        put(out, link(name))?;
        put_number(out, number)?;
    }
    put(out, back(name))
}

/// Writes the form of a block's payload.
pub(crate) fn put_payload_form(out: &mut Vec<u8>, before: &Before) -> Mem<()>
    ensures { OnOk result (out.new.items ≡ out.old.items ++ payload_form before.now) }
{
    put(
        out,
        b"a payload: an info or a signed log, within the limit ",
    )?;
    put_number(out, before.limit)?;
    put(out, b" and mode ")?;
    put_number(out, before.version)
}
