//! Scripts whose directories have addresses, and what is read of a script. `dkg_replay` reads and writes scripts with a line of every kind, and has texts
//! that just miss them.

mod lines;

use crate::asserts::is;
use dkg_ceremony::Key;
use dkg_reading::{ScriptError, read_script};
use dkg_text::{Script, event_bytes, script_text};
use std::alloc::Global;
use std::process::Abort;
use std::test::Fail;

/// The keys 1 to 4, and an output that they share.
const KEYS: &str = "0400000001000000020000000300000004";

const OUTPUT: &str = "0100000000000000000000000403000500010002";

/// Their addresses, which stand behind the keys in a directory.
const ADDRESSES: &str =
    "0400000000070001010000000e000200000009ffff00000000150003010000001c000400000009ffff";

/// A one-shot script, which has no directory.
const ONE_SHOT: &str =
    "dkg 1\nme 1\nblocks 1\nlimit 1073741824\nmode 1 0\nspace -\noneshot\nlife 0\nstop 0\nend\n";

/// Puts an info of the first epoch, where the keys share an output, and are the players, now and next; and with addresses, a directory of them.
fn push_info(text: &mut String, addressed: bool) -> Result<(), Fail> {
    text.push_str(OUTPUT)?;
    for between in ["", "", "00", ""] {
        text.push_str(between)?;
        text.push_str(KEYS)?;
    }
    if addressed {
        text.push_str(KEYS)?;
        text.push_str(ADDRESSES)?;
    }
    Ok(())
}

/// Puts a script's lines, of which a block's and a life's carry an info.
fn push_lines(text: &mut String, addressed: bool) -> Result<(), Fail> {
    text.push_str("dkg 1\nme 1\nblocks 8\nlimit 4\nmode 0 0\nspace -\nblock 0 - 0 ")?;
    push_info(text, addressed)?;
    text.push_str("\nlife 9\nheld 0\nsync ")?;
    push_info(text, addressed)?;
    text.push_str(" 0 4 0\nwork\npeer 3 -\nstop 0\nend\n")?;
    Ok(())
}

/// That script.
fn text_with_infos(alloc: Global, addressed: bool) -> Result<String, Fail> {
    let mut text = String::new(alloc);
    push_lines(&mut text, addressed)?;
    Ok(text)
}

/// That a text with addresses is read, and written again as it was.
fn returns(rt: &(impl Abort + AllocGlobal), text: &str) -> Result<(), Fail> {
    let script = read_script(rt.alloc(), text.as_bytes(), true)?;
    let written = script_text(rt.alloc(), &script)?;
    assert_eq!(rt; written.as_slice(), text.as_bytes());
    Ok(())
}

/// Whose script it is.
fn owner_of(script: &Script) -> Key {
    script.config.me
}

/// How many events the first life of a script has.
fn event_count(script: &Script) -> Result<usize, Fail> {
    let life = script.lives.as_slice().get(0).ok_or("no life")?;
    Ok(life.events.len())
}

/// The text of the second one.
fn second_event(alloc: Global, script: &Script) -> Result<Vec<u8>, Fail> {
    let life = script.lives.as_slice().get(0).ok_or("no life")?;
    if life.events.len() < 2 {
        return Err(Fail::from("a single event"));
    }
    let second = life.events.at(1);
    Ok(event_bytes(alloc, &second)?)
}

#[test]
fn a_script_has_its_events(rt: HostRuntime) -> Result<(), Fail> {
    let text = text_with_infos(rt.alloc(), false)?;
    let script = read_script(rt.alloc(), text.as_bytes(), false)?;
    is(&rt, owner_of(&script), Key(1));
    is(&rt, event_count(&script)?, 2);
    let event = second_event(rt.alloc(), &script)?;
    is(&rt, event.as_slice(), &b"peer 3 -"[..]);
    Ok(())
}

#[test]
fn directories_are_read_as_they_are_told(rt: HostRuntime) -> Result<(), Fail> {
    returns(&rt, ONE_SHOT)?;
    let text = text_with_infos(rt.alloc(), true)?;
    returns(&rt, text.as_str())?;
    let error = read_script(rt.alloc(), text.as_bytes(), false).err();
    is(&rt, error, Some(ScriptError::Bad { place: 45 }));
    let text = text_with_infos(rt.alloc(), false)?;
    let error = read_script(rt.alloc(), text.as_bytes(), true).err();
    is(&rt, error, Some(ScriptError::Bad { place: 45 }));
    Ok(())
}
