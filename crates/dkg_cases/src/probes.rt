//! Plays probes of which an independent model told each step.
//!
//! A case of the file is a head line, `case NAME EPOCH FLOOR BLOCKS`: what the case shows, the checkpoint's epoch, that of a configured
//! floor, or `-`, and how many blocks from genesis on the source holds. Behind it stand events, a line each: `subscribe`, `unsubscribe`,
//! `attach`, `retry`, or `reply KEY BYTES`, a peer's message in hexadecimal, or `-` for one without bytes. Behind each event stands what its
//! step tells, in lines that begin with `>`, and behind the last one what the probe knows: `>known FLOOR FINALIZATION`, each as
//! `EPOCH:VIEW`, or `-` where there is none. (The finalization is that of the block whose info is known.) An empty line parts cases.
//!
//! All probes have the keys 1 to 4 as dealers, and epochs of two blocks.

use crate::counts::{Count, tell_difference};
use crate::parts::{HeldBlocks, held_blocks, plain_probe};
use dkg_infos::{Directory, Entry, Transcript};
use dkg_probe::{Actor, Blocks, Event};
use dkg_text::print_of;
use dkg_types::{Finalization, Manager, Scheme};
use dkg_values::{Blob, Key};
use std::alloc::Global;
use std::{io, str};

/// A head line's fields.
#[derive(Drop)]
struct Head<'a> {
    name: &'a str,
    least: u64,
    floor: Option<u64>,
    blocks: u8,
}

/// An epoch, if there is one.
fn epoch_of(text: &str) -> Option<Option<u64>> {
    if text == "-" {
        return Some(None);
    }
    Some(Some(text.parse::<u64>().ok()?))
}

fn head_of(line: &str) -> Option<Head<'_>> {
    let mut words = line.split(' ');
    if words.next()? != "case" {
        return None;
    }
    Some(Head {
        name: words.next()?,
        least: words.next()?.parse::<u64>().ok()?,
        floor: epoch_of(words.next()?)?,
        blocks: words.next()?.parse::<u8>().ok()?,
    })
}

fn bytes_of(alloc: Global, text: &str) -> Option<Blob> {
    if text == "-" {
        return Some(Blob::new(Vec::new(alloc)));
    }
    Some(Blob::new(hex::decode(alloc, text.as_bytes()).ok()?))
}

fn message_of(alloc: Global, from: &str, text: &str) -> Option<Event> {
    let from = Key(from.parse::<u32>().ok()?);
    let bytes = bytes_of(alloc, text)?;
    Some(Event::Peer { from, bytes })
}

/// The event of a line.
fn event_of(alloc: Global, line: &str) -> Option<Event> {
    let mut words = line.split(' ');
    match words.next()? {
        "subscribe" => Some(Event::Subscribe),
        "unsubscribe" => Some(Event::Unsubscribe),
        "attach" => Some(Event::Attach),
        "retry" => Some(Event::Retry),
        "reply" => {
            let from = words.next()?;
            message_of(alloc, from, words.next()?)
        }
        _ => None,
    }
}

/// Lists a line behind others.
fn put(told: &mut String, mark: &str, line: &str) -> Option<()> {
    told.push('\n').ok()?;
    told.push_str(mark).ok()?;
    told.push_str(line).ok()
}

/// Lists what a step told.
fn put_told(alloc: Global, entries: &[Entry], told: &mut String) -> Option<()> {
    let text = print_of(alloc, entries).ok()?;
    for line in str::from_utf8(text.as_slice()).ok()?.lines() {
        put(told, ">", line)?;
    }
    Some(())
}

/// Takes the event of a line, and lists the line, and what was told.
fn take<M: Manager<Dir = Dir>, S: Scheme, Dir: Directory + Drop, B: Blocks<Dir>>(
    alloc: Global,
    probe: &mut Actor<M, S, Dir>,
    source: &B,
    line: &str,
    told: &mut String,
) -> Option<()>
where
    Dir::Cfg: Drop,
{
    put(told, "", line)?;
    let mut out = Transcript::new(alloc);
    let event = event_of(alloc, line)?;
    probe.step(alloc, source, event, &mut out).ok()?;
    put_told(alloc, out.entries(), told)
}

/// The epoch and the view of a finalization.
fn epoch_and_view(alloc: Global, finalization: Option<Finalization>) -> Option<String> {
    match finalization {
        None => String::from_str(alloc, "-").ok(),
        Some(one) => format!(in alloc; "{}:{}", one.epoch.0, one.view).ok(),
    }
}

/// Lists the epochs and views of a floor and of a finalization that are known.
fn put_known(
    alloc: Global,
    floor: Option<Finalization>,
    finalization: Option<Finalization>,
    told: &mut String,
) -> Option<()> {
    put(told, ">known ", epoch_and_view(alloc, floor)?.as_str())?;
    told.push(' ').ok()?;
    told.push_str(epoch_and_view(alloc, finalization)?.as_str())
        .ok()
}

/// The floor that a probe knows, and the finalization of the block whose info it knows.
fn known_in<M: Manager<Dir = Dir>, S: Scheme, Dir: Directory + Drop>(
    probe: &Actor<M, S, Dir>,
) -> (Option<Finalization>, Option<Finalization>)
where
    Dir::Cfg: Drop,
{
    match probe.artifact() {
        Some(known) => (Some(known.floor), known.finalization),
        None => (None, None),
    }
}

/// Takes the events of these lines, and lists each with what it told, and what is known then.
fn play_lines<M: Manager<Dir = Dir>, S: Scheme, Dir: Directory + Drop, B: Blocks<Dir>>(
    alloc: Global,
    probe: &mut Actor<M, S, Dir>,
    source: &B,
    lines: &str,
    told: &mut String,
) -> Option<()>
where
    Dir::Cfg: Drop,
{
    for line in lines.lines() {
        if !line.starts_with(">") {
            take(alloc, probe, source, line, told)?;
        }
    }
    let (floor, finalization) = known_in(probe);
    put_known(alloc, floor, finalization, told)
}

/// Plays lines by a probe over this source.
fn play_over(
    alloc: Global,
    head: &Head<'_>,
    source: &HeldBlocks,
    lines: &str,
    told: &mut String,
) -> Option<()> {
    let mut probe = plain_probe(alloc, head.least, head.floor)?;
    let played = play_lines(alloc, &mut probe, source, lines, told);
    drop(probe);
    played
}

/// Plays lines by the probe of their head line.
fn play_case(alloc: Global, head: &Head<'_>, lines: &str, told: &mut String) -> Option<()> {
    let source = held_blocks(alloc, head.blocks)?;
    let played = play_over(alloc, head, &source, lines, told);
    drop(source);
    played
}

/// Plays a case, and tells where what is told isn't what the case says.
fn play_one<W: io::Write>(
    alloc: Global,
    head: &Head<'_>,
    case: &str,
    count: &mut Count,
    sink: &mut W,
) -> io::Result<()> {
    let (first, lines) = case.split_once('\n').unwrap_or((case, ""));
    let mut told = String::from_str(alloc, first)?;
    let played = play_case(alloc, head, lines, &mut told).is_some();
    let agrees = played && told.as_str() == case;
    count.take(agrees);
    if !agrees {
        tell_difference(
            alloc,
            "probes",
            head.name,
            case.as_bytes(),
            told.as_bytes(),
            sink,
        )?;
    }
    Ok(())
}

/// Plays all cases of a file, and tells where one differs. What has no head line counts as a case that differs.
pub fn play_probes<W: io::Write>(alloc: Global, bytes: &[u8], sink: &mut W) -> io::Result<Count> {
    let mut count = Count::new();
    let Ok(text) = str::from_utf8(bytes) else {
        count.take(false);
        return Ok(count);
    };
    for case in text.trim_end().split("\n\n") {
        let line = case.lines().next().unwrap_or("");
        match head_of(line) {
            None => {
                count.take(false);
                sink.write_all(line.as_bytes())?;
                sink.write_all(b"\n")?;
            }
            Some(head) => play_one(alloc, &head, case, &mut count, sink)?,
        }
    }
    Ok(count)
}
