//! Scans ancestries that an independent model made, and takes the outcome of the logs that they carry.
//!
//! A line of the file is `NAMESPACE NUMBER PREVIOUS DEALERS PLAYERS BLOCKS TIP ANCESTRY ENDED ANSWER OUTCOME`: the round's namespace and
//! number, the output before it and its keys; how many blocks an epoch has; the tip, `HEIGHT:DIGEST`; the blocks, as they are fed; 1 where
//! the ancestry has ended; what the scan answers to the last of them that it reads, and the output of the logs that it answers. Bytes are
//! hexadecimal, members of a list have commas between them, and what isn't there is `-`.
ghost use Rattle.std.specs.Prelude.{◌<◌, IfSome, IsTrue};

use crate::counts::Count;
use dkg_artifact::{Fed, Scan, Tip, verify_logs};
use dkg_ceremony::{
    Bounds, Ceremony, DealerLog, Epocher, Mode, ModeVersion, Output, Reveal, Round, StandCeremony,
};
use dkg_infos::{Unit, Why};
use dkg_types::Block;
use dkg_values::{Digest, Height, Key, Map, MapCfg, Read, Set, Value, decode_cfg};
use std::alloc::Global;
use std::num::{NonZeroU32, NonZeroU64};
use std::{io, str};

/// The most members of a list.
const MOST: u32 = 1000;

/// A line's fields.
#[derive(Drop)]
struct Line<'a> {
    namespace: &'a str,
    number: u64,
    previous: &'a str,
    dealers: &'a str,
    players: &'a str,
    blocks: NonZeroU64,
    tip: &'a str,
    ancestry: &'a str,
    ended: bool,
    answer: &'a str,
    outcome: &'a str,
}

/// A scan's round, where it starts, and what it is fed.
#[derive(Drop)]
struct Ancestry {
    round: Round,
    bounds: Bounds,
    tip: Option<Tip>,
    blocks: Vec<Block<Unit>>,
    ended: bool,
}

fn number_of(text: &str) -> Option<u64> {
    text.parse::<u64>().ok()
}

fn line_of(text: &str) -> Option<Line<'_>> {
    let mut words = text.split(' ');
    Some(Line {
        namespace: words.next()?,
        number: number_of(words.next()?)?,
        previous: words.next()?,
        dealers: words.next()?,
        players: words.next()?,
        blocks: NonZeroU64::new(number_of(words.next()?)?)?,
        tip: words.next()?,
        ancestry: words.next()?,
        ended: words.next()? == "1",
        answer: words.next()?,
        outcome: words.next()?,
    })
}

/// A value of its bytes, which are all read.
fn value_of<T: Read + Drop>(alloc: Global, text: &str, cfg: &T::Cfg) -> Option<T> {
    let bytes = hex::decode(alloc, text.as_bytes()).ok()?;
    decode_cfg::<T>(alloc, bytes.as_slice(), cfg).ok()
}

fn bytes_of(alloc: Global, text: &str) -> Option<Vec<u8>> {
    if text == "-" {
        return Some(Vec::new(alloc));
    }
    hex::decode(alloc, text.as_bytes()).ok()
}

fn set_of(alloc: Global, text: &str) -> Option<Set> {
    value_of::<Set>(alloc, text, &MOST)
}

/// The output before a round, if there is one.
fn previous_of(alloc: Global, text: &str) -> Option<Option<Output>> {
    if text == "-" {
        return Some(None);
    }
    Some(Some(value_of::<Output>(alloc, text, &(MOST, ModeVersion(1)))?))
}

fn round_in(alloc: Global, line: &Line<'_>) -> Option<Round> {
    let namespace = bytes_of(alloc, line.namespace)?;
    let previous = previous_of(alloc, line.previous)?;
    let dealers = set_of(alloc, line.dealers)?;
    let players = set_of(alloc, line.players)?;
    let round = StandCeremony.round(
        alloc,
        &namespace,
        line.number,
        previous.as_ref(),
        Mode::NonZeroCounter,
        Reveal::V1,
        &dealers,
        &players,
    );
    round.ok()
}

/// The bounds of the round's epoch.
fn bounds_of(line: &Line<'_>) -> Option<Bounds> {
    let first = line.number.checked_mul(line.blocks.get())?;
    Epocher::new(line.blocks).containing(Height(first))
}

fn tip_of(alloc: Global, text: &str) -> Option<Option<Tip>> {
    if text == "-" {
        return Some(None);
    }
    let mut words = text.split(':');
    Some(Some(Tip {
        height: Height(number_of(words.next()?)?),
        digest: value_of::<Digest>(alloc, words.next()?, &())?,
    }))
}

fn blocks_of(alloc: Global, text: &str) -> Option<Vec<Block<Unit>>> {
    let mut blocks = Vec::new(alloc);
    if text == "-" {
        return Some(blocks);
    }
    for word in text.split(',') {
        let limits = (NonZeroU32::new(MOST)?, ModeVersion(1));
        blocks
            .push(value_of::<Block<Unit>>(alloc, word, &limits)?)
            .ok()?;
    }
    Some(blocks)
}

fn ancestry_of(alloc: Global, line: &Line<'_>) -> Option<Ancestry> {
    Some(Ancestry {
        round: round_in(alloc, line)?,
        bounds: bounds_of(line)?,
        tip: tip_of(alloc, line.tip)?,
        blocks: blocks_of(alloc, line.ancestry)?,
        ended: line.ended,
    })
}

/// What a scan is to answer.
fn wanted_of(alloc: Global, text: &str) -> Option<Fed> {
    let mut words = text.split(':');
    match words.next()? {
        "need" => Some(Fed::Need),
        "logs" => {
            let limits = MapCfg {
                least: 0,
                most: MOST,
                value: MOST,
            };
            let logs = value_of::<Map<DealerLog>>(alloc, words.next()?, &limits)?;
            Some(Fed::Logs(logs))
        }
        "short" => Some(Fed::Unavailable(Why::Short)),
        "height" => Some(Fed::Unavailable(Why::WrongHeight {
            awaited: Height(number_of(words.next()?)?),
            got: Height(number_of(words.next()?)?),
        })),
        "unlinked" => Some(Fed::Unavailable(Why::Unlinked {
            height: Height(number_of(words.next()?)?),
        })),
        "detached" => Some(Fed::Unavailable(Why::Detached {
            height: Height(number_of(words.next()?)?),
        })),
        _ => None,
    }
}

/// Whether a tip is below the epoch's last height.
fn is_below(tip: &Option<Tip>, last: Height) -> bool
    ensures { IsTrue result → IfSome tip.now (λ t. t.height < last) }
{
    match tip {
        None => true,
        Some(tip) => tip.height.0 < last.0,
    }
}

/// What a scan answers to the last block that it needs of an ancestry.
fn answer_of<C: Ceremony>(alloc: Global, ceremony: &C, ancestry: &Ancestry) -> Option<Fed> {
    if !is_below(&ancestry.tip, ancestry.bounds.last) {
        return None;
    }
    let started = Scan::start::<C, Unit>(
        alloc,
        ceremony,
        &ancestry.round,
        ancestry.bounds,
        ancestry.tip,
    );
    let (mut scan, first) = started.ok()?;
    let Fed::Need = first else {
        return Some(first);
    };
    for block in &ancestry.blocks {
        let fed = scan.feed(alloc, ceremony, block).ok()?;
        let Fed::Need = fed else {
            return Some(fed);
        };
    }
    if ancestry.ended {
        Some(scan.end())
    } else {
        Some(Fed::Need)
    }
}

/// The output of an answer's logs, if it has logs and they have one.
fn output_of<C: Ceremony>(
    alloc: Global,
    ceremony: &C,
    round: &Round,
    answer: Fed,
) -> Option<Option<Output>> {
    let Fed::Logs(logs) = answer else {
        return Some(None);
    };
    let verified = verify_logs(alloc, ceremony, round, None, logs).ok()?;
    match &verified.result {
        None => Some(None),
        Some(result) => Some(Some(result.output.copy(alloc).ok()?)),
    }
}

/// Whether a line's ancestry is answered as it says, and its logs have the output that it says.
fn is_answered(alloc: Global, text: &str) -> Option<bool> {
    let line = line_of(text)?;
    let ancestry = ancestry_of(alloc, &line)?;
    let answer = answer_of(alloc, &StandCeremony, &ancestry)?;
    if !answer.same(&wanted_of(alloc, line.answer)?) {
        return Some(false);
    }
    let output = output_of(alloc, &StandCeremony, &ancestry.round, answer)?;
    match (output, previous_of(alloc, line.outcome)?) {
        (None, None) => Some(true),
        (Some(output), Some(wanted)) => Some(output.same(&wanted)),
        _ => Some(false),
    }
}

/// Scans all lines of a file, and tells each that is answered otherwise.
pub fn scan_ancestries<W: io::Write>(
    alloc: Global,
    bytes: &[u8],
    sink: &mut W,
) -> io::Result<Count> {
    let mut count = Count::new();
    let Ok(text) = str::from_utf8(bytes) else {
        count.take(false);
        return Ok(count);
    };
    for line in text.lines() {
        let agrees = is_answered(alloc, line).unwrap_or(false);
        count.take(agrees);
        if !agrees {
            sink.write_all(line.as_bytes())?;
            sink.write_all(b"\n")?;
        }
    }
    Ok(count)
}
