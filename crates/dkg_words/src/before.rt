//! What the lines before a place say of what may follow.
ghost use Rattle.std.specs.Prelude.{◌≡◌, max};
ghost use Rattle.dkg_words.specs.Before.{before as before_of, blocks_after, counted_up as counted_of, events_after, limit_after, nothing, spaces as spaces_of, version_after};

use crate::lines::{Walk, first_number, go_over, second_number, until};
use crate::names::{Name, is_event, name_of};

/// The lines so far.
#[derive(Clone, Copy, Debug)]
pub(crate) struct Before {
    /// The name of the last line.
    pub(crate) last: Option<Name>,
    /// The number behind it.
    pub(crate) above: u64,
    /// How many blocks there are.
    pub(crate) blocks: u64,
    /// How many events the last life has.
    pub(crate) events: u64,
    /// The limit of participants of a payload, and the highest mode in it.
    pub(crate) limit: u64,
    pub(crate) version: u64,
    pub(crate) oneshot: bool,
    pub(crate) probe: bool,
}

/// A count and one more. (At its last value it stays there.)
pub(crate) fn counted(count: u64) -> u64
    ensures { result ≡ counted_of count }
{
    count.saturating_add(1)
}

/// How many spaces a line has.
fn spaces(line: &[u8]) -> u64
    ensures { result ≡ spaces_of line.now }
{
    let mut count = 0u64;
    for byte in line {
        if *byte == b' ' {
            count = counted(count);
        }
    }
    count
}

fn blocks_behind(blocks: u64, name: Option<Name>) -> u64
    ensures { result ≡ blocks_after blocks name }
{
    match name {
        Some(Name::Block) => counted(blocks),
        _ => blocks,
    }
}

pub(crate) fn events_behind(events: u64, name: Option<Name>) -> u64
    ensures { result ≡ events_after events name }
{
    match name {
        Some(Name::Life) => 0,
        Some(name) => {
            if is_event(name) {
                counted(events)
            } else {
                events
            }
        }
        None => events,
    }
}

/// The limit behind a line: in one-shot mode the number of participants, and at least 1.
fn limit_behind(limit: u64, name: Option<Name>, line: &[u8]) -> u64
    ensures { result ≡ limit_after limit name line.now }
{
    match name {
        Some(Name::Limit) => first_number(line),
        Some(Name::Oneshot) => spaces(line).max(1),
        _ => limit,
    }
}

fn version_behind(version: u64, name: Option<Name>, line: &[u8]) -> u64
    ensures { result ≡ version_after version name line.now }
{
    match name {
        Some(Name::Mode) => second_number(line),
        _ => version,
    }
}

impl Walk for Before {
    ghost use Rattle.dkg_words.specs.Before.{with_line as with_this_line};

    ghost after = { with_this_line };

    fn pass(&mut self, line: &[u8]) {
        let name = name_of(until(line, b' '));
        *self = Before {
            last: name,
            above: first_number(line),
            blocks: blocks_behind(self.blocks, name),
            events: events_behind(self.events, name),
            limit: limit_behind(self.limit, name, line),
            version: version_behind(self.version, name, line),
            oneshot: self.oneshot || name == Some(Name::Oneshot),
            probe: self.probe || name == Some(Name::Probe),
        };
    }
}

impl Before {
    /// Where there is no line.
    pub(crate) fn nothing() -> Before
        ensures { result ≡ nothing }
    {
        Before {
            last: None,
            above: 0,
            blocks: 0,
            events: 0,
            limit: 0,
            version: 0,
            oneshot: false,
            probe: false,
        }
    }

    /// The lines of a text.
    pub(crate) fn of(text: &[u8]) -> Before
        ensures { result ≡ before_of text.now }
    {
        let mut before = Before::nothing();
        go_over(&mut before, text);
        before
    }
}
