//! The lines of a life's events: a table of their names and fields, and what an event must meet where it stands.
ghost use Rattle.std.specs.Prelude.{◌≡◌, ℕ, ◌<◌, ◌≤◌, ◌↔◌, ◌||◌, ◌++◌, ◌∷◌, [], All, IfOk, IfSome, IsTrue, List, OnOk, codes, length};
ghost use Rattle.std.specs.Str.{bytes_eq};
ghost use Rattle.dkg_text.specs.declared.script.Event.{Event as AnEvent};
ghost use Rattle.dkg_reading.specs.Asked.{AreAsked, asks, has_number};
ghost use Rattle.dkg_reading.specs.Grammar.{are_blocks as are_blocks_of, event_line_at, event_named as event_by_name, event_lines_at, is_allowed_event as is_event_of, is_eventful};
ghost use Rattle.dkg_reading.specs.Lines.{ReadsText, ReadsIf};

use crate::asked::Asked;
use crate::fields::{Fields, whole};
use crate::lines::Lines;
use crate::stop::Stop;
use dkg_ceremony::{Blob, Epoch, Height, Key, Mem};
use dkg_text::{Ancestry, Event, Events, Indexes, MessageBytes};
use std::alloc::Global;

/// A table of lines: a name, what the fields of such a line spell, and what that makes. No other line makes anything.
macro_rules! by_name {
    ($alloc:ident, $name:ident, $fields:ident; $($word:literal: $row:ty => $make:expr,)*) => {
        $(
            if $name == $word.as_slice() {
                return Ok(whole::<$row>($alloc, $fields)?.map($make));
            }
        )*
    };
}

/// The event of a line, by its name and its fields.
#[tactic(auto, unfolding(crate::specs::Grammar::event_table))]
fn event_of(alloc: Global, name: &[u8], fields: Fields<'_>) -> Mem<Option<Event<'static>>>
    ensures { IfOk result (λ made. made ≡ event_by_name name.now fields.entry) }
{
    by_name! { alloc, name, fields;
        b"peer": (Key, Blob) => |(from, bytes)| Event::Peer { from, bytes: MessageBytes::new(bytes) },
        b"final": u32 => |block| Event::Final { block },
        b"next": (u64, Height) => |(request, height)| Event::Next { request, height },
        b"release": Height => |height| Event::Release { height },
        b"info": u64 => |request| Event::Info { request },
        b"feed": (u64, u32) => |(request, block)| Event::Feed { request, block },
        b"over": u64 => |request| Event::Over { request },
        b"cancel": u64 => |request| Event::Cancel { request },
        b"work": () => |()| Event::Work,
        b"prepare": Indexes => |numbers| Event::Prepare { ancestry: Ancestry::new(numbers) },
        b"propose": Indexes => |numbers| Event::Propose { ancestry: Ancestry::new(numbers) },
        b"verify": Indexes => |numbers| Event::Verify { ancestry: Ancestry::new(numbers) },
        b"later": (Key, Epoch) => |(from, epoch)| Event::Later { from, epoch },
        b"subscribe": () => |()| Event::Subscribe,
        b"unsubscribe": () => |()| Event::Unsubscribe,
        b"attach": () => |()| Event::Attach,
        b"reply": (Key, Blob) => |(from, bytes)| Event::Reply { from, bytes: MessageBytes::new(bytes) },
        b"retry": () => |()| Event::Retry,
    }
    Ok(None)
}

/// Whether all are numbers of blocks.
fn are_all_below(blocks: usize, numbers: &[u32]) -> bool
    ensures { IsTrue result ↔ All (λ n. n < blocks) numbers.now }
{
    numbers.iter().all(|n| (*n as usize) < blocks)
}

/// The same, by recursion.
pub(crate) fn are_blocks(blocks: usize, numbers: &[u32]) -> bool
    ensures { result ≡ are_blocks_of blocks numbers.now }
{
    are_all_below(blocks, numbers)
}

/// What the lines of a life's events are told: how many blocks there are, and whether there is a probe.
#[derive(Clone, Copy)]
pub(crate) struct Around {
    pub(crate) blocks: usize,
    pub(crate) probe: bool,
}

/// Whether an event may stand after others, which named these requests.
fn is_event(around: Around, asked: &Asked, event: &Event<'_>) -> bool
    ensures { (done : List AnEvent) → AreAsked done asked.now.numbers → result ≡ is_event_of around.blocks around.probe done event.now }
{
    match event {
        Event::Final { block } | Event::Feed { block, .. } => (*block as usize) < around.blocks,
        Event::Info { request } => !asked.has(*request),
        Event::Prepare { ancestry } | Event::Propose { ancestry } | Event::Verify { ancestry } =>
            are_blocks(around.blocks, ancestry.as_slice()),
        Event::Subscribe
        | Event::Unsubscribe
        | Event::Attach
        | Event::Reply { .. }
        | Event::Retry => around.probe,
        _ => true,
    }
}

/// Whether the line of this name ends a life's events: its cut or its stop.
fn is_end(name: &[u8]) -> bool
    ensures { result ≡ (bytes_eq name.now (codes "cut") || bytes_eq name.now (codes "stop")) }
{
    name == b"cut".as_slice() || name == b"stop".as_slice()
}

/// Reads the line of an event after others, which named these requests, up to the life's cut or its stop.
#[tactic(auto, unfolding(crate::specs::Grammar::event_line_at, crate::specs::Grammar::is_eventful, crate::specs::Lines::begins))]
fn read_event_after(
    alloc: Global,
    around: Around,
    asked: &Asked,
    lines: &mut Lines<'_>,
) -> Result<Option<Event<'static>>, Stop>
    ensures reads { (done : List AnEvent) → AreAsked done asked.now.numbers
        → ReadsIf is_eventful (event_line_at around.blocks around.probe done) lines.old.rest.now result lines.new.rest.now }
    ensures on { IfOk result (λ made. IfSome made (λ _. length lines.new.rest.now < length lines.old.rest.now)) }
{
    let Some(line) = lines.front() else {
        return Err(lines.stopped());
    };
    if is_end(line.name) {
        return Ok(None);
    }
    let behind = line.behind;
    let Some(event) = event_of(alloc, line.name, line.fields)? else {
        return Err(lines.stopped());
    };
    if is_event(around, asked, &event) {
        lines.pass(behind);
        Ok(Some(event))
    } else {
        Err(lines.stopped())
    }
}

/// Adds an event behind the others, and the request that it names to theirs.
fn keep(asked: &mut Asked, events: &mut Events, event: Event<'_>) -> Mem<()>
    ensures asked { OnOk result ((request : ℕ) → has_number asked.new.numbers request ≡ (asks request event.entry || has_number asked.old.numbers request)) }
    ensures events { OnOk result (events.new ≡ events.old ++ event.entry ∷ []) }
{
    asked.add(&event)?;
    events.push(&event)
}

/// The events of a life.
#[tactic(auto, unfolding(crate::specs::Grammar::event_lines_at))]
pub(crate) fn read_events(
    alloc: Global,
    around: Around,
    lines: &mut Lines<'_>,
) -> Result<Events, Stop>
    ensures reads { ReadsText (event_lines_at around.blocks around.probe lines.old.rest.now) result lines.new.rest.now }
    ensures on { OnOk result (length lines.new.rest.now ≤ length lines.old.rest.now) }
{
    let mut events = Events::new(alloc);
    let mut asked = Asked::new(alloc);
    'events: while let Some(event) = read_event_after(alloc, around, &asked, lines)? {
        keep(&mut asked, &mut events, event)?;
    }
    Ok(events)
}
