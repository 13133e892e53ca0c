//! The events of a life, of which a script may have millions: each takes three words, and what they say at length lies
//! one after another.
ghost use Rattle.std.specs.Prelude.{◌≡◌, ◌<◌, ◌++◌, ◌∷◌, [], IfOk, OnErr, OnOk, Some, length, slice_get};
ghost use Rattle.dkg_text.specs.Kept.{IsGrown, IsSpanWithin, LiesIn, event_in, span_in};

use crate::held::{Ancestry, MessageBytes};
use crate::script::Event;
use dkg_ceremony::{Epoch, Height, Key, Mem};
use std::alloc::Global;
use std::marker::Model;

/// Where items lie among all.
#[derive(Clone, Copy, Debug)]
pub(crate) struct Span {
    pub(crate) start: usize,
    pub(crate) end: usize,
}

/// An event, but for what it says at length.
#[derive(Clone, Copy, Debug)]
pub(crate) enum Slot {
    Peer { from: Key, bytes: Span },
    Final { block: u32 },
    Next { request: u64, height: Height },
    Release { height: Height },
    Info { request: u64 },
    Feed { request: u64, block: u32 },
    Over { request: u64 },
    Cancel { request: u64 },
    Work,
    Prepare { ancestry: Span },
    Propose { ancestry: Span },
    Verify { ancestry: Span },
    Later { from: Key, epoch: Epoch },
    Subscribe,
    Unsubscribe,
    Attach,
    Reply { from: Key, bytes: Span },
    Retry,
}

/// Events in order, which contracts see as a list.
#[derive(Debug, Drop)]
pub struct Events {
    slots: Vec<Slot>,
    /// The bytes of all messages, one after another.
    bytes: Vec<u8>,
    /// The numbers of all ancestries, one after another.
    numbers: Vec<u32>,
}

impl Model for Events {
    ghost use Rattle.std.specs.Prelude.{List, All, length, map};
    ghost use Rattle.dkg_text.specs.declared.script.Event.{Event};
    ghost use Rattle.dkg_text.specs.Kept.{LiesIn, event_in};

    ghost Value = { List Event };

    ghost view = { λ e. map (event_in e.bytes.items e.numbers.items) e.slots.items };

    ghost invariant = { λ e. All (LiesIn (length e.bytes.items) (length e.numbers.items)) e.slots.items };
}

/// Adds items behind the others, and says where they lie.
fn added<T: Copy>(all: &mut Vec<T>, items: &[T]) -> Mem<Span>
    ensures span { IfOk result (λ span. IsSpanWithin (length all.new.items) span × (span_in all.new.items span ≡ items.now)) }
    ensures grown { IsGrown all.old.items all.new.items }
{
    let start = all.len();
    all.extend_from_slice(items)?;
    Ok(Span {
        start,
        end: all.len(),
    })
}

/// The items of a span.
fn spanned<T>(all: &[T], span: Span) -> &[T]
    requires { IsSpanWithin (length all.now) span }
    ensures { result.now ≡ span_in all.now span }
{
    &all[span.start..span.end]
}

/// The slot of an event, whose bytes or numbers are added to all.
fn kept(bytes: &mut Vec<u8>, numbers: &mut Vec<u32>, event: &Event<'_>) -> Mem<Slot>
    ensures within { IfOk result (LiesIn (length bytes.new.items) (length numbers.new.items)) }
    ensures value { IfOk result (λ slot. event_in bytes.new.items numbers.new.items slot ≡ event.now) }
    ensures bytes { IsGrown bytes.old.items bytes.new.items }
    ensures numbers { IsGrown numbers.old.items numbers.new.items }
{
    let slot = match event {
        Event::Peer { from, bytes: said } => Slot::Peer {
            from: *from,
            bytes: added(bytes, said.as_slice())?,
        },
        Event::Final { block } => Slot::Final { block: *block },
        Event::Next { request, height } => Slot::Next {
            request: *request,
            height: *height,
        },
        Event::Release { height } => Slot::Release { height: *height },
        Event::Info { request } => Slot::Info { request: *request },
        Event::Feed { request, block } => Slot::Feed {
            request: *request,
            block: *block,
        },
        Event::Over { request } => Slot::Over { request: *request },
        Event::Cancel { request } => Slot::Cancel { request: *request },
        Event::Work => Slot::Work,
        Event::Prepare { ancestry } => Slot::Prepare {
            ancestry: added(numbers, ancestry.as_slice())?,
        },
        Event::Propose { ancestry } => Slot::Propose {
            ancestry: added(numbers, ancestry.as_slice())?,
        },
        Event::Verify { ancestry } => Slot::Verify {
            ancestry: added(numbers, ancestry.as_slice())?,
        },
        Event::Later { from, epoch } => Slot::Later {
            from: *from,
            epoch: *epoch,
        },
        Event::Subscribe => Slot::Subscribe,
        Event::Unsubscribe => Slot::Unsubscribe,
        Event::Attach => Slot::Attach,
        Event::Reply { from, bytes: said } => Slot::Reply {
            from: *from,
            bytes: added(bytes, said.as_slice())?,
        },
        Event::Retry => Slot::Retry,
    };
    Ok(slot)
}

fn message(bytes: &[u8], span: Span) -> MessageBytes<'_>
    requires { IsSpanWithin (length bytes.now) span }
    ensures { result ≡ span_in bytes.now span }
{
    MessageBytes::lent(spanned(bytes, span))
}

fn ancestry(numbers: &[u32], span: Span) -> Ancestry<'_>
    requires { IsSpanWithin (length numbers.now) span }
    ensures { result ≡ span_in numbers.now span }
{
    Ancestry::lent(spanned(numbers, span))
}

/// The event of a slot.
fn lent<'a>(bytes: &'a [u8], numbers: &'a [u32], slot: Slot) -> Event<'a>
    requires { LiesIn (length bytes.now) (length numbers.now) slot }
    ensures { result ≡ event_in bytes.now numbers.now slot }
{
    match slot {
        Slot::Peer { from, bytes: span } => Event::Peer {
            from,
            bytes: message(bytes, span),
        },
        Slot::Final { block } => Event::Final { block },
        Slot::Next { request, height } => Event::Next { request, height },
        Slot::Release { height } => Event::Release { height },
        Slot::Info { request } => Event::Info { request },
        Slot::Feed { request, block } => Event::Feed { request, block },
        Slot::Over { request } => Event::Over { request },
        Slot::Cancel { request } => Event::Cancel { request },
        Slot::Work => Event::Work,
        Slot::Prepare { ancestry: span } => Event::Prepare {
            ancestry: ancestry(numbers, span),
        },
        Slot::Propose { ancestry: span } => Event::Propose {
            ancestry: ancestry(numbers, span),
        },
        Slot::Verify { ancestry: span } => Event::Verify {
            ancestry: ancestry(numbers, span),
        },
        Slot::Later { from, epoch } => Event::Later { from, epoch },
        Slot::Subscribe => Event::Subscribe,
        Slot::Unsubscribe => Event::Unsubscribe,
        Slot::Attach => Event::Attach,
        Slot::Reply { from, bytes: span } => Event::Reply {
            from,
            bytes: message(bytes, span),
        },
        Slot::Retry => Event::Retry,
    }
}

impl Events {
    /// No events.
    pub fn new(alloc: Global) -> Events
        ensures { result ≡ [] }
    {
        Events {
            slots: Vec::new(alloc),
            bytes: Vec::new(alloc),
            numbers: Vec::new(alloc),
        }
    }

    /// How many there are.
    pub fn len(&self) -> usize
        ensures { result ≡ length self.now }
    {
        self.slots.len()
    }

    /// The event at an index, which it lends.
    pub fn at(&self, index: usize) -> Event<'_>
        requires { index < length self.now }
        ensures { slice_get self.now index ≡ Some result }
    {
        lent(&self.bytes, &self.numbers, self.slots[index])
    }

    /// Adds an event behind the others. Where memory runs out, they stay.
    pub fn push(&mut self, event: &Event<'_>) -> Mem<()>
        ensures added { OnOk result (self.new ≡ self.old ++ event.now ∷ []) }
        ensures same { OnErr result (self.new ≡ self.old) }
    {
        let slot = kept(&mut self.bytes, &mut self.numbers, event)?;
        self.slots.push(slot)?;
        Ok(())
    }
}
