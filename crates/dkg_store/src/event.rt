//! The events that a store keeps in its journal, in bytes.
//!
//! A kind stands in front, behind it what that kind has. The epoch of an event is the section of its record.
ghost use Rattle.std.specs.Prelude.{◌≡◌, ◌+◌, ◌*◌, ◌≤◌, ◌^◌, ◌++◌, ℕ, length, IfOk, OnOk, OnErr, Option, Some};
ghost use Rattle.dkg_values.specs.Codec.{Decodes, StandsInFront, whole};
ghost use Rattle.dkg_store.specs.Events.{IsEvent, event_at, event_spelling};
ghost use Rattle.dkg_store.specs.declared.event.Event.TheVariants as events;

use bytes::{BufMut, BytesMut};
use dkg_ceremony::{Ack, DealerLog, Public};
use dkg_values::{
    CodecError, EncodeSize, Height, Key, Mem, Read, Reader, Spelled, Write, decode_cfg, read_byte,
};
use std::alloc::Global;

const DEALING: u8 = 0;

const ACK: u8 = 1;

const LOG: u8 = 2;

const LOG_AT: u8 = 3;

/// What is recorded of an epoch, as the upstream's reshare store does.
#[derive(Drop)]
pub enum Event {
    /// The public half of a dealing, behind its dealer. The private half lies in the secret store.
    Dealing(Key, Public),
    /// An acknowledgement of this node's dealing, behind its player.
    Ack(Key, Ack),
    /// A dealer's log, behind the dealer, as it was recorded before heights were: it is read, and not written any more.
    Log(Key, DealerLog),
    /// A dealer's log, behind the dealer and the height of the block that carried it.
    LogAt(Key, Height, DealerLog),
}

fn put_dealing(out: &mut BytesMut, dealer: Key, public: &Public) -> Mem<()>
    ensures ok { OnOk result (out.new.items ≡ out.old.items ++ event_spelling (events.Dealing dealer public.now)) }
    ensures err { OnErr result (StandsInFront out.old.items out.new.items) }
{
    out.put_u8(DEALING)?;
    dealer.put(out)?;
    public.put(out)
}

fn put_ack(out: &mut BytesMut, player: Key, ack: &Ack) -> Mem<()>
    ensures ok { OnOk result (out.new.items ≡ out.old.items ++ event_spelling (events.Ack player ack.now)) }
    ensures err { OnErr result (StandsInFront out.old.items out.new.items) }
{
    out.put_u8(ACK)?;
    player.put(out)?;
    ack.put(out)
}

fn put_log(out: &mut BytesMut, dealer: Key, log: &DealerLog) -> Mem<()>
    ensures ok { OnOk result (out.new.items ≡ out.old.items ++ event_spelling (events.Log dealer log.now)) }
    ensures err { OnErr result (StandsInFront out.old.items out.new.items) }
{
    out.put_u8(LOG)?;
    dealer.put(out)?;
    log.put(out)
}

fn put_log_at(out: &mut BytesMut, dealer: Key, height: Height, log: &DealerLog) -> Mem<()>
    ensures ok { OnOk result (out.new.items ≡ out.old.items ++ event_spelling (events.LogAt dealer height log.now)) }
    ensures err { OnErr result (StandsInFront out.old.items out.new.items) }
{
    out.put_u8(LOG_AT)?;
    dealer.put(out)?;
    height.put(out)?;
    log.put(out)
}

/// The bytes of a dealing's event.
pub(crate) fn dealing_body(alloc: Global, dealer: Key, public: &Public) -> Mem<Vec<u8>>
    ensures { IfOk result (λ body. body.items ≡ event_spelling (events.Dealing dealer public.now)) }
{
    let mut body = BytesMut::with_capacity(alloc, 5 + public.encode_size())?;
    put_dealing(&mut body, dealer, public)?;
    Ok(body.into_vec()?)
}

/// The bytes of an acknowledgement's event.
pub(crate) fn ack_body(alloc: Global, player: Key, ack: &Ack) -> Mem<Vec<u8>>
    ensures { IfOk result (λ body. body.items ≡ event_spelling (events.Ack player ack.now)) }
{
    let mut body = BytesMut::with_capacity(alloc, 5 + size_of_ack(ack))?;
    put_ack(&mut body, player, ack)?;
    Ok(body.into_vec()?)
}

/// The bytes of the event of a log at a height.
pub(crate) fn log_body(alloc: Global, dealer: Key, height: Height, log: &DealerLog) -> Mem<Vec<u8>>
    ensures { IfOk result (λ body. body.items ≡ event_spelling (events.LogAt dealer height log.now)) }
{
    let mut body = BytesMut::new(alloc);
    put_log_at(&mut body, dealer, height, log)?;
    Ok(body.into_vec()?)
}

/// How many bytes an acknowledgement takes.
fn size_of_ack(ack: &Ack) -> usize
    ensures size { result ≡ length ack.now }
    ensures bound { result ≡ 8 }
{
    let mark = &ack.0;
    let bytes = &mark.0;
    bytes.len()
}

/// A dealing is one that an event can hold.
pub(crate) fn dealing_fits(dealer: Key, public: &Public)
    ensures { IsEvent (events.Dealing dealer public.now) }
{
    let _number = dealer.number();
    let _elements = public.as_slice();
    public.fits_limits();
}

/// An acknowledgement is one that an event can hold.
pub(crate) fn ack_fits(player: Key, ack: &Ack)
    ensures { IsEvent (events.Ack player ack.now) }
{
    let _number = player.number();
    let _size = size_of_ack(ack);
}

/// A height in plain numbers.
fn number_of(height: Height) -> u64
    ensures { result ≡ height }
{
    height.0
}

/// A log at a height is one that an event can hold.
pub(crate) fn log_fits(dealer: Key, height: Height, log: &DealerLog)
    ensures { IsEvent (events.LogAt dealer height log.now) }
{
    let _number = dealer.number();
    let _height = number_of(height);
    let _elements = log.public.as_slice();
    let _entries = log.entries.as_slice();
    log.fits_limits();
}

impl Spelled for Event {
    ghost use Rattle.dkg_store.specs.Events.{event_spelling};

    ghost spelling = { event_spelling };
}

impl EncodeSize for Event {
    fn encode_size(&self) -> usize {
        match self {
            Event::Dealing(dealer, public) => 1 + dealer.encode_size() + public.encode_size(),
            Event::Ack(player, ack) => 1 + player.encode_size() + size_of_ack(ack),
            Event::Log(dealer, log) => 1 + dealer.encode_size() + log.encode_size(),
            Event::LogAt(dealer, height, log) => {
                1 + dealer.encode_size() + height.encode_size() + log.encode_size()
            }
        }
    }
}

impl Write for Event {
    fn put(&self, out: &mut BytesMut) -> Mem<()> {
        match self {
            Event::Dealing(dealer, public) => put_dealing(out, *dealer, public),
            Event::Ack(player, ack) => put_ack(out, *player, ack),
            Event::Log(dealer, log) => put_log(out, *dealer, log),
            Event::LogAt(dealer, height, log) => put_log_at(out, *dealer, *height, log),
        }
    }
}

impl Read for Event {
    /// How many coefficients and how many entries there may be.
    type Cfg = u32;

    ghost use Rattle.dkg_store.specs.Events.{EventFits, event_at, event_grammar};

    ghost fits = { EventFits };

    ghost read_of = { event_at };

    ghost grammar = { event_grammar };

    #[tactic(auto, unfolding(crate::specs::Events::event_after))]
    fn read_cfg(alloc: Global, input: &mut Reader<'_>, cfg: &u32) -> Result<Event, CodecError> {
        match read_byte(input)? {
            DEALING => {
                let dealer = Key::read_cfg(alloc, input, &())?;
                Ok(Event::Dealing(dealer, Public::read_cfg(alloc, input, cfg)?))
            }
            ACK => {
                let player = Key::read_cfg(alloc, input, &())?;
                Ok(Event::Ack(player, Ack::read_cfg(alloc, input, &())?))
            }
            LOG => {
                let dealer = Key::read_cfg(alloc, input, &())?;
                Ok(Event::Log(dealer, DealerLog::read_cfg(alloc, input, cfg)?))
            }
            LOG_AT => {
                let dealer = Key::read_cfg(alloc, input, &())?;
                let height = Height::read_cfg(alloc, input, &())?;
                Ok(Event::LogAt(dealer, height, DealerLog::read_cfg(alloc, input, cfg)?))
            }
            other => Err(CodecError::InvalidEnum(other)),
        }
    }
}

/// The event that is all of the bytes, within the limit.
pub(crate) fn read_event(alloc: Global, body: &[u8], limit: u32) -> Result<Event, CodecError>
    ensures { Decodes (whole (event_at limit body.now)) result }
{
    decode_cfg(alloc, body, &limit)
}
