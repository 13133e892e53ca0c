//! What participants send each other on the ceremony's channel.
ghost use Rattle.std.specs.Prelude.{◌≡◌, ℕ, ◌+◌, ◌*◌, ◌^◌, ◌<◌, ◌≤◌, length};
ghost use Rattle.std.specs.Int.NonZero.{non_zero_u32_get};
ghost use Rattle.dkg_values.specs.Joined.{BothFit, both_spelled};
ghost use Rattle.dkg_values.specs.Uint.{uint};
ghost use Rattle.dkg_infos.specs.InfoBounds.{IsBound};
ghost use Rattle.dkg_types.specs.MessageCodes.{MessageFits, message_spelling};
ghost use Rattle.dkg_types.specs.Within.{MessageWithin};

use bytes::{BufMut, BytesMut};
use dkg_ceremony::{
    Ack, CodecError, EncodeSize, Mem, Private, Public, Read, Reader, Spelled, Value, Write,
    read_byte,
};
use std::alloc::Global;
use std::num::NonZeroU32;

/// A message of the ceremony's channel, as the upstream's `types` module has it.
#[derive(Drop)]
pub enum Message {
    /// A dealing: the public half, and the private half of the player that it is sent to.
    Dealer(Public, Private),
    /// An acknowledgement of a dealing, sent to its dealer.
    Ack(Ack),
}

impl Message {
    /// A bound, in bytes, of the encoding of a message among at most `max` participants.
    pub fn max_encode_size(max: NonZeroU32) -> usize
        ensures bound { result ≡ 8 + 2 * non_zero_u32_get max }
        ensures enough { IsBound (MessageFits (non_zero_u32_get max)) message_spelling result }
    {
        8 + 2 * max.get() as usize
    }
}

/// A bound, in bytes, of what is sent on the ceremony's channel: the epoch and a message.
pub fn max_payload_size(max: NonZeroU32) -> usize
    ensures bound { result ≡ 18 + 2 * non_zero_u32_get max }
    ensures enough { IsBound (BothFit (λ n. n < 2 ^ 64) (MessageFits (non_zero_u32_get max))) (both_spelled uint message_spelling) result }
{
    10 + Message::max_encode_size(max)
}

impl Value for Message {
    fn copy(&self, alloc: Global) -> Mem<Message> {
        match self {
            Message::Dealer(public, private) => {
                Ok(Message::Dealer(public.copy(alloc)?, *private))
            }
            Message::Ack(ack) => Ok(Message::Ack(*ack)),
        }
    }

    fn same(&self, other: &Message) -> bool {
        match (self, other) {
            (Message::Dealer(public, private), Message::Dealer(their_public, their_private)) => {
                public.same(their_public) && *private == *their_private
            }
            (Message::Ack(one), Message::Ack(two)) => *one == *two,
            _ => false,
        }
    }
}

/// How many bytes an acknowledgement takes.
fn size_of_ack(ack: &Ack) -> usize
    ensures size { result ≡ length ack.now }
    ensures bound { result ≡ 8 }
{
    let mark = &ack.0;
    let bytes = &mark.0;
    bytes.len()
}

impl Message {
    /// A message may be read under each limit that is no less than the length of its public half.
    pub fn fits_limits(&self)
        ensures { (most : ℕ) → MessageWithin most self.now → MessageFits most self.now }
    {
        match self {
            Message::Dealer(public, private) => {
                public.fits_limits();
                let _number = private.0.get();
            }
            Message::Ack(ack) => {
                let _size = size_of_ack(ack);
            }
        }
    }
}

impl Spelled for Message {
    ghost use Rattle.dkg_types.specs.MessageCodes.{message_spelling};

    ghost spelling = { message_spelling };
}

impl EncodeSize for Message {
    fn encode_size(&self) -> usize
        ensures size { result ≡ length (message_spelling self.now) }
        ensures limit { (most : ℕ) → 1 ≤ most → MessageWithin most self.now → result ≤ 8 + 2 * most }
    {
        match self {
            Message::Dealer(public, private) => 1 + public.encode_size() + private.encode_size(),
            Message::Ack(ack) => 1 + size_of_ack(ack),
        }
    }
}

impl Write for Message {
    fn put(&self, out: &mut BytesMut) -> Mem<()> {
        match self {
            Message::Dealer(public, private) => {
                out.put_u8(0)?;
                public.put(out)?;
                private.put(out)
            }
            Message::Ack(ack) => {
                out.put_u8(1)?;
                ack.put(out)
            }
        }
    }
}

impl Read for Message {
    /// How many coefficients a public half may have.
    type Cfg = u32;

    ghost use Rattle.dkg_types.specs.MessageCodes.{MessageFits, message_at, message_grammar};

    ghost fits = { MessageFits };

    ghost read_of = { message_at };

    ghost grammar = { message_grammar };

    #[tactic(auto, unfolding(crate::specs::MessageCodes::message_after))]
    fn read_cfg(alloc: Global, input: &mut Reader<'_>, cfg: &u32) -> Result<Message, CodecError> {
        match read_byte(input)? {
            0 => {
                let public = Public::read_cfg(alloc, input, cfg)?;
                let private = Private::read_cfg(alloc, input, &())?;
                Ok(Message::Dealer(public, private))
            }
            1 => {
                let ack = Ack::read_cfg(alloc, input, &())?;
                Ok(Message::Ack(ack))
            }
            other => Err(CodecError::InvalidEnum(other)),
        }
    }
}
