//! What one player alone is given of a dealing, and what it answers: private halves, shares and acknowledgements.
//!
//! Contracts see a private half and a share as the number, an acknowledgement as its list of bytes.
ghost use Rattle.std.specs.Prelude.{◌≡◌, length, IsErrOf};
ghost use Rattle.std.specs.Int.{w16, to_be_bytes};
ghost use Rattle.dkg_values.specs.Codec.{Reads};
ghost use Rattle.dkg_values.specs.Bytes.{bytes_at};
ghost use Rattle.dkg_values.specs.Lists.{element_at};

use bytes::BytesMut;
use dkg_values::{CodecError, Element, EncodeSize, Mark, Mem, Read, Reader, Spelled, Value, Write};
use std::alloc::Global;
use std::marker::Model;

/// The private half of a dealing: the dealer's polynomial at one player's point.
#[derive(Clone, Copy, Debug, PartialEq, Eq)]
pub struct Private(pub Element);

impl Model for Private {
    ghost use Rattle.std.specs.Prelude.{ℕ};

    ghost Value = { ℕ };

    ghost view = { λ p. p.0 };

    ghost inverse = { λ n. record { 0 = n } };
}

/// One player's share of the key: the outcome's polynomial at the player's point.
#[derive(Clone, Copy, Debug, PartialEq, Eq)]
pub struct Share(pub Element);

impl Model for Share {
    ghost use Rattle.std.specs.Prelude.{ℕ};

    ghost Value = { ℕ };

    ghost view = { λ s. s.0 };

    ghost inverse = { λ n. record { 0 = n } };
}

/// A player's acknowledgement of a dealing: its mark on the round, the dealer and the public half.
#[derive(Clone, Copy, Debug, PartialEq, Eq)]
pub struct Ack(pub Mark);

impl Model for Ack {
    ghost use Rattle.std.specs.Prelude.{List, ℕ};

    ghost Value = { List ℕ };

    ghost view = { λ a. a.0 };

    ghost inverse = { λ bytes. record { 0 = bytes } };
}

impl Value for Private {
    fn copy(&self, _alloc: Global) -> Mem<Private> {
        Ok(*self)
    }

    fn same(&self, other: &Private) -> bool {
        *self == *other
    }
}

impl Value for Share {
    fn copy(&self, _alloc: Global) -> Mem<Share> {
        Ok(*self)
    }

    fn same(&self, other: &Share) -> bool {
        *self == *other
    }
}

impl Value for Ack {
    fn copy(&self, _alloc: Global) -> Mem<Ack> {
        Ok(*self)
    }

    fn same(&self, other: &Ack) -> bool {
        *self == *other
    }
}

impl Spelled for Private {
    ghost use Rattle.std.specs.Int.{w16, to_be_bytes};

    ghost spelling = { to_be_bytes w16 };
}

impl EncodeSize for Private {
    fn encode_size(&self) -> usize
        ensures size { result ≡ length (to_be_bytes w16 self.now) }
        ensures bound { result ≡ 2 }
    {
        self.0.encode_size()
    }
}

impl Write for Private {
    fn put(&self, out: &mut BytesMut) -> Mem<()> {
        self.0.put(out)
    }
}

impl Read for Private {
    type Cfg = ();

    ghost use Rattle.std.specs.Prelude.{◌<◌};
    ghost use Rattle.dkg_values.specs.Lists.{element_at};
    ghost use Rattle.dkg_values.specs.ListGrammar.{element_grammar};

    ghost fits = { λ _ n. n < 65521 };

    ghost read_of = { λ _. element_at };

    ghost grammar = { λ _. element_grammar };

    fn read_cfg(alloc: Global, input: &mut Reader<'_>, cfg: &()) -> Result<Private, CodecError>
        ensures exact { Reads (element_at input.old) result input.new }
        ensures sure { IsErrOf result CodecError.NoMemory → ⊥ }
    {
        Ok(Private(Element::read_cfg(alloc, input, cfg)?))
    }
}

impl Spelled for Share {
    ghost use Rattle.std.specs.Int.{w16, to_be_bytes};

    ghost spelling = { to_be_bytes w16 };
}

impl EncodeSize for Share {
    fn encode_size(&self) -> usize
        ensures size { result ≡ length (to_be_bytes w16 self.now) }
        ensures bound { result ≡ 2 }
    {
        self.0.encode_size()
    }
}

impl Write for Share {
    fn put(&self, out: &mut BytesMut) -> Mem<()> {
        self.0.put(out)
    }
}

impl Read for Share {
    type Cfg = ();

    ghost use Rattle.std.specs.Prelude.{◌<◌};
    ghost use Rattle.dkg_values.specs.Lists.{element_at};
    ghost use Rattle.dkg_values.specs.ListGrammar.{element_grammar};

    ghost fits = { λ _ n. n < 65521 };

    ghost read_of = { λ _. element_at };

    ghost grammar = { λ _. element_grammar };

    fn read_cfg(alloc: Global, input: &mut Reader<'_>, cfg: &()) -> Result<Share, CodecError>
        ensures exact { Reads (element_at input.old) result input.new }
        ensures sure { IsErrOf result CodecError.NoMemory → ⊥ }
    {
        Ok(Share(Element::read_cfg(alloc, input, cfg)?))
    }
}

impl Spelled for Ack {
    ghost spelling = { λ bytes. bytes };
}

impl EncodeSize for Ack {
    fn encode_size(&self) -> usize
        ensures size { result ≡ length self.now }
        ensures bound { result ≡ 8 }
    {
        self.0.encode_size()
    }
}

impl Write for Ack {
    fn put(&self, out: &mut BytesMut) -> Mem<()> {
        self.0.put(out)
    }
}

impl Read for Ack {
    type Cfg = ();

    ghost use Rattle.std.specs.Prelude.{◌≡◌, length};
    ghost use Rattle.dkg_values.specs.Bytes.{bytes_at, bytes_grammar};

    ghost fits = { λ _ bytes. length bytes ≡ 8 };

    ghost read_of = { λ _. bytes_at 8 };

    ghost grammar = { λ _. bytes_grammar 8 };

    fn read_cfg(alloc: Global, input: &mut Reader<'_>, cfg: &()) -> Result<Ack, CodecError>
        ensures exact { Reads (bytes_at 8 input.old) result input.new }
        ensures sure { IsErrOf result CodecError.NoMemory → ⊥ }
    {
        Ok(Ack(Mark::read_cfg(alloc, input, cfg)?))
    }
}
