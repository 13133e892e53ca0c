//! How peers are reached: nothing for a network that finds them by key, or their addresses.
ghost use Rattle.std.specs.Prelude.{◌≡◌, ℕ, ◌≤◌, ◌^◌, Bool, List, true, IsErrOf};
ghost use Rattle.dkg_values.specs.Codec.{Reads};
ghost use Rattle.dkg_infos.specs.Units.{unit_at as unit_from};

use bytes::BytesMut;
use dkg_ceremony::{CodecError, EncodeSize, Mem, Read, Reader, Set, Spelled, Value, Write};
use std::alloc::Global;

/// What an info says of how its peers are reached, as the upstream's `network` module has it.
pub trait Directory: Value + Write + EncodeSize + Read {
    ghost use Rattle.std.specs.Prelude.{◌≡◌, ℕ, ◌≤◌, ◌^◌, Bool, List, length, true};

    /// How a directory of these peers is read.
    ghost config_of: { List ℕ → Self.Cfg };

    /// A bound of the spelling of a directory of so many peers.
    ghost bound_of: { ℕ → ℕ };

    /// Whether a directory is one of exactly these peers.
    ghost matches_of: { Self → List ℕ → Bool };

    fn codec_config(peers: &Set) -> Self::Cfg
        ensures { result ≡ config_of peers.now };

    /// A bound, in bytes, of the encoding of a directory of so many peers.
    fn max_encode_size(peers: usize) -> usize
        requires { peers ≤ 2 ^ 34 }
        ensures bound { result ≡ bound_of peers }
        ensures small { result ≤ 2 ^ 61 };

    /// Whether this is a directory of exactly these peers.
    fn matches(&self, peers: &Set) -> bool
        ensures { result ≡ matches_of self.now peers.now };

    /// A directory of just some peers can be read again as one of them.
    fn fits_peers(&self)
        ensures { (peers : List ℕ) → matches_of self.now peers ≡ true → Self.fits (config_of peers) self.now };

    /// How many bytes its encoding takes: what `encode_size` gives, known to be at most 2^61.
    fn size(&self) -> usize
        ensures size { result ≡ length (Self.spelling self.now) }
        ensures small { result ≤ 2 ^ 61 };

    /// No directory of so many peers is spelled longer.
    ghost within: { (peers : List ℕ) (d : Self) → Self.fits (config_of peers) d → length (Self.spelling d) ≤ bound_of (length peers) };

    /// More peers have no lower bound.
    ghost rising: { (few many : ℕ) → few ≤ many → bound_of few ≤ bound_of many };
}

/// The directory of a network that reaches peers by their keys alone.
#[derive(Clone, Copy, Debug, PartialEq, Eq)]
pub struct Unit;

impl Value for Unit {
    fn copy(&self, _alloc: Global) -> Mem<Unit> {
        Ok(Unit)
    }

    fn same(&self, other: &Unit) -> bool {
        *self == *other
    }
}

impl Spelled for Unit {
    ghost use Rattle.dkg_infos.specs.Units.{unit_spelling};

    ghost spelling = { unit_spelling };
}

impl EncodeSize for Unit {
    fn encode_size(&self) -> usize {
        0
    }
}

impl Write for Unit {
    fn put(&self, _out: &mut BytesMut) -> Mem<()> {
        Ok(())
    }
}

impl Read for Unit {
    type Cfg = ();

    ghost use Rattle.std.specs.Prelude.{⊤};
    ghost use Rattle.dkg_infos.specs.Units.{unit_at, unit_grammar};

    ghost fits = { λ _ _. ⊤ };

    ghost read_of = { λ _. unit_at };

    ghost grammar = { λ _. unit_grammar };

    fn read_cfg(_alloc: Global, input: &mut Reader<'_>, _cfg: &()) -> Result<Unit, CodecError>
        ensures exact { Reads (unit_from input.old) result input.new }
        ensures sure { IsErrOf result CodecError.NoMemory → ⊥ }
    {
        let _left = input.left();
        Ok(Unit)
    }
}

impl Directory for Unit {
    ghost use Rattle.std.specs.Prelude.{true};
    ghost use Rattle.dkg_infos.specs.Units.{unit_rising, unit_within};

    ghost config_of = { λ _. tt };

    ghost bound_of = { λ _. 0 };

    ghost matches_of = { λ _ _. true };

    fn codec_config(_peers: &Set) {}

    fn max_encode_size(_peers: usize) -> usize {
        0
    }

    fn matches(&self, _peers: &Set) -> bool {
        true
    }

    fn fits_peers(&self) {}

    fn size(&self) -> usize {
        0
    }

    ghost within = { unit_within };

    ghost rising = { unit_rising };
}
