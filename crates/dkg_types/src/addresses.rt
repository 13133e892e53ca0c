//! The directory of a network that dials: where each peer is reached.
//!
//! An info carries one, and a manager hands the addresses of the tracked peers on.
ghost use Rattle.std.specs.Prelude.{◌≡◌, ◌^◌, ◌<◌, ◌≤◌, ◌++◌, ◌+◌, ◌*◌, ℕ, length, vec_len, IfOk, IsErrOf, OnOk, OnErr};
ghost use Rattle.std.specs.List.{AllByRecursion};
ghost use Rattle.std.specs.Option.{option_copied};
ghost use Rattle.dkg_values.specs.Codec.{Reads, StandsInFront};
ghost use Rattle.dkg_values.specs.Rising.{keys_of, lookup, map_of};
ghost use Rattle.dkg_values.specs.Lists.{values_of};
ghost use Rattle.dkg_types.specs.AddressCodes.{AddressFits, AddressesFit, SocketFits, address_at, addresses_spelling, address_socket_at, socket_at, two_spelled};

use bytes::{BufMut, BytesMut};
use dkg_ceremony::{
    CodecError, EncodeSize, Key, Map, MapCfg, Mem, Read, Reader, Set, Spelled, Value, Write,
    read_be16, read_be32, read_byte,
};
use dkg_infos::Directory;
use std::alloc::Global;
use std::marker::Model;

/// An IPv4 address and a port.
#[derive(Clone, Copy, Debug, PartialEq, Eq)]
pub struct Socket {
    pub ip: u32,
    pub port: u16,
}

/// Where a peer is reached.
#[derive(Clone, Copy, Debug, PartialEq, Eq)]
pub enum Address {
    /// It is dialed where it dials from.
    Symmetric(Socket),
    /// It is dialed at one socket and dials from another.
    Asymmetric { ingress: Socket, egress: Socket },
}

impl Socket {
    /// A socket may be read whatever the limits.
    pub fn fits_limits(&self)
        ensures { SocketFits self.now }
    {
        let _ip = self.ip;
        let _port = self.port;
    }
}

impl Spelled for Socket {
    ghost use Rattle.dkg_types.specs.AddressCodes.{socket_spelling};

    ghost spelling = { socket_spelling };
}

impl EncodeSize for Socket {
    fn encode_size(&self) -> usize {
        6
    }
}

impl Write for Socket {
    fn put(&self, out: &mut BytesMut) -> Mem<()> {
        out.put_u32(self.ip)?;
        out.put_u16(self.port)?;
        Ok(())
    }
}

impl Read for Socket {
    type Cfg = ();

    ghost use Rattle.dkg_types.specs.AddressCodes.{SocketFits, socket_at, socket_grammar};

    ghost fits = { λ _. SocketFits };

    ghost read_of = { λ _. socket_at };

    ghost grammar = { λ _. socket_grammar };

    fn read_cfg(_alloc: Global, input: &mut Reader<'_>, _cfg: &()) -> Result<Socket, CodecError>
        ensures exact { Reads (socket_at input.old) result input.new }
        ensures sure { IsErrOf result CodecError.NoMemory → ⊥ }
    {
        let ip = read_be32(input)?;
        let port = read_be16(input)?;
        Ok(Socket { ip, port })
    }
}

impl Address {
    /// An address may be read whatever the limits.
    pub fn fits_limits(&self)
        ensures { AddressFits self.now }
    {
        match self {
            Address::Symmetric(socket) => socket.fits_limits(),
            Address::Asymmetric { ingress, egress } => {
                ingress.fits_limits();
                egress.fits_limits();
            }
        }
    }
}

impl Value for Address {
    fn copy(&self, _alloc: Global) -> Mem<Address> {
        Ok(*self)
    }

    fn same(&self, other: &Address) -> bool {
        *self == *other
    }
}

impl Spelled for Address {
    ghost use Rattle.dkg_types.specs.AddressCodes.{address_spelling};

    ghost spelling = { address_spelling };
}

impl EncodeSize for Address {
    ghost use Rattle.dkg_types.specs.Variants.{Always};

    ghost can_size = { Always };

    fn encode_size(&self) -> usize {
        match self {
            Address::Symmetric(_) => 7,
            Address::Asymmetric { .. } => 13,
        }
    }
}

fn put_ends(ingress: &Socket, egress: &Socket, out: &mut BytesMut) -> Mem<()>
    ensures ok { OnOk result (out.new.items ≡ out.old.items ++ two_spelled (ingress.now, egress.now)) }
    ensures err { OnErr result (StandsInFront out.old.items out.new.items) }
{
    ingress.put(out)?;
    egress.put(out)
}

impl Write for Address {
    fn put(&self, out: &mut BytesMut) -> Mem<()> {
        match self {
            Address::Symmetric(socket) => {
                out.put_u8(0)?;
                socket.put(out)
            }
            Address::Asymmetric { ingress, egress } => {
                out.put_u8(1)?;
                put_ends(ingress, egress, out)
            }
        }
    }
}

#[tactic(auto, unfolding(crate::specs::AddressCodes::address_socket_at))]
fn read_end(alloc: Global, input: &mut Reader<'_>) -> Result<Socket, CodecError>
    ensures exact { Reads (address_socket_at input.old) result input.new }
    ensures sure { IsErrOf result CodecError.NoMemory → ⊥ }
{
    Socket::read_cfg(alloc, input, &())
}

impl Read for Address {
    type Cfg = ();

    ghost use Rattle.dkg_types.specs.AddressCodes.{AddressFits, address_at, address_grammar};

    ghost fits = { λ _. AddressFits };

    ghost read_of = { λ _. address_at };

    ghost grammar = { λ _. address_grammar };

    #[tactic(auto, unfolding(crate::specs::AddressCodes::address_after))]
    fn read_cfg(alloc: Global, input: &mut Reader<'_>, _cfg: &()) -> Result<Address, CodecError>
        ensures exact { Reads (address_at input.old) result input.new }
        ensures sure { IsErrOf result CodecError.NoMemory → ⊥ }
    {
        match read_byte(input)? {
            0 => {
                let socket = read_end(alloc, input)?;
                Ok(Address::Symmetric(socket))
            }
            1 => {
                let ingress = read_end(alloc, input)?;
                let egress = read_end(alloc, input)?;
                Ok(Address::Asymmetric { ingress, egress })
            }
            other => Err(CodecError::InvalidEnum(other)),
        }
    }
}

/// The address of each peer, as the upstream's `network` module has it; contracts see the list of the pairs.
#[derive(Drop)]
pub struct Addresses {
    addresses: Map<Address>,
}

impl Model for Addresses {
    ghost use Rattle.std.specs.Prelude.{List, ℕ};
    ghost use Rattle.dkg_types.specs.declared.addresses.Address.{Address};

    ghost Value = { List (ℕ × Address) };

    ghost view = { λ a. a.addresses };
}

/// Each address keeps all that its spelling asks: to know it, each is read.
#[tactic(auto, using(crate::specs::Within::more_fit, crate::specs::Within::all_fit))]
fn all_known(pairs: &[(Key, Address)])
    ensures { AllByRecursion AddressFits (values_of pairs.now) }
{
    for pair in pairs {
        pair.1.fits_limits();
    }
}

impl Addresses {
    /// The directory of a map from peers to addresses.
    pub fn from_map(map: Map<Address>) -> Addresses
        ensures { result ≡ map }
    {
        Addresses { addresses: map }
    }

    /// The first address of each peer.
    pub fn from_pairs(alloc: Global, pairs: Vec<(Key, Address)>) -> Mem<Addresses>
        requires { vec_len pairs < 2 ^ 32 }
        ensures exact { IfOk result (λ made. made ≡ map_of pairs.items) }
        ensures first { IfOk result (λ made. (peer : ℕ) → lookup peer made ≡ lookup peer pairs.items) }
    {
        let addresses = Map::from_any(alloc, pairs)?;
        Ok(Addresses { addresses })
    }

    /// The address of a peer, if the directory has one.
    pub fn get(&self, peer: Key) -> Option<&Address>
        ensures { option_copied result ≡ lookup peer self.now }
    {
        self.addresses.get(peer)
    }

    /// A directory may be read as one of as many peers as it has addresses. To know it, each is read.
    pub fn fits_limits(&self)
        ensures { (count : ℕ) → length self.now ≡ count → AddressesFit count self.now }
    {
        all_known(self.addresses.as_slice());
        self.addresses.fits_limits();
    }

    /// The map from peers to addresses.
    pub fn into_inner(self) -> Map<Address>
        ensures { result ≡ self }
    {
        self.addresses
    }
}

impl Value for Addresses {
    fn copy(&self, alloc: Global) -> Mem<Addresses> {
        Ok(Addresses {
            addresses: self.addresses.copy(alloc)?,
        })
    }

    fn same(&self, other: &Addresses) -> bool {
        self.addresses.same(&other.addresses)
    }
}

impl Spelled for Addresses {
    ghost use Rattle.dkg_types.specs.AddressCodes.{addresses_spelling};

    ghost spelling = { addresses_spelling };
}

impl EncodeSize for Addresses {
    #[tactic(auto, using(crate::specs::AddressCodes::addresses_short))]
    fn encode_size(&self) -> usize
        ensures size { result ≡ length (addresses_spelling self.now) }
        ensures small { result ≤ 2 ^ 61 }
        ensures limit { (most : ℕ) → length self.now ≤ most → result ≤ 10 + 17 * most }
    {
        let _kept = self.addresses.as_slice();
        self.addresses.encode_size()
    }
}

impl Write for Addresses {
    fn put(&self, out: &mut BytesMut) -> Mem<()> {
        self.addresses.put(out)
    }
}

impl Read for Addresses {
    /// The number of peers.
    type Cfg = u32;

    ghost use Rattle.dkg_types.specs.AddressCodes.{AddressesFit, addresses_at, addresses_grammar};

    ghost fits = { AddressesFit };

    ghost read_of = { addresses_at };

    ghost grammar = { addresses_grammar };

    fn read_cfg(alloc: Global, input: &mut Reader<'_>, cfg: &u32) -> Result<Addresses, CodecError> {
        let limits = MapCfg {
            least: *cfg,
            most: *cfg,
            value: (),
        };
        let addresses = Map::<Address>::read_cfg(alloc, input, &limits)?;
        Ok(Addresses { addresses })
    }
}

impl Directory for Addresses {
    ghost use Rattle.std.specs.Prelude.{◌+◌, ◌*◌, length};
    ghost use Rattle.std.specs.Str.{bytes_eq};
    ghost use Rattle.dkg_values.specs.Rising.{keys_of};
    ghost use Rattle.dkg_types.specs.AddressCodes.{addresses_rising, addresses_within};

    ghost config_of = { λ peers. length peers };

    ghost bound_of = { λ count. 10 + 17 * count };

    ghost matches_of = { λ a peers. bytes_eq (keys_of a) peers };

    fn codec_config(peers: &Set) -> u32 {
        peers.len()
    }

    fn max_encode_size(peers: usize) -> usize {
        10 + 17 * peers
    }

    fn matches(&self, peers: &Set) -> bool {
        self.addresses.has_keys(peers)
    }

    #[tactic(auto, using(crate::specs::Within::as_many))]
    fn fits_peers(&self) {
        self.fits_limits();
    }

    fn size(&self) -> usize {
        self.encode_size()
    }

    ghost within = { addresses_within };

    ghost rising = { addresses_rising };
}
