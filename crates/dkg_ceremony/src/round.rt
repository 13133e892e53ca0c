//! What one round of a ceremony is about, and its bytes, which marks bind.
//!
//! A ceremony draws up a round, and each of its other calls takes one. The bytes are written once, when it is drawn up.
ghost use Rattle.std.specs.Prelude.{◌≡◌, ◌∷◌, [], ◌+◌, ◌++◌, ◌^◌, ◌≤◌, ◌↔◌, IfOk, IfSome, OnOk, IsTrue, length};
ghost use Rattle.std.specs.Int.{w32, to_be_bytes};
ghost use Rattle.std.specs.Option.{option_copied};
ghost use Rattle.sha2.specs.Hashers.{Holds256};
ghost use Rattle.dkg_ceremony.specs.declared.sign.Domain.TheVariants as domains;
ghost use Rattle.dkg_ceremony.specs.Marks.{domain_byte, mark_of as mark_from};
ghost use Rattle.dkg_ceremony.specs.Polynomials.{AreValues};
ghost use Rattle.dkg_ceremony.specs.Rounds.{round_bytes, previous_bytes};
ghost use Rattle.dkg_ceremony.specs.declared.round.RoundError.TheVariants.{NoMemory as NoMemoryLeft};

use crate::many::values_of;
use crate::mode::{Mode, Reveal, byte_of_mode, byte_of_reveal};
use crate::output::Output;
use crate::sign::{Domain, hash_behind, mark_behind};
use bytes::{BufMut, BytesMut};
use dkg_values::{
    Blob, Element, EncodeSize, Key, Mark, Mem, NoMemory, Set, Value, Write, uint_size, write_uint,
};
use sha2::Sha256;
use std::alloc::{AllocError, AllocFailed, Global};
use std::marker::Model;
use std::sync::Arc;
use thiserror::Error;

/// From how many checks on the values at all points are worth their making, which takes as long as about so many: for a polynomial with coefficients for
/// two thirds of the players, the remainders as long as 700, and the values 350. So the checks take no more than about twice the time that they need.
const MANY_CHECKS: u32 = 1_000;

/// Who deals to whom, after which output, under which name and number.
#[derive(Drop)]
pub struct RoundParts {
    /// What keeps the marks of two chains apart.
    pub namespace: Blob,
    pub number: u64,
    /// The output whose key is dealt again; without one a new key is dealt.
    pub previous: Option<Output>,
    pub mode: Mode,
    pub reveal: Reveal,
    pub dealers: Set,
    pub players: Set,
}

/// What all acknowledgements of a player begin with, hashed.
#[derive(Drop)]
struct Begun {
    player: Key,
    hash: Sha256,
}

/// What a round and its copies share: its parts, and their bytes.
#[derive(Drop)]
struct Drawn {
    parts: RoundParts,
    bytes: BytesMut,
}

impl Model for Drawn {
    ghost use Rattle.std.specs.Prelude.{◌≡◌};
    ghost use Rattle.dkg_ceremony.specs.declared.round.RoundParts.{RoundParts};
    ghost use Rattle.dkg_ceremony.specs.Rounds.{round_bytes};

    ghost Value = { RoundParts };

    ghost view = { λ d. d.parts };

    ghost invariant = { λ d. d.bytes.items ≡ round_bytes d.parts };
}

/// A round with its bytes, which contracts see as its parts.
#[derive(Drop)]
pub struct Round {
    drawn: Arc<Drawn, Global>,
    begun: Option<Begun>,
    /// How many checks of dealings were noted.
    checks: u32,
    /// The values of the previous output's polynomial at the points of its players, once so many checks were noted.
    held: Option<Vec<Element>>,
}

impl Model for Round {
    ghost use Rattle.std.specs.Prelude.{◌∷◌, [], ◌++◌, IfSome, length};
    ghost use Rattle.std.specs.Arc.{arc_value};
    ghost use Rattle.std.specs.Int.{w32, to_be_bytes};
    ghost use Rattle.sha2.specs.Hashers.{Holds256};
    ghost use Rattle.dkg_ceremony.specs.declared.round.RoundParts.{RoundParts};
    ghost use Rattle.dkg_ceremony.specs.declared.sign.Domain.TheVariants as domains;
    ghost use Rattle.dkg_ceremony.specs.Marks.{domain_byte};
    ghost use Rattle.dkg_ceremony.specs.Polynomials.{AreValues};
    ghost use Rattle.dkg_ceremony.specs.Rounds.{round_bytes};

    ghost Value = { RoundParts };

    ghost view = { λ r. arc_value r.drawn };

    ghost invariant = { λ r. IfSome r.begun
        (λ b. Holds256 b.hash (to_be_bytes w32 b.player ++ domain_byte domains.Ack ∷ [] ++ round_bytes (arc_value r.drawn)))
        × IfSome r.held (λ values. IfSome (arc_value r.drawn).previous (λ o. AreValues values.items o.sharing.poly (length o.players))) };
}

/// Why no round is drawn up; of several, the first.
#[derive(Clone, Copy, Debug, PartialEq, Eq, Error)]
pub enum RoundError {
    #[error("a round without dealers")]
    NoDealers,
    #[error("a round without players")]
    NoPlayers,
    #[error("more participants than points")]
    TooMany,
    #[error("a dealer was no player of the previous round")]
    DealersNotPrevious,
    #[error("out of memory")]
    NoMemory,
}

impl From<NoMemory> for RoundError {
    ghost from_gives = { λ _ e. e ≡ NoMemoryLeft };

    fn from(_e: NoMemory) -> RoundError {
        RoundError::NoMemory
    }
}

impl From<AllocError> for RoundError {
    ghost from_gives = { λ _ e. e ≡ NoMemoryLeft };

    fn from(_e: AllocError) -> RoundError {
        RoundError::NoMemory
    }
}

impl<T: Drop> From<AllocFailed<T>> for RoundError {
    ghost from_gives = { λ _ e. e ≡ NoMemoryLeft };

    fn from(_e: AllocFailed<T>) -> RoundError {
        RoundError::NoMemory
    }
}

/// A copy of the output before a round.
pub(crate) fn copy_of_previous(alloc: Global, previous: Option<&Output>) -> Mem<Option<Output>>
    ensures { IfOk result (λ made. made ≡ option_copied previous.entry) }
{
    match previous {
        None => Ok(None),
        Some(output) => Ok(Some(output.copy(alloc)?)),
    }
}

/// Whether two rounds follow the same output.
fn is_same_previous(one: &Option<Output>, other: &Option<Output>) -> bool
    ensures { IsTrue result ↔ (one.now ≡ other.now) }
{
    match (one, other) {
        (None, None) => true,
        (Some(one), Some(other)) => one.same(other),
        (None, Some(_)) | (Some(_), None) => false,
    }
}

impl Value for RoundParts {
    fn copy(&self, alloc: Global) -> Mem<RoundParts> {
        Ok(RoundParts {
            namespace: self.namespace.copy(alloc)?,
            number: self.number,
            previous: copy_of_previous(alloc, self.previous.as_ref())?,
            mode: self.mode,
            reveal: self.reveal,
            dealers: self.dealers.copy(alloc)?,
            players: self.players.copy(alloc)?,
        })
    }

    fn same(&self, other: &RoundParts) -> bool {
        self.number == other.number
            && self.mode == other.mode
            && self.reveal == other.reveal
            && self.namespace.same(&other.namespace)
            && is_same_previous(&self.previous, &other.previous)
            && self.dealers.same(&other.dealers)
            && self.players.same(&other.players)
    }
}

impl Value for Round {
    /// The copy shares the parts and their bytes, and has hashed nothing.
    fn copy(&self, _alloc: Global) -> Mem<Round> {
        Ok(Round {
            drawn: Arc::try_clone(&self.drawn)?,
            begun: None,
            checks: 0,
            held: None,
        })
    }

    fn same(&self, other: &Round) -> bool {
        self.parts().same(other.parts())
    }
}

/// How many bytes a flag takes and the output behind it.
fn size_of_previous(previous: &Option<Output>) -> usize
    ensures { result ≤ 2 ^ 38 + 1 }
{
    match previous {
        None => 1,
        Some(output) => 1 + output.encode_size(),
    }
}

/// How many bytes a round takes.
fn size_of_round(round: &RoundParts) -> usize {
    let namespace = round.namespace.as_slice().len();
    uint_size(namespace as u64)
        + namespace
        + uint_size(round.number)
        + size_of_previous(&round.previous)
        + 2
        + round.dealers.encode_size()
        + round.players.encode_size()
}

/// Writes the flag of an output that may be there, and the output.
fn write_previous(previous: &Option<Output>, out: &mut BytesMut) -> Mem<()>
    ensures { OnOk result (out.new.items ≡ out.old.items ++ previous_bytes previous.now) }
{
    match previous {
        None => Ok(out.put_u8(0)?),
        Some(output) => {
            out.put_u8(1)?;
            output.put(out)
        }
    }
}

/// Writes the bytes of a round, on which its marks are made.
#[tactic(auto, unfolding(crate::specs::Rounds::round_bytes))]
fn write_round(round: &RoundParts, out: &mut BytesMut) -> Mem<()>
    ensures { OnOk result (out.new.items ≡ out.old.items ++ round_bytes round.now) }
{
    let namespace = round.namespace.as_slice();
    write_uint(out, namespace.len() as u64)?;
    out.put_slice(namespace)?;
    write_uint(out, round.number)?;
    write_previous(&round.previous, out)?;
    out.put_slice(&[byte_of_mode(round.mode), byte_of_reveal(round.reveal)])?;
    round.dealers.put(out)?;
    round.players.put(out)
}

impl Round {
    /// The round of these parts, with its bytes.
    pub fn new(alloc: Global, parts: RoundParts) -> Mem<Round>
        ensures { IfOk result (λ round. round ≡ parts) }
    {
        let mut bytes = BytesMut::with_capacity(alloc, size_of_round(&parts))?;
        write_round(&parts, &mut bytes)?;
        Ok(Round {
            drawn: Arc::new(alloc, Drawn { parts, bytes })?,
            begun: None,
            checks: 0,
            held: None,
        })
    }

    /// What the round is about.
    pub fn parts(&self) -> &RoundParts
        ensures { result.now ≡ self.now }
    {
        &self.drawn.parts
    }

    /// Its bytes.
    pub(crate) fn bytes(&self) -> &[u8]
        ensures { result.now ≡ round_bytes self.now }
    {
        &self.drawn.bytes
    }

    /// Whether what a player's acknowledgements begin with is hashed.
    fn has_begun(&self, player: Key) -> bool {
        match &self.begun {
            Some(begun) => begun.player == player,
            None => false,
        }
    }

    /// Hashes what all acknowledgements of a player begin with, unless it is hashed, so that each of them hashes the rest alone.
    pub fn begin_acks(&mut self, player: Key)
        ensures { self.new ≡ self.old }
    {
        if !self.has_begun(player) {
            let hash = self.hash_of(player, Domain::Ack);
            self.begun = Some(Begun { player, hash });
        }
    }

    /// Notes that a dealing was checked. From so many checks on the values at all dealers' points are known, and a check looks at one of them.
    ///
    /// Where memory is short it goes without.
    pub fn note_check(&mut self, alloc: Global)
        ensures { self.new ≡ self.old }
    {
        self.checks = self.checks.saturating_add(1);
        if self.checks == MANY_CHECKS {
            self.held = self.values(alloc);
        }
    }

    /// The values of the previous output's polynomial at the points of its players.
    fn values(&self, alloc: Global) -> Option<Vec<Element>>
        ensures { IfSome result (λ values. IfSome self.now.previous (λ o. AreValues values.items o.sharing.poly (length o.players))) }
    {
        let output = self.parts().previous.as_ref()?;
        values_of(alloc, &output.sharing.poly, output.players.len()).ok()
    }

    /// What each player of the previous output holds in public, where that is known.
    pub(crate) fn held(&self) -> Option<&[Element]>
        ensures { IfSome result (λ values. IfSome self.now.previous (λ o. AreValues values.now o.sharing.poly (length o.players))) }
    {
        match &self.held {
            Some(values) => Some(values),
            None => None,
        }
    }

    /// The hash of a key's marks in a domain, as far as the round goes.
    fn hash_of(&self, key: Key, domain: Domain) -> Sha256
        ensures { Holds256 result (to_be_bytes w32 key ++ domain_byte domain ∷ [] ++ round_bytes self.now) }
    {
        hash_behind(key, domain, self.bytes())
    }

    /// A key's mark on the round and on what comes behind it.
    pub(crate) fn mark(&self, key: Key, domain: Domain, rest: &[u8]) -> Mark
        ensures { result ≡ mark_from key domain (round_bytes self.now ++ rest.now) }
    {
        mark_behind(self.hash_of(key, domain), rest)
    }

    /// The hash of a player's acknowledgements, as far as the round goes.
    fn ack_hash(&self, player: Key) -> Mem<Sha256>
        ensures { IfOk result (λ hash. Holds256 hash (to_be_bytes w32 player ++ domain_byte domains.Ack ∷ [] ++ round_bytes self.now)) }
    {
        match &self.begun {
            Some(begun) if begun.player == player => Ok(begun.hash.clone()?),
            _ => Ok(self.hash_of(player, Domain::Ack)),
        }
    }

    /// A player's acknowledgement of the round and of what comes behind it.
    pub(crate) fn ack_mark(&self, player: Key, rest: &[u8]) -> Mem<Mark>
        ensures { IfOk result (λ mark. mark ≡ mark_from player domains.Ack (round_bytes self.now ++ rest.now)) }
    {
        Ok(mark_behind(self.ack_hash(player)?, rest))
    }
}
