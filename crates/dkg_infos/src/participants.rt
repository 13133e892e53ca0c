//! Who takes part in an epoch. Setup validates them and hands the tracked ones to a manager.
ghost use Rattle.std.specs.Prelude.{◌≡◌, ℕ, ◌+◌, ◌++◌, ◌*◌, ◌<◌, ◌≤◌, ◌^◌, ◌⊎◌, length, Contains, IfOk};
ghost use Rattle.std.specs.Int.NonZero.{non_zero_u32_get};
ghost use Rattle.std.specs.Option.{option_copied};
ghost use Rattle.std.specs.Str.{bytes_eq};
ghost use Rattle.dkg_values.specs.Rising.{IsSetOf, set_of};
ghost use Rattle.dkg_infos.specs.ParticipantsCodes.{ParticipantsFit, participants_spelling as participants_bytes};
ghost use Rattle.dkg_infos.specs.InfoLimits.{ParticipantsWithin};
ghost use Rattle.dkg_infos.specs.Validation.{are_among as among, limited, reshare_validation, validation};

use bytes::BytesMut;
use dkg_ceremony::{CodecError, EncodeSize, Mem, Output, Read, Reader, Set, Spelled, Value, Write};
use std::alloc::Global;
use std::num::NonZeroU32;
use thiserror::Error;

/// The participants of an epoch.
#[derive(Drop)]
pub struct Participants {
    /// Peers that distribute dealings in this epoch.
    pub dealers: Set,
    /// Peers that receive shares in this epoch.
    pub players: Set,
    /// Players of the next epoch, tracked early for connectivity.
    pub next_players: Set,
}

/// The peers of an epoch that a manager activates.
#[derive(Drop)]
pub struct TrackedPeers {
    /// Peers that deal.
    pub primary: Set,
    /// Peers that only receive, in this epoch or the next.
    pub secondary: Set,
}

/// Why participants are refused, in the order in which the reasons are looked for.
#[derive(Clone, Copy, Debug, PartialEq, Eq, Error)]
pub enum ParticipantsError {
    #[error("there are no dealers")]
    EmptyDealers,
    #[error("there are no players")]
    EmptyPlayers,
    #[error("{actual} participants of one kind, where {max} is the limit")]
    TooManyParticipants { actual: u32, max: u32 },
    #[error("the first reshare's dealers are not the previous output's players")]
    InitialReshareDealers,
    #[error("a reshare's dealer is not one of the previous output's players")]
    UnknownReshareDealer,
}

fn is_same(one: &Set, other: &Set) -> bool
    ensures { result ≡ bytes_eq one.now other.now }
{
    one.same(other)
}

/// Whether each key of some is one of the others.
fn are_among(some: &Set, keys: &Set) -> bool
    ensures { result ≡ among some.now keys.now }
{
    for key in some.as_slice() {
        if !keys.has(*key) {
            return false;
        }
    }
    true
}

fn limit(set: &Set, max: u32) -> Result<(), ParticipantsError>
    ensures { result ≡ limited (length set.now) max }
{
    if set.len() > max {
        return Err(ParticipantsError::TooManyParticipants {
            actual: set.len(),
            max,
        });
    }
    Ok(())
}

fn validate_reshare(dealers: &Set, previous: &Set, round: u64) -> Result<(), ParticipantsError>
    ensures { result ≡ reshare_validation dealers.now previous.now round }
{
    if round == 0 {
        if !is_same(dealers, previous) {
            return Err(ParticipantsError::InitialReshareDealers);
        }
        return Ok(());
    }
    if !are_among(dealers, previous) {
        return Err(ParticipantsError::UnknownReshareDealer);
    }
    Ok(())
}

impl Participants {
    /// The peers to activate: the dealers as primary ones, the players and next players as secondary ones.
    pub fn tracked_peers(&self, alloc: Global) -> Mem<TrackedPeers>
        requires { length self.now.players + length self.now.next_players < 2 ^ 32 }
        ensures primary { IfOk result (λ peers. peers.primary ≡ self.now.dealers) }
        ensures exact { IfOk result (λ peers. peers.secondary ≡ set_of (self.now.players ++ self.now.next_players)) }
        ensures secondary { IfOk result (λ peers. IsSetOf (λ x. Contains self.now.players x ⊎ Contains self.now.next_players x) peers.secondary) }
    {
        Ok(TrackedPeers {
            primary: self.dealers.copy(alloc)?,
            secondary: self.players.union(alloc, &self.next_players)?,
        })
    }

    /// Whether these may take part in a round, under a limit for each set. A first ceremony has no previous output.
    #[tactic(auto, unfolding(crate::specs::Validation::validation))]
    pub fn validate(
        &self,
        max: NonZeroU32,
        previous: Option<&Output>,
        round: u64,
    ) -> Result<(), ParticipantsError>
        ensures { result ≡ validation self.now (non_zero_u32_get max) (option_copied previous.entry) round }
    {
        if self.dealers.is_empty() {
            return Err(ParticipantsError::EmptyDealers);
        }
        if self.players.is_empty() {
            return Err(ParticipantsError::EmptyPlayers);
        }
        let max = max.get();
        limit(&self.dealers, max)?;
        limit(&self.players, max)?;
        limit(&self.next_players, max)?;
        match previous {
            None => Ok(()),
            Some(output) => validate_reshare(&self.dealers, &output.players, round),
        }
    }
}

impl Participants {
    /// Participants may be read under each limit that is no less than the length of each set.
    #[tactic(auto, using(crate::specs::InfoLimits::participants_fit))]
    pub fn fits_limits(&self)
        ensures { (most : ℕ) → ParticipantsWithin most self.now → ParticipantsFit most self.now }
    {
        self.dealers.fits_limits();
        self.players.fits_limits();
        self.next_players.fits_limits();
    }
}

impl Value for Participants {
    fn copy(&self, alloc: Global) -> Mem<Participants> {
        Ok(Participants {
            dealers: self.dealers.copy(alloc)?,
            players: self.players.copy(alloc)?,
            next_players: self.next_players.copy(alloc)?,
        })
    }

    fn same(&self, other: &Participants) -> bool {
        self.dealers.same(&other.dealers)
            && self.players.same(&other.players)
            && self.next_players.same(&other.next_players)
    }
}

impl Spelled for Participants {
    ghost use Rattle.dkg_infos.specs.ParticipantsCodes.{participants_spelling};

    ghost spelling = { participants_spelling };
}

impl EncodeSize for Participants {
    fn encode_size(&self) -> usize
        ensures size { result ≡ length (participants_bytes self.now) }
        ensures limit { (most : ℕ) → ParticipantsWithin most self.now → result ≤ 15 + 12 * most }
    {
        self.dealers.encode_size() + self.players.encode_size() + self.next_players.encode_size()
    }
}

impl Write for Participants {
    fn put(&self, out: &mut BytesMut) -> Mem<()> {
        self.dealers.write(out)?;
        self.players.write(out)?;
        self.next_players.write(out)
    }
}

impl Read for Participants {
    /// How many keys each set may have.
    type Cfg = u32;

    ghost use Rattle.dkg_infos.specs.ParticipantsCodes.{ParticipantsFit, participants_at, participants_grammar};

    ghost fits = { ParticipantsFit };

    ghost read_of = { participants_at };

    ghost grammar = { participants_grammar };

    fn read_cfg(
        alloc: Global,
        input: &mut Reader<'_>,
        cfg: &u32,
    ) -> Result<Participants, CodecError> {
        let dealers = Set::read_cfg(alloc, input, cfg)?;
        let players = Set::read_cfg(alloc, input, cfg)?;
        let next_players = Set::read_cfg(alloc, input, cfg)?;
        Ok(Participants {
            dealers,
            players,
            next_players,
        })
    }
}

impl Value for TrackedPeers {
    fn copy(&self, alloc: Global) -> Mem<TrackedPeers> {
        Ok(TrackedPeers {
            primary: self.primary.copy(alloc)?,
            secondary: self.secondary.copy(alloc)?,
        })
    }

    fn same(&self, other: &TrackedPeers) -> bool {
        self.primary.same(&other.primary) && self.secondary.same(&other.secondary)
    }
}
