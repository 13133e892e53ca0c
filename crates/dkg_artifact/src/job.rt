//! What is verified, and by whom: a round, its dealers' logs, and the dealings of a node that is a player.

ghost use Rattle.std.specs.Prelude.{◌≡◌, ◌↔◌, IfOk, IsOk, IsTrue};
ghost use Rattle.std.specs.Option.{option_copied};
ghost use Rattle.dkg_values.specs.Rising.{lookup};
ghost use Rattle.dkg_ceremony.specs.Finishes.{has_public};
ghost use Rattle.dkg_artifact.specs.Lacking.{lacks};
ghost use Rattle.dkg_artifact.specs.Results.{IsResultOfJob};

use crate::verified::{VerifiedLogs, player_of};
use dkg_ceremony::{Ceremony, DealerLog, Private, Public, Round, finishes_agree};
use dkg_values::{Key, Map, Mem, Value};
use std::alloc::Global;

/// What a player has of the dealings to it, by dealer.
#[derive(Drop)]
pub struct Dealings {
    pub me: Key,
    pub dealings: Map<(Public, Private)>,
}

/// The verification of some logs of a round, by a player or for an observer.
#[derive(Drop)]
pub struct Job {
    pub round: Round,
    pub player: Option<Dealings>,
    pub logs: Map<DealerLog>,
}

impl Job {
    /// Whether a result is this job's: of its round and its logs, and for its player. A result may come when another job runs.
    pub fn is_answered_by<C: Ceremony>(&self, verified: &VerifiedLogs<C>) -> bool
        ensures { IsTrue result ↔ IsResultOfJob self.now verified.now }
    {
        player_of(&self.player) == verified.me
            && self.round.same(&verified.round)
            && self.logs.same(&verified.logs)
    }
}

/// Holds work back, as a test does that wants callers to be answered first.
pub trait WorkGate {
    /// Whether work may go on.
    fn open(&self) -> bool;

    /// A caller was answered.
    fn answered(&self, _caller: u32) {}
}

impl Value for Dealings {
    fn copy(&self, alloc: Global) -> Mem<Dealings> {
        Ok(Dealings {
            me: self.me,
            dealings: self.dealings.copy(alloc)?,
        })
    }

    fn same(&self, other: &Dealings) -> bool {
        self.me == other.me && self.dealings.same(&other.dealings)
    }
}

/// Whether a dealing is there and has this public half.
fn has_public(public: &Public, dealing: Option<&(Public, Private)>) -> bool
    ensures { IsTrue result ↔ IsTrue (has_public public.now (option_copied dealing.entry)) }
{
    match dealing {
        Some(dealing) => dealing.0.same(public),
        None => false,
    }
}

/// Whether a dealer's log bears the player's acknowledgement of a dealing that the player lacks.
fn lacks<C: Ceremony>(
    alloc: Global,
    ceremony: &C,
    round: &Round,
    player: &Dealings,
    dealer: Key,
    log: &DealerLog,
) -> Mem<bool>
    ensures { IfOk result (λ b. IsTrue b ↔ IsTrue (lacks C.bears_ack_of round.now player.now.me player.now.dealings dealer log.now)) }
{
    Ok(
        ceremony.bears_ack(alloc, round, dealer, log, player.me)?
            && !has_public(&log.public, player.dealings.get(dealer)),
    )
}

/// Whether no log bears the player's acknowledgement of a dealing that the player lacks. Then a verification may take the player's part, as
/// `verify_logs` asks; else it only observes.
pub fn lacks_no_dealing<C: Ceremony>(
    alloc: Global,
    ceremony: &C,
    round: &Round,
    player: &Dealings,
    logs: &Map<DealerLog>,
) -> Mem<bool>
    ensures { IfOk result (λ b. IsTrue b → IsOk (C.finish_of round.now player.now.me player.now.dealings logs.now)) }
{
    for (dealer, log) in logs.as_slice() {
        if lacks(alloc, ceremony, round, player, *dealer, log)? {
            return Ok(false);
        }
    }
    finishes_agree::<C>();
    Ok(true)
}

/// A copy of a player's dealings, if there is one.
fn copy_of_player(alloc: Global, player: &Option<Dealings>) -> Mem<Option<Dealings>>
    ensures { IfOk result (λ made. made ≡ player.now) }
{
    match player {
        None => Ok(None),
        Some(player) => Ok(Some(player.copy(alloc)?)),
    }
}

/// Whether two players are equal, or neither is there.
fn is_same_player(one: &Option<Dealings>, other: &Option<Dealings>) -> bool
    ensures { IsTrue result ↔ (one.now ≡ other.now) }
{
    match (one, other) {
        (None, None) => true,
        (Some(one), Some(other)) => one.same(other),
        (None, Some(_)) | (Some(_), None) => false,
    }
}

impl Value for Job {
    fn copy(&self, alloc: Global) -> Mem<Job> {
        Ok(Job {
            round: self.round.copy(alloc)?,
            player: copy_of_player(alloc, &self.player)?,
            logs: self.logs.copy(alloc)?,
        })
    }

    fn same(&self, other: &Job) -> bool {
        self.round.same(&other.round)
            && is_same_player(&self.player, &other.player)
            && self.logs.same(&other.logs)
    }
}
