//! The outcome of a round's logs, as one node sees it: the output, and for a player its share.
ghost use Rattle.std.specs.Prelude.{◌≡◌, ◌↔◌, ℕ, IfOk, IfSome, IsOk, IsTrue, Contains, Ok, Some, None, option_map};
ghost use Rattle.dkg_values.specs.Rising.{lookup};
ghost use Rattle.dkg_artifact.specs.Results.{IsResult, checked, finished_by, observed_output, result_of};

use crate::job::Dealings;
use dkg_ceremony::{Ceremony, DealerLog, FinishError, Output, Round, Share, finishes_agree};
use dkg_values::{Key, Map, Mem, NoMemory, Value};
use std::alloc::Global;
use std::marker::{Model, PhantomData};

/// What logs make: an output, and a player's share of it.
#[derive(Drop)]
pub struct Verified {
    pub output: Output,
    pub share: Option<Share>,
}

/// Logs of a round and their outcome by a ceremony, if they have one. Contracts see all but the ceremony, of which the type keeps that
/// the result is its outcome, and that a share is there exactly for a player that has a result, and fits the output.
#[derive(Drop)]
pub struct VerifiedLogs<C: Ceremony> {
    pub round: Round,
    /// The player whose share it is.
    pub me: Option<Key>,
    pub logs: Map<DealerLog>,
    pub result: Option<Verified>,
    pub of: PhantomData<C>,
}

impl<C: Ceremony> Model for VerifiedLogs<C> {
    ghost use Rattle.dkg_artifact.specs.Results.{Checked, IsResult};

    ghost Value = { Checked };

    ghost view = { λ v. record { round = v.round; me = v.me; logs = v.logs; result = v.result } };

    ghost invariant = { λ v. IsResult C.outcome_of C.share_public_of C.partial_public_of
        record { round = v.round; me = v.me; logs = v.logs; result = v.result } };
}

impl<C: Ceremony> VerifiedLogs<C> {
    /// What the type keeps, as a fact.
    pub fn is_result(&self)
        ensures { IsResult C.outcome_of C.share_public_of C.partial_public_of self.now }
    {
        let _logs = &self.logs;
    }
}

/// The outcome that all see.
fn observe_logs<C: Ceremony>(
    alloc: Global,
    ceremony: &C,
    round: &Round,
    logs: &Map<DealerLog>,
) -> Mem<Option<Verified>>
    ensures { IfOk result (λ r. r ≡ option_map observed_output (C.outcome_of round.now logs.now)) }
{
    match ceremony.observe(alloc, round, logs)? {
        None => Ok(None),
        Some(output) => Ok(Some(Verified {
            output,
            share: None,
        })),
    }
}

/// The outcome with a player's share.
fn finish_logs<C: Ceremony>(
    alloc: Global,
    ceremony: &C,
    round: &Round,
    player: &Dealings,
    logs: &Map<DealerLog>,
) -> Mem<Option<Verified>>
    requires has_dealings { IsOk (C.finish_of round.now player.now.me player.now.dealings logs.now) }
    requires plays { Contains round.now.players player.now.me }
    requires checked { (dealer : ℕ) → IfSome (lookup dealer player.now.dealings) (λ d. C.dealing_of round.now player.now.me dealer d.0 d.1 ≡ Ok tt) }
    ensures { IfOk result (λ r. r ≡ finished_by (C.finish_of round.now player.now.me player.now.dealings logs.now)) }
{
    match ceremony.finish(alloc, round, player.me, &player.dealings, logs) {
        Ok(None) => Ok(None),
        Ok(Some((output, share))) => Ok(Some(Verified {
            output,
            share: Some(share),
        })),
        Err(FinishError::NoMemory) => Err(NoMemory),
        Err(FinishError::MissingDealing { .. }) => unreachable!(),
    }
}

/// What logs make, by a player or for an observer.
fn result_of<C: Ceremony>(
    alloc: Global,
    ceremony: &C,
    round: &Round,
    player: &Option<Dealings>,
    logs: &Map<DealerLog>,
) -> Mem<Option<Verified>>
    requires has_dealings { IfSome player.now (λ p. IsOk (C.finish_of round.now p.me p.dealings logs.now)) }
    requires plays { IfSome player.now (λ p. Contains round.now.players p.me) }
    requires checked { IfSome player.now (λ p. (dealer : ℕ) → IfSome (lookup dealer p.dealings)
        (λ d. C.dealing_of round.now p.me dealer d.0 d.1 ≡ Ok tt)) }
    ensures { IfOk result (λ r. r ≡ result_of C.outcome_of C.finish_of round.now player.now logs.now) }
{
    match player {
        None => observe_logs(alloc, ceremony, round, logs),
        Some(player) => finish_logs(alloc, ceremony, round, player, logs),
    }
}

/// What is answered keeps what the type of results keeps.
fn results_hold<C: Ceremony>(round: &Round, player: &Option<Dealings>, logs: &Map<DealerLog>)
    requires has_dealings { IfSome player.now (λ p. IsOk (C.finish_of round.now p.me p.dealings logs.now)) }
    requires plays { IfSome player.now (λ p. Contains round.now.players p.me) }
    requires checked { IfSome player.now (λ p. (dealer : ℕ) → IfSome (lookup dealer p.dealings)
        (λ d. C.dealing_of round.now p.me dealer d.0 d.1 ≡ Ok tt)) }
    ensures { IsResult C.outcome_of C.share_public_of C.partial_public_of (checked C.outcome_of C.finish_of round.now player.now logs.now) }
{
    finishes_agree::<C>();
}

/// Whose share it is.
pub(crate) fn player_of(player: &Option<Dealings>) -> Option<Key>
    ensures { result ≡ option_map (λ p. p.me) player.now }
{
    match player {
        None => None,
        Some(player) => Some(player.me),
    }
}

/// The outcome of a round's logs, and with a player its share, as the upstream's `observe` and its player's `finalize` give them.
///
/// No dealing that the outcome needs may be missing: a player that lacks one only observes.
pub fn verify_logs<C: Ceremony>(
    alloc: Global,
    ceremony: &C,
    round: &Round,
    player: Option<Dealings>,
    logs: Map<DealerLog>,
) -> Mem<VerifiedLogs<C>>
    requires has_dealings { IfSome player (λ p. IsOk (C.finish_of round.now p.me p.dealings logs)) }
    requires plays { IfSome player (λ p. Contains round.now.players p.me) }
    requires checked { IfSome player (λ p. (dealer : ℕ) → IfSome (lookup dealer p.dealings) (λ d. C.dealing_of round.now p.me dealer d.0 d.1 ≡ Ok tt)) }
    ensures { IfOk result (λ r. r ≡ checked C.outcome_of C.finish_of round.now player logs) }
{
    let result = result_of(alloc, ceremony, round, &player, &logs)?;
    results_hold::<C>(round, &player, &logs);
    Ok(VerifiedLogs {
        round: round.copy(alloc)?,
        me: player_of(&player),
        logs,
        result,
        of: PhantomData,
    })
}

impl Value for Verified {
    fn copy(&self, alloc: Global) -> Mem<Verified> {
        Ok(Verified {
            output: self.output.copy(alloc)?,
            share: self.share,
        })
    }

    fn same(&self, other: &Verified) -> bool {
        self.share == other.share && self.output.same(&other.output)
    }
}

/// A copy of a result, if there is one.
fn copy_of_result(alloc: Global, verified: &Option<Verified>) -> Mem<Option<Verified>>
    ensures { IfOk result (λ made. made ≡ verified.now) }
{
    match verified {
        None => Ok(None),
        Some(verified) => Ok(Some(verified.copy(alloc)?)),
    }
}

/// Whether two results are equal, or neither is there.
fn is_same_result(one: &Option<Verified>, other: &Option<Verified>) -> bool
    ensures { IsTrue result ↔ (one.now ≡ other.now) }
{
    match (one, other) {
        (None, None) => true,
        (Some(one), Some(other)) => one.same(other),
        (None, Some(_)) | (Some(_), None) => false,
    }
}

impl<C: Ceremony> Value for VerifiedLogs<C> {
    fn copy(&self, alloc: Global) -> Mem<VerifiedLogs<C>> {
        Ok(VerifiedLogs {
            round: self.round.copy(alloc)?,
            me: self.me,
            logs: self.logs.copy(alloc)?,
            result: copy_of_result(alloc, &self.result)?,
            of: PhantomData,
        })
    }

    fn same(&self, other: &VerifiedLogs<C>) -> bool {
        self.me == other.me
            && self.round.same(&other.round)
            && self.logs.same(&other.logs)
            && is_same_result(&self.result, &other.result)
    }
}
