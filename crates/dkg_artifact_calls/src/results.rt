//! What the logs of a worked round make, for an observer and for a player. Outcomes, and a player's share, stand in files of `dkg_replay`.
ghost use Rattle.std.specs.Prelude.{◌≡◌, [], Contains, IfOk, IfSome, IsOk};

use crate::asserts::{holds, is_copied};
use crate::logs::{both, round};
use dkg_artifact::{Dealings, VerifiedLogs, verify_logs};
use dkg_ceremony::{Ceremony, DealerLog, Round, StandCeremony};
use dkg_values::{Key, Map};
use std::alloc::Global;
use std::test::Fail;

/// A player without dealings, where it needs none.
fn player<C: Ceremony>(
    alloc: Global,
    ceremony: &C,
    round: &Round,
    logs: &Map<DealerLog>,
) -> Result<Option<Dealings>, Fail>
    ensures has_dealings { IfOk result (λ p. IfSome p (λ p. IsOk (C.finish_of round.now p.me p.dealings logs.now))) }
    ensures plays { IfOk result (λ p. IfSome p (λ p. Contains round.now.players p.me)) }
    ensures none { IfOk result (λ p. IfSome p (λ p. p.dealings ≡ [])) }
{
    let me = Key(1);
    if !round.parts().players.has(me) {
        return Err(Fail::from("the key is no player"));
    }
    let dealings = Map::from_any(alloc, Vec::new(alloc))?;
    let Ok(_) = ceremony.finish(alloc, round, me, &dealings, logs) else {
        return Err(Fail::from("a dealing is missing"));
    };
    Ok(Some(Dealings { me, dealings }))
}

/// The result of logs of the worked round for a player that needs no dealing.
pub(crate) fn finished<C: Ceremony>(
    alloc: Global,
    ceremony: &C,
    logs: Map<DealerLog>,
) -> Result<VerifiedLogs<C>, Fail> {
    let round = round(alloc, ceremony)?;
    let player = player(alloc, ceremony, &round, &logs)?;
    Ok(verify_logs(alloc, ceremony, &round, player, logs)?)
}

/// The result of logs of the worked round for an observer.
pub(crate) fn seen<C: Ceremony>(
    alloc: Global,
    ceremony: &C,
    logs: Map<DealerLog>,
) -> Result<VerifiedLogs<C>, Fail> {
    let round = round(alloc, ceremony)?;
    Ok(verify_logs(alloc, ceremony, &round, None, logs)?)
}

/// Whether a player's result is equal to a copy of it.
fn result_is_copied<C: Ceremony>(alloc: Global, ceremony: &C) -> Result<bool, Fail> {
    let mine = finished(alloc, ceremony, both(alloc)?)?;
    Ok(is_copied(alloc, &mine)?)
}

#[test]
fn a_result_is_copied(rt: HostRuntime) -> Result<(), Fail> {
    let copied = result_is_copied(rt.alloc(), &StandCeremony)?;
    holds(&rt, copied);
    Ok(())
}
