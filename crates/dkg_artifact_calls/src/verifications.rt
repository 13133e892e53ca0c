//! Jobs and their answers, and which result and which artifact are kept.
ghost use Rattle.std.specs.Prelude.{◌≡◌, None};

use crate::asserts::{holds, is_copied};
use crate::logs::{both, one, round};
use crate::results::{finished, seen};
use dkg_artifact::{Artifact, ArtifactCache, Job, Verification, VerifiedLogs};
use dkg_ceremony::{Ceremony, DealerLog, Round, StandCeremony};
use dkg_infos::{Directory, Unit};
use dkg_values::Map;
use std::alloc::Global;
use std::test::Fail;

fn observing(round: Round, logs: Map<DealerLog>) -> Job {
    Job {
        round,
        player: None,
        logs,
    }
}

/// An observer's job.
fn job<C: Ceremony>(alloc: Global, ceremony: &C, logs: Map<DealerLog>) -> Result<Job, Fail> {
    let round = round(alloc, ceremony)?;
    Ok(observing(round, logs))
}

#[test]
fn a_job_is_copied(rt: HostRuntime) -> Result<(), Fail> {
    let job = job(rt.alloc(), &StandCeremony, both(rt.alloc())?)?;
    let copied = is_copied(rt.alloc(), &job)?;
    holds(&rt, copied);
    Ok(())
}

/// Whether an observer's job is answered by a result.
fn is_answered<C: Ceremony>(
    alloc: Global,
    ceremony: &C,
    verified: &VerifiedLogs<C>,
) -> Result<bool, Fail> {
    let job = job(alloc, ceremony, both(alloc)?)?;
    Ok(job.is_answered_by(verified))
}

/// Whether it is by an observer's result.
fn is_answered_by_seen<C: Ceremony>(alloc: Global, ceremony: &C) -> Result<bool, Fail> {
    is_answered(alloc, ceremony, &seen(alloc, ceremony, both(alloc)?)?)
}

/// Whether it is by a player's result.
fn is_answered_by_finished<C: Ceremony>(alloc: Global, ceremony: &C) -> Result<bool, Fail> {
    is_answered(alloc, ceremony, &finished(alloc, ceremony, both(alloc)?)?)
}

#[test]
fn a_job_is_answered_by_its_result(rt: HostRuntime) -> Result<(), Fail> {
    let answered = is_answered_by_seen(rt.alloc(), &StandCeremony)?;
    holds(&rt, answered);
    Ok(())
}

#[test]
fn a_players_result_is_no_observers(rt: HostRuntime) -> Result<(), Fail> {
    let answered = is_answered_by_finished(rt.alloc(), &StandCeremony)?;
    holds(&rt, !answered);
    Ok(())
}

fn begin<C: Ceremony + Drop>(
    alloc: Global,
    ceremony: &C,
    verification: &mut Verification<C>,
    logs: Map<DealerLog>,
) -> Result<bool, Fail>
    requires { verification.old.running ≡ None }
{
    let job = job(alloc, ceremony, logs)?;
    verification.start(job);
    Ok(verification.running().is_some())
}

/// A result of these logs comes, where those are the canonical ones.
fn retain<C: Ceremony + Drop>(
    alloc: Global,
    ceremony: &C,
    verification: &mut Verification<C>,
    these: Map<DealerLog>,
    those: &Map<DealerLog>,
) -> Result<bool, Fail> {
    let result = seen(alloc, ceremony, these)?;
    verification.retain(result, those);
    Ok(verification.running().is_none())
}

/// Results of one log, of the canonical two, and of one log again.
fn retain_each<C: Ceremony + Drop>(
    alloc: Global,
    ceremony: &C,
    verification: &mut Verification<C>,
    those: &Map<DealerLog>,
) -> Result<bool, Fail> {
    let first = retain(alloc, ceremony, verification, one(alloc)?, those)?;
    let second = retain(alloc, ceremony, verification, both(alloc)?, those)?;
    let third = retain(alloc, ceremony, verification, one(alloc)?, those)?;
    Ok(first && second && third)
}

/// Whether just the result of both logs is ready.
fn has_both<C: Ceremony>(alloc: Global, verification: &Verification<C>) -> Result<bool, Fail> {
    let both = both(alloc)?;
    let one = one(alloc)?;
    Ok(verification.ready(&both).is_some() && verification.ready(&one).is_none())
}

/// A job runs, and then results of one log, of the canonical two, and of one log again come.
fn keeps_both<C: Ceremony + Drop>(alloc: Global, ceremony: &C) -> Result<bool, Fail> {
    let mut verification = Verification::<C>::new();
    let runs = begin(alloc, ceremony, &mut verification, one(alloc)?)?;
    let idle = retain_each(alloc, ceremony, &mut verification, &both(alloc)?)?;
    Ok(runs && idle && has_both(alloc, &verification)?)
}

#[test]
fn a_canonical_result_stays(rt: HostRuntime) -> Result<(), Fail> {
    let kept = keeps_both(rt.alloc(), &StandCeremony)?;
    holds(&rt, kept);
    Ok(())
}

fn artifact<Dir>() -> Artifact<Dir> {
    Artifact {
        info: None,
        share: None,
    }
}

/// Whether an artifact is equal to a copy of it.
fn artifact_is_copied<Dir: Directory + Drop>(alloc: Global) -> Result<bool, Fail> {
    Ok(is_copied(alloc, &artifact::<Dir>())?)
}

#[test]
fn an_artifact_is_copied(rt: HostRuntime) -> Result<(), Fail> {
    let copied = artifact_is_copied::<Unit>(rt.alloc())?;
    holds(&rt, copied);
    Ok(())
}

fn is_cached<Dir>(cache: &ArtifactCache<Dir>, logs: &Map<DealerLog>) -> bool {
    cache.get(logs).is_some()
}

/// Whether a cache gives the artifact of both logs once it keeps it, and none for one log.
fn caches_both<Dir: Drop>(alloc: Global, cache: &mut ArtifactCache<Dir>) -> Result<bool, Fail> {
    cache.keep(both(alloc)?, artifact());
    let both = both(alloc)?;
    let one = one(alloc)?;
    Ok(is_cached(cache, &both) && !is_cached(cache, &one))
}

#[test]
fn an_artifact_is_for_its_logs(rt: HostRuntime) -> Result<(), Fail> {
    let mut cache = ArtifactCache::<Unit>::new();
    let kept = caches_both(rt.alloc(), &mut cache)?;
    holds(&rt, kept);
    Ok(())
}
