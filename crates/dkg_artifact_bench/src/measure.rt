//! What is measured.
ghost use Rattle.std.specs.Prelude.{◌≡◌, ℕ, Ok, Contains, IfSome, IsOk};
ghost use Rattle.dkg_values.specs.Rising.{lookup};

use crate::{chain, player, round, scanned, waiting};
use dkg_artifact::{Dealings, verify_logs};
use dkg_ceremony::{Ceremony, DealerLog, Round, StandCeremony};
use dkg_infos::Unit;
use dkg_types::Block;
use dkg_values::{Key, Map, Value};
use std::alloc::Global;
use std::time::{Clock, Instant};

/// How many logs a scan found, and nanoseconds: of the scan, of the ceremony's `observe` of the logs, of their verification for an
/// observer, and of that for a player.
#[derive(Clone, Copy)]
pub struct Measured {
    pub logs: u32,
    pub scan: u64,
    pub observe: u64,
    pub observer: u64,
    pub player: u64,
}

/// The nanoseconds since an instant, or 0 where the clock doesn't tell.
fn nanos_since<R: Clock>(rt: &R, start: Instant) -> u64 {
    let Ok(took) = start.elapsed(rt) else {
        return 0;
    };
    match u64::try_from(took.as_nanos()) {
        Ok(nanos) => nanos,
        Err(_) => 0,
    }
}

fn scan<R: Clock, C: Ceremony>(
    rt: &R,
    alloc: Global,
    ceremony: &C,
    round: &Round,
    count: u64,
    blocks: &[Block<Unit>],
) -> Option<(Map<DealerLog>, u64)> {
    let bounds = chain::bounds(count)?;
    let start = Instant::now(rt).ok()?;
    let logs = scanned::logs(alloc, ceremony, round, bounds, blocks)?;
    Some((logs, nanos_since(rt, start)))
}

/// Of the ceremony's own call, where the logs have an outcome.
fn observe<R: Clock, C: Ceremony>(
    rt: &R,
    alloc: Global,
    ceremony: &C,
    round: &Round,
    logs: &Map<DealerLog>,
) -> Option<u64> {
    let start = Instant::now(rt).ok()?;
    let output = ceremony.observe(alloc, round, logs).ok()?;
    let nanos = nanos_since(rt, start);
    if output.is_some() { Some(nanos) } else { None }
}

/// Of a verification, where the logs have an outcome.
fn verify<R: Clock, C: Ceremony>(
    rt: &R,
    alloc: Global,
    ceremony: &C,
    round: &Round,
    player: Option<Dealings>,
    logs: Map<DealerLog>,
) -> Option<u64>
    requires has_dealings { IfSome player (λ p. IsOk (C.finish_of round.now p.me p.dealings logs)) }
    requires plays { IfSome player (λ p. Contains round.now.players p.me) }
    requires checked { IfSome player (λ p. (dealer : ℕ) → IfSome (lookup dealer p.dealings) (λ d. C.dealing_of round.now p.me dealer d.0 d.1 ≡ Ok tt)) }
{
    let start = Instant::now(rt).ok()?;
    let verified = verify_logs(alloc, ceremony, round, player, logs).ok()?;
    let nanos = nanos_since(rt, start);
    if verified.result.is_some() {
        Some(nanos)
    } else {
        None
    }
}

fn verify_for_observer<R: Clock, C: Ceremony>(
    rt: &R,
    alloc: Global,
    ceremony: &C,
    round: &Round,
    logs: &Map<DealerLog>,
) -> Option<u64> {
    let logs = logs.copy(alloc).ok()?;
    verify(rt, alloc, ceremony, round, None, logs)
}

fn verify_for_player<R: Clock, C: Ceremony>(
    rt: &R,
    alloc: Global,
    ceremony: &C,
    round: &Round,
    player: Dealings,
    logs: &Map<DealerLog>,
) -> Option<u64> {
    if !player::may_verify(alloc, ceremony, round, &player, logs) {
        return None;
    }
    let logs = logs.copy(alloc).ok()?;
    verify(rt, alloc, ceremony, round, Some(player), logs)
}

fn measure_by<R: Clock, C: Ceremony>(
    rt: &R,
    alloc: Global,
    ceremony: &C,
    round: &Round,
    count: u64,
    blocks: &[Block<Unit>],
) -> Option<Measured> {
    let player = player::of(alloc, round, Key(1))?;
    let (logs, scan) = scan(rt, alloc, ceremony, round, count, blocks)?;
    let observe = observe(rt, alloc, ceremony, round, &logs)?;
    let observer = verify_for_observer(rt, alloc, ceremony, round, &logs)?;
    let player = verify_for_player(rt, alloc, ceremony, round, player, &logs)?;
    Some(Measured {
        logs: logs.len(),
        scan,
        observe,
        observer,
        player,
    })
}

/// The blocks of an epoch that carry the logs of a round.
fn blocks_for(alloc: Global, round: &Round, count: u64) -> Option<Vec<Block<Unit>>> {
    let bounds = chain::bounds(count)?;
    let signed = round::logs(alloc, round)?;
    chain::blocks(alloc, bounds.midpoint, count, &signed)
}

/// Of a round of so many keys, whose logs lie in so many blocks.
pub fn measure<R: Clock>(rt: &R, alloc: Global, keys: u32, count: u64) -> Option<Measured> {
    let round = round::of(alloc, keys)?;
    let blocks = blocks_for(alloc, &round, count)?;
    measure_by(rt, alloc, &StandCeremony, &round, count, &blocks)
}

/// How many requests of so many were fed and counted, and the nanoseconds from when they are asked until none waits.
pub fn requests<R: Clock>(rt: &R, alloc: Global, count: u64) -> Option<(u32, u64)> {
    let block = chain::bare(alloc)?;
    let start = Instant::now(rt).ok()?;
    let mut requests = waiting::asked(alloc, count).ok()?;
    waiting::fed(alloc, &mut requests, count, &block).ok()?;
    let found = waiting::counted(&mut requests, count);
    Some((found, nanos_since(rt, start)))
}
