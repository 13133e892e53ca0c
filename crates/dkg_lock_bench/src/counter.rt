//! What lies behind the lock: a count of calls, each of which takes some rounds of arithmetic.
use crate::Measured;
use crate::task::Task;
use dkg_turn::Turn;
use dkg_values::Mem;
use std::alloc::Global;
use std::time::{Clock, Instant};

#[derive(Drop)]
pub struct Counter {
    pub count: u64,
    pub seed: u64,
    pub rounds: u64,
}

// The seed after so many rounds, each of which needs the one before.
fn worked(mut seed: u64, rounds: u64) -> u64 {
    for _ in 0..rounds {
        seed = seed
            .wrapping_mul(6364136223846793005)
            .wrapping_add(1442695040888963407);
    }
    seed
}

impl Counter {
    /// A counter at 0, each of whose calls works so many rounds.
    pub fn new(rounds: u64) -> Counter {
        Counter {
            count: 0,
            seed: 1,
            rounds,
        }
    }
}

impl Turn for Counter {
    type Call = u64;

    type Reply = u64;

    ghost use Rattle.std.specs.Prelude.{◌≡◌, ◌+◌, ◌%◌, ◌^◌, None};

    ghost turns = { λ before call reply after. (after.count ≡ (before.count + 1) % 2 ^ 64) × (reply ≡ after.count) };

    ghost same = { λ one other. one ≡ other };

    ghost told = { λ counter number. None };

    fn turn(&mut self, _alloc: Global, _call: &u64) -> (u64, u64) {
        self.seed = worked(self.seed, self.rounds);
        self.count = self.count.wrapping_add(1);
        (self.count, self.count)
    }

    fn reply(&self, _alloc: Global, _number: u64) -> Mem<Option<u64>> {
        Ok(None)
    }
}

/// The nanoseconds since an instant, if the clock tells them.
pub fn nanos_since<R: Clock>(rt: &R, start: Instant) -> Option<u64> {
    u64::try_from(start.elapsed(rt).ok()?.as_nanos()).ok()
}

/// The longer of two times.
pub fn longer(one: Option<u64>, other: Option<u64>) -> Option<u64> {
    Some(one?.max(other?))
}

/// The turns alone, one after the other.
pub fn measure<R: Clock>(rt: &R, task: &Task) -> Option<Measured> {
    let mut seed = Counter::new(task.rounds).seed;
    let start = Instant::now(rt).ok()?;
    for _ in 0..task.calls {
        seed = worked(seed, task.rounds);
    }
    let nanos = nanos_since(rt, start)?;
    Some(Measured {
        calls: task.calls,
        nanos,
        seed,
    })
}
