//! Calls through a mutex, which keep the same history.
use crate::Measured;
use crate::counter::{Counter, longer, nanos_since};
use crate::task::{self, Task};
use dkg_turn::{HistoryEntry, Turn};
use dkg_values::Mem;
use std::alloc::Global;
use std::sync::{Barrier, Mutex, Wait};
use std::thread::{Threads, join};
use std::time::{Clock, Instant};

#[derive(Drop)]
struct Kept {
    counter: Counter,
    history: Vec<HistoryEntry<u64, u64>>,
}

impl Kept {
    fn call(&mut self, alloc: Global, call: u64) -> Mem<u64> {
        self.history.reserve(1)?;
        let ticket = self.history.len() as u64;
        let (kept, reply) = self.counter.turn(alloc, &call);
        self.history.push_reserved(HistoryEntry {
            caller: 0,
            call,
            reply: kept,
            ticket,
        });
        Ok(reply)
    }
}

#[derive(Clone, Copy)]
struct Round<'a> {
    alloc: Global,
    mutex: &'a Mutex<Kept>,
    barrier: &'a Barrier,
    calls: u64,
}

fn by_one<R: Wait + Clock>(rt: &R, round: &Round) -> Option<u64> {
    round.barrier.wait(rt);
    let start = Instant::now(rt).ok()?;
    for i in 0..round.calls {
        round.mutex.lock(rt).call(round.alloc, i).ok()?;
    }
    nanos_since(rt, start)
}

fn by_two<R: Threads + Wait + Clock + Sync>(rt: &R, round: &Round) -> Option<u64> {
    let (one, other) = join(rt, || by_one(rt, round), || by_one(rt, round));
    longer(one, other)
}

fn by_four<R: Threads + Wait + Clock + Sync>(rt: &R, round: &Round) -> Option<u64> {
    let (one, other) = join(rt, || by_two(rt, round), || by_two(rt, round));
    longer(one, other)
}

/// The calls of all threads.
pub fn measure<R: Threads + Wait + Clock + Sync>(
    rt: &R,
    alloc: Global,
    task: &Task,
) -> Option<Measured> {
    let mutex = Mutex::new(Kept {
        counter: Counter::new(task.rounds),
        history: Vec::new(alloc),
    });
    let barrier = Barrier::new(task.threads.count() as usize);
    let round = Round {
        alloc,
        mutex: &mutex,
        barrier: &barrier,
        calls: task.calls,
    };
    let nanos = match task.threads {
        task::Threads::One => by_one(rt, &round),
        task::Threads::Two => by_two(rt, &round),
        task::Threads::Four => by_four(rt, &round),
    }?;
    let kept = mutex.into_inner();
    Some(Measured {
        calls: kept.history.len() as u64,
        nanos,
        seed: kept.counter.seed,
    })
}
