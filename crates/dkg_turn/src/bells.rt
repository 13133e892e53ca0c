//! Where a caller sleeps until its turn, and who wakes it.
//!
//! There are eight bells, and the ticket modulo eight says which one a caller sleeps at. So who passes its turn on wakes the next
//! ticket's caller, and seldom another one beside it.
//!
//! **No wake is lost**, and no clause says so. All steps on the words stand in one order, and in it
//!
//! - a caller whose ticket is `t` (1) counts itself among the bell's sleepers, (2) reads the bell's count of rings, (3) looks at the
//!   serving word, and (4) sleeps only where that was not `t`, and only while the count of rings is what it read;
//! - who passes the turn on to `t` (a) moves the serving word to `t`, (b) looks at the sleepers of that bell, and if there are some
//!   (c) counts one more ring and (d) wakes all who sleep at the bell.
//!
//! Once the serving word is `t` it stays so until the caller of `t` has had its turn. So if (a) stands before (3), the caller finds its
//! turn and does not sleep. If (3) stands before (a), then (1) stands before (b), and the caller is counted until it is awake again: so
//! (c) and (d) are made, and since (2) stands before (c), a sleep that begins behind (c) ends at once, and one that began before it
//! is ended by (d). A sleep looks at the low half of the count. Between (2) and (c) that half cannot come round: the rings between them
//! are of callers that passed a turn on, each of them once before (2) at most and once behind it, and there are far fewer than 2^31.
//!
//! A caller that is woken for another ticket, or for no reason, looks at the serving word and sleeps again.
use std::sync::Wait;
use std::sync::atomic::{AtomicU64, Ordering};

// How many bells there are.
const BELLS: u64 = 8;

// A sleep looks at the low half of a word.
const LOW_HALF: u64 = 1 << 32;

/// Callers sleep at a bell until it rings.
#[derive(Drop)]
pub(crate) struct Bell {
    // The callers that sleep here, or are about to.
    sleepers: AtomicU64,
    rings: AtomicU64,
}

impl Bell {
    fn new() -> Bell {
        Bell {
            sleepers: AtomicU64::new(0),
            rings: AtomicU64::new(0),
        }
    }

    // Counts a caller in, and says how often the bell has rung.
    pub(crate) fn enter(&self) -> u64 {
        self.sleepers.fetch_add(1, Ordering::SeqCst);
        self.rings.load(Ordering::SeqCst)
    }

    // Sleeps until the bell has rung more often than this. It may also return for no reason.
    pub(crate) fn sleep<R: Wait>(&self, rt: &R, rings: u64) {
        self.rings.park(rt, (rings % LOW_HALF) as u32);
    }

    pub(crate) fn leave(&self) {
        self.sleepers.fetch_sub(1, Ordering::SeqCst);
    }

    // Wakes those who sleep here, if there are any.
    pub(crate) fn ring(&self) {
        if self.sleepers.load(Ordering::SeqCst) > 0 {
            self.rings.fetch_add(1, Ordering::SeqCst);
            self.rings.wake_all();
        }
    }
}

/// The bells of a lock.
#[derive(Drop)]
pub(crate) struct Bells {
    bells: [Bell; 8],
}

impl Bells {
    pub(crate) fn new() -> Bells {
        Bells {
            bells: [
                Bell::new(),
                Bell::new(),
                Bell::new(),
                Bell::new(),
                Bell::new(),
                Bell::new(),
                Bell::new(),
                Bell::new(),
            ],
        }
    }

    /// The bell at which the caller of a ticket sleeps.
    pub(crate) fn of(&self, ticket: u64) -> &Bell {
        &self.bells[(ticket % BELLS) as usize]
    }
}
