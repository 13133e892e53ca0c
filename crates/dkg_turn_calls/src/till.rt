//! What lies behind the locks of the tests: a sum to which callers add, one call after the other.
ghost use Rattle.std.specs.Prelude.{◌≡◌, false};

use dkg_turn::{Carries, Turn};
use dkg_values::Mem;
use std::alloc::Global;

/// A sum to which callers add. A call without a number is a stop: from then on nothing changes.
#[derive(Debug, Drop)]
pub(crate) struct Till {
    pub(crate) sum: u64,
    pub(crate) closed: bool,
}

impl Turn for Till {
    type Call = Option<u64>;

    type Reply = Option<u64>;

    ghost use Rattle.std.specs.Prelude.{◌≡◌, ◌↔◌, ◌+◌, ◌%◌, ◌^◌, ℕ, nat_le, if◌then◌else◌, Some, None, IsNone, true, false};

    ghost turns = { λ before call reply after.
        ((sum : ℕ) → reply ≡ Some sum → sum ≡ after.sum)
        × (IsNone reply ↔ (after.closed ≡ true))
        × (before.closed ≡ true → after ≡ before)
        × (call ≡ None → after.closed ≡ true)
        × ((more : ℕ) → before.closed ≡ false → call ≡ Some more → (after.closed ≡ false) × (after.sum ≡ (before.sum + more) % 2 ^ 64)) };

    ghost same = { λ one other. one ≡ other };

    ghost told = { λ till number. if till.closed then Some None else if nat_le number till.sum then Some (Some till.sum) else None };

    fn turn(&mut self, _alloc: Global, call: &Option<u64>) -> (Option<u64>, Option<u64>) {
        if self.closed {
            return (None, None);
        }
        match *call {
            Some(more) => {
                self.sum = self.sum.wrapping_add(more);
                (Some(self.sum), Some(self.sum))
            }
            None => {
                self.closed = true;
                (None, None)
            }
        }
    }

    fn reply(&self, _alloc: Global, number: u64) -> Mem<Option<Option<u64>>> {
        if self.closed {
            Ok(Some(None))
        } else if number <= self.sum {
            Ok(Some(Some(self.sum)))
        } else {
            Ok(None)
        }
    }
}

impl Carries<u64, u64> for Till {
    ghost use Rattle.std.specs.Prelude.{◌≡◌, Some, None, true, false};
    ghost use Rattle.std.proofs.Common.{rules};

    ghost posted = { λ message. Some message };

    ghost answered = { λ reply. reply };

    ghost stopped = { λ before call reply after. after.closed ≡ true };

    ghost meets = { λ till message answer. answer ≡ till.sum };

    ghost carried = { λ before message reply after answer turned said. turned.0 answer said };

    ghost answerless = { λ before message reply after turned. turned.1 };

    ghost ends = { λ before call reply after turned stop. Prim.search rules };

    ghost leads_on = { λ till. record {
      before = record { sum = 0; closed = false };
      message = 0;
      reply = Some 0;
      after = record { sum = 0; closed = false };
      turned = Prim.search rules;
      goes_on = Prim.search rules;
    } };

    fn call_of(message: u64) -> Option<u64> {
        Some(message)
    }

    fn answer_of(reply: Option<u64>) -> Option<u64> {
        reply
    }
}

/// A till with nothing in it.
pub(crate) fn empty_till() -> Till
    ensures { (result.sum ≡ 0) × (result.closed ≡ false) }
{
    Till {
        sum: 0,
        closed: false,
    }
}
