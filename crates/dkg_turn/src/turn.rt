//! What lies behind a lock, and the entries of its history.
ghost use Rattle.std.specs.Prelude.{ℕ, Option, IfOk};
ghost use Rattle.dkg_turn.specs.Replies.{SameOption};

use dkg_values::Mem;
use std::alloc::Global;

/// What lies behind a lock: a call changes it, and has a reply.
///
/// Contracts compare values of the type by what they see of it, so a type that holds memory should have a `Model`. Replies are
/// compared by `same`, since two that say the same may lie in memory of different sizes.
pub trait Turn: Drop + Send {
    /// What a caller asks for.
    type Call: Drop + Send;

    /// What a caller is answered. Want of memory within a turn is a reply too: the turn was taken, and stands in the history.
    type Reply: Drop + Send;

    // The value before, the call, a reply to it, and the value after.
    ghost turns: { Self → Self.Call → Self.Reply → Self → Type 0 };

    // Two replies that say the same.
    ghost same: { Self.Reply → Self.Reply → Type 0 };

    // The reply that the value has for a number, if it has one.
    ghost told: { Self → ℕ → Option Self.Reply };

    /// Takes one turn. The reply comes twice, for the history and for the caller.
    fn turn(&mut self, alloc: Global, call: &Self::Call) -> (Self::Reply, Self::Reply)
        ensures kept { turns self.old call.now result.0 self.new }
        ensures given { turns self.old call.now result.1 self.new }
        ensures same { same result.0 result.1 };

    /// A copy of the reply that the value has for a number that a caller gave with its request.
    fn reply(&self, alloc: Global, number: u64) -> Mem<Option<Self::Reply>>
        ensures { IfOk result (λ answer. SameOption same (told self.now number) answer) };
}

/// One call in a history. See `Turned`.
#[derive(Drop)]
pub struct HistoryEntry<C, R> {
    /// The number of the pass that made the call.
    pub caller: u64,
    pub call: C,
    pub reply: R,
    /// The ticket of the stay in which the call was made. Tickets rise along a history.
    pub ticket: u64,
}

/// One call in the history of a lock round a `T`.
pub type Turned<T> = HistoryEntry<<T as Turn>::Call, <T as Turn>::Reply>;
