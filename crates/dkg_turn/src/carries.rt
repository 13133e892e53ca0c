//! How a mailbox posts its own messages through a lock.
ghost use Rattle.std.specs.Prelude.{◌≡◌, ◌↔◌, Option, Some, true, IsNone, IfOk, IfErr};
ghost use Rattle.dkg_turn.specs.Passes.{IsPassOf, Posted};
ghost use Rattle.dkg_turn.specs.Refusals.{CallRefused};
ghost use Rattle.dkg_turn.specs.Stops.{HasStopped, SomeLeadsOn};

use crate::lock::TurnLock;
use crate::pass::{Pass, TurnError};
use crate::turn::Turn;
use std::alloc::Global;
use std::sync::Wait;

/// A core to which a mailbox posts messages of the type `M`, and which answers by values of the type `A`.
///
/// An answer is none exactly where the turn ended by a stop. From then on each turn ends by a stop and leaves the core as it is. Some
/// message leads on without a stop.
pub trait Carries<M, A>: Turn {
    // The call that a message is posted as.
    ghost posted: { M → Self.Call };

    // The answer in a reply.
    ghost answered: { Self.Reply → Option A };

    // The turn that led from the first value, by this call and with this reply, to the second one ended by a stop.
    ghost stopped: { Self → Self.Call → Self.Reply → Self → Type 0 };

    // What an answer to a message says of the core after its turn.
    ghost meets: { Self → M → A → Type 0 };

    /// The call that a message is posted as.
    fn call_of(message: M) -> Self::Call
        ensures { result ≡ posted message };

    /// The answer in a reply, unless the turn ended by a stop.
    fn answer_of(reply: Self::Reply) -> Option<A>
        ensures { result ≡ answered reply };

    // Each answer meets the relation after its turn.
    ghost carried: { (before : Self) (message : M) (reply : Self.Reply) (after : Self) (answer : A) → Self.turns before (posted message) reply after
        → answered reply ≡ Some answer → meets after message answer };

    // A reply to a message has no answer exactly where its turn ended by a stop.
    ghost answerless: { (before : Self) (message : M) (reply : Self.Reply) (after : Self) → Self.turns before (posted message) reply after
        → IsNone (answered reply) ↔ stopped before (posted message) reply after };

    // A stop is for good.
    ghost ends: { (before : Self) (call : Self.Call) (reply : Self.Reply) (after : Self) → Self.turns before call reply after → stopped before call reply after
        → HasStopped Self.turns stopped Self.told answered after };

    // Where there is a value at all, there is one from which some message is answered.
    ghost leads_on: { Self → SomeLeadsOn Self.turns stopped posted };
}

impl<T: Turn> Pass<T> {
    /// Posts a message as one call, and gives the answer in its reply: none exactly where the turn ended by a stop.
    pub fn post<M, A, R: Wait>(
        &mut self,
        rt: &R,
        alloc: Global,
        lock: &TurnLock<T>,
        message: M,
    ) -> Result<Option<A>, TurnError>
    where
        T: Carries<M, A>,
        requires own { IsPassOf lock.now self.old }
        ensures own { IsPassOf lock.now self.new }
        ensures posted { IfOk result (λ answer. Posted T.Turn.turns lock.now.start T.Turn.same T.Turn.told (T.posted message) T.answered T.stopped T.meets
            message answer self.old self.new) }
        ensures refused { IfErr result (λ e. CallRefused T.Turn.turns lock.now.start e self.old self.new) }
        ensures stays { self.old.exhausted ≡ true → result ≡ Err TurnError.Exhausted }
    {
        let reply = self.call(rt, alloc, lock, T::call_of(message))?;
        Ok(T::answer_of(reply))
    }
}
