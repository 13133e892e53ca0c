//! Messages that wait to be taken, in order.
ghost use Rattle.std.specs.Prelude.{◌≡◌, ◌++◌, ◌∷◌, [], true, not, IfOk, OnOk, OnErr, IsOk, IfSome, IfNone, if◌then◌else◌};

use dkg_values::Mem;
use std::alloc::Global;
use std::collections::VecDeque;
use std::marker::Model;

/// Messages in the order in which they were put. A message that was cancelled, since nobody waits for its answer any more, is not kept.
#[derive(Drop)]
pub struct Queue<M> {
    messages: VecDeque<M>,
}

impl<M> Model for Queue<M> {
    ghost use Rattle.std.specs.Prelude.{List};

    ghost Value = { List M };

    ghost view = { λ q. q.messages.items };
}

impl<M> Queue<M> {
    /// No message. It takes no memory.
    pub fn new(alloc: Global) -> Queue<M>
        ensures { result ≡ [] }
    {
        Queue {
            messages: VecDeque::new(alloc),
        }
    }

    /// The message that was put first, if one is left.
    pub fn pop(&mut self) -> Option<M>
        ensures first { IfSome result (λ message. self.old ≡ message ∷ self.new) }
        ensures none { IfNone result ((self.old ≡ []) × (self.new ≡ [])) }
    {
        self.messages.pop_front()
    }
}

impl<M: Drop> Queue<M> {
    /// Puts a message last, unless it is cancelled. It says whether it put it. Only putting takes memory.
    pub fn push(&mut self, message: M, cancelled: bool) -> Mem<bool>
        ensures put { IfOk result (λ put. put ≡ not cancelled) }
        ensures ok { OnOk result (self.new ≡ (if cancelled then self.old else self.old ++ message ∷ [])) }
        ensures err { OnErr result (self.new ≡ self.old) }
        ensures sure { cancelled ≡ true → IsOk result }
    {
        if cancelled {
            return Ok(false);
        }
        self.messages.push_back(message)?;
        Ok(true)
    }
}
