//! What a caller takes turns with.
ghost use Rattle.std.specs.Prelude.{◌≡◌, ◌-◌, ◌^◌, ◌≤◌, [], true, IfOk, IfErr, IsErr};
ghost use Rattle.dkg_turn.specs.History.{calls_of, HasSeen};
ghost use Rattle.dkg_turn.specs.Known.{AreDrawn};
ghost use Rattle.dkg_turn.specs.Passes.{IsPassOf, CalledInTurn, LooksAt, SplitOff, PassEnds, IsExhausted, joined};
ghost use Rattle.dkg_turn.specs.Refusals.{CallRefused, TakeRefused, SplitRefused};
ghost use Rattle.dkg_turn.specs.Rules.{known_of, first_view};

use crate::lock::{LockSeat, TurnLock};
use crate::turn::{HistoryEntry, Turn, Turned};
use std::alloc::Global;
use std::marker::Model;
use std::snapshot::Snapshot;
use std::sync::Wait;
use thiserror::Error;

/// Why a pass was not answered.
#[derive(Debug, Drop, Error)]
pub enum TurnError {
    /// The value has no reply for that number yet.
    #[error("no reply yet")]
    NotYet,
    /// 2^64 - 1 tickets were drawn, and no ticket is left. Every later call of the pass answers the same.
    #[error("no ticket is left")]
    Exhausted,
    #[error("out of memory")]
    NoMemory,
}

/// What a caller takes turns with. Each call needs a pass of its lock.
///
/// A pass has a number, under which its calls stand in the history, and parts, which contracts alone see. The first pass has 2^64
/// parts, `split` gives half of them away, and `join` adds them up again. Who has them all is the only caller: the tickets that it
/// drew are all that were drawn, and the calls that it keeps are all that the history has.
#[derive(Drop)]
pub struct Pass<T: Turn> {
    seat: LockSeat<T>,
    number: u64,
}

impl<T: Turn> Model for Pass<T> {
    ghost use Rattle.std.specs.Prelude.{◌≡◌, ◌<◌, [], true};
    ghost use Rattle.dkg_turn.specs.Known.{Known};

    ghost Value = { Known T T.Call T.Reply };

    ghost use Rattle.dkg_turn.specs.History.{contains_number};
    ghost use Rattle.dkg_turn.specs.Rules.{known_of};
    ghost use Rattle.dkg_turn.specs.declared.view.Stage.TheVariants.{Idle};

    ghost view = { λ p. known_of p.seat.table_id p.number p.seat.me.0 };

    ghost invariant = { λ p. (p.seat.me.0.stage ≡ Idle) × (p.seat.me.1 ≡ []) × (contains_number p.seat.me.0.numbers p.number ≡ true)
        × (0 < p.seat.me.0.parts) };
}

impl<T: Turn> Pass<T> {
    // The first pass of a lock.
    pub(crate) fn first(seat: LockSeat<T>, start: &Snapshot<T>) -> Pass<T>
        requires { seat.me ≡ (first_view start.now.value, []) }
        ensures { result ≡ known_of seat.table_id 0 (first_view start.now.value) }
    {
        let _ = start;
        Pass { seat, number: 0 }
    }

    /// Takes one turn. The history then begins with all that the pass had seen, and ends with this call.
    ///
    /// The room for the entry is taken before the turn, so `NoMemory` leaves value and history as before. It waits for its turn.
    pub fn call<R: Wait>(
        &mut self,
        rt: &R,
        alloc: Global,
        lock: &TurnLock<T>,
        call: T::Call,
    ) -> Result<T::Reply, TurnError>
        requires own { IsPassOf lock.now self.old }
        ensures own { IsPassOf lock.now self.new }
        ensures called { IfOk result (λ reply. CalledInTurn T.turns lock.now.start T.same call reply self.old self.new) }
        ensures refused { IfErr result (λ e. CallRefused T.turns lock.now.start e self.old self.new) }
        ensures stays { self.old.exhausted ≡ true → result ≡ Err TurnError.Exhausted }
    {
        let Some(ticket) = lock.draw(rt, &mut self.seat) else {
            return Err(TurnError::Exhausted);
        };
        let mut node = lock.come(rt, &mut self.seat, ticket);
        if node.history.reserve(1).is_err() {
            lock.give(&mut self.seat, node);
            return Err(TurnError::NoMemory);
        }
        let (kept, reply) = node.value.turn(alloc, &call);
        node.history.push_reserved(HistoryEntry {
            caller: self.number,
            call,
            reply: kept,
            ticket,
        });
        lock.give(&mut self.seat, node);
        Ok(reply)
    }

    /// A copy of the reply that the value has for a number. The value stays as it is, and the history gets no entry.
    ///
    /// It waits for its turn.
    pub fn take_reply<R: Wait>(
        &mut self,
        rt: &R,
        alloc: Global,
        lock: &TurnLock<T>,
        number: u64,
    ) -> Result<T::Reply, TurnError>
        requires own { IsPassOf lock.now self.old }
        ensures own { IsPassOf lock.now self.new }
        ensures read { IfOk result (λ reply. LooksAt T.turns lock.now.start T.told T.same number reply self.old self.new) }
        ensures refused { IfErr result (λ e. TakeRefused T.turns lock.now.start T.told number e self.old self.new) }
        ensures stays { self.old.exhausted ≡ true → result ≡ Err TurnError.Exhausted }
    {
        let Some(ticket) = lock.draw(rt, &mut self.seat) else {
            return Err(TurnError::Exhausted);
        };
        let node = lock.come(rt, &mut self.seat, ticket);
        let told = node.value.reply(alloc, number);
        lock.give(&mut self.seat, node);
        let Ok(told) = told else {
            return Err(TurnError::NoMemory);
        };
        let Some(reply) = told else {
            return Err(TurnError::NotYet);
        };
        Ok(reply)
    }

    /// Gives half of the parts, rounded down, to a new pass, for another caller.
    ///
    /// It makes one stay behind the lock, without an entry, and waits for its turn. The new pass's number is the ticket of that
    /// stay plus one, so no two passes of a lock have one number, and the history has no call of that number yet. It takes no memory.
    pub fn split<R: Wait>(&mut self, rt: &R, lock: &TurnLock<T>) -> Result<Pass<T>, TurnError>
        requires own { IsPassOf lock.now self.old }
        requires two { 2 ≤ self.old.parts }
        ensures own { IsPassOf lock.now self.new }
        ensures new { IfOk result (λ p. IsPassOf lock.now p × SplitOff T.turns lock.now.start self.old self.new p) }
        ensures no_calls { IfOk result (λ p. calls_of p.numbers p.seen ≡ []) }
        ensures refused { IfErr result (λ e. SplitRefused e self.old self.new) }
        ensures stays { self.old.exhausted ≡ true → IsErr result }
    {
        let Some(ticket) = lock.draw(rt, &mut self.seat) else {
            return Err(TurnError::Exhausted);
        };
        let node = lock.come(rt, &mut self.seat, ticket);
        lock.give_named(&mut self.seat, node);
        let seat = lock.cut(&mut self.seat);
        Ok(Pass {
            seat,
            number: ticket + 1,
        })
    }

    /// Takes in what another pass has seen and called, and its parts. The pass keeps its number.
    pub fn join(&mut self, lock: &TurnLock<T>, other: Pass<T>)
        requires own { IsPassOf lock.now self.old }
        requires other { IsPassOf lock.now other }
        ensures own { IsPassOf lock.now self.new }
        ensures joined { self.new ≡ joined self.old other }
        ensures seen { HasSeen self.old.numbers self.old.seen self.new.seen }
        ensures theirs { HasSeen other.numbers other.seen self.new.seen }
        ensures told { self.new.exhausted ≡ true → AreDrawn (2 ^ 64 - 1) self.new.drew self.new.parts }
    {
        let Pass { seat, number: _ } = other;
        lock.merge(&mut self.seat, seat);
    }

    /// Takes a turn of its own, and the value and the whole history with it. It waits for its turn, and takes no memory.
    ///
    /// Pass and lock are handed back where no ticket is left.
    pub fn close<R: Wait>(
        self,
        rt: &R,
        lock: TurnLock<T>,
    ) -> Result<(T, Vec<Turned<T>>), (Pass<T>, TurnLock<T>)>
        requires own { IsPassOf lock self }
        ensures closed { IfOk result (λ r. PassEnds T.turns lock.start self r.1.items r.0) }
        ensures refused { IfErr result (λ r. IsExhausted self r.0 × (r.1 ≡ lock)) }
        ensures stays { self.exhausted ≡ true → IsErr result }
    {
        let Pass { mut seat, number } = self;
        match lock.draw(rt, &mut seat) {
            Some(ticket) => {
                let node = lock.come(rt, &mut seat, ticket);
                Ok((node.value, node.history))
            }
            None => Err((Pass { seat, number }, lock)),
        }
    }
}
