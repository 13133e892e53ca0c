//! The lock: a word that counts the tickets drawn, a word that counts the turns passed on, and one slot, which has the value with
//! its history.
//!
//! A pass draws a ticket by the one `compare_exchange` that succeeds, waits until the turns passed on are its ticket, takes the node
//! out of the slot, puts it back, and passes the turn on by one `fetch_add`. Whoever waits sleeps at its ticket's bell, and is woken
//! by who passes the turn on to it (`bells`).
ghost use Rattle.std.specs.Prelude.{◌≡◌, ◌+◌, ◌-◌, ◌^◌, ◌≤◌, ◌∷◌, ◌<◌, [], true, None, IfOk, IfErr, IfSome, IfNone};
ghost use Rattle.dkg_turn.specs.History.{contains_number, HasSeen};
ghost use Rattle.dkg_turn.specs.Known.{AreDrawn};
ghost use Rattle.dkg_turn.specs.Passes.{first_pass};
ghost use Rattle.dkg_turn.specs.Rules.{drawn, TookNode, rested, MayGive, after_naming, ticket_in, spent, IsNewlyNamed, head_of, tail_of, kept_part, given_part, both_views};
ghost use Rattle.dkg_turn.specs.declared.view.Stage.TheVariants.{Idle, Waits};

use crate::bells::Bells;
use crate::pass::Pass;
use crate::play::{Come, Draw, Halves, Look, Named, PassOn, Settle};
use crate::turn::Turn;
use crate::view::{Law, Node, View};
use atomic_table::{Refused, Seat, Table};
use std::alloc::Global;
use std::marker::Model;
use std::snapshot::Snapshot;
use std::sync::Wait;

pub(crate) type Slot<T> = Option<Node<T, <T as Turn>::Call, <T as Turn>::Reply>>;

pub(crate) type Knows<T> = View<T, <T as Turn>::Call, <T as Turn>::Reply>;

pub(crate) type LockSeat<T> = Seat<Slot<T>, Knows<T>>;

// The word that counts the tickets drawn.
const TICKETS: usize = 0;

// The word that counts the turns passed on. It is the ticket whose turn it is.
const SERVING: usize = 1;

/// A value that callers change in turns, with the history of their calls.
///
/// Contracts see which lock it is, and the value that it began with. Threads share it by reference.
#[derive(Drop)]
pub struct TurnLock<T: Turn> {
    table: Table<Slot<T>, Knows<T>, Snapshot<T>, Law<T>, Global>,
    bells: Bells,
}

impl<T: Turn> Model for TurnLock<T> {
    ghost use Rattle.std.specs.Prelude.{◌≡◌};
    ghost use Rattle.dkg_turn.specs.Known.{Lock};

    ghost Value = { Lock T };

    ghost view = { λ l. record { id = l.table.shared.table_id; start = l.table.shared.key.value } };

    ghost invariant = { λ l. (l.table.shared.table_id.words ≡ 2) × (l.table.shared.table_id.slots ≡ 1) };
}

impl<T: Turn> TurnLock<T> {
    /// A lock round a value, with an empty history, and the first pass, whose number is 0. Where memory runs out, the value comes back.
    pub fn new(alloc: Global, value: T) -> Result<(TurnLock<T>, Pass<T>), T>
        ensures start { IfOk result (λ made. made.0.start ≡ value) }
        ensures pass { IfOk result (λ made. made.1 ≡ first_pass made.0) }
        ensures back { IfErr result (λ refused. refused ≡ value) }
    {
        let Ok(mut slots) = Vec::with_capacity(alloc, 1) else {
            return Err(value);
        };
        let about = Snapshot::of(&value);
        slots.push_reserved(Some(Node {
            value,
            history: Vec::new(alloc),
        }));
        match Table::new(alloc, &[0, 0], slots, &about) {
            Ok((table, seat)) => {
                let bells = Bells::new();
                Ok((TurnLock { table, bells }, Pass::first(seat, &about)))
            }
            Err(Refused { mut slots }) => {
                let Some(Some(node)) = slots.pop() else {
                    unreachable!()
                };
                Err(node.value)
            }
        }
    }

    // Draws a ticket. There is none after 2^64 - 1.
    pub(crate) fn draw<R: Wait>(&self, rt: &R, seat: &mut LockSeat<T>) -> Option<u64>
        requires own { seat.old.table_id ≡ self.now.id }
        requires idle { (seat.old.me.0.stage ≡ Idle) × (0 < seat.old.me.0.parts) }
        ensures own { (seat.new.table_id ≡ seat.old.table_id) × (seat.new.id ≡ seat.old.id) }
        ensures drawn { IfSome result (λ t. seat.new.me ≡ (drawn t seat.old.me.0, seat.old.me.1)) }
        ensures small { IfSome result (λ t. t + 1 < 2 ^ 64) }
        ensures none { IfNone result ((seat.new.me ≡ (spent seat.old.me.0, seat.old.me.1)) × AreDrawn (2 ^ 64 - 1) seat.old.me.0.drew seat.old.me.0.parts) }
        ensures left { IfSome result (λ t. ¬ (seat.old.me.0.exhausted ≡ true)) }
        ensures whole { IfSome result (λ t. seat.old.me.0.parts ≡ 2 ^ 64 → seat.old.me.0.drew ≡ t) }
    {
        for _ in rt.forever() {
            let seen = self.table.shared.load::<Look>(seat, TICKETS);
            if seen == u64::MAX {
                return None;
            }
            let found = self
                .table
                .shared
                .compare_exchange::<Draw>(seat, TICKETS, seen, seen + 1);
            if found == seen {
                return Some(seen);
            }
        }
        unreachable!()
    }

    // Waits for the turn of the ticket, and takes the node out of its slot.
    pub(crate) fn come<R: Wait>(
        &self,
        rt: &R,
        seat: &mut LockSeat<T>,
        ticket: u64,
    ) -> Node<T, T::Call, T::Reply>
        requires own { seat.old.table_id ≡ self.now.id }
        requires waits { (seat.old.me.0.stage ≡ Waits ticket) × (seat.old.me.1 ≡ []) × (0 < seat.old.me.0.parts) }
        ensures own { (seat.new.table_id ≡ seat.old.table_id) × (seat.new.id ≡ seat.old.id) }
        ensures held { seat.new.me.1 ≡ (0, None) ∷ [] }
        ensures took { TookNode T.turns ticket seat.old.me.0 result seat.new.me.0 }
    {
        for _ in rt.forever() {
            let serving = self.table.shared.load::<Come<T>>(seat, SERVING);
            if serving == ticket {
                let Some(node) = self.table.shared.exchange(seat, 0, None) else {
                    unreachable!()
                };
                return node;
            }
            self.sleep(rt, ticket);
        }
        unreachable!()
    }

    // Sleeps at the ticket's bell, unless its turn has come. It may also return for no reason.
    fn sleep<R: Wait>(&self, rt: &R, ticket: u64) {
        let bell = self.bells.of(ticket);
        let rings = bell.enter();
        if self.table.shared.peek(SERVING) != ticket {
            bell.sleep(rt, rings);
        }
        bell.leave();
    }

    // Puts the node back, and passes the turn on.
    pub(crate) fn give(&self, seat: &mut LockSeat<T>, node: Node<T, T::Call, T::Reply>)
        requires own { seat.old.table_id ≡ self.now.id }
        requires taken { seat.old.me.1 ≡ (0, None) ∷ [] }
        requires fit { MayGive T.turns seat.old.me.0 node }
        ensures own { (seat.new.table_id ≡ seat.old.table_id) × (seat.new.id ≡ seat.old.id) }
        ensures given { seat.new.me ≡ (rested (ticket_in seat.old.me.0.stage) node.history.items seat.old.me.0, []) }
    {
        let out = self.table.shared.exchange(seat, 0, Some(node));
        drop(out);
        let served = self.table.shared.fetch_add::<PassOn>(seat, SERVING, 1);
        self.wake(served);
    }

    // The same, and the pass has one more number, which is its ticket plus 1.
    pub(crate) fn give_named(&self, seat: &mut LockSeat<T>, node: Node<T, T::Call, T::Reply>)
        requires own { seat.old.table_id ≡ self.now.id }
        requires taken { seat.old.me.1 ≡ (0, None) ∷ [] }
        requires fit { MayGive T.turns seat.old.me.0 node }
        ensures own { (seat.new.table_id ≡ seat.old.table_id) × (seat.new.id ≡ seat.old.id) }
        ensures given { seat.new.me ≡ (after_naming seat.old.me.0 node.history.items, []) }
        ensures fresh { ¬ (contains_number seat.old.me.0.numbers (ticket_in seat.old.me.0.stage + 1) ≡ true) }
    {
        let out = self.table.shared.exchange(seat, 0, Some(node));
        drop(out);
        let served = self.table.shared.fetch_add::<Named>(seat, SERVING, 1);
        self.wake(served);
    }

    // Wakes the caller of the ticket behind the one served, if it sleeps.
    fn wake(&self, served: u64) {
        self.bells.of(served.wrapping_add(1)).ring();
    }

    // Cuts the view of a pass that was newly named in two.
    pub(crate) fn cut(&self, seat: &mut LockSeat<T>) -> LockSeat<T>
        requires own { seat.old.table_id ≡ self.now.id }
        requires idle { seat.old.me.0.stage ≡ Idle }
        requires named { IsNewlyNamed seat.old.me.0 }
        requires two { 2 ≤ seat.old.me.0.parts }
        ensures own { (seat.new.table_id ≡ seat.old.table_id) × (result.table_id ≡ seat.old.table_id) }
        ensures kept { seat.new.me ≡ (kept_part (tail_of seat.old.me.0.numbers) seat.old.me.0, seat.old.me.1) }
        ensures given { result.me ≡ (given_part (head_of seat.old.me.0.numbers) seat.old.me.0, []) }
    {
        self.table.shared.split_seat::<Halves>(seat)
    }

    // Joins the view of another pass to this one, and then looks that both pasts lie in one history.
    pub(crate) fn merge(&self, seat: &mut LockSeat<T>, other: LockSeat<T>)
        requires own { (seat.old.table_id ≡ self.now.id) × (other.table_id ≡ self.now.id) }
        requires idle { (seat.old.me.0.stage ≡ Idle) × (other.me.0.stage ≡ Idle) }
        requires some_part { 0 < seat.old.me.0.parts }
        requires taken { (seat.old.me.1 ≡ []) × (other.me.1 ≡ []) }
        ensures own { seat.new.table_id ≡ seat.old.table_id }
        ensures both { seat.new.me ≡ (both_views seat.old.me.0 other.me.0, []) }
        ensures seen { HasSeen seat.old.me.0.numbers seat.old.me.0.seen seat.new.me.0.seen }
        ensures theirs { HasSeen other.me.0.numbers other.me.0.seen seat.new.me.0.seen }
        ensures told { seat.new.me.0.exhausted ≡ true → AreDrawn (2 ^ 64 - 1) seat.new.me.0.drew seat.new.me.0.parts }
    {
        self.table.shared.join_seat::<Halves>(seat, other);
        self.table.shared.load::<Settle>(seat, TICKETS);
    }
}
