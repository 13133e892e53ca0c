//! What lies in the slot of a lock, what a pass knows, and the rule that ties them. Only `lock` and `pass` use these.
use crate::turn::{HistoryEntry, Turn};
use atomic_table::TableRule;
use std::collections::LinkedList;
use std::marker::PhantomData;
use std::snapshot::Snapshot;

/// The value behind the lock, with its history.
#[derive(Drop)]
pub struct Node<T, C, R> {
    pub value: T,
    pub history: Vec<HistoryEntry<C, R>>,
}

/// Where a pass is. The number is its ticket.
pub enum Stage {
    Idle,
    Waits(u64),
    Holds(u64),
}

/// What a pass knows. No value of it is made.
pub struct View<T, C, R> {
    /// The value that the lock began with. A pass that was joined to another has none.
    pub start: Option<T>,
    pub stage: Stage,
    /// The callers' numbers that are this pass's.
    pub numbers: LinkedList<u64>,
    /// The history as far as it was seen.
    pub seen: LinkedList<HistoryEntry<C, R>>,
    /// The turns of all tickets below were passed on.
    pub next: u64,
    /// How many tickets it drew.
    pub drew: u64,
    pub parts: u64,
    /// It was told that no ticket is left.
    pub exhausted: bool,
    /// What a pass that was joined had seen.
    pub also: LinkedList<HistoryEntry<C, R>>,
    pub also_of: LinkedList<u64>,
    /// What it had seen itself before.
    pub ours: LinkedList<HistoryEntry<C, R>>,
    pub ours_of: LinkedList<u64>,
}

/// The rule of the table.
pub struct Law<T> {
    of: PhantomData<T>,
}

impl<T: Turn> TableRule<Option<Node<T, T::Call, T::Reply>>, View<T, T::Call, T::Reply>, Snapshot<T>>
    for Law<T> {
    ghost use Rattle.dkg_turn.specs.Rules.{KeepsLockRule, first_view};

    ghost holds = { λ key. KeepsLockRule T.turns key.value };

    ghost first = { λ key. first_view key.value };
}
