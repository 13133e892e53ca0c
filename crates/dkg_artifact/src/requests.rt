//! Requests for a final block's payload, in the order in which they came, each with the ancestry that it was fed.
//!
//! Each that waits has a rank, and a tree has the requests by rank, a second one the ranks by number. So whatever is done to the
//! requests of a number costs the logarithm of how many wait, for each of them. A tree is looked through from its front, and what is done
//! is mostly done to a new request, whose number mostly is the greatest: so ranks fall in the order of the requests, and the greatest
//! number is the first.
ghost use Rattle.std.specs.Prelude.{◌≡◌, ◌+◌, ◌^◌, ◌<◌, ◌++◌, ◌∷◌, [], OnOk, OnErr, IfOk, IfSome, IfNone, None, filter, length, map};
ghost use Rattle.std.specs.BTreeMap.{IsOrdered, get, insert_entry, values};
ghost use Rattle.std.specs.Ordering.{nat_cmp};
ghost use Rattle.dkg_artifact.specs.Requested.{ended_for, fed_for, is_other};
ghost use Rattle.dkg_artifact.specs.Ranks.{AreKnown, IsAbove, IsBelow, IsNextRank, changed_at, KeepsNumbers};

use dkg_ceremony::Mem;
use dkg_infos::Directory;
use dkg_types::Block;
use dkg_values::{NoMemory, Value};
use std::alloc::Global;
use std::cmp::Reverse;
use std::collections::{BTreeMap, BTreeSet};
use std::marker::Model;
use std::ops::Bound;

/// The rank of a request where no other waits. Later ones get ranks below it, and those that are put back get ranks above it.
const MIDDLE: u64 = 1 << 63;

/// Blocks in the order in which they were fed, each the parent of the one before.
#[derive(Drop)]
pub struct Path<Dir: Directory>(pub Vec<Block<Dir>>);

impl<Dir: Directory> Model for Path<Dir> {
    ghost use Rattle.std.specs.Prelude.{List};
    ghost use Rattle.dkg_types.specs.Blocks.{Block};

    ghost Value = { List (Block Dir) };

    ghost view = { λ p. p.0.items };
}

/// A request, what it was fed of the ancestry so far, and whether that has ended.
#[derive(Drop)]
pub struct Request<Dir: Directory> {
    pub number: u64,
    pub blocks: Path<Dir>,
    pub ended: bool,
}

impl<Dir: Directory> Model for Request<Dir> {
    ghost use Rattle.dkg_artifact.specs.Requested.{WaitingRequest as Seen};

    ghost Value = { Seen Dir };

    ghost view = { λ r. record { number = r.number; blocks = r.blocks; ended = r.ended } };
}

impl<Dir: Directory> Request<Dir> {
    /// Ends the ancestry, where the request is of this number.
    fn end(&mut self, number: u64)
        ensures { self.new ≡ ended_for number self.old }
    {
        if self.number == number {
            self.ended = true;
        }
    }
}

/// Makes room for a first block, and for no more, since many a request is fed no second one while it waits.
fn make_room<Dir: Directory + Drop>(blocks: &mut Vec<Block<Dir>>) -> Mem<()>
    ensures { blocks.new.items ≡ blocks.old.items }
{
    if blocks.is_empty() {
        blocks.reserve_exact(1)?;
    }
    Ok(())
}

/// Adds a copy of a block.
fn add<Dir: Directory + Drop>(
    alloc: Global,
    blocks: &mut Vec<Block<Dir>>,
    block: &Block<Dir>,
) -> Mem<()>
    ensures { OnOk result (blocks.new.items ≡ blocks.old.items ++ block.now ∷ []) }
{
    let copy = block.copy(alloc)?;
    make_room(blocks)?;
    blocks.push(copy)?;
    Ok(())
}

impl<Dir: Directory + Drop> Request<Dir> {
    /// Feeds a block, where the request is of this number and its ancestry has not ended.
    fn feed(&mut self, alloc: Global, number: u64, block: &Block<Dir>) -> Mem<()>
        ensures ok { OnOk result (self.new ≡ fed_for number block.now self.old) }
        ensures number { self.new.number ≡ self.old.number }
    {
        if self.number == number && !self.ended {
            add(alloc, &mut self.blocks.0, block)?;
        }
        Ok(())
    }
}

/// Requests that wait, the first first.
#[derive(Drop)]
pub struct Requests<Dir: Directory> {
    /// By their ranks, the newest first.
    waiting: BTreeMap<u64, Request<Dir>>,
    /// The number and the rank of each, the greatest number first.
    numbers: BTreeSet<(Reverse<u64>, u64)>,
}

impl<Dir: Directory> Model for Requests<Dir> {
    ghost use Rattle.std.specs.Prelude.{List, reverse};
    ghost use Rattle.std.specs.BTreeMap.{values};
    ghost use Rattle.dkg_artifact.specs.Requested.{WaitingRequest as Seen};
    ghost use Rattle.dkg_artifact.specs.Ranks.{AreKnown};

    ghost Value = { List (Seen Dir) };

    ghost view = { λ r. reverse (values r.waiting) };

    ghost invariant = { λ r. AreKnown r.numbers r.waiting };
}

/// A rank above all of these. Where no number of 64 bits is left for one, it is as if memory ran out.
fn above<Dir: Directory>(waiting: &BTreeMap<u64, Request<Dir>>) -> Mem<u64>
    ensures { IfOk result (λ rank. IsAbove rank waiting.now) }
{
    let Some((last, _)) = waiting.last_key_value() else {
        return Ok(MIDDLE);
    };
    match last.checked_add(1) {
        Some(rank) => Ok(rank),
        None => Err(NoMemory),
    }
}

/// .. below all of them
fn below<Dir: Directory>(waiting: &BTreeMap<u64, Request<Dir>>) -> Mem<u64>
    ensures { IfOk result (λ rank. IsBelow rank waiting.now) }
{
    let Some((first, _)) = waiting.first_key_value() else {
        return Ok(MIDDLE);
    };
    match first.checked_sub(1) {
        Some(rank) => Ok(rank),
        None => Err(NoMemory),
    }
}

/// Puts a request at a rank where none waits. Where memory runs out all is as before.
fn put<Dir: Directory + Drop>(
    waiting: &mut BTreeMap<u64, Request<Dir>>,
    numbers: &mut BTreeSet<(Reverse<u64>, u64)>,
    rank: u64,
    request: Request<Dir>,
) -> Mem<()>
    requires known { AreKnown numbers.old waiting.old }
    requires free { get nat_cmp waiting.old rank ≡ None }
    ensures ok { OnOk result (waiting.new.entries ≡ insert_entry nat_cmp waiting.old.entries rank request) }
    ensures err { OnErr result (waiting.new.entries ≡ waiting.old.entries) }
    ensures known { AreKnown numbers.new waiting.new }
{
    let pair = (Reverse(request.number), rank);
    numbers.insert(pair)?;
    match waiting.insert(rank, request) {
        Ok(_) => Ok(()),
        Err(_) => {
            numbers.remove(&pair);
            Err(NoMemory)
        }
    }
}

/// The first rank at which a request of a number waits.
fn first_of(numbers: &BTreeSet<(Reverse<u64>, u64)>, number: u64) -> Option<u64>
    ensures { IsNextRank numbers.now number 0 result }
{
    match numbers.range((Reverse(number), 0)..).next() {
        Some(pair) if pair.0.0 == number => Some(pair.1),
        _ => None,
    }
}

/// .. behind a rank
fn next_of(numbers: &BTreeSet<(Reverse<u64>, u64)>, number: u64, rank: u64) -> Option<u64>
    ensures next { IsNextRank numbers.now number (rank + 1) result }
    ensures fits { rank < 2 ^ 64 }
{
    let from = Bound::Excluded((Reverse(number), rank));
    match numbers.range((from, Bound::Unbounded)).next() {
        Some(pair) if pair.0.0 == number => Some(pair.1),
        _ => None,
    }
}

/// Ends the ancestry of the request at a rank, where it is of this number.
fn end_at<Dir: Directory>(waiting: &mut BTreeMap<u64, Request<Dir>>, rank: u64, number: u64)
    ensures entries { waiting.new.entries ≡ changed_at rank (ended_for number) waiting.old.entries }
    ensures numbers { KeepsNumbers waiting.old waiting.new }
    ensures ordered { IsOrdered nat_cmp waiting.new }
{
    if let Some(request) = waiting.get_mut(&rank) {
        request.end(number);
    }
}

/// Ends the ancestry of each request of a number.
fn end_each<Dir: Directory>(
    waiting: &mut BTreeMap<u64, Request<Dir>>,
    numbers: &BTreeSet<(Reverse<u64>, u64)>,
    number: u64,
)
    requires known { AreKnown numbers.now waiting.old }
    ensures values { values waiting.new ≡ map (ended_for number) (values waiting.old) }
    ensures known { AreKnown numbers.now waiting.new }
{
    let mut next = first_of(numbers, number);
    while let Some(rank) = next {
        end_at(waiting, rank, number);
        next = next_of(numbers, number, rank);
    }
}

/// Feeds a block to the request at a rank, where it is of this number.
fn feed_at<Dir: Directory + Drop>(
    alloc: Global,
    waiting: &mut BTreeMap<u64, Request<Dir>>,
    rank: u64,
    number: u64,
    block: &Block<Dir>,
) -> Mem<()>
    ensures entries { OnOk result (waiting.new.entries ≡ changed_at rank (fed_for number block.now) waiting.old.entries) }
    ensures same { map (λ r. r.number) (values waiting.new) ≡ map (λ r. r.number) (values waiting.old) }
    ensures numbers { KeepsNumbers waiting.old waiting.new }
    ensures ordered { IsOrdered nat_cmp waiting.new }
{
    match waiting.get_mut(&rank) {
        Some(request) => request.feed(alloc, number, block),
        None => Ok(()),
    }
}

/// Feeds a block to each request of a number.
fn feed_each<Dir: Directory + Drop>(
    alloc: Global,
    waiting: &mut BTreeMap<u64, Request<Dir>>,
    numbers: &BTreeSet<(Reverse<u64>, u64)>,
    number: u64,
    block: &Block<Dir>,
) -> Mem<()>
    requires known { AreKnown numbers.now waiting.old }
    ensures values { OnOk result (values waiting.new ≡ map (fed_for number block.now) (values waiting.old)) }
    ensures same { map (λ r. r.number) (values waiting.new) ≡ map (λ r. r.number) (values waiting.old) }
    ensures known { AreKnown numbers.now waiting.new }
{
    let mut next = first_of(numbers, number);
    while let Some(rank) = next {
        feed_at(alloc, waiting, rank, number, block)?;
        next = next_of(numbers, number, rank);
    }
    Ok(())
}

/// Takes each request of a number away.
fn remove_each<Dir: Directory + Drop>(
    waiting: &mut BTreeMap<u64, Request<Dir>>,
    numbers: &mut BTreeSet<(Reverse<u64>, u64)>,
    number: u64,
)
    requires known { AreKnown numbers.old waiting.old }
    ensures values { values waiting.new ≡ filter (is_other number) (values waiting.old) }
    ensures known { AreKnown numbers.new waiting.new }
{
    while let Some(rank) = first_of(numbers, number) {
        waiting.remove(&rank);
        numbers.remove(&(Reverse(number), rank));
    }
}

impl<Dir: Directory> Requests<Dir> {
    /// No request. It takes no memory.
    pub fn new(alloc: Global) -> Requests<Dir>
        ensures { result ≡ [] }
    {
        Requests {
            waiting: BTreeMap::new(alloc),
            numbers: BTreeSet::new(alloc),
        }
    }

    /// The first request, if one waits.
    pub fn pop(&mut self) -> Option<Request<Dir>>
        ensures first { IfSome result (λ request. self.old ≡ request ∷ self.new) }
        ensures none { IfNone result ((self.old ≡ []) × (self.new ≡ [])) }
    {
        let (rank, request) = self.waiting.pop_last()?;
        self.numbers.remove(&(Reverse(request.number), rank));
        Some(request)
    }

    /// How many requests wait.
    pub fn len(&self) -> usize
        ensures { result ≡ length self.now }
    {
        self.waiting.len()
    }

    /// The ancestry of the requests of a number has ended.
    pub fn end(&mut self, number: u64)
        ensures { self.new ≡ map (ended_for number) self.old }
    {
        end_each(&mut self.waiting, &self.numbers, number);
    }
}

impl<Dir: Directory + Drop> Requests<Dir> {
    /// Puts a request last. Where memory runs out all is as before, and the request is given up.
    pub fn push(&mut self, request: Request<Dir>) -> Mem<()>
        ensures ok { OnOk result (self.new ≡ self.old ++ request ∷ []) }
        ensures err { OnErr result (self.new ≡ self.old) }
    {
        let rank = below(&self.waiting)?;
        put(&mut self.waiting, &mut self.numbers, rank, request)
    }

    /// Puts a request back to the front, as one whose scan a finalized block took away. Where memory runs out all is as before, and the
    /// request is given up.
    pub fn push_front(&mut self, request: Request<Dir>) -> Mem<()>
        ensures ok { OnOk result (self.new ≡ request ∷ self.old) }
        ensures err { OnErr result (self.new ≡ self.old) }
    {
        let rank = above(&self.waiting)?;
        put(&mut self.waiting, &mut self.numbers, rank, request)
    }

    /// Feeds a block to the requests of a number whose ancestry has not ended. Where memory runs out the same requests wait, of which some may have been fed.
    pub fn feed(&mut self, alloc: Global, number: u64, block: &Block<Dir>) -> Mem<()>
        ensures ok { OnOk result (self.new ≡ map (fed_for number block.now) self.old) }
        ensures same { map (λ r. r.number) self.new ≡ map (λ r. r.number) self.old }
    {
        feed_each(alloc, &mut self.waiting, &self.numbers, number, block)
    }

    /// Takes the requests of a number away.
    pub fn remove(&mut self, number: u64)
        ensures { self.new ≡ filter (is_other number) self.old }
    {
        remove_each(&mut self.waiting, &mut self.numbers, number);
    }
}

impl<Dir: Directory + Drop> Value for Path<Dir> {
    fn copy(&self, alloc: Global) -> Mem<Path<Dir>> {
        let mut blocks = Vec::with_capacity(alloc, self.0.len())?;
        for block in &self.0 {
            blocks.push(block.copy(alloc)?)?;
        }
        Ok(Path(blocks))
    }

    fn same(&self, other: &Path<Dir>) -> bool {
        if self.0.len() != other.0.len() {
            return false;
        }
        for i in 0..self.0.len() {
            if !self.0[i].same(&other.0[i]) {
                return false;
            }
        }
        true
    }
}

impl<Dir: Directory + Drop> Value for Request<Dir> {
    fn copy(&self, alloc: Global) -> Mem<Request<Dir>> {
        Ok(Request {
            number: self.number,
            blocks: self.blocks.copy(alloc)?,
            ended: self.ended,
        })
    }

    fn same(&self, other: &Request<Dir>) -> bool {
        self.number == other.number && self.ended == other.ended && self.blocks.same(&other.blocks)
    }
}
