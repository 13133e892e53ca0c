//! Reads the ancestry of a block downward, one block at a time, for the logs of an epoch's dealers above a tip.
//!
//! A block is looked at once and not kept; of the logs only the lowest of each dealer is.
ghost use Rattle.std.specs.Prelude.{◌≡◌, ◌↔◌, ◌+◌, ◌<◌, ◌^◌, [], IfOk, OnOk, OnErr, IfSome, IsTrue, option_and_then};
ghost use Rattle.std.specs.Option.{option_copied};
ghost use Rattle.dkg_types.specs.PayloadCodes.{its_log};
ghost use Rattle.dkg_artifact.specs.Ancestries.{SaysOfPath, StandsAtPath};
ghost use Rattle.dkg_artifact.specs.Scans.{IsAwaiting, added, closes, counted_log, feeds, first_answer, first_next, names_another, link_of, lowest, passes, stand_of, starts, tip_below, with_lower};

use crate::lowest::Lowest;
use dkg_ceremony::{Bounds, Ceremony, DealerLog, Round, SignedDealerLog};
use dkg_infos::{Directory, Why};
use dkg_types::{Block, Payload, ReshareBlock};
use dkg_values::{Digest, Height, Key, Map, Mem, Value};
use std::alloc::Global;
use std::marker::Model;

/// The last block that a node has processed: its height, and the digest by which the next one names it.
#[derive(Clone, Copy, Debug, PartialEq, Eq)]
pub struct Tip {
    pub height: Height,
    pub digest: Digest,
}

/// What a scan answers to a block.
#[derive(Drop)]
pub enum Fed {
    /// The next lower block is needed.
    Need,
    /// The logs above the tip, the lowest of each dealer.
    Logs(Map<DealerLog>),
    /// The ancestry is none that the scan can read.
    Unavailable(Why),
}

/// The block that a scan reads next.
#[derive(Clone, Copy)]
struct Next {
    height: Height,
    /// The digest that the block above names, where one was read.
    digest: Option<Digest>,
}

impl Model for Next {
    ghost use Rattle.dkg_artifact.specs.Seen.{Next as Seen};

    ghost Value = { Seen };

    ghost view = { λ n. record { height = n.height; digest = n.digest } };

    ghost inverse = { λ n. record { height = n.height; digest = n.digest } };
}

/// What a block is to a scan.
#[derive(Clone, Copy, Debug, PartialEq, Eq)]
enum Stand {
    /// The epoch's final block, whose parent is next.
    Final,
    /// A block with needed blocks below.
    Between,
    /// The lowest block.
    Lowest,
    /// A block that doesn't belong there.
    Refused(Why),
}

/// A scan of an ancestry, from an epoch's final block or its parent down to the midpoint or the tip's successor. Contracts see its bounds, its
/// round, what it reads next, and the logs that it has found.
#[derive(Drop)]
pub struct Scan {
    round: Round,
    /// The height of the epoch's final block.
    last: Height,
    /// The last needed height.
    down_to: Height,
    /// The digest that the lowest link has to be, where the tip's successor is the last needed height.
    below: Option<Digest>,
    /// What is read next; nothing once the scan has answered.
    next: Option<Next>,
    found: Lowest,
}

impl Model for Scan {
    ghost use Rattle.dkg_artifact.specs.Seen.{Scan as Seen};

    ghost Value = { Seen };

    ghost view = { λ s. record { round = s.round; last = s.last; down_to = s.down_to; below = s.below; next = s.next; found = s.found } };
}

/// The last needed height: the midpoint, or the successor of a tip at or above it.
fn lowest_height(midpoint: Height, tip: Option<Tip>) -> Height
    requires { IfSome tip (λ t. t.height + 1 < 2 ^ 64) }
    ensures { result ≡ lowest midpoint tip }
{
    match tip {
        Some(tip) if tip.height.0 >= midpoint.0 => Height(tip.height.0 + 1),
        _ => midpoint,
    }
}

/// The tip's digest, where the tip's successor is the last needed height.
fn digest_below(midpoint: Height, down_to: Height, tip: Option<Tip>) -> Option<Digest>
    requires small { IfSome tip (λ t. t.height + 1 < 2 ^ 64) }
    requires lowest { down_to ≡ lowest midpoint tip }
    ensures { result ≡ tip_below midpoint tip }
{
    match tip {
        Some(tip) if tip.height.0 + 1 == down_to.0 => Some(tip.digest),
        _ => None,
    }
}

/// Where a scan begins to read, unless it needs no block.
fn first_of(last: Height) -> Option<Next>
    ensures { result ≡ first_next last }
{
    if last.0 == 0 {
        None
    } else {
        Some(Next {
            height: Height(last.0 - 1),
            digest: None,
        })
    }
}

/// Whether a digest is named, and another than this.
fn is_other(named: Option<Digest>, digest: Digest) -> bool
    ensures { result ≡ names_another named digest }
{
    match named {
        Some(named) => named != digest,
        None => false,
    }
}

/// The digest that the tip has to have: the block's own, where nothing above the tip is needed.
fn link_of<Dir: Directory>(down_to: Height, block: &Block<Dir>) -> Digest
    ensures { result ≡ link_of down_to block.now }
{
    if block.height().0 < down_to.0 {
        block.digest()
    } else {
        block.parent()
    }
}

/// The log that a block carries, if it carries one.
fn log_in<Dir: Directory>(block: &Block<Dir>) -> Option<&SignedDealerLog>
    ensures { option_copied result ≡ option_and_then its_log block.now.payload }
{
    match block.payload() {
        Some(Payload::DealerLog(signed)) => Some(signed),
        Some(Payload::EpochInfo(_)) | None => None,
    }
}

/// A copy of the log that a block carries, where it counts.
fn counted_log<C: Ceremony, Dir: Directory>(
    alloc: Global,
    ceremony: &C,
    round: &Round,
    block: &Block<Dir>,
) -> Mem<Option<(Key, DealerLog)>>
    ensures { IfOk result (λ log. log ≡ counted_log C.check_log_of round.now (option_and_then its_log block.now.payload)) }
{
    let Some(signed) = log_in(block) else {
        return Ok(None);
    };
    if !round.parts().dealers.has(signed.dealer) || !ceremony.check_log(alloc, round, signed)? {
        return Ok(None);
    }
    Ok(Some((signed.dealer, signed.log.copy(alloc)?)))
}

impl Scan {
    /// Whether the scan awaits a block: its last answer was `Need`.
    pub fn awaits(&self) -> bool
        ensures { IsTrue result ↔ IsAwaiting self.now }
    {
        self.next.is_some()
    }

    /// Starts a scan of the blocks of an epoch above a tip. A final height of 0 needs no block; else the first answer is `Need`.
    pub fn start<C: Ceremony, Dir: Directory>(
        alloc: Global,
        _ceremony: &C,
        round: &Round,
        bounds: Bounds,
        tip: Option<Tip>,
    ) -> Mem<(Scan, Fed)>
        requires { IfSome tip (λ t. t.height < bounds.last) }
        ensures scan { IfOk result (λ r. r.0 ≡ starts round.now bounds tip) }
        ensures answer { IfOk result (λ r. r.1 ≡ first_answer bounds.last) }
        ensures awaits { IfOk result (λ r. r.1 ≡ Fed.Need → IsAwaiting r.0) }
        ensures begins { 0 < bounds.last → IfOk result (λ r. StandsAtPath {Dir = Dir} C.check_log_of round.now bounds tip [] r.0) }
    {
        let down_to = lowest_height(bounds.midpoint, tip);
        let scan = Scan {
            round: round.copy(alloc)?,
            last: bounds.last,
            down_to,
            below: digest_below(bounds.midpoint, down_to, tip),
            next: first_of(bounds.last),
            found: Lowest::new(alloc),
        };
        let answer = if bounds.last.0 == 0 {
            Fed::Logs(Map::from_any(alloc, Vec::new(alloc))?)
        } else {
            Fed::Need
        };
        Ok((scan, answer))
    }

    /// What a block is to the scan.
    fn stand<Dir: Directory>(&self, next: Next, block: &Block<Dir>) -> Stand
        ensures { result ≡ stand_of self.now next block.now }
    {
        let height = block.height();
        if next.digest.is_none() && height == self.last {
            return Stand::Final;
        }
        if height != next.height {
            return Stand::Refused(Why::WrongHeight {
                awaited: next.height,
                got: height,
            });
        }
        if is_other(next.digest, block.digest()) {
            return Stand::Refused(Why::Unlinked { height });
        }
        if height.0 > self.down_to.0 {
            return Stand::Between;
        }
        if is_other(self.below, link_of(self.down_to, block)) {
            return Stand::Refused(Why::Detached { height });
        }
        Stand::Lowest
    }

    /// Goes on below a block.
    fn pass<Dir: Directory>(&mut self, block: &Block<Dir>)
        ensures { self.new ≡ passes self.old block.now self.old.found }
    {
        self.next = Some(Next {
            height: Height(block.height().0.saturating_sub(1)),
            digest: Some(block.parent()),
        });
    }

    /// Reads no more.
    fn close(&mut self)
        ensures { self.new ≡ closes self.old }
    {
        self.next = None;
        self.found.clear();
    }

    /// The log that a needed block adds, if it adds one.
    fn added<C: Ceremony, Dir: Directory>(
        &self,
        alloc: Global,
        ceremony: &C,
        block: &Block<Dir>,
    ) -> Mem<Option<(Key, DealerLog)>>
        ensures { IfOk result (λ log. log ≡ added C.check_log_of self.now.round self.now.down_to block.now) }
    {
        if block.height().0 < self.down_to.0 {
            return Ok(None);
        }
        counted_log(alloc, ceremony, &self.round, block)
    }

    /// Reads a block above the lowest one.
    fn read<C: Ceremony, Dir: Directory>(
        &mut self,
        alloc: Global,
        ceremony: &C,
        block: &Block<Dir>,
    ) -> Mem<Fed>
        ensures ok { IfOk result (λ fed. fed ≡ Fed.Need) }
        ensures done { OnOk result (self.new ≡ passes self.old block.now (with_lower C.check_log_of self.old block.now)) }
        ensures err { OnErr result (self.new ≡ self.old) }
    {
        let log = self.added(alloc, ceremony, block)?;
        self.found.add(log)?;
        self.pass(block);
        Ok(Fed::Need)
    }

    /// Reads the lowest block.
    fn finish<C: Ceremony, Dir: Directory>(
        &mut self,
        alloc: Global,
        ceremony: &C,
        block: &Block<Dir>,
    ) -> Mem<Fed>
        ensures ok { IfOk result (λ fed. fed ≡ Fed.Logs (with_lower C.check_log_of self.old block.now)) }
        ensures done { OnOk result (self.new ≡ closes self.old) }
        ensures err { OnErr result (self.new ≡ self.old) }
    {
        let log = self.added(alloc, ceremony, block)?;
        let logs = self.found.finish(alloc, log)?;
        self.next = None;
        Ok(Fed::Logs(logs))
    }

    /// What a block is answered by.
    fn answer<C: Ceremony, Dir: Directory>(
        &mut self,
        alloc: Global,
        ceremony: &C,
        block: &Block<Dir>,
    ) -> Mem<Fed>
        requires { IsAwaiting self.old }
        ensures ok { IfOk result (λ fed. (fed, self.new) ≡ feeds C.check_log_of self.old block.now) }
        ensures awaits { IfOk result (λ fed. fed ≡ Fed.Need → IsAwaiting self.new) }
        ensures err { OnErr result (self.new ≡ self.old) }
    {
        let Some(next) = self.next else {
            unreachable!()
        };
        match self.stand(next, block) {
            Stand::Final => {
                self.pass(block);
                Ok(Fed::Need)
            }
            Stand::Between => self.read(alloc, ceremony, block),
            Stand::Lowest => self.finish(alloc, ceremony, block),
            Stand::Refused(why) => {
                self.close();
                Ok(Fed::Unavailable(why))
            }
        }
    }

    /// Reads a block: the epoch's final one or its parent first, and then each block's parent. Where memory runs out all is as before.
    pub fn feed<C: Ceremony, Dir: Directory>(
        &mut self,
        alloc: Global,
        ceremony: &C,
        block: &Block<Dir>,
    ) -> Mem<Fed>
        requires { IsAwaiting self.old }
        ensures ok { IfOk result (λ fed. (fed, self.new) ≡ feeds C.check_log_of self.old block.now) }
        ensures awaits { IfOk result (λ fed. fed ≡ Fed.Need → IsAwaiting self.new) }
        ensures says { IfOk result (λ fed. SaysOfPath C.check_log_of self.old block.now fed self.new) }
        ensures err { OnErr result (self.new ≡ self.old) }
    {
        self.answer(alloc, ceremony, block)
    }

    /// The ancestry has ended.
    pub fn end(&mut self) -> Fed
        requires { IsAwaiting self.old }
        ensures answer { result ≡ Fed.Unavailable Why.Short }
        ensures closed { self.new ≡ closes self.old }
    {
        self.close();
        Fed::Unavailable(Why::Short)
    }
}

impl Value for Fed {
    fn copy(&self, alloc: Global) -> Mem<Fed> {
        match self {
            Fed::Need => Ok(Fed::Need),
            Fed::Logs(logs) => Ok(Fed::Logs(logs.copy(alloc)?)),
            Fed::Unavailable(why) => Ok(Fed::Unavailable(*why)),
        }
    }

    fn same(&self, other: &Fed) -> bool {
        match (self, other) {
            (Fed::Need, Fed::Need) => true,
            (Fed::Logs(one), Fed::Logs(two)) => one.same(two),
            (Fed::Unavailable(one), Fed::Unavailable(two)) => *one == *two,
            _ => false,
        }
    }
}
