//! A probe behind a lock.
ghost use Rattle.std.specs.Prelude.{◌≡◌, IfOk};
ghost use Rattle.dkg_probe.specs.Mailboxes.{Meets};
ghost use Rattle.dkg_turn.specs.Passes.{IsPassOf};

use crate::asserts::{holds, is};
use dkg_cases::{HeldBlocks, PlainProbe, held_blocks, plain_probe};
use dkg_ceremony::{Mem, Value};
use dkg_infos::{Directory, Transcript, Unit};
use dkg_probe::{Actor, Artifact, Blocks, Event, HasProbe, Mailbox, ProbeStop};
use dkg_turn::{Carries, Pass, Turn, TurnError, TurnLock, Turned};
use dkg_types::{Manager, Scheme};
use std::alloc::Global;
use std::sync::Wait;
use std::test::Fail;

/// One event of a probe of any parts, and the answer to it, twice.
#[tactic(auto, using(dkg_probe::proofs::Subscribing::meets_known))]
fn answered<M: Manager<Dir = Dir>, S: Scheme, Dir: Directory + Drop, B: Blocks<Dir>>(
    alloc: Global,
    probe: &mut Actor<M, S, Dir>,
    source: &B,
    event: &Event,
    out: &mut Transcript,
) -> Result<(Option<Artifact<Dir>>, Option<Artifact<Dir>>), ProbeStop>
where
    Dir::Cfg: Drop,
    ensures answer { IfOk result (λ pair. Meets probe.new.state.known event.now pair.0) }
    ensures again { IfOk result (λ pair. pair.1 ≡ pair.0) }
{
    let event = event.copy(alloc)?;
    probe.step(alloc, source, event, out)?;
    match probe.artifact() {
        None => Ok((None, None)),
        Some(known) => Ok((Some(known.copy(alloc)?), Some(known.copy(alloc)?))),
    }
}

/// A probe behind a lock, with its source. Want of memory stops it.
#[derive(Drop)]
struct Node {
    probe: PlainProbe,
    source: HeldBlocks,
    out: Transcript,
    stopped: bool,
}

type Answer = Option<Artifact<Unit>>;

impl Node {
    /// One event, and the answer to it, twice.
    fn take(&mut self, alloc: Global, event: &Event) -> Result<(Answer, Answer), ProbeStop>
        ensures answer { IfOk result (λ pair. Meets self.new.probe.state.known event.now pair.0) }
        ensures again { IfOk result (λ pair. pair.1 ≡ pair.0) }
        ensures runs { self.new.stopped ≡ self.old.stopped }
    {
        answered(alloc, &mut self.probe, &self.source, event, &mut self.out)
    }
}

impl Turn for Node {
    type Call = Event;

    type Reply = Option<Answer>;

    ghost use Rattle.std.specs.Prelude.{◌≡◌, ◌↔◌, Option, Some, None, IsNone, true, if◌then◌else◌};
    ghost use Rattle.dkg_probe.specs.Mailboxes.{Meets};
    ghost use Rattle.dkg_probe.specs.declared.artifact.Artifact.{Artifact as Found};
    ghost use Rattle.dkg_infos.specs.declared.directory.Unit.{Unit as Nothing};

    ghost turns = { λ before call reply after. ((answer : Option (Found Nothing)) → reply ≡ Some answer → Meets after.probe.state.known call answer)
        × (IsNone reply ↔ (after.stopped ≡ true)) × (before.stopped ≡ true → after ≡ before) };

    ghost same = { λ one other. one ≡ other };

    ghost told = { λ node number. if node.stopped then Some None else None };

    fn turn(&mut self, alloc: Global, call: &Event) -> (Option<Answer>, Option<Answer>) {
        if self.stopped {
            return (None, None);
        }
        match self.take(alloc, call) {
            Ok((kept, given)) => (Some(kept), Some(given)),
            Err(_) => {
                self.stopped = true;
                (None, None)
            }
        }
    }

    fn reply(&self, _alloc: Global, _number: u64) -> Mem<Option<Option<Answer>>> {
        if self.stopped {
            Ok(Some(None))
        } else {
            Ok(None)
        }
    }
}

impl Carries<Event, Answer> for Node {
    ghost use Rattle.std.specs.Prelude.{◌≡◌, Some, None, true, false};
    ghost use Rattle.std.proofs.Common.{rules};
    ghost use Rattle.dkg_probe.specs.Mailboxes.{Meets};
    ghost use Rattle.dkg_probe.specs.declared.event.Event.{Event};

    ghost posted = { λ message. message };

    ghost answered = { λ reply. reply };

    ghost stopped = { λ before call reply after. after.stopped ≡ true };

    ghost meets = { λ node message answer. Meets node.probe.state.known message answer };

    ghost carried = { λ before message reply after answer turned said. turned.0 answer said };

    ghost answerless = { λ before message reply after turned. turned.1 };

    ghost ends = { λ before call reply after turned stop. Prim.search rules };

    ghost leads_on = { λ node. record {
      before = record node { stopped = false };
      message = Event.Attach;
      reply = Some None;
      after = record node { stopped = false };
      turned = Prim.search rules;
      goes_on = Prim.search rules;
    } };

    fn call_of(message: Event) -> Event {
        message
    }

    fn answer_of(reply: Option<Answer>) -> Option<Answer> {
        reply
    }
}

impl HasProbe<Unit> for Node {
    ghost known = { λ node. node.probe.state.known };

    ghost owes = { λ core event answer met. met };

    fn artifact(&self) -> Option<&Artifact<Unit>> {
        self.probe.artifact()
    }
}

/// A lock round a value, with its first pass.
fn locked<T: Turn>(alloc: Global, value: T) -> Result<(TurnLock<T>, Pass<T>), Fail>
    ensures { IfOk result (λ made. IsPassOf made.0 made.1) }
{
    match TurnLock::new(alloc, value) {
        Ok(made) => Ok(made),
        Err(_) => Err(Fail::from("no memory")),
    }
}

/// The value and the history of a lock.
fn close<T: Turn, R: Wait>(
    rt: &R,
    lock: TurnLock<T>,
    pass: Pass<T>,
) -> Result<(T, Vec<Turned<T>>), Fail>
    requires { IsPassOf lock pass }
{
    match pass.close(rt, lock) {
        Ok(ended) => Ok(ended),
        Err(_) => Err(Fail::from("no ticket is left")),
    }
}

/// Says that blocks are there, and subscribes. What is known then.
fn subscribed<Dir: Drop, T: HasProbe<Dir>, R: Wait>(
    rt: &R,
    alloc: Global,
    lock: &TurnLock<T>,
    pass: &mut Pass<T>,
) -> Result<Option<Artifact<Dir>>, TurnError>
    requires { IsPassOf lock.now pass.old }
    ensures { IsPassOf lock.now pass.new }
{
    let mailbox = Mailbox::new(lock);
    mailbox.attach::<Dir, R>(rt, alloc, pass)?;
    mailbox.subscribe::<Dir, R>(rt, alloc, pass)
}

/// Asks a core behind a lock. Whether something is known then, how many turns there were, and the core.
fn asked<Dir: Drop, T: HasProbe<Dir>, R: Wait>(
    rt: &R,
    alloc: Global,
    core: T,
) -> Result<(bool, usize, T), Fail> {
    let (lock, mut pass) = locked(alloc, core)?;
    let known = subscribed::<Dir, T, R>(rt, alloc, &lock, &mut pass)?;
    let (core, history) = close(rt, lock, pass)?;
    Ok((known.is_some(), history.len(), core))
}

/// A node that nobody asked anything yet.
fn new_node(alloc: Global) -> Result<Node, Fail> {
    let source = held_blocks(alloc, 0).ok_or("no source")?;
    let probe = plain_probe(alloc, 1, None).ok_or("no probe")?;
    Ok(Node {
        probe,
        source,
        out: Transcript::new(alloc),
        stopped: false,
    })
}

#[test]
fn a_probe_is_asked_through_a_lock(rt: HostRuntime) -> Result<(), Fail> {
    let node = new_node(rt.alloc())?;
    let (known, turns, node) = asked::<Unit, _, _>(&rt, rt.alloc(), node)?;
    is(&rt, (known, turns), (false, 2));
    holds(&rt, node.out.entries().is_empty());
    Ok(())
}
