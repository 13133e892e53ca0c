//! How others ask a probe behind a lock: the joining node subscribes, and attaches its source of blocks once it has one.
ghost use Rattle.std.specs.Prelude.{◌≡◌, Option, IfOk, IfErr, true};
ghost use Rattle.dkg_turn.specs.Passes.{IsPassOf, Posted};
ghost use Rattle.dkg_turn.specs.Refusals.{CallRefused};
ghost use Rattle.dkg_probe.specs.Mailboxes.{Subscribed};
ghost use Rattle.dkg_probe.specs.declared.artifact.Artifact.{Artifact as Found};

use crate::artifact::Artifact;
use crate::event::Event;
use dkg_turn::{Carries, Pass, Turn, TurnError, TurnLock};
use std::alloc::Global;
use std::sync::Wait;

/// A core that has a probe: what it answers to a subscriber is what is known then.
pub trait HasProbe<Dir>: Carries<Event, Option<Artifact<Dir>>> {
    ghost use Rattle.std.specs.Prelude.{◌≡◌, Option};
    ghost use Rattle.std.specs.Option.{option_copied};
    ghost use Rattle.dkg_probe.specs.Mailboxes.{Meets};
    ghost use Rattle.dkg_probe.specs.declared.artifact.Artifact.{Artifact as Found};
    ghost use Rattle.dkg_probe.specs.declared.event.Event.{Event};

    // What is known.
    ghost known: { Self → Option (Found Dir) };

    /// What was found, if it is known.
    fn artifact(&self) -> Option<&Artifact<Dir>>
        ensures { option_copied result ≡ known self.now };

    // Each answer says what is known behind its turn, where somebody subscribed.
    ghost owes: { (core : Self) (event : Event) (answer : Option (Found Dir)) → Self.meets core event answer → Meets (known core) event answer };
}

/// A mailbox of a probe, or of a node that has one, behind a lock. Its calls wait for their turn.
#[derive(Clone, Copy)]
pub struct Mailbox<'a, T: Turn> {
    lock: &'a TurnLock<T>,
}

impl<'a, T: Turn> Mailbox<'a, T> {
    /// A mailbox of what is behind this lock.
    pub fn new(lock: &'a TurnLock<T>) -> Mailbox<'a, T>
        ensures { result.lock.now ≡ lock.now }
    {
        Mailbox { lock }
    }

    /// Subscribes, and gives the artifact if it is known behind that turn. There is none either once the node has stopped.
    pub fn subscribe<Dir, R: Wait>(
        &self,
        rt: &R,
        alloc: Global,
        pass: &mut Pass<T>,
    ) -> Result<Option<Artifact<Dir>>, TurnError>
    where
        T: HasProbe<Dir>,
        requires own { IsPassOf self.now.lock.now pass.old }
        ensures own { IsPassOf self.now.lock.now pass.new }
        // With `stop` in it: there is none exactly where the node had stopped, or where nothing is known behind that turn.
        ensures posted { IfOk result (λ answer. Subscribed T.Turn.turns self.now.lock.now.start T.Turn.same T.Turn.told (T.Carries.posted Event.Subscribe)
            T.Carries.answered T.Carries.stopped T.Carries.meets T.known answer pass.old pass.new) }
        ensures refused { IfErr result (λ e. CallRefused T.Turn.turns self.now.lock.now.start e pass.old pass.new) }
        ensures stays { pass.old.exhausted ≡ true → result ≡ Err TurnError.Exhausted }
    {
        match pass.post(rt, alloc, self.lock, Event::Subscribe)? {
            None => Ok(None),
            Some(answer) => Ok(answer),
        }
    }

    /// Says that a source of blocks is there. Once the node has stopped it stays as it is.
    pub fn attach<Dir: Drop, R: Wait>(
        &self,
        rt: &R,
        alloc: Global,
        pass: &mut Pass<T>,
    ) -> Result<(), TurnError>
    where
        T: Carries<Event, Option<Artifact<Dir>>>,
        requires own { IsPassOf self.now.lock.now pass.old }
        ensures own { IsPassOf self.now.lock.now pass.new }
        ensures posted { IfOk result (λ _. (told : Option (Option (Found Dir))) × Posted T.Turn.turns self.now.lock.now.start T.Turn.same T.Turn.told
            (T.posted Event.Attach) T.answered T.stopped T.meets Event.Attach told pass.old pass.new) }
        ensures refused { IfErr result (λ e. CallRefused T.Turn.turns self.now.lock.now.start e pass.old pass.new) }
        ensures stays { pass.old.exhausted ≡ true → result ≡ Err TurnError.Exhausted }
    {
        let _answer = pass.post(rt, alloc, self.lock, Event::Attach)?;
        Ok(())
    }
}
