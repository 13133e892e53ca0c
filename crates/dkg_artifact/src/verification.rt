//! The running verification, and the result that is kept.
ghost use Rattle.std.specs.Prelude.{◌≡◌, ◌≢◌, ◌↔◌, None, Some, IsSome, IsSomeAnd, IsTrue};
ghost use Rattle.std.specs.Option.{option_copied};

use crate::job::Job;
use crate::verified::VerifiedLogs;
use dkg_ceremony::{Ceremony, DealerLog};
use dkg_values::{Map, Value};
use std::marker::Model;

/// One job at a time, and the result that was kept last. Contracts see both.
#[derive(Drop)]
pub struct Verification<C: Ceremony> {
    running: Option<Job>,
    kept: Option<VerifiedLogs<C>>,
}

impl<C: Ceremony> Model for Verification<C> {
    ghost use Rattle.dkg_artifact.specs.Seen.{Verification as Seen};

    ghost Value = { Seen };

    ghost view = { λ v. record { running = v.running; kept = v.kept } };
}

/// Whether a result that is kept is one for these logs.
fn is_kept_for<C: Ceremony>(kept: &Option<VerifiedLogs<C>>, logs: &Map<DealerLog>) -> bool
    ensures { IsTrue result ↔ IsSomeAnd kept.now (λ r. r.logs ≡ logs.now) }
{
    match kept {
        Some(kept) => kept.logs.same(logs),
        None => false,
    }
}

impl<C: Ceremony> Verification<C> {
    /// Nothing runs, and nothing is kept.
    pub fn new() -> Verification<C>
        ensures running { result.running ≡ None }
        ensures kept { result.kept ≡ None }
    {
        Verification {
            running: None,
            kept: None,
        }
    }

    /// The job that runs, if one does.
    pub fn running(&self) -> Option<&Job>
        ensures { option_copied result ≡ self.now.running }
    {
        self.running.as_ref()
    }

    /// The kept result, where it is one for these logs.
    pub fn ready(&self, logs: &Map<DealerLog>) -> Option<&VerifiedLogs<C>>
        ensures exactly { IsSome result ↔ IsSomeAnd self.now.kept (λ r. r.logs ≡ logs.now) }
        ensures kept { IsSome result → option_copied result ≡ self.now.kept }
    {
        match &self.kept {
            Some(kept) if kept.logs.same(logs) => Some(kept),
            _ => None,
        }
    }
}

impl<C: Ceremony + Drop> Verification<C> {
    /// Runs a job, where none runs.
    pub fn start(&mut self, job: Job)
        requires { self.old.running ≡ None }
        ensures running { self.new.running ≡ Some job }
        ensures kept { self.new.kept ≡ self.old.kept }
    {
        self.running = Some(job);
    }

    /// Ends the running job, and keeps the result, unless it is for other logs than the canonical ones and the kept result is for
    /// these. Results may come in any order.
    pub fn retain(&mut self, verified: VerifiedLogs<C>, canonical: &Map<DealerLog>)
        ensures running { self.new.running ≡ None }
        ensures canonical { verified.logs ≡ canonical.now → self.new.kept ≡ Some verified }
        ensures stays { IsSomeAnd self.old.kept (λ r. r.logs ≡ canonical.now) → verified.logs ≢ canonical.now → self.new.kept ≡ self.old.kept }
        ensures replaces { (IsSomeAnd self.old.kept (λ r. r.logs ≡ canonical.now) → ⊥) → self.new.kept ≡ Some verified }
    {
        self.running = None;
        if !is_kept_for(&self.kept, canonical) || verified.logs.same(canonical) {
            self.kept = Some(verified);
        }
    }
}
