//! What a final block has to carry, kept for the logs that it was made of.
ghost use Rattle.std.specs.Prelude.{◌≡◌, ◌↔◌, IfOk, IsSome, IsSomeAnd, IsTrue, None, Some, option_map};
ghost use Rattle.std.specs.Option.{option_copied};

use dkg_ceremony::{DealerLog, Share};
use dkg_infos::{Directory, EpochInfo};
use dkg_values::{Map, Mem, Value};
use std::alloc::Global;
use std::marker::Model;

/// The info that an epoch's final block carries, if it carries one, and this node's share of its output.
#[derive(Drop)]
pub struct Artifact<Dir> {
    pub info: Option<EpochInfo<Dir>>,
    pub share: Option<Share>,
}

/// The artifact that was kept last, with the logs that it is of. Contracts see both.
#[derive(Drop)]
pub struct ArtifactCache<Dir> {
    kept: Option<(Map<DealerLog>, Artifact<Dir>)>,
}

impl<Dir> Model for ArtifactCache<Dir> {
    ghost use Rattle.std.specs.Prelude.{Option};
    ghost use Rattle.dkg_ceremony.specs.Outcomes.{LogMap};
    ghost use Rattle.dkg_artifact.specs.declared.artifact.Artifact.{Artifact};

    ghost Value = { Option (LogMap × Artifact Dir) };

    ghost view = { λ c. c.kept };
}

impl<Dir> ArtifactCache<Dir> {
    /// Nothing is kept.
    pub fn new() -> ArtifactCache<Dir>
        ensures { result ≡ None }
    {
        ArtifactCache { kept: None }
    }

    /// The kept artifact, where it is of these logs.
    pub fn get(&self, logs: &Map<DealerLog>) -> Option<&Artifact<Dir>>
        ensures exactly { IsSome result ↔ IsSomeAnd self.now (λ k. k.0 ≡ logs.now) }
        ensures kept { IsSome result → option_copied result ≡ option_map (λ k. k.1) self.now }
    {
        match &self.kept {
            Some((kept, artifact)) if kept.same(logs) => Some(artifact),
            _ => None,
        }
    }
}

impl<Dir: Drop> ArtifactCache<Dir> {
    /// Keeps an artifact with its logs, in the place of what was kept.
    pub fn keep(&mut self, logs: Map<DealerLog>, artifact: Artifact<Dir>)
        ensures { self.new ≡ Some (logs, artifact) }
    {
        self.kept = Some((logs, artifact));
    }
}

/// A copy of an info, if there is one.
fn copy_of_info<Dir: Directory + Drop>(
    alloc: Global,
    info: &Option<EpochInfo<Dir>>,
) -> Mem<Option<EpochInfo<Dir>>>
    ensures { IfOk result (λ made. made ≡ info.now) }
{
    match info {
        None => Ok(None),
        Some(info) => Ok(Some(info.copy(alloc)?)),
    }
}

/// Whether two infos are equal, or neither is there.
fn is_same_info<Dir: Directory + Drop>(
    one: &Option<EpochInfo<Dir>>,
    other: &Option<EpochInfo<Dir>>,
) -> bool
    ensures { IsTrue result ↔ (one.now ≡ other.now) }
{
    match (one, other) {
        (None, None) => true,
        (Some(one), Some(other)) => one.same(other),
        (None, Some(_)) | (Some(_), None) => false,
    }
}

impl<Dir: Directory + Drop> Value for Artifact<Dir> {
    fn copy(&self, alloc: Global) -> Mem<Artifact<Dir>> {
        Ok(Artifact {
            info: copy_of_info(alloc, &self.info)?,
            share: self.share,
        })
    }

    fn same(&self, other: &Artifact<Dir>) -> bool {
        self.share == other.share && is_same_info(&self.info, &other.info)
    }
}
