//! What a probe is given, and what it has found so far.

use crate::artifact::{Artifact, Bootstrap};
use crate::candidates::Awaited;
use crate::sample::Sample;
use dkg_ceremony::{Epocher, ModeVersion};
use dkg_infos::EpochInfo;
use std::num::NonZeroU32;

/// What a probe never changes.
#[derive(Drop)]
pub(crate) struct Terms<S, Dir> {
    /// The checkpoint, whose dealers are asked.
    pub bootstrap: Bootstrap<Dir>,
    pub verifier: S,
    /// The info of epoch zero.
    pub genesis: EpochInfo<Dir>,
    pub epocher: Epocher,
    /// The limits under which blocks are read.
    pub limits: (NonZeroU32, ModeVersion),
}

/// What a probe has found so far.
#[derive(Drop)]
pub(crate) struct State<Dir> {
    /// How many wait for the artifact.
    pub subscribers: u64,
    /// Whether a source of blocks is there.
    pub attached: bool,
    /// Whether it answers others' requests, and looks for nothing any more.
    pub serving: bool,
    pub sample: Sample,
    /// A floor that waits for its block.
    pub awaited: Option<Awaited>,
    pub known: Option<Artifact<Dir>>,
}
