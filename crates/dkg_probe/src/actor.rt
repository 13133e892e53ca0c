//! The probe itself, one event in each step.
ghost use Rattle.std.specs.Prelude.{◌≡◌, ◌+◌, ◌<◌, ◌^◌, true, false, max, length, IfSome, OnOk, OnErr, IsErrOf, IsTrue, is_err};
ghost use Rattle.std.specs.Option.{option_copied, option_map_or};
ghost use Rattle.std.specs.Int.NonZero.{non_zero_u64_get};
ghost use Rattle.dkg_probe.specs.Acts.{ProbeRuns, ManagerTracks};
ghost use Rattle.dkg_probe.specs.Candidates.{are_apart, candidate_keys};
ghost use Rattle.dkg_probe.specs.OneEpoch.{OfOneEpoch, SaidSince, TellsKnown};
ghost use Rattle.dkg_probe.specs.Probing.{probe_ended_by, ended_in, fixed, hears, new_state, steps, takes, then_serves, tracked_of};
ghost use Rattle.dkg_probe.specs.Serving.{Serves};
ghost use Rattle.dkg_probe.specs.Sound.{IsSoundState, KeepsArtifact};

use crate::artifact::{Artifact, Bootstrap};
use crate::blocks::Blocks;
use crate::discovery::{discover, retry, subscribe};
use crate::event::{Event, ProbeStop};
use crate::sample::Sample;
use crate::service::serve;
use crate::state::{State, Terms};
use dkg_ceremony::{Epoch, Epocher, Key, Mem, ModeVersion, Read};
use dkg_infos::{Directory, EpochInfo, Transcript};
use dkg_types::{Block, Finalization, Manager, Scheme};
use std::alloc::Global;
use std::num::{NonZeroU32, NonZeroU64};

/// What a probe is made with.
#[derive(Drop)]
pub struct Config<M, S, Dir> {
    /// Who tracks the checkpoint's peers once somebody waits.
    pub manager: M,
    pub bootstrap: Bootstrap<Dir>,
    /// A finalization that this node trusts already. Replies of lower epochs are stale.
    pub floor: Option<Finalization>,
    /// Who checks finalizations, of any epoch.
    pub verifier: S,
    /// The info of epoch zero.
    pub genesis: EpochInfo<Dir>,
    pub blocks_per_epoch: NonZeroU64,
    /// How many keys a set in a block may have, and the newest mode that a sharing may have.
    pub limits: (NonZeroU32, ModeVersion),
}

/// A probe: it looks for the artifact while somebody waits for it, and serves others afterwards.
///
/// A step takes time logarithmic in the peers that replied and in the candidates, besides what it sends: an activation and a retry write a
/// message to each dealer, and the choice of a floor reads each of the replies once.
#[derive(Drop)]
pub struct Actor<M, S, Dir> {
    manager: M,
    terms: Terms<S, Dir>,
    state: State<Dir>,
    failed: bool,
    ghost in_bound: { length terms.bootstrap.participants.players + length terms.bootstrap.participants.next_players < 2 ^ 32 },
}

/// The higher of the checkpoint's epoch and that of a configured floor.
fn least_epoch(checkpoint: Epoch, floor: Option<Finalization>) -> Epoch
    ensures { result ≡ option_map_or (λ f. max checkpoint f.epoch) floor checkpoint }
{
    match floor {
        None => checkpoint,
        Some(floor) => Epoch(checkpoint.0.max(floor.epoch.0)),
    }
}

/// A peer's message.
fn hear<B: Blocks<Dir>, S: Scheme, Dir: Directory + Drop>(
    alloc: Global,
    terms: &Terms<S, Dir>,
    state: &mut State<Dir>,
    source: &B,
    peer: Key,
    bytes: &[u8],
    out: &mut Transcript,
) -> Mem<()>
where
    Dir::Cfg: Drop,
    ensures acts { ProbeRuns
        (hears (fixed S.verifies Dir.spelling ⟦<Block<Dir> as Read>⟧.read_of terms.now.limits terms.now) (B.source source.now) peer bytes.now state.old)
        (ended_in state.new result) out.old.entries out.new.entries }
    ensures kept { OnErr result (state.new.known ≡ state.old.known) }
{
    if state.serving {
        serve(alloc, terms, state, source, peer, bytes, out)
    } else {
        discover(alloc, terms, state, peer, bytes, out)
    }
}

/// One event, but for the turn to serving.
fn take<M: Manager<Dir = Dir>, B: Blocks<Dir>, S: Scheme, Dir: Directory + Drop>(
    alloc: Global,
    manager: &mut M,
    terms: &Terms<S, Dir>,
    state: &mut State<Dir>,
    source: &B,
    event: Event,
    out: &mut Transcript,
) -> Result<(), ProbeStop>
where
    Dir::Cfg: Drop,
    requires { length terms.now.bootstrap.participants.players + length terms.now.bootstrap.participants.next_players < 2 ^ 32 }
    ensures acts { let c = fixed S.verifies Dir.spelling ⟦<Block<Dir> as Read>⟧.read_of terms.now.limits terms.now in
        let lack = M.lacks terms.now.bootstrap.directory (tracked_of terms.now.bootstrap.participants) in
        ProbeRuns (takes c lack (B.source source.now) event state.old) (probe_ended_by state.new result) out.old.entries out.new.entries }
    ensures tracked { let c = fixed S.verifies Dir.spelling ⟦<Block<Dir> as Read>⟧.read_of terms.now.limits terms.now in
        let lack = M.lacks terms.now.bootstrap.directory (tracked_of terms.now.bootstrap.participants) in
        IsTrue M.tells → ManagerTracks (takes c lack (B.source source.now) event state.old) result (M.sets manager.old) (M.sets manager.new) }
    ensures error_kinds { IsErrOf result ProbeStop.Failed → ⊥ }
    ensures kept { OnErr result (state.new.known ≡ state.old.known) }
{
    match event {
        Event::Subscribe => subscribe(alloc, manager, terms, state, out),
        Event::Unsubscribe => {
            state.subscribers = state.subscribers.saturating_sub(1);
            Ok(())
        }
        Event::Attach => {
            state.attached = true;
            Ok(())
        }
        Event::Peer { from, bytes } => {
            hear(alloc, terms, state, source, from, bytes.as_slice(), out)?;
            Ok(())
        }
        Event::Retry => {
            retry(alloc, terms, state, out)?;
            Ok(())
        }
    }
}

/// With a source attached and nobody waiting, others are served from now on. No peer is a candidate twice.
fn turn_to_service<Dir>(state: &mut State<Dir>)
    ensures serves { state.new ≡ then_serves state.old }
    ensures apart { IfSome state.new.awaited (λ a. are_apart (candidate_keys a.asked a.others) ≡ true) }
{
    if let Some(awaited) = &state.awaited {
        awaited.apart();
    }
    if state.attached && state.subscribers == 0 {
        state.serving = true;
    }
}

impl<M: Manager<Dir = Dir>, S: Scheme, Dir: Directory + Drop> Actor<M, S, Dir>
where
    Dir::Cfg: Drop,
{
    /// A probe that nobody waits for, without a source.
    pub fn new(alloc: Global, config: Config<M, S, Dir>) -> Actor<M, S, Dir>
        requires { length config.bootstrap.participants.players + length config.bootstrap.participants.next_players < 2 ^ 32 }
        ensures manager { result.manager ≡ config.manager }
        ensures bootstrap { result.terms.bootstrap ≡ config.bootstrap }
        ensures verifier { result.terms.verifier ≡ config.verifier }
        ensures genesis { result.terms.genesis ≡ config.genesis }
        ensures blocks { result.terms.epocher ≡ non_zero_u64_get config.blocks_per_epoch }
        ensures limits { result.terms.limits ≡ config.limits }
        ensures state { result.state ≡ new_state (option_map_or (λ f. max config.bootstrap.epoch f.epoch) config.floor config.bootstrap.epoch) }
        ensures failed { result.failed ≡ false }
        ensures sound { IsSoundState (fixed S.verifies Dir.spelling ⟦<Block<Dir> as Read>⟧.read_of result.terms.limits result.terms) result.state }
    {
        let Config {
            manager,
            bootstrap,
            floor,
            verifier,
            genesis,
            blocks_per_epoch,
            limits,
        } = config;
        let minimum = least_epoch(bootstrap.epoch, floor);
        Actor {
            manager,
            terms: Terms {
                bootstrap,
                verifier,
                genesis,
                epocher: Epocher::new(blocks_per_epoch),
                limits,
            },
            state: State {
                subscribers: 0,
                attached: false,
                serving: false,
                sample: Sample::new(alloc, minimum),
                awaited: None,
                known: None,
            },
            failed: false,
        }
    }

    /// Takes one event. What it does is written to `out`.
    ///
    /// A step that stops early leaves the lines that it has written, and the probe stopped: every later step answers `Failed` and does
    /// nothing.
    pub fn step<B: Blocks<Dir>>(
        &mut self,
        alloc: Global,
        source: &B,
        event: Event,
        out: &mut Transcript,
    ) -> Result<(), ProbeStop>
        ensures acts { let c = fixed S.verifies Dir.spelling ⟦<Block<Dir> as Read>⟧.read_of self.old.terms.limits self.old.terms in
            let lack = M.lacks self.old.terms.bootstrap.directory (tracked_of self.old.terms.bootstrap.participants) in
            self.old.failed ≡ false
            → ProbeRuns (steps c lack (B.source source.now) event self.old.state) (probe_ended_by self.new.state result) out.old.entries out.new.entries }
        ensures stopped { self.old.failed ≡ true → (result ≡ Err ProbeStop.Failed) × (self.new ≡ self.old) × (out.new.entries ≡ out.old.entries) }
        ensures failed { IsErrOf result ProbeStop.Failed → self.old.failed ≡ true }
        ensures stops { self.new.failed ≡ is_err result }
        ensures terms { self.new.terms ≡ self.old.terms }
        // The manager tracks what the acts say, and where the step stopped early that or what it did before.
        ensures tracked { let c = fixed S.verifies Dir.spelling ⟦<Block<Dir> as Read>⟧.read_of self.old.terms.limits self.old.terms in
            let lack = M.lacks self.old.terms.bootstrap.directory (tracked_of self.old.terms.bootstrap.participants) in
            IsTrue M.tells → self.old.failed ≡ false
            → ManagerTracks (steps c lack (B.source source.now) event self.old.state) result (M.sets self.old.manager) (M.sets self.new.manager) }
        // An artifact that is told is the one that is known.
        ensures artifact { SaidSince (TellsKnown Dir.spelling self.new.state.known) out.old.entries out.new.entries }
        // What is found rests on what it should, and an artifact that is known stays.
        ensures sound { let c = fixed S.verifies Dir.spelling ⟦<Block<Dir> as Read>⟧.read_of self.old.terms.limits self.old.terms in
            IsSoundState c self.old.state → OnOk result (IsSoundState c self.new.state × KeepsArtifact self.old.state self.new.state) }
        ensures kept { OnErr result (self.new.state.known ≡ self.old.state.known) }
        // Who serves says nothing but what is held, to who asks for it.
        ensures held { let c = fixed S.verifies Dir.spelling ⟦<Block<Dir> as Read>⟧.read_of self.old.terms.limits self.old.terms in
            self.old.state.serving ≡ true → SaidSince (Serves c (B.source source.now) event) out.old.entries out.new.entries }
        // Info and floor of each artifact told are of one epoch, where genesis is of epoch zero.
        ensures one_epoch { self.old.terms.genesis.epoch ≡ 0 → SaidSince (OfOneEpoch Dir.spelling) out.old.entries out.new.entries }
        // No peer is a candidate twice.
        ensures apart { OnOk result (IfSome self.new.state.awaited (λ a. are_apart (candidate_keys a.asked a.others) ≡ true)) }
    {
        if self.failed {
            return Err(ProbeStop::Failed);
        }
        self.failed = true;
        match take(
            alloc,
            &mut self.manager,
            &self.terms,
            &mut self.state,
            source,
            event,
            out,
        ) {
            Err(stop) => Err(stop),
            Ok(()) => {
                turn_to_service(&mut self.state);
                self.failed = false;
                Ok(())
            }
        }
    }
}

impl<M, S, Dir> Actor<M, S, Dir> {
    /// What was found, if it is known.
    pub fn artifact(&self) -> Option<&Artifact<Dir>>
        ensures { option_copied result ≡ self.now.state.known }
    {
        self.state.known.as_ref()
    }
}
