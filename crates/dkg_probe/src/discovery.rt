//! The search for the artifact: subscribers begin it, and peers' responses carry it on.
ghost use Rattle.std.specs.Prelude.{◌≡◌, ℕ, ◌+◌, ◌<◌, ◌^◌, ◌∷◌, [], ◌++◌, map, length, IfOk, IfSome, OnOk, OnErr, IsTrue, IsErrOf, ◌↔◌, None, Some};
ghost use Rattle.dkg_values.specs.Codec.{whole};
ghost use Rattle.dkg_types.specs.FinalizationCodes.{finalization_spelling};
ghost use Rattle.dkg_types.specs.PayloadCodes.{payload_spelling, info_payload};
ghost use Rattle.dkg_types.specs.Tracking.{AnswersTracking, with_set};
ghost use Rattle.dkg_probe.specs.Acts.{IsFront, ProbeRuns, ManagerTracks};
ghost use Rattle.dkg_probe.specs.Candidates.{first_candidate, next_asked};
ghost use Rattle.dkg_probe.specs.Probing.{activates, asks_dealers, begins_at, discovers, probe_ended_by, ended_in, fixed, from_floor, hears_body, hears_in, hears_latest, info_at_height, is_done, is_first, latest_request, refuses, request_entry, resolves, retries, samples, subscribes, tracked_of};
ghost use Rattle.dkg_probe.specs.Wire.{BlockReply, BoundaryReply, with_commitment, reply_of, said_by};

use crate::artifact::Artifact;
use crate::candidates::Awaited;
use crate::event::ProbeStop;
use crate::state::{State, Terms};
use crate::wire::{Message, Response, read_block, read_response};
use bytes::{BufMut, BytesMut};
use dkg_ceremony::{
    Blob, CodecError, Digest, EncodeSize, Epoch, Epocher, Height, Key, Mem, ModeVersion, NoMemory,
    Read, Value, Write, encode,
};
use dkg_infos::{BlockedWhy, Directory, Entry, EpochInfo, Transcript};
use dkg_types::{Block, Finalization, Manager, Scheme, TrackError};
use dkg_values::Shared;
use std::alloc::Global;
use std::num::NonZeroU32;

/// Whether bytes were not read for want of memory, which says nothing of them.
pub(crate) fn is_want(error: &CodecError) -> bool
    ensures { IsTrue result ↔ (error.now ≡ CodecError.NoMemory) }
{
    match error {
        CodecError::NoMemory => true,
        _ => false,
    }
}

/// Tells that a peer is blocked.
pub(crate) fn block(out: &mut Transcript, peer: Key, why: BlockedWhy) -> Mem<()>
    ensures ok { OnOk result (out.new.entries ≡ out.old.entries ++ Entry.Blocked peer why ∷ []) }
    ensures err { OnErr result (out.new.entries ≡ out.old.entries) }
{
    out.push(Entry::Blocked { peer, why })
}

/// Sends a message, to all where no peer is named.
pub(crate) fn send(out: &mut Transcript, to: Option<Key>, bytes: Blob) -> Mem<()>
    ensures ok { OnOk result (out.new.entries ≡ out.old.entries ++ Entry.Sent to bytes ∷ []) }
    ensures err { OnErr result (out.new.entries ≡ out.old.entries) }
{
    out.push(Entry::Sent { to, bytes })
}

/// Asks each of some dealers for its latest finalization.
fn send_each<Dir: Directory + Drop>(alloc: Global, out: &mut Transcript, dealers: &[Key]) -> Mem<()>
    ensures ok { OnOk result (out.new.entries ≡ out.old.entries ++ map latest_request dealers.now) }
    ensures err { OnErr result (IsFront (map latest_request dealers.now) out.old.entries out.new.entries) }
{
    for dealer in dealers {
        let bytes = encode(alloc, &Message::<Dir>::LatestRequest)?;
        send(out, Some(*dealer), bytes)?;
    }
    Ok(())
}

/// Resets the sample, and asks each dealer of the checkpoint for its latest finalization.
fn ask_dealers<S: Scheme, Dir: Directory + Drop>(
    alloc: Global,
    terms: &Terms<S, Dir>,
    state: &mut State<Dir>,
    out: &mut Transcript,
) -> Mem<()>
where
    Dir::Cfg: Drop,
    ensures acts { ProbeRuns (asks_dealers (fixed S.verifies Dir.spelling ⟦<Block<Dir> as Read>⟧.read_of terms.now.limits terms.now) state.old)
        (ended_in state.new result) out.old.entries out.new.entries }
    ensures kept { state.new.known ≡ state.old.known }
{
    state.sample.reset();
    send_each::<Dir>(alloc, out, terms.bootstrap.participants.dealers.as_slice())
}

/// Asks the next candidate for the block, or all peers for its finalization.
fn ask_next<Dir: Directory + Drop>(
    alloc: Global,
    awaited: &mut Awaited,
    out: &mut Transcript,
) -> Mem<()>
    ensures next { awaited.new ≡ next_asked awaited.old }
    ensures ok { OnOk result (out.new.entries ≡ out.old.entries ++ request_entry (first_candidate awaited.old.others) awaited.old.floor.epoch ∷ []) }
    ensures err { OnErr result (out.new.entries ≡ out.old.entries) }
{
    let epoch = awaited.floor().epoch;
    match awaited.next() {
        None => {
            let bytes = encode(alloc, &Message::<Dir>::BoundaryRequest(epoch))?;
            send(out, None, bytes)
        }
        Some(peer) => {
            let bytes = encode(alloc, &Message::<Dir>::BlockRequest(epoch))?;
            send(out, Some(peer), bytes)
        }
    }
}

/// Activates the checkpoint, which a directory that lacks one of its peers refuses.
fn activate<M: Manager<Dir = Dir>, S, Dir: Directory>(
    alloc: Global,
    manager: &mut M,
    terms: &Terms<S, Dir>,
) -> Result<(), TrackError>
    requires { length terms.now.bootstrap.participants.players + length terms.now.bootstrap.participants.next_players < 2 ^ 32 }
    ensures missing { AnswersTracking (M.lacks terms.now.bootstrap.directory (tracked_of terms.now.bootstrap.participants)) result }
    ensures ok { IsTrue M.tells →
        OnOk result ((n : ℕ) → M.sets manager.new n ≡ with_set (M.sets manager.old) terms.now.bootstrap.epoch (tracked_of terms.now.bootstrap.participants) n) }
    ensures err { IsTrue M.tells → OnErr result ((n : ℕ) → M.sets manager.new n ≡ M.sets manager.old n) }
{
    let peers = terms.bootstrap.participants.tracked_peers(alloc)?;
    manager.track(
        alloc,
        terms.bootstrap.epoch,
        peers,
        &terms.bootstrap.directory,
    )
}

/// Activates the checkpoint and asks its dealers.
fn begin<M: Manager<Dir = Dir>, S: Scheme, Dir: Directory + Drop>(
    alloc: Global,
    manager: &mut M,
    terms: &Terms<S, Dir>,
    state: &mut State<Dir>,
    out: &mut Transcript,
) -> Result<(), ProbeStop>
where
    Dir::Cfg: Drop,
    requires { length terms.now.bootstrap.participants.players + length terms.now.bootstrap.participants.next_players < 2 ^ 32 }
    ensures acts { let c = fixed S.verifies Dir.spelling ⟦<Block<Dir> as Read>⟧.read_of terms.now.limits terms.now in
        let lack = M.lacks terms.now.bootstrap.directory (tracked_of terms.now.bootstrap.participants) in
        ProbeRuns (activates c lack state.old) (probe_ended_by state.new result) out.old.entries out.new.entries }
    ensures tracked { let c = fixed S.verifies Dir.spelling ⟦<Block<Dir> as Read>⟧.read_of terms.now.limits terms.now in
        let lack = M.lacks terms.now.bootstrap.directory (tracked_of terms.now.bootstrap.participants) in
        IsTrue M.tells → ManagerTracks (activates c lack state.old) result (M.sets manager.old) (M.sets manager.new) }
    ensures error_kinds { IsErrOf result ProbeStop.Failed → ⊥ }
    ensures kept { state.new.known ≡ state.old.known }
{
    activate(alloc, manager, terms)?;
    ask_dealers(alloc, terms, state, out)?;
    Ok(())
}

/// Whether nobody waits and no floor is chosen.
fn nobody_asked<Dir>(state: &State<Dir>) -> bool
    ensures { result ≡ is_first state.now }
{
    state.subscribers == 0 && state.sample.floor().is_none()
}

/// Whether nothing is looked for any more.
fn looks_no_more<Dir>(state: &State<Dir>) -> bool
    ensures { result ≡ is_done state.now }
{
    state.serving || state.known.is_some()
}

/// One more waits for the artifact. The first one has the checkpoint activated and its dealers asked.
pub(crate) fn subscribe<M: Manager<Dir = Dir>, S: Scheme, Dir: Directory + Drop>(
    alloc: Global,
    manager: &mut M,
    terms: &Terms<S, Dir>,
    state: &mut State<Dir>,
    out: &mut Transcript,
) -> Result<(), ProbeStop>
where
    Dir::Cfg: Drop,
    requires { length terms.now.bootstrap.participants.players + length terms.now.bootstrap.participants.next_players < 2 ^ 32 }
    ensures acts { let c = fixed S.verifies Dir.spelling ⟦<Block<Dir> as Read>⟧.read_of terms.now.limits terms.now in
        let lack = M.lacks terms.now.bootstrap.directory (tracked_of terms.now.bootstrap.participants) in
        ProbeRuns (subscribes c lack state.old) (probe_ended_by state.new result) out.old.entries out.new.entries }
    ensures tracked { let c = fixed S.verifies Dir.spelling ⟦<Block<Dir> as Read>⟧.read_of terms.now.limits terms.now in
        let lack = M.lacks terms.now.bootstrap.directory (tracked_of terms.now.bootstrap.participants) in
        IsTrue M.tells → ManagerTracks (subscribes c lack state.old) result (M.sets manager.old) (M.sets manager.new) }
    ensures error_kinds { IsErrOf result ProbeStop.Failed → ⊥ }
    ensures kept { OnErr result (state.new.known ≡ state.old.known) }
{
    if looks_no_more(state) {
        return Ok(());
    }
    let first = nobody_asked(state);
    let Some(subscribers) = state.subscribers.checked_add(1) else {
        return Err(ProbeStop::NoMemory);
    };
    state.subscribers = subscribers;
    if first {
        return begin(alloc, manager, terms, state, out);
    }
    Ok(())
}

/// Asks again, where somebody waits: the next candidate, or all peers, or the dealers.
pub(crate) fn retry<S: Scheme, Dir: Directory + Drop>(
    alloc: Global,
    terms: &Terms<S, Dir>,
    state: &mut State<Dir>,
    out: &mut Transcript,
) -> Mem<()>
where
    Dir::Cfg: Drop,
    ensures acts { ProbeRuns (retries (fixed S.verifies Dir.spelling ⟦<Block<Dir> as Read>⟧.read_of terms.now.limits terms.now) state.old)
        (ended_in state.new result) out.old.entries out.new.entries }
    ensures kept { state.new.known ≡ state.old.known }
{
    if looks_no_more(state) || state.subscribers == 0 {
        return Ok(());
    }
    match &mut state.awaited {
        Some(awaited) => ask_next::<Dir>(alloc, awaited, out),
        None => {
            if state.sample.floor().is_some() {
                return Ok(());
            }
            ask_dealers(alloc, terms, state, out)
        }
    }
}

/// An info as the payload that it is.
fn info_blob<Dir: Directory>(alloc: Global, info: &EpochInfo<Dir>) -> Mem<Blob>
    ensures { IfOk result (λ blob. blob ≡ payload_spelling Dir.spelling (info_payload info.now)) }
{
    let mut out = BytesMut::with_capacity(alloc, 1 + info.encode_size())?;
    out.put_u8(1)?;
    info.put(&mut out)?;
    Ok(Blob::new(out.into_vec()?))
}

/// Tells the artifact and keeps it. Nobody waits any more.
fn resolve<Dir: Directory + Drop>(
    alloc: Global,
    state: &mut State<Dir>,
    artifact: Artifact<Dir>,
    out: &mut Transcript,
) -> Mem<()>
    ensures acts { ProbeRuns (resolves Dir.spelling artifact state.old) (ended_in state.new result) out.old.entries out.new.entries }
    ensures kept { OnErr result (state.new.known ≡ state.old.known) }
{
    let info = info_blob(alloc, &artifact.info)?;
    let floor = Shared::of(alloc, encode(alloc, &artifact.floor)?)?;
    out.push(Entry::Artifact { info, floor })?;
    state.subscribers = 0;
    state.awaited = None;
    state.known = Some(artifact);
    Ok(())
}

/// The height of the block that begins an epoch: none for epoch zero, and where no number of 64 bits is.
pub(crate) fn boundary_height(epocher: &Epocher, epoch: Epoch) -> Option<Height>
    ensures { result ≡ begins_at epocher.now epoch }
{
    let before = epoch.0.checked_sub(1)?;
    epocher.last(Epoch(before))
}

/// Goes on from the floor that was chosen: with genesis for epoch zero, and else to the block that begins its epoch.
fn begin_from<S: Scheme, Dir: Directory + Drop>(
    alloc: Global,
    terms: &Terms<S, Dir>,
    state: &mut State<Dir>,
    floor: Finalization,
    out: &mut Transcript,
) -> Mem<()>
where
    Dir::Cfg: Drop,
    ensures acts { ProbeRuns (from_floor (fixed S.verifies Dir.spelling ⟦<Block<Dir> as Read>⟧.read_of terms.now.limits terms.now) state.old (Some floor))
        (ended_in state.new result) out.old.entries out.new.entries }
    ensures kept { OnErr result (state.new.known ≡ state.old.known) }
{
    if floor.epoch.0 == 0 {
        let artifact = Artifact {
            finalization: None,
            info: terms.genesis.copy(alloc)?,
            floor,
        };
        return resolve(alloc, state, artifact, out);
    }
    match boundary_height(&terms.epocher, floor.epoch) {
        None => {
            state.sample.reset();
            Ok(())
        }
        Some(height) => {
            state.awaited = Some(Awaited::new(alloc, height, floor));
            let bytes = encode(alloc, &Message::<Dir>::BoundaryRequest(floor.epoch))?;
            send(out, None, bytes)
        }
    }
}

/// Adds a dealer's reply to the sample, and goes on once a floor is chosen. Without a subscriber the sample is reset instead.
fn sample<S: Scheme, Dir: Directory + Drop>(
    alloc: Global,
    terms: &Terms<S, Dir>,
    state: &mut State<Dir>,
    peer: Key,
    finalization: Finalization,
    out: &mut Transcript,
) -> Mem<()>
where
    Dir::Cfg: Drop,
    ensures acts { ProbeRuns (samples (fixed S.verifies Dir.spelling ⟦<Block<Dir> as Read>⟧.read_of terms.now.limits terms.now) peer finalization state.old)
        (ended_in state.new result) out.old.entries out.new.entries }
    ensures kept { OnErr result (state.new.known ≡ state.old.known) }
{
    if state.subscribers == 0 {
        state.sample.reset();
        return Ok(());
    }
    state.sample.record(peer, finalization)?;
    match state
        .sample
        .select(terms.bootstrap.participants.dealers.len())
    {
        None => Ok(()),
        Some(floor) => begin_from(alloc, terms, state, floor, out),
    }
}

/// A peer's latest finalization.
fn hear_latest<S: Scheme, Dir: Directory + Drop>(
    alloc: Global,
    terms: &Terms<S, Dir>,
    state: &mut State<Dir>,
    peer: Key,
    finalization: Finalization,
    out: &mut Transcript,
) -> Mem<()>
where
    Dir::Cfg: Drop,
    ensures acts { ProbeRuns
        (hears_latest (fixed S.verifies Dir.spelling ⟦<Block<Dir> as Read>⟧.read_of terms.now.limits terms.now) peer finalization state.old)
        (ended_in state.new result) out.old.entries out.new.entries }
    ensures kept { OnErr result (state.new.known ≡ state.old.known) }
{
    if !state.sample.awaits(peer) {
        return Ok(());
    }
    if !terms.bootstrap.participants.dealers.has(peer) {
        return block(out, peer, BlockedWhy::Member);
    }
    if finalization.epoch.0 < state.sample.minimum().0 {
        return Ok(());
    }
    if !terms.verifier.verify(alloc, &finalization)? {
        return block(out, peer, BlockedWhy::Invalid);
    }
    sample(alloc, terms, state, peer, finalization, out)
}

/// A peer's finalization of the block that begins the floor's epoch.
fn hear_boundary<S: Scheme, Dir: Directory + Drop>(
    alloc: Global,
    terms: &Terms<S, Dir>,
    state: &mut State<Dir>,
    peer: Key,
    finalization: Finalization,
    out: &mut Transcript,
) -> Mem<()>
where
    Dir::Cfg: Drop,
    ensures acts { ProbeRuns (hears_in (fixed S.verifies Dir.spelling ⟦<Block<Dir> as Read>⟧.read_of terms.now.limits terms.now)
        state.old.awaited peer (BoundaryReply finalization) state.old)
        (ended_in state.new result) out.old.entries out.new.entries }
    ensures kept { state.new.known ≡ state.old.known }
{
    let Some(awaited) = &mut state.awaited else {
        return Ok(());
    };
    let before = awaited.floor().epoch.0.saturating_sub(1);
    if finalization.epoch.0 < before {
        return Ok(());
    }
    if finalization.epoch.0 > before {
        return block(out, peer, BlockedWhy::Boundary);
    }
    if awaited.has(peer) {
        return Ok(());
    }
    if !terms.verifier.verify(alloc, &finalization)? {
        return block(out, peer, BlockedWhy::Boundary);
    }
    awaited.add(peer, finalization)?;
    if awaited.asked().is_some() {
        return Ok(());
    }
    ask_next::<Dir>(alloc, awaited, out)
}

/// The info of an epoch, if some bytes are the block of this digest and height, and it carries one.
fn find_info<Dir: Directory + Drop>(
    alloc: Global,
    limits: &(NonZeroU32, ModeVersion),
    height: Height,
    epoch: Epoch,
    commitment: &Digest,
    body: &[u8],
) -> Mem<Option<EpochInfo<Dir>>>
where
    Dir::Cfg: Drop,
    ensures { IfOk result (λ found. found
        ≡ info_at_height height epoch (with_commitment commitment.now (whole (⟦<Block<Dir> as Read>⟧.read_of limits.now body.now)))) }
{
    let block = match read_block::<Dir>(alloc, body, commitment, limits) {
        Ok(block) => block,
        Err(error) => {
            if is_want(&error) {
                return Err(NoMemory);
            }
            return Ok(None);
        }
    };
    if block.height() != height {
        return Ok(None);
    }
    match block.epoch_info() {
        Some(info) if info.epoch == epoch => Ok(Some(info.copy(alloc)?)),
        _ => Ok(None),
    }
}

/// Blocks a peer whose block is not the one, and asks the next candidate, or all peers.
fn refuse_block<Dir: Directory + Drop>(
    alloc: Global,
    state: &mut State<Dir>,
    peer: Key,
    out: &mut Transcript,
) -> Mem<()>
    ensures acts { IfSome state.old.awaited (λ a. ProbeRuns (refuses a peer state.old) (ended_in state.new result) out.old.entries out.new.entries) }
    ensures kept { state.new.known ≡ state.old.known }
{
    block(out, peer, BlockedWhy::Block)?;
    match &mut state.awaited {
        Some(awaited) => ask_next::<Dir>(alloc, awaited, out),
        None => Ok(()),
    }
}

/// The block of the candidate that was asked: the artifact is known, or else the candidate is blocked.
fn hear_body<S: Scheme, Dir: Directory + Drop>(
    alloc: Global,
    terms: &Terms<S, Dir>,
    state: &mut State<Dir>,
    asked: Key,
    finalization: Finalization,
    body: &[u8],
    out: &mut Transcript,
) -> Mem<()>
where
    Dir::Cfg: Drop,
    ensures acts { IfSome state.old.awaited (λ a.
        ProbeRuns
        (hears_body (fixed S.verifies Dir.spelling ⟦<Block<Dir> as Read>⟧.read_of terms.now.limits terms.now) a (asked, finalization) body.now state.old)
        (ended_in state.new result) out.old.entries out.new.entries) }
    ensures kept { OnErr result (state.new.known ≡ state.old.known) }
{
    let Some(awaited) = &state.awaited else {
        return Ok(());
    };
    let floor = *awaited.floor();
    let height = awaited.height();
    let found = find_info::<Dir>(
        alloc,
        &terms.limits,
        height,
        floor.epoch,
        &finalization.payload,
        body,
    )?;
    match found {
        None => refuse_block(alloc, state, asked, out),
        Some(info) => {
            let artifact = Artifact {
                finalization: Some(finalization),
                info,
                floor,
            };
            resolve(alloc, state, artifact, out)
        }
    }
}

/// A peer's block, which counts only if that peer was asked for it.
fn hear_block<S: Scheme, Dir: Directory + Drop>(
    alloc: Global,
    terms: &Terms<S, Dir>,
    state: &mut State<Dir>,
    peer: Key,
    epoch: Epoch,
    body: &[u8],
    out: &mut Transcript,
) -> Mem<()>
where
    Dir::Cfg: Drop,
    ensures acts { ProbeRuns (hears_in (fixed S.verifies Dir.spelling ⟦<Block<Dir> as Read>⟧.read_of terms.now.limits terms.now)
        state.old.awaited peer (BlockReply epoch body.now) state.old)
        (ended_in state.new result) out.old.entries out.new.entries }
    ensures kept { OnErr result (state.new.known ≡ state.old.known) }
{
    let Some(awaited) = &state.awaited else {
        return Ok(());
    };
    let Some((asked, finalization)) = awaited.asked() else {
        return Ok(());
    };
    if asked != peer || epoch != awaited.floor().epoch {
        return Ok(());
    }
    hear_body(alloc, terms, state, asked, finalization, body, out)
}

/// What a peer answers, while the artifact is looked for.
fn hear_response<S: Scheme, Dir: Directory + Drop>(
    alloc: Global,
    terms: &Terms<S, Dir>,
    state: &mut State<Dir>,
    peer: Key,
    response: &Response<'_>,
    out: &mut Transcript,
) -> Mem<()>
where
    Dir::Cfg: Drop,
    ensures acts { ProbeRuns (hears_in (fixed S.verifies Dir.spelling ⟦<Block<Dir> as Read>⟧.read_of terms.now.limits terms.now)
        state.old.awaited peer (said_by response.now) state.old)
        (ended_in state.new result) out.old.entries out.new.entries }
    ensures kept { OnErr result (state.new.known ≡ state.old.known) }
{
    match response {
        Response::Latest(finalization) => {
            hear_latest(alloc, terms, state, peer, *finalization, out)
        }
        Response::Boundary(finalization) => {
            hear_boundary(alloc, terms, state, peer, *finalization, out)
        }
        Response::Block { epoch, body } => {
            hear_block(alloc, terms, state, peer, *epoch, body, out)
        }
    }
}

/// A peer's message, while the artifact is looked for.
pub(crate) fn discover<S: Scheme, Dir: Directory + Drop>(
    alloc: Global,
    terms: &Terms<S, Dir>,
    state: &mut State<Dir>,
    peer: Key,
    bytes: &[u8],
    out: &mut Transcript,
) -> Mem<()>
where
    Dir::Cfg: Drop,
    ensures acts { ProbeRuns
        (discovers (fixed S.verifies Dir.spelling ⟦<Block<Dir> as Read>⟧.read_of terms.now.limits terms.now) peer (reply_of bytes.now) state.old)
        (ended_in state.new result) out.old.entries out.new.entries }
    ensures kept { OnErr result (state.new.known ≡ state.old.known) }
{
    match read_response(alloc, bytes) {
        Err(error) => {
            if is_want(&error) {
                return Err(NoMemory);
            }
            block(out, peer, BlockedWhy::Reply)
        }
        Ok(None) => Ok(()),
        Ok(Some(response)) => hear_response(alloc, terms, state, peer, &response, out),
    }
}
