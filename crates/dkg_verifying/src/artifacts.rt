//! The artifact that follows some logs: the next epoch's info, and this node's share of its output.
//!
//! Each function here is a part of the relation's `artifact`, and names it.
ghost use Rattle.std.specs.Prelude.{◌≡◌, ◌⊎◌, ◌+◌, ◌++◌, ◌<◌, ◌≤◌, ◌^◌, IfErr, IfOk, IsSome, IsSomeAnd, IsTrue, List, OnOk, Some, false, length, option_map, true};
ghost use Rattle.std.specs.Int.NonZero.{non_zero_u32_get};
ghost use Rattle.dkg_values.specs.Rising.{set_of};
ghost use Rattle.dkg_infos.specs.InfoCodes.{peers_of as peers_from};
ghost use Rattle.dkg_infos.specs.declared.entry.Entry.{Entry};
ghost use Rattle.dkg_infos.specs.declared.fault.Fault.TheVariants.{DirectoryMismatch, NoMemory as OutOfMemory};
ghost use Rattle.dkg_core.specs.Courses.{Goes};
ghost use Rattle.dkg_core.specs.Fixed.{Fixed};
ghost use Rattle.dkg_core.specs.Including as including;
ghost use Rattle.dkg_core.specs.Live.{Live};
ghost use Rattle.dkg_life.specs.Ends.{IsCaused, StopsOver, ends, ends_in};
ghost use Rattle.dkg_life.specs.Given.{IsOf, ReadsPlanless};
ghost use Rattle.dkg_life.specs.Made.{Makes, Tells};
ghost use Rattle.dkg_life.specs.Moved.{Moved};
ghost use Rattle.dkg_life.specs.Rules.{IncludesBy, SameProvided};
ghost use Rattle.dkg_life.specs.Steps.{IsFaultOrWant};
ghost use Rattle.dkg_life.specs.declared.stop.Stop.TheVariants.{Fault as Faulted};
ghost use Rattle.dkg_verifying.specs.Derived.{follows_with};
ghost use Rattle.dkg_verifying.specs.Including.{EndsCaching, derives_in, ended_by, reads_share, unprovided};
ghost use Rattle.dkg_verifying.specs.InclusionOf.{artifact_of, cached_of, checked_result_of, verified_of};

use dkg_artifact::{Artifact, ArtifactCache, Verified, VerifiedLogs};
use dkg_ceremony::{Ceremony, Output, Share};
use dkg_infos::{Directory, EpochInfo, EpochOutcome, Fault, ParticipantsCause};
use dkg_journal::Disk;
use dkg_life::{Stop, Terms};
use dkg_store::{Devices, SecretStore, Store};
use dkg_types::ParticipantsProvider;
use dkg_values::{Epoch, Key, Mem, NoMemory, Set, Value};
use std::alloc::Global;
use std::num::NonZeroU32;

/// The union of two sets. One of 2^32 keys or more is answered by want of memory.
fn union_of(alloc: Global, one: &Set, other: &Set) -> Mem<Set>
    ensures { IfOk result (λ set. set ≡ set_of (one.now ++ other.now)) }
{
    match one.len().checked_add(other.len()) {
        Some(_) => one.union(alloc, other),
        None => Err(NoMemory),
    }
}

/// The peers of an info: those who hold the key, the players and the next players (`info_peers`).
fn peers_of(alloc: Global, holders: &Set, players: &Set, next_players: &Set) -> Mem<Set>
    ensures { IfOk result (λ set. set ≡ peers_from holders.now players.now next_players.now) }
{
    let both = union_of(alloc, holders, players)?;
    union_of(alloc, &both, next_players)
}

/// The provider's set for the epoch after the one that follows (`with_provided`).
///
/// HeightRange: that epoch passes 64 bits. InvalidParticipants: else its set is empty, or above the limit.
fn provided<P: ParticipantsProvider>(
    alloc: Global,
    provider: &mut P,
    limit: NonZeroU32,
    epoch: Epoch,
) -> Result<Set, Stop>
    ensures provider { IsTrue P.tells → SameProvided (P.participants_of provider.old) (P.participants_of provider.new)
        (P.directory_of provider.old) (P.directory_of provider.new) }
    ensures ok { IfOk result (λ set. IsTrue P.tells → set ≡ P.participants_of provider.old (epoch + 2)) }
    ensures within { IfOk result (λ set. (epoch + 2 < 2 ^ 64) × (0 < length set) × (length set ≤ non_zero_u32_get limit)) }
    ensures err { IfErr result (λ stop. IsTrue P.tells → IsFaultOrWant (unprovided (P.participants_of provider.old) (non_zero_u32_get limit) epoch) stop) }
    ensures causes { IfErr result (λ stop. IsCaused stop ⊥ ⊥ ⊥) }
{
    let Some(after) = epoch.0.checked_add(2) else {
        return Err(Stop::Fault(Fault::HeightRange));
    };
    let set = provider.participants(alloc, Epoch(after))?;
    let cause = if set.is_empty() {
        ParticipantsCause::ProviderEmpty
    } else if set.len() > limit.get() {
        ParticipantsCause::ProviderAbove {
            actual: set.len(),
            max: limit.get(),
        }
    } else {
        return Ok(set);
    };
    Err(Stop::Fault(Fault::InvalidParticipants(cause)))
}

/// This node's share of what follows: a result's own, and behind a failure the one that is stored for the epoch, where the node is a player of
/// the output (`share_by`).
fn share_by<Dir: Directory + Drop, D: Disk, X: SecretStore>(
    alloc: Global,
    me: Key,
    store: &mut Store<Dir>,
    devices: &mut Devices<'_, D, X>,
    info: &EpochInfo<Dir>,
    found: &Option<Verified>,
) -> Result<Option<Share>, Stop>
    ensures store { store.new ≡ store.old }
    ensures disk { devices.new.disk.now ≡ devices.old.disk.now }
    ensures held { X.held devices.new.secrets.now ≡ X.held devices.old.secrets.now }
    ensures acts { IsTrue D.tells → IsTrue X.tells → (c : Fixed Dir) → c.me ≡ me → ReadsPlanless c → (out : List Entry)
        → Makes D.files D.image X.held (reads_share c info.now (option_map verified_of found.now)) (ends (λ share. share) result)
        devices.old devices.new out out }
    ensures tells { (c : Fixed Dir) → c.me ≡ me → ReadsPlanless c → (out : List Entry)
        → Tells (reads_share c info.now (option_map verified_of found.now)) (ends (λ share. share) result) out out }
    ensures moved { Moved D.tells D.made X.made D.faults X.faults devices.old devices.new }
    ensures causes { StopsOver D.faults X.faults devices.old devices.new result }
{
    match found {
        Some(verified) => Ok(verified.share),
        None if info.output.players.has(me) => Ok(store.share(alloc, devices, info.epoch)?),
        None => Ok(None),
    }
}

/// How an epoch's ceremony ended, and the output of the next one: the result's, or the one that is carried on.
fn ended_in(alloc: Global, carried: Output, found: &Option<Verified>) -> Mem<(EpochOutcome, Output)>
    ensures { IfOk result (λ made. made ≡ ended_by carried found.now) }
{
    match found {
        Some(verified) => Ok((EpochOutcome::Success, verified.output.copy(alloc)?)),
        None => Ok((EpochOutcome::Failure, carried)),
    }
}

/// The info after an info (`info_by`, `with_directory`): who was to play next plays, and the provider's set plays after them.
///
/// DirectoryMismatch: the provider's directory isn't one of exactly its peers.
fn info_after<P: ParticipantsProvider>(
    alloc: Global,
    provider: &mut P,
    info: EpochInfo<P::Dir>,
    found: &Option<Verified>,
    next_players: Set,
) -> Result<EpochInfo<P::Dir>, Stop>
where
    P::Dir: Drop,
    requires below { info.epoch + 1 < 2 ^ 64 }
    ensures provider { IsTrue P.tells → SameProvided (P.participants_of provider.old) (P.participants_of provider.new)
        (P.directory_of provider.old) (P.directory_of provider.new) }
    ensures ok { IfOk result (λ made. IsTrue P.tells → (made ≡ follows_with (P.directory_of provider.old) info found.now next_players)
        × (P.Dir.matches_of made.directory (including.info_peers made) ≡ true)) }
    ensures err { IfErr result (λ stop. IsTrue P.tells → (stop ≡ Faulted OutOfMemory) ⊎ ((stop ≡ Faulted (DirectoryMismatch (info.epoch + 1)))
        × (let made = follows_with (P.directory_of provider.old) info found.now next_players in P.Dir.matches_of made.directory
        (including.info_peers made) ≡ false))) }
    ensures causes { IfErr result (λ stop. IsCaused stop ⊥ ⊥ ⊥) }
{
    let epoch = Epoch(info.epoch.0 + 1);
    let players = info.next_players;
    let (outcome, output) = ended_in(alloc, info.output, found)?;
    let peers = peers_of(alloc, &output.players, &players, &next_players)?;
    let directory = provider.directory(alloc, epoch, &peers)?;
    if !directory.matches(&peers) {
        return Err(Stop::Fault(Fault::DirectoryMismatch { epoch }));
    }
    Ok(EpochInfo {
        outcome,
        epoch,
        output,
        players,
        next_players,
        directory,
    })
}

/// A copy of the info of the epoch, which an epoch's setup has committed.
fn current_of<Dir: Directory + Drop>(alloc: Global, store: &Store<Dir>) -> Mem<EpochInfo<Dir>>
    requires { IsSome store.now.current }
    ensures { IfOk result (λ info. Some info ≡ store.now.current) }
{
    match store.current() {
        Some(info) => info.copy(alloc),
        None => unreachable!(),
    }
}

/// The artifact of a result: the info of the next epoch, and this node's share of it (`derives_next`).
fn derive<
    C: Ceremony,
    P: ParticipantsProvider<Dir = Dir>,
    Dir: Directory + Drop,
    D: Disk,
    X: SecretStore,
>(
    alloc: Global,
    provider: &mut P,
    terms: &Terms,
    store: &mut Store<Dir>,
    devices: &mut Devices<'_, D, X>,
    verified: &VerifiedLogs<C>,
) -> Result<Artifact<Dir>, Stop>
    requires current { IsSome store.old.current }
    ensures store { store.new ≡ store.old }
    ensures provider { IsTrue P.tells → SameProvided (P.participants_of provider.old) (P.participants_of provider.new)
        (P.directory_of provider.old) (P.directory_of provider.new) }
    ensures disk { devices.new.disk.now ≡ devices.old.disk.now }
    ensures held { X.held devices.new.secrets.now ≡ X.held devices.old.secrets.now }
    ensures acts { IsTrue D.tells → IsTrue X.tells → IsTrue P.tells → (info : EpochInfo Dir) (c : Fixed Dir) → store.old.current ≡ Some info
        → IsOf terms.now c
        → ReadsPlanless c
        → IncludesBy C.check_log_of C.outcome_of C.finish_of (P.participants_of provider.old) (P.directory_of provider.old) Dir.spelling Dir.matches_of c
        → (out : List Entry) → Makes D.files D.image X.held (derives_in c info (checked_result_of verified.now)) (ends artifact_of result)
        devices.old devices.new out out }
    ensures tells { IsTrue P.tells → (info : EpochInfo Dir) (c : Fixed Dir) → store.old.current ≡ Some info → IsOf terms.now c → ReadsPlanless c
        → IncludesBy C.check_log_of C.outcome_of C.finish_of (P.participants_of provider.old) (P.directory_of provider.old) Dir.spelling Dir.matches_of c
        → (out : List Entry) → Tells (derives_in c info (checked_result_of verified.now)) (ends artifact_of result) out out }
    ensures moved { Moved D.tells D.made X.made D.faults X.faults devices.old devices.new }
    ensures causes { StopsOver D.faults X.faults devices.old devices.new result }
{
    let info = current_of(alloc, store)?;
    let next_players = provided(alloc, provider, terms.limit, info.epoch)?;
    let share = share_by(alloc, terms.me, store, devices, &info, &verified.result)?;
    let info = info_after(alloc, provider, info, &verified.result, next_players)?;
    Ok(Artifact {
        info: Some(info),
        share,
    })
}

/// Sees to it that the artifact of a result's logs is the one that is kept (`artifact`, `keeping`).
pub fn keep_artifact<
    C: Ceremony,
    P: ParticipantsProvider<Dir = Dir>,
    Dir: Directory + Drop,
    D: Disk,
    X: SecretStore,
>(
    alloc: Global,
    provider: &mut P,
    terms: &Terms,
    store: &mut Store<Dir>,
    devices: &mut Devices<'_, D, X>,
    cache: &mut ArtifactCache<Dir>,
    verified: &VerifiedLogs<C>,
) -> Result<(), Stop>
    requires current { IsSome store.old.current }
    ensures store { store.new ≡ store.old }
    ensures kept { OnOk result (IsSomeAnd cache.new (λ k. k.0 ≡ verified.now.logs)) }
    ensures provider { IsTrue P.tells → SameProvided (P.participants_of provider.old) (P.participants_of provider.new)
        (P.directory_of provider.old) (P.directory_of provider.new) }
    ensures disk { devices.new.disk.now ≡ devices.old.disk.now }
    ensures held { X.held devices.new.secrets.now ≡ X.held devices.old.secrets.now }
    ensures acts { IsTrue D.tells → IsTrue X.tells → IsTrue P.tells → (c : Fixed Dir) (st : Live Dir) → IsOf terms.now c → ReadsPlanless c
        → IncludesBy C.check_log_of C.outcome_of C.finish_of (P.participants_of provider.old) (P.directory_of provider.old) Dir.spelling Dir.matches_of c
        → st.participation.current ≡ store.old.current → st.inclusion.cached ≡ option_map cached_of cache.old
        → (out : List Entry) → EndsCaching cache.new st (λ now. Makes D.files D.image X.held
        (including.artifact c (checked_result_of verified.now) st (λ made st. Goes st)) (ends_in now result) devices.old devices.new out out) }
    ensures tells { IsTrue P.tells → (c : Fixed Dir) (st : Live Dir) → IsOf terms.now c → ReadsPlanless c
        → IncludesBy C.check_log_of C.outcome_of C.finish_of (P.participants_of provider.old) (P.directory_of provider.old) Dir.spelling Dir.matches_of c
        → st.participation.current ≡ store.old.current → st.inclusion.cached ≡ option_map cached_of cache.old
        → (out : List Entry) → EndsCaching cache.new st (λ now. Tells
        (including.artifact c (checked_result_of verified.now) st (λ made st. Goes st)) (ends_in now result) out out) }
    ensures moved { Moved D.tells D.made X.made D.faults X.faults devices.old devices.new }
    ensures causes { StopsOver D.faults X.faults devices.old devices.new result }
{
    if cache.get(&verified.logs).is_some() {
        return Ok(());
    }
    let artifact = derive(alloc, provider, terms, store, devices, verified)?;
    cache.keep(verified.logs.copy(alloc)?, artifact);
    Ok(())
}
