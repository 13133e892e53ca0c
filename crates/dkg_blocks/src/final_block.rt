//! The last block of an epoch that the node takes part in: the epoch's artifact is derived, what the block carries is committed and
//! registered, the requests that are left are answered, and the next epoch is set up, all in one step.
//!
//! Each function here is a part of the relation's `final_block`, and names it.
ghost use Rattle.std.specs.Prelude.{◌≡◌, ◌↔◌, ◌+◌, [], IfErr, IfOk, IsSome, IsSomeAnd, IsTrue, List, None, OnOk, Some, option_map, ◌<◌};
ghost use Rattle.std.specs.Int.NonZero.{non_zero_u32_get, non_zero_u64_get};
ghost use Rattle.dkg_ceremony.specs.declared.round.RoundParts.{RoundParts as Round};
ghost use Rattle.dkg_fence.specs.Readiness.{Readiness};
ghost use Rattle.dkg_core.specs.Fixed.{Fixed};
ghost use Rattle.dkg_core.specs.Including as including;
ghost use Rattle.dkg_ceremony.specs.Schedule.{epoch_of, midpoint};
ghost use Rattle.dkg_infos.specs.declared.entry.Entry.{Entry};
ghost use Rattle.dkg_infos.specs.declared.fault.Fault.TheVariants.{NoMemory as OutOfMemory};
ghost use Rattle.dkg_core.specs.Same.{same_info};
ghost use Rattle.dkg_core.specs.Blocks as blocks;
ghost use Rattle.dkg_life.specs.Ready.{IsReadyLife};
ghost use Rattle.dkg_life.specs.Ends.{IsCaused, StopsOver, StopsReading, ends_in, ends};
ghost use Rattle.dkg_life.specs.Given.{IsOf, ReadsPlanless, IsIn};
ghost use Rattle.dkg_life.specs.LiveOf.{Beside, EndsWith, live_of, TookSchemes};
ghost use Rattle.dkg_life.specs.Made.{Makes, Tells, Speaks};
ghost use Rattle.dkg_life.specs.Moved.{IsFirm, Moved};
ghost use Rattle.dkg_life.specs.Rules.{IncludesBy, IsRuledBy, SameProvided};
ghost use Rattle.dkg_life.specs.declared.life.Life.{Life};
ghost use Rattle.dkg_life.specs.declared.life.Stage.TheVariants.{Including};
ghost use Rattle.dkg_life.specs.declared.stop.Stop.TheVariants.{Fault as Faulted};
ghost use Rattle.dkg_verifying.specs.Concluded.{FindsBy, HaveSameParts, canonical_in, sees_verified, verifies};
ghost use Rattle.dkg_verifying.specs.Including.{derives_by, derives_final, derives_now};
ghost use Rattle.dkg_verifying.specs.InclusionOf.{IsReadyInclusion, IsSeen, IsSettledInclusion, artifact_of, cached_of};
ghost use Rattle.dkg_verifying.specs.Looks.{OnlyLooks};
ghost use Rattle.dkg_blocks.specs.Applied.{MovesOn, IsGivenLast};

use crate::following::carried_info;
use dkg_artifact::{Artifact, ArtifactCache};
use dkg_ceremony::{Bounds, Ceremony, DealerLog, Share, encode};
use dkg_fence::Fence;
use dkg_infos::{Directory, EpochInfo, Transcript, Why};
use dkg_journal::Disk;
use dkg_life::{Life, Stop, Terms, tip_of};
use dkg_setup::{EpochSecrets, commit_and_register, secrets_with, set_up_committed};
use dkg_store::{Devices, SecretStore};
use dkg_types::{Block, ParticipantsProvider, Registrar};
use dkg_values::{Map, Mem, Value};
use dkg_verifying::{
    Inclusion, answer_none, canonical, end_verifying, job_for, keep_artifact, retain, verify,
};
use std::alloc::Global;

/// A copy of the artifact that is kept for some logs, if one is (`cached_for`).
fn kept_for<Dir: Directory + Drop>(
    alloc: Global,
    cache: &ArtifactCache<Dir>,
    logs: &Map<DealerLog>,
) -> Mem<Option<Artifact<Dir>>>
    ensures { IfOk result (λ made. option_map artifact_of made ≡ including.cached_for (option_map cached_of cache.now) logs.now) }
{
    match cache.get(logs) {
        None => Ok(None),
        Some(artifact) => Ok(Some(artifact.copy(alloc)?)),
    }
}

/// Verifies the canonical logs within the step, and keeps the result (`verifies_now` but its end).
fn verify_now<C: Ceremony + Drop, Dir: Directory + Drop>(
    alloc: Global,
    ceremony: &C,
    terms: &Terms,
    life: &Life<Dir>,
    inclusion: &mut Inclusion<C, Dir>,
    logs: &Map<DealerLog>,
) -> Result<(), Stop>
    requires round { IsSome life.now.round }
    requires canonical { logs.now ≡ canonical_in life.now }
    requires idle { inclusion.old.verification.running ≡ None }
    ensures rest { inclusion.new ≡ record inclusion.old { verification = inclusion.new.verification; waiter = inclusion.new.waiter } }
    ensures idle { OnOk result (inclusion.new.verification.running ≡ None) }
    ensures ready { OnOk result (IsSomeAnd inclusion.new.verification.kept (λ r. r.logs ≡ logs.now)) }
    ensures speaks { (c : Fixed Dir) (round : Round) (beside : Beside Dir) (fence : Readiness) → c.me ≡ terms.now.me
        → FindsBy C.bears_ack_of C.dealing_of C.outcome_of C.finish_of c → midpoint c.blocks_per_epoch life.now.epoch ≡ life.now.midpoint
        → life.now.round ≡ Some round → IsSeen inclusion.old beside.inclusion → EndsWith beside (λ i. OnOk result (IsSeen inclusion.new i)) (λ more. more ≡ [])
        (λ now. (out : List Entry) → Speaks (verifies c round logs.now (live_of beside fence life.now)) (ends_in (live_of now fence life.now) result) out out) }
    ensures causes { IfErr result (λ stop. IsCaused stop ⊥ ⊥ ⊥) }
{
    let Some(round) = &life.round else {
        unreachable!();
    };
    let copied = logs.copy(alloc)?;
    let job = job_for(alloc, ceremony, terms.me, &life.store, round, copied)?;
    let verified = verify(alloc, ceremony, job)?;
    Ok(retain(alloc, life, inclusion, verified)?)
}

/// Sees to it that the result of the canonical logs is the one that is kept (`derives_now` but its end).
fn see_verified<C: Ceremony + Drop, Dir: Directory + Drop>(
    alloc: Global,
    ceremony: &C,
    terms: &Terms,
    life: &Life<Dir>,
    inclusion: &mut Inclusion<C, Dir>,
    logs: &Map<DealerLog>,
) -> Result<(), Stop>
    requires round { IsSome life.now.round }
    requires canonical { logs.now ≡ canonical_in life.now }
    requires idle { inclusion.old.verification.running ≡ None }
    ensures rest { inclusion.new ≡ record inclusion.old { verification = inclusion.new.verification; waiter = inclusion.new.waiter } }
    ensures idle { OnOk result (inclusion.new.verification.running ≡ None) }
    ensures ready { OnOk result (IsSomeAnd inclusion.new.verification.kept (λ r. r.logs ≡ logs.now)) }
    ensures speaks { (c : Fixed Dir) (round : Round) (beside : Beside Dir) (fence : Readiness) → c.me ≡ terms.now.me
        → FindsBy C.bears_ack_of C.dealing_of C.outcome_of C.finish_of c → midpoint c.blocks_per_epoch life.now.epoch ≡ life.now.midpoint
        → life.now.round ≡ Some round → IsSeen inclusion.old beside.inclusion → EndsWith beside (λ i. OnOk result (IsSeen inclusion.new i)) (λ more. more ≡ [])
        (λ now. (out : List Entry) → Speaks (sees_verified c round logs.now (live_of beside fence life.now))
        (ends_in (live_of now fence life.now) result) out out) }
    ensures causes { IfErr result (λ stop. IsCaused stop ⊥ ⊥ ⊥) }
{
    if inclusion.verification.ready(logs).is_some() {
        return Ok(());
    }
    verify_now(alloc, ceremony, terms, life, inclusion, logs)
}

/// The artifact of the canonical logs by their result, which is found now where none is kept (`derives_now` but its end).
fn derive_now<
    C: Ceremony + Drop,
    P: ParticipantsProvider<Dir = Dir>,
    Dir: Directory + Drop,
    D: Disk,
    X: SecretStore,
>(
    alloc: Global,
    ceremony: &C,
    provider: &mut P,
    terms: &Terms,
    life: &mut Life<Dir>,
    inclusion: &mut Inclusion<C, Dir>,
    devices: &mut Devices<'_, D, X>,
    logs: &Map<DealerLog>,
) -> Result<Artifact<Dir>, Stop>
    requires ready { IsReadyLife D.tells D.files D.image C.ack_of C.deal_of C.check_ack_of terms.now life.old devices.old }
    requires current { IsSome life.old.store.current }
    requires includes { life.old.stage ≡ Including }
    requires canonical { logs.now ≡ canonical_in life.old }
    requires idle { inclusion.old.verification.running ≡ None }
    ensures rest { inclusion.new ≡ record inclusion.old {
      verification = inclusion.new.verification;
      waiter = inclusion.new.waiter;
      cache = inclusion.new.cache;
    } }
    ensures idle { OnOk result (inclusion.new.verification.running ≡ None) }
    ensures stays { OnlyLooks life.old life.new X.held devices.old devices.new P.tells (P.participants_of provider.old) (P.participants_of provider.new)
        (P.directory_of provider.old) (P.directory_of provider.new) }
    ensures acts { IsTrue D.tells → IsTrue X.tells → IsTrue P.tells → (c : Fixed Dir) (round : Round) (beside : Beside Dir) (fence : Readiness)
        (out : List Entry) → IsOf terms.now c → ReadsPlanless c
        → IsRuledBy C.round_of C.deal_of C.dealing_of C.ack_of C.check_ack_of C.sign_log_of C.bears_ack_of C.share_public_of C.partial_public_of c.rules
        → IncludesBy C.check_log_of C.outcome_of C.finish_of (P.participants_of provider.old) (P.directory_of provider.old) Dir.spelling Dir.matches_of c
        → life.old.round ≡ Some round → IsSeen inclusion.old beside.inclusion → EndsWith beside (λ i. OnOk result (IsSeen inclusion.new i)) (λ more. more ≡ [])
        (λ now. Makes D.files D.image X.held (derives_now c round logs.now (live_of beside fence life.old)) (ends
        (λ made. (artifact_of made, live_of now fence life.new)) result)
        devices.old devices.new out out) }
    ensures tells { IsTrue P.tells → (c : Fixed Dir) (round : Round) (beside : Beside Dir) (fence : Readiness) (out : List Entry) → IsOf terms.now c
        → ReadsPlanless c
        → IsRuledBy C.round_of C.deal_of C.dealing_of C.ack_of C.check_ack_of C.sign_log_of C.bears_ack_of C.share_public_of C.partial_public_of c.rules
        → IncludesBy C.check_log_of C.outcome_of C.finish_of (P.participants_of provider.old) (P.directory_of provider.old) Dir.spelling Dir.matches_of c
        → life.old.round ≡ Some round → IsSeen inclusion.old beside.inclusion → EndsWith beside (λ i. OnOk result (IsSeen inclusion.new i)) (λ more. more ≡ [])
        (λ now. Tells (derives_now c round logs.now (live_of beside fence life.old)) (ends
        (λ made. (artifact_of made, live_of now fence life.new)) result) out out) }
    ensures moved { Moved D.tells D.made X.made D.faults X.faults devices.old devices.new }
    ensures causes { StopsOver D.faults X.faults devices.old devices.new result }
{
    see_verified(alloc, ceremony, terms, life, inclusion, logs)?;
    let Some(ready) = inclusion.verification.ready(logs) else {
        unreachable!();
    };
    keep_artifact(
        alloc,
        provider,
        terms,
        &mut life.store,
        devices,
        &mut inclusion.cache,
        ready,
    )?;
    let kept = kept_for(alloc, &inclusion.cache, logs)?;
    match kept {
        Some(artifact) => Ok(artifact),
        None => unreachable!(),
    }
}

/// The artifact of the canonical logs: the one that was kept before the verification ended, else the one that is kept now, or that of a result
/// (`concludes_by` but its end).
fn artifact_by<
    C: Ceremony + Drop,
    P: ParticipantsProvider<Dir = Dir>,
    Dir: Directory + Drop,
    D: Disk,
    X: SecretStore,
>(
    alloc: Global,
    ceremony: &C,
    provider: &mut P,
    terms: &Terms,
    life: &mut Life<Dir>,
    inclusion: &mut Inclusion<C, Dir>,
    devices: &mut Devices<'_, D, X>,
    logs: &Map<DealerLog>,
    before: Option<Artifact<Dir>>,
) -> Result<Artifact<Dir>, Stop>
    requires ready { IsReadyLife D.tells D.files D.image C.ack_of C.deal_of C.check_ack_of terms.now life.old devices.old }
    requires current { IsSome life.old.store.current }
    requires includes { life.old.stage ≡ Including }
    requires canonical { logs.now ≡ canonical_in life.old }
    requires idle { inclusion.old.verification.running ≡ None }
    ensures rest { inclusion.new ≡ record inclusion.old {
      verification = inclusion.new.verification;
      waiter = inclusion.new.waiter;
      cache = inclusion.new.cache;
    } }
    ensures idle { OnOk result (inclusion.new.verification.running ≡ None) }
    ensures stays { OnlyLooks life.old life.new X.held devices.old devices.new P.tells (P.participants_of provider.old) (P.participants_of provider.new)
        (P.directory_of provider.old) (P.directory_of provider.new) }
    ensures acts { IsTrue D.tells → IsTrue X.tells → IsTrue P.tells → (c : Fixed Dir) (round : Round) (beside : Beside Dir) (fence : Readiness)
        (out : List Entry) → IsOf terms.now c → ReadsPlanless c
        → IsRuledBy C.round_of C.deal_of C.dealing_of C.ack_of C.check_ack_of C.sign_log_of C.bears_ack_of C.share_public_of C.partial_public_of c.rules
        → IncludesBy C.check_log_of C.outcome_of C.finish_of (P.participants_of provider.old) (P.directory_of provider.old) Dir.spelling Dir.matches_of c
        → life.old.round ≡ Some round → IsSeen inclusion.old beside.inclusion → EndsWith beside (λ i. OnOk result (IsSeen inclusion.new i)) (λ more. more ≡ [])
        (λ now. Makes D.files D.image X.held (derives_by c round logs.now (option_map artifact_of before) (live_of beside fence life.old)) (ends
        (λ made. (artifact_of made, live_of now fence life.new)) result)
        devices.old devices.new out out) }
    ensures tells { IsTrue P.tells → (c : Fixed Dir) (round : Round) (beside : Beside Dir) (fence : Readiness) (out : List Entry) → IsOf terms.now c
        → ReadsPlanless c
        → IsRuledBy C.round_of C.deal_of C.dealing_of C.ack_of C.check_ack_of C.sign_log_of C.bears_ack_of C.share_public_of C.partial_public_of c.rules
        → IncludesBy C.check_log_of C.outcome_of C.finish_of (P.participants_of provider.old) (P.directory_of provider.old) Dir.spelling Dir.matches_of c
        → life.old.round ≡ Some round → IsSeen inclusion.old beside.inclusion → EndsWith beside (λ i. OnOk result (IsSeen inclusion.new i)) (λ more. more ≡ [])
        (λ now. Tells (derives_by c round logs.now (option_map artifact_of before) (live_of beside fence life.old)) (ends
        (λ made. (artifact_of made, live_of now fence life.new)) result) out out) }
    ensures moved { Moved D.tells D.made X.made D.faults X.faults devices.old devices.new }
    ensures causes { StopsOver D.faults X.faults devices.old devices.new result }
{
    if let Some(artifact) = before {
        return Ok(artifact);
    }
    let kept = kept_for(alloc, &inclusion.cache, logs)?;
    if let Some(artifact) = kept {
        return Ok(artifact);
    }
    derive_now(
        alloc, ceremony, provider, terms, life, inclusion, devices, logs,
    )
}

/// Ends the running verification, and derives the artifact of the canonical logs (`final_block` but its end).
fn derive<
    C: Ceremony + Drop,
    P: ParticipantsProvider<Dir = Dir>,
    Dir: Directory + Drop,
    D: Disk,
    X: SecretStore,
>(
    alloc: Global,
    ceremony: &C,
    provider: &mut P,
    terms: &Terms,
    life: &mut Life<Dir>,
    inclusion: &mut Inclusion<C, Dir>,
    devices: &mut Devices<'_, D, X>,
    out: &mut Transcript,
) -> Result<Artifact<Dir>, Stop>
    requires ready { IsReadyLife D.tells D.files D.image C.ack_of C.deal_of C.check_ack_of terms.now life.old devices.old }
    requires including { IsReadyInclusion C.check_log_of C.dealing_of C.finish_of (non_zero_u64_get terms.now.blocks_per_epoch) life.old inclusion.old }
    requires includes { life.old.stage ≡ Including }
    ensures including { OnOk result (IsReadyInclusion C.check_log_of C.dealing_of C.finish_of (non_zero_u64_get terms.now.blocks_per_epoch) life.new
        inclusion.new) }
    ensures hand { inclusion.new.hand ≡ inclusion.old.hand }
    ensures stays { OnlyLooks life.old life.new X.held devices.old devices.new P.tells (P.participants_of provider.old) (P.participants_of provider.new)
        (P.directory_of provider.old) (P.directory_of provider.new) }
    ensures acts { IsTrue D.tells → IsTrue X.tells → IsTrue P.tells → (c : Fixed Dir) (round : Round) (beside : Beside Dir) (fence : Readiness)
        → IsOf terms.now c → ReadsPlanless c
        → IsRuledBy C.round_of C.deal_of C.dealing_of C.ack_of C.check_ack_of C.sign_log_of C.bears_ack_of C.share_public_of C.partial_public_of c.rules
        → IncludesBy C.check_log_of C.outcome_of C.finish_of (P.participants_of provider.old) (P.directory_of provider.old) Dir.spelling Dir.matches_of c
        → life.old.round ≡ Some round → IsSeen inclusion.old beside.inclusion → EndsWith beside (λ i. OnOk result (IsSeen inclusion.new i)) (λ more. more ≡ [])
        (λ now. Makes D.files D.image X.held (derives_final c round (live_of beside fence life.old)) (ends
        (λ made. (artifact_of made, live_of now fence life.new)) result)
        devices.old devices.new out.old.entries out.new.entries) }
    ensures tells { IsTrue P.tells → (c : Fixed Dir) (round : Round) (beside : Beside Dir) (fence : Readiness) → IsOf terms.now c → ReadsPlanless c
        → IsRuledBy C.round_of C.deal_of C.dealing_of C.ack_of C.check_ack_of C.sign_log_of C.bears_ack_of C.share_public_of C.partial_public_of c.rules
        → IncludesBy C.check_log_of C.outcome_of C.finish_of (P.participants_of provider.old) (P.directory_of provider.old) Dir.spelling Dir.matches_of c
        → life.old.round ≡ Some round → IsSeen inclusion.old beside.inclusion → EndsWith beside (λ i. OnOk result (IsSeen inclusion.new i)) (λ more. more ≡ [])
        (λ now. Tells (derives_final c round (live_of beside fence life.old)) (ends
        (λ made. (artifact_of made, live_of now fence life.new)) result) out.old.entries out.new.entries) }
    ensures moved { Moved D.tells D.made X.made D.faults X.faults devices.old devices.new }
    ensures causes { StopsOver D.faults X.faults devices.old devices.new result }
{
    let logs = canonical(alloc, life)?;
    let before = kept_for(alloc, &inclusion.cache, &logs)?;
    end_verifying(
        alloc, ceremony, provider, terms, life, inclusion, devices, None, out,
    )?;
    artifact_by(
        alloc, ceremony, provider, terms, life, inclusion, devices, &logs, before,
    )
}

/// Whether two infos are one in all but their directories.
fn has_same_parts<Dir: Directory + Drop>(one: &EpochInfo<Dir>, other: &EpochInfo<Dir>) -> bool
    ensures { IsTrue result ↔ HaveSameParts one.now other.now }
{
    one.outcome == other.outcome
        && one.epoch == other.epoch
        && one.output.same(&other.output)
        && one.players.same(&other.players)
        && one.next_players.same(&other.next_players)
}

/// Whether two infos are one (`same_info`): their directories are where their spellings are.
fn is_same_info<Dir: Directory + Drop>(
    alloc: Global,
    one: &EpochInfo<Dir>,
    other: &EpochInfo<Dir>,
) -> Mem<bool>
    ensures { IfOk result (λ yes. (c : Fixed Dir) → c.directories.spelling ≡ Dir.spelling → yes ≡ same_info c.directories one.now other.now) }
{
    if !has_same_parts(one, other) {
        return Ok(false);
    }
    let spelled = encode(alloc, one)?;
    let twin = encode(alloc, other)?;
    let same = spelled.same(&twin);
    Ok(same)
}

/// The artifact's share, where its info is the one that the block carries (`share_for`).
fn share_for<Dir: Directory + Drop>(
    alloc: Global,
    info: &EpochInfo<Dir>,
    artifact: &Artifact<Dir>,
) -> Mem<Option<Share>>
    ensures { IfOk result (λ share. (c : Fixed Dir) → c.directories.spelling ≡ Dir.spelling
        → share ≡ blocks.share_for c info.now (artifact_of artifact.now)) }
{
    let Some(derived) = &artifact.info else {
        return Ok(None);
    };
    if is_same_info(alloc, derived, info)? {
        return Ok(artifact.share);
    }
    Ok(None)
}

/// Answers the requests that are left: the final block came first (`answers_all`).
fn answer_all<C: Ceremony, Dir: Directory + Drop>(
    alloc: Global,
    inclusion: &mut Inclusion<C, Dir>,
    out: &mut Transcript,
) -> Result<(), Stop>
    requires { inclusion.old.hand ≡ None }
    ensures speaks { (beside : Beside Dir) (fence : Readiness) (life : Life Dir) → IsSeen inclusion.old beside.inclusion
        → EndsWith beside (λ i. OnOk result (IsSeen inclusion.new i)) (λ more. more ≡ [])
        (λ now. Speaks (blocks.answers_all beside.inclusion.queue (live_of beside fence life)) (ends_in (live_of now fence life) result)
        out.old.entries out.new.entries) }
    ensures memory { IfErr result (λ stop. stop ≡ Faulted OutOfMemory) }
{
    while let Some(request) = inclusion.requests.pop() {
        answer_none(
            alloc,
            &mut inclusion.told,
            request.number,
            Why::Finished,
            out,
        )?;
    }
    Ok(())
}

/// Goes on to the next epoch: the tip, the requests that are left, and then the setup (`passes_on`).
fn pass_on<C: Ceremony + Drop, R: Registrar, Dir: Directory + Drop, D: Disk, X: SecretStore>(
    alloc: Global,
    ceremony: &C,
    signer: &C::Signer,
    registrar: &mut R,
    terms: &Terms,
    life: &mut Life<Dir>,
    inclusion: &mut Inclusion<C, Dir>,
    devices: &mut Devices<'_, D, X>,
    block: &Block<Dir>,
    info: &EpochInfo<Dir>,
    fence: &mut Fence,
    out: &mut Transcript,
) -> Result<(), Stop>
    requires next { info.now.epoch ≡ epoch_of (non_zero_u64_get terms.now.blocks_per_epoch) (block.now.height + 1) }
    requires current { life.old.store.current ≡ Some info.now }
    requires idle { inclusion.old.hand ≡ None }
    requires me { terms.now.me ≡ C.Signer.key_of signer.now }
    requires open { IsTrue D.tells → IsFirm life.old.store.journal (D.files devices.old.disk.now) (D.image devices.old.disk.now) }
    ensures ready { OnOk result (IsReadyLife D.tells D.files D.image C.ack_of C.deal_of C.check_ack_of terms.now life.new devices.new) }
    ensures including { OnOk result (IsSettledInclusion C.check_log_of C.dealing_of C.finish_of (non_zero_u64_get terms.now.blocks_per_epoch) life.new
        inclusion.new) }
    ensures moves { MovesOn life.old life.new D.tells D.made X.made D.faults X.faults D.image (non_zero_u32_get terms.now.limit) devices.old devices.new }
    ensures acts { IsTrue D.tells → IsTrue X.tells → (c : Fixed Dir) (beside : Beside Dir) → IsIn terms.now life.old.word c → ReadsPlanless c
        → IsRuledBy C.round_of C.deal_of C.dealing_of C.ack_of C.check_ack_of C.sign_log_of C.bears_ack_of C.share_public_of C.partial_public_of c.rules
        → IsSeen inclusion.old beside.inclusion → EndsWith beside (λ i. OnOk result (IsSeen inclusion.new i))
        (λ more. OnOk result (TookSchemes R.tells (R.taken registrar.old) (R.taken registrar.new) more))
        (λ now. Makes D.files D.image X.held (blocks.passes_on c block.now (Some info.now) (live_of beside fence.old life.old)) (ends_in
        (live_of now fence.new life.new) result)
        devices.old devices.new out.old.entries out.new.entries) }
    ensures tells { (c : Fixed Dir) (beside : Beside Dir) → IsIn terms.now life.old.word c → ReadsPlanless c
        → IsRuledBy C.round_of C.deal_of C.dealing_of C.ack_of C.check_ack_of C.sign_log_of C.bears_ack_of C.share_public_of C.partial_public_of c.rules
        → IsSeen inclusion.old beside.inclusion → EndsWith beside (λ i. OnOk result (IsSeen inclusion.new i))
        (λ more. OnOk result (TookSchemes R.tells (R.taken registrar.old) (R.taken registrar.new) more))
        (λ now. Tells (blocks.passes_on c block.now (Some info.now) (live_of beside fence.old life.old)) (ends_in (live_of now fence.new life.new) result)
        out.old.entries out.new.entries) }
    ensures causes { StopsReading D.tells D.faults X.faults devices.old devices.new result }
{
    life.tip = Some(tip_of(block));
    answer_all(alloc, inclusion, out)?;
    inclusion.renew(alloc);
    set_up_committed(
        alloc, ceremony, signer, registrar, terms, life, devices, info, fence, out,
    )
}

/// Commits and registers the info that the epoch's last block carries, with the artifact's share where that is its own, and goes on
/// (`takes_over`).
fn take_over<C: Ceremony + Drop, R: Registrar, Dir: Directory + Drop, D: Disk, X: SecretStore>(
    alloc: Global,
    ceremony: &C,
    signer: &C::Signer,
    registrar: &mut R,
    terms: &Terms,
    life: &mut Life<Dir>,
    inclusion: &mut Inclusion<C, Dir>,
    devices: &mut Devices<'_, D, X>,
    block: &Block<Dir>,
    info: &EpochInfo<Dir>,
    artifact: &Artifact<Dir>,
    fence: &mut Fence,
    out: &mut Transcript,
) -> Result<(), Stop>
    requires next { info.now.epoch ≡ epoch_of (non_zero_u64_get terms.now.blocks_per_epoch) (block.now.height + 1) }
    requires idle { inclusion.old.hand ≡ None }
    requires me { terms.now.me ≡ C.Signer.key_of signer.now }
    requires ready { IsReadyLife D.tells D.files D.image C.ack_of C.deal_of C.check_ack_of terms.now life.old devices.old }
    requires including { IsReadyInclusion C.check_log_of C.dealing_of C.finish_of (non_zero_u64_get terms.now.blocks_per_epoch) life.old inclusion.old }
    ensures ready { OnOk result (IsReadyLife D.tells D.files D.image C.ack_of C.deal_of C.check_ack_of terms.now life.new devices.new) }
    ensures including { OnOk result (IsSettledInclusion C.check_log_of C.dealing_of C.finish_of (non_zero_u64_get terms.now.blocks_per_epoch) life.new
        inclusion.new) }
    ensures moves { MovesOn life.old life.new D.tells D.made X.made D.faults X.faults D.image (non_zero_u32_get terms.now.limit) devices.old devices.new }
    ensures acts { IsTrue D.tells → IsTrue X.tells → (c : Fixed Dir) (beside : Beside Dir) → IsIn terms.now life.old.word c → ReadsPlanless c
        → IsRuledBy C.round_of C.deal_of C.dealing_of C.ack_of C.check_ack_of C.sign_log_of C.bears_ack_of C.share_public_of C.partial_public_of c.rules
        → c.directories.spelling ≡ Dir.spelling → IsSeen inclusion.old beside.inclusion → EndsWith beside (λ i. OnOk result (IsSeen inclusion.new i))
        (λ more. OnOk result (TookSchemes R.tells (R.taken registrar.old) (R.taken registrar.new) more))
        (λ now. Makes D.files D.image X.held (blocks.takes_over c block.now info.now (blocks.share_for c info.now (artifact_of artifact.now))
        (live_of beside fence.old life.old)) (ends_in (live_of now fence.new life.new) result)
        devices.old devices.new out.old.entries out.new.entries) }
    ensures tells { (c : Fixed Dir) (beside : Beside Dir) → IsIn terms.now life.old.word c → ReadsPlanless c
        → IsRuledBy C.round_of C.deal_of C.dealing_of C.ack_of C.check_ack_of C.sign_log_of C.bears_ack_of C.share_public_of C.partial_public_of c.rules
        → c.directories.spelling ≡ Dir.spelling → IsSeen inclusion.old beside.inclusion → EndsWith beside (λ i. OnOk result (IsSeen inclusion.new i))
        (λ more. OnOk result (TookSchemes R.tells (R.taken registrar.old) (R.taken registrar.new) more))
        (λ now. Tells (blocks.takes_over c block.now info.now (blocks.share_for c info.now (artifact_of artifact.now)) (live_of beside fence.old life.old))
        (ends_in (live_of now fence.new life.new) result)
        out.old.entries out.new.entries) }
    ensures causes { StopsReading D.tells D.faults X.faults devices.old devices.new result }
{
    let share = share_for(alloc, info, artifact)?;
    let secrets: EpochSecrets = secrets_with(alloc, life, devices, info, share)?;
    commit_and_register(
        alloc, registrar, terms.me, life, devices, info, &secrets, fence, out,
    )?;
    pass_on(
        alloc, ceremony, signer, registrar, terms, life, inclusion, devices, block, info, fence,
        out,
    )
}

/// Applies the last block of an epoch that the node takes part in (`final_block`).
pub fn take_final_block<
    C: Ceremony + Drop,
    P: ParticipantsProvider<Dir = Dir>,
    R: Registrar,
    Dir: Directory + Drop,
    D: Disk,
    X: SecretStore,
>(
    alloc: Global,
    ceremony: &C,
    signer: &C::Signer,
    provider: &mut P,
    registrar: &mut R,
    terms: &Terms,
    life: &mut Life<Dir>,
    inclusion: &mut Inclusion<C, Dir>,
    devices: &mut Devices<'_, D, X>,
    block: &Block<Dir>,
    bounds: &Bounds,
    fence: &mut Fence,
    out: &mut Transcript,
) -> Result<(), Stop>
    requires me { terms.now.me ≡ C.Signer.key_of signer.now }
    requires ready { IsReadyLife D.tells D.files D.image C.ack_of C.deal_of C.check_ack_of terms.now life.old devices.old }
    requires including { IsReadyInclusion C.check_log_of C.dealing_of C.finish_of (non_zero_u64_get terms.now.blocks_per_epoch) life.old inclusion.old }
    requires last { IsGivenLast (non_zero_u64_get terms.now.blocks_per_epoch) life.old bounds.now block.now }
    requires idle { inclusion.old.hand ≡ None }
    ensures ready { OnOk result (IsReadyLife D.tells D.files D.image C.ack_of C.deal_of C.check_ack_of terms.now life.new devices.new) }
    ensures including { OnOk result (IsSettledInclusion C.check_log_of C.dealing_of C.finish_of (non_zero_u64_get terms.now.blocks_per_epoch) life.new
        inclusion.new) }
    ensures moves { MovesOn life.old life.new D.tells D.made X.made D.faults X.faults D.image (non_zero_u32_get terms.now.limit) devices.old devices.new }
    ensures provider { IsTrue P.tells → SameProvided (P.participants_of provider.old) (P.participants_of provider.new)
        (P.directory_of provider.old) (P.directory_of provider.new) }
    ensures acts { IsTrue D.tells → IsTrue X.tells → IsTrue P.tells → (c : Fixed Dir) (round : Round) (beside : Beside Dir) → IsIn terms.now life.old.word c
        → ReadsPlanless c
        → IsRuledBy C.round_of C.deal_of C.dealing_of C.ack_of C.check_ack_of C.sign_log_of C.bears_ack_of C.share_public_of C.partial_public_of c.rules
        → IncludesBy C.check_log_of C.outcome_of C.finish_of (P.participants_of provider.old) (P.directory_of provider.old) Dir.spelling Dir.matches_of c
        → life.old.round ≡ Some round → IsSeen inclusion.old beside.inclusion → EndsWith beside (λ i. OnOk result (IsSeen inclusion.new i))
        (λ more. OnOk result (TookSchemes R.tells (R.taken registrar.old) (R.taken registrar.new) more))
        (λ now. Makes D.files D.image X.held (blocks.final_block c round block.now (live_of beside fence.old life.old)) (ends_in
        (live_of now fence.new life.new) result)
        devices.old devices.new out.old.entries out.new.entries) }
    ensures tells { IsTrue P.tells → (c : Fixed Dir) (round : Round) (beside : Beside Dir) → IsIn terms.now life.old.word c → ReadsPlanless c
        → IsRuledBy C.round_of C.deal_of C.dealing_of C.ack_of C.check_ack_of C.sign_log_of C.bears_ack_of C.share_public_of C.partial_public_of c.rules
        → IncludesBy C.check_log_of C.outcome_of C.finish_of (P.participants_of provider.old) (P.directory_of provider.old) Dir.spelling Dir.matches_of c
        → life.old.round ≡ Some round → IsSeen inclusion.old beside.inclusion → EndsWith beside (λ i. OnOk result (IsSeen inclusion.new i))
        (λ more. OnOk result (TookSchemes R.tells (R.taken registrar.old) (R.taken registrar.new) more))
        (λ now. Tells (blocks.final_block c round block.now (live_of beside fence.old life.old)) (ends_in (live_of now fence.new life.new) result)
        out.old.entries out.new.entries) }
    ensures causes { StopsReading D.tells D.faults X.faults devices.old devices.new result }
{
    let artifact = derive(
        alloc, ceremony, provider, terms, life, inclusion, devices, out,
    )?;
    let info = carried_info(block, bounds)?;
    take_over(
        alloc, ceremony, signer, registrar, terms, life, inclusion, devices, block, info,
        &artifact, fence, out,
    )
}
