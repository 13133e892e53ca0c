//! Verifications: what is verified for whom, how one begins, and how it ends.
//!
//! One runs at a time. It ends in a later step, by a result that is handed in or by this node's own work.
ghost use Rattle.std.specs.Prelude.{◌≡◌, ◌⊎◌, ℕ, [], IfErr, IfOk, IfSome, IsSome, IsSomeAnd, IsTrue, List, None, OnOk, Some, option_map};
ghost use Rattle.std.specs.FinMap as maps;
ghost use Rattle.std.specs.Int.NonZero.{non_zero_u64_get};
ghost use Rattle.dkg_ceremony.specs.declared.round.RoundParts.{RoundParts as Round};
ghost use Rattle.dkg_fence.specs.Readiness.{Readiness};
ghost use Rattle.dkg_core.specs.Fixed.{Fixed};
ghost use Rattle.dkg_core.specs.Including as including;
ghost use Rattle.dkg_ceremony.specs.Schedule.{midpoint};
ghost use Rattle.dkg_artifact.specs.Results.{IsResultOfJob, checked};
ghost use Rattle.dkg_types.specs.PayloadCodes.{info_payload};
ghost use Rattle.dkg_infos.specs.declared.entry.Entry.{Entry};
ghost use Rattle.dkg_infos.specs.declared.fault.Fault.TheVariants.{LocalState, NoMemory as OutOfMemory};
ghost use Rattle.dkg_infos.specs.declared.fault.LocalCause.TheVariants.{StoredDealing};
ghost use Rattle.dkg_core.specs.Live.{Live};
ghost use Rattle.dkg_core.specs.Logs as recorded;
ghost use Rattle.dkg_life.specs.Ready.{IsReadyLife};
ghost use Rattle.dkg_life.specs.Ends.{IsCaused, StopsOver, ends_in};
ghost use Rattle.dkg_life.specs.Given.{IsOf, ReadsPlanless};
ghost use Rattle.dkg_life.specs.LiveOf.{Beside, EndsWith, live_of};
ghost use Rattle.dkg_life.specs.Made.{Makes, Tells};
ghost use Rattle.dkg_life.specs.Moved.{Moved};
ghost use Rattle.dkg_life.specs.Rules.{IncludesBy, IsRuledBy, SameProvided};
ghost use Rattle.dkg_life.specs.LiveOf.{records_of};
ghost use Rattle.dkg_life.specs.Made.{Speaks};
ghost use Rattle.dkg_life.specs.declared.stop.Stop.TheVariants.{Fault as Faulted};
ghost use Rattle.dkg_verifying.specs.Concluded.{canonical_in};
ghost use Rattle.dkg_verifying.specs.Refusing.{refusal_for};
ghost use Rattle.dkg_verifying.specs.Including.{EndsCaching, telling};
ghost use Rattle.dkg_verifying.specs.InclusionOf.{IsReadyInclusion, IsRunnable, IsSeen, cached_of, job_dealings_of, job_of, checked_result_of};
ghost use Rattle.dkg_verifying.specs.Looks.{OnlyLooks};
ghost use Rattle.dkg_verifying.specs.declared.told.EpochInfoResponse.TheVariants.{Available};

use crate::answers::answer;
use crate::artifacts::keep_artifact;
use crate::inclusion::Inclusion;
use crate::told::Told;
use dkg_artifact::{ArtifactCache, Dealings, Job, VerifiedLogs, verify_logs};
use dkg_ceremony::{Ceremony, DealerLog, Round, finishes_agree};
use dkg_infos::{Directory, Transcript};
use dkg_journal::Disk;
use dkg_life::{Life, Stop, Terms};
use dkg_rising::RisingMap;
use dkg_store::{Devices, SecretStore, Store};
use dkg_types::ParticipantsProvider;
use dkg_values::{Epoch, Height, Key, Map, Mem, Value};
use std::alloc::Global;

/// The height of a life's position.
fn tip_height<Dir: Directory + Drop>(life: &Life<Dir>) -> Option<Height>
    ensures { result ≡ option_map (λ t. t.height) life.now.tip }
{
    match &life.tip {
        None => None,
        Some(tip) => Some(tip.height),
    }
}

/// The recorded logs of the epoch that blocks at or below the tip carry (`canonical`).
pub fn canonical<Dir: Directory + Drop>(alloc: Global, life: &Life<Dir>) -> Mem<Map<DealerLog>>
    ensures canonical { IfOk result (λ made. (c : Fixed Dir) (beside : Beside Dir) (fence : Readiness)
        → midpoint c.blocks_per_epoch life.now.epoch ≡ life.now.midpoint → made ≡ recorded.canonical c (live_of beside fence life.now)) }
    ensures logs { IfOk result (λ made. made ≡ canonical_in life.now) }
{
    life.store
        .logs(alloc, life.epoch, life.midpoint, tip_height(life))
}

/// This node as a player of the round with its recorded dealings, unless the logs say that it lacks one (`can_finish`).
///
/// LocalState: StoredDealing, of the first recorded dealing that the check refuses.
fn player_for<C: Ceremony, Dir: Directory + Drop>(
    alloc: Global,
    ceremony: &C,
    me: Key,
    store: &Store<Dir>,
    round: &Round,
    logs: &Map<DealerLog>,
) -> Result<Option<Dealings>, Stop>
    ensures made { IfOk result (λ made. (c : Fixed Dir) (st : Live Dir) → c.me ≡ me → c.rules.bears_ack_of ≡ C.bears_ack_of → c.rules.dealing_of
        ≡ C.dealing_of → st.records ≡ records_of store.now
        → option_map job_dealings_of made ≡ (including.job_for c round.now logs.now st).player) }
    ensures runs { IfOk result (λ made. IsRunnable C.dealing_of C.finish_of (record { round = round.now; player = made; logs = logs.now })) }
    ensures passes { IfOk result (λ made. (c : Fixed Dir) (st : Live Dir) → c.me ≡ me → c.rules.bears_ack_of ≡ C.bears_ack_of → c.rules.dealing_of
        ≡ C.dealing_of → st.records ≡ records_of store.now → refusal_for c round.now logs.now st ≡ None) }
    ensures causes { IfErr result (λ stop. (stop ≡ Faulted OutOfMemory) ⊎ ((refused : ℕ) × (stop
        ≡ Faulted (LocalState (StoredDealing round.now.number refused)))
        × ((c : Fixed Dir) (st : Live Dir) → c.me ≡ me → c.rules.bears_ack_of ≡ C.bears_ack_of → c.rules.dealing_of ≡ C.dealing_of → st.records
        ≡ records_of store.now → refusal_for c round.now logs.now st ≡ Some refused))) }
{
    if !round.parts().players.has(me) {
        return Ok(None);
    }
    finishes_agree::<C>();
    let epoch = Epoch(round.parts().number);
    match store.create_player_with_logs(alloc, ceremony, epoch, me, round, logs)? {
        None => Ok(None),
        Some(_) => Ok(Some(Dealings {
            me,
            dealings: store.dealings(alloc, epoch)?,
        })),
    }
}

/// The verification of some logs of the round, by this node's player where it has one (`job_for`).
pub fn job_for<C: Ceremony, Dir: Directory + Drop>(
    alloc: Global,
    ceremony: &C,
    me: Key,
    store: &Store<Dir>,
    round: &Round,
    logs: Map<DealerLog>,
) -> Result<Job, Stop>
    ensures made { IfOk result (λ made. (c : Fixed Dir) (st : Live Dir) → c.me ≡ me → c.rules.bears_ack_of ≡ C.bears_ack_of → c.rules.dealing_of
        ≡ C.dealing_of → st.records ≡ records_of store.now → job_of made ≡ including.job_for c round.now logs st) }
    ensures parts { IfOk result (λ made. (made.round ≡ round.now) × (made.logs ≡ logs)) }
    ensures runs { IfOk result (IsRunnable C.dealing_of C.finish_of) }
    ensures passes { IfOk result (λ made. (c : Fixed Dir) (st : Live Dir) → c.me ≡ me → c.rules.bears_ack_of ≡ C.bears_ack_of → c.rules.dealing_of
        ≡ C.dealing_of → st.records ≡ records_of store.now → refusal_for c round.now logs st ≡ None) }
    ensures causes { IfErr result (λ stop. (stop ≡ Faulted OutOfMemory) ⊎ ((refused : ℕ) × (stop
        ≡ Faulted (LocalState (StoredDealing round.now.number refused)))
        × ((c : Fixed Dir) (st : Live Dir) → c.me ≡ me → c.rules.bears_ack_of ≡ C.bears_ack_of → c.rules.dealing_of ≡ C.dealing_of → st.records
        ≡ records_of store.now → refusal_for c round.now logs st ≡ Some refused))) }
{
    let player = player_for(alloc, ceremony, me, store, round, &logs)?;
    Ok(Job {
        round: round.copy(alloc)?,
        player,
        logs,
    })
}

/// Starts a verification of some logs, whose end answers a request (`starts_verifying`).
pub fn start_verifying<C: Ceremony + Drop, Dir: Directory + Drop>(
    alloc: Global,
    ceremony: &C,
    me: Key,
    life: &Life<Dir>,
    inclusion: &mut Inclusion<C, Dir>,
    round: &Round,
    logs: Map<DealerLog>,
    request: u64,
) -> Result<(), Stop>
    requires free { inclusion.old.verification.running ≡ None }
    ensures rest { inclusion.new ≡ record inclusion.old { verification = inclusion.new.verification; waiter = inclusion.new.waiter } }
    ensures runs { OnOk result (IfSome inclusion.new.verification.running (λ j. (j.round ≡ round.now) × IsRunnable C.dealing_of C.finish_of j)) }
    ensures speaks { (c : Fixed Dir) (beside : Beside Dir) (fence : Readiness) → c.me ≡ me → c.rules.bears_ack_of ≡ C.bears_ack_of → c.rules.dealing_of
        ≡ C.dealing_of
        → IsSeen inclusion.old beside.inclusion → EndsWith beside (λ i. OnOk result (IsSeen inclusion.new i)) (λ more. more ≡ [])
        (λ now. (out : List Entry) → Speaks (including.starts_verifying c round.now logs (Some request) (live_of beside fence life.now))
        (ends_in (live_of now fence life.now) result) out out) }
    ensures causes { IfErr result (λ stop. IsCaused stop ⊥ ⊥ ⊥) }
{
    let job = job_for(alloc, ceremony, me, &life.store, round, logs)?;
    inclusion.verification.start(job);
    inclusion.waiter = Some(request);
    Ok(())
}

/// What this node itself finds for a job (`verified`).
pub fn verify<C: Ceremony>(alloc: Global, ceremony: &C, job: Job) -> Mem<VerifiedLogs<C>>
    requires { IsRunnable C.dealing_of C.finish_of job }
    ensures { IfOk result (λ made. made ≡ checked C.outcome_of C.finish_of job.round job.player job.logs) }
{
    let Job {
        round,
        player,
        logs,
    } = job;
    verify_logs(alloc, ceremony, &round, player, logs)
}

/// The result of a job: the one that is handed in, where it is of that job, else what this node finds (`checked_result_of`).
fn result_of<C: Ceremony + Drop>(
    alloc: Global,
    ceremony: &C,
    job: &Job,
    done: Option<VerifiedLogs<C>>,
) -> Mem<VerifiedLogs<C>>
    requires { IsRunnable C.dealing_of C.finish_of job.now }
    ensures handed { IfSome done (λ its. IsResultOfJob job.now its → IfOk result (λ made. made ≡ its)) }
    ensures own { (IsSomeAnd done (IsResultOfJob job.now) → ⊥)
        → IfOk result (λ made. made ≡ checked C.outcome_of C.finish_of job.now.round job.now.player job.now.logs) }
{
    match done {
        Some(done) if job.is_answered_by(&done) => Ok(done),
        _ => verify(alloc, ceremony, job.copy(alloc)?),
    }
}

/// Answers a request by the artifact of a result (`artifact`, and then `answers`).
pub fn answer_by<
    C: Ceremony,
    P: ParticipantsProvider<Dir = Dir>,
    Dir: Directory + Drop,
    D: Disk,
    X: SecretStore,
>(
    alloc: Global,
    provider: &mut P,
    terms: &Terms,
    store: &mut Store<Dir>,
    devices: &mut Devices<'_, D, X>,
    cache: &mut ArtifactCache<Dir>,
    told: &mut RisingMap<Told<Dir>>,
    request: u64,
    verified: &VerifiedLogs<C>,
    out: &mut Transcript,
) -> Result<(), Stop>
    requires current { IsSome store.old.current }
    ensures store { store.new ≡ store.old }
    ensures provider { IsTrue P.tells → SameProvided (P.participants_of provider.old) (P.participants_of provider.new)
        (P.directory_of provider.old) (P.directory_of provider.new) }
    ensures disk { devices.new.disk.now ≡ devices.old.disk.now }
    ensures held { X.held devices.new.secrets.now ≡ X.held devices.old.secrets.now }
    ensures told { OnOk result (IsSomeAnd cache.new (λ k. (k.0 ≡ verified.now.logs)
        × (told.new ≡ maps.insert told.old request (Told.Info (Available (option_map info_payload k.1.info)))))) }
    ensures acts { IsTrue D.tells → IsTrue X.tells → IsTrue P.tells → (c : Fixed Dir) (st : Live Dir) → IsOf terms.now c → ReadsPlanless c
        → IncludesBy C.check_log_of C.outcome_of C.finish_of (P.participants_of provider.old) (P.directory_of provider.old) Dir.spelling Dir.matches_of c
        → st.participation.current ≡ store.old.current → st.inclusion.cached ≡ option_map cached_of cache.old
        → EndsCaching cache.new st
        (λ now. Makes D.files D.image X.held (including.artifact c (checked_result_of verified.now) st (including.answers_request c request))
        (ends_in (telling request now) result) devices.old devices.new out.old.entries out.new.entries) }
    ensures tells { IsTrue P.tells → (c : Fixed Dir) (st : Live Dir) → IsOf terms.now c → ReadsPlanless c
        → IncludesBy C.check_log_of C.outcome_of C.finish_of (P.participants_of provider.old) (P.directory_of provider.old) Dir.spelling Dir.matches_of c
        → st.participation.current ≡ store.old.current → st.inclusion.cached ≡ option_map cached_of cache.old
        → EndsCaching cache.new st (λ now. Tells (including.artifact c (checked_result_of verified.now) st (including.answers_request c request))
        (ends_in (telling request now) result) out.old.entries out.new.entries) }
    ensures moved { Moved D.tells D.made X.made D.faults X.faults devices.old devices.new }
    ensures causes { StopsOver D.faults X.faults devices.old devices.new result }
{
    keep_artifact(alloc, provider, terms, store, devices, cache, verified)?;
    match cache.get(&verified.logs) {
        Some(artifact) => answer(alloc, told, request, artifact, out),
        None => unreachable!(),
    }
}

/// Keeps a result, and ends the verification (`retains`).
pub fn retain<C: Ceremony + Drop, Dir: Directory + Drop>(
    alloc: Global,
    life: &Life<Dir>,
    inclusion: &mut Inclusion<C, Dir>,
    verified: VerifiedLogs<C>,
) -> Mem<()>
    ensures kept { OnOk result ((c : Fixed Dir) (beside : Beside Dir) (fence : Readiness) → midpoint c.blocks_per_epoch life.now.epoch ≡ life.now.midpoint
        → IsSeen inclusion.old beside.inclusion
        → IsSeen inclusion.new (including.retains c (checked_result_of verified) (live_of beside fence life.now)).inclusion) }
    ensures rest { inclusion.new ≡ record inclusion.old { verification = inclusion.new.verification; waiter = inclusion.new.waiter } }
    ensures free { OnOk result (inclusion.new.verification.running ≡ None) }
    ensures alone { OnOk result (inclusion.new.waiter ≡ None) }
    ensures keeps { OnOk result (verified.logs ≡ canonical_in life.now → inclusion.new.verification.kept ≡ Some verified) }
{
    let canonical = canonical(alloc, life)?;
    inclusion.verification.retain(verified, &canonical);
    inclusion.waiter = None;
    Ok(())
}

/// Ends the running verification by a result: its request is answered, and the result is kept (`completes`).
fn complete<
    C: Ceremony + Drop,
    P: ParticipantsProvider<Dir = Dir>,
    Dir: Directory + Drop,
    D: Disk,
    X: SecretStore,
>(
    alloc: Global,
    provider: &mut P,
    terms: &Terms,
    life: &mut Life<Dir>,
    inclusion: &mut Inclusion<C, Dir>,
    devices: &mut Devices<'_, D, X>,
    verified: VerifiedLogs<C>,
    out: &mut Transcript,
) -> Result<(), Stop>
    requires ready { IsReadyLife D.tells D.files D.image C.ack_of C.deal_of C.check_ack_of terms.now life.old devices.old }
    requires including { IsReadyInclusion C.check_log_of C.dealing_of C.finish_of (non_zero_u64_get terms.now.blocks_per_epoch) life.old inclusion.old }
    requires runs { IsSome inclusion.old.verification.running }
    ensures ready { OnOk result (IsReadyLife D.tells D.files D.image C.ack_of C.deal_of C.check_ack_of terms.now life.new devices.new) }
    ensures including { OnOk result (IsReadyInclusion C.check_log_of C.dealing_of C.finish_of (non_zero_u64_get terms.now.blocks_per_epoch) life.new
        inclusion.new) }
    ensures rest { inclusion.new ≡ record inclusion.old {
      verification = inclusion.new.verification;
      waiter = inclusion.new.waiter;
      cache = inclusion.new.cache;
      told = inclusion.new.told;
    } }
    ensures idle { OnOk result (inclusion.new.verification.running ≡ None) }
    ensures stays { OnlyLooks life.old life.new X.held devices.old devices.new P.tells (P.participants_of provider.old) (P.participants_of provider.new)
        (P.directory_of provider.old) (P.directory_of provider.new) }
    ensures acts { IsTrue D.tells → IsTrue X.tells → IsTrue P.tells → (c : Fixed Dir) (beside : Beside Dir) (fence : Readiness) → IsOf terms.now c
        → ReadsPlanless c
        → IsRuledBy C.round_of C.deal_of C.dealing_of C.ack_of C.check_ack_of C.sign_log_of C.bears_ack_of C.share_public_of C.partial_public_of c.rules
        → IncludesBy C.check_log_of C.outcome_of C.finish_of (P.participants_of provider.old) (P.directory_of provider.old) Dir.spelling Dir.matches_of c
        → IsSeen inclusion.old beside.inclusion → EndsWith beside (λ i. OnOk result (IsSeen inclusion.new i)) (λ more. more ≡ [])
        (λ now. Makes D.files D.image X.held (including.completes c (checked_result_of verified) (live_of beside fence life.old)) (ends_in
        (live_of now fence life.new) result)
        devices.old devices.new out.old.entries out.new.entries) }
    ensures tells { IsTrue P.tells → (c : Fixed Dir) (beside : Beside Dir) (fence : Readiness) → IsOf terms.now c → ReadsPlanless c
        → IsRuledBy C.round_of C.deal_of C.dealing_of C.ack_of C.check_ack_of C.sign_log_of C.bears_ack_of C.share_public_of C.partial_public_of c.rules
        → IncludesBy C.check_log_of C.outcome_of C.finish_of (P.participants_of provider.old) (P.directory_of provider.old) Dir.spelling Dir.matches_of c
        → IsSeen inclusion.old beside.inclusion → EndsWith beside (λ i. OnOk result (IsSeen inclusion.new i)) (λ more. more ≡ [])
        (λ now. Tells (including.completes c (checked_result_of verified) (live_of beside fence life.old)) (ends_in
        (live_of now fence life.new) result) out.old.entries out.new.entries) }
    ensures moved { Moved D.tells D.made X.made D.faults X.faults devices.old devices.new }
    ensures causes { StopsOver D.faults X.faults devices.old devices.new result }
{
    let Some(request) = inclusion.waiter else {
        return Ok(retain(alloc, life, inclusion, verified)?);
    };
    answer_by(
        alloc,
        provider,
        terms,
        &mut life.store,
        devices,
        &mut inclusion.cache,
        &mut inclusion.told,
        request,
        &verified,
        out,
    )?;
    Ok(retain(alloc, life, inclusion, verified)?)
}

/// Ends the running verification, if there is one, by a result that is handed in or by this node's own (`ends_verifying`).
pub fn end_verifying<
    C: Ceremony + Drop,
    P: ParticipantsProvider<Dir = Dir>,
    Dir: Directory + Drop,
    D: Disk,
    X: SecretStore,
>(
    alloc: Global,
    ceremony: &C,
    provider: &mut P,
    terms: &Terms,
    life: &mut Life<Dir>,
    inclusion: &mut Inclusion<C, Dir>,
    devices: &mut Devices<'_, D, X>,
    done: Option<VerifiedLogs<C>>,
    out: &mut Transcript,
) -> Result<(), Stop>
    requires ready { IsReadyLife D.tells D.files D.image C.ack_of C.deal_of C.check_ack_of terms.now life.old devices.old }
    requires including { IsReadyInclusion C.check_log_of C.dealing_of C.finish_of (non_zero_u64_get terms.now.blocks_per_epoch) life.old inclusion.old }
    ensures ready { OnOk result (IsReadyLife D.tells D.files D.image C.ack_of C.deal_of C.check_ack_of terms.now life.new devices.new) }
    ensures including { OnOk result (IsReadyInclusion C.check_log_of C.dealing_of C.finish_of (non_zero_u64_get terms.now.blocks_per_epoch) life.new
        inclusion.new) }
    ensures rest { inclusion.new ≡ record inclusion.old {
      verification = inclusion.new.verification;
      waiter = inclusion.new.waiter;
      cache = inclusion.new.cache;
      told = inclusion.new.told;
    } }
    ensures idle { OnOk result (inclusion.new.verification.running ≡ None) }
    ensures stays { OnlyLooks life.old life.new X.held devices.old devices.new P.tells (P.participants_of provider.old) (P.participants_of provider.new)
        (P.directory_of provider.old) (P.directory_of provider.new) }
    ensures acts { IsTrue D.tells → IsTrue X.tells → IsTrue P.tells → (c : Fixed Dir) (beside : Beside Dir) (fence : Readiness) → IsOf terms.now c
        → ReadsPlanless c
        → IsRuledBy C.round_of C.deal_of C.dealing_of C.ack_of C.check_ack_of C.sign_log_of C.bears_ack_of C.share_public_of C.partial_public_of c.rules
        → IncludesBy C.check_log_of C.outcome_of C.finish_of (P.participants_of provider.old) (P.directory_of provider.old) Dir.spelling Dir.matches_of c
        → IsSeen inclusion.old beside.inclusion → EndsWith beside (λ i. OnOk result (IsSeen inclusion.new i)) (λ more. more ≡ [])
        (λ now. Makes D.files D.image X.held (including.ends_verifying c (option_map checked_result_of done) (live_of beside fence life.old)) (ends_in
        (live_of now fence life.new) result)
        devices.old devices.new out.old.entries out.new.entries) }
    ensures tells { IsTrue P.tells → (c : Fixed Dir) (beside : Beside Dir) (fence : Readiness) → IsOf terms.now c → ReadsPlanless c
        → IsRuledBy C.round_of C.deal_of C.dealing_of C.ack_of C.check_ack_of C.sign_log_of C.bears_ack_of C.share_public_of C.partial_public_of c.rules
        → IncludesBy C.check_log_of C.outcome_of C.finish_of (P.participants_of provider.old) (P.directory_of provider.old) Dir.spelling Dir.matches_of c
        → IsSeen inclusion.old beside.inclusion → EndsWith beside (λ i. OnOk result (IsSeen inclusion.new i)) (λ more. more ≡ [])
        (λ now. Tells (including.ends_verifying c (option_map checked_result_of done) (live_of beside fence life.old)) (ends_in
        (live_of now fence life.new) result) out.old.entries out.new.entries) }
    ensures moved { Moved D.tells D.made X.made D.faults X.faults devices.old devices.new }
    ensures causes { StopsOver D.faults X.faults devices.old devices.new result }
{
    let Some(job) = inclusion.verification.running() else {
        return Ok(());
    };
    let verified = result_of(alloc, ceremony, job, done)?;
    complete(
        alloc, provider, terms, life, inclusion, devices, verified, out,
    )
}
