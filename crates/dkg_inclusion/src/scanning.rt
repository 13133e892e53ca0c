//! Requests are read one at a time, over the ancestry that they are fed: its logs fill in for dealers that have no recorded one.
//!
//! Each function here is a part of the relation's `advanced`, and names it.
ghost use Rattle.std.specs.Prelude.{◌≡◌, ◌↔◌, [], IfOk, IsSome, IsTrue, None, OnOk, Some, false, option_map};
ghost use Rattle.std.specs.Int.NonZero.{non_zero_u64_get};
ghost use Rattle.dkg_ceremony.specs.declared.round.RoundParts.{RoundParts as Round};
ghost use Rattle.dkg_fence.specs.Readiness.{Readiness};
ghost use Rattle.dkg_core.specs.Fixed.{Fixed};
ghost use Rattle.dkg_core.specs.Including as including;
ghost use Rattle.dkg_ceremony.specs.Schedule.{bounds_at};
ghost use Rattle.dkg_artifact.specs.Scans.{IsAwaiting};
ghost use Rattle.dkg_core.specs.Logs as recorded;
ghost use Rattle.dkg_life.specs.Ready.{IsReadyLife};
ghost use Rattle.dkg_life.specs.Ends.{StopsOver, ends_in};
ghost use Rattle.dkg_life.specs.Given.{IsOf, ReadsPlanless};
ghost use Rattle.dkg_life.specs.LiveOf.{Beside, EndsWith, IsPlaced, awaited_of, live_of};
ghost use Rattle.dkg_life.specs.Made.{Makes, Tells};
ghost use Rattle.dkg_life.specs.Moved.{Moved};
ghost use Rattle.dkg_life.specs.Rules.{IncludesBy, IsRuledBy};
ghost use Rattle.dkg_life.specs.Steps.{AreBoundsAt};
ghost use Rattle.dkg_life.specs.declared.life.Stage.TheVariants.{Including};
ghost use Rattle.dkg_verifying.specs.Including.{fed_of, behind_first, on_fed, reads_next};
ghost use Rattle.dkg_verifying.specs.Scanned.{IsFed, fed_all};
ghost use Rattle.dkg_verifying.specs.InclusionOf.{IsReadyInclusion, IsSeen, IsSettledInclusion, waiting_request_of, tip_of};
ghost use Rattle.dkg_verifying.specs.Looks.{OnlyLooks};

use dkg_artifact as artifact;
use dkg_artifact::{Fed, Request, Scan};
use dkg_ceremony::{Bounds, Ceremony, DealerLog, Epocher, Round};
use dkg_infos::{Directory, Transcript};
use dkg_journal::Disk;
use dkg_life::{Life, Stage, Stop, Terms, Tip, awaited};
use dkg_store::{Devices, SecretStore};
use dkg_types::ParticipantsProvider;
use dkg_values::{Map, Mem, NoMemory, Value};
use dkg_verifying::{Hand, Inclusion, answer, answer_by, answer_none, canonical, start_verifying};
use std::alloc::Global;

/// The bounds of the epoch that is awaited while inclusion lasts.
fn bounds_of<Dir: Directory + Drop>(terms: &Terms, life: &Life<Dir>) -> Bounds
    requires includes { life.now.stage ≡ Including }
    requires placed { IsPlaced (non_zero_u64_get terms.now.blocks_per_epoch) life.now }
    ensures { AreBoundsAt (non_zero_u64_get terms.now.blocks_per_epoch) result (awaited_of life.now) }
{
    let Some(height) = awaited(&life.tip) else {
        unreachable!();
    };
    match Epocher::new(terms.blocks_per_epoch).containing(height) {
        Some(bounds) => bounds,
        None => unreachable!(),
    }
}

/// A position, as a scan is given it.
fn tip_above(tip: &Option<Tip>) -> Option<artifact::Tip>
    ensures { result ≡ option_map tip_of tip.now }
{
    match tip {
        None => None,
        Some(tip) => Some(artifact::Tip {
            height: tip.height,
            digest: tip.digest,
        }),
    }
}

/// Whether a scan needs more (`is_need`).
fn is_need(fed: &Fed) -> bool
    ensures { result ≡ including.is_need (fed_of fed.now) }
{
    match fed {
        Fed::Need => true,
        Fed::Logs(_) | Fed::Unavailable(_) => false,
    }
}

/// Feeds a scan these blocks, as long as it needs one.
fn feed_all<C: Ceremony, Dir: Directory + Drop>(
    alloc: Global,
    ceremony: &C,
    scan: &mut Scan,
    first: Fed,
    request: &Request<Dir>,
) -> Mem<Fed>
    requires { first ≡ Fed.Need → IsAwaiting scan.old }
    ensures fed { IfOk result (λ fed. (fed, scan.new) ≡ fed_all C.check_log_of scan.old first request.now.blocks) }
    ensures awaits { IfOk result (λ fed. fed ≡ Fed.Need → IsAwaiting scan.new) }
{
    let mut fed = first;
    for block in &request.blocks.0 {
        if !is_need(&fed) {
            return Ok(fed);
        }
        fed = scan.feed(alloc, ceremony, block)?;
    }
    Ok(fed)
}

/// Reads a request from the start of its ancestry as far as that was fed, and ends there where the ancestry has ended (`read_of`).
fn read<C: Ceremony, Dir: Directory + Drop>(
    alloc: Global,
    ceremony: &C,
    terms: &Terms,
    life: &Life<Dir>,
    round: &Round,
    request: &Request<Dir>,
) -> Mem<(Scan, Fed)>
    requires includes { life.now.stage ≡ Including }
    requires placed { IsPlaced (non_zero_u64_get terms.now.blocks_per_epoch) life.now }
    ensures read { IfOk result (λ it. (c : Fixed Dir) (beside : Beside Dir) (fence : Readiness) → c.blocks_per_epoch
        ≡ non_zero_u64_get terms.now.blocks_per_epoch
        → c.rules.check_log_of ≡ C.check_log_of
        → including.read_of c round.now (live_of beside fence life.now) (waiting_request_of request.now) ≡ fed_of it.1) }
    // While it needs more, its ancestry goes on, and the scan stands behind what it was fed.
    ensures stands { IfOk result (λ it. it.1 ≡ Fed.Need → (request.now.ended ≡ false) × IsFed C.check_log_of round.now
        (bounds_at (non_zero_u64_get terms.now.blocks_per_epoch) (awaited_of life.now)) (option_map tip_of life.now.tip) request.now.blocks it.0) }
{
    let bounds = bounds_of(terms, life);
    let (mut scan, first) = Scan::start::<C, Dir>(
        alloc,
        ceremony,
        round,
        bounds,
        tip_above(&life.tip),
    )?;
    let fed = feed_all(alloc, ceremony, &mut scan, first, request)?;
    if is_need(&fed) && request.ended {
        let short = scan.end();
        return Ok((scan, short));
    }
    Ok((scan, fed))
}

/// These logs, and others of dealers that have none among them (`filled_by`).
fn filled_by(alloc: Global, logs: Map<DealerLog>, others: &Map<DealerLog>) -> Mem<Map<DealerLog>>
    ensures { IfOk result (λ made. made ≡ recorded.filled_by logs others.now) }
{
    let mut pairs = Vec::new(alloc);
    for (dealer, log) in logs.as_slice() {
        pairs.push((*dealer, log.copy(alloc)?))?;
    }
    for (dealer, log) in others.as_slice() {
        pairs.push((*dealer, log.copy(alloc)?))?;
    }
    if pairs.len() > u32::MAX as usize {
        return Err(NoMemory);
    }
    Map::from_any(alloc, pairs)
}

/// Answers a request by the logs that were found for it: from the cache, from the kept result, or by a new verification (`asks_for_by`).
fn ask_for<
    C: Ceremony + Drop,
    P: ParticipantsProvider<Dir = Dir>,
    Dir: Directory + Drop,
    D: Disk,
    X: SecretStore,
>(
    alloc: Global,
    ceremony: &C,
    provider: &mut P,
    terms: &Terms,
    life: &mut Life<Dir>,
    inclusion: &mut Inclusion<C, Dir>,
    devices: &mut Devices<'_, D, X>,
    request: u64,
    logs: Map<DealerLog>,
    out: &mut Transcript,
) -> Result<(), Stop>
    requires ready { IsReadyLife D.tells D.files D.image C.ack_of C.deal_of C.check_ack_of terms.now life.old devices.old }
    requires including { IsReadyInclusion C.check_log_of C.dealing_of C.finish_of (non_zero_u64_get terms.now.blocks_per_epoch) life.old inclusion.old }
    requires may { (life.old.stage ≡ Including) × (inclusion.old.hand ≡ None) × (inclusion.old.verification.running ≡ None) }
    requires round { IsSome life.old.round }
    ensures rest { inclusion.new ≡ record inclusion.old {
      verification = inclusion.new.verification;
      waiter = inclusion.new.waiter;
      cache = inclusion.new.cache;
      told = inclusion.new.told;
    } }
    ensures ready { OnOk result (IsReadyLife D.tells D.files D.image C.ack_of C.deal_of C.check_ack_of terms.now life.new devices.new) }
    ensures including { OnOk result (IsReadyInclusion C.check_log_of C.dealing_of C.finish_of (non_zero_u64_get terms.now.blocks_per_epoch) life.new
        inclusion.new) }
    ensures stays { OnlyLooks life.old life.new X.held devices.old devices.new P.tells (P.participants_of provider.old) (P.participants_of provider.new)
        (P.directory_of provider.old) (P.directory_of provider.new) }
    ensures acts { IsTrue D.tells → IsTrue X.tells → IsTrue P.tells → (c : Fixed Dir) (round : Round) (beside : Beside Dir) (fence : Readiness)
        → IsOf terms.now c → ReadsPlanless c
        → IsRuledBy C.round_of C.deal_of C.dealing_of C.ack_of C.check_ack_of C.sign_log_of C.bears_ack_of C.share_public_of C.partial_public_of c.rules
        → IncludesBy C.check_log_of C.outcome_of C.finish_of (P.participants_of provider.old) (P.directory_of provider.old) Dir.spelling Dir.matches_of c
        → life.old.round ≡ Some round → IsSeen inclusion.old beside.inclusion → EndsWith beside (λ i. OnOk result (IsSeen inclusion.new i)) (λ more. more ≡ [])
        (λ now. Makes D.files D.image X.held (including.asks_logs c round request logs (live_of beside fence life.old)) (ends_in
        (live_of now fence life.new) result)
        devices.old devices.new out.old.entries out.new.entries) }
    ensures tells { IsTrue P.tells → (c : Fixed Dir) (round : Round) (beside : Beside Dir) (fence : Readiness) → IsOf terms.now c → ReadsPlanless c
        → IsRuledBy C.round_of C.deal_of C.dealing_of C.ack_of C.check_ack_of C.sign_log_of C.bears_ack_of C.share_public_of C.partial_public_of c.rules
        → IncludesBy C.check_log_of C.outcome_of C.finish_of (P.participants_of provider.old) (P.directory_of provider.old) Dir.spelling Dir.matches_of c
        → life.old.round ≡ Some round → IsSeen inclusion.old beside.inclusion → EndsWith beside (λ i. OnOk result (IsSeen inclusion.new i)) (λ more. more ≡ [])
        (λ now. Tells (including.asks_logs c round request logs (live_of beside fence life.old)) (ends_in
        (live_of now fence life.new) result) out.old.entries out.new.entries) }
    ensures moved { Moved D.tells D.made X.made D.faults X.faults devices.old devices.new }
    ensures causes { StopsOver D.faults X.faults devices.old devices.new result }
{
    if let Some(artifact) = inclusion.cache.get(&logs) {
        return answer(alloc, &mut inclusion.told, request, artifact, out);
    }
    if let Some(ready) = inclusion.verification.ready(&logs) {
        return answer_by(
            alloc,
            provider,
            terms,
            &mut life.store,
            devices,
            &mut inclusion.cache,
            &mut inclusion.told,
            request,
            ready,
            out,
        );
    }
    match &life.round {
        Some(round) => start_verifying(
            alloc, ceremony, terms.me, life, inclusion, round, logs, request,
        ),
        None => unreachable!(),
    }
}

/// Goes on with a request by what its scan answered (`fed`).
pub(crate) fn take_answer<
    C: Ceremony + Drop,
    P: ParticipantsProvider<Dir = Dir>,
    Dir: Directory + Drop,
    D: Disk,
    X: SecretStore,
>(
    alloc: Global,
    ceremony: &C,
    provider: &mut P,
    terms: &Terms,
    life: &mut Life<Dir>,
    inclusion: &mut Inclusion<C, Dir>,
    devices: &mut Devices<'_, D, X>,
    request: u64,
    fed: Fed,
    out: &mut Transcript,
) -> Result<(), Stop>
    requires ready { IsReadyLife D.tells D.files D.image C.ack_of C.deal_of C.check_ack_of terms.now life.old devices.old }
    requires including { IsReadyInclusion C.check_log_of C.dealing_of C.finish_of (non_zero_u64_get terms.now.blocks_per_epoch) life.old inclusion.old }
    requires may { (life.old.stage ≡ Including) × (inclusion.old.hand ≡ None) × (inclusion.old.verification.running ≡ None) }
    requires round { IsSome life.old.round }
    ensures rest { inclusion.new ≡ record inclusion.old {
      verification = inclusion.new.verification;
      waiter = inclusion.new.waiter;
      cache = inclusion.new.cache;
      told = inclusion.new.told;
    } }
    ensures ready { OnOk result (IsReadyLife D.tells D.files D.image C.ack_of C.deal_of C.check_ack_of terms.now life.new devices.new) }
    ensures including { OnOk result (IsReadyInclusion C.check_log_of C.dealing_of C.finish_of (non_zero_u64_get terms.now.blocks_per_epoch) life.new
        inclusion.new) }
    ensures stays { OnlyLooks life.old life.new X.held devices.old devices.new P.tells (P.participants_of provider.old) (P.participants_of provider.new)
        (P.directory_of provider.old) (P.directory_of provider.new) }
    ensures acts { IsTrue D.tells → IsTrue X.tells → IsTrue P.tells → (c : Fixed Dir) (round : Round) (beside : Beside Dir) (fence : Readiness)
        → IsOf terms.now c → ReadsPlanless c
        → IsRuledBy C.round_of C.deal_of C.dealing_of C.ack_of C.check_ack_of C.sign_log_of C.bears_ack_of C.share_public_of C.partial_public_of c.rules
        → IncludesBy C.check_log_of C.outcome_of C.finish_of (P.participants_of provider.old) (P.directory_of provider.old) Dir.spelling Dir.matches_of c
        → life.old.round ≡ Some round → IsSeen inclusion.old beside.inclusion → EndsWith beside (λ i. OnOk result (IsSeen inclusion.new i)) (λ more. more ≡ [])
        (λ now. Makes D.files D.image X.held (on_fed c round request (fed_of fed) (live_of beside fence life.old)) (ends_in (live_of now fence life.new) result)
        devices.old devices.new out.old.entries out.new.entries) }
    ensures tells { IsTrue P.tells → (c : Fixed Dir) (round : Round) (beside : Beside Dir) (fence : Readiness) → IsOf terms.now c → ReadsPlanless c
        → IsRuledBy C.round_of C.deal_of C.dealing_of C.ack_of C.check_ack_of C.sign_log_of C.bears_ack_of C.share_public_of C.partial_public_of c.rules
        → IncludesBy C.check_log_of C.outcome_of C.finish_of (P.participants_of provider.old) (P.directory_of provider.old) Dir.spelling Dir.matches_of c
        → life.old.round ≡ Some round → IsSeen inclusion.old beside.inclusion → EndsWith beside (λ i. OnOk result (IsSeen inclusion.new i)) (λ more. more ≡ [])
        (λ now. Tells (on_fed c round request (fed_of fed) (live_of beside fence life.old)) (ends_in
        (live_of now fence life.new) result) out.old.entries out.new.entries) }
    ensures moved { Moved D.tells D.made X.made D.faults X.faults devices.old devices.new }
    ensures causes { StopsOver D.faults X.faults devices.old devices.new result }
{
    match fed {
        Fed::Need => Ok(()),
        Fed::Unavailable(why) => answer_none(alloc, &mut inclusion.told, request, why, out),
        Fed::Logs(found) => {
            let logs = filled_by(alloc, canonical(alloc, life)?, &found)?;
            ask_for(
                alloc, ceremony, provider, terms, life, inclusion, devices, request, logs, out,
            )
        }
    }
}

/// Reads the first request that waits: it is answered, or a verification answers it, or it is in hand from now on (`reads_first`).
fn read_first<
    C: Ceremony + Drop,
    P: ParticipantsProvider<Dir = Dir>,
    Dir: Directory + Drop,
    D: Disk,
    X: SecretStore,
>(
    alloc: Global,
    ceremony: &C,
    provider: &mut P,
    terms: &Terms,
    life: &mut Life<Dir>,
    inclusion: &mut Inclusion<C, Dir>,
    devices: &mut Devices<'_, D, X>,
    out: &mut Transcript,
) -> Result<(), Stop>
    requires ready { IsReadyLife D.tells D.files D.image C.ack_of C.deal_of C.check_ack_of terms.now life.old devices.old }
    requires including { IsReadyInclusion C.check_log_of C.dealing_of C.finish_of (non_zero_u64_get terms.now.blocks_per_epoch) life.old inclusion.old }
    requires may { (life.old.stage ≡ Including) × (inclusion.old.hand ≡ None) × (inclusion.old.verification.running ≡ None) }
    ensures left { OnOk result (IsSome life.old.round → inclusion.new.requests ≡ behind_first inclusion.old.requests) }
    ensures ready { OnOk result (IsReadyLife D.tells D.files D.image C.ack_of C.deal_of C.check_ack_of terms.now life.new devices.new) }
    ensures including { OnOk result (IsReadyInclusion C.check_log_of C.dealing_of C.finish_of (non_zero_u64_get terms.now.blocks_per_epoch) life.new
        inclusion.new) }
    ensures stays { OnlyLooks life.old life.new X.held devices.old devices.new P.tells (P.participants_of provider.old) (P.participants_of provider.new)
        (P.directory_of provider.old) (P.directory_of provider.new) }
    ensures acts { IsTrue D.tells → IsTrue X.tells → IsTrue P.tells → (c : Fixed Dir) (beside : Beside Dir) (fence : Readiness) → IsOf terms.now c
        → ReadsPlanless c
        → IsRuledBy C.round_of C.deal_of C.dealing_of C.ack_of C.check_ack_of C.sign_log_of C.bears_ack_of C.share_public_of C.partial_public_of c.rules
        → IncludesBy C.check_log_of C.outcome_of C.finish_of (P.participants_of provider.old) (P.directory_of provider.old) Dir.spelling Dir.matches_of c
        → IsSeen inclusion.old beside.inclusion → EndsWith beside (λ i. OnOk result (IsSeen inclusion.new i)) (λ more. more ≡ [])
        (λ now. Makes D.files D.image X.held (reads_next c (live_of beside fence life.old)) (ends_in
        (live_of now fence life.new) result)
        devices.old devices.new out.old.entries out.new.entries) }
    ensures tells { IsTrue P.tells → (c : Fixed Dir) (beside : Beside Dir) (fence : Readiness) → IsOf terms.now c
        → ReadsPlanless c
        → IsRuledBy C.round_of C.deal_of C.dealing_of C.ack_of C.check_ack_of C.sign_log_of C.bears_ack_of C.share_public_of C.partial_public_of c.rules
        → IncludesBy C.check_log_of C.outcome_of C.finish_of (P.participants_of provider.old) (P.directory_of provider.old) Dir.spelling Dir.matches_of c
        → IsSeen inclusion.old beside.inclusion → EndsWith beside (λ i. OnOk result (IsSeen inclusion.new i)) (λ more. more ≡ [])
        (λ now. Tells (reads_next c (live_of beside fence life.old)) (ends_in
        (live_of now fence life.new) result) out.old.entries out.new.entries) }
    ensures moved { Moved D.tells D.made X.made D.faults X.faults devices.old devices.new }
    ensures causes { StopsOver D.faults X.faults devices.old devices.new result }
{
    let Some(round) = &life.round else {
        return Ok(());
    };
    let Some(request) = inclusion.requests.pop() else {
        return Ok(());
    };
    let (scan, fed) = read(alloc, ceremony, terms, life, round, &request)?;
    if is_need(&fed) {
        inclusion.hand = Some(Hand { request, scan });
        return Ok(());
    }
    take_answer(
        alloc,
        ceremony,
        provider,
        terms,
        life,
        inclusion,
        devices,
        request.number,
        fed,
        out,
    )
}

/// Whether the next request may be read: inclusion lasts, none is in hand, and no verification runs.
fn may_read<C: Ceremony, Dir: Directory>(life: &Life<Dir>, inclusion: &Inclusion<C, Dir>) -> bool
    ensures { IsTrue result ↔ ((life.now.stage ≡ Including) × (inclusion.now.hand ≡ None) × (inclusion.now.verification.running ≡ None)) }
{
    life.stage == Stage::Including
        && inclusion.hand.is_none()
        && inclusion.verification.running().is_none()
}

/// Reads the requests that wait, one after another, until one needs more, or a verification runs (`advanced`).
pub fn advance<
    C: Ceremony + Drop,
    P: ParticipantsProvider<Dir = Dir>,
    Dir: Directory + Drop,
    D: Disk,
    X: SecretStore,
>(
    alloc: Global,
    ceremony: &C,
    provider: &mut P,
    terms: &Terms,
    life: &mut Life<Dir>,
    inclusion: &mut Inclusion<C, Dir>,
    devices: &mut Devices<'_, D, X>,
    out: &mut Transcript,
) -> Result<(), Stop>
    requires ready { IsReadyLife D.tells D.files D.image C.ack_of C.deal_of C.check_ack_of terms.now life.old devices.old }
    requires including { IsReadyInclusion C.check_log_of C.dealing_of C.finish_of (non_zero_u64_get terms.now.blocks_per_epoch) life.old inclusion.old }
    ensures ready { OnOk result (IsReadyLife D.tells D.files D.image C.ack_of C.deal_of C.check_ack_of terms.now life.new devices.new) }
    ensures including { OnOk result (IsSettledInclusion C.check_log_of C.dealing_of C.finish_of (non_zero_u64_get terms.now.blocks_per_epoch) life.new
        inclusion.new) }
    ensures stays { OnlyLooks life.old life.new X.held devices.old devices.new P.tells (P.participants_of provider.old) (P.participants_of provider.new)
        (P.directory_of provider.old) (P.directory_of provider.new) }
    ensures acts { IsTrue D.tells → IsTrue X.tells → IsTrue P.tells → (c : Fixed Dir) (beside : Beside Dir) (fence : Readiness) → IsOf terms.now c
        → ReadsPlanless c
        → IsRuledBy C.round_of C.deal_of C.dealing_of C.ack_of C.check_ack_of C.sign_log_of C.bears_ack_of C.share_public_of C.partial_public_of c.rules
        → IncludesBy C.check_log_of C.outcome_of C.finish_of (P.participants_of provider.old) (P.directory_of provider.old) Dir.spelling Dir.matches_of c
        → IsSeen inclusion.old beside.inclusion → EndsWith beside (λ i. OnOk result (IsSeen inclusion.new i)) (λ more. more ≡ [])
        (λ now. Makes D.files D.image X.held (including.advanced c (live_of beside fence life.old)) (ends_in (live_of now fence life.new) result)
        devices.old devices.new out.old.entries out.new.entries) }
    ensures tells { IsTrue P.tells → (c : Fixed Dir) (beside : Beside Dir) (fence : Readiness) → IsOf terms.now c → ReadsPlanless c
        → IsRuledBy C.round_of C.deal_of C.dealing_of C.ack_of C.check_ack_of C.sign_log_of C.bears_ack_of C.share_public_of C.partial_public_of c.rules
        → IncludesBy C.check_log_of C.outcome_of C.finish_of (P.participants_of provider.old) (P.directory_of provider.old) Dir.spelling Dir.matches_of c
        → IsSeen inclusion.old beside.inclusion → EndsWith beside (λ i. OnOk result (IsSeen inclusion.new i)) (λ more. more ≡ [])
        (λ now. Tells (including.advanced c (live_of beside fence life.old)) (ends_in (live_of now fence life.new) result) out.old.entries out.new.entries) }
    ensures moved { Moved D.tells D.made X.made D.faults X.faults devices.old devices.new }
    ensures causes { StopsOver D.faults X.faults devices.old devices.new result }
{
    let count = inclusion.requests.len();
    for _turn in 0..count {
        if !may_read(life, inclusion) {
            return Ok(());
        }
        read_first(
            alloc, ceremony, provider, terms, life, inclusion, devices, out,
        )?;
    }
    Ok(())
}
