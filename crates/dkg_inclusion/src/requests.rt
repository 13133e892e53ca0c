//! The messages of final-block requests.
//!
//! Each function here is a part of the relation's `reads_mail`, and names it.
ghost use Rattle.std.specs.Prelude.{◌≡◌, ◌++◌, ◌∷◌, [], IfOk, IfSome, IsTrue, OnErr, OnOk, Some, false, filter, option_map};
ghost use Rattle.std.specs.Int.NonZero.{non_zero_u64_get};
ghost use Rattle.dkg_fence.specs.Readiness.{Readiness};
ghost use Rattle.dkg_core.specs.Fixed.{Fixed};
ghost use Rattle.dkg_core.specs.Including as including;
ghost use Rattle.dkg_artifact.specs.Requested.{is_other};
ghost use Rattle.dkg_artifact.specs.Scans.{IsAwaiting};
ghost use Rattle.dkg_life.specs.Ready.{IsReadyLife};
ghost use Rattle.dkg_life.specs.Ends.{StopsOver, ends_in};
ghost use Rattle.dkg_life.specs.Given.{IsOf, ReadsPlanless};
ghost use Rattle.dkg_life.specs.LiveOf.{Beside, EndsWith, live_of};
ghost use Rattle.dkg_life.specs.Made.{Makes, Tells};
ghost use Rattle.dkg_life.specs.Moved.{Moved};
ghost use Rattle.dkg_life.specs.Rules.{IncludesBy, IsRuledBy};
ghost use Rattle.dkg_verifying.specs.Including.{EndsHand, FeedsHand, IsHandOf, behind_answer, fed_of, goes_on, unless_of};
ghost use Rattle.dkg_verifying.specs.InclusionOf.{IsReadyInclusion, IsSeen, IsSettledInclusion, checked_result_of};
ghost use Rattle.dkg_verifying.specs.Looks.{OnlyLooks};

use crate::scanning::{advance, take_answer};
use dkg_artifact::{Fed, Path, Request, VerifiedLogs};
use dkg_ceremony::Ceremony;
use dkg_infos::{Directory, Transcript, Why};
use dkg_journal::Disk;
use dkg_life::{Life, Stage, Stop, Terms};
use dkg_store::{Devices, SecretStore};
use dkg_types::{Block, ParticipantsProvider};
use dkg_values::Mem;
use dkg_verifying::{Inclusion, answer_none, end_verifying, post};
use std::alloc::Global;

/// Puts a request behind those that wait (`queued`).
fn queue<C: Ceremony, Dir: Directory + Drop>(
    alloc: Global,
    inclusion: &mut Inclusion<C, Dir>,
    number: u64,
) -> Mem<()>
    ensures ok { OnOk result (inclusion.new ≡ record inclusion.old {
      requests = inclusion.old.requests ++ record {
        number = number;
        blocks = [];
        ended = false;
      } ∷ [];
    }) }
    ensures err { OnErr result (inclusion.new ≡ inclusion.old) }
{
    inclusion.requests.push(Request {
        number,
        blocks: Path(Vec::new(alloc)),
        ended: false,
    })
}

/// Takes a final-block request: it is queued while dealing, and read while including (`asks`).
pub fn ask<
    C: Ceremony + Drop,
    P: ParticipantsProvider<Dir = Dir>,
    Dir: Directory + Drop,
    D: Disk,
    X: SecretStore,
>(
    alloc: Global,
    ceremony: &C,
    provider: &mut P,
    terms: &Terms,
    life: &mut Life<Dir>,
    inclusion: &mut Inclusion<C, Dir>,
    devices: &mut Devices<'_, D, X>,
    request: u64,
    out: &mut Transcript,
) -> Result<(), Stop>
    requires ready { IsReadyLife D.tells D.files D.image C.ack_of C.deal_of C.check_ack_of terms.now life.old devices.old }
    requires including { IsSettledInclusion C.check_log_of C.dealing_of C.finish_of (non_zero_u64_get terms.now.blocks_per_epoch) life.old inclusion.old }
    ensures ready { OnOk result (IsReadyLife D.tells D.files D.image C.ack_of C.deal_of C.check_ack_of terms.now life.new devices.new) }
    ensures including { OnOk result (IsSettledInclusion C.check_log_of C.dealing_of C.finish_of (non_zero_u64_get terms.now.blocks_per_epoch) life.new
        inclusion.new) }
    ensures stays { OnlyLooks life.old life.new X.held devices.old devices.new P.tells (P.participants_of provider.old) (P.participants_of provider.new)
        (P.directory_of provider.old) (P.directory_of provider.new) }
    ensures acts { IsTrue D.tells → IsTrue X.tells → IsTrue P.tells → (c : Fixed Dir) (beside : Beside Dir) (fence : Readiness) → IsOf terms.now c
        → ReadsPlanless c
        → IsRuledBy C.round_of C.deal_of C.dealing_of C.ack_of C.check_ack_of C.sign_log_of C.bears_ack_of C.share_public_of C.partial_public_of c.rules
        → IncludesBy C.check_log_of C.outcome_of C.finish_of (P.participants_of provider.old) (P.directory_of provider.old) Dir.spelling Dir.matches_of c
        → IsSeen inclusion.old beside.inclusion → EndsWith beside (λ i. OnOk result (IsSeen inclusion.new i)) (λ more. more ≡ [])
        (λ now. Makes D.files D.image X.held (including.asks_request c request (live_of beside fence life.old)) (ends_in (live_of now fence life.new) result)
        devices.old devices.new out.old.entries out.new.entries) }
    ensures tells { IsTrue P.tells → (c : Fixed Dir) (beside : Beside Dir) (fence : Readiness) → IsOf terms.now c → ReadsPlanless c
        → IsRuledBy C.round_of C.deal_of C.dealing_of C.ack_of C.check_ack_of C.sign_log_of C.bears_ack_of C.share_public_of C.partial_public_of c.rules
        → IncludesBy C.check_log_of C.outcome_of C.finish_of (P.participants_of provider.old) (P.directory_of provider.old) Dir.spelling Dir.matches_of c
        → IsSeen inclusion.old beside.inclusion → EndsWith beside (λ i. OnOk result (IsSeen inclusion.new i)) (λ more. more ≡ [])
        (λ now. Tells (including.asks_request c request (live_of beside fence life.old)) (ends_in
        (live_of now fence life.new) result) out.old.entries out.new.entries) }
    ensures moved { Moved D.tells D.made X.made D.faults X.faults devices.old devices.new }
    ensures causes { StopsOver D.faults X.faults devices.old devices.new result }
{
    post(&mut inclusion.told, request)?;
    match life.stage {
        Stage::Dealing => Ok(queue(alloc, inclusion, request)?),
        Stage::Including => {
            queue(alloc, inclusion, request)?;
            advance(
                alloc, ceremony, provider, terms, life, inclusion, devices, out,
            )
        }
        Stage::Following => answer_none(alloc, &mut inclusion.told, request, Why::Following, out),
    }
}

/// Feeds a block to the request in hand, where it has this number: what its scan answers.
fn feed_hand<C: Ceremony, Dir: Directory + Drop>(
    alloc: Global,
    ceremony: &C,
    inclusion: &mut Inclusion<C, Dir>,
    request: u64,
    block: Block<Dir>,
) -> Mem<Fed>
    requires { IfSome inclusion.old.hand (λ hand. IsAwaiting hand.scan) }
    ensures fed { IfOk result (λ fed. FeedsHand C.check_log_of request block inclusion.old inclusion.new fed) }
{
    match &mut inclusion.hand {
        Some(hand) if hand.request.number == request => {
            let fed = hand.scan.feed(alloc, ceremony, &block)?;
            hand.request.blocks.0.push(block)?;
            Ok(fed)
        }
        _ => Ok(Fed::Need),
    }
}

/// Ends the ancestry of the request in hand, where it has this number: what its scan answers.
fn end_hand<C: Ceremony, Dir: Directory>(inclusion: &mut Inclusion<C, Dir>, request: u64) -> Fed
    requires { IfSome inclusion.old.hand (λ hand. IsAwaiting hand.scan) }
    ensures { EndsHand request inclusion.old inclusion.new result }
{
    match &mut inclusion.hand {
        Some(hand) if hand.request.number == request => {
            hand.request.ended = true;
            hand.scan.end()
        }
        _ => Fed::Need,
    }
}

/// Goes on by what the scan in hand answered: unless it needs more, its request is in hand no more.
fn go_on<
    C: Ceremony + Drop,
    P: ParticipantsProvider<Dir = Dir>,
    Dir: Directory + Drop,
    D: Disk,
    X: SecretStore,
>(
    alloc: Global,
    ceremony: &C,
    provider: &mut P,
    terms: &Terms,
    life: &mut Life<Dir>,
    inclusion: &mut Inclusion<C, Dir>,
    devices: &mut Devices<'_, D, X>,
    request: u64,
    fed: Fed,
    out: &mut Transcript,
) -> Result<(), Stop>
    requires ready { IsReadyLife D.tells D.files D.image C.ack_of C.deal_of C.check_ack_of terms.now life.old devices.old }
    requires needs { fed ≡ Fed.Need → IsSettledInclusion C.check_log_of C.dealing_of C.finish_of (non_zero_u64_get terms.now.blocks_per_epoch) life.old
        inclusion.old }
    requires answers { IsReadyInclusion C.check_log_of C.dealing_of C.finish_of (non_zero_u64_get terms.now.blocks_per_epoch) life.old
        (behind_answer fed inclusion.old) }
    requires hand { (fed ≡ Fed.Need → ⊥) → IsHandOf life.old inclusion.old request }
    ensures ready { OnOk result (IsReadyLife D.tells D.files D.image C.ack_of C.deal_of C.check_ack_of terms.now life.new devices.new) }
    ensures including { OnOk result (IsSettledInclusion C.check_log_of C.dealing_of C.finish_of (non_zero_u64_get terms.now.blocks_per_epoch) life.new
        inclusion.new) }
    ensures stays { OnlyLooks life.old life.new X.held devices.old devices.new P.tells (P.participants_of provider.old) (P.participants_of provider.new)
        (P.directory_of provider.old) (P.directory_of provider.new) }
    ensures acts { IsTrue D.tells → IsTrue X.tells → IsTrue P.tells → (c : Fixed Dir) (beside : Beside Dir) (fence : Readiness) → IsOf terms.now c
        → ReadsPlanless c
        → IsRuledBy C.round_of C.deal_of C.dealing_of C.ack_of C.check_ack_of C.sign_log_of C.bears_ack_of C.share_public_of C.partial_public_of c.rules
        → IncludesBy C.check_log_of C.outcome_of C.finish_of (P.participants_of provider.old) (P.directory_of provider.old) Dir.spelling Dir.matches_of c
        → IsSeen inclusion.old beside.inclusion → EndsWith beside (λ i. OnOk result (IsSeen inclusion.new i)) (λ more. more ≡ [])
        (λ now. Makes D.files D.image X.held (goes_on c request (fed_of fed) (live_of beside fence life.old)) (ends_in
        (live_of now fence life.new) result)
        devices.old devices.new out.old.entries out.new.entries) }
    ensures tells { IsTrue P.tells → (c : Fixed Dir) (beside : Beside Dir) (fence : Readiness) → IsOf terms.now c
        → ReadsPlanless c
        → IsRuledBy C.round_of C.deal_of C.dealing_of C.ack_of C.check_ack_of C.sign_log_of C.bears_ack_of C.share_public_of C.partial_public_of c.rules
        → IncludesBy C.check_log_of C.outcome_of C.finish_of (P.participants_of provider.old) (P.directory_of provider.old) Dir.spelling Dir.matches_of c
        → IsSeen inclusion.old beside.inclusion → EndsWith beside (λ i. OnOk result (IsSeen inclusion.new i)) (λ more. more ≡ [])
        (λ now. Tells (goes_on c request (fed_of fed) (live_of beside fence life.old)) (ends_in
        (live_of now fence life.new) result) out.old.entries out.new.entries) }
    ensures moved { Moved D.tells D.made X.made D.faults X.faults devices.old devices.new }
    ensures causes { StopsOver D.faults X.faults devices.old devices.new result }
{
    match fed {
        Fed::Need => Ok(()),
        fed => {
            inclusion.hand = None;
            take_answer(
                alloc, ceremony, provider, terms, life, inclusion, devices, request, fed, out,
            )?;
            advance(
                alloc, ceremony, provider, terms, life, inclusion, devices, out,
            )
        }
    }
}

/// Takes one more block of a request's ancestry, unless that has ended (`feeds`).
pub fn feed<
    C: Ceremony + Drop,
    P: ParticipantsProvider<Dir = Dir>,
    Dir: Directory + Drop,
    D: Disk,
    X: SecretStore,
>(
    alloc: Global,
    ceremony: &C,
    provider: &mut P,
    terms: &Terms,
    life: &mut Life<Dir>,
    inclusion: &mut Inclusion<C, Dir>,
    devices: &mut Devices<'_, D, X>,
    request: u64,
    block: Block<Dir>,
    out: &mut Transcript,
) -> Result<(), Stop>
    requires ready { IsReadyLife D.tells D.files D.image C.ack_of C.deal_of C.check_ack_of terms.now life.old devices.old }
    requires including { IsSettledInclusion C.check_log_of C.dealing_of C.finish_of (non_zero_u64_get terms.now.blocks_per_epoch) life.old inclusion.old }
    ensures ready { OnOk result (IsReadyLife D.tells D.files D.image C.ack_of C.deal_of C.check_ack_of terms.now life.new devices.new) }
    ensures including { OnOk result (IsSettledInclusion C.check_log_of C.dealing_of C.finish_of (non_zero_u64_get terms.now.blocks_per_epoch) life.new
        inclusion.new) }
    ensures stays { OnlyLooks life.old life.new X.held devices.old devices.new P.tells (P.participants_of provider.old) (P.participants_of provider.new)
        (P.directory_of provider.old) (P.directory_of provider.new) }
    ensures acts { IsTrue D.tells → IsTrue X.tells → IsTrue P.tells → (c : Fixed Dir) (beside : Beside Dir) (fence : Readiness) → IsOf terms.now c
        → ReadsPlanless c
        → IsRuledBy C.round_of C.deal_of C.dealing_of C.ack_of C.check_ack_of C.sign_log_of C.bears_ack_of C.share_public_of C.partial_public_of c.rules
        → IncludesBy C.check_log_of C.outcome_of C.finish_of (P.participants_of provider.old) (P.directory_of provider.old) Dir.spelling Dir.matches_of c
        → IsSeen inclusion.old beside.inclusion → EndsWith beside (λ i. OnOk result (IsSeen inclusion.new i)) (λ more. more ≡ [])
        (λ now. Makes D.files D.image X.held (including.feeds_request c request block (live_of beside fence life.old))
        (ends_in (live_of now fence life.new) result)
        devices.old devices.new out.old.entries out.new.entries) }
    ensures tells { IsTrue P.tells → (c : Fixed Dir) (beside : Beside Dir) (fence : Readiness) → IsOf terms.now c → ReadsPlanless c
        → IsRuledBy C.round_of C.deal_of C.dealing_of C.ack_of C.check_ack_of C.sign_log_of C.bears_ack_of C.share_public_of C.partial_public_of c.rules
        → IncludesBy C.check_log_of C.outcome_of C.finish_of (P.participants_of provider.old) (P.directory_of provider.old) Dir.spelling Dir.matches_of c
        → IsSeen inclusion.old beside.inclusion → EndsWith beside (λ i. OnOk result (IsSeen inclusion.new i)) (λ more. more ≡ [])
        (λ now. Tells (including.feeds_request c request block (live_of beside fence life.old)) (ends_in
        (live_of now fence life.new) result) out.old.entries out.new.entries) }
    ensures moved { Moved D.tells D.made X.made D.faults X.faults devices.old devices.new }
    ensures causes { StopsOver D.faults X.faults devices.old devices.new result }
{
    inclusion.requests.feed(alloc, request, &block)?;
    let fed = feed_hand(alloc, ceremony, inclusion, request, block)?;
    go_on(
        alloc, ceremony, provider, terms, life, inclusion, devices, request, fed, out,
    )
}

/// The ancestry of a request has ended (`ends`).
pub fn end<
    C: Ceremony + Drop,
    P: ParticipantsProvider<Dir = Dir>,
    Dir: Directory + Drop,
    D: Disk,
    X: SecretStore,
>(
    alloc: Global,
    ceremony: &C,
    provider: &mut P,
    terms: &Terms,
    life: &mut Life<Dir>,
    inclusion: &mut Inclusion<C, Dir>,
    devices: &mut Devices<'_, D, X>,
    request: u64,
    out: &mut Transcript,
) -> Result<(), Stop>
    requires ready { IsReadyLife D.tells D.files D.image C.ack_of C.deal_of C.check_ack_of terms.now life.old devices.old }
    requires including { IsSettledInclusion C.check_log_of C.dealing_of C.finish_of (non_zero_u64_get terms.now.blocks_per_epoch) life.old inclusion.old }
    ensures ready { OnOk result (IsReadyLife D.tells D.files D.image C.ack_of C.deal_of C.check_ack_of terms.now life.new devices.new) }
    ensures including { OnOk result (IsSettledInclusion C.check_log_of C.dealing_of C.finish_of (non_zero_u64_get terms.now.blocks_per_epoch) life.new
        inclusion.new) }
    ensures stays { OnlyLooks life.old life.new X.held devices.old devices.new P.tells (P.participants_of provider.old) (P.participants_of provider.new)
        (P.directory_of provider.old) (P.directory_of provider.new) }
    ensures acts { IsTrue D.tells → IsTrue X.tells → IsTrue P.tells → (c : Fixed Dir) (beside : Beside Dir) (fence : Readiness) → IsOf terms.now c
        → ReadsPlanless c
        → IsRuledBy C.round_of C.deal_of C.dealing_of C.ack_of C.check_ack_of C.sign_log_of C.bears_ack_of C.share_public_of C.partial_public_of c.rules
        → IncludesBy C.check_log_of C.outcome_of C.finish_of (P.participants_of provider.old) (P.directory_of provider.old) Dir.spelling Dir.matches_of c
        → IsSeen inclusion.old beside.inclusion → EndsWith beside (λ i. OnOk result (IsSeen inclusion.new i)) (λ more. more ≡ [])
        (λ now. Makes D.files D.image X.held (including.ends_request c request (live_of beside fence life.old)) (ends_in (live_of now fence life.new) result)
        devices.old devices.new out.old.entries out.new.entries) }
    ensures tells { IsTrue P.tells → (c : Fixed Dir) (beside : Beside Dir) (fence : Readiness) → IsOf terms.now c → ReadsPlanless c
        → IsRuledBy C.round_of C.deal_of C.dealing_of C.ack_of C.check_ack_of C.sign_log_of C.bears_ack_of C.share_public_of C.partial_public_of c.rules
        → IncludesBy C.check_log_of C.outcome_of C.finish_of (P.participants_of provider.old) (P.directory_of provider.old) Dir.spelling Dir.matches_of c
        → IsSeen inclusion.old beside.inclusion → EndsWith beside (λ i. OnOk result (IsSeen inclusion.new i)) (λ more. more ≡ [])
        (λ now. Tells (including.ends_request c request (live_of beside fence life.old)) (ends_in
        (live_of now fence life.new) result) out.old.entries out.new.entries) }
    ensures moved { Moved D.tells D.made X.made D.faults X.faults devices.old devices.new }
    ensures causes { StopsOver D.faults X.faults devices.old devices.new result }
{
    inclusion.requests.end(request);
    let fed = end_hand(inclusion, request);
    go_on(
        alloc, ceremony, provider, terms, life, inclusion, devices, request, fed, out,
    )
}

/// Takes the requests of a number away from those that wait.
fn withdraw<C: Ceremony, Dir: Directory + Drop>(inclusion: &mut Inclusion<C, Dir>, request: u64)
    ensures { inclusion.new ≡ record inclusion.old {
      hand = unless_of request inclusion.old.hand;
      requests = filter (is_other request) inclusion.old.requests;
    } }
{
    inclusion.requests.remove(request);
    match &inclusion.hand {
        Some(hand) if hand.request.number == request => inclusion.hand = None,
        _ => {}
    }
}

/// Takes a request away unanswered. A verification that it started goes on, for nobody (`cancels`).
pub fn cancel<
    C: Ceremony + Drop,
    P: ParticipantsProvider<Dir = Dir>,
    Dir: Directory + Drop,
    D: Disk,
    X: SecretStore,
>(
    alloc: Global,
    ceremony: &C,
    provider: &mut P,
    terms: &Terms,
    life: &mut Life<Dir>,
    inclusion: &mut Inclusion<C, Dir>,
    devices: &mut Devices<'_, D, X>,
    request: u64,
    out: &mut Transcript,
) -> Result<(), Stop>
    requires ready { IsReadyLife D.tells D.files D.image C.ack_of C.deal_of C.check_ack_of terms.now life.old devices.old }
    requires including { IsSettledInclusion C.check_log_of C.dealing_of C.finish_of (non_zero_u64_get terms.now.blocks_per_epoch) life.old inclusion.old }
    ensures ready { OnOk result (IsReadyLife D.tells D.files D.image C.ack_of C.deal_of C.check_ack_of terms.now life.new devices.new) }
    ensures including { OnOk result (IsSettledInclusion C.check_log_of C.dealing_of C.finish_of (non_zero_u64_get terms.now.blocks_per_epoch) life.new
        inclusion.new) }
    ensures stays { OnlyLooks life.old life.new X.held devices.old devices.new P.tells (P.participants_of provider.old) (P.participants_of provider.new)
        (P.directory_of provider.old) (P.directory_of provider.new) }
    ensures acts { IsTrue D.tells → IsTrue X.tells → IsTrue P.tells → (c : Fixed Dir) (beside : Beside Dir) (fence : Readiness) → IsOf terms.now c
        → ReadsPlanless c
        → IsRuledBy C.round_of C.deal_of C.dealing_of C.ack_of C.check_ack_of C.sign_log_of C.bears_ack_of C.share_public_of C.partial_public_of c.rules
        → IncludesBy C.check_log_of C.outcome_of C.finish_of (P.participants_of provider.old) (P.directory_of provider.old) Dir.spelling Dir.matches_of c
        → IsSeen inclusion.old beside.inclusion → EndsWith beside (λ i. OnOk result (IsSeen inclusion.new i)) (λ more. more ≡ [])
        (λ now. Makes D.files D.image X.held (including.cancels c request (live_of beside fence life.old)) (ends_in (live_of now fence life.new) result)
        devices.old devices.new out.old.entries out.new.entries) }
    ensures tells { IsTrue P.tells → (c : Fixed Dir) (beside : Beside Dir) (fence : Readiness) → IsOf terms.now c → ReadsPlanless c
        → IsRuledBy C.round_of C.deal_of C.dealing_of C.ack_of C.check_ack_of C.sign_log_of C.bears_ack_of C.share_public_of C.partial_public_of c.rules
        → IncludesBy C.check_log_of C.outcome_of C.finish_of (P.participants_of provider.old) (P.directory_of provider.old) Dir.spelling Dir.matches_of c
        → IsSeen inclusion.old beside.inclusion → EndsWith beside (λ i. OnOk result (IsSeen inclusion.new i)) (λ more. more ≡ [])
        (λ now. Tells (including.cancels c request (live_of beside fence life.old)) (ends_in
        (live_of now fence life.new) result) out.old.entries out.new.entries) }
    ensures moved { Moved D.tells D.made X.made D.faults X.faults devices.old devices.new }
    ensures causes { StopsOver D.faults X.faults devices.old devices.new result }
{
    if inclusion.waiter == Some(request) {
        inclusion.waiter = None;
        return Ok(());
    }
    withdraw(inclusion, request);
    advance(
        alloc, ceremony, provider, terms, life, inclusion, devices, out,
    )
}

/// Ends the running verification, and reads on. Where none runs, what is handed in is dropped (`works`).
pub fn work<
    C: Ceremony + Drop,
    P: ParticipantsProvider<Dir = Dir>,
    Dir: Directory + Drop,
    D: Disk,
    X: SecretStore,
>(
    alloc: Global,
    ceremony: &C,
    provider: &mut P,
    terms: &Terms,
    life: &mut Life<Dir>,
    inclusion: &mut Inclusion<C, Dir>,
    devices: &mut Devices<'_, D, X>,
    done: Option<VerifiedLogs<C>>,
    out: &mut Transcript,
) -> Result<(), Stop>
    requires ready { IsReadyLife D.tells D.files D.image C.ack_of C.deal_of C.check_ack_of terms.now life.old devices.old }
    requires including { IsSettledInclusion C.check_log_of C.dealing_of C.finish_of (non_zero_u64_get terms.now.blocks_per_epoch) life.old inclusion.old }
    ensures ready { OnOk result (IsReadyLife D.tells D.files D.image C.ack_of C.deal_of C.check_ack_of terms.now life.new devices.new) }
    ensures including { OnOk result (IsSettledInclusion C.check_log_of C.dealing_of C.finish_of (non_zero_u64_get terms.now.blocks_per_epoch) life.new
        inclusion.new) }
    ensures stays { OnlyLooks life.old life.new X.held devices.old devices.new P.tells (P.participants_of provider.old) (P.participants_of provider.new)
        (P.directory_of provider.old) (P.directory_of provider.new) }
    ensures acts { IsTrue D.tells → IsTrue X.tells → IsTrue P.tells → (c : Fixed Dir) (beside : Beside Dir) (fence : Readiness) → IsOf terms.now c
        → ReadsPlanless c
        → IsRuledBy C.round_of C.deal_of C.dealing_of C.ack_of C.check_ack_of C.sign_log_of C.bears_ack_of C.share_public_of C.partial_public_of c.rules
        → IncludesBy C.check_log_of C.outcome_of C.finish_of (P.participants_of provider.old) (P.directory_of provider.old) Dir.spelling Dir.matches_of c
        → IsSeen inclusion.old beside.inclusion → EndsWith beside (λ i. OnOk result (IsSeen inclusion.new i)) (λ more. more ≡ [])
        (λ now. Makes D.files D.image X.held (including.works c (option_map checked_result_of done) (live_of beside fence life.old)) (ends_in
        (live_of now fence life.new) result)
        devices.old devices.new out.old.entries out.new.entries) }
    ensures tells { IsTrue P.tells → (c : Fixed Dir) (beside : Beside Dir) (fence : Readiness) → IsOf terms.now c → ReadsPlanless c
        → IsRuledBy C.round_of C.deal_of C.dealing_of C.ack_of C.check_ack_of C.sign_log_of C.bears_ack_of C.share_public_of C.partial_public_of c.rules
        → IncludesBy C.check_log_of C.outcome_of C.finish_of (P.participants_of provider.old) (P.directory_of provider.old) Dir.spelling Dir.matches_of c
        → IsSeen inclusion.old beside.inclusion → EndsWith beside (λ i. OnOk result (IsSeen inclusion.new i)) (λ more. more ≡ [])
        (λ now. Tells (including.works c (option_map checked_result_of done) (live_of beside fence life.old)) (ends_in
        (live_of now fence life.new) result) out.old.entries out.new.entries) }
    ensures moved { Moved D.tells D.made X.made D.faults X.faults devices.old devices.new }
    ensures causes { StopsOver D.faults X.faults devices.old devices.new result }
{
    if inclusion.verification.running().is_none() {
        return Ok(());
    }
    end_verifying(
        alloc, ceremony, provider, terms, life, inclusion, devices, done, out,
    )?;
    advance(
        alloc, ceremony, provider, terms, life, inclusion, devices, out,
    )
}
