//! Delivered blocks. While dealing an early block offers the dealings, and the one before the midpoint ends that; while including a block's log
//! is recorded; the last block of an epoch leads into the next one.
//!
//! These are the relation's `delivers`, `over_tip` and `applies`.
ghost use Rattle.std.specs.Prelude.{◌≡◌, ◌<◌, ◌+◌, ◌==◌, ◌||◌, IsTrue, None, OnOk, Some, is_some, []};
ghost use Rattle.std.specs.Int.NonZero.{non_zero_u32_get, non_zero_u64_get};
ghost use Rattle.dkg_ceremony.specs.Schedule.{epoch_of};
ghost use Rattle.dkg_ceremony.specs.declared.round.RoundParts.{RoundParts as Round};
ghost use Rattle.dkg_fence.specs.Readiness.{Readiness};
ghost use Rattle.dkg_core.specs.Blocks as blocks;
ghost use Rattle.dkg_core.specs.Fixed.{Fixed};
ghost use Rattle.dkg_life.specs.Ready.{IsReadyLife};
ghost use Rattle.dkg_life.specs.Ends.{StopsOver, StopsReading, ends_in};
ghost use Rattle.dkg_life.specs.Given.{IsIn, IsOf, ReadsPlanless};
ghost use Rattle.dkg_life.specs.LiveOf.{Beside, EndsWith, TookSchemes, live_of};
ghost use Rattle.dkg_life.specs.Made.{Makes, Tells};
ghost use Rattle.dkg_life.specs.Rules.{IncludesBy, IsRuledBy, SameProvided};
ghost use Rattle.dkg_life.specs.Steps.{AreBoundsAt};
ghost use Rattle.dkg_life.specs.declared.life.Stage.TheVariants.{Including};
ghost use Rattle.dkg_verifying.specs.Including.{IsNextBlock, applies_included};
ghost use Rattle.dkg_verifying.specs.InclusionOf.{IsReadyInclusion, IsSeen, IsSettledInclusion};
ghost use Rattle.dkg_blocks.specs.Applied.{IsApplied, MovesOn, is_in_window_by};
ghost use Rattle.dkg_blocks.specs.CarriedLogs.{CarriesWithin};

use dkg_blocks::{follow_block, observe, take_final_block, unserve};
use dkg_ceremony::{Bounds, Ceremony, Epocher, Phase};
use dkg_dealing::deal;
use dkg_fence::Fence;
use dkg_inclusion::advance;
use dkg_infos::{Directory, Fault, Transcript};
use dkg_journal::Disk;
use dkg_life::{Judged, Life, Stage, Stop, Terms, judge, tip_of};
use dkg_setup::begin_inclusion;
use dkg_store::{Devices, SecretStore};
use dkg_types::{Block, ParticipantsProvider, Registrar};
use dkg_values::Height;
use dkg_verifying::Inclusion;
use std::alloc::Global;

/// Whether a life without a tip takes a block of these bounds (`is_in_window`).
fn is_in_window<Dir: Directory + Drop>(life: &Life<Dir>, bounds: &Bounds) -> bool
    ensures { result ≡ is_in_window_by life.now.stage (bounds.now.epoch == life.now.epoch) (blocks.is_early bounds.now.phase) }
{
    match life.stage {
        Stage::Dealing => bounds.epoch == life.epoch && bounds.phase == Phase::Early,
        Stage::Including => bounds.epoch == life.epoch && bounds.phase != Phase::Early,
        Stage::Following => true,
    }
}

/// Whether dealing ends with a block of this height: the one before the midpoint.
fn ends_dealing(midpoint: Height, height: Height) -> bool
    ensures { result ≡ (height + 1 == midpoint) }
{
    midpoint.0.checked_sub(height.0) == Some(1)
}

/// Applies a block while dealing: the dealings are offered, and the last early block ends dealing; then the requests that
/// wait are read (`deals_at`).
fn apply_dealing<
    C: Ceremony + Drop,
    P: ParticipantsProvider<Dir = Dir>,
    Dir: Directory + Drop,
    D: Disk,
    X: SecretStore,
>(
    alloc: Global,
    ceremony: &C,
    signer: &C::Signer,
    provider: &mut P,
    terms: &Terms,
    life: &mut Life<Dir>,
    inclusion: &mut Inclusion<C, Dir>,
    devices: &mut Devices<'_, D, X>,
    block: &Block<Dir>,
    out: &mut Transcript,
) -> Result<(), Stop>
    requires dealing { life.old.stage ≡ Stage.Dealing }
    requires early { block.now.height < life.old.midpoint }
    requires next { epoch_of (non_zero_u64_get terms.now.blocks_per_epoch) block.now.height ≡ life.old.epoch }
    requires me { terms.now.me ≡ C.Signer.key_of signer.now }
    requires ready { IsReadyLife D.tells D.files D.image C.ack_of C.deal_of C.check_ack_of terms.now life.old devices.old }
    requires including { IsReadyInclusion C.check_log_of C.dealing_of C.finish_of (non_zero_u64_get terms.now.blocks_per_epoch) life.old inclusion.old }
    ensures ready { OnOk result (IsReadyLife D.tells D.files D.image C.ack_of C.deal_of C.check_ack_of terms.now life.new devices.new) }
    ensures moves { MovesOn life.old life.new D.tells D.made X.made D.faults X.faults D.image (non_zero_u32_get terms.now.limit) devices.old devices.new }
    ensures causes { StopsOver D.faults X.faults devices.old devices.new result }
    ensures including { OnOk result (IsSettledInclusion C.check_log_of C.dealing_of C.finish_of (non_zero_u64_get terms.now.blocks_per_epoch) life.new
        inclusion.new) }
    ensures provider { IsTrue P.tells → SameProvided (P.participants_of provider.old) (P.participants_of provider.new)
        (P.directory_of provider.old) (P.directory_of provider.new) }
    ensures acts { IsTrue D.tells → IsTrue X.tells → IsTrue P.tells → (c : Fixed Dir) (beside : Beside Dir) (fence : Readiness) → IsOf terms.now c
        → ReadsPlanless c
        → IsRuledBy C.round_of C.deal_of C.dealing_of C.ack_of C.check_ack_of C.sign_log_of C.bears_ack_of C.share_public_of C.partial_public_of c.rules
        → IncludesBy C.check_log_of C.outcome_of C.finish_of (P.participants_of provider.old) (P.directory_of provider.old) Dir.spelling Dir.matches_of c
        → IsSeen inclusion.old beside.inclusion → EndsWith beside (λ i. OnOk result (IsSeen inclusion.new i)) (λ more. more ≡ [])
        (λ now. Makes D.files D.image X.held (blocks.deals_at c block.now (live_of beside fence life.old)) (ends_in (live_of now fence life.new) result)
        devices.old devices.new out.old.entries out.new.entries) }
    ensures tells { IsTrue P.tells → (c : Fixed Dir) (beside : Beside Dir) (fence : Readiness) → IsOf terms.now c → ReadsPlanless c
        → IsRuledBy C.round_of C.deal_of C.dealing_of C.ack_of C.check_ack_of C.sign_log_of C.bears_ack_of C.share_public_of C.partial_public_of c.rules
        → IncludesBy C.check_log_of C.outcome_of C.finish_of (P.participants_of provider.old) (P.directory_of provider.old) Dir.spelling Dir.matches_of c
        → IsSeen inclusion.old beside.inclusion → EndsWith beside (λ i. OnOk result (IsSeen inclusion.new i)) (λ more. more ≡ [])
        (λ now. Tells (blocks.deals_at c block.now (live_of beside fence life.old)) (ends_in
        (live_of now fence life.new) result) out.old.entries out.new.entries) }
{
    deal(alloc, ceremony, signer, terms, life, devices, out)?;
    life.tip = Some(tip_of(block));
    if ends_dealing(life.midpoint, block.height()) {
        begin_inclusion(alloc, ceremony, signer, life)?;
        inclusion.served = None;
        return advance(
            alloc, ceremony, provider, terms, life, inclusion, devices, out,
        );
    }
    Ok(())
}

/// Applies a block while including: its log is recorded where it counts, the tip goes on, and the requests that wait are read again over the new
/// tip (`includes`).
fn include<
    C: Ceremony + Drop,
    P: ParticipantsProvider<Dir = Dir>,
    Dir: Directory + Drop,
    D: Disk,
    X: SecretStore,
>(
    alloc: Global,
    ceremony: &C,
    provider: &mut P,
    terms: &Terms,
    life: &mut Life<Dir>,
    inclusion: &mut Inclusion<C, Dir>,
    devices: &mut Devices<'_, D, X>,
    block: &Block<Dir>,
    out: &mut Transcript,
) -> Result<(), Stop>
    requires ready { IsReadyLife D.tells D.files D.image C.ack_of C.deal_of C.check_ack_of terms.now life.old devices.old }
    requires including { IsReadyInclusion C.check_log_of C.dealing_of C.finish_of (non_zero_u64_get terms.now.blocks_per_epoch) life.old inclusion.old }
    requires includes { life.old.stage ≡ Including }
    requires next { IsNextBlock life.old block.now }
    requires inside { epoch_of (non_zero_u64_get terms.now.blocks_per_epoch) (block.now.height + 1) ≡ life.old.epoch }
    requires within { CarriesWithin (non_zero_u32_get terms.now.limit) block.now }
    requires idle { inclusion.old.hand ≡ None }
    ensures ready { OnOk result (IsReadyLife D.tells D.files D.image C.ack_of C.deal_of C.check_ack_of terms.now life.new devices.new) }
    ensures including { OnOk result (IsSettledInclusion C.check_log_of C.dealing_of C.finish_of (non_zero_u64_get terms.now.blocks_per_epoch) life.new
        inclusion.new) }
    ensures moves { MovesOn life.old life.new D.tells D.made X.made D.faults X.faults D.image (non_zero_u32_get terms.now.limit) devices.old devices.new }
    ensures provider { IsTrue P.tells → SameProvided (P.participants_of provider.old) (P.participants_of provider.new)
        (P.directory_of provider.old) (P.directory_of provider.new) }
    ensures acts { IsTrue D.tells → IsTrue X.tells → IsTrue P.tells → (c : Fixed Dir) (round : Round) (beside : Beside Dir) (fence : Readiness)
        → IsOf terms.now c → ReadsPlanless c
        → IsRuledBy C.round_of C.deal_of C.dealing_of C.ack_of C.check_ack_of C.sign_log_of C.bears_ack_of C.share_public_of C.partial_public_of c.rules
        → IncludesBy C.check_log_of C.outcome_of C.finish_of (P.participants_of provider.old) (P.directory_of provider.old) Dir.spelling Dir.matches_of c
        → life.old.round ≡ Some round → IsSeen inclusion.old beside.inclusion → EndsWith beside (λ i. OnOk result (IsSeen inclusion.new i)) (λ more. more ≡ [])
        (λ now. Makes D.files D.image X.held (blocks.includes c round block.now (live_of beside fence life.old)) (ends_in (live_of now fence life.new) result)
        devices.old devices.new out.old.entries out.new.entries) }
    ensures tells { IsTrue P.tells → (c : Fixed Dir) (round : Round) (beside : Beside Dir) (fence : Readiness) → IsOf terms.now c → ReadsPlanless c
        → IsRuledBy C.round_of C.deal_of C.dealing_of C.ack_of C.check_ack_of C.sign_log_of C.bears_ack_of C.share_public_of C.partial_public_of c.rules
        → IncludesBy C.check_log_of C.outcome_of C.finish_of (P.participants_of provider.old) (P.directory_of provider.old) Dir.spelling Dir.matches_of c
        → life.old.round ≡ Some round → IsSeen inclusion.old beside.inclusion → EndsWith beside (λ i. OnOk result (IsSeen inclusion.new i)) (λ more. more ≡ [])
        (λ now. Tells (blocks.includes c round block.now (live_of beside fence life.old)) (ends_in
        (live_of now fence life.new) result) out.old.entries out.new.entries) }
    ensures causes { StopsOver D.faults X.faults devices.old devices.new result }
{
    observe(alloc, ceremony, terms, life, devices, block)?;
    unserve(inclusion, block.height());
    life.tip = Some(tip_of(block));
    advance(
        alloc, ceremony, provider, terms, life, inclusion, devices, out,
    )
}

/// Applies a block from the midpoint on in an epoch that the node takes part in (`applies_in`, where the stage is that of inclusion).
fn apply_included<
    C: Ceremony + Drop,
    P: ParticipantsProvider<Dir = Dir>,
    R: Registrar,
    Dir: Directory + Drop,
    D: Disk,
    X: SecretStore,
>(
    alloc: Global,
    ceremony: &C,
    signer: &C::Signer,
    provider: &mut P,
    registrar: &mut R,
    terms: &Terms,
    life: &mut Life<Dir>,
    inclusion: &mut Inclusion<C, Dir>,
    devices: &mut Devices<'_, D, X>,
    block: &Block<Dir>,
    bounds: &Bounds,
    fence: &mut Fence,
    out: &mut Transcript,
) -> Result<(), Stop>
    requires me { terms.now.me ≡ C.Signer.key_of signer.now }
    requires ready { IsReadyLife D.tells D.files D.image C.ack_of C.deal_of C.check_ack_of terms.now life.old devices.old }
    requires including { IsReadyInclusion C.check_log_of C.dealing_of C.finish_of (non_zero_u64_get terms.now.blocks_per_epoch) life.old inclusion.old }
    requires includes { life.old.stage ≡ Including }
    requires bounds { AreBoundsAt (non_zero_u64_get terms.now.blocks_per_epoch) bounds.now block.now.height }
    requires next { IsNextBlock life.old block.now }
    requires within { CarriesWithin (non_zero_u32_get terms.now.limit) block.now }
    ensures ready { OnOk result (IsReadyLife D.tells D.files D.image C.ack_of C.deal_of C.check_ack_of terms.now life.new devices.new) }
    ensures including { OnOk result (IsSettledInclusion C.check_log_of C.dealing_of C.finish_of (non_zero_u64_get terms.now.blocks_per_epoch) life.new
        inclusion.new) }
    ensures moves { MovesOn life.old life.new D.tells D.made X.made D.faults X.faults D.image (non_zero_u32_get terms.now.limit) devices.old devices.new }
    ensures provider { IsTrue P.tells → SameProvided (P.participants_of provider.old) (P.participants_of provider.new)
        (P.directory_of provider.old) (P.directory_of provider.new) }
    ensures acts { IsTrue D.tells → IsTrue X.tells → IsTrue P.tells → (c : Fixed Dir) (beside : Beside Dir) → IsIn terms.now life.old.word c → ReadsPlanless c
        → IsRuledBy C.round_of C.deal_of C.dealing_of C.ack_of C.check_ack_of C.sign_log_of C.bears_ack_of C.share_public_of C.partial_public_of c.rules
        → IncludesBy C.check_log_of C.outcome_of C.finish_of (P.participants_of provider.old) (P.directory_of provider.old) Dir.spelling Dir.matches_of c
        → IsSeen inclusion.old beside.inclusion → EndsWith beside (λ i. OnOk result (IsSeen inclusion.new i))
        (λ more. OnOk result (TookSchemes R.tells (R.taken registrar.old) (R.taken registrar.new) more))
        (λ now. Makes D.files D.image X.held (applies_included c block.now (live_of beside fence.old life.old)) (ends_in
        (live_of now fence.new life.new) result)
        devices.old devices.new out.old.entries out.new.entries) }
    ensures tells { IsTrue P.tells → (c : Fixed Dir) (beside : Beside Dir) → IsIn terms.now life.old.word c → ReadsPlanless c
        → IsRuledBy C.round_of C.deal_of C.dealing_of C.ack_of C.check_ack_of C.sign_log_of C.bears_ack_of C.share_public_of C.partial_public_of c.rules
        → IncludesBy C.check_log_of C.outcome_of C.finish_of (P.participants_of provider.old) (P.directory_of provider.old) Dir.spelling Dir.matches_of c
        → IsSeen inclusion.old beside.inclusion → EndsWith beside (λ i. OnOk result (IsSeen inclusion.new i))
        (λ more. OnOk result (TookSchemes R.tells (R.taken registrar.old) (R.taken registrar.new) more))
        (λ now. Tells (applies_included c block.now (live_of beside fence.old life.old)) (ends_in (live_of now fence.new life.new) result)
        out.old.entries out.new.entries) }
    ensures causes { StopsReading D.tells D.faults X.faults devices.old devices.new result }
{
    inclusion.put_back()?;
    if block.height() == bounds.last {
        return take_final_block(
            alloc, ceremony, signer, provider, registrar, terms, life, inclusion, devices, block,
            bounds, fence, out,
        );
    }
    include(
        alloc, ceremony, provider, terms, life, inclusion, devices, block, out,
    )
}

/// Applies a block that was awaited (`applies`).
fn apply<
    C: Ceremony + Drop,
    P: ParticipantsProvider<Dir = Dir>,
    R: Registrar,
    Dir: Directory + Drop,
    D: Disk,
    X: SecretStore,
>(
    alloc: Global,
    ceremony: &C,
    signer: &C::Signer,
    provider: &mut P,
    registrar: &mut R,
    terms: &Terms,
    life: &mut Life<Dir>,
    inclusion: &mut Inclusion<C, Dir>,
    devices: &mut Devices<'_, D, X>,
    block: &Block<Dir>,
    bounds: &Bounds,
    fence: &mut Fence,
    out: &mut Transcript,
) -> Result<(), Stop>
    requires taken { IsApplied (non_zero_u64_get terms.now.blocks_per_epoch) life.old block.now }
    requires bounds { AreBoundsAt (non_zero_u64_get terms.now.blocks_per_epoch) bounds.now block.now.height }
    requires within { CarriesWithin (non_zero_u32_get terms.now.limit) block.now }
    requires me { terms.now.me ≡ C.Signer.key_of signer.now }
    requires ready { IsReadyLife D.tells D.files D.image C.ack_of C.deal_of C.check_ack_of terms.now life.old devices.old }
    requires including { IsReadyInclusion C.check_log_of C.dealing_of C.finish_of (non_zero_u64_get terms.now.blocks_per_epoch) life.old inclusion.old }
    ensures ready { OnOk result (IsReadyLife D.tells D.files D.image C.ack_of C.deal_of C.check_ack_of terms.now life.new devices.new) }
    ensures moves { MovesOn life.old life.new D.tells D.made X.made D.faults X.faults D.image (non_zero_u32_get terms.now.limit) devices.old devices.new }
    ensures causes { StopsReading D.tells D.faults X.faults devices.old devices.new result }
    ensures including { OnOk result (IsSettledInclusion C.check_log_of C.dealing_of C.finish_of (non_zero_u64_get terms.now.blocks_per_epoch) life.new
        inclusion.new) }
    ensures provider { IsTrue P.tells → SameProvided (P.participants_of provider.old) (P.participants_of provider.new)
        (P.directory_of provider.old) (P.directory_of provider.new) }
    ensures acts { IsTrue D.tells → IsTrue X.tells → IsTrue P.tells → (c : Fixed Dir) (beside : Beside Dir) → IsIn terms.now life.old.word c → ReadsPlanless c
        → IsRuledBy C.round_of C.deal_of C.dealing_of C.ack_of C.check_ack_of C.sign_log_of C.bears_ack_of C.share_public_of C.partial_public_of c.rules
        → IncludesBy C.check_log_of C.outcome_of C.finish_of (P.participants_of provider.old) (P.directory_of provider.old) Dir.spelling Dir.matches_of c
        → IsSeen inclusion.old beside.inclusion → EndsWith beside (λ i. OnOk result (IsSeen inclusion.new i))
        (λ more. OnOk result (TookSchemes R.tells (R.taken registrar.old) (R.taken registrar.new) more))
        (λ now. Makes D.files D.image X.held (blocks.applies c block.now (live_of beside fence.old life.old)) (ends_in (live_of now fence.new life.new) result)
        devices.old devices.new out.old.entries out.new.entries) }
    ensures tells { IsTrue P.tells → (c : Fixed Dir) (beside : Beside Dir) → IsIn terms.now life.old.word c → ReadsPlanless c
        → IsRuledBy C.round_of C.deal_of C.dealing_of C.ack_of C.check_ack_of C.sign_log_of C.bears_ack_of C.share_public_of C.partial_public_of c.rules
        → IncludesBy C.check_log_of C.outcome_of C.finish_of (P.participants_of provider.old) (P.directory_of provider.old) Dir.spelling Dir.matches_of c
        → IsSeen inclusion.old beside.inclusion → EndsWith beside (λ i. OnOk result (IsSeen inclusion.new i))
        (λ more. OnOk result (TookSchemes R.tells (R.taken registrar.old) (R.taken registrar.new) more))
        (λ now. Tells (blocks.applies c block.now (live_of beside fence.old life.old)) (ends_in (live_of now fence.new life.new) result)
        out.old.entries out.new.entries) }
{
    match life.stage {
        Stage::Dealing => apply_dealing(
            alloc, ceremony, signer, provider, terms, life, inclusion, devices, block, out,
        ),
        Stage::Including => apply_included(
            alloc, ceremony, signer, provider, registrar, terms, life, inclusion, devices, block,
            bounds, fence, out,
        ),
        Stage::Following => follow_block(
            alloc, ceremony, signer, registrar, terms, life, inclusion, devices, block, bounds,
            fence, out,
        ),
    }
}

/// Whether a block of these bounds is looked at: a life without a tip looks at those in its window alone.
fn looks_at<Dir: Directory + Drop>(life: &Life<Dir>, bounds: &Bounds) -> bool
    ensures { result ≡ (is_some life.now.tip || is_in_window_by life.now.stage (bounds.now.epoch == life.now.epoch) (blocks.is_early bounds.now.phase)) }
{
    life.tip.is_some() || is_in_window(life, bounds)
}

/// Takes a delivered block (`delivers`).
pub(crate) fn take_block<
    C: Ceremony + Drop,
    P: ParticipantsProvider<Dir = Dir>,
    R: Registrar,
    Dir: Directory + Drop,
    D: Disk,
    X: SecretStore,
>(
    alloc: Global,
    ceremony: &C,
    signer: &C::Signer,
    provider: &mut P,
    registrar: &mut R,
    terms: &Terms,
    life: &mut Life<Dir>,
    inclusion: &mut Inclusion<C, Dir>,
    devices: &mut Devices<'_, D, X>,
    block: &Block<Dir>,
    fence: &mut Fence,
    out: &mut Transcript,
) -> Result<(), Stop>
    requires me { terms.now.me ≡ C.Signer.key_of signer.now }
    requires ready { IsReadyLife D.tells D.files D.image C.ack_of C.deal_of C.check_ack_of terms.now life.old devices.old }
    requires within { CarriesWithin (non_zero_u32_get terms.now.limit) block.now }
    requires including { IsSettledInclusion C.check_log_of C.dealing_of C.finish_of (non_zero_u64_get terms.now.blocks_per_epoch) life.old inclusion.old }
    ensures ready { OnOk result (IsReadyLife D.tells D.files D.image C.ack_of C.deal_of C.check_ack_of terms.now life.new devices.new) }
    ensures moves { MovesOn life.old life.new D.tells D.made X.made D.faults X.faults D.image (non_zero_u32_get terms.now.limit) devices.old devices.new }
    ensures causes { StopsReading D.tells D.faults X.faults devices.old devices.new result }
    ensures including { OnOk result (IsSettledInclusion C.check_log_of C.dealing_of C.finish_of (non_zero_u64_get terms.now.blocks_per_epoch) life.new
        inclusion.new) }
    ensures provider { IsTrue P.tells → SameProvided (P.participants_of provider.old) (P.participants_of provider.new)
        (P.directory_of provider.old) (P.directory_of provider.new) }
    ensures acts { IsTrue D.tells → IsTrue X.tells → IsTrue P.tells → (c : Fixed Dir) (beside : Beside Dir) → IsIn terms.now life.old.word c → ReadsPlanless c
        → IsRuledBy C.round_of C.deal_of C.dealing_of C.ack_of C.check_ack_of C.sign_log_of C.bears_ack_of C.share_public_of C.partial_public_of c.rules
        → IncludesBy C.check_log_of C.outcome_of C.finish_of (P.participants_of provider.old) (P.directory_of provider.old) Dir.spelling Dir.matches_of c
        → IsSeen inclusion.old beside.inclusion → EndsWith beside (λ i. OnOk result (IsSeen inclusion.new i))
        (λ more. OnOk result (TookSchemes R.tells (R.taken registrar.old) (R.taken registrar.new) more))
        (λ now. Makes D.files D.image X.held (blocks.delivers c block.now (live_of beside fence.old life.old)) (ends_in (live_of now fence.new life.new) result)
        devices.old devices.new out.old.entries out.new.entries) }
    ensures tells { IsTrue P.tells → (c : Fixed Dir) (beside : Beside Dir) → IsIn terms.now life.old.word c → ReadsPlanless c
        → IsRuledBy C.round_of C.deal_of C.dealing_of C.ack_of C.check_ack_of C.sign_log_of C.bears_ack_of C.share_public_of C.partial_public_of c.rules
        → IncludesBy C.check_log_of C.outcome_of C.finish_of (P.participants_of provider.old) (P.directory_of provider.old) Dir.spelling Dir.matches_of c
        → IsSeen inclusion.old beside.inclusion → EndsWith beside (λ i. OnOk result (IsSeen inclusion.new i))
        (λ more. OnOk result (TookSchemes R.tells (R.taken registrar.old) (R.taken registrar.new) more))
        (λ now. Tells (blocks.delivers c block.now (live_of beside fence.old life.old)) (ends_in (live_of now fence.new life.new) result)
        out.old.entries out.new.entries) }
{
    let height = block.height();
    let Some(bounds) = Epocher::new(terms.blocks_per_epoch).containing(height) else {
        return Err(Stop::Fault(Fault::HeightRange));
    };
    if !looks_at(life, &bounds) {
        return Err(Stop::Fault(Fault::OutOfWindow { height }));
    }
    match judge(&life.tip, block)? {
        Judged::Again => Ok(()),
        Judged::New => apply(
            alloc, ceremony, signer, provider, registrar, terms, life, inclusion, devices, block,
            &bounds, fence, out,
        ),
    }
}
