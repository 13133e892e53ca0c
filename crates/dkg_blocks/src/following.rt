//! Blocks of an epoch that the node only follows: an epoch's last one brings the next epoch's info, and the life takes part from there on.
//!
//! These are the relation's `carried` and `follows_at`. The rules are those of the upstream's `reshare::actor::follower`.
ghost use Rattle.std.specs.Prelude.{◌≡◌, ◌<◌, ◌+◌, ◌^◌, IfErr, IfOk, IsSome, IsTrue, OnOk, Some};
ghost use Rattle.std.specs.Int.NonZero.{non_zero_u32_get, non_zero_u64_get};
ghost use Rattle.dkg_ceremony.specs.Schedule.{epoch_of};
ghost use Rattle.dkg_core.specs.Asked.{IsEmptied};
ghost use Rattle.dkg_core.specs.Blocks as blocks;
ghost use Rattle.dkg_core.specs.Fixed.{Fixed};
ghost use Rattle.dkg_life.specs.Ready.{IsReadyLife};
ghost use Rattle.dkg_life.specs.Ends.{StopsReading, ends_in};
ghost use Rattle.dkg_life.specs.Given.{IsIn, ReadsPlanless};
ghost use Rattle.dkg_life.specs.LiveOf.{Beside, EndsBeside, EndsWith, TookSchemes, live_of};
ghost use Rattle.dkg_life.specs.Made.{Makes, Tells};
ghost use Rattle.dkg_life.specs.Rules.{IsRuledBy};
ghost use Rattle.dkg_life.specs.Steps.{AreBoundsAt, carried_in};
ghost use Rattle.dkg_verifying.specs.InclusionOf.{IsReadyInclusion, IsSeen, IsSettledInclusion};
ghost use Rattle.dkg_blocks.specs.Applied.{MovesOn};

use dkg_ceremony::{Bounds, Ceremony};
use dkg_fence::Fence;
use dkg_infos::{Directory, EpochInfo, Fault, Transcript};
use dkg_journal::Disk;
use dkg_life::{Life, Stage, Stop, Terms, tip_of};
use dkg_setup::{commit_and_register, secrets_of, set_up_committed};
use dkg_store::{Devices, SecretStore};
use dkg_types::{Block, Registrar};
use dkg_values::Epoch;
use dkg_verifying::Inclusion;
use std::alloc::Global;

/// The next epoch's info, which the last block of these bounds carries (`carried`).
///
/// MissingEpochInfo: it carries none. WrongEpoch: else it is another epoch's.
pub(crate) fn carried_info<'a, Dir: Directory + Drop>(
    block: &'a Block<Dir>,
    bounds: &Bounds,
) -> Result<&'a EpochInfo<Dir>, Fault>
    requires below { bounds.now.epoch + 1 < 2 ^ 64 }
    ensures ok { IfOk result (λ info. carried_in bounds.now.epoch block.now ≡ Ok info.now) }
    ensures err { IfErr result (λ its. carried_in bounds.now.epoch block.now ≡ Err its) }
{
    let Some(info) = block.epoch_info() else {
        return Err(Fault::MissingEpochInfo {
            height: block.height(),
        });
    };
    let expected = Epoch(bounds.epoch.0 + 1);
    if info.epoch != expected {
        return Err(Fault::WrongEpoch {
            expected,
            got: info.epoch,
        });
    }
    Ok(info)
}

/// Takes part from the next epoch on: its info, which a last block carries, is committed and registered, and the epoch is set up
/// (`follows_into`).
fn follow_into<C: Ceremony, R: Registrar, Dir: Directory + Drop, D: Disk, X: SecretStore>(
    alloc: Global,
    ceremony: &C,
    signer: &C::Signer,
    registrar: &mut R,
    terms: &Terms,
    life: &mut Life<Dir>,
    devices: &mut Devices<'_, D, X>,
    block: &Block<Dir>,
    info: &EpochInfo<Dir>,
    fence: &mut Fence,
    out: &mut Transcript,
) -> Result<(), Stop>
    requires next { info.now.epoch ≡ epoch_of (non_zero_u64_get terms.now.blocks_per_epoch) (block.now.height + 1) }
    requires me { terms.now.me ≡ C.Signer.key_of signer.now }
    requires ready { IsReadyLife D.tells D.files D.image C.ack_of C.deal_of C.check_ack_of terms.now life.old devices.old }
    ensures ready { OnOk result (IsReadyLife D.tells D.files D.image C.ack_of C.deal_of C.check_ack_of terms.now life.new devices.new) }
    ensures moves { MovesOn life.old life.new D.tells D.made X.made D.faults X.faults D.image (non_zero_u32_get terms.now.limit) devices.old devices.new }
    ensures current { OnOk result (IsSome life.new.store.current) }
    ensures acts { IsTrue D.tells → IsTrue X.tells → (c : Fixed Dir) (beside : Beside Dir) → IsEmptied beside.inclusion → IsIn terms.now life.old.word c
        → ReadsPlanless c
        → IsRuledBy C.round_of C.deal_of C.dealing_of C.ack_of C.check_ack_of C.sign_log_of C.bears_ack_of C.share_public_of C.partial_public_of c.rules
        → EndsBeside beside (λ more. OnOk result (TookSchemes R.tells (R.taken registrar.old) (R.taken registrar.new) more))
        (λ now. Makes D.files D.image X.held (blocks.follows_into c block.now info.now (live_of beside fence.old life.old)) (ends_in
        (live_of now fence.new life.new) result)
        devices.old devices.new out.old.entries out.new.entries) }
    ensures tells { (c : Fixed Dir) (beside : Beside Dir) → IsEmptied beside.inclusion → IsIn terms.now life.old.word c → ReadsPlanless c
        → IsRuledBy C.round_of C.deal_of C.dealing_of C.ack_of C.check_ack_of C.sign_log_of C.bears_ack_of C.share_public_of C.partial_public_of c.rules
        → EndsBeside beside (λ more. OnOk result (TookSchemes R.tells (R.taken registrar.old) (R.taken registrar.new) more))
        (λ now. Tells (blocks.follows_into c block.now info.now (live_of beside fence.old life.old)) (ends_in (live_of now fence.new life.new) result)
        out.old.entries out.new.entries) }
    ensures causes { StopsReading D.tells D.faults X.faults devices.old devices.new result }
{
    let me = terms.me;
    let secrets = secrets_of(alloc, ceremony, me, life, devices, info)?;
    commit_and_register(
        alloc, registrar, me, life, devices, info, &secrets, fence, out,
    )?;
    life.tip = Some(tip_of(block));
    set_up_committed(
        alloc, ceremony, signer, registrar, terms, life, devices, info, fence, out,
    )
}

/// Applies a block while following: an epoch's last one begins the next epoch (`follows_at`).
pub fn follow_block<
    C: Ceremony + Drop,
    R: Registrar,
    Dir: Directory + Drop,
    D: Disk,
    X: SecretStore,
>(
    alloc: Global,
    ceremony: &C,
    signer: &C::Signer,
    registrar: &mut R,
    terms: &Terms,
    life: &mut Life<Dir>,
    inclusion: &mut Inclusion<C, Dir>,
    devices: &mut Devices<'_, D, X>,
    block: &Block<Dir>,
    bounds: &Bounds,
    fence: &mut Fence,
    out: &mut Transcript,
) -> Result<(), Stop>
    requires following { life.old.stage ≡ Stage.Following }
    requires bounds { AreBoundsAt (non_zero_u64_get terms.now.blocks_per_epoch) bounds.now block.now.height }
    requires me { terms.now.me ≡ C.Signer.key_of signer.now }
    requires ready { IsReadyLife D.tells D.files D.image C.ack_of C.deal_of C.check_ack_of terms.now life.old devices.old }
    requires including { IsReadyInclusion C.check_log_of C.dealing_of C.finish_of (non_zero_u64_get terms.now.blocks_per_epoch) life.old inclusion.old }
    ensures ready { OnOk result (IsReadyLife D.tells D.files D.image C.ack_of C.deal_of C.check_ack_of terms.now life.new devices.new) }
    ensures moves { MovesOn life.old life.new D.tells D.made X.made D.faults X.faults D.image (non_zero_u32_get terms.now.limit) devices.old devices.new }
    ensures causes { StopsReading D.tells D.faults X.faults devices.old devices.new result }
    ensures including { OnOk result (IsSettledInclusion C.check_log_of C.dealing_of C.finish_of (non_zero_u64_get terms.now.blocks_per_epoch) life.new
        inclusion.new) }
    ensures acts { IsTrue D.tells → IsTrue X.tells → (c : Fixed Dir) (beside : Beside Dir) → IsIn terms.now life.old.word c → ReadsPlanless c
        → IsRuledBy C.round_of C.deal_of C.dealing_of C.ack_of C.check_ack_of C.sign_log_of C.bears_ack_of C.share_public_of C.partial_public_of c.rules
        → IsSeen inclusion.old beside.inclusion → EndsWith beside (λ i. OnOk result (IsSeen inclusion.new i))
        (λ more. OnOk result (TookSchemes R.tells (R.taken registrar.old) (R.taken registrar.new) more))
        (λ now. Makes D.files D.image X.held (blocks.follows_at c block.now (live_of beside fence.old life.old)) (ends_in
        (live_of now fence.new life.new) result)
        devices.old devices.new out.old.entries out.new.entries) }
    ensures tells { (c : Fixed Dir) (beside : Beside Dir) → IsIn terms.now life.old.word c → ReadsPlanless c
        → IsRuledBy C.round_of C.deal_of C.dealing_of C.ack_of C.check_ack_of C.sign_log_of C.bears_ack_of C.share_public_of C.partial_public_of c.rules
        → IsSeen inclusion.old beside.inclusion → EndsWith beside (λ i. OnOk result (IsSeen inclusion.new i))
        (λ more. OnOk result (TookSchemes R.tells (R.taken registrar.old) (R.taken registrar.new) more))
        (λ now. Tells (blocks.follows_at c block.now (live_of beside fence.old life.old)) (ends_in (live_of now fence.new life.new) result)
        out.old.entries out.new.entries) }
{
    if block.height() != bounds.last {
        life.tip = Some(tip_of(block));
        return Ok(());
    }
    let info = carried_info(block, bounds)?;
    inclusion.renew(alloc);
    follow_into(
        alloc, ceremony, signer, registrar, terms, life, devices, block, info, fence, out,
    )
}
