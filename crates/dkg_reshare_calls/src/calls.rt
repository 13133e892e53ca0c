//! The actor's calls, each of which says of the actor what the next one asks for.
ghost use Rattle.std.specs.Int.NonZero.{non_zero_u32_get, non_zero_u64_get};
ghost use Rattle.dkg_verifying.specs.InclusionOf.{IsSettledInclusion};
ghost use Rattle.dkg_reshare.specs.Actors.{BringsWithin, IfIncluding, IsOpenedOn, IsNew};
ghost use Rattle.dkg_blocks.specs.CarriedLogs.{CarriesWithin};

use dkg_artifact::VerifiedLogs;
use dkg_ceremony::Ceremony;
use dkg_fence::Fence;
use dkg_infos::{Transcript, Unit};
use dkg_journal::Disk;
use dkg_life::Stop;
use dkg_reshare::{Actor, Message};
use dkg_setup::BlockSource;
use dkg_store::{Devices, SecretStore};
use dkg_types::{Block, ParticipantsProvider, Registrar};
use std::alloc::Global;
use std::test::Fail;

/// Fails, and says this, where a call did not end.
pub(crate) fn went(ended: Result<(), Stop>, otherwise: &str) -> Result<(), Fail> {
    match ended {
        Ok(()) => Ok(()),
        Err(_) => Err(Fail::from(otherwise)),
    }
}

/// An actor's opening.
pub(crate) fn open<
    C: Ceremony + Drop,
    P: ParticipantsProvider<Dir = Unit>,
    R: Registrar,
    M,
    D: Disk,
    X: SecretStore,
    B: BlockSource<Unit>,
>(
    alloc: Global,
    actor: &mut Actor<C, P, R, M, Unit>,
    devices: &mut Devices<'_, D, X>,
    source: &B,
    fence: &mut Fence,
    out: &mut Transcript,
) -> Result<(), Stop>
    requires { IsNew actor.old.state }
    ensures at { IsOpenedOn D.tells D.files D.image C.ack_of C.deal_of C.check_ack_of actor.new.terms actor.new.state devices.new }
    ensures including { IfIncluding actor.new.state (IsSettledInclusion C.check_log_of C.dealing_of C.finish_of
        (non_zero_u64_get actor.new.terms.blocks_per_epoch)) }
{
    actor.open(alloc, devices, source, 0, 9, fence, out)
}

/// A step.
pub(crate) fn step<
    C: Ceremony + Drop,
    P: ParticipantsProvider<Dir = Unit>,
    R: Registrar,
    M,
    D: Disk,
    X: SecretStore,
    B: BlockSource<Unit>,
>(
    alloc: Global,
    actor: &mut Actor<C, P, R, M, Unit>,
    devices: &mut Devices<'_, D, X>,
    source: &B,
    message: Message<Unit>,
    fence: &mut Fence,
    out: &mut Transcript,
) -> Result<(), Stop>
    requires at { IsOpenedOn D.tells D.files D.image C.ack_of C.deal_of C.check_ack_of actor.old.terms actor.old.state devices.old }
    requires including { IfIncluding actor.old.state (IsSettledInclusion C.check_log_of C.dealing_of C.finish_of
        (non_zero_u64_get actor.old.terms.blocks_per_epoch)) }
    requires within { BringsWithin (non_zero_u32_get actor.old.terms.limit) message }
    ensures at { IsOpenedOn D.tells D.files D.image C.ack_of C.deal_of C.check_ack_of actor.new.terms actor.new.state devices.new }
    ensures including { IfIncluding actor.new.state (IsSettledInclusion C.check_log_of C.dealing_of C.finish_of
        (non_zero_u64_get actor.new.terms.blocks_per_epoch)) }
{
    actor.step(alloc, devices, source, message, fence, out)
}

/// The delivery of a block.
pub(crate) fn deliver<
    C: Ceremony + Drop,
    P: ParticipantsProvider<Dir = Unit>,
    R: Registrar,
    M,
    D: Disk,
    X: SecretStore,
>(
    alloc: Global,
    actor: &mut Actor<C, P, R, M, Unit>,
    devices: &mut Devices<'_, D, X>,
    block: &Block<Unit>,
    fence: &mut Fence,
    out: &mut Transcript,
) -> Result<(), Stop>
    requires at { IsOpenedOn D.tells D.files D.image C.ack_of C.deal_of C.check_ack_of actor.old.terms actor.old.state devices.old }
    requires including { IfIncluding actor.old.state (IsSettledInclusion C.check_log_of C.dealing_of C.finish_of
        (non_zero_u64_get actor.old.terms.blocks_per_epoch)) }
    requires within { CarriesWithin (non_zero_u32_get actor.old.terms.limit) block.now }
    ensures at { IsOpenedOn D.tells D.files D.image C.ack_of C.deal_of C.check_ack_of actor.new.terms actor.new.state devices.new }
    ensures including { IfIncluding actor.new.state (IsSettledInclusion C.check_log_of C.dealing_of C.finish_of
        (non_zero_u64_get actor.new.terms.blocks_per_epoch)) }
{
    actor.deliver(alloc, devices, block, fence, out)
}

/// The end of a verification, by this result where it is that one's, else by the actor's own work.
pub(crate) fn work<
    C: Ceremony + Drop,
    P: ParticipantsProvider<Dir = Unit>,
    R: Registrar,
    M,
    D: Disk,
    X: SecretStore,
    B: BlockSource<Unit>,
>(
    alloc: Global,
    actor: &mut Actor<C, P, R, M, Unit>,
    devices: &mut Devices<'_, D, X>,
    source: &B,
    done: Option<VerifiedLogs<C>>,
    fence: &mut Fence,
    out: &mut Transcript,
) -> Result<(), Stop>
    requires at { IsOpenedOn D.tells D.files D.image C.ack_of C.deal_of C.check_ack_of actor.old.terms actor.old.state devices.old }
    requires including { IfIncluding actor.old.state (IsSettledInclusion C.check_log_of C.dealing_of C.finish_of
        (non_zero_u64_get actor.old.terms.blocks_per_epoch)) }
    ensures at { IsOpenedOn D.tells D.files D.image C.ack_of C.deal_of C.check_ack_of actor.new.terms actor.new.state devices.new }
    ensures including { IfIncluding actor.new.state (IsSettledInclusion C.check_log_of C.dealing_of C.finish_of
        (non_zero_u64_get actor.new.terms.blocks_per_epoch)) }
{
    actor.work(alloc, devices, source, done, fence, out)
}
