//! Requests at an epoch's midpoint: for a final block's info, which is answered behind a verification, and for a log.
ghost use Rattle.std.specs.Prelude.{OnOk};
ghost use Rattle.std.specs.Int.NonZero.{non_zero_u64_get};
ghost use Rattle.dkg_verifying.specs.InclusionOf.{IsSettledInclusion};
ghost use Rattle.dkg_reshare.specs.Actors.{IfIncluding, IsOpenedOn, IsNew};

use crate::actors::plain_actor;
use crate::blocks::first_source;
use crate::calls::{open, step, went, work};
use dkg_artifact::VerifiedLogs;
use dkg_ceremony::{Ceremony, StandCeremony};
use dkg_fence::Fence;
use dkg_infos::{Transcript, Unit};
use dkg_journal::{Disk, Fuse, MemoryDisk};
use dkg_reshare::{Actor, Message};
use dkg_setup::BlockSource;
use dkg_store::{Devices, MemorySecrets, SecretStore};
use dkg_types::{Block, ParticipantsProvider, Payload, Registrar};
use dkg_values::{Height, Mem, Value};
use dkg_verifying::{EpochInfoResponse, Told, verify};
use std::alloc::Global;
use std::test::Fail;

/// Whether a request waits for its answer.
fn is_posted(told: Option<&Told<Unit>>) -> bool {
    matches!(told, Some(Told::Posted))
}

/// Whether the answer is that no log is there.
fn has_no_log(told: Option<&Told<Unit>>) -> bool {
    match told {
        Some(Told::Log(log)) => log.get().is_none(),
        _ => false,
    }
}

/// Whether the answer is an info, which a copy keeps.
fn has_info(alloc: Global, told: Option<&Told<Unit>>) -> Mem<bool> {
    match told {
        Some(told) => {
            let copy = told.copy(alloc)?;
            Ok(copy.same(told) && is_info(&copy))
        }
        None => Ok(false),
    }
}

fn is_info(told: &Told<Unit>) -> bool {
    match told {
        Told::Info(response) => {
            matches!(
                response.get(),
                EpochInfoResponse::Available(Some(Payload::EpochInfo(_)))
            )
        }
        Told::Posted | Told::Log(_) => false,
    }
}

/// An opening at a midpoint, the request for the info of the final block, which is fed the block below that, and the one for a log. Behind these a
/// verification runs, and the requests were told what the caller looks for.
fn asked<
    C: Ceremony + Drop,
    P: ParticipantsProvider<Dir = Unit>,
    R: Registrar,
    M,
    D: Disk,
    X: SecretStore,
    B: BlockSource<Unit>,
>(
    alloc: Global,
    actor: &mut Actor<C, P, R, M, Unit>,
    devices: &mut Devices<'_, D, X>,
    source: &B,
    below: &Block<Unit>,
    fence: &mut Fence,
    out: &mut Transcript,
) -> Result<(), Fail>
    requires { IsNew actor.old.state }
    ensures at { OnOk result (IsOpenedOn D.tells D.files D.image C.ack_of C.deal_of C.check_ack_of actor.new.terms actor.new.state devices.new) }
    ensures including { OnOk result (IfIncluding actor.new.state (IsSettledInclusion C.check_log_of C.dealing_of C.finish_of
        (non_zero_u64_get actor.new.terms.blocks_per_epoch))) }
{
    let ended = open(alloc, actor, devices, source, fence, out);
    went(ended, "not opened")?;
    let request = Message::EpochInfo { request: 1 };
    let ended = step(alloc, actor, devices, source, request, fence, out);
    went(ended, "not asked")?;
    if !is_posted(actor.told(1)) {
        return Err(Fail::from("a request that wasn't fed is answered"));
    }
    let fed = Message::Feed {
        request: 1,
        block: below.copy(alloc)?,
    };
    let ended = step(alloc, actor, devices, source, fed, fence, out);
    went(ended, "not fed")?;
    let next = Message::NextLog {
        request: 2,
        height: Height(1),
    };
    let ended = step(alloc, actor, devices, source, next, fence, out);
    went(ended, "asked for no log")?;
    if !has_no_log(actor.told(2)) {
        return Err(Fail::from("a log of who deals nothing"));
    }
    if actor.running().is_none() {
        return Err(Fail::from("no verification runs"));
    }
    Ok(())
}

/// What the verification that runs comes to, as this ceremony finds it, where one is to find it.
fn found<C: Ceremony + Drop, P: ParticipantsProvider<Dir = Unit>, R: Registrar, M>(
    alloc: Global,
    finder: Option<&C>,
    actor: &Actor<C, P, R, M, Unit>,
) -> Result<Option<VerifiedLogs<C>>, Fail>
    requires { IfIncluding actor.now.state (IsSettledInclusion C.check_log_of C.dealing_of C.finish_of
        (non_zero_u64_get actor.now.terms.blocks_per_epoch)) }
{
    let Some(ceremony) = finder else {
        return Ok(None);
    };
    let Some(job) = actor.running() else {
        return Err(Fail::from("no verification runs"));
    };
    Ok(Some(verify(alloc, ceremony, job.copy(alloc)?)?))
}

/// The end of that verification, by this result or by the actor's own work. Whether the first request is answered by an info.
fn verified<
    C: Ceremony + Drop,
    P: ParticipantsProvider<Dir = Unit>,
    R: Registrar,
    M,
    D: Disk,
    X: SecretStore,
    B: BlockSource<Unit>,
>(
    alloc: Global,
    actor: &mut Actor<C, P, R, M, Unit>,
    devices: &mut Devices<'_, D, X>,
    source: &B,
    done: Option<VerifiedLogs<C>>,
    fence: &mut Fence,
    out: &mut Transcript,
) -> Result<bool, Fail>
    requires at { IsOpenedOn D.tells D.files D.image C.ack_of C.deal_of C.check_ack_of actor.old.terms actor.old.state devices.old }
    requires including { IfIncluding actor.old.state (IsSettledInclusion C.check_log_of C.dealing_of C.finish_of
        (non_zero_u64_get actor.old.terms.blocks_per_epoch)) }
{
    let ended = work(alloc, actor, devices, source, done, fence, out);
    went(ended, "not verified")?;
    if actor.running().is_some() {
        return Err(Fail::from("a verification that has ended runs"));
    }
    Ok(has_info(alloc, actor.told(1))?)
}

/// An opening with its requests, and the end of the verification: by a result that this ceremony finds, or by the actor's own work. Whether the first
/// request is answered by an info, and how many lines were told.
fn includes<
    C: Ceremony + Drop,
    P: ParticipantsProvider<Dir = Unit>,
    R: Registrar,
    M,
    D: Disk,
    X: SecretStore,
    B: BlockSource<Unit>,
>(
    alloc: Global,
    finder: Option<&C>,
    actor: &mut Actor<C, P, R, M, Unit>,
    devices: &mut Devices<'_, D, X>,
    source: &B,
    below: &Block<Unit>,
    fence: &mut Fence,
    out: &mut Transcript,
) -> Result<(bool, usize), Fail>
    requires { IsNew actor.old.state }
{
    asked(alloc, actor, devices, source, below, fence, out)?;
    let done = found(alloc, finder, actor)?;
    let answered = verified(alloc, actor, devices, source, done, fence, out)?;
    Ok((answered, out.entries().len()))
}

/// That over these devices, of which the first block is the one that the source has processed.
fn answer_over<
    C: Ceremony + Drop,
    P: ParticipantsProvider<Dir = Unit>,
    R: Registrar,
    D: Disk,
    X: SecretStore,
    B: BlockSource<Unit>,
>(
    alloc: Global,
    finder: Option<&C>,
    actor: &mut Actor<C, P, R, Unit, Unit>,
    disk: &mut D,
    secrets: &mut X,
    source: &B,
) -> Result<(bool, usize), Fail>
    requires { IsNew actor.old.state }
{
    let Some(first) = source.anchor() else {
        return Err(Fail::from("no block"));
    };
    let mut devices = Devices {
        disk,
        secrets,
        fuse: Fuse::never(),
    };
    let mut fence = Fence::new();
    let mut out = Transcript::new(alloc);
    includes(
        alloc,
        finder,
        actor,
        &mut devices,
        source,
        first,
        &mut fence,
        &mut out,
    )
}

/// .. of an actor of the plain ceremony.
fn plain_answer<D: Disk, X: SecretStore, B: BlockSource<Unit>>(
    alloc: Global,
    finder: Option<&StandCeremony>,
    disk: &mut D,
    secrets: &mut X,
    source: &B,
) -> Result<(bool, usize), Fail> {
    let mut actor = plain_actor(alloc, 2)?;
    answer_over(alloc, finder, &mut actor, disk, secrets, source)
}

/// .. over memory.
fn answered(alloc: Global, finder: Option<&StandCeremony>) -> Result<(bool, usize), Fail> {
    let source = first_source(alloc)?;
    let mut disk = MemoryDisk::new(alloc);
    let mut secrets = MemorySecrets::new(alloc);
    plain_answer(alloc, finder, &mut disk, &mut secrets, &source)
}

#[test]
fn an_actor_answers_requests(rt: HostRuntime) -> Result<(), Fail> {
    assert_eq!(rt; answered(rt.alloc(), None)?, (true, 6));
    Ok(())
}

#[test]
fn an_actor_answers_by_a_result_that_is_handed_in(rt: HostRuntime) -> Result<(), Fail> {
    assert_eq!(rt; answered(rt.alloc(), Some(&StandCeremony))?, (true, 6));
    Ok(())
}
