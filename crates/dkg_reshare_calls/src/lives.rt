//! A life that opens, hears a dealing, takes a block, and is ended by a block that doesn't fit.
ghost use Rattle.std.specs.Prelude.{ℕ, IfOk, OnOk};
ghost use Rattle.std.specs.Int.NonZero.{non_zero_u64_get};
ghost use Rattle.dkg_verifying.specs.InclusionOf.{IsSettledInclusion};
ghost use Rattle.dkg_reshare.specs.Actors.{BringsWithin, IfIncluding, IsOpenedOn, IsNew};

use crate::actors::{Counted, plain_actor};
use crate::blocks::{bare, first_source};
use crate::calls::{deliver, open, step, went};
use dkg_ceremony::{Blob, Ceremony};
use dkg_fence::Fence;
use dkg_infos::{Fault, Transcript, Unit};
use dkg_journal::{Disk, Fuse, MemoryDisk};
use dkg_life::Stop;
use dkg_reshare::{Actor, Message};
use dkg_setup::BlockSource;
use dkg_store::{Devices, MemorySecrets, SecretStore};
use dkg_types::{ParticipantsProvider, Registrar};
use dkg_values::{Digest, Key};
use std::alloc::Global;
use std::test::Fail;

/// A dealing, as its bytes.
const DEALING: [u8; 10] = *b"\0\x03\0\x0f\0\x07\0\x01\0\x17";

/// The dealing, from its dealer.
fn dealing(alloc: Global) -> Result<Message<Unit>, Fail>
    ensures { (limit : ℕ) → IfOk result (BringsWithin limit) }
{
    let bytes = Blob::new(Vec::from_slice(alloc, &DEALING)?);
    Ok(Message::Peer {
        from: Key(2),
        bytes,
    })
}

/// A block that carries nothing, finalized.
fn finalized(alloc: Global, parent: Digest, height: u64) -> Result<Message<Unit>, Fail>
    ensures { (limit : ℕ) → IfOk result (BringsWithin limit) }
{
    Ok(Message::Finalized(bare(alloc, parent, height)?))
}

/// The height of a block that doesn't fit, where one ended a step.
fn detached(ended: &Result<(), Stop>) -> Option<u64> {
    match ended {
        Err(Stop::Fault(Fault::DetachedBlock { height })) => Some(height.0),
        _ => None,
    }
}

/// That height. Fails where a step ended otherwise.
fn detached_height(ended: Result<(), Stop>) -> Result<u64, Fail> {
    match detached(&ended) {
        Some(height) => Ok(height),
        None => Err(Fail::from("a detached block is taken")),
    }
}

/// Fails unless a step was refused, since a call before it had failed.
fn refused(ended: Result<(), Stop>) -> Result<(), Fail> {
    match ended {
        Err(Stop::Failed) => Ok(()),
        _ => Err(Fail::from("a failed actor goes on")),
    }
}

/// An opening, and the step of a dealing. How many lines were told behind each.
fn heard<
    C: Ceremony + Drop,
    P: ParticipantsProvider<Dir = Unit>,
    R: Registrar,
    M,
    D: Disk,
    X: SecretStore,
    B: BlockSource<Unit>,
>(
    alloc: Global,
    actor: &mut Actor<C, P, R, M, Unit>,
    devices: &mut Devices<'_, D, X>,
    source: &B,
    fence: &mut Fence,
    out: &mut Transcript,
) -> Result<[usize; 2], Fail>
    requires { IsNew actor.old.state }
    ensures at { OnOk result (IsOpenedOn D.tells D.files D.image C.ack_of C.deal_of C.check_ack_of actor.new.terms actor.new.state devices.new) }
    ensures including { OnOk result (IfIncluding actor.new.state (IsSettledInclusion C.check_log_of C.dealing_of C.finish_of
        (non_zero_u64_get actor.new.terms.blocks_per_epoch))) }
{
    let ended = open(alloc, actor, devices, source, fence, out);
    went(ended, "not opened")?;
    let opened = out.entries().len();
    let message = dealing(alloc)?;
    let ended = step(alloc, actor, devices, source, message, fence, out);
    went(ended, "not heard")?;
    Ok([opened, out.entries().len()])
}

/// The delivery of the block behind this one, which carries nothing.
fn delivered<
    C: Ceremony + Drop,
    P: ParticipantsProvider<Dir = Unit>,
    R: Registrar,
    M,
    D: Disk,
    X: SecretStore,
>(
    alloc: Global,
    actor: &mut Actor<C, P, R, M, Unit>,
    devices: &mut Devices<'_, D, X>,
    parent: Digest,
    fence: &mut Fence,
    out: &mut Transcript,
) -> Result<(), Stop>
    requires at { IsOpenedOn D.tells D.files D.image C.ack_of C.deal_of C.check_ack_of actor.old.terms actor.old.state devices.old }
    requires including { IfIncluding actor.old.state (IsSettledInclusion C.check_log_of C.dealing_of C.finish_of
        (non_zero_u64_get actor.old.terms.blocks_per_epoch)) }
    ensures at { IsOpenedOn D.tells D.files D.image C.ack_of C.deal_of C.check_ack_of actor.new.terms actor.new.state devices.new }
    ensures including { IfIncluding actor.new.state (IsSettledInclusion C.check_log_of C.dealing_of C.finish_of
        (non_zero_u64_get actor.new.terms.blocks_per_epoch)) }
{
    let block = bare(alloc, parent, 1)?;
    deliver(alloc, actor, devices, &block, fence, out)
}

/// The delivery of the block behind this one, the step of one that doesn't stand on that, and one more. The height of the block that doesn't fit.
fn taken<
    C: Ceremony + Drop,
    P: ParticipantsProvider<Dir = Unit>,
    R: Registrar,
    M,
    D: Disk,
    X: SecretStore,
    B: BlockSource<Unit>,
>(
    alloc: Global,
    actor: &mut Actor<C, P, R, M, Unit>,
    devices: &mut Devices<'_, D, X>,
    source: &B,
    parent: Digest,
    fence: &mut Fence,
    out: &mut Transcript,
) -> Result<u64, Fail>
    requires at { IsOpenedOn D.tells D.files D.image C.ack_of C.deal_of C.check_ack_of actor.old.terms actor.old.state devices.old }
    requires including { IfIncluding actor.old.state (IsSettledInclusion C.check_log_of C.dealing_of C.finish_of
        (non_zero_u64_get actor.old.terms.blocks_per_epoch)) }
{
    let ended = delivered(alloc, actor, devices, parent, fence, out);
    went(ended, "not taken")?;
    let apart = finalized(alloc, parent, 2)?;
    let ended = step(alloc, actor, devices, source, apart, fence, out);
    let height = detached_height(ended)?;
    let late = dealing(alloc)?;
    let ended = step(alloc, actor, devices, source, late, fence, out);
    refused(ended)?;
    Ok(height)
}

/// The opening and the dealing's step, and what follows them. How many lines were told behind the opening, the dealing and all else, the height of the
/// block that doesn't fit, and how many schemes were taken.
fn life<
    C: Ceremony + Drop,
    P: ParticipantsProvider<Dir = Unit>,
    R: Registrar + Counted,
    M,
    D: Disk,
    X: SecretStore,
    B: BlockSource<Unit>,
>(
    alloc: Global,
    actor: &mut Actor<C, P, R, M, Unit>,
    devices: &mut Devices<'_, D, X>,
    source: &B,
    parent: Digest,
    fence: &mut Fence,
    out: &mut Transcript,
) -> Result<([usize; 3], u64, u64), Fail>
    requires { IsNew actor.old.state }
{
    let told = heard(alloc, actor, devices, source, fence, out)?;
    let height = taken(alloc, actor, devices, source, parent, fence, out)?;
    let [opened, heard] = told;
    let told = [opened, heard, out.entries().len()];
    Ok((told, height, actor.registrar().taken()))
}

/// That over these devices, from the block that the source has processed.
fn life_over<
    C: Ceremony + Drop,
    P: ParticipantsProvider<Dir = Unit>,
    R: Registrar + Counted,
    D: Disk,
    X: SecretStore,
    B: BlockSource<Unit>,
>(
    alloc: Global,
    actor: &mut Actor<C, P, R, Unit, Unit>,
    disk: &mut D,
    secrets: &mut X,
    source: &B,
) -> Result<([usize; 3], u64, u64), Fail>
    requires { IsNew actor.old.state }
{
    let Some(first) = source.anchor() else {
        return Err(Fail::from("no block"));
    };
    let parent = first.digest();
    let mut devices = Devices {
        disk,
        secrets,
        fuse: Fuse::never(),
    };
    let mut fence = Fence::new();
    let mut out = Transcript::new(alloc);
    life(
        alloc,
        actor,
        &mut devices,
        source,
        parent,
        &mut fence,
        &mut out,
    )
}

/// .. of an actor of the plain ceremony.
fn plain_life<D: Disk, X: SecretStore, B: BlockSource<Unit>>(
    alloc: Global,
    disk: &mut D,
    secrets: &mut X,
    source: &B,
) -> Result<([usize; 3], u64, u64), Fail> {
    let mut actor = plain_actor(alloc, 8)?;
    life_over(alloc, &mut actor, disk, secrets, source)
}

/// .. over memory.
fn lived(alloc: Global) -> Result<([usize; 3], u64, u64), Fail> {
    let source = first_source(alloc)?;
    let mut disk = MemoryDisk::new(alloc);
    let mut secrets = MemorySecrets::new(alloc);
    plain_life(alloc, &mut disk, &mut secrets, &source)
}

#[test]
fn an_actor_lives(rt: HostRuntime) -> Result<(), Fail> {
    assert_eq!(rt; lived(rt.alloc())?, ([4, 6, 6], 2, 1));
    Ok(())
}
