//! The orchestrator's half of a node: which epoch it has entered, and which blocks it acknowledges.
//!
//! It enters the epoch of the height above its source's position, or halts without that epoch's boundary block. From then on it enters the next
//! epoch at the last block of each.
ghost use Rattle.std.specs.Prelude.{◌≡◌, ◌<◌, ◌+◌, ◌++◌, ◌∷◌, [], ◌^◌, ℕ, IfErr, IfNone, IfOk, IfSome, OnOk, if◌then◌else◌, true, false, None, Some};
ghost use Rattle.std.specs.Int.NonZero.{non_zero_u64_get};
ghost use Rattle.std.specs.Option.{option_map_or};
ghost use Rattle.dkg_ceremony.specs.Schedule.{boundary, first, last};
ghost use Rattle.dkg_fence.specs.Fence.{waited};
ghost use Rattle.dkg_fence.specs.declared.fence.Waited.TheVariants as waits;
ghost use Rattle.dkg_types.specs.Blocks as blocks;
ghost use Rattle.dkg_infos.specs.declared.directory.Unit as directory;
ghost use Rattle.dkg_infos.specs.declared.entry.Entry.TheVariants as entry;
ghost use Rattle.dkg_core.specs.Courses.{bind};
ghost use Rattle.dkg_core.specs.Entering.{acked_at, takes_delivered, delivered_in, is_ready};
ghost use Rattle.dkg_core.specs.Fixed.{Fixed};
ghost use Rattle.dkg_core.specs.Live.{Live};
ghost use Rattle.dkg_core.specs.Node.{kept_material};
ghost use Rattle.dkg_life.specs.Ends.{IsCaused};
ghost use Rattle.dkg_life.specs.Made.{Speaks};
ghost use Rattle.dkg_life.specs.declared.stop.Stop.TheVariants.{Fault as FaultOf};
ghost use Rattle.dkg_infos.specs.declared.fault.Fault.TheVariants.{NoMemory};
ghost use Rattle.dkg_lives.specs.Ended.{ends_node};
ghost use Rattle.dkg_around.specs.Halves.{IsStartOf, beginning_of};
ghost use Rattle.dkg_around.specs.Orchestrator.{HasOrchestratorHalf, IsFenceReady, IsHalfGiven, IsSettled, MayEnter, MayGoOn, MayPass, ends_half, ends_on, with_orchestrator_half};

use dkg_ceremony::{Bounds, Epoch, Epocher, Height};
use dkg_fence::{Fence, Waited};
use dkg_infos::{Entry, Fault, Transcript, Unit};
use dkg_life::{Stop, Tip};
use dkg_setup::{BlockSource, startup};
use dkg_types::Block;
use std::num::NonZeroU64;

/// The orchestrator's half between two steps. It doesn't wait: an opening has marked its epoch on the fence.
#[derive(Drop)]
pub struct Half {
    entered: Option<Epoch>,
    halted: bool,
}

/// The height above a position, unless it passes 64 bits.
fn awaited(tip: &Option<Tip>) -> Option<Height>
    ensures some { IfSome result (λ height. height ≡ option_map_or (λ t. t.height + 1) tip.now 0) }
    ensures none { IfNone result (option_map_or (λ t. t.height + 1) tip.now 0 ≡ 2 ^ 64) }
{
    match tip {
        None => Some(Height(0)),
        Some(tip) => Some(Height(tip.height.0.checked_add(1)?)),
    }
}

/// The bounds of the epoch in which a life of this source starts.
fn start_bounds<B: BlockSource<Unit>>(
    blocks_per_epoch: NonZeroU64,
    source: &B,
) -> Result<Bounds, Fault>
    ensures { (c : Fixed directory.Unit) → IsHalfGiven (non_zero_u64_get blocks_per_epoch) (B.answers source.now) c → IsStartOf c result }
{
    let Some(height) = awaited(&startup(source, None)) else {
        return Err(Fault::HeightRange);
    };
    let Some(bounds) = Epocher::new(blocks_per_epoch).containing(height) else {
        return Err(Fault::HeightRange);
    };
    Ok(bounds)
}

/// The height of an epoch's boundary block: the last one of the epoch before, and genesis for epoch 0.
fn boundary_of(bounds: &Bounds) -> Height
    ensures { (blocks : ℕ) → bounds.now.first ≡ first blocks bounds.now.epoch → result ≡ boundary blocks bounds.now.epoch }
{
    Height(bounds.first.0.saturating_sub(1))
}

/// A boundary block carries its epoch's info.
fn check_info(block: &Block<Unit>, epoch: Epoch) -> Result<(), Fault>
    ensures { result ≡ beginning_of block.now epoch }
{
    let Some(info) = block.epoch_info() else {
        return Err(Fault::MissingEpochInfo {
            height: block.height(),
        });
    };
    if info.epoch != epoch {
        return Err(Fault::WrongEpoch {
            expected: epoch,
            got: info.epoch,
        });
    }
    Ok(())
}

/// Enters an epoch that the fence is ready for.
fn enter(epoch: Epoch, fence: &mut Fence, out: &mut Transcript) -> Result<Half, Stop>
    requires ready { is_ready fence.old.ready epoch ≡ true }
    ensures ok { IfOk result (λ half. (half ≡ record { entered = Some epoch; halted = false })
        × (out.new.entries ≡ out.old.entries ++ entry.Entered epoch ∷ [])) }
    ensures err { IfErr result (λ stop. (stop ≡ FaultOf NoMemory) × (out.new.entries ≡ out.old.entries)) }
    ensures fence { fence.new ≡ waited epoch waits.Ready fence.old }
{
    match fence.wait(epoch) {
        Waited::Ready => {
            out.push(Entry::Entered { epoch })?;
            Ok(Half {
                entered: Some(epoch),
                halted: false,
            })
        }
        Waited::Pending | Waited::Closed => unreachable!(),
    }
}

impl Half {
    /// Enters the epoch in which a life starts, or halts where its boundary block is not held.
    pub fn open<B: BlockSource<Unit>>(
        blocks_per_epoch: NonZeroU64,
        source: &B,
        fence: &mut Fence,
        out: &mut Transcript,
    ) -> Result<Half, Stop>
        requires ready { (c : Fixed directory.Unit) × IsHalfGiven (non_zero_u64_get blocks_per_epoch) (B.answers source.now) c × IsFenceReady c fence.old }
        ensures speaks { (c : Fixed directory.Unit) (st : Live directory.Unit) → IsHalfGiven (non_zero_u64_get blocks_per_epoch) (B.answers source.now) c
            → MayEnter c fence.old st
            → Speaks (kept_material c st) (ends_half fence.new st result) out.old.entries out.new.entries }
        ensures settled { IfOk result (IsSettled (non_zero_u64_get blocks_per_epoch)) }
        // It blames no device.
        ensures causes { IfErr result (λ stop. IsCaused stop ⊥ ⊥ ⊥) }
    {
        let bounds = start_bounds(blocks_per_epoch, source)?;
        let Some(block) = source.block(boundary_of(&bounds)) else {
            out.push(Entry::Halted)?;
            return Ok(Half {
                entered: None,
                halted: true,
            });
        };
        check_info(block, bounds.epoch)?;
        enter(bounds.epoch, fence, out)
    }

    /// The epoch that was entered last, unless this half halted (`active`).
    fn active(&self) -> Option<Epoch>
        ensures { result ≡ (if self.now.halted then None else self.now.entered) }
    {
        if self.halted { None } else { self.entered }
    }

    /// Goes on by a block of the epoch that was entered: its last one begins the next (`delivered_in`).
    fn go_on(
        &mut self,
        blocks_per_epoch: NonZeroU64,
        epoch: Epoch,
        block: &Block<Unit>,
        fence: &mut Fence,
        out: &mut Transcript,
    ) -> Result<(), Stop>
        requires range { last (non_zero_u64_get blocks_per_epoch) epoch < 2 ^ 64 }
        requires next { block.now.height ≡ last (non_zero_u64_get blocks_per_epoch) epoch
            → (last (non_zero_u64_get blocks_per_epoch) (epoch + 1) < 2 ^ 64) × (is_ready fence.old.ready (epoch + 1) ≡ true) }
        requires active { (self.old.halted ≡ false) × (self.old.entered ≡ Some epoch) }
        ensures speaks { (c : Fixed directory.Unit) (st : Live directory.Unit) → c.blocks_per_epoch ≡ non_zero_u64_get blocks_per_epoch
            → HasOrchestratorHalf self.old st
            → MayGoOn c fence.old block.now epoch st
            → Speaks (delivered_in c block.now st (Some epoch)) (ends_on (with_orchestrator_half self.new fence.new st) result)
            out.old.entries out.new.entries }
        ensures settled { OnOk result (IsSettled (non_zero_u64_get blocks_per_epoch) self.new) }
        ensures causes { IfErr result (λ stop. IsCaused stop ⊥ ⊥ ⊥) }
    {
        let Some(last) = Epocher::new(blocks_per_epoch).last(epoch) else {
            return Err(Stop::Fault(Fault::HeightRange));
        };
        let height = block.height();
        if height > last {
            return Err(Stop::Fault(Fault::SkippedHeight {
                awaited: last,
                got: height,
            }));
        }
        if height == last {
            let next = Epoch(epoch.0 + 1);
            check_info(block, next)?;
            *self = enter(next, fence, out)?;
        }
        Ok(())
    }

    /// Takes a finalized block, and acknowledges it, where this half is active: an epoch's last one once the next epoch was entered
    /// (`takes_delivered`, `acked_at`).
    pub fn deliver(
        &mut self,
        blocks_per_epoch: NonZeroU64,
        block: &Block<Unit>,
        fence: &mut Fence,
        out: &mut Transcript,
    ) -> Result<(), Stop>
        requires range { MayPass (non_zero_u64_get blocks_per_epoch) self.old fence.old.ready block.now.height }
        ensures speaks { (c : Fixed directory.Unit) (st : Live directory.Unit) → c.blocks_per_epoch ≡ non_zero_u64_get blocks_per_epoch
            → HasOrchestratorHalf self.old st
            → st.orchestrator.fence ≡ fence.old
            → ((epoch : ℕ) → self.old.halted ≡ false → self.old.entered ≡ Some epoch → MayGoOn c fence.old block.now epoch st)
            → Speaks (bind (takes_delivered c block.now st) (λ half. acked_at block.now.height half.answer half.live))
            (ends_node (with_orchestrator_half self.new fence.new st) result) out.old.entries out.new.entries }
        ensures settled { OnOk result (IsSettled (non_zero_u64_get blocks_per_epoch) self.new) }
        ensures causes { IfErr result (λ stop. IsCaused stop ⊥ ⊥ ⊥) }
    {
        let Some(epoch) = self.active() else {
            return Ok(());
        };
        self.go_on(blocks_per_epoch, epoch, block, fence, out)?;
        Ok(out.push(Entry::Acked {
            height: block.height(),
        })?)
    }
}
