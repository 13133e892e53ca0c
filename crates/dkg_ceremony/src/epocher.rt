//! The heights of epochs that all have the same number of blocks.
//!
//! The actors ask in which epoch a block stands, and where that epoch begins, turns from dealing to including logs, and
//! ends. An epoch counts only where its last height is a number of 64 bits.
ghost use Rattle.std.specs.Prelude.{◌≡◌, ◌<◌, ◌^◌, IfSome};
ghost use Rattle.std.specs.Int.NonZero.{non_zero_u64_get};
ghost use Rattle.dkg_ceremony.specs.Schedule as schedule;
ghost use Rattle.dkg_ceremony.specs.Schedule.{IsWithin, bounds_at, in_range, phase_at};

use crate::phase::Phase;
use dkg_values::{Epoch, Height};
use std::marker::Model;
use std::num::NonZeroU64;

/// Where an epoch begins, has its midpoint and ends, and where a height stands in it.
#[derive(Clone, Copy, Debug, PartialEq, Eq)]
pub struct Bounds {
    pub epoch: Epoch,
    pub first: Height,
    /// The first height at which logs are included: half an epoch above the first one, rounded down.
    pub midpoint: Height,
    /// The height of the final block, which carries the next epoch's info.
    pub last: Height,
    pub phase: Phase,
}

/// Epochs of so many blocks each, which contracts see as that number.
#[derive(Debug, Drop)]
pub struct Epocher {
    blocks: NonZeroU64,
}

impl Model for Epocher {
    ghost use Rattle.std.specs.Prelude.{ℕ};
    ghost use Rattle.std.specs.Int.NonZero.{non_zero_u64_get};

    ghost Value = { ℕ };

    ghost view = { λ e. non_zero_u64_get e.blocks };
}

/// Where a height stands beside the midpoint.
fn phase_of(midpoint: Height, height: Height) -> Phase
    ensures { result ≡ phase_at midpoint height }
{
    if height.0 < midpoint.0 {
        Phase::Early
    } else if height.0 == midpoint.0 {
        Phase::Midpoint
    } else {
        Phase::Late
    }
}

impl Epocher {
    /// Epochs of so many blocks each; the first begins at height 0.
    pub fn new(blocks: NonZeroU64) -> Epocher
        ensures { result ≡ non_zero_u64_get blocks }
    {
        Epocher { blocks }
    }

    /// The bounds of the epoch in which a height lies.
    pub fn containing(&self, height: Height) -> Option<Bounds>
        ensures value { result ≡ in_range self.now (schedule.epoch_of self.now height) (bounds_at self.now height) }
        ensures within { IfSome result (λ bounds. IsWithin bounds height) }
    {
        let epoch = Epoch(height.0 / self.blocks.get());
        let first = self.first(epoch)?;
        let midpoint = self.midpoint(epoch)?;
        let last = self.last(epoch)?;
        Some(Bounds {
            epoch,
            first,
            midpoint,
            last,
            phase: phase_of(midpoint, height),
        })
    }

    /// The height of the epoch's first block. None where its last height has no u64.
    pub fn first(&self, epoch: Epoch) -> Option<Height>
        ensures { result ≡ in_range self.now epoch (schedule.first self.now epoch) }
    {
        let last = self.last(epoch)?;
        Some(Height(last.0 - (self.blocks.get() - 1)))
    }

    /// The height of the epoch's block halfway, half its blocks (rounded down) above its first. None where its last height has no u64.
    pub fn midpoint(&self, epoch: Epoch) -> Option<Height>
        ensures { result ≡ in_range self.now epoch (schedule.midpoint self.now epoch) }
    {
        let first = self.first(epoch)?;
        Some(Height(first.0 + self.blocks.get() / 2))
    }

    /// The height of the epoch's final block.
    pub fn last(&self, epoch: Epoch) -> Option<Height>
        ensures { result ≡ in_range self.now epoch (schedule.last self.now epoch) }
    {
        let blocks = self.blocks.get();
        let first = epoch.0.checked_mul(blocks)?;
        let last = first.checked_add(blocks - 1)?;
        Some(Height(last))
    }
}
