//! Where a node stands in the chain, and what a delivered block is to it.
ghost use Rattle.std.specs.Prelude.{◌≡◌, ◌+◌, ◌^◌, IfSome, IfNone};
ghost use Rattle.std.specs.Option.{option_map_or};
ghost use Rattle.dkg_life.specs.Judged.{judged, judged_over};

use dkg_infos::{Directory, Fault};
use dkg_types::Block;
use dkg_values::{Digest, Height};
use std::marker::Model;

/// The last block that was processed: its height, and the digest by which the next one names it.
#[derive(Clone, Copy, Debug, PartialEq, Eq)]
pub struct Tip {
    pub height: Height,
    pub digest: Digest,
}

impl Model for Tip {
    ghost use Rattle.dkg_core.specs.Sources.{Tip as Placed};

    ghost Value = { Placed };

    ghost view = { λ t. record { height = t.height; digest = t.digest } };

    ghost inverse = { λ t. record { height = t.height; digest = t.digest } };
}

/// What a delivered block is to a node.
#[derive(Clone, Copy, Debug, PartialEq, Eq)]
pub enum Judged {
    /// The block that was awaited.
    New,
    /// A block at the tip or below it, which was delivered before.
    Again,
}

/// Judges a block with a tip.
#[tactic(auto, unfolding(crate::specs::Judged::judged_over))]
fn judge_over(tip: &Tip, height: Height, digest: Digest, parent: Digest) -> Result<Judged, Fault>
    ensures { result ≡ judged_over tip.now height digest parent }
{
    if height == tip.height && digest != tip.digest {
        return Err(Fault::ConflictingBlock { height });
    }
    if height.0 <= tip.height.0 {
        return Ok(Judged::Again);
    }
    if height.0 - tip.height.0 > 1 {
        return Err(Fault::SkippedHeight {
            awaited: Height(tip.height.0 + 1),
            got: height,
        });
    }
    if parent != tip.digest {
        return Err(Fault::DetachedBlock { height });
    }
    Ok(Judged::New)
}

/// Judges a block that is delivered at this position. Without one it is new: whoever calls has looked at its window.
///
/// ConflictingBlock: another block stands at its height. SkippedHeight: it is more than one above. DetachedBlock: it is no child of the position's.
#[tactic(auto, unfolding(crate::specs::Judged::judged))]
pub fn judge<Dir: Directory + Drop>(tip: &Option<Tip>, block: &Block<Dir>) -> Result<Judged, Fault>
    ensures { result ≡ judged tip.now block.now.height block.now.digest block.now.parent }
{
    match tip {
        None => Ok(Judged::New),
        Some(tip) => judge_over(tip, block.height(), block.digest(), block.parent()),
    }
}

/// The tip behind a block.
pub fn tip_of<Dir: Directory + Drop>(block: &Block<Dir>) -> Tip
    ensures { result ≡ record { height = block.now.height; digest = block.now.digest } }
{
    Tip {
        height: block.height(),
        digest: block.digest(),
    }
}

/// The height that is awaited at a position, unless it passes 64 bits.
pub fn awaited(tip: &Option<Tip>) -> Option<Height>
    ensures some { IfSome result (λ height. height ≡ option_map_or (λ t. t.height + 1) tip.now 0) }
    ensures none { IfNone result (option_map_or (λ t. t.height + 1) tip.now 0 ≡ 2 ^ 64) }
{
    match tip {
        None => Some(Height(0)),
        Some(tip) => Some(Height(tip.height.0.checked_add(1)?)),
    }
}
