//! The blocks that an opening and a step are lent.
ghost use Rattle.std.specs.Prelude.{◌≡◌};
ghost use Rattle.std.specs.Option.{option_copied};
ghost use Rattle.dkg_core.specs.Sources.{over_floor, position, position_of, startup};
ghost use Rattle.dkg_setup.specs.Anchors.{processed_of};

use dkg_infos::Directory;
use dkg_life::Tip;
use dkg_types::{Block, Finalization};
use dkg_values::{Digest, Height, Mem};

/// What was processed last: a block that is there, or one that is absent, of which the child is there.
#[derive(Clone, Copy, Debug, PartialEq, Eq)]
pub enum Processed {
    Block(Height),
    Absent(Height),
}

/// Who holds blocks. A block that is delivered is held by then.
pub trait BlockSource<Dir: Directory> {
    ghost use Rattle.std.specs.Prelude.{◌≡◌, Option, IfOk, option_map};
    ghost use Rattle.std.specs.Option.{option_copied};
    ghost use Rattle.dkg_core.specs.Sources.{SourceAnswers};
    ghost use Rattle.dkg_setup.specs.Anchors.{processed_of};

    /// What it answers, as the relation is lent it.
    ghost answers: { Self → SourceAnswers Dir };

    /// What was processed last, if anything was.
    fn processed(&self) -> Option<Processed>
        ensures { option_map processed_of result ≡ option_map (λ a. a.processed) (answers self.now).anchor };

    /// The block that was processed last, or its child where it is absent.
    fn anchor(&self) -> Option<&Block<Dir>>
        ensures { option_copied result ≡ option_map (λ a. a.block) (answers self.now).anchor };

    /// The finalized block of a height, where it is held.
    fn block(&self, height: Height) -> Option<&Block<Dir>>
        ensures { option_copied result ≡ (answers self.now).block height };

    /// The block of a digest, where it is held, finalized or not.
    fn by_digest(&self, digest: &Digest) -> Option<&Block<Dir>>
        ensures { option_copied result ≡ (answers self.now).by_digest digest.now };

    /// The finalization of a height, where it is held.
    fn finalization(&self, height: Height) -> Mem<Option<Finalization>>
        ensures { IfOk result (λ found. found ≡ (answers self.now).finalization height) };

    /// The finalization of the highest block that has one.
    fn latest(&self) -> Mem<Option<Finalization>>
        ensures { IfOk result (λ found. found ≡ (answers self.now).latest) };
}

/// The position that a processed block names.
fn position_of<Dir: Directory + Drop>(processed: Processed, block: &Block<Dir>) -> Tip
    ensures { result ≡ position_of (processed_of processed) block.now }
{
    match processed {
        Processed::Block(height) => Tip {
            height,
            digest: block.digest(),
        },
        Processed::Absent(height) => Tip {
            height,
            digest: block.parent(),
        },
    }
}

/// The position that a source's anchor names.
pub(crate) fn position<Dir: Directory + Drop, B: BlockSource<Dir>>(source: &B) -> Option<Tip>
    ensures { result ≡ position (B.answers source.now).anchor }
{
    let processed = source.processed()?;
    let block = source.anchor()?;
    Some(position_of(processed, block))
}

/// The higher of a position and a floor's parent; on a tie the floor's parent.
fn over_floor<Dir: Directory + Drop>(at: Option<Tip>, floor: &Block<Dir>) -> Option<Tip>
    ensures { result ≡ over_floor at floor.now }
{
    let Some(below) = floor.height().0.checked_sub(1) else {
        return at;
    };
    match at {
        Some(tip) if floor.height() <= tip.height => Some(tip),
        _ => Some(Tip {
            height: Height(below),
            digest: floor.parent(),
        }),
    }
}

/// Where a life starts that is given a floor, or none: at the processed position, or at the floor's parent where that is not lower.
pub fn startup<Dir: Directory + Drop, B: BlockSource<Dir>>(
    source: &B,
    floor: Option<&Block<Dir>>,
) -> Option<Tip>
    ensures { result ≡ startup (B.answers source.now).anchor (option_copied floor.entry) }
{
    let at = position(source);
    match floor {
        None => at,
        Some(floor) => over_floor(at, floor),
    }
}
