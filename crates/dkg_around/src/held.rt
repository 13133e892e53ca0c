//! The blocks that a life's source holds.
ghost use Rattle.std.specs.Prelude.{◌≡◌, ◌==◌, ◌++◌, ◌∷◌, [], IfOk, OnErr, OnOk, find, option_and_then, option_map, slice_get};
ghost use Rattle.std.specs.Option.{option_copied};
ghost use Rattle.std.specs.Str.{bytes_eq};
ghost use Rattle.dkg_script.specs.Blocks.{anchor_number};
ghost use Rattle.dkg_lives.specs.Given.{anchor_block, anchor_in, numbered, unsealed};
ghost use Rattle.dkg_around.specs.Sources.{anchor_numbers};

use dkg_ceremony::{Digest, Height, Mem};
use dkg_infos::Unit;
use dkg_script::{Anchor, Life};
use dkg_setup::{BlockSource, Processed};
use dkg_types::{Block, Finalization};
use std::alloc::Global;

/// The blocks that a life holds, then its anchor's, and then those that were delivered to it, by their numbers in this order.
#[derive(Drop)]
pub struct HeldBlocks<'a> {
    blocks: &'a [Block<Unit>],
    anchor: Option<Anchor>,
    numbers: Vec<u32>,
}

/// The number of an anchor's block.
fn number_of(anchor: Anchor) -> u32
    ensures { result ≡ anchor_number anchor }
{
    match anchor {
        Anchor::Processed(number) | Anchor::Absent(number) => number,
    }
}

/// The first of the blocks of these numbers that stands at a height.
fn at_height<'a>(
    blocks: &'a [Block<Unit>],
    numbers: &[u32],
    height: Height,
) -> Option<&'a Block<Unit>>
    ensures { option_copied result ≡ find (λ b. b.height == height) (numbered blocks.now numbers.now) }
{
    for number in numbers {
        if let Some(block) = blocks.get(*number as usize) {
            if block.height() == height {
                return Some(block);
            }
        }
    }
    None
}

/// The first of the blocks of these numbers that has a digest.
fn of_digest<'a>(
    blocks: &'a [Block<Unit>],
    numbers: &[u32],
    digest: &Digest,
) -> Option<&'a Block<Unit>>
    ensures { option_copied result ≡ find (λ b. bytes_eq b.digest digest.now) (numbered blocks.now numbers.now) }
{
    for number in numbers {
        if let Some(block) = blocks.get(*number as usize) {
            if block.digest() == *digest {
                return Some(block);
            }
        }
    }
    None
}

impl<'a> HeldBlocks<'a> {
    /// What a life's source holds as the life opens.
    pub fn new(alloc: Global, blocks: &'a [Block<Unit>], life: &Life) -> Mem<HeldBlocks<'a>>
        ensures blocks { IfOk result (λ source. source.blocks.now ≡ blocks.now) }
        ensures anchor { IfOk result (λ source. source.anchor ≡ life.now.anchor) }
        ensures numbers { IfOk result (λ source. source.numbers.items ≡ life.now.held ++ anchor_numbers life.now.anchor) }
    {
        let room = life
            .held
            .as_slice()
            .len()
            .saturating_add(life.events.len())
            .saturating_add(1);
        let mut numbers = Vec::with_capacity(alloc, room)?;
        numbers.extend_from_slice(life.held.as_slice())?;
        if let Some(anchor) = life.anchor {
            numbers.push(number_of(anchor))?;
        }
        Ok(HeldBlocks {
            blocks,
            anchor: life.anchor,
            numbers,
        })
    }

    /// Holds the block of a number from now on.
    pub fn hold(&mut self, number: u32) -> Mem<()>
        ensures blocks { self.new.blocks ≡ self.old.blocks }
        ensures anchor { self.new.anchor ≡ self.old.anchor }
        ensures numbers { OnOk result (self.new.numbers.items ≡ self.old.numbers.items ++ number ∷ []) }
        ensures kept { OnErr result (self.new.numbers.items ≡ self.old.numbers.items) }
    {
        Ok(self.numbers.push(number)?)
    }

    /// The block of a number, held or not.
    pub fn of_number(&self, number: u32) -> Option<&'a Block<Unit>>
        ensures { option_copied result ≡ slice_get self.now.blocks.now number }
    {
        self.blocks.get(number as usize)
    }

    /// The block that the anchor names.
    fn anchored(&self) -> Option<&'a Block<Unit>>
        ensures { option_copied result ≡ option_and_then (anchor_block self.now.blocks.now) self.now.anchor }
    {
        self.blocks.get(number_of(self.anchor?) as usize)
    }
}

impl BlockSource<Unit> for HeldBlocks<'_> {
    ghost use Rattle.dkg_core.specs.Sources.{source_over};

    ghost answers = { λ s. source_over unsealed (anchor_in s.blocks.now s.anchor) (numbered s.blocks.now s.numbers.items) };

    fn processed(&self) -> Option<Processed> {
        let height = self.anchored()?.height();
        match self.anchor? {
            Anchor::Processed(_) => Some(Processed::Block(height)),
            Anchor::Absent(_) => Some(Processed::Absent(Height(height.0.saturating_sub(1)))),
        }
    }

    fn anchor(&self) -> Option<&Block<Unit>> {
        self.anchored()
    }

    fn block(&self, height: Height) -> Option<&Block<Unit>> {
        at_height(self.blocks, &self.numbers, height)
    }

    fn by_digest(&self, digest: &Digest) -> Option<&Block<Unit>> {
        of_digest(self.blocks, &self.numbers, digest)
    }

    fn finalization(&self, _height: Height) -> Mem<Option<Finalization>> {
        Ok(None)
    }

    fn latest(&self) -> Mem<Option<Finalization>> {
        Ok(None)
    }
}
