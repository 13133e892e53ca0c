//! The first blocks of a chain, and a source that holds one.
ghost use Rattle.std.specs.Prelude.{◌≡◌, ℕ, IfOk, None};
ghost use Rattle.dkg_blocks.specs.CarriedLogs.{CarriesWithin};

use dkg_ceremony::{ModeVersion, decode_cfg};
use dkg_infos::Unit;
use dkg_setup::{BlockSource, Processed};
use dkg_types::{Block, Context, Finalization, Payload};
use dkg_values::{Digest, Epoch, Height, Key, Mem};
use std::alloc::Global;
use std::num::NonZeroU32;
use std::test::Fail;

/// The payload of a first block: an info of the first epoch among four players.
const INFO: [u8; 89] =
    *b"\x01\0\0\0\0\0\0\0\0\0\0\0\x04\x03\0\x05\0\x01\0\x02\x04\0\0\0\x01\0\0\0\x02\0\0\0\x03\0\0\0\x04\x04\0\0\0\x01\0\0\0\x02\0\0\0\x03\0\0\0\x04\0\x04\0\0\0\x01\0\0\0\x02\0\0\0\x03\0\0\0\x04\x04\0\0\0\x01\0\0\0\x02\0\0\0\x03\0\0\0\x04";

/// A source that holds one block, and has processed it.
#[derive(Drop)]
pub(crate) struct Single {
    block: Block<Unit>,
}

impl BlockSource<Unit> for Single {
    ghost use Rattle.std.specs.Prelude.{None, Some, if◌then◌else◌, ◌==◌};
    ghost use Rattle.std.specs.Str.{bytes_eq};
    ghost use Rattle.dkg_core.specs.Sources.{AtBlock};

    ghost answers = { λ s. record {
      block = λ height. if height == s.block.height then Some s.block else None;
      by_digest = λ digest. if bytes_eq digest s.block.digest then Some s.block else None;
      finalization = λ height. None;
      latest = None;
      anchor = Some (record { processed = AtBlock s.block.height; block = s.block });
    } };

    fn processed(&self) -> Option<Processed> {
        Some(Processed::Block(self.block.height()))
    }

    fn anchor(&self) -> Option<&Block<Unit>> {
        Some(&self.block)
    }

    fn block(&self, height: Height) -> Option<&Block<Unit>> {
        if height == self.block.height() {
            Some(&self.block)
        } else {
            None
        }
    }

    fn by_digest(&self, digest: &Digest) -> Option<&Block<Unit>> {
        if *digest == self.block.digest() {
            Some(&self.block)
        } else {
            None
        }
    }

    fn finalization(&self, _height: Height) -> Mem<Option<Finalization>> {
        Ok(None)
    }

    fn latest(&self) -> Mem<Option<Finalization>> {
        Ok(None)
    }
}

fn block_at(
    alloc: Global,
    parent: Digest,
    height: u64,
    payload: Option<Payload<Unit>>,
) -> Mem<Block<Unit>>
    ensures { IfOk result (λ block. block.payload ≡ payload) }
{
    let context = Context {
        epoch: Epoch(0),
        view: height,
        leader: Key(1),
        parent_view: 0,
        parent,
    };
    Block::new(alloc, context, parent, Height(height), payload)
}

/// A block that carries nothing.
#[tactic(auto, using(crate::proofs::Settled::carries_none))]
pub(crate) fn bare(alloc: Global, parent: Digest, height: u64) -> Mem<Block<Unit>>
    ensures { (limit : ℕ) → IfOk result (CarriesWithin limit) }
{
    block_at(alloc, parent, height, None)
}

/// A source of the first block, which carries the info.
pub(crate) fn first_source(alloc: Global) -> Result<Single, Fail> {
    let limits = (NonZeroU32::new(4).ok_or("no limit")?, ModeVersion(0));
    let payload = decode_cfg::<Payload<Unit>>(alloc, &INFO, &limits)?;
    let block = block_at(alloc, Digest([0; 32]), 0, Some(payload))?;
    Ok(Single { block })
}
