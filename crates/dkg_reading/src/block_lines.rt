//! The lines of a script's blocks: each names an earlier one as its parent, or none, and may carry a payload.
ghost use Rattle.std.specs.Prelude.{◌≡◌, ◌<◌, IfOk, IfSome, codes, length};
ghost use Rattle.std.specs.Int.NonZero.{non_zero_u32_get};
ghost use Rattle.dkg_reading.specs.Grammar.{block_line_at, blocks_at, is_parent as is_parent_of, is_payload, limit_of};
ghost use Rattle.dkg_reading.specs.Lines.{ReadsText, ReadsIf, begins};

use crate::lines::Lines;
use crate::stop::Stop;
use dkg_ceremony::{Blob, Height, Mem};
use dkg_text::{BlockLine, BlockLines, PayloadBytes, ScriptConfig};
use std::alloc::Global;
use std::num::NonZeroU32;

/// The limit under which blocks are read: in one-shot mode the number of participants, and at least 1.
fn limit(config: &ScriptConfig) -> NonZeroU32
    ensures { non_zero_u32_get result ≡ limit_of config.now }
{
    match &config.oneshot {
        Some(participants) => NonZeroU32::new(participants.len().max(1)).unwrap(),
        None => config.limit,
    }
}

/// Whether a parent is one of the blocks before.
fn is_parent(before: usize, parent: Option<u32>) -> bool
    ensures { result ≡ is_parent_of before parent }
{
    match parent {
        Some(number) => (number as usize) < before,
        None => true,
    }
}

/// What a block carries, and whether that is read under the limits.
fn read_payload(
    alloc: Global,
    addressed: bool,
    config: &ScriptConfig,
    payload: Option<Blob>,
) -> Mem<(Option<PayloadBytes>, bool)>
    ensures { IfOk result (λ made. (made.0 ≡ payload) × (made.1 ≡ is_payload addressed (limit_of config.now) config.now.max_mode.0 payload)) }
{
    match payload {
        Some(bytes) => {
            let limits = (limit(config), config.max_mode);
            let (carried, is_read) = PayloadBytes::read(alloc, addressed, limits, bytes)?;
            Ok((Some(carried), is_read))
        }
        None => Ok((None, true)),
    }
}

/// `block H P V PAYLOAD`: a block after others, where there is a line of it; its parent P and its payload may be dashes.
#[tactic(auto, unfolding(crate::specs::Grammar::block_line_at))]
fn read_block_after(
    alloc: Global,
    addressed: bool,
    config: &ScriptConfig,
    done: &[BlockLine],
    lines: &mut Lines<'_>,
) -> Result<Option<BlockLine>, Stop>
    ensures reads { ReadsIf (begins (codes "block")) (block_line_at addressed config.now done.now) lines.old.rest.now result lines.new.rest.now }
    ensures on { IfOk result (λ made. IfSome made (λ _. length lines.new.rest.now < length lines.old.rest.now)) }
{
    let Some((height, parent, view, payload)): Option<(Height, Option<u32>, u64, Option<Blob>)> =
        lines.take_if(alloc, b"block")?
    else {
        return Ok(None);
    };
    let (payload, is_read) = read_payload(alloc, addressed, config, payload)?;
    if is_parent(done.len(), parent) && is_read {
        Ok(Some(BlockLine {
            height,
            parent,
            view,
            payload,
        }))
    } else {
        Err(lines.refused())
    }
}

/// The lines of blocks, if there are any.
#[tactic(auto, unfolding(crate::specs::Grammar::blocks_at))]
pub(crate) fn read_blocks(
    alloc: Global,
    addressed: bool,
    config: &ScriptConfig,
    lines: &mut Lines<'_>,
) -> Result<BlockLines, Stop>
    ensures { ReadsText (blocks_at addressed config.now lines.old.rest.now) result lines.new.rest.now }
{
    let mut blocks = Vec::new(alloc);
    'more: while let Some(block) = read_block_after(alloc, addressed, config, &blocks, lines)? {
        blocks.push(block)?;
    }
    Ok(BlockLines::new(blocks))
}
