//! The blocks of a script, made once for all of its lives.
ghost use Rattle.std.specs.Prelude.{◌≡◌, false, IfOk, IfSome};
ghost use Rattle.std.specs.Int.NonZero.{non_zero_u32_get, non_zero_u64_get};
ghost use Rattle.dkg_values.specs.Codec.{IsBytes};
ghost use Rattle.dkg_ceremony.specs.Schedule.{epoch_of};
ghost use Rattle.dkg_script.specs.Readings.{unit_payload};
ghost use Rattle.dkg_lives.specs.Given.{AreBytes, block_on, blocks_in, parent_digest_in, payload_in};

use dkg_ceremony::{Digest, Epoch, Height, Key, Mem};
use dkg_infos::Unit;
use dkg_script::{BlockLine, Script, ScriptConfig};
use dkg_text::PayloadBytes;
use dkg_types::{Block, Context, Payload};
use dkg_values::Shared;
use std::alloc::Global;

/// The payload that bytes spell, if they spell one.
fn payload_in(
    alloc: Global,
    config: &ScriptConfig,
    carried: &PayloadBytes,
) -> Mem<Option<Shared<Payload<Unit>>>>
    ensures payload { IfOk result (λ payload. payload ≡ unit_payload
        (record { limit = non_zero_u32_get config.now.limit; version = config.now.max_mode.0; addressed = false }) carried.now) }
    ensures bytes { IsBytes carried.now }
{
    carried.payload(alloc, (config.limit, config.max_mode))
}

/// The payload of a block line, if it has one.
fn payload_of(
    alloc: Global,
    config: &ScriptConfig,
    line: &BlockLine,
) -> Mem<Option<Shared<Payload<Unit>>>>
    ensures payload { IfOk result (λ payload. payload ≡ payload_in config.now line.now.payload) }
    ensures bytes { IfSome line.now.payload IsBytes }
{
    match &line.payload {
        None => Ok(None),
        Some(carried) => payload_in(alloc, config, carried),
    }
}

/// The digest of the block that a line names as its parent, and zeros where it names none.
fn parent_digest(line: &BlockLine, before: &[Block<Unit>]) -> Digest
    ensures { result ≡ parent_digest_in before.now line.now.parent }
{
    match line.parent {
        None => Digest([0; 32]),
        Some(number) => match before.get(number as usize) {
            None => Digest([0; 32]),
            Some(block) => block.digest(),
        },
    }
}

/// The epoch in which a height lies.
fn epoch_at(config: &ScriptConfig, height: Height) -> Epoch
    ensures { result ≡ epoch_of (non_zero_u64_get config.now.blocks_per_epoch) height }
{
    Epoch(height.0 / config.blocks_per_epoch.get())
}

/// The block of a line whose parent has this digest.
fn block_on(
    alloc: Global,
    config: &ScriptConfig,
    parent: Digest,
    line: &BlockLine,
) -> Mem<Block<Unit>>
    ensures block { IfOk result (λ block. block ≡ block_on config.now parent line.now) }
    ensures bytes { IfSome line.now.payload IsBytes }
{
    let context = Context {
        epoch: epoch_at(config, line.height),
        view: line.view,
        leader: Key(0),
        parent_view: 0,
        parent,
    };
    let payload = payload_of(alloc, config, line)?;
    Block::sharing(alloc, context, parent, line.height, payload)
}

/// The blocks of a script, in the order of its lines.
#[tactic(auto, unfolding(dkg_lives::specs::Given::blocks_in))]
pub fn blocks_of(alloc: Global, script: &Script) -> Mem<Vec<Block<Unit>>>
    ensures blocks { IfOk result (λ blocks. blocks.items ≡ blocks_in script.now) }
    // What the lines' payloads hold is bytes.
    ensures bytes { IfOk result (λ blocks. AreBytes script.now.blocks) }
{
    let lines = script.blocks.as_slice();
    let mut blocks = Vec::with_capacity(alloc, lines.len())?;
    for line in lines {
        let parent = parent_digest(line, blocks.as_slice());
        let block = block_on(alloc, &script.config, parent, line)?;
        blocks.push(block)?;
    }
    Ok(blocks)
}
