//! The script that is made of a number, epoch by epoch.
ghost use Rattle.std.specs.Prelude.{◌≡◌, ◌+◌, ◌<◌, ◌≤◌, ◌++◌, map, IfOk, OnOk};
ghost use Rattle.std.specs.List.{range_with_len};
ghost use Rattle.std.specs.Option.{option_copied};
ghost use Rattle.dkg_generator.specs.Made.{blocks_with, carried_at as carried_at_of, made_config, made_script, parent_of as parent_from, players_of, seven as seven_of, sixty_four as sixty_four_of};
ghost use Rattle.dkg_generator.specs.Making.{IsMaking};

use crate::chain::{everybody, genesis};
use crate::life::{life, put_events};
use crate::plan::{EPOCHS, ME, Plan, plan_of};
use dkg_ceremony::{Blob, Epoch, Height, Map, Mem, Mode, ModeVersion, Value};
use dkg_infos::{EpochInfo, Unit};
use dkg_text::{
    BlockLine, BlockLines, Events, Life, Lives, PayloadBytes, PlayerLine, PlayerLines, Script,
    ScriptConfig,
};
use std::alloc::Global;
use std::num::{NonZeroU32, NonZeroU64};

/// A copy of bytes that may be there.
fn copied(alloc: Global, bytes: Option<&Blob>) -> Mem<Option<Blob>>
    ensures { IfOk result (λ made. made ≡ option_copied bytes.entry) }
{
    match bytes {
        Some(bytes) => Ok(Some(bytes.copy(alloc)?)),
        None => Ok(None),
    }
}

/// The bytes that the block at an index carries.
fn bytes_at(alloc: Global, plan: &Plan, index: u64) -> Mem<Option<Blob>>
    requires { index < 64 }
    ensures { IfOk result (λ made. made ≡ carried_at_of plan.now.first plan.now.next plan.now.logs.items index) }
{
    match index {
        0 => copied(alloc, plan.first.as_ref()),
        63 => Ok(Some(plan.next.copy(alloc)?)),
        1..=31 => Ok(None),
        _ => copied(alloc, plan.logs.get(index as usize - 32)),
    }
}

/// What the block at an index carries.
fn carried_at(alloc: Global, plan: &Plan, index: u64) -> Mem<Option<PayloadBytes>>
    requires { index < 64 }
    ensures { IfOk result (λ made. made ≡ carried_at_of plan.now.first plan.now.next plan.now.logs.items index) }
{
    match bytes_at(alloc, plan, index)? {
        Some(bytes) => Ok(Some(PayloadBytes::new(alloc, bytes)?)),
        None => Ok(None),
    }
}

/// The number of the block below a height.
fn parent_of(height: u64) -> Option<u32>
    requires { height < 320 }
    ensures { result ≡ parent_from height }
{
    if height == 0 {
        None
    } else {
        Some((height - 1) as u32)
    }
}

/// The blocks of an epoch.
fn put_blocks(alloc: Global, blocks: &mut Vec<BlockLine>, plan: &Plan, epoch: u64) -> Mem<()>
    requires { epoch < 5 }
    ensures { OnOk result (blocks.new.items ≡ blocks.old.items ++ blocks_with plan.now.first plan.now.next plan.now.logs.items epoch) }
{
    for index in 0..64 {
        let height = epoch * 64 + index;
        blocks.push(BlockLine {
            height: Height(height),
            parent: parent_of(height),
            view: 0,
            payload: carried_at(alloc, plan, index)?,
        })?;
    }
    Ok(())
}

/// Who takes part in the epochs that no info names before.
fn players(alloc: Global) -> Mem<PlayerLines>
    ensures { IfOk result (λ lines. lines ≡ map players_of (range_with_len 2 5)) }
{
    let mut lines = Vec::new(alloc);
    for epoch in 2..7 {
        lines.push(PlayerLine {
            epoch: Epoch(epoch),
            players: everybody(alloc)?,
        })?;
    }
    Ok(PlayerLines::new(lines))
}

fn sixty_four() -> NonZeroU64
    ensures { result ≡ sixty_four_of }
{
    match NonZeroU64::new(64) {
        Some(number) => number,
        None => unreachable!(),
    }
}

fn seven() -> NonZeroU32
    ensures { result ≡ seven_of }
{
    match NonZeroU32::new(7) {
        Some(number) => number,
        None => unreachable!(),
    }
}

fn config(alloc: Global) -> Mem<ScriptConfig>
    ensures { IfOk result (λ config. config ≡ made_config) }
{
    Ok(ScriptConfig {
        me: ME,
        blocks_per_epoch: sixty_four(),
        limit: seven(),
        mode: Mode::NonZeroCounter,
        max_mode: ModeVersion(0),
        namespace: Blob::new(Vec::new(alloc)),
        oneshot: None,
        players: players(alloc)?,
        addresses: Map::from_any(alloc, Vec::new(alloc))?,
        probe: None,
    })
}

/// A script in the making.
#[derive(Drop)]
struct Making {
    /// The info of the epoch that comes next.
    info: EpochInfo<Unit>,
    blocks: Vec<BlockLine>,
    /// The lives that have ended.
    lives: Vec<Life>,
    /// The events of the life that goes on.
    events: Events,
}

/// Goes on by an epoch, in which a life ends and another begins.
fn add_epoch(alloc: Global, number: u64, epoch: u64, mut making: Making) -> Mem<Making>
    requires epoch { epoch < 5 }
    requires stands { IsMaking number epoch making }
    ensures { IfOk result (IsMaking number (epoch + 1)) }
{
    let plan = plan_of(alloc, number, &making.info)?;
    put_blocks(alloc, &mut making.blocks, &plan, epoch)?;
    put_events(&mut making.events, &plan, epoch, 0, 16)?;
    let mut lives = making.lives;
    lives.push(life(alloc, number, epoch, making.events)?)?;
    let mut events = Events::new(alloc);
    put_events(&mut events, &plan, epoch, 16, 64)?;
    Ok(Making {
        info: plan.info,
        blocks: making.blocks,
        lives,
        events,
    })
}

/// Makes the script of a number.
///
/// Each number has one; the numbers of one remainder by 5 have the ceremony of the same epoch fail. The time and the memory don't depend on the number.
pub fn make_script(alloc: Global, number: u64) -> Mem<Script>
    ensures { IfOk result (λ script. script ≡ made_script number) }
{
    let mut making = Making {
        info: genesis(alloc, number)?,
        blocks: Vec::new(alloc),
        lives: Vec::new(alloc),
        events: Events::new(alloc),
    };
    for epoch in 0..EPOCHS {
        making = add_epoch(alloc, number, epoch, making)?;
    }
    let mut lives = making.lives;
    lives.push(life(alloc, number, EPOCHS, making.events)?)?;
    Ok(Script {
        addressed: false,
        config: config(alloc)?,
        blocks: BlockLines::new(making.blocks),
        lives: Lives::new(lives),
    })
}
