//! The lines of a script's lives: where each begins, what it holds, what reaches it, and how it ends.
ghost use Rattle.std.specs.Prelude.{◌≡◌, ◌<◌, ◌≤◌, ◌↔◌, IsTrue, OnOk, is_some, length};
ghost use Rattle.std.specs.List.Sorted.{IsStrictlyIncreasing};
ghost use Rattle.dkg_values.specs.Rising.{rises};
ghost use Rattle.dkg_reading.specs.Grammar.{absent_from, anchor_line_at, cut_at, cut_from, held_line_at, held_from, life_lines_at, lives_at, processed_from, sync_at};
ghost use Rattle.dkg_reading.specs.Lines.{ReadsText};

use crate::event_lines::{Around, are_blocks, read_events};
use crate::lines::Lines;
use crate::stop::Stop;
use dkg_ceremony::{Blob, Epoch};
use dkg_text::{Anchor, BlockLine, Cut, Indexes, Life, Lives, ScriptConfig, SyncLine, is_info};
use std::alloc::Global;

/// What the lines of lives are told.
#[derive(Drop)]
pub(crate) struct Known<'a> {
    pub(crate) addressed: bool,
    pub(crate) config: &'a ScriptConfig,
    pub(crate) blocks: &'a [BlockLine],
}

fn processed(blocks: &[BlockLine], number: u32) -> Option<Anchor>
    ensures { result ≡ processed_from blocks.now number }
{
    if (number as usize) < blocks.len() {
        Some(Anchor::Processed(number))
    } else {
        None
    }
}

fn absent(blocks: &[BlockLine], number: u32) -> Option<Anchor>
    ensures { result ≡ absent_from blocks.now number }
{
    if 0 < blocks.get(number as usize)?.height.0 {
        Some(Anchor::Absent(number))
    } else {
        None
    }
}

/// `processed I` or `absent I`: the position that a life begins at, where there is a line of it.
#[tactic(auto, unfolding(crate::specs::Grammar::anchor_line_at))]
fn read_anchor(
    alloc: Global,
    blocks: &[BlockLine],
    lines: &mut Lines<'_>,
) -> Result<Option<Anchor>, Stop>
    ensures reads { ReadsText (anchor_line_at blocks.now lines.old.rest.now) result lines.new.rest.now }
    ensures on { OnOk result (length lines.new.rest.now ≤ length lines.old.rest.now) }
{
    let anchor = if let Some(number) = lines.take_if(alloc, b"processed")? {
        processed(blocks, number)
    } else if let Some(number) = lines.take_if(alloc, b"absent")? {
        absent(blocks, number)
    } else {
        return Ok(None);
    };
    match anchor {
        Some(anchor) => Ok(Some(anchor)),
        None => Err(lines.refused()),
    }
}

/// Whether each number is below the next.
fn is_rising(numbers: &[u32]) -> bool
    ensures { IsTrue result ↔ IsStrictlyIncreasing numbers.now }
{
    for i in 1..numbers.len() {
        if numbers[i - 1] >= numbers[i] {
            return false;
        }
    }
    true
}

/// The same, by recursion.
fn are_rising(numbers: &[u32]) -> bool
    ensures { result ≡ rises numbers.now }
{
    is_rising(numbers)
}

/// Some rising numbers of blocks.
fn held(blocks: usize, numbers: Indexes) -> Option<Indexes>
    ensures { result ≡ held_from blocks numbers }
{
    let held = numbers.as_slice();
    if held.is_empty() || !are_rising(held) || !are_blocks(blocks, held) {
        None
    } else {
        Some(numbers)
    }
}

/// `held I ..`: the blocks that a life holds, where there is a line of them.
#[tactic(auto, unfolding(crate::specs::Grammar::held_line_at))]
fn read_held(alloc: Global, blocks: usize, lines: &mut Lines<'_>) -> Result<Indexes, Stop>
    ensures reads { ReadsText (held_line_at blocks lines.old.rest.now) result lines.new.rest.now }
    ensures on { OnOk result (length lines.new.rest.now ≤ length lines.old.rest.now) }
{
    let Some(numbers) = lines.take_if(alloc, b"held")? else {
        return Ok(Indexes::new(Vec::new(alloc)));
    };
    match held(blocks, numbers) {
        Some(held) => Ok(held),
        None => Err(lines.refused()),
    }
}

/// `sync PAYLOAD E V I`: the material of a state sync, where there is a line of it.
#[tactic(auto, unfolding(crate::specs::Grammar::sync_at))]
fn read_sync(
    alloc: Global,
    known: &Known<'_>,
    lines: &mut Lines<'_>,
) -> Result<Option<SyncLine>, Stop>
    ensures reads { ReadsText
        (sync_at known.now.addressed (is_some known.now.config.now.oneshot) (length known.now.blocks.now) lines.old.rest.now) result lines.new.rest.now }
    ensures on { OnOk result (length lines.new.rest.now ≤ length lines.old.rest.now) }
{
    let Some((info, epoch, view, block)): Option<(Blob, Epoch, u64, u32)> = lines.take_if(
        alloc, b"sync",
    )?
    else {
        return Ok(None);
    };
    if known.config.oneshot.is_some() {
        return Err(lines.refused());
    }
    if (block as usize) < known.blocks.len() && is_info(alloc, known.addressed, info.as_slice())? {
        Ok(Some(SyncLine {
            info,
            epoch,
            view,
            block,
        }))
    } else {
        Err(lines.refused())
    }
}

/// A cut within the opening or one of so many events.
fn cut(events: usize, line: (u64, u64, u64)) -> Option<Cut>
    ensures { result ≡ cut_from events line }
{
    let (step, call, pick) = line;
    if (events as u64) < step {
        None
    } else {
        Some(Cut { step, call, pick })
    }
}

/// `cut J C P`: where a life is cut, where there is a line of it.
#[tactic(auto, unfolding(crate::specs::Grammar::cut_at))]
fn read_cut(alloc: Global, events: usize, lines: &mut Lines<'_>) -> Result<Option<Cut>, Stop>
    ensures reads { ReadsText (cut_at events lines.old.rest.now) result lines.new.rest.now }
    ensures on { OnOk result (length lines.new.rest.now ≤ length lines.old.rest.now) }
{
    let Some(line) = lines.take_if(alloc, b"cut")? else {
        return Ok(None);
    };
    match cut(events, line) {
        Some(cut) => Ok(Some(cut)),
        None => Err(lines.refused()),
    }
}

/// The lines from `life W` to `stop P`.
#[tactic(auto, unfolding(crate::specs::Grammar::life_lines_at))]
fn read_life(alloc: Global, known: &Known<'_>, lines: &mut Lines<'_>) -> Result<Life, Stop>
    ensures reads { ReadsText (life_lines_at known.now.addressed known.now.config.now known.now.blocks.now lines.old.rest.now) result lines.new.rest.now }
    ensures on { OnOk result (length lines.new.rest.now < length lines.old.rest.now) }
{
    let word = lines.take(alloc, b"life")?;
    let anchor = read_anchor(alloc, known.blocks, lines)?;
    let held = read_held(alloc, known.blocks.len(), lines)?;
    let sync = read_sync(alloc, known, lines)?;
    let around = Around {
        blocks: known.blocks.len(),
        probe: known.config.probe.is_some(),
    };
    let events = read_events(alloc, around, lines)?;
    let cut = read_cut(alloc, events.len(), lines)?;
    let pick = lines.take(alloc, b"stop")?;
    Ok(Life {
        word,
        anchor,
        held,
        sync,
        events,
        cut,
        pick,
    })
}

/// Lives, so long as the next line begins one.
#[tactic(auto, unfolding(crate::specs::Grammar::lives_at))]
pub(crate) fn read_lives(
    alloc: Global,
    known: &Known<'_>,
    lines: &mut Lines<'_>,
) -> Result<Lives, Stop>
    ensures { ReadsText (lives_at known.now.addressed known.now.config.now known.now.blocks.now lines.old.rest.now) result lines.new.rest.now }
{
    let mut lives = Vec::new(alloc);
    'lives: while lines.is_at(b"life") {
        let life = read_life(alloc, known, lines)?;
        lives.push(life)?;
    }
    Ok(Lives::new(lives))
}
