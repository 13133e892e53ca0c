//! The reading of a script's text, line by line; the program calls it on the bytes that it was given.
ghost use Rattle.std.specs.Prelude.{◌≡◌, length};
ghost use Rattle.dkg_reading.specs.Grammar.{AnswersScript, end_at, reading_of, script_or_place};
ghost use Rattle.dkg_reading.specs.Laws.{TellsPlace};
ghost use Rattle.dkg_reading.specs.Lines.{ReadsAll};

use crate::block_lines::read_blocks;
use crate::config_lines::read_config;
use crate::error::ScriptError;
use crate::life_lines::{Known, read_lives};
use crate::lines::Lines;
use crate::stop::Stop;
use dkg_text::Script;
use std::alloc::Global;

/// Reads the last line, after which no byte is left.
#[tactic(auto, unfolding(crate::specs::Grammar::end_at))]
fn read_end(alloc: Global, lines: &mut Lines<'_>) -> Result<(), Stop>
    ensures { ReadsAll (end_at lines.old.rest.now) result }
{
    lines.take::<()>(alloc, b"end")?;
    match lines.rest {
        [] => Ok(()),
        [_, ..] => Err(Stop::Line(lines.rest.len())),
    }
}

#[tactic(auto, unfolding(crate::specs::Grammar::reading_of))]
fn read_lines(alloc: Global, addressed: bool, lines: &mut Lines<'_>) -> Result<Script, Stop>
    ensures { ReadsAll (reading_of addressed lines.old.rest.now) result }
{
    let config = read_config(alloc, addressed, lines)?;
    let blocks = read_blocks(alloc, addressed, &config, lines)?;
    let known = Known {
        addressed,
        config: &config,
        blocks: blocks.as_slice(),
    };
    let lives = read_lives(alloc, &known, lines)?;
    read_end(alloc, lines)?;
    Ok(Script {
        addressed,
        config,
        blocks,
        lives,
    })
}

/// Reads a script; `addressed` says that directories in it hold addresses.
///
/// The time and the memory grow linearly with the text.
///
/// # Errors
///
/// `Bad` names the first line that no script has after the lines before it.
#[tactic(auto, unfolding(crate::specs::Grammar::script_or_place))]
pub fn read_script(alloc: Global, bytes: &[u8], addressed: bool) -> Result<Script, ScriptError>
    ensures reads { AnswersScript (script_or_place addressed bytes.now) result }
    // Some script's text begins with the lines before the place that is told, and none's goes on with the line there.
    ensures place { TellsPlace addressed bytes.now result }
{
    let mut lines = Lines::new(bytes);
    match read_lines(alloc, addressed, &mut lines) {
        Ok(script) => Ok(script),
        Err(Stop::Line(left)) => Err(ScriptError::Bad {
            place: bytes.len().saturating_sub(left) as u64,
        }),
        Err(Stop::NoMemory) => Err(ScriptError::NoMemory),
    }
}
