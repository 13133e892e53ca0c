//! A transcript that is written in more than one piece.

use crate::statuses::ends_as;
use crate::texts::{SET_UP, script};
use itoa::Buffer;
use std::alloc::Global;
use std::test::Fail;

/// A script of so many lives, which have no events.
fn lives(alloc: Global, count: usize) -> Result<String, Fail> {
    let lives = "life 9\nheld 0\nstop 0\n".repeat(alloc, count)?;
    script(alloc, lives.as_str())
}

/// The lines of the life of this number.
fn put_life(lines: &mut String, number: usize) -> Result<(), Fail> {
    let mut buffer = Buffer::new();
    lines.push_str("opened ")?;
    lines.push_str(buffer.format(number))?;
    lines.push_str(" 0\n")?;
    Ok(lines.push_str(SET_UP)?)
}

/// What they tell.
fn lines_of_lives(alloc: Global, count: usize) -> Result<String, Fail> {
    let mut lines = String::new(alloc);
    for number in 0..count {
        put_life(&mut lines, number)?;
    }
    lines.push_str("done\n")?;
    Ok(lines)
}

/// Fails where a sink that fails at its second piece doesn't hold the first, or one that takes both doesn't hold all the lines.
fn holds_front(alloc: Global, script: &str, lines: &str) -> Result<(), Fail> {
    // A piece has 65,536 bytes at most.
    let piece = lines.get(..65_536).ok_or("less than a piece")?;
    ends_as(alloc, script, ("run", 0, 2, 8, piece))?;
    ends_as(alloc, script, ("run", 0, 3, 0, lines))
}

#[test]
fn a_sink_keeps_the_piece_before_its_failure(rt: HostRuntime) -> Result<(), Fail> {
    let alloc = rt.alloc();
    // So many lives tell more than a piece, and less than two.
    let script = lives(alloc, 800)?;
    let lines = lines_of_lives(alloc, 800)?;
    holds_front(alloc, script.as_str(), lines.as_str())
}
