//! Scripts and the lines that they come to, as texts.

use std::alloc::Global;
use std::test::Fail;

/// A script's lines before its first block.
pub const HEAD: &str = "dkg 1\nme 1\nblocks 8\nlimit 4\nmode 0 0\nspace -\n";

/// The polynomial of epoch 0's output, 5 + x + 2x².
pub const POLYNOMIAL: &str = "03000500010002";

/// The keys 1 to 4, which share it.
pub const KEYS: &str = "0400000001000000020000000300000004";

/// Key 2's dealing to key 1: 15 + 7x + x², whose value at key 1's point is 23.
pub const DEALING: &str = "peer 2 0003000f000700010017\n";

/// The lines of the step that records it.
pub const ANSWERED: &str = "recorded 0 2 03000f00070001 0017\nack 0 2 134884486f937d35\nstep 1\n";

/// The line of an opening that restores it.
pub const RESTORED: &str = "restored 0 2 03000f00070001 0017\n";

/// The lines of an opening behind those.
pub const SET_UP: &str =
    "committed 0 -\nregistered 0 member\nsetup 0 early player\nentered 0\nstep 0\n";

/// These pieces, one behind another.
pub fn text(alloc: Global, pieces: &[&str]) -> Result<String, Fail> {
    Ok(pieces.join(alloc, "")?)
}

/// A script with these lines behind its first block.
pub fn script(alloc: Global, rest: &str) -> Result<String, Fail> {
    let info = "block 0 - 0 01000000000000000000000004";
    text(
        alloc,
        &[
            HEAD, info, POLYNOMIAL, KEYS, KEYS, "00", KEYS, KEYS, "\n", rest, "end\n",
        ],
    )
}

/// A script of one life with these events, each line ended.
pub fn life(alloc: Global, events: &str) -> Result<String, Fail> {
    let lines = text(alloc, &["life 9\nheld 0\n", events, "stop 0\n"])?;
    script(alloc, lines.as_str())
}
