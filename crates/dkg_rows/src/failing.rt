//! A run through three epochs over devices of which one call fails, whichever it is, and the next life over what it left.
//!
//! No opening reads a plan, and the newest share below an epoch is asked for in one call.

use crate::runs::runs_to;
use crate::texts::{DEALING, KEYS, POLYNOMIAL, SET_UP, text};
use dkg_journal::{Disk, MemoryDisk};
use dkg_store::{MemorySecrets, SecretStore};
use std::alloc::Global;
use std::test::Fail;

/// A script's lines before its first block, in epochs of two blocks.
const HEAD: &str =
    "dkg 1\nme 1\nblocks 2\nlimit 4\nmode 0 0\nspace -\nplayers 2 1 2 3 4\nplayers 3 1 2 3 4\n";

/// What stands behind the epoch in each block's info.
const REST: [&str; 7] = [
    "00000000000000000004",
    POLYNOMIAL,
    KEYS,
    KEYS,
    "00",
    KEYS,
    KEYS,
];

/// Two lives: the first hears a dealing in each of two epochs and comes into the third, in which the second begins.
const LIVES: [&str; 5] = [
    "life 9\nheld 0\n",
    DEALING,
    "final 0\nfinal 1\n",
    DEALING,
    "final 2\nfinal 3\nstop 0\nlife 9\nprocessed 3\nheld 3\nstop 0\n",
];

/// What they tell where no call fails.
const LINES: [&str; 36] = [
    "opened 0 0\n",
    "committed 0 -\n",
    "registered 0 member\n",
    "setup 0 early player\n",
    "entered 0\n",
    "step 0\n",
    "recorded 0 2 03000f00070001 0017\n",
    "ack 0 2 134884486f937d35\n",
    "step 1\n",
    "acked 0\n",
    "step 2\n",
    "committed 1 -\n",
    "registered 1 member\n",
    "setup 1 early player\n",
    "entered 1\n",
    "acked 1\n",
    "step 3\n",
    "recorded 1 2 03000f00070001 0017\n",
    "ack 1 2 90f518a488f471aa\n",
    "step 4\n",
    "acked 2\n",
    "step 5\n",
    "committed 2 -\n",
    "registered 2 member\n",
    "setup 2 early player\n",
    "entered 2\n",
    "acked 3\n",
    "step 6\n",
    "opened 1 1\n",
    "restored 1 2 03000f00070001 0017\n",
    "committed 2 -\n",
    "registered 2 member\n",
    "setup 2 early player\n",
    "entered 2\n",
    "step 0\n",
    "done\n",
];

/// What an opening restores: nothing, the dealing of epoch 0, those of both epochs, or that of epoch 1.
const NONE: &str = "opened 0 0\n";

const FIRST: &str = "opened 0 1\nrestored 0 2 03000f00070001 0017\n";

const BOTH: &str =
    "opened 0 2\nrestored 0 2 03000f00070001 0017\nrestored 1 2 03000f00070001 0017\n";

const SECOND: &str = "opened 0 1\nrestored 1 2 03000f00070001 0017\n";

/// A life that begins before any block was acknowledged, or behind a block that was, and what its opening tells behind that.
const AT_GENESIS: (&str, &str) = ("held 0\n", SET_UP);

const BEHIND_0: (&str, &str) = (
    "processed 0\nheld 0\n",
    "committed 0 -\nregistered 0 member\nsetup 0 midpoint player\nentered 0\nstep 0\n",
);

const BEHIND_1: (&str, &str) = (
    "processed 1\nheld 1\n",
    "committed 1 -\nregistered 1 member\nsetup 1 early player\nentered 1\nstep 0\n",
);

const BEHIND_2: (&str, &str) = (
    "processed 2\nheld 1 2\n",
    "committed 1 -\nregistered 1 member\nsetup 1 midpoint player\nentered 1\nstep 0\n",
);

const BEHIND_3: (&str, &str) = (
    "processed 3\nheld 3\n",
    "committed 2 -\nregistered 2 member\nsetup 2 early player\nentered 2\nstep 0\n",
);

/// Of which calls one fails, from the first to the last; how many lines stand before the fault; what the next life restores where the crash keeps what
/// wasn't synced, and where it spoils that; and where that life begins.
type Failing = (
    u64,
    u64,
    usize,
    &'static str,
    &'static str,
    (&'static str, &'static str),
);

/// The calls of the disk.
const DISK: [Failing; 7] = [
    (1, 2, 0, NONE, NONE, AT_GENESIS),
    (3, 6, 6, NONE, NONE, AT_GENESIS),
    // The gate is written, and its sync fails.
    (7, 7, 6, FIRST, NONE, AT_GENESIS),
    (8, 11, 17, FIRST, FIRST, BEHIND_1),
    (12, 12, 17, BOTH, FIRST, BEHIND_1),
    (13, 13, 24, BOTH, BOTH, BEHIND_2),
    (14, 16, 28, SECOND, SECOND, BEHIND_3),
];

/// Those of the secrets.
const SECRETS: [Failing; 12] = [
    (1, 3, 1, NONE, NONE, AT_GENESIS),
    (4, 4, 3, NONE, NONE, AT_GENESIS),
    (5, 5, 6, NONE, NONE, AT_GENESIS),
    (6, 8, 11, FIRST, FIRST, BEHIND_0),
    (9, 12, 13, FIRST, FIRST, BEHIND_0),
    (13, 13, 17, FIRST, FIRST, BEHIND_1),
    (14, 16, 22, BOTH, BOTH, BEHIND_2),
    (17, 19, 24, BOTH, BOTH, BEHIND_2),
    // Epoch 0's segment is removed, and the prune of the secrets fails.
    (20, 20, 24, SECOND, SECOND, BEHIND_2),
    (21, 21, 28, SECOND, SECOND, BEHIND_3),
    (22, 25, 30, SECOND, SECOND, BEHIND_3),
    (26, 26, 32, SECOND, SECOND, BEHIND_3),
];

/// A script of these lives over the blocks of three epochs.
fn script_of(alloc: Global, lives: &[&str]) -> Result<String, Fail> {
    let rest = text(alloc, &REST)?;
    let lives = text(alloc, lives)?;
    let blocks = [
        HEAD,
        "block 0 - 0 010000",
        rest.as_str(),
        "\nblock 1 0 0 010101",
        rest.as_str(),
        "\nblock 2 1 0 -\nblock 3 2 0 010102",
        rest.as_str(),
        "\n",
        lives.as_str(),
        "end\n",
    ];
    text(alloc, &blocks)
}

/// Fails where these lives don't end with this status over these devices, or tell other lines than these in a row.
fn lives_to<D: Disk, X: SecretStore>(
    alloc: Global,
    lives: &[&str],
    disk: &mut D,
    secrets: &mut X,
    status: u8,
    lines: &[&str],
) -> Result<(), Fail> {
    let script = script_of(alloc, lives)?;
    let lines = text(alloc, lines)?;
    runs_to(
        alloc,
        script.as_str(),
        disk,
        secrets,
        status,
        lines.as_str(),
    )
}

/// Fails where the two lives don't end by this fault behind so many of their lines.
fn ends_early<D: Disk, X: SecretStore>(
    alloc: Global,
    count: usize,
    fault: &str,
    disk: &mut D,
    secrets: &mut X,
) -> Result<(), Fail> {
    let front = text(alloc, LINES.get(..count).ok_or("no front")?)?;
    lives_to(alloc, &LIVES, disk, secrets, 5, &[front.as_str(), fault])
}

/// Fails where a run over devices one of whose calls fails, or the next life behind a crash with this pick, isn't as its row says.
fn keeps<D: Disk, X: SecretStore>(
    alloc: Global,
    row: Failing,
    fault: &str,
    pick: u64,
    disk: &mut D,
    secrets: &mut X,
) -> Result<(), Fail> {
    let (_, _, count, kept, spoilt, (held, opening)) = row;
    ends_early(alloc, count, fault, disk, secrets)?;
    disk.crash(pick);
    secrets.crash(pick);
    let left = if pick == 0 { kept } else { spoilt };
    let life = ["life 9\n", held, "stop 0\n"];
    lives_to(alloc, &life, disk, secrets, 0, &[left, opening, "done\n"])
}

/// The same, where this call of the disk fails.
fn keeps_by_disk(alloc: Global, row: Failing, call: u64, pick: u64) -> Result<(), Fail> {
    let mut disk = MemoryDisk::failing(alloc, vec![in alloc; call]?);
    let mut secrets = MemorySecrets::new(alloc);
    keeps(alloc, row, "fault 2\n", pick, &mut disk, &mut secrets)
}

/// .. and where this call of the secrets fails.
fn keeps_by_secrets(alloc: Global, row: Failing, call: u64, pick: u64) -> Result<(), Fail> {
    let mut disk = MemoryDisk::new(alloc);
    let mut secrets = MemorySecrets::failing(alloc, vec![in alloc; call]?);
    keeps(alloc, row, "fault 3\n", pick, &mut disk, &mut secrets)
}

#[test]
fn what_was_acknowledged_outlives_a_disk_that_fails(rt: HostRuntime) -> Result<(), Fail> {
    let alloc = rt.alloc();
    for row in DISK {
        for call in row.0..=row.1 {
            keeps_by_disk(alloc, row, call, 0)?;
            keeps_by_disk(alloc, row, call, 3)?;
        }
    }
    Ok(())
}

#[test]
fn what_was_acknowledged_outlives_secrets_that_fail(rt: HostRuntime) -> Result<(), Fail> {
    let alloc = rt.alloc();
    for row in SECRETS {
        for call in row.0..=row.1 {
            keeps_by_secrets(alloc, row, call, 0)?;
            keeps_by_secrets(alloc, row, call, 3)?;
        }
    }
    Ok(())
}

#[test]
fn no_other_call_is_made(rt: HostRuntime) -> Result<(), Fail> {
    let alloc = rt.alloc();
    let mut disk = MemoryDisk::failing(alloc, vec![in alloc; 17]?);
    let mut secrets = MemorySecrets::failing(alloc, vec![in alloc; 27]?);
    lives_to(alloc, &LIVES, &mut disk, &mut secrets, 0, &LINES)
}
