//! The lines of a script's configuration, from the version to the probe.
ghost use Rattle.std.specs.Prelude.{◌≡◌, ◌+◌, ◌<◌, ◌^◌, IfOk, IfSome, IsTrue, codes, length, map};
ghost use Rattle.std.specs.List.Sorted.{IsStrictlyIncreasing};
ghost use Rattle.dkg_values.specs.Rising.{keys_of};
ghost use Rattle.dkg_reading.specs.Grammar.{address_line_at, config_at, is_above, limit_from, opening_at, players_line_at, probe_at};
ghost use Rattle.dkg_reading.specs.Lines.{ReadsText, ReadsTextBy, ReadsIf, begins, line_at, many_lines_at, maybe_at};
ghost use Rattle.dkg_reading.specs.Positive.{positive_32, positive_64};
ghost use Rattle.dkg_reading.specs.Rows.{set_row};

use crate::lines::Lines;
use crate::stop::Stop;
use dkg_ceremony::{Blob, Epoch, Key, Map, Mode, ModeVersion, Set};
use dkg_text::{MOST_PARTICIPANTS, PlayerLine, PlayerLines, ProbeLine, ScriptConfig, is_info};
use dkg_types::Address;
use std::alloc::Global;
use std::num::{NonZeroU32, NonZeroU64};

fn positive_u32(number: u32) -> Option<NonZeroU32>
    ensures { result ≡ positive_32 number }
{
    NonZeroU32::new(number)
}

fn positive_u64(number: u64) -> Option<NonZeroU64>
    ensures { result ≡ positive_64 number }
{
    NonZeroU64::new(number)
}

/// A limit of participants, where it is one.
fn limit(number: u32) -> Option<NonZeroU32>
    ensures { result ≡ limit_from number }
{
    if MOST_PARTICIPANTS < number {
        None
    } else {
        positive_u32(number)
    }
}

/// The lines that every script has: the version, the node's key, the blocks per epoch, the limit, the modes and the namespace.
#[derive(Drop)]
struct Opening {
    me: Key,
    blocks_per_epoch: NonZeroU64,
    limit: NonZeroU32,
    modes: (Mode, ModeVersion),
    namespace: Blob,
}

/// `dkg 1`, `me K`, `blocks N`, `limit M`, `mode A B` and `space HEX`.
#[tactic(auto, unfolding(crate::specs::Grammar::opening_at))]
fn read_opening(alloc: Global, lines: &mut Lines<'_>) -> Result<Opening, Stop>
    ensures { ReadsText (opening_at lines.old.rest.now) result lines.new.rest.now }
{
    let version: u64 = lines.take(alloc, b"dkg")?;
    if version != 1 {
        return Err(lines.refused());
    }
    let me = lines.take(alloc, b"me")?;
    let blocks: u64 = lines.take(alloc, b"blocks")?;
    let Some(blocks_per_epoch) = positive_u64(blocks) else {
        return Err(lines.refused());
    };
    let number: u32 = lines.take(alloc, b"limit")?;
    let Some(limit) = limit(number) else {
        return Err(lines.refused());
    };
    let modes = lines.take(alloc, b"mode")?;
    let namespace = lines.take(alloc, b"space")?;
    Ok(Opening {
        me,
        blocks_per_epoch,
        limit,
        modes,
        namespace,
    })
}

/// `oneshot K ..`: the participants of one-shot mode, keys rising, where there is a line of them.
fn read_oneshot(alloc: Global, lines: &mut Lines<'_>) -> Result<Option<Set>, Stop>
    ensures { ReadsText (maybe_at (codes "oneshot") (line_at (codes "oneshot") set_row) lines.old.rest.now) result lines.new.rest.now }
{
    lines.take_if(alloc, b"oneshot")
}

/// Whether an epoch is above the last one of some lines.
fn is_above_players(done: &[PlayerLine], epoch: Epoch) -> bool
    ensures { result ≡ is_above (map (λ l. l.epoch) done.now) epoch }
{
    match done.last() {
        Some(last) => last.epoch < epoch,
        None => true,
    }
}

/// `players E K ..`: an epoch's players, keys rising, after those of lower epochs, where there is a line of them.
#[tactic(auto, unfolding(crate::specs::Grammar::players_line_at))]
fn read_players_after(
    alloc: Global,
    done: &[PlayerLine],
    lines: &mut Lines<'_>,
) -> Result<Option<PlayerLine>, Stop>
    ensures reads { ReadsIf (begins (codes "players")) (players_line_at done.now) lines.old.rest.now result lines.new.rest.now }
    ensures on { IfOk result (λ made. IfSome made (λ _. length lines.new.rest.now < length lines.old.rest.now)) }
{
    let Some((epoch, players)) = lines.take_if(alloc, b"players")? else {
        return Ok(None);
    };
    if is_above_players(done, epoch) {
        Ok(Some(PlayerLine { epoch, players }))
    } else {
        Err(lines.refused())
    }
}

/// The provider's players, epochs rising.
fn read_players(alloc: Global, lines: &mut Lines<'_>) -> Result<PlayerLines, Stop>
    ensures { ReadsText (many_lines_at (begins (codes "players")) players_line_at lines.old.rest.now) result lines.new.rest.now }
{
    let mut players = Vec::new(alloc);
    'players: while let Some(line) = read_players_after(alloc, &players, lines)? {
        players.push(line)?;
    }
    Ok(PlayerLines::new(players))
}

/// Whether a key is above the last one of some pairs.
fn is_above_keys(done: &[(Key, Address)], key: Key) -> bool
    ensures { result ≡ is_above (keys_of done.now) key }
{
    match done.last() {
        Some(last) => last.0 < key,
        None => true,
    }
}

/// `address K IP PORT` or `address K IP PORT IP PORT`: where a key is reached, after those of lower keys, where there is a line of it.
#[tactic(auto, unfolding(crate::specs::Grammar::address_line_at))]
fn read_address_after(
    alloc: Global,
    done: &[(Key, Address)],
    lines: &mut Lines<'_>,
) -> Result<Option<(Key, Address)>, Stop>
    ensures reads { ReadsIf (begins (codes "address")) (address_line_at done.now) lines.old.rest.now result lines.new.rest.now }
    ensures on { IfOk result (λ made. IfSome made (λ _. length lines.new.rest.now < length lines.old.rest.now)) }
    ensures above { IfOk result (λ made. IfSome made (λ line. IsTrue (is_above (keys_of done.now) line.0))) }
    ensures in_bound { IfOk result (λ made. IfSome made (λ _. length done.now + 1 < 2 ^ 32)) }
{
    let Some((key, address)) = lines.take_if(alloc, b"address")? else {
        return Ok(None);
    };
    if is_above_keys(done, key) && done.len() < u32::MAX as usize {
        Ok(Some((key, address)))
    } else {
        Err(lines.refused())
    }
}

fn read_address_pairs(alloc: Global, lines: &mut Lines<'_>) -> Result<Vec<(Key, Address)>, Stop>
    ensures reads { ReadsTextBy (λ pairs. pairs.items) (many_lines_at (begins (codes "address")) address_line_at lines.old.rest.now) result lines.new.rest.now }
    ensures rising { IfOk result (λ pairs. IsStrictlyIncreasing (keys_of pairs.items)) }
    ensures in_bound { IfOk result (λ pairs. length pairs.items < 2 ^ 32) }
{
    let mut pairs = Vec::new(alloc);
    'pairs: while let Some(pair) = read_address_after(alloc, &pairs, lines)? {
        pairs.push(pair)?;
    }
    Ok(pairs)
}

/// The provider's addresses, keys rising.
fn read_addresses(alloc: Global, lines: &mut Lines<'_>) -> Result<Map<Address>, Stop>
    ensures { ReadsText (many_lines_at (begins (codes "address")) address_line_at lines.old.rest.now) result lines.new.rest.now }
{
    let pairs = read_address_pairs(alloc, lines)?;
    Ok(Map::from_sorted(pairs).unwrap())
}

/// `probe E F PAYLOAD PAYLOAD`: where the probe begins, where there is a line of it; the floor F may be a dash.
#[tactic(auto, unfolding(crate::specs::Grammar::probe_at))]
fn read_probe(
    alloc: Global,
    addressed: bool,
    lines: &mut Lines<'_>,
) -> Result<Option<ProbeLine>, Stop>
    ensures { ReadsText (maybe_at (codes "probe") (probe_at addressed) lines.old.rest.now) result lines.new.rest.now }
{
    let Some((checkpoint, floor, checkpoint_info, genesis_info)): Option<
        (Epoch, Option<Epoch>, Blob, Blob),
    > = lines.take_if(alloc, b"probe")?
    else {
        return Ok(None);
    };
    if is_info(alloc, addressed, checkpoint_info.as_slice())?
        && is_info(alloc, addressed, genesis_info.as_slice())?
    {
        Ok(Some(ProbeLine {
            checkpoint,
            floor,
            checkpoint_info,
            genesis_info,
        }))
    } else {
        Err(lines.refused())
    }
}

/// The lines from `dkg` to `probe`.
#[tactic(auto, unfolding(crate::specs::Grammar::config_at))]
pub(crate) fn read_config(
    alloc: Global,
    addressed: bool,
    lines: &mut Lines<'_>,
) -> Result<ScriptConfig, Stop>
    ensures { ReadsText (config_at addressed lines.old.rest.now) result lines.new.rest.now }
{
    let opening = read_opening(alloc, lines)?;
    let oneshot = read_oneshot(alloc, lines)?;
    let players = read_players(alloc, lines)?;
    let addresses = read_addresses(alloc, lines)?;
    let probe = read_probe(alloc, addressed, lines)?;
    Ok(ScriptConfig {
        me: opening.me,
        blocks_per_epoch: opening.blocks_per_epoch,
        limit: opening.limit,
        mode: opening.modes.0,
        max_mode: opening.modes.1,
        namespace: opening.namespace,
        oneshot,
        players,
        addresses,
        probe,
    })
}
