//! What may follow a line, by its name.
ghost use Rattle.std.specs.Prelude.{◌≡◌};
ghost use Rattle.dkg_words.specs.Stages.{allows as allows_of, begins_stage as begins_of, from_address as from_address_of, from_block as from_block_of, from_events as from_events_of, from_held as from_held_of, from_players as from_players_of, from_sync as from_sync_of, is_ready_event as is_ready_of, stage_after, stage_words};

use crate::before::Before;
use crate::names::{Name, is_event, is_probing};

/// How far a script is: what may stand next.
#[derive(Clone, Copy, Debug, PartialEq, Eq)]
pub(crate) enum Stage {
    Dkg,
    Me,
    Blocks,
    Limit,
    Mode,
    Space,
    /// Lines of the head that may be missing, from `oneshot` on.
    Oneshot,
    /// From `players` on.
    Players,
    /// From `address` on.
    Address,
    /// From `block` on.
    Block,
    /// A life, or the end.
    Life,
    /// Lines of a life, from its position on.
    Anchor,
    /// From `held` on.
    Held,
    /// From `sync` on.
    Sync,
    /// Events, up to the cut or the stop.
    Events,
    Stop,
    Over,
}

/// What may follow a line of a name; what a script begins with, where there is none.
pub(crate) fn stage_behind(last: Option<Name>) -> Stage
    ensures { result ≡ stage_after last }
{
    match last {
        None => Stage::Dkg,
        Some(Name::Dkg) => Stage::Me,
        Some(Name::Me) => Stage::Blocks,
        Some(Name::Blocks) => Stage::Limit,
        Some(Name::Limit) => Stage::Mode,
        Some(Name::Mode) => Stage::Space,
        Some(Name::Space) => Stage::Oneshot,
        Some(Name::Oneshot | Name::Players) => Stage::Players,
        Some(Name::Address) => Stage::Address,
        Some(Name::Probe | Name::Block) => Stage::Block,
        Some(Name::Stop) => Stage::Life,
        Some(Name::End) => Stage::Over,
        Some(Name::Life) => Stage::Anchor,
        Some(Name::Processed | Name::Absent) => Stage::Held,
        Some(Name::Held) => Stage::Sync,
        Some(Name::Cut) => Stage::Stop,
        Some(_) => Stage::Events,
    }
}

fn from_block(name: Name) -> bool
    ensures { result ≡ from_block_of name }
{
    match name {
        Name::Block | Name::Life | Name::End => true,
        _ => false,
    }
}

fn from_address(name: Name) -> bool
    ensures { result ≡ from_address_of name }
{
    match name {
        Name::Address | Name::Probe => true,
        _ => from_block(name),
    }
}

fn from_players(name: Name) -> bool
    ensures { result ≡ from_players_of name }
{
    match name {
        Name::Players => true,
        _ => from_address(name),
    }
}

/// Whether an event of a name may stand, where there is a `probe` line or none.
pub(crate) fn is_ready(probe: bool, name: Name) -> bool
    ensures { result ≡ is_ready_of probe name }
{
    is_event(name) && (probe || !is_probing(name))
}

fn from_events(probe: bool, name: Name) -> bool
    ensures { result ≡ from_events_of probe name }
{
    match name {
        Name::Cut | Name::Stop => true,
        _ => is_ready(probe, name),
    }
}

/// A `sync` line stands in reshare mode alone.
fn from_sync(before: &Before, name: Name) -> bool
    ensures { result ≡ from_sync_of before.now name }
{
    match name {
        Name::Sync => !before.oneshot,
        _ => from_events(before.probe, name),
    }
}

fn from_held(before: &Before, name: Name) -> bool
    ensures { result ≡ from_held_of before.now name }
{
    match name {
        Name::Held => true,
        _ => from_sync(before, name),
    }
}

/// Whether a name is the one that stands first at a stage.
fn begins(stage: Stage, name: Name) -> bool
    ensures { result ≡ begins_of stage name }
{
    match (stage, name) {
        (Stage::Dkg, Name::Dkg)
        | (Stage::Me, Name::Me)
        | (Stage::Blocks, Name::Blocks)
        | (Stage::Limit, Name::Limit)
        | (Stage::Mode, Name::Mode)
        | (Stage::Space, Name::Space)
        | (Stage::Oneshot, Name::Oneshot)
        | (Stage::Life, Name::Life)
        | (Stage::Life, Name::End)
        | (Stage::Anchor, Name::Processed)
        | (Stage::Anchor, Name::Absent)
        | (Stage::Stop, Name::Stop) => true,
        _ => false,
    }
}

/// Whether a line of a name may follow the lines before it.
pub(crate) fn allows(before: &Before, name: Name) -> bool
    ensures { result ≡ allows_of before.now name }
{
    let stage = stage_behind(before.last);
    match stage {
        Stage::Oneshot => begins(stage, name) || from_players(name),
        Stage::Players => from_players(name),
        Stage::Address => from_address(name),
        Stage::Block => from_block(name),
        Stage::Anchor => begins(stage, name) || from_held(before, name),
        Stage::Held => from_held(before, name),
        Stage::Sync => from_sync(before, name),
        Stage::Events => from_events(before.probe, name),
        _ => begins(stage, name),
    }
}

/// The names of the lines that may follow, as they are told. Events are one of them.
pub(crate) fn words(stage: Stage, oneshot: bool) -> &'static [u8]
    ensures { result.now ≡ stage_words stage oneshot }
{
    match (stage, oneshot) {
        (Stage::Dkg, _) => b"dkg 1",
        (Stage::Me, _) => b"me",
        (Stage::Blocks, _) => b"blocks",
        (Stage::Limit, _) => b"limit",
        (Stage::Mode, _) => b"mode",
        (Stage::Space, _) => b"space",
        (Stage::Oneshot, _) => b"oneshot, players, address, probe, block, life or end",
        (Stage::Players, _) => b"players, address, probe, block, life or end",
        (Stage::Address, _) => b"address, probe, block, life or end",
        (Stage::Block, _) => b"block, life or end",
        (Stage::Life, _) => b"life or end",
        (Stage::Anchor, false) => b"processed, absent, held, sync, peer, final, .., cut or stop",
        (Stage::Anchor, true) => b"processed, absent, held, peer, final, .., cut or stop",
        (Stage::Held, false) => b"held, sync, peer, final, .., cut or stop",
        (Stage::Held, true) => b"held, peer, final, .., cut or stop",
        (Stage::Sync, false) => b"sync, peer, final, .., cut or stop",
        (Stage::Sync, true) => b"peer, final, .., cut or stop",
        (Stage::Events, _) => b"peer, final, .., cut or stop",
        (Stage::Stop, _) => b"stop",
        (Stage::Over, _) => b"nothing behind end",
    }
}
