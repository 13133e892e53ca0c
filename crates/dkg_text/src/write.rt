//! The text of a script: each part of it has a function that writes its lines.
//!
//! Whoever has a script as a value writes it so, as the generator does; what is written is read again as that script.
ghost use Rattle.std.specs.Prelude.{◌≡◌, ◌++◌, ◌∷◌, [], IfOk, OnOk, codes};
ghost use Rattle.std.specs.List.{flat_map};
ghost use Rattle.dkg_text.specs.Fields.{bytes_field, number_field};
ghost use Rattle.dkg_text.specs.Writing.{address_fields, address_line, anchor_line, block_line, bytes_or_dash, config_text, cut_line, event_line, event_text, held_line, life_text, limits_text, mode_number, number_or_dash, numbers_fields, oneshot_line, opening_text, players_line, probe_line, provided_text, socket_fields, start_text, sync_line, text_of, text_or_none};

use crate::events::Events;
use crate::payload_bytes::PayloadBytes;
use crate::script::{
    Anchor, BlockLine, Cut, Event, Life, PlayerLine, ProbeLine, Script, ScriptConfig, SyncLine,
};
use crate::text::Text;
use dkg_ceremony::{Blob, Epoch, Key, Mem, Mode, Set};
use dkg_types::{Address, Socket};
use std::alloc::Global;

fn put_numbers(text: &mut Text, numbers: &[u32]) -> Mem<()>
    ensures { OnOk result (text.new ≡ text.old ++ numbers_fields numbers.now) }
{
    for number in numbers {
        text.number(u64::from(*number))?;
    }
    Ok(())
}

fn put_keys(text: &mut Text, keys: &Set) -> Mem<()>
    ensures { OnOk result (text.new ≡ text.old ++ numbers_fields keys.now) }
{
    for key in keys.as_slice() {
        text.number(u64::from(key.0))?;
    }
    Ok(())
}

fn mode(mode: Mode) -> u64
    ensures { result ≡ mode_number mode }
{
    match mode {
        Mode::NonZeroCounter => 0,
        Mode::RootsOfUnity => 1,
    }
}

/// A line of a name and a number.
fn put_one(text: &mut Text, name: &[u8], number: u64) -> Mem<()>
    ensures { OnOk result (text.new ≡ text.old ++ ((name.now ++ number_field number) ++ 10 ∷ [])) }
{
    text.put(name)?;
    text.number(number)?;
    text.put(b"\n")
}

fn put_modes(text: &mut Text, config: &ScriptConfig) -> Mem<()>
    ensures { OnOk result (text.new
        ≡ text.old ++ ((codes "mode" ++ number_field (mode_number config.now.mode) ++ number_field config.now.max_mode.0) ++ 10 ∷ [])) }
{
    text.put(b"mode")?;
    text.number(mode(config.mode))?;
    text.number(u64::from(config.max_mode.0))?;
    text.put(b"\n")
}

fn put_start(text: &mut Text, config: &ScriptConfig) -> Mem<()>
    ensures { OnOk result (text.new ≡ text.old ++ start_text config.now) }
{
    put_one(text, b"dkg", 1)?;
    put_one(text, b"me", u64::from(config.me.0))?;
    put_one(text, b"blocks", config.blocks_per_epoch.get())
}

fn put_space(text: &mut Text, namespace: &Blob) -> Mem<()>
    ensures { OnOk result (text.new ≡ text.old ++ ((codes "space" ++ bytes_field namespace.now) ++ 10 ∷ [])) }
{
    text.put(b"space")?;
    text.bytes(namespace.as_slice())?;
    text.put(b"\n")
}

fn put_limits(text: &mut Text, config: &ScriptConfig) -> Mem<()>
    ensures { OnOk result (text.new ≡ text.old ++ limits_text config.now) }
{
    put_one(text, b"limit", u64::from(config.limit.get()))?;
    put_modes(text, config)?;
    put_space(text, &config.namespace)
}

fn put_opening(text: &mut Text, config: &ScriptConfig) -> Mem<()>
    ensures { OnOk result (text.new ≡ text.old ++ opening_text config.now) }
{
    put_start(text, config)?;
    put_limits(text, config)
}

fn put_oneshot(text: &mut Text, oneshot: &Option<Set>) -> Mem<()>
    ensures { OnOk result (text.new ≡ text.old ++ text_or_none oneshot_line oneshot.now) }
{
    match oneshot {
        Some(participants) => {
            text.put(b"oneshot")?;
            put_keys(text, participants)?;
            text.put(b"\n")
        }
        None => Ok(()),
    }
}

fn put_player_line(text: &mut Text, line: &PlayerLine) -> Mem<()>
    ensures { OnOk result (text.new ≡ text.old ++ players_line line.now) }
{
    text.put(b"players")?;
    text.number(line.epoch.0)?;
    put_keys(text, &line.players)?;
    text.put(b"\n")
}

fn put_players(text: &mut Text, lines: &[PlayerLine]) -> Mem<()>
    ensures { OnOk result (text.new ≡ text.old ++ flat_map players_line lines.now) }
{
    for line in lines {
        put_player_line(text, line)?;
    }
    Ok(())
}

fn put_socket(text: &mut Text, socket: &Socket) -> Mem<()>
    ensures { OnOk result (text.new ≡ text.old ++ socket_fields socket.now) }
{
    text.number(u64::from(socket.ip))?;
    text.number(u64::from(socket.port))
}

fn put_address(text: &mut Text, address: &Address) -> Mem<()>
    ensures { OnOk result (text.new ≡ text.old ++ address_fields address.now) }
{
    match address {
        Address::Symmetric(socket) => put_socket(text, socket),
        Address::Asymmetric { ingress, egress } => {
            put_socket(text, ingress)?;
            put_socket(text, egress)
        }
    }
}

fn put_address_line(text: &mut Text, line: &(Key, Address)) -> Mem<()>
    ensures { OnOk result (text.new ≡ text.old ++ address_line line.now) }
{
    text.put(b"address")?;
    text.number(u64::from(line.0.0))?;
    put_address(text, &line.1)?;
    text.put(b"\n")
}

fn put_addresses(text: &mut Text, lines: &[(Key, Address)]) -> Mem<()>
    ensures { OnOk result (text.new ≡ text.old ++ flat_map address_line lines.now) }
{
    for line in lines {
        put_address_line(text, line)?;
    }
    Ok(())
}

fn put_number_or_dash(text: &mut Text, number: Option<u64>) -> Mem<()>
    ensures { OnOk result (text.new ≡ text.old ++ number_or_dash number) }
{
    match number {
        Some(number) => text.number(number),
        None => text.word(b"-"),
    }
}

fn put_carried(text: &mut Text, carried: &Option<PayloadBytes>) -> Mem<()>
    ensures { OnOk result (text.new ≡ text.old ++ bytes_or_dash carried.now) }
{
    match carried {
        Some(bytes) => bytes.put(text),
        None => text.word(b"-"),
    }
}

fn put_floor(text: &mut Text, floor: Option<Epoch>) -> Mem<()>
    ensures { OnOk result (text.new ≡ text.old ++ number_or_dash floor) }
{
    match floor {
        Some(epoch) => put_number_or_dash(text, Some(epoch.0)),
        None => put_number_or_dash(text, None),
    }
}

fn put_parent(text: &mut Text, parent: Option<u32>) -> Mem<()>
    ensures { OnOk result (text.new ≡ text.old ++ number_or_dash parent) }
{
    match parent {
        Some(number) => put_number_or_dash(text, Some(u64::from(number))),
        None => put_number_or_dash(text, None),
    }
}

fn put_probe_line(text: &mut Text, probe: &ProbeLine) -> Mem<()>
    ensures { OnOk result (text.new ≡ text.old ++ probe_line probe.now) }
{
    text.put(b"probe")?;
    text.number(probe.checkpoint.0)?;
    put_floor(text, probe.floor)?;
    text.bytes(probe.checkpoint_info.as_slice())?;
    text.bytes(probe.genesis_info.as_slice())?;
    text.put(b"\n")
}

fn put_probe(text: &mut Text, probe: &Option<ProbeLine>) -> Mem<()>
    ensures { OnOk result (text.new ≡ text.old ++ text_or_none probe_line probe.now) }
{
    match probe {
        Some(probe) => put_probe_line(text, probe),
        None => Ok(()),
    }
}

fn put_provided(text: &mut Text, config: &ScriptConfig) -> Mem<()>
    ensures { OnOk result (text.new ≡ text.old ++ provided_text config.now) }
{
    put_players(text, config.players.as_slice())?;
    put_addresses(text, config.addresses.as_slice())?;
    put_probe(text, &config.probe)
}

fn put_config(text: &mut Text, config: &ScriptConfig) -> Mem<()>
    ensures { OnOk result (text.new ≡ text.old ++ config_text config.now) }
{
    put_opening(text, config)?;
    put_oneshot(text, &config.oneshot)?;
    put_provided(text, config)
}

fn put_block(text: &mut Text, block: &BlockLine) -> Mem<()>
    ensures { OnOk result (text.new ≡ text.old ++ block_line block.now) }
{
    text.put(b"block")?;
    text.number(block.height.0)?;
    put_parent(text, block.parent)?;
    text.number(block.view)?;
    put_carried(text, &block.payload)?;
    text.put(b"\n")
}

fn put_blocks(text: &mut Text, blocks: &[BlockLine]) -> Mem<()>
    ensures { OnOk result (text.new ≡ text.old ++ flat_map block_line blocks.now) }
{
    for block in blocks {
        put_block(text, block)?;
    }
    Ok(())
}

fn put_anchor(text: &mut Text, anchor: Option<Anchor>) -> Mem<()>
    ensures { OnOk result (text.new ≡ text.old ++ text_or_none anchor_line anchor) }
{
    match anchor {
        Some(Anchor::Processed(number)) => put_one(text, b"processed", u64::from(number)),
        Some(Anchor::Absent(number)) => put_one(text, b"absent", u64::from(number)),
        None => Ok(()),
    }
}

fn put_held(text: &mut Text, held: &[u32]) -> Mem<()>
    ensures { OnOk result (text.new ≡ text.old ++ held_line held.now) }
{
    match held {
        [] => Ok(()),
        [_, ..] => {
            text.put(b"held")?;
            put_numbers(text, held)?;
            text.put(b"\n")
        }
    }
}

fn put_sync_line(text: &mut Text, sync: &SyncLine) -> Mem<()>
    ensures { OnOk result (text.new ≡ text.old ++ sync_line sync.now) }
{
    text.put(b"sync")?;
    text.bytes(sync.info.as_slice())?;
    text.number(sync.epoch.0)?;
    text.number(sync.view)?;
    text.number(u64::from(sync.block))?;
    text.put(b"\n")
}

fn put_sync(text: &mut Text, sync: &Option<SyncLine>) -> Mem<()>
    ensures { OnOk result (text.new ≡ text.old ++ text_or_none sync_line sync.now) }
{
    match sync {
        Some(sync) => put_sync_line(text, sync),
        None => Ok(()),
    }
}

/// A name and a number.
fn put_named(text: &mut Text, name: &[u8], number: u64) -> Mem<()>
    ensures { OnOk result (text.new ≡ text.old ++ (name.now ++ number_field number)) }
{
    text.put(name)?;
    text.number(number)
}

/// A name and two numbers.
fn put_pair(text: &mut Text, name: &[u8], one: u64, other: u64) -> Mem<()>
    ensures { OnOk result (text.new ≡ text.old ++ (name.now ++ number_field one ++ number_field other)) }
{
    text.put(name)?;
    text.number(one)?;
    text.number(other)
}

/// A name, a key and bytes.
fn put_message(text: &mut Text, name: &[u8], from: Key, bytes: &[u8]) -> Mem<()>
    ensures { OnOk result (text.new ≡ text.old ++ (name.now ++ number_field from ++ bytes_field bytes.now)) }
{
    text.put(name)?;
    text.number(u64::from(from.0))?;
    text.bytes(bytes)
}

/// A name and numbers.
fn put_ancestry(text: &mut Text, name: &[u8], ancestry: &[u32]) -> Mem<()>
    ensures { OnOk result (text.new ≡ text.old ++ (name.now ++ numbers_fields ancestry.now)) }
{
    text.put(name)?;
    put_numbers(text, ancestry)
}

fn put_event(text: &mut Text, event: &Event<'_>) -> Mem<()>
    ensures { OnOk result (text.new ≡ text.old ++ event_text event.now) }
{
    match event {
        Event::Peer { from, bytes } => put_message(text, b"peer", *from, bytes.as_slice()),
        Event::Final { block } => put_named(text, b"final", u64::from(*block)),
        Event::Next { request, height } => put_pair(text, b"next", *request, height.0),
        Event::Release { height } => put_named(text, b"release", height.0),
        Event::Info { request } => put_named(text, b"info", *request),
        Event::Feed { request, block } => put_pair(text, b"feed", *request, u64::from(*block)),
        Event::Over { request } => put_named(text, b"over", *request),
        Event::Cancel { request } => put_named(text, b"cancel", *request),
        Event::Work => text.put(b"work"),
        Event::Prepare { ancestry } => put_ancestry(text, b"prepare", ancestry.as_slice()),
        Event::Propose { ancestry } => put_ancestry(text, b"propose", ancestry.as_slice()),
        Event::Verify { ancestry } => put_ancestry(text, b"verify", ancestry.as_slice()),
        Event::Later { from, epoch } => put_pair(text, b"later", u64::from(from.0), epoch.0),
        Event::Subscribe => text.put(b"subscribe"),
        Event::Unsubscribe => text.put(b"unsubscribe"),
        Event::Attach => text.put(b"attach"),
        Event::Reply { from, bytes } => put_message(text, b"reply", *from, bytes.as_slice()),
        Event::Retry => text.put(b"retry"),
    }
}

fn put_event_line(text: &mut Text, event: &Event<'_>) -> Mem<()>
    ensures { OnOk result (text.new ≡ text.old ++ event_line event.now) }
{
    put_event(text, event)?;
    text.put(b"\n")
}

/// The line of an event, without its line feed.
pub fn event_bytes(alloc: Global, event: &Event<'_>) -> Mem<Vec<u8>>
    ensures { IfOk result (λ text. text.items ≡ event_text event.now) }
{
    let mut text = Text::new(alloc);
    put_event(&mut text, event)?;
    Ok(text.into_bytes())
}

fn put_events(text: &mut Text, events: &Events) -> Mem<()>
    ensures { OnOk result (text.new ≡ text.old ++ flat_map event_line events.now) }
{
    for i in 0..events.len() {
        put_event_line(text, &events.at(i))?;
    }
    Ok(())
}

fn put_cut(text: &mut Text, cut: Option<Cut>) -> Mem<()>
    ensures { OnOk result (text.new ≡ text.old ++ text_or_none cut_line cut) }
{
    match cut {
        Some(cut) => {
            put_pair(text, b"cut", cut.step, cut.call)?;
            text.number(cut.pick)?;
            text.put(b"\n")
        }
        None => Ok(()),
    }
}

fn put_life(text: &mut Text, life: &Life) -> Mem<()>
    ensures { OnOk result (text.new ≡ text.old ++ life_text life.now) }
{
    put_one(text, b"life", life.word)?;
    put_anchor(text, life.anchor)?;
    put_held(text, life.held.as_slice())?;
    put_sync(text, &life.sync)?;
    put_events(text, &life.events)?;
    put_cut(text, life.cut)?;
    put_one(text, b"stop", life.pick)
}

fn put_lives(text: &mut Text, lives: &[Life]) -> Mem<()>
    ensures { OnOk result (text.new ≡ text.old ++ flat_map life_text lives.now) }
{
    for life in lives {
        put_life(text, life)?;
    }
    Ok(())
}

/// Writes a script as its text, in time and memory that grow linearly with that.
pub fn script_text(alloc: Global, script: &Script) -> Mem<Vec<u8>>
    ensures { IfOk result (λ text. text.items ≡ text_of script.now) }
{
    let mut text = Text::new(alloc);
    put_config(&mut text, &script.config)?;
    put_blocks(&mut text, script.blocks.as_slice())?;
    put_lives(&mut text, script.lives.as_slice())?;
    text.put(b"end\n")?;
    Ok(text.into_bytes())
}
