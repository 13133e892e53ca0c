//! Whether a script is of the form that is run so far: the program runs no other, and says so.
ghost use Rattle.std.specs.Bool.{OnFalse, OnTrue};
ghost use Rattle.std.specs.Prelude.{◌≡◌, ◌<◌, ◌^◌, IfOk, length};
ghost use Rattle.std.specs.Int.NonZero.{non_zero_u64_get};
ghost use Rattle.dkg_script.specs.InForm.{IsOfText, IsToldNothing, are_events as are_events_of, are_lives as are_lives_of, is_alone as is_alone_of, is_in_form as is_in_form_of, is_event_in_form as is_event_of, is_key as is_key_of, is_life as is_life_of, is_limit as is_limit_of, is_plain as is_plain_of};
ghost use Rattle.dkg_script.specs.Inclusion.{IsFormOfInclusion};

use dkg_ceremony::Mem;
use dkg_text::{BlockLine, Event, Events, Life, Script, ScriptConfig};
use std::alloc::Global;

/// A reshare whose node is told nothing but the script's blocks and the participants that are to come.
fn is_alone(config: &ScriptConfig) -> bool
    ensures { result ≡ is_alone_of config.now }
{
    !config.oneshot.is_some() && config.addresses.is_empty() && !config.probe.is_some()
}

fn is_limit(config: &ScriptConfig) -> bool
    ensures { result ≡ is_limit_of config.now }
{
    config.limit.get() <= 1 << 30
}

/// A key, which has 32 bits: any is one.
fn is_key(_key: u32) -> bool
    ensures { result ≡ is_key_of _key }
{
    true
}

fn is_plain(config: &ScriptConfig) -> bool
    ensures { result ≡ is_plain_of config.now }
{
    is_alone(config) && is_limit(config) && is_key(config.me.0)
}

/// A message of the dealing channel, a block, a request for a log or its release, or a message of a final block's request.
fn is_event(blocks: &[BlockLine], event: &Event<'_>) -> bool
    ensures { result ≡ is_event_of (length blocks.now) event.now }
{
    match event {
        Event::Peer { from, .. } => is_key(from.0),
        Event::Final { block } | Event::Feed { block, .. } => (*block as usize) < blocks.len(),
        Event::Next { .. } | Event::Release { .. } => true,
        Event::Info { .. } | Event::Over { .. } | Event::Cancel { .. } | Event::Work => true,
        _ => false,
    }
}

fn are_events(blocks: &[BlockLine], events: &Events) -> bool
    ensures { result ≡ are_events_of (length blocks.now) events.now }
{
    for i in 0..events.len() {
        if !is_event(blocks, &events.at(i)) {
            return false;
        }
    }
    true
}

/// A life without material.
fn is_life(blocks: &[BlockLine], life: &Life) -> bool
    ensures { result ≡ is_life_of (length blocks.now) life.now }
{
    !life.sync.is_some() && are_events(blocks, &life.events)
}

fn are_lives(blocks: &[BlockLine], lives: &[Life]) -> bool
    ensures { result ≡ are_lives_of (length blocks.now) lives.now }
{
    for life in lives {
        if !is_life(blocks, life) {
            return false;
        }
    }
    true
}

#[tactic(auto, unfolding(crate::specs::InForm::is_in_form))]
fn passes(script: &Script) -> bool
    ensures exact { result ≡ is_in_form_of script.now }
    ensures short { non_zero_u64_get script.now.config.blocks_per_epoch < 2 ^ 64 }
{
    let _blocks_per_epoch = script.config.blocks_per_epoch.get();
    !script.addressed
        && is_plain(&script.config)
        && are_lives(script.blocks.as_slice(), script.lives.as_slice())
}

/// Whether a script is of the form that is run so far.
///
/// The time grows linearly with the script.
pub fn is_in_form(_alloc: Global, script: &Script) -> Mem<bool>
    ensures exact { IfOk result (λ yes. yes ≡ is_in_form_of script.now) }
    // What it asks of a script of a text is the form's.
    ensures form { IfOk result (λ yes. OnTrue yes (IsOfText script.now → IsFormOfInclusion script.now)) }
    // .. and nothing else, where the node is told nothing besides.
    ensures refused { IfOk result (λ yes. OnFalse yes (IsFormOfInclusion script.now → IsToldNothing script.now.config → ⊥)) }
{
    Ok(passes(script))
}
