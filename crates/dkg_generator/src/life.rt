//! The node's lives: what is delivered to it, and what it begins with.
ghost use Rattle.std.specs.Prelude.{◌≡◌, ◌<◌, ◌≤◌, ◌-◌, ◌++◌, map, vec_len, IfOk, OnOk};
ghost use Rattle.dkg_generator.specs.Made.{after_block as after_block_of, anchor_of, events_with, held_of, life_with, peer_of, info_request_events};

use crate::plan::Plan;
use dkg_ceremony::{Blob, Height, Key, Mem};
use dkg_text::{Anchor, Event, Events, Indexes, Life, MessageBytes};
use std::alloc::Global;

/// Messages reach the node.
fn put_peers(events: &mut Events, sent: &[(Key, Blob)]) -> Mem<()>
    ensures { OnOk result (events.new ≡ events.old ++ map peer_of sent.now) }
{
    for message in sent {
        events.push(&Event::Peer {
            from: message.0,
            bytes: MessageBytes::lent(message.1.as_slice()),
        })?;
    }
    Ok(())
}

/// The request for what the last block has to carry, which is fed the block below it.
fn put_request(events: &mut Events, epoch: u64) -> Mem<()>
    requires { epoch < 5 }
    ensures { OnOk result (events.new ≡ events.old ++ info_request_events epoch) }
{
    let request = 2 * epoch + 1;
    events.push(&Event::Info { request })?;
    events.push(&Event::Feed {
        request,
        block: (epoch * 64 + 62) as u32,
    })?;
    events.push(&Event::Work)
}

/// What follows the delivery of the block at an index of an epoch.
fn put_after(events: &mut Events, plan: &Plan, epoch: u64, index: u64) -> Mem<()>
    requires epoch { epoch < 5 }
    requires some { 0 < vec_len plan.now.dealings }
    ensures { OnOk result (events.new ≡ events.old ++ after_block_of plan.now.dealings.items plan.now.acks.items epoch index) }
{
    match index {
        1 => put_peers(events, &plan.dealings),
        2 => put_peers(events, &plan.acks),
        16 => put_peers(events, &plan.dealings[..1]),
        39 => events.push(&Event::Next {
            request: 2 * epoch,
            height: Height(epoch * 64 + 40),
        }),
        62 => put_request(events, epoch),
        _ => Ok(()),
    }
}

/// Delivers the blocks at so many indexes of an epoch from one on, each with what follows it.
pub(crate) fn put_events(
    events: &mut Events,
    plan: &Plan,
    epoch: u64,
    from: u64,
    to: u64,
) -> Mem<()>
    requires epoch { epoch < 5 }
    requires some { 0 < vec_len plan.now.dealings }
    requires ordered { from ≤ to }
    requires within { to ≤ 64 }
    ensures { OnOk result (events.new ≡ events.old ++ events_with plan.now.dealings.items plan.now.acks.items epoch from (to - from)) }
{
    for index in from..to {
        events.push(&Event::Final {
            block: (epoch * 64 + index) as u32,
        })?;
        put_after(events, plan, epoch, index)?;
    }
    Ok(())
}

/// Where a life begins.
fn anchor(life: u64) -> Option<Anchor>
    requires { life ≤ 5 }
    ensures { result ≡ anchor_of life }
{
    if life == 0 {
        None
    } else {
        Some(Anchor::Processed(((life - 1) * 64 + 15) as u32))
    }
}

/// What a life holds from its begin on.
fn held(alloc: Global, life: u64) -> Mem<Indexes>
    requires { life ≤ 5 }
    ensures { IfOk result (λ held. held ≡ held_of life) }
{
    let mut held = Vec::new(alloc);
    if life == 0 {
        held.push(0)?;
    } else {
        let first = (life - 1) * 64;
        held.push(first.saturating_sub(1) as u32)?;
        held.push((first + 15) as u32)?;
    }
    Ok(Indexes::new(held))
}

/// A life of these events.
pub(crate) fn life(alloc: Global, number: u64, life: u64, events: Events) -> Mem<Life>
    requires { life ≤ 5 }
    ensures { IfOk result (λ made. made ≡ life_with number life events) }
{
    Ok(Life {
        word: number,
        anchor: anchor(life),
        held: held(alloc, life)?,
        sync: None,
        events,
        cut: None,
        pick: 0,
    })
}
