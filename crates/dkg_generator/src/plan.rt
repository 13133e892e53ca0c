//! What an epoch of the chain is made of: the payloads of its blocks and the messages of its ceremony.
//!
//! `make` makes one an epoch, and writes its blocks and events from it.
ghost use Rattle.std.specs.Prelude.{◌≡◌, ◌<◌, map, IfOk, IsSome};
ghost use Rattle.dkg_values.specs.Rising.{lookup};
ghost use Rattle.dkg_generator.specs.Chain.{everybody as everybody_of, logs_included as included_of, this_node, others, round_after as round_from, signed_of};
ghost use Rattle.dkg_generator.specs.Made.{acks_to, dealings_of, first_payload, halves_message, holds_share as holds_share_of, info_bytes as info_bytes_of, log_bytes};
ghost use Rattle.dkg_generator.specs.Making.{IsPlan};

use crate::chain::{deal, dealer_seed, info_after, round_after, sign};
use dkg_ceremony::{
    Blob, Ceremony, Key, Map, Mem, Private, Public, Round, SignedDealerLog, StandCeremony,
    StandSigner, Value, encode, fresh_seed,
};
use dkg_infos::{EpochInfo, Unit};
use dkg_types::{Message, Payload};
use std::alloc::Global;

/// This node.
pub(crate) const ME: Key = Key(1);

/// How many epochs there are.
pub(crate) const EPOCHS: u64 = 5;

/// What an epoch of the chain is made of.
#[derive(Drop)]
pub(crate) struct Plan {
    /// What the first block carries.
    pub first: Option<Blob>,
    /// What the blocks from the midpoint on carry.
    pub logs: Vec<Blob>,
    /// What the last block carries.
    pub next: Blob,
    /// The dealings to this node, each with its dealer.
    pub dealings: Vec<(Key, Blob)>,
    /// The acknowledgements of this node's own dealing, each with its player.
    pub acks: Vec<(Key, Blob)>,
    /// The info of the next epoch.
    pub info: EpochInfo<Unit>,
}

/// What the other dealers do in an epoch: the messages of their dealings to this node, and their logs.
#[derive(Drop)]
struct Dealt {
    dealings: Vec<(Key, Blob)>,
    logs: Vec<SignedDealerLog>,
}

/// An info as a payload.
fn info_bytes(alloc: Global, info: &EpochInfo<Unit>) -> Mem<Blob>
    ensures { IfOk result (λ bytes. bytes ≡ info_bytes_of info.now) }
{
    let payload = Payload::EpochInfo(info.copy(alloc)?);
    encode(alloc, &payload)
}

/// Logs as payloads.
fn log_payloads(alloc: Global, logs: &[SignedDealerLog]) -> Mem<Vec<Blob>>
    ensures { IfOk result (λ payloads. payloads.items ≡ map log_bytes logs.now) }
{
    let mut payloads = Vec::new(alloc);
    for signed in logs {
        let payload: Payload<Unit> = Payload::DealerLog(signed.copy(alloc)?);
        payloads.push(encode(alloc, &payload)?)?;
    }
    Ok(payloads)
}

/// The message of a dealing to this node.
fn message_of(alloc: Global, halves: &(Public, Map<Private>)) -> Mem<Blob>
    requires { IsSome (lookup this_node halves.now.1) }
    ensures { IfOk result (λ message. message ≡ halves_message halves.now) }
{
    let private = match halves.1.get(ME) {
        Some(private) => *private,
        None => unreachable!(),
    };
    let message = Message::Dealer(halves.0.copy(alloc)?, private);
    encode(alloc, &message)
}

/// What the other dealers do in an info's epoch.
fn all_deal(alloc: Global, number: u64, info: &EpochInfo<Unit>, round: &Round) -> Mem<Dealt>
    requires holders { info.now.output.players ≡ everybody_of }
    requires round { round.now ≡ round_from info.now }
    ensures dealings { IfOk result (λ dealt. dealt.dealings.items ≡ dealings_of number info.now) }
    ensures logs { IfOk result (λ dealt. dealt.logs.items ≡ map (signed_of number info.now) others) }
{
    let mut dealings = Vec::new(alloc);
    let mut logs = Vec::new(alloc);
    for key in 2..8 {
        let dealer = Key(key);
        let seed = dealer_seed(number, dealer, info.epoch);
        let halves = deal(alloc, info, round, dealer, &seed)?;
        dealings.push((dealer, message_of(alloc, &halves)?))?;
        logs.push(sign(alloc, round, dealer, &halves)?)?;
    }
    Ok(Dealt { dealings, logs })
}

/// How many logs an epoch's blocks carry.
fn included(number: u64, epoch: u64) -> usize
    ensures { result ≡ included_of number epoch }
{
    if epoch == number % EPOCHS { 2 } else { 6 }
}

/// Whether this node holds a share of an epoch's output.
fn holds_share(number: u64, epoch: u64) -> bool
    ensures { result ≡ holds_share_of number epoch }
{
    let first = if number % EPOCHS == 0 { 1 } else { 0 };
    first < epoch
}

/// The acknowledgements of what this node deals in an info's epoch.
fn acks_of(
    alloc: Global,
    number: u64,
    info: &EpochInfo<Unit>,
    round: &Round,
) -> Mem<Vec<(Key, Blob)>>
    requires holders { info.now.output.players ≡ everybody_of }
    requires round { round.now ≡ round_from info.now }
    ensures { IfOk result (λ acks. acks.items ≡ acks_to number info.now) }
{
    let mut acks = Vec::new(alloc);
    if holds_share(number, info.epoch.0) {
        let seed = fresh_seed(number, info.epoch);
        let halves = deal(alloc, info, round, ME, &seed)?;
        for key in 2..8 {
            let signer = StandSigner::new(Key(key));
            let ack = StandCeremony.ack(alloc, &signer, round, ME, &halves.0)?;
            acks.push((Key(key), encode(alloc, &Message::Ack(ack))?))?;
        }
    }
    Ok(acks)
}

/// What the first block of an info's epoch carries.
#[tactic(auto, unfolding(crate::specs::Made::first_payload))]
fn first(alloc: Global, info: &EpochInfo<Unit>) -> Mem<Option<Blob>>
    ensures { IfOk result (λ bytes. bytes ≡ first_payload info.now) }
{
    if info.epoch.0 == 0 {
        Ok(Some(info_bytes(alloc, info)?))
    } else {
        Ok(None)
    }
}

/// What an info's epoch is made of.
pub(crate) fn plan_of(alloc: Global, number: u64, info: &EpochInfo<Unit>) -> Mem<Plan>
    requires holders { info.now.output.players ≡ everybody_of }
    requires epoch { info.now.epoch < 5 }
    ensures { IfOk result (IsPlan number info.now) }
{
    let round = round_after(alloc, info)?;
    let dealt = all_deal(alloc, number, info, &round)?;
    let logs = &dealt.logs[..included(number, info.epoch.0)];
    let next = info_after(alloc, info, &round, logs)?;
    Ok(Plan {
        first: first(alloc, info)?,
        logs: log_payloads(alloc, logs)?,
        next: info_bytes(alloc, &next)?,
        acks: acks_of(alloc, number, info, &round)?,
        dealings: dealt.dealings,
        info: next,
    })
}
