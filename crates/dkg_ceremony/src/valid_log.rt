//! Which of a dealer's logs are valid.
//!
//! An outcome is made of valid logs alone; a node looks in logs for its own acknowledgements.
ghost use Rattle.std.specs.Prelude.{◌≡◌, length, IfOk};
ghost use Rattle.std.specs.List.{count_by};
ghost use Rattle.dkg_ceremony.specs.Acks.{ack_content};
ghost use Rattle.dkg_ceremony.specs.ValidLogs.{ack_at as ack_from_log, bears_ack_of, entries_pass, entry_of as entry_from_log, entry_passes, is_reveal, is_valid};

use crate::ceremony::{AckError, Ceremony};
use crate::dealer_log::DealerLog;
use crate::evaluate::{is_reshare, value_of};
use crate::log_entry::LogEntry;
use crate::private::Ack;
use crate::public::Public;
use crate::round::Round;
use crate::sign::{Domain, mark_of};
use crate::stand::{StandCeremony, rest_of};
use crate::threshold::{max_faults, quorum};
use bytes::{BufMut, BytesMut};
use dkg_values::{Key, Mem, NoMemory, Set};
use std::alloc::Global;

/// What an acknowledgement is a mark on: the round, the dealer and the public half.
#[tactic(auto, unfolding(crate::specs::Acks::ack_content))]
fn content_of(alloc: Global, round: &Round, dealer: Key, public: &Public) -> Mem<BytesMut>
    ensures { IfOk result (λ content. content.items ≡ ack_content round.now dealer public.now) }
{
    let mut content = BytesMut::new(alloc);
    content.put_slice(round.bytes())?;
    content.put_slice(&rest_of(alloc, dealer, public)?)?;
    Ok(content)
}

/// Whether an entry is its player's acknowledgement of the content, or the polynomial's value at the player's point.
fn is_entry(content: &[u8], public: &Public, index: u32, player: Key, entry: &LogEntry) -> bool
    ensures { result ≡ entry_passes content.now public.now index player entry.now }
{
    match entry {
        LogEntry::Ack(ack) => mark_of(player, Domain::Ack, content) == ack.0,
        LogEntry::Reveal(private) => u32::from(private.0.get()) == value_of(public, index),
    }
}

/// Whether each entry is its player's.
fn are_entries(content: &[u8], public: &Public, players: &Set, entries: &[LogEntry]) -> bool
    requires { length entries.now ≡ length players.now }
    ensures { result ≡ entries_pass content.now public.now 0 players.now entries.now }
{
    let keys = players.as_slice();
    for index in 0..players.len() {
        let i = index as usize;
        if !is_entry(content, public, index, keys[i], &entries[i]) {
            return false;
        }
    }
    true
}

/// How many private halves a log reveals.
fn revealed(entries: &[LogEntry]) -> usize
    ensures { result ≡ count_by is_reveal entries.now }
{
    let mut count = 0;
    for entry in entries {
        if let LogEntry::Reveal(_) = entry {
            count += 1;
        }
    }
    count
}

/// Whether a dealer's log may be a part of the outcome.
#[tactic(auto, unfolding(crate::specs::ValidLogs::is_valid))]
pub(crate) fn is_valid_log(alloc: Global, round: &Round, dealer: Key, log: &DealerLog) -> Mem<bool>
    ensures { IfOk result (λ b. b ≡ is_valid round.now dealer log.now) }
{
    let players = round.parts().players.len();
    let entries = log.entries.as_slice();
    if log.public.as_slice().len() != quorum(players) as usize
        || !is_reshare(round, dealer, &log.public)
        || entries.len() != players as usize
        || revealed(entries) > max_faults(players) as usize
    {
        return Ok(false);
    }
    let content = content_of(alloc, round, dealer, &log.public)?;
    Ok(are_entries(&content, &log.public, &round.parts().players, entries))
}

/// What a log has for a player.
pub(crate) fn entry_of(players: &Set, player: Key, log: &DealerLog) -> Option<LogEntry>
    ensures { result ≡ entry_from_log players.now player log.now }
{
    let index = players.position(player)?;
    log.entries.as_slice().get(index as usize).copied()
}

/// The acknowledgement that a log has for a player.
fn ack_at(players: &Set, player: Key, log: &DealerLog) -> Option<Ack>
    ensures { result ≡ ack_from_log players.now player log.now }
{
    match entry_of(players, player, log)? {
        LogEntry::Ack(ack) => Some(ack),
        LogEntry::Reveal(_) => None,
    }
}

/// Whether a log bears a player's acknowledgement.
#[tactic(auto, unfolding(crate::specs::ValidLogs::bears_ack_of))]
pub(crate) fn bears_ack(
    alloc: Global,
    round: &Round,
    dealer: Key,
    log: &DealerLog,
    player: Key,
) -> Mem<bool>
    ensures { IfOk result (λ b. b ≡ bears_ack_of round.now dealer log.now player) }
{
    let Some(ack) = ack_at(&round.parts().players, player, log) else {
        return Ok(false);
    };
    match StandCeremony.check_ack(alloc, round, dealer, &log.public, player, &ack) {
        Ok(()) => Ok(true),
        Err(AckError::NoMemory) => Err(NoMemory),
        Err(_) => Ok(false),
    }
}
