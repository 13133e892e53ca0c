//! How a dealer signs its log, and how others check the signature.
ghost use Rattle.std.specs.Prelude.{◌≡◌, ℕ, IfOk, IsTrue, Contains, map, length};
ghost use Rattle.dkg_ceremony.specs.Logs.{log_spelling};
ghost use Rattle.dkg_ceremony.specs.ValidLogs.{check_log_of, entry_for, has_entry, sign_log_of};

use crate::dealer_log::DealerLog;
use crate::log_entries::LogEntries;
use crate::log_entry::LogEntry;
use crate::private::{Ack, Private};
use crate::public::Public;
use crate::round::Round;
use crate::sign::{Domain, Signer, StandSigner};
use crate::signed_log::SignedDealerLog;
use bytes::BytesMut;
use dkg_values::{Key, Map, Mem, Set, Value, Write};
use std::alloc::Global;

/// What comes behind the round in what a log's mark is on.
fn bytes_of(alloc: Global, log: &DealerLog) -> Mem<BytesMut>
    ensures { IfOk result (λ bytes. bytes.items ≡ log_spelling log.now) }
{
    let mut bytes = BytesMut::new(alloc);
    log.put(&mut bytes)?;
    Ok(bytes)
}

/// Whether a log comes from a dealer of the round, and bears its mark.
#[tactic(auto, unfolding(crate::specs::ValidLogs::check_log_of, crate::specs::ValidLogs::log_content))]
pub(crate) fn check_log(alloc: Global, round: &Round, signed: &SignedDealerLog) -> Mem<bool>
    ensures { IfOk result (λ b. b ≡ check_log_of round.now signed.now) }
{
    if !round.parts().dealers.has(signed.dealer) {
        return Ok(false);
    }
    let bytes = bytes_of(alloc, &signed.log)?;
    Ok(round.mark(signed.dealer, Domain::Log, &bytes) == signed.mark)
}

/// What a log has for a player: its acknowledgement where there is one, or else its private half.
fn entry_of(player: Key, privates: &Map<Private>, acks: &Map<Ack>) -> LogEntry
    requires { IsTrue (has_entry privates.now acks.now player) }
    ensures { result ≡ entry_for privates.now acks.now player }
{
    match acks.get(player) {
        Some(ack) => LogEntry::Ack(*ack),
        None => match privates.get(player) {
            Some(private) => LogEntry::Reveal(*private),
            None => unreachable!(),
        },
    }
}

/// An entry for each player.
fn entries_of(
    alloc: Global,
    players: &Set,
    privates: &Map<Private>,
    acks: &Map<Ack>,
) -> Mem<LogEntries>
    requires { (player : ℕ) → Contains players.now player → IsTrue (has_entry privates.now acks.now player) }
    ensures { IfOk result (λ entries. entries ≡ map (entry_for privates.now acks.now) players.now) }
{
    let mut entries = Vec::new(alloc);
    for player in players.as_slice() {
        entries.push(entry_of(*player, privates, acks))?;
    }
    Ok(LogEntries::new(alloc, entries)?)
}

/// The log of a dealing, signed by its dealer.
#[tactic(auto, unfolding(crate::specs::ValidLogs::sign_log_of, crate::specs::ValidLogs::log_content))]
pub(crate) fn sign_log(
    alloc: Global,
    signer: &StandSigner,
    round: &Round,
    public: &Public,
    privates: &Map<Private>,
    acks: &Map<Ack>,
) -> Mem<SignedDealerLog>
    requires { (player : ℕ) → Contains round.now.players player → IsTrue (has_entry privates.now acks.now player) }
    ensures { IfOk result (λ signed. signed ≡ sign_log_of signer.now round.now public.now privates.now acks.now) }
{
    let log = DealerLog {
        public: public.copy(alloc)?,
        entries: entries_of(alloc, &round.parts().players, privates, acks)?,
    };
    let bytes = bytes_of(alloc, &log)?;
    let dealer = signer.public_key();
    let mark = round.mark(dealer, Domain::Log, &bytes);
    Ok(SignedDealerLog { dealer, log, mark })
}
