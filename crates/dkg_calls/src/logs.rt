//! Logs, and what a player takes from the worked round of three of them.
use crate::asserts::{holds, is, is_at};
use crate::ceremony::{acknowledge, followed_round, output, public, worked_round};
use crate::rounds::{deal, finish, is_seen, map_of};
use dkg_ceremony::*;
use std::alloc::Global;
use std::test::Fail;

/// What dealers 1 to 3 deal in the worked round: 8 + x, 15 + 7x + x², 26 + 2x² as they are spelled, and player 1's private halves.
const DEALT: [(u32, [u8; 7], u16); 3] = [
    (1, [3, 0, 8, 0, 1, 0, 0], 9),
    (2, [3, 0, 15, 0, 7, 0, 1], 23),
    (3, [3, 0, 26, 0, 0, 0, 2], 28),
];

/// The acknowledgements of all four players.
fn entries_of(
    alloc: Global,
    round: &Round,
    dealer: u32,
    public: &Public,
) -> Result<LogEntries, Fail> {
    let mut entries = Vec::new(alloc);
    for player in 1..5 {
        let me = StandSigner::new(Key(player));
        let ack = acknowledge(&StandCeremony, alloc, &me, round, Key(dealer), public)?;
        entries.push(LogEntry::Ack(ack.ok_or("a player acknowledges")?))?;
    }
    if entries.len() > 9 {
        return Err(Fail::from("too many entries"));
    }
    Ok(LogEntries::new(alloc, entries)?)
}

/// A dealer's log in the worked round, which all four players acknowledged.
fn log_of(alloc: Global, round: &Round, dealer: u32, bytes: &[u8]) -> Result<DealerLog, Fail> {
    let public = public(alloc, bytes)?;
    let entries = entries_of(alloc, round, dealer, &public)?;
    Ok(DealerLog { public, entries })
}

/// The log of dealer 2, with the mark that an independent program gives it.
fn signed(alloc: Global) -> Result<SignedDealerLog, Fail> {
    let round = followed_round(alloc)?;
    let log = log_of(alloc, &round, 2, &[3, 0, 15, 0, 7, 0, 1])?;
    Ok(SignedDealerLog {
        dealer: Key(2),
        log,
        mark: Mark([0x80, 0x8f, 0xc6, 0x28, 0xf8, 0x3b, 0x18, 0xb8]),
    })
}

fn logs(alloc: Global, round: &Round, count: usize) -> Result<Map<DealerLog>, Fail> {
    let mut pairs = Vec::new(alloc);
    for (dealer, bytes, _) in DEALT.iter().take(count) {
        pairs.push((Key(*dealer), log_of(alloc, round, *dealer, bytes)?))?;
    }
    map_of(alloc, pairs)
}

/// What a dealer deals to player 1.
fn dealing(alloc: Global, bytes: &[u8], value: u16) -> Result<(Public, Private), Fail> {
    let element = Element::new(value).ok_or("an element")?;
    Ok((public(alloc, bytes)?, Private(element)))
}

/// The dealings of the three to player 1, but for one dealer's.
fn dealings(alloc: Global, without: u32) -> Result<Map<(Public, Private)>, Fail> {
    let mut pairs = Vec::new(alloc);
    for (dealer, bytes, value) in &DEALT {
        if *dealer != without {
            pairs.push((Key(*dealer), dealing(alloc, bytes, *value)?))?;
        }
    }
    map_of(alloc, pairs)
}

/// The share in what a player takes from a round.
fn share_in(found: &Option<(Output, Share)>) -> Option<u16> {
    match found {
        None => None,
        Some((_, share)) => Some(share.0.get()),
    }
}

/// Player 1's share of so many logs, without one dealing.
fn share_of(
    alloc: Global,
    count: usize,
    without: u32,
) -> Result<Result<Option<u16>, FinishError>, Fail> {
    let round = followed_round(alloc)?;
    let logs = logs(alloc, &round, count)?;
    let dealings = dealings(alloc, without)?;
    match finish(&StandCeremony, alloc, &round, Key(1), &dealings, &logs)? {
        Ok(found) => Ok(Ok(share_in(&found))),
        Err(fault) => Ok(Err(fault)),
    }
}

#[test]
fn dealings_may_be_missing(rt: HostRuntime) -> Result<(), Fail> {
    let rows = [
        (3, 0, Ok(Some(65507))),
        (2, 0, Ok(None)),
        (3, 2, Err(FinishError::MissingDealing { dealer: Key(2) })),
        (2, 2, Ok(None)),
    ];
    for (count, without, want) in rows {
        let share = share_of(rt.alloc(), count, without)?;
        is_at(&rt, share, want, (count, without));
    }
    Ok(())
}

#[test]
fn a_share_fits_its_output(rt: HostRuntime) -> Result<(), Fail> {
    let output = output(rt.alloc())?;
    for (value, want) in [(8, true), (9, false)] {
        let share = Share(Element::new(value).ok_or("an element")?);
        is_at(&rt, is_seen(&StandCeremony, &output, &share), want, value);
    }
    dealers_pass::<StandCeremony>();
    finishes_agree::<StandCeremony>();
    Ok(())
}

/// Whether any ceremony accepts a log, and finds the acknowledgement of a player in it.
fn is_accepted<C: Ceremony>(
    ceremony: &C,
    alloc: Global,
    round: &Round,
    signed: &SignedDealerLog,
    player: Key,
) -> Mem<(bool, bool)> {
    let accepted = ceremony.check_log(alloc, round, signed)?;
    let borne = ceremony.bears_ack(alloc, round, signed.dealer, &signed.log, player)?;
    Ok((accepted, borne))
}

/// What is said of the log of dealer 2, under another dealer's name or its own.
fn acceptance(alloc: Global, dealer: u32, player: u32) -> Result<(bool, bool), Fail> {
    let round = followed_round(alloc)?;
    let mut signed = signed(alloc)?;
    signed.dealer = Key(dealer);
    Ok(is_accepted(&StandCeremony, alloc, &round, &signed, Key(player))?)
}

#[test]
fn logs_are_accepted(rt: HostRuntime) -> Result<(), Fail> {
    let rows = [
        (2, 1, (true, true)),
        (2, 4, (true, true)),
        (2, 9, (true, false)),
        (3, 1, (false, false)),
        (9, 1, (false, false)),
    ];
    for (dealer, player, want) in rows {
        let accepted = acceptance(rt.alloc(), dealer, player)?;
        is_at(&rt, accepted, want, (player, dealer));
    }
    Ok(())
}

/// What dealer 1 answers to a share.
fn refusal(alloc: Global, follows: bool, share: u16) -> Result<Option<DealError>, Fail> {
    let previous = output(alloc)?;
    let previous = if follows { Some(&previous) } else { None };
    let round = worked_round(alloc, previous)?;
    let share = match Element::new(share) {
        Some(element) => Some(Share(element)),
        None => None,
    };
    let seed = Seed([7; 32]);
    let signer = StandSigner::new(Key(1));
    let dealt = deal(
        &StandCeremony,
        alloc,
        &round,
        &signer,
        share.as_ref(),
        &seed,
    )?;
    Ok(dealt.err())
}

#[test]
fn shares_are_asked_for(rt: HostRuntime) -> Result<(), Fail> {
    let rows = [
        (true, 8, None),
        (true, 9, Some(DealError::ShareRefused)),
        (true, 65535, Some(DealError::ShareRefused)),
        (false, 9, None),
        (false, 65535, None),
    ];
    for (follows, share, want) in rows {
        let refusal = refusal(rt.alloc(), follows, share)?;
        is_at(&rt, refusal, want, (share, follows));
    }
    Ok(())
}

/// A log that is written and read again, where the limit allows it.
fn log_again(
    alloc: Global,
    signed: &SignedDealerLog,
    most: u32,
) -> Result<Option<SignedDealerLog>, CodecError> {
    let coefficients = signed.log.public.as_slice();
    let entries = signed.log.entries.as_slice();
    if coefficients.len() > most as usize || entries.len() > most as usize {
        return Ok(None);
    }
    signed.fits_limits();
    Ok(Some(round_trip(alloc, signed, &most)?))
}

#[test]
fn logs_are_written_and_read(rt: HostRuntime) -> Result<(), Fail> {
    let signed = signed(rt.alloc())?;
    let again = log_again(rt.alloc(), &signed, 4)?;
    holds(&rt, again.ok_or("the limit allows it")?.same(&signed));
    let few = log_again(rt.alloc(), &signed, 3)?;
    holds(&rt, few.is_none());
    Ok(())
}

#[test]
fn logs_are_copied(rt: HostRuntime) -> Result<(), Fail> {
    let signed = signed(rt.alloc())?;
    holds(&rt, signed.copy(rt.alloc())?.same(&signed));
    is(&rt, signed.encode_size(), 56);
    no_prefix::<SignedDealerLog>();
    no_prefix::<LogEntries>();
    Ok(())
}
