use crate::asserts::{holds, is, is_at};
use dkg_ceremony::*;
use std::alloc::Global;
use std::test::Fail;

/// The keys 1 to 4 as a set is spelled.
const FOUR: [u8; 17] = [4, 0, 0, 0, 1, 0, 0, 0, 2, 0, 0, 0, 3, 0, 0, 0, 4];

/// The bytes of the worked output: four players, 5 + x + 2x², each dealt by all four.
fn worked_bytes(alloc: Global) -> Mem<Vec<u8>> {
    let mut bytes = [0; 8].to_vec(alloc)?;
    bytes.extend_from_slice(&[0, 4, 3, 0, 5, 0, 1, 0, 2])?;
    bytes.extend_from_slice(&FOUR)?;
    bytes.extend_from_slice(&FOUR)?;
    bytes.push(0)?;
    Ok(bytes)
}

pub(crate) fn output(alloc: Global) -> Result<Output, Fail> {
    let bytes = worked_bytes(alloc)?;
    Ok(decode_cfg::<Output>(alloc, &bytes, &(4, ModeVersion(0)))?)
}

pub(crate) fn public(alloc: Global, bytes: &[u8]) -> Result<Public, CodecError> {
    decode_cfg::<Public>(alloc, bytes, &4)
}

pub(crate) fn first_keys(alloc: Global, count: u32) -> Result<Set, Fail> {
    let mut keys = Vec::new(alloc);
    for number in 0..count {
        keys.push(Key(number + 1))?;
    }
    if keys.len() > 70000 {
        return Err(Fail::from(NotRising));
    }
    Ok(Set::from_sorted(keys)?)
}

/// Round 0 of a chain without a name, by any ceremony.
pub(crate) fn draw<C: Ceremony>(
    ceremony: &C,
    alloc: Global,
    previous: Option<&Output>,
    dealers: &Set,
    players: &Set,
) -> Result<Round, RoundError> {
    let mode = Mode::NonZeroCounter;
    ceremony.round(alloc, b"", 0, previous, mode, Reveal::V1, dealers, players)
}

fn round_fault(
    alloc: Global,
    dealers: u32,
    players: u32,
    follows: bool,
) -> Result<Option<RoundError>, Fail> {
    let previous = output(alloc)?;
    let previous = if follows { Some(&previous) } else { None };
    let dealers = first_keys(alloc, dealers)?;
    let players = first_keys(alloc, players)?;
    match draw(&StandCeremony, alloc, previous, &dealers, &players) {
        Ok(_) => Ok(None),
        Err(fault) => Ok(Some(fault)),
    }
}

#[test]
fn rounds_are_drawn(rt: HostRuntime) -> Result<(), Fail> {
    let rows = [
        (0, 0, true, Some(RoundError::NoDealers)),
        (4, 0, true, Some(RoundError::NoPlayers)),
        (65521, 4, true, Some(RoundError::TooMany)),
        (4, 65521, true, Some(RoundError::TooMany)),
        (5, 4, true, Some(RoundError::DealersNotPrevious)),
        (65520, 65520, false, None),
        (3, 5, true, None),
    ];
    for (dealers, players, follows, want) in rows {
        let fault = round_fault(rt.alloc(), dealers, players, follows)?;
        is_at(&rt, fault, want, (dealers, players));
    }
    Ok(())
}

/// What any ceremony says of a dealing to key 1.
fn check<C: Ceremony>(
    ceremony: &C,
    round: &Round,
    dealer: u32,
    public: &Public,
    value: u16,
) -> Option<DealingError> {
    let me = Key(1);
    let private = Private(Element::new(value)?);
    if !round.parts().players.has(me) {
        return None;
    }
    ceremony
        .check_dealing(round, me, Key(dealer), public, &private)
        .err()
}

pub(crate) fn worked_round(alloc: Global, previous: Option<&Output>) -> Result<Round, Fail> {
    let keys = first_keys(alloc, 4)?;
    Ok(draw(&StandCeremony, alloc, previous, &keys, &keys)?)
}

/// The round of four keys that follows the worked output.
pub(crate) fn followed_round(alloc: Global) -> Result<Round, Fail> {
    let previous = output(alloc)?;
    worked_round(alloc, Some(&previous))
}

/// A dealer's number, its public half, its private half to key 1, and what the check answers.
const CHECKED: [(u32, &[u8], u16, Option<DealingError>); 6] = [
    (2, &[3, 0, 15, 0, 7, 0, 1], 23, None),
    (
        2,
        &[3, 0, 15, 0, 7, 0, 1],
        45,
        Some(DealingError::InvalidDealerShare),
    ),
    (
        9,
        &[2, 0, 15, 0, 7],
        22,
        Some(DealingError::UnexpectedDealer),
    ),
    (
        2,
        &[2, 0, 16, 0, 7],
        22,
        Some(DealingError::InvalidCommitmentDegree),
    ),
    (
        2,
        &[3, 0, 16, 0, 7, 0, 1],
        24,
        Some(DealingError::MismatchedReshareCommitment),
    ),
    (
        2,
        &[3, 0, 16, 0, 7, 0, 1],
        23,
        Some(DealingError::MismatchedReshareCommitment),
    ),
];

/// What the check in a round answers to a dealing.
fn dealing_fault(
    alloc: Global,
    round: &Round,
    dealer: u32,
    bytes: &[u8],
    value: u16,
) -> Result<Option<DealingError>, Fail> {
    let public = public(alloc, bytes)?;
    Ok(check(&StandCeremony, round, dealer, &public, value))
}

#[test]
fn dealings_are_checked(rt: HostRuntime) -> Result<(), Fail> {
    let round = followed_round(rt.alloc())?;
    for (dealer, bytes, value, want) in CHECKED {
        let fault = dealing_fault(rt.alloc(), &round, dealer, bytes, value)?;
        is_at(&rt, fault, want, (value, dealer));
    }
    Ok(())
}

/// Notes so many checks that a round knows the values at all dealers' points.
fn note_many(alloc: Global, round: &mut Round) {
    for _ in 0..1_000 {
        round.note_check(alloc);
    }
}

#[test]
fn dealings_are_checked_behind_many_others(rt: HostRuntime) -> Result<(), Fail> {
    let mut round = followed_round(rt.alloc())?;
    note_many(rt.alloc(), &mut round);
    for (dealer, bytes, value, want) in CHECKED {
        let fault = dealing_fault(rt.alloc(), &round, dealer, bytes, value)?;
        is_at(&rt, fault, want, (value, dealer));
    }
    Ok(())
}

/// What a player of any ceremony answers a dealer.
pub(crate) fn acknowledge<C: Ceremony>(
    ceremony: &C,
    alloc: Global,
    signer: &C::Signer,
    round: &Round,
    dealer: Key,
    public: &Public,
) -> Mem<Option<Ack>> {
    if !round.parts().players.has(signer.public_key()) {
        return Ok(None);
    }
    Ok(Some(ceremony.ack(alloc, signer, round, dealer, public)?))
}

fn ack_of(alloc: Global, round: &Round) -> Result<Option<Ack>, Fail> {
    let public = public(alloc, &[3, 0, 15, 0, 7, 0, 1])?;
    let me = StandSigner::new(Key(1));
    Ok(acknowledge(&StandCeremony, alloc, &me, round, Key(2), &public)?)
}

fn worked_ack(alloc: Global, follows: bool) -> Result<Option<Ack>, Fail> {
    let previous = output(alloc)?;
    let previous = if follows { Some(&previous) } else { None };
    let round = worked_round(alloc, previous)?;
    ack_of(alloc, &round)
}

#[test]
fn dealings_are_acknowledged(rt: HostRuntime) -> Result<(), Fail> {
    let rows = [
        (true, [0x13, 0x48, 0x84, 0x48, 0x6f, 0x93, 0x7d, 0x35]),
        (false, [0x64, 0x77, 0x07, 0xff, 0xb0, 0x9f, 0xc3, 0x22]),
    ];
    for (follows, mark) in rows {
        let ack = worked_ack(rt.alloc(), follows)?;
        is_at(&rt, ack, Some(Ack(Mark(mark))), follows);
    }
    Ok(())
}

/// What any ceremony says of an acknowledgement of the worked dealing.
fn check_ack<C: Ceremony>(
    ceremony: &C,
    alloc: Global,
    round: &Round,
    dealer: u32,
    player: u32,
) -> Result<Option<AckError>, Fail> {
    let public = public(alloc, &[3, 0, 15, 0, 7, 0, 1])?;
    let ack = Ack(Mark([0x13, 0x48, 0x84, 0x48, 0x6f, 0x93, 0x7d, 0x35]));
    let answer = ceremony.check_ack(alloc, round, Key(dealer), &public, Key(player), &ack);
    Ok(answer.err())
}

fn ack_fault(alloc: Global, player: u32, dealer: u32) -> Result<Option<AckError>, Fail> {
    let round = followed_round(alloc)?.copy(alloc)?;
    check_ack(&StandCeremony, alloc, &round, dealer, player)
}

#[test]
fn acknowledgements_are_checked(rt: HostRuntime) -> Result<(), Fail> {
    let rows = [
        (1, 2, None),
        (9, 2, Some(AckError::UnexpectedPlayer)),
        (3, 2, Some(AckError::InvalidAck)),
        (1, 3, Some(AckError::InvalidAck)),
    ];
    for (player, dealer, want) in rows {
        let fault = ack_fault(rt.alloc(), player, dealer)?;
        is_at(&rt, fault, want, (player, dealer));
    }
    acks_pass::<StandCeremony>();
    Ok(())
}

#[test]
fn marks_are_bound_to_their_domain(rt: HostRuntime) -> Result<(), Fail> {
    let rows = [
        (
            Domain::Ack,
            [0x01, 0xef, 0xbd, 0x10, 0x5a, 0x9b, 0x28, 0xae],
        ),
        (
            Domain::Log,
            [0x48, 0x3b, 0x04, 0xb4, 0xf3, 0xd9, 0x40, 0xfc],
        ),
        (
            Domain::Round,
            [0xc8, 0x55, 0x1a, 0xe1, 0xe7, 0xb1, 0xdb, 0x00],
        ),
        (
            Domain::Final,
            [0xd8, 0x6b, 0xe5, 0x2e, 0xf9, 0x19, 0x32, 0x84],
        ),
    ];
    for (domain, bytes) in rows {
        let signer = StandSigner::new(Key(7));
        is(&rt, signer.sign(domain, b"abc"), Mark(bytes));
        is(&rt, mark_of(Key(7), domain, b"abc"), Mark(bytes));
    }
    Ok(())
}

#[test]
fn a_quorum_outlives_faults(rt: HostRuntime) -> Result<(), Fail> {
    let rows = [
        (0, 0, 0),
        (1, 0, 1),
        (3, 0, 3),
        (4, 1, 3),
        (7, 2, 5),
        (65520, 21839, 43681),
        (u32::MAX, 1431655764, 2863311531),
    ];
    for (n, faults, enough) in rows {
        is_at(&rt, max_faults(n), faults, n);
        is_at(&rt, quorum(n), enough, n);
    }
    Ok(())
}

/// The bytes of the worked output's copy, where that is the same.
fn copied_bytes(alloc: Global) -> Result<Blob, Fail> {
    let value = output(alloc)?;
    let copy = value.copy(alloc)?;
    if !copy.same(&value) {
        return Err(Fail::from("a copy differs"));
    }
    Ok(encode(alloc, &copy)?)
}

#[test]
fn a_copied_output_spells_the_same(rt: HostRuntime) -> Result<(), Fail> {
    let bytes = copied_bytes(rt.alloc())?;
    is(&rt, bytes.as_slice(), worked_bytes(rt.alloc())?.as_slice());
    is(&rt, output(rt.alloc())?.encode_size(), 52);
    Ok(())
}

#[test]
fn halves_are_read(rt: HostRuntime) -> Result<(), Fail> {
    let alloc = rt.alloc();
    let private = decode_cfg::<Private>(alloc, &[1, 2], &())?;
    is(&rt, private.0.get(), 258);
    let share = decode_cfg::<Share>(alloc, &[1, 2], &())?;
    is(&rt, share.0.get(), 258);
    let ack = decode_cfg::<Ack>(alloc, &[1, 2, 3, 4, 5, 6, 7, 8], &())?;
    is(&rt, ack, Ack(Mark([1, 2, 3, 4, 5, 6, 7, 8])));
    Ok(())
}

#[test]
fn halves_are_spelled(rt: HostRuntime) -> Result<(), Fail> {
    let element = Element::new(258).ok_or("258 is an element")?;
    let bytes = encode(rt.alloc(), &Private(element))?;
    is(&rt, bytes.as_slice(), [1, 2].as_slice());
    let elements = [element, element].to_vec(rt.alloc())?;
    let public = Public::new(rt.alloc(), elements)?;
    let bytes = encode(rt.alloc(), &public)?;
    is(&rt, bytes.as_slice(), [2, 1, 2, 1, 2].as_slice());
    Ok(())
}

/// The value at an index's point of the polynomial whose coefficients are one, two, three and so on, so many of them.
fn value_of_rising(alloc: Global, count: u16, index: u32) -> Result<u32, Fail> {
    let mut elements = Vec::new(alloc);
    for number in 1..=count {
        elements.push(Element::new(number).ok_or("no element")?)?;
    }
    if elements.is_empty() || elements.len() > 100 {
        return Err(Fail::from("no polynomial"));
    }
    let polynomial = Public::new(alloc, elements)?;
    Ok(value_of(&polynomial, index))
}

#[test]
fn polynomials_have_their_values(rt: HostRuntime) -> Result<(), Fail> {
    let alloc = rt.alloc();
    is(&rt, value_of_rising(alloc, 1, 4)?, 1);
    is(&rt, value_of_rising(alloc, 6, 4)?, 22461);
    is(&rt, value_of_rising(alloc, 7, 4)?, 794);
    is(&rt, value_of_rising(alloc, 8, 4)?, 36105);
    is(&rt, value_of_rising(alloc, 19, 4)?, 24232);
    is(&rt, value_of_rising(alloc, 16, 70000)?, 2245);
    Ok(())
}

/// An output that is written and read again, where the limits allow it.
fn read_again(
    alloc: Global,
    output: &Output,
    cfg: &(u32, ModeVersion),
) -> Result<Option<Output>, CodecError> {
    let (most, version) = *cfg;
    if output.dealers.len() > most || output.players.len() > most {
        return Ok(None);
    }
    if !version.supports(output.sharing.mode) {
        return Ok(None);
    }
    output.fits_limits();
    Ok(Some(round_trip(alloc, output, cfg)?))
}

/// A sharing that is written and read again, where the limits allow it.
fn share_again(
    alloc: Global,
    sharing: &Sharing,
    cfg: &(u32, ModeVersion),
) -> Result<Option<Sharing>, CodecError> {
    let (most, version) = *cfg;
    let elements = sharing.poly.as_slice();
    if elements.is_empty() || elements.len() > most as usize {
        return Ok(None);
    }
    if !version.supports(sharing.mode) {
        return Ok(None);
    }
    sharing.fits_limits();
    Ok(Some(round_trip(alloc, sharing, cfg)?))
}

/// Whether the worked output is the same when it is read again, if so many participants allow it.
fn is_read_again(alloc: Global, most: u32) -> Result<Option<bool>, Fail> {
    let value = output(alloc)?;
    match read_again(alloc, &value, &(most, ModeVersion(0)))? {
        Some(again) => Ok(Some(again.same(&value))),
        None => Ok(None),
    }
}

#[test]
fn outputs_are_written_and_read(rt: HostRuntime) -> Result<(), Fail> {
    is(&rt, is_read_again(rt.alloc(), 4)?, Some(true));
    is(&rt, is_read_again(rt.alloc(), 3)?, None);
    no_prefix::<Output>();
    Ok(())
}

#[test]
fn sharings_are_written_and_read(rt: HostRuntime) -> Result<(), Fail> {
    let value = output(rt.alloc())?;
    let again = share_again(rt.alloc(), &value.sharing, &(4, ModeVersion(0)))?;
    holds(
        &rt,
        again.ok_or("the limits allow it")?.same(&value.sharing),
    );
    no_prefix::<Sharing>();
    Ok(())
}

/// Whether a value's copy is the value.
fn has_copy<T: Value + Drop>(alloc: Global, value: &T) -> Mem<bool> {
    Ok(value.copy(alloc)?.same(value))
}

fn round_has_copy(alloc: Global, follows: bool) -> Result<bool, Fail> {
    let previous = output(alloc)?;
    let previous = if follows { Some(&previous) } else { None };
    let round = worked_round(alloc, previous)?;
    Ok(has_copy(alloc, &round)?)
}

fn public_has_copy(alloc: Global) -> Result<bool, Fail> {
    let public = public(alloc, &[3, 0, 15, 0, 7, 0, 1])?;
    Ok(has_copy(alloc, &public)?)
}

#[test]
fn ceremony_values_are_copied(rt: HostRuntime) -> Result<(), Fail> {
    let alloc = rt.alloc();
    holds(&rt, round_has_copy(alloc, true)?);
    holds(&rt, round_has_copy(alloc, false)?);
    holds(&rt, public_has_copy(alloc)?);
    let element = Element::new(23).ok_or("23 is an element")?;
    let halves = (Private(element), (Share(element), Ack(Mark([1; 8]))));
    holds(&rt, has_copy(alloc, &halves)?);
    Ok(())
}

#[test]
fn versions_know_their_modes(rt: HostRuntime) -> Result<(), Fail> {
    let rows = [
        (0, Mode::NonZeroCounter, true),
        (0, Mode::RootsOfUnity, false),
        (1, Mode::NonZeroCounter, true),
        (1, Mode::RootsOfUnity, true),
    ];
    for (version, mode, want) in rows {
        let version = ModeVersion(version);
        is_at(&rt, version.supports(mode), want, (mode, version));
        let bytes = encode(rt.alloc(), &mode)?;
        let read = decode_cfg::<Mode>(rt.alloc(), bytes.as_slice(), &version);
        is_at(&rt, read.ok(), want.then_some(mode), (mode, version));
    }
    Ok(())
}

/// What another program draws for epoch 3 in a life whose random word is 7.
const FRESH: [u8; 32] = [
    66, 88, 210, 31, 168, 176, 137, 119, 94, 37, 154, 169, 254, 191, 217, 96, 182, 94, 150, 128,
    180, 13, 91, 183, 233, 223, 199, 76, 204, 120, 69, 56,
];

#[test]
fn a_fresh_seed_is_of_the_word_and_the_epoch(rt: HostRuntime) -> Result<(), Fail> {
    holds(&rt, fresh_seed(7, Epoch(3)) == Seed(FRESH));
    Ok(())
}
