//! The message of a fault.
ghost use Rattle.std.specs.Prelude.{◌≡◌, ◌++◌, OnOk, decimal};
ghost use Rattle.dkg_words.specs.Message.{around, around_two, config_words, fault_words, file_words, local_words, participants_words, refused_words, round_words};

use crate::put::{put, put_number};
use dkg_ceremony::{Name, RoundError};
use dkg_infos::{ConfigCause, Fault, LocalCause, ParticipantsCause, ParticipantsError};
use dkg_values::Mem;

/// Writes a number behind words.
fn put_numbered(out: &mut Vec<u8>, front: &[u8], number: u64) -> Mem<()>
    ensures { OnOk result (out.new.items ≡ out.old.items ++ (front.now ++ decimal number)) }
{
    put(out, front)?;
    put_number(out, number)
}

/// Writes a number between words.
fn put_around(out: &mut Vec<u8>, front: &[u8], number: u64, back: &[u8]) -> Mem<()>
    ensures { OnOk result (out.new.items ≡ out.old.items ++ around front.now number back.now) }
{
    put(out, front)?;
    put_number(out, number)?;
    put(out, back)
}

/// Writes two numbers, each between words.
fn put_around_two(
    out: &mut Vec<u8>,
    front: &[u8],
    one: u64,
    between: &[u8],
    other: u64,
    back: &[u8],
) -> Mem<()>
    ensures { OnOk result (out.new.items ≡ out.old.items ++ around_two front.now one between.now other back.now) }
{
    put(out, front)?;
    put_number(out, one)?;
    put_around(out, between, other, back)
}

fn put_file(out: &mut Vec<u8>, name: Name) -> Mem<()>
    ensures { OnOk result (out.new.items ≡ out.old.items ++ file_words name) }
{
    match name {
        Name::Plan => put(out, b"Plan"),
        Name::Flat => put(out, b"Flat"),
        Name::Segment(section) => put_around(out, b"Segment(", section, b")"),
    }
}

fn put_corrupt(out: &mut Vec<u8>, name: Name, place: u64) -> Mem<()>
    ensures { OnOk result (out.new.items ≡ out.old.items ++ fault_words (Fault.Corrupt name place)) }
{
    put_around(out, b"no record in its grammar at ", place, b" of ")?;
    put_file(out, name)
}

fn put_config(out: &mut Vec<u8>, cause: ConfigCause) -> Mem<()>
    ensures { OnOk result (out.new.items ≡ out.old.items ++ config_words cause) }
{
    match cause {
        ConfigCause::Mode => put(out, b"the sharing mode is not supported"),
        ConfigCause::OneBlock => put(out, b"a reshare needs more than one block an epoch"),
        ConfigCause::OneShotEmpty => put(out, b"the one-shot set is empty"),
        ConfigCause::OneShotWithout => put(out, b"the one-shot set is without this node"),
    }
}

fn put_refused(out: &mut Vec<u8>, refused: ParticipantsError) -> Mem<()>
    ensures { OnOk result (out.new.items ≡ out.old.items ++ refused_words refused) }
{
    match refused {
        ParticipantsError::EmptyDealers => put(out, b"there are no dealers"),
        ParticipantsError::EmptyPlayers => put(out, b"there are no players"),
        ParticipantsError::TooManyParticipants { actual, max } => put_around_two(
            out,
            b"",
            u64::from(actual),
            b" participants of one kind, where ",
            u64::from(max),
            b" is the limit",
        ),
        ParticipantsError::InitialReshareDealers => put(
            out,
            b"the first reshare's dealers are not the previous output's players",
        ),
        ParticipantsError::UnknownReshareDealer => put(
            out,
            b"a reshare's dealer is not one of the previous output's players",
        ),
    }
}

fn put_round(out: &mut Vec<u8>, refused: RoundError) -> Mem<()>
    ensures { OnOk result (out.new.items ≡ out.old.items ++ round_words refused) }
{
    match refused {
        RoundError::NoDealers => put(out, b"a round without dealers"),
        RoundError::NoPlayers => put(out, b"a round without players"),
        RoundError::TooMany => put(out, b"more participants than points"),
        RoundError::DealersNotPrevious => put(out, b"a dealer was no player of the previous round"),
        RoundError::NoMemory => put(out, b"out of memory"),
    }
}

fn put_no_round(out: &mut Vec<u8>, refused: RoundError) -> Mem<()>
    ensures { OnOk result (out.new.items ≡ out.old.items ++ participants_words (ParticipantsCause.Round refused)) }
{
    put(out, b"no round: ")?;
    put_round(out, refused)
}

fn put_participants(out: &mut Vec<u8>, cause: ParticipantsCause) -> Mem<()>
    ensures { OnOk result (out.new.items ≡ out.old.items ++ participants_words cause) }
{
    match cause {
        ParticipantsCause::Refused(refused) => put_refused(out, refused),
        ParticipantsCause::ProviderEmpty => put(out, b"the provider's set is empty"),
        ParticipantsCause::ProviderAbove { actual, max } => put_around_two(
            out,
            b"the provider's set has ",
            u64::from(actual),
            b" keys, where ",
            u64::from(max),
            b" is the limit",
        ),
        ParticipantsCause::Round(refused) => put_no_round(out, refused),
    }
}

fn put_local(out: &mut Vec<u8>, cause: &LocalCause) -> Mem<()>
    ensures { OnOk result (out.new.items ≡ out.old.items ++ local_words cause.now) }
{
    match cause {
        LocalCause::StoredDealing { epoch, dealer } => put_around_two(
            out,
            b"the stored dealing of dealer ",
            u64::from(dealer.0),
            b" for epoch ",
            epoch.0,
            b" is refused",
        ),
        LocalCause::ShareRefused { epoch } => {
            put_around(out, b"the held share of epoch ", epoch.0, b" is refused")
        }
        LocalCause::OwnDealing { epoch, .. } => put_numbered(
            out,
            b"the player keeps another dealing of this node for epoch ",
            epoch.0,
        ),
        LocalCause::NoShare => put(out, b"the ceremony succeeded and gave this node no share"),
        LocalCause::OutcomeOmitted => put(out, b"the final block omits the outcome"),
    }
}

fn put_epochs(out: &mut Vec<u8>, info: u64, floor: u64) -> Mem<()>
    ensures { OnOk result (out.new.items ≡ out.old.items ++ fault_words (Fault.StateSyncEpochs info floor)) }
{
    put_around(
        out,
        b"the material's info is of epoch ",
        info,
        b", its floor of epoch ",
    )?;
    put_number(out, floor)
}

/// Writes a fault's message.
pub(crate) fn put_message(out: &mut Vec<u8>, fault: &Fault) -> Mem<()>
    ensures { OnOk result (out.new.items ≡ out.old.items ++ fault_words fault.now) }
{
    match fault {
        Fault::NoMemory => put(out, b"out of memory"),
        Fault::Disk => put(out, b"the disk failed"),
        Fault::Secrets => put(out, b"the secret store failed"),
        Fault::Corrupt { name, place } => put_corrupt(out, *name, *place),
        Fault::InvalidConfig(cause) => put_config(out, *cause),
        Fault::StateSyncEpochs { info, floor } => put_epochs(out, info.0, floor.0),
        Fault::StateSyncMaterial => put(out, b"the material is refused under the limits"),
        Fault::ConflictingBlock { height } => {
            put_numbered(out, b"another block at the tip's height ", height.0)
        }
        Fault::DetachedBlock { height } => put_around(
            out,
            b"the block at height ",
            height.0,
            b" has another parent than the tip",
        ),
        Fault::SkippedHeight { awaited, got } => put_around_two(
            out,
            b"a block at height ",
            got.0,
            b", where height ",
            awaited.0,
            b" is awaited",
        ),
        Fault::OutOfWindow { height } => put_around(
            out,
            b"the block at height ",
            height.0,
            b" is outside the awaited window",
        ),
        Fault::HeightRange => put(out, b"a height or an epoch passes 64 bits"),
        Fault::MissingEpochInfo { height } => put_around(
            out,
            b"the block at height ",
            height.0,
            b" carries no info",
        ),
        Fault::WrongEpoch { expected, got } => put_around_two(
            out,
            b"an info of epoch ",
            got.0,
            b", where epoch ",
            expected.0,
            b" is expected",
        ),
        Fault::InvalidParticipants(cause) => put_participants(out, *cause),
        Fault::DirectoryMismatch { epoch } => put_around(
            out,
            b"the directory of epoch ",
            epoch.0,
            b" does not match its peers",
        ),
        Fault::LocalState(cause) => put_local(out, cause),
        Fault::FinalBlockMissing => put(out, b"the final block is not held"),
        Fault::FloorBlockMissing => put(out, b"the floor's block is not held"),
    }
}
