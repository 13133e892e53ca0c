//! The line of a fault: its number, then its fields, a cause's number first among them.
ghost use Rattle.std.specs.Prelude.{◌≡◌, ◌++◌, OnOk};
ghost use Rattle.dkg_text.specs.FaultLines.{config_number_of, fault_fields, fault_line, local_fields, participants_fields, place_fields, refused_fields, round_number_of};
ghost use Rattle.dkg_text.specs.Fields.{number_field};

use crate::text::Text;
use dkg_ceremony::{Epoch, Key, Mem, Name, Public, RoundError};
use dkg_infos::{ConfigCause, Fault, LocalCause, ParticipantsCause, ParticipantsError};

fn put_place(text: &mut Text, name: Name, place: u64) -> Mem<()>
    ensures { OnOk result (text.new ≡ text.old ++ place_fields name place) }
{
    match name {
        Name::Plan => text.word(b"plan")?,
        Name::Flat => text.word(b"flat")?,
        Name::Segment(section) => {
            text.word(b"segment")?;
            text.number(section)?;
        }
    }
    text.number(place)
}

fn config_number(cause: ConfigCause) -> u64
    ensures { result ≡ config_number_of cause }
{
    match cause {
        ConfigCause::Mode => 1,
        ConfigCause::OneBlock => 2,
        ConfigCause::OneShotEmpty => 3,
        ConfigCause::OneShotWithout => 4,
    }
}

fn put_above(text: &mut Text, cause: u64, actual: u32, max: u32) -> Mem<()>
    ensures { OnOk result (text.new ≡ text.old ++ (number_field cause ++ number_field actual ++ number_field max)) }
{
    text.number(cause)?;
    text.number(u64::from(actual))?;
    text.number(u64::from(max))
}

fn put_refused(text: &mut Text, refused: ParticipantsError) -> Mem<()>
    ensures { OnOk result (text.new ≡ text.old ++ refused_fields refused) }
{
    match refused {
        ParticipantsError::EmptyDealers => text.number(1),
        ParticipantsError::EmptyPlayers => text.number(2),
        ParticipantsError::TooManyParticipants { actual, max } => put_above(text, 3, actual, max),
        ParticipantsError::InitialReshareDealers => text.number(4),
        ParticipantsError::UnknownReshareDealer => text.number(5),
    }
}

/// The number of a round's refusal, in the order in which the reasons are looked for.
fn round_number(refused: RoundError) -> u64
    ensures { result ≡ round_number_of refused }
{
    match refused {
        RoundError::NoDealers => 1,
        RoundError::NoPlayers => 2,
        RoundError::TooMany => 3,
        RoundError::DealersNotPrevious => 4,
        RoundError::NoMemory => 5,
    }
}

fn put_participants(text: &mut Text, cause: ParticipantsCause) -> Mem<()>
    ensures { OnOk result (text.new ≡ text.old ++ participants_fields cause) }
{
    match cause {
        ParticipantsCause::Refused(refused) => put_refused(text, refused),
        ParticipantsCause::ProviderEmpty => text.number(6),
        ParticipantsCause::ProviderAbove { actual, max } => put_above(text, 7, actual, max),
        ParticipantsCause::Round(refused) => {
            text.number(8)?;
            text.number(round_number(refused))
        }
    }
}

fn put_stored(text: &mut Text, epoch: Epoch, dealer: Key) -> Mem<()>
    ensures { OnOk result (text.new ≡ text.old ++ local_fields (LocalCause.StoredDealing epoch dealer)) }
{
    text.number(1)?;
    text.number(epoch.0)?;
    text.number(u64::from(dealer.0))
}

fn put_own(text: &mut Text, epoch: Epoch, kept: &Public, dealt: &Public) -> Mem<()>
    ensures { OnOk result (text.new ≡ text.old ++ local_fields (LocalCause.OwnDealing epoch kept.now dealt.now)) }
{
    text.number(3)?;
    text.number(epoch.0)?;
    text.value(kept)?;
    text.value(dealt)
}

fn put_local(text: &mut Text, cause: &LocalCause) -> Mem<()>
    ensures { OnOk result (text.new ≡ text.old ++ local_fields cause.now) }
{
    match cause {
        LocalCause::StoredDealing { epoch, dealer } => put_stored(text, *epoch, *dealer),
        LocalCause::ShareRefused { epoch } => {
            text.number(2)?;
            text.number(epoch.0)
        }
        LocalCause::OwnDealing { epoch, kept, dealt } => put_own(
            text,
            *epoch,
            kept.get(),
            dealt.get(),
        ),
        LocalCause::NoShare => text.number(4),
        LocalCause::OutcomeOmitted => text.number(5),
    }
}

fn put_two(text: &mut Text, one: u64, other: u64) -> Mem<()>
    ensures { OnOk result (text.new ≡ text.old ++ (number_field one ++ number_field other)) }
{
    text.number(one)?;
    text.number(other)
}

fn put_fields(text: &mut Text, fault: &Fault) -> Mem<()>
    ensures { OnOk result (text.new ≡ text.old ++ fault_fields fault.now) }
{
    match fault {
        Fault::NoMemory
        | Fault::Disk
        | Fault::Secrets
        | Fault::StateSyncMaterial
        | Fault::HeightRange
        | Fault::FinalBlockMissing
        | Fault::FloorBlockMissing => Ok(()),
        Fault::Corrupt { name, place } => put_place(text, *name, *place),
        Fault::InvalidConfig(cause) => text.number(config_number(*cause)),
        Fault::StateSyncEpochs { info, floor } => put_two(text, info.0, floor.0),
        Fault::ConflictingBlock { height }
        | Fault::DetachedBlock { height }
        | Fault::OutOfWindow { height }
        | Fault::MissingEpochInfo { height } => text.number(height.0),
        Fault::SkippedHeight { awaited, got } => put_two(text, awaited.0, got.0),
        Fault::WrongEpoch { expected, got } => put_two(text, expected.0, got.0),
        Fault::InvalidParticipants(cause) => put_participants(text, *cause),
        Fault::DirectoryMismatch { epoch } => text.number(epoch.0),
        Fault::LocalState(cause) => put_local(text, cause),
    }
}

/// A fault's line, without its line feed.
pub(crate) fn put_fault(text: &mut Text, fault: &Fault) -> Mem<()>
    ensures { OnOk result (text.new ≡ text.old ++ fault_line fault.now) }
{
    text.put(b"fault")?;
    text.number(u64::from(fault.number()))?;
    put_fields(text, fault)
}
