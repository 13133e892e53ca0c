//! The lines of entries, and of faults, that no row of `dkg_replay` has: those of what isn't run yet, and of what neither a script nor a probe can bring about.

use dkg_ceremony::{Blob, Epoch, Height, Key, Name, RoundError};
use dkg_infos::{
    AnswerLine, ConfigCause, Entry, Fault, LocalCause, ParticipantsCause, ParticipantsError,
    PreparedLine, Verdict, Why,
};
use dkg_text::print_of;
use std::alloc::Global;
use std::process::Abort;
use std::test::Fail;

/// That these entries have these lines, one behind the other.
fn show(rt: &(impl Abort + AllocGlobal), entries: &[Entry], lines: &str) -> Result<(), Fail> {
    let text = print_of(rt.alloc(), entries)?;
    assert_eq!(rt; text.as_slice(), lines.as_bytes(), "{lines}");
    Ok(())
}

/// Entries that have no bytes.
const WORDS: [Entry; 11] = [
    Entry::Answer {
        request: 3,
        answer: AnswerLine::Unavailable(Why::Terminal),
    },
    Entry::Answer {
        request: 3,
        answer: AnswerLine::Unavailable(Why::Held),
    },
    Entry::Answer {
        request: 3,
        answer: AnswerLine::Available(None),
    },
    Entry::Completed { outcome: None },
    Entry::Prepared(PreparedLine::Ready(None)),
    Entry::Prepared(PreparedLine::Wait),
    Entry::Proposed { block: None },
    Entry::Verdict(Verdict::Accept),
    Entry::Verdict(Verdict::Reject),
    Entry::Verdict(Verdict::Unresolved),
    Entry::Hint {
        height: Height(7),
        peer: Key(3),
    },
];

#[test]
fn entries_have_words(rt: HostRuntime) -> Result<(), Fail> {
    let mut entries = Vec::new(rt.alloc());
    for entry in WORDS {
        entries.push(entry)?;
    }
    let lines = "\
answer 3 unavailable terminal
answer 3 unavailable held
answer 3 none
completed -
prepared none
prepared wait
proposed none
verdict accept
verdict reject
verdict unresolved
hint 7 3
";
    show(&rt, &entries, lines)
}

fn blob(alloc: Global) -> Result<Blob, Fail> {
    Ok(Blob::new([0u8, 171, 255].to_vec(alloc)?))
}

fn completed(alloc: Global) -> Result<Entry, Fail> {
    let outcome = Some(blob(alloc)?);
    Ok(Entry::Completed { outcome })
}

fn call(alloc: Global) -> Result<Entry, Fail> {
    let line = Blob::new(b"next 1 4".to_vec(alloc)?);
    Ok(Entry::Call { caller: 1, line })
}

fn prepared(alloc: Global) -> Result<Entry, Fail> {
    let ready = PreparedLine::Ready(Some(blob(alloc)?));
    Ok(Entry::Prepared(ready))
}

fn proposed(alloc: Global) -> Result<Entry, Fail> {
    let block = Some(blob(alloc)?);
    Ok(Entry::Proposed { block })
}

/// No bytes to one peer.
fn sent_to_one(alloc: Global) -> Entry {
    let bytes = Blob::new(Vec::new(alloc));
    let to = Some(Key(4));
    Entry::Sent { to, bytes }
}

/// Puts an entry of each kind that has bytes.
fn push_bytes(alloc: Global, entries: &mut Vec<Entry>) -> Result<(), Fail> {
    entries.push(completed(alloc)?)?;
    entries.push(call(alloc)?)?;
    entries.push(prepared(alloc)?)?;
    entries.push(proposed(alloc)?)?;
    entries.push(sent_to_one(alloc))?;
    Ok(())
}

#[test]
fn entries_show_their_bytes(rt: HostRuntime) -> Result<(), Fail> {
    let mut entries = Vec::new(rt.alloc());
    push_bytes(rt.alloc(), &mut entries)?;
    let lines = "\
completed 00abff
call 1 next 1 4
prepared 00abff
proposed 00abff
sent 4 -
";
    show(&rt, &entries, lines)
}

const FAULTS: [Fault; 19] = [
    Fault::Disk,
    Fault::Secrets,
    Fault::Corrupt {
        name: Name::Segment(6),
        place: 17,
    },
    Fault::Corrupt {
        name: Name::Plan,
        place: 17,
    },
    Fault::Corrupt {
        name: Name::Flat,
        place: 17,
    },
    Fault::InvalidConfig(ConfigCause::OneShotEmpty),
    Fault::InvalidConfig(ConfigCause::OneShotWithout),
    Fault::StateSyncEpochs {
        info: Epoch(3),
        floor: Epoch(4),
    },
    Fault::StateSyncMaterial,
    Fault::InvalidParticipants(ParticipantsCause::Refused(ParticipantsError::EmptyDealers)),
    Fault::InvalidParticipants(ParticipantsCause::Refused(ParticipantsError::TooManyParticipants {
        actual: 4,
        max: 3,
    })),
    Fault::InvalidParticipants(ParticipantsCause::Refused(
        ParticipantsError::InitialReshareDealers,
    )),
    Fault::InvalidParticipants(ParticipantsCause::Refused(ParticipantsError::UnknownReshareDealer)),
    Fault::InvalidParticipants(ParticipantsCause::Round(RoundError::DealersNotPrevious)),
    Fault::DirectoryMismatch { epoch: Epoch(2) },
    Fault::LocalState(LocalCause::NoShare),
    Fault::LocalState(LocalCause::OutcomeOmitted),
    Fault::FinalBlockMissing,
    Fault::FloorBlockMissing,
];

#[test]
fn faults_have_lines(rt: HostRuntime) -> Result<(), Fail> {
    let mut entries = Vec::new(rt.alloc());
    for fault in FAULTS {
        entries.push(Entry::Fault(fault))?;
    }
    let lines = "\
fault 2
fault 3
fault 4 segment 6 17
fault 4 plan 17
fault 4 flat 17
fault 5 3
fault 5 4
fault 6 3 4
fault 7
fault 15 1
fault 15 3 4 3
fault 15 4
fault 15 5
fault 15 8 4
fault 16 2
fault 17 4
fault 17 5
fault 18
fault 19
";
    show(&rt, &entries, lines)
}
