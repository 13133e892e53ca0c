//! What a journal's entries and a secret store give back when a store is opened.
ghost use Rattle.std.specs.Prelude.{◌≡◌, ◌≤◌, [], ℕ, IfOk, OnOk, IsTrue, IsErrOf, IfErr, Some, None, Ok, true, false};
ghost use Rattle.dkg_values.specs.declared.name.Name.{Name};
ghost use Rattle.dkg_values.specs.declared.name.Name.TheVariants.{Segment};
ghost use Rattle.dkg_store.specs.Corrupt.{BeginsWithEvent};
ghost use Rattle.dkg_store.specs.Events.{is_event_body, no_event_at};
ghost use Rattle.std.specs.FinMap as map;
ghost use Rattle.dkg_journal.specs.Disk.{Rose};
ghost use Rattle.dkg_journal.specs.Views.{view, views};
ghost use Rattle.dkg_store.specs.Errors.{IsOfRestoring};
ghost use Rattle.dkg_store.specs.Noted.{with_note, ack_in_event, log_in_event, noted_ack, noted_log, acks_in, logs_in};
ghost use Rattle.dkg_store.specs.Pairs.{with_half, with_dealing, dealing_in_event, recorded_dealing, recovered};

use crate::call::StoreError;
use crate::event::{Event, read_event};
use crate::recorded_log::RecordedLog;
use dkg_ceremony::{Ack, Private, Public};
use dkg_journal::JournalEntry;
use dkg_secrets::{PairMap, SecretError, SecretStore};
use dkg_values::{CodecError, Epoch, Key, Name};
use std::alloc::Global;

/// What is recorded of all epochs: dealings and logs by epoch and dealer, acknowledgements by epoch and player.
#[derive(Drop)]
pub(crate) struct Recorded {
    pub(crate) dealings: PairMap<(Public, Private)>,
    pub(crate) acks: PairMap<Ack>,
    pub(crate) logs: PairMap<RecordedLog>,
}

/// Takes a recorded dealing up, if its private half is there.
fn restore_dealing<X: SecretStore>(
    alloc: Global,
    secrets: &mut X,
    dealings: &mut PairMap<(Public, Private)>,
    epoch: Epoch,
    dealer: Key,
    public: Public,
) -> Result<(), StoreError>
    ensures given { OnOk result (IsTrue X.tells → dealings.new
        ≡ with_half dealings.old (record { key = (epoch, dealer); public = public }) (map.get (X.held secrets.old).privates (epoch, dealer))) }
    ensures same { X.held secrets.new ≡ X.held secrets.old }
    ensures later { X.faults secrets.old ≤ X.faults secrets.new }
    ensures secrets { IsErrOf result StoreError.Secrets → Rose (X.faults secrets.old) (X.faults secrets.new) }
    ensures not_corrupt { (name : Name) (place : ℕ) → IsErrOf result (StoreError.Corrupt name place) → ⊥ }
    ensures error_kinds { IfErr result IsOfRestoring }
    ensures calls { X.made secrets.old secrets.new [] }
{
    match secrets.get_dealing(alloc, epoch, dealer) {
        Err(SecretError::Failed) => Err(StoreError::Secrets),
        Err(SecretError::NoMemory) => Err(StoreError::NoMemory),
        Ok(None) => Ok(()),
        Ok(Some(private)) => {
            dealings.insert(epoch, dealer, (public, private))?;
            Ok(())
        }
    }
}

/// Takes an event up.
fn restore_event<X: SecretStore>(
    alloc: Global,
    secrets: &mut X,
    recorded: &mut Recorded,
    epoch: Epoch,
    event: Event,
) -> Result<(), StoreError>
    ensures given { OnOk result (IsTrue X.tells → recorded.new.dealings
        ≡ with_dealing (X.held secrets.old) recorded.old.dealings (dealing_in_event epoch (Ok event))) }
    ensures acks { OnOk result (recorded.new.acks ≡ with_note recorded.old.acks (ack_in_event epoch (Ok event))) }
    ensures logs { OnOk result (recorded.new.logs ≡ with_note recorded.old.logs (log_in_event epoch (Ok event))) }
    ensures same { X.held secrets.new ≡ X.held secrets.old }
    ensures later { X.faults secrets.old ≤ X.faults secrets.new }
    ensures secrets { IsErrOf result StoreError.Secrets → Rose (X.faults secrets.old) (X.faults secrets.new) }
    ensures not_corrupt { (name : Name) (place : ℕ) → IsErrOf result (StoreError.Corrupt name place) → ⊥ }
    ensures error_kinds { IfErr result IsOfRestoring }
    ensures calls { X.made secrets.old secrets.new [] }
{
    match event {
        Event::Dealing(dealer, public) => restore_dealing(
            alloc,
            secrets,
            &mut recorded.dealings,
            epoch,
            dealer,
            public,
        ),
        Event::Ack(player, ack) => {
            recorded.acks.insert(epoch, player, ack)?;
            Ok(())
        }
        Event::Log(dealer, log) => {
            let height = None;
            recorded
                .logs
                .insert(epoch, dealer, RecordedLog { height, log })?;
            Ok(())
        }
        Event::LogAt(dealer, height, log) => {
            let height = Some(height);
            recorded
                .logs
                .insert(epoch, dealer, RecordedLog { height, log })?;
            Ok(())
        }
    }
}

/// Takes an entry up. It is to be an event within the limit.
fn restore_one<X: SecretStore>(
    alloc: Global,
    secrets: &mut X,
    recorded: &mut Recorded,
    limit: u32,
    entry: &JournalEntry,
) -> Result<(), StoreError>
    ensures given { OnOk result (IsTrue X.tells → recorded.new.dealings
        ≡ with_dealing (X.held secrets.old) recorded.old.dealings (recorded_dealing (view entry.now))) }
    ensures acks { OnOk result (recorded.new.acks ≡ with_note recorded.old.acks (noted_ack (view entry.now))) }
    ensures logs { OnOk result (recorded.new.logs ≡ with_note recorded.old.logs (noted_log (view entry.now))) }
    ensures same { X.held secrets.new ≡ X.held secrets.old }
    ensures later { X.faults secrets.old ≤ X.faults secrets.new }
    ensures secrets { IsErrOf result StoreError.Secrets → Rose (X.faults secrets.old) (X.faults secrets.new) }
    ensures event { OnOk result (is_event_body limit entry.now.body ≡ true) }
    ensures half { IsErrOf result StoreError.Secrets → is_event_body limit entry.now.body ≡ true }
    // A body that is no event is the one cause of Corrupt.
    ensures corrupt { (name : Name) (place : ℕ) → IsErrOf result (StoreError.Corrupt name place)
        → (name ≡ Segment entry.now.section) × (place ≡ entry.now.place) × (is_event_body limit entry.now.body ≡ false) }
    ensures error_kinds { IfErr result IsOfRestoring }
    ensures calls { X.made secrets.old secrets.new [] }
{
    match read_event(alloc, entry.body.as_slice(), limit) {
        Err(CodecError::NoMemory) => Err(StoreError::NoMemory),
        Err(_) => Err(StoreError::Corrupt {
            name: Name::Segment(entry.section),
            place: entry.place,
        }),
        Ok(event) => restore_event(alloc, secrets, recorded, Epoch(entry.section), event),
    }
}

/// What the entries give back, dealings only of which both halves are there. A later record replaces an earlier one of its epoch, kind
/// and key.
pub(crate) fn restore<X: SecretStore>(
    alloc: Global,
    secrets: &mut X,
    limit: u32,
    entries: &[JournalEntry],
) -> Result<Recorded, StoreError>
    ensures given { IfOk result (λ recorded. IsTrue X.tells → recorded.dealings ≡ recovered (views entries.now) (X.held secrets.old)) }
    ensures acks { IfOk result (λ recorded. recorded.acks ≡ acks_in (views entries.now)) }
    ensures logs { IfOk result (λ recorded. recorded.logs ≡ logs_in (views entries.now)) }
    ensures same { X.held secrets.new ≡ X.held secrets.old }
    ensures later { X.faults secrets.old ≤ X.faults secrets.new }
    ensures secrets { IsErrOf result StoreError.Secrets → Rose (X.faults secrets.old) (X.faults secrets.new) }
    ensures events { OnOk result (no_event_at limit entries.now ≡ None) }
    // A private half is read only of an event before which all are events.
    ensures half { IsErrOf result StoreError.Secrets → BeginsWithEvent limit (views entries.now) }
    // The first body that is no event is the one cause of Corrupt.
    ensures corrupt { (name : Name) (place : ℕ) → IsErrOf result (StoreError.Corrupt name place) → no_event_at limit entries.now ≡ Some (name, place) }
    ensures error_kinds { IfErr result IsOfRestoring }
    ensures calls { X.made secrets.old secrets.new [] }
{
    let mut recorded = Recorded {
        dealings: PairMap::new(alloc),
        acks: PairMap::new(alloc),
        logs: PairMap::new(alloc),
    };
    for entry in entries {
        restore_one(alloc, secrets, &mut recorded, limit, entry)?;
    }
    Ok(recorded)
}
