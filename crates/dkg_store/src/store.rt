//! What a node has recorded, in memory and on both devices.
//!
//! A reshare actor opens a store at the start of a life, asks it what is there, and records each dealing before it acknowledges it.
ghost use Rattle.std.specs.Prelude.{⊤, ◌≡◌, ◌⊎◌, ◌≤◌, ◌<◌, ◌+◌, ◌^◌, ◌∷◌, [], ℕ, List, length, OnOk, OnErr, IfOk, IfErr, IfSome, IsSome, is_some, IsErrOf, IsTrue, MatchResult, Option, Some, None, Ok, Err, not, true, false, nat_le, Contains, if◌then◌else◌};
ghost use Rattle.std.specs.Prelude.{map as list_map};
ghost use Rattle.std.specs.Option.{option_copied};
ghost use Rattle.std.specs.FinMap as map;
ghost use Rattle.std.specs.FinMap.{keys};
ghost use Rattle.std.specs.Int.NonZero.{non_zero_u32_get};
ghost use Rattle.std.specs.List.Sorted.{IsStrictlyIncreasing};
ghost use Rattle.dkg_ceremony.specs.Finishes.{has_public};
ghost use Rattle.dkg_values.specs.Rising.{keys_of, lookup};
ghost use Rattle.dkg_values.specs.declared.name.Name.{Name};
ghost use Rattle.dkg_values.specs.declared.name.Name.TheVariants.{Segment};
ghost use Rattle.dkg_infos.specs.declared.entry.Entry.{Entry};
ghost use Rattle.dkg_journal.specs.Names.{Files};
ghost use Rattle.dkg_journal.specs.Records.{SectionEntry, entries};
ghost use Rattle.dkg_journal.specs.Gated.{OpensAlike, gated, gated_entries};
ghost use Rattle.dkg_journal.specs.Views.{views};
ghost use Rattle.dkg_journal.specs.Disk.{IsUnchanged, Rose, ImagesFollow, Lands, SameElse};
ghost use Rattle.dkg_journal.specs.Fuse.{Reached, Ran, RanAll};
ghost use Rattle.dkg_journal.specs.Journals.{IsOpen, append_calls};
ghost use Rattle.dkg_journal.specs.Operations.{Journaled};
ghost use Rattle.dkg_journal.specs.Pruning.{LeavesAbove};
ghost use Rattle.dkg_journal.specs.Places.{place_at};
ghost use Rattle.dkg_journal.specs.Steps.{Keeps};
ghost use Rattle.dkg_journal.specs.Opening.{AreUnbroken, first_break, open_calls};
ghost use Rattle.std.specs.Result.{result_ok};
ghost use Rattle.dkg_store.specs.Called.{Called, ErrorIsDue, ErrorIsDueWith, if_made, made_in};
ghost use Rattle.dkg_store.specs.Left.{Extends, GivesAbove, GivesDealing, GivesNote, OpensOver, Rereads, Restores, Shrinks};
ghost use Rattle.dkg_store.specs.Rest.{KeepsAbove, KeepsAck, KeepsLog, KeepsPair};
ghost use Rattle.dkg_store.specs.Acts.{MadeAt, MadeOn, Runs, moment, world};
ghost use Rattle.dkg_store.specs.Calls.{put_and_appended, noting, recording, sharing, sharing_below, seeding, committing, pruning, opens, opened, store_opening, ended, ended_as};
ghost use Rattle.dkg_store.specs.Commits.{commit_calls, committed};
ghost use Rattle.dkg_store.specs.Corrupt.{IsAlien, IsCorruptAt, AreEvents, AreFit, BeginsWithEvent};
ghost use Rattle.dkg_store.specs.Counts.{CountsOn};
ghost use Rattle.dkg_journal.specs.Opens.{KeepsAll};
ghost use Rattle.dkg_store.specs.Errors.{IsOfDealing, IsOfDevices, IsOfPlaying};
ghost use Rattle.dkg_secrets.specs.Secrets.{Secrets, Tries, after, newest_below};
ghost use Rattle.dkg_store.specs.Events.{event_spelling, is_event_body};
ghost use Rattle.dkg_store.specs.declared.event.Event.TheVariants as events;
ghost use Rattle.dkg_store.specs.Pairs.{Pairs, HoldsPruned, IsWhole, AreAtOrAbove, HoldsDealings, HoldsEither, recovered};
ghost use Rattle.dkg_store.specs.declared.recorded_log.RecordedLog.{RecordedLog};
ghost use Rattle.dkg_store.specs.Recorded.{AreChecked, is_reached, at_epoch, restored_list, of_epoch, first_refused, bare_logs, reached_logs};
ghost use Rattle.dkg_store.specs.Both.{MadeBoth, IsWant, on_disk, on_secrets, prune_both};
ghost use Rattle.dkg_store.specs.On.{StaysFirm};
ghost use Rattle.dkg_store.specs.Named.{Named, MayBeNamed, NamesOpened, NamesPruned, SamePlan};
ghost use Rattle.dkg_store.specs.Noted.{ImagesGive, ImagesGiveEither, GivesPruned, Notes, SameNotes, acks_in, logs_in};
ghost use Rattle.dkg_store.specs.Dealer.{IsDealerOf, passing, passing_acks};
ghost use Rattle.dkg_store.specs.Player.{has_orphan};
ghost use Rattle.dkg_store.specs.Ready.{IsReadyDealing, dealing_calls};

use crate::appending::append_event;
use crate::call::{StoreError, of_journal, perform_secret};
use crate::dealer::{Dealer, replayed};
use crate::devices::{Devices, prune_devices, put_and_append};
use crate::event::{ack_body, ack_fits, dealing_body, dealing_fits, log_body, log_fits};
use crate::key_map::KeyMap;
use crate::player::Player;
use crate::recorded_log::RecordedLog;
use crate::restoring::{Recorded, restore};
use dkg_ceremony::{
    Ack, Ceremony, DealError, DealerLog, Private, Public, Round, Share, Signer, Value,
};
use dkg_infos::{EpochInfo, LocalCause, Restored};
use dkg_journal::{Disk, Fuse, Journal, Op, perform};
use dkg_secrets::{PairMap, SecretError, SecretOp, SecretStore};
use dkg_values::{Epoch, Height, Key, Map, Mem, NoMemory, NotRising, Seed};
use std::alloc::Global;
use std::num::NonZeroU32;

/// What was recorded, as maps, over the journal that keeps it.
#[derive(Drop)]
pub struct Store<Dir> {
    journal: Journal,
    dealings: PairMap<(Public, Private)>,
    acks: PairMap<Ack>,
    logs: PairMap<RecordedLog>,
    restored: Vec<Restored>,
    current: Option<EpochInfo<Dir>>,
}

/// The calls of a new dealing, with their bytes.
#[derive(Drop)]
struct ReadyDealing {
    put: SecretOp,
    body: Vec<u8>,
}

/// Takes the memory of a new dealing.
fn ready_dealing(
    alloc: Global,
    epoch: Epoch,
    dealer: Key,
    public: &Public,
    private: Private,
) -> Result<ReadyDealing, StoreError>
    ensures ready { IfOk result (λ r. IsReadyDealing r epoch dealer public.now private) }
    ensures memory { IfErr result (λ e. e ≡ StoreError.NoMemory) }
{
    dealing_fits(dealer, public);
    let body = dealing_body(alloc, dealer, public)?;
    Ok(ReadyDealing {
        put: SecretOp::PutDealing {
            epoch,
            dealer,
            private,
        },
        body,
    })
}

/// Makes what the disk has written durable, and opens its journal. No entry is lost, wherever it stops.
fn open_journal<D: Disk>(
    alloc: Global,
    disk: &mut D,
    fuse: &mut Fuse,
) -> Result<Journal, StoreError>
    // What it read is what the files stand for, and after it a crash leaves no other entries.
    ensures opens { IfOk result (λ journal. IsTrue D.tells → OpensOver journal (D.files disk.old) (D.files disk.new) (D.image disk.new)) }
    ensures keeps { IsTrue D.tells → KeepsAll (D.image disk.old) (D.image disk.new) }
    ensures acts { IsTrue D.tells → first_break (D.files disk.old) ≡ None → (out : List Entry) (s : Secrets)
        → MadeAt (opens None (length (open_calls (D.files disk.old)))) (opened result) (D.files disk.old) (D.image disk.old)
        (D.files disk.new) (D.image disk.new) (moment out s fuse.old) (moment out s fuse.new) }
    // Another opening finds the same, at Ok and at Corrupt.
    ensures due { IfErr result (λ e. ErrorIsDueWith (λ name place. IsTrue D.tells → (first_break (D.files disk.old) ≡ Some (name, place))
        × OpensAlike (D.files disk.old) (D.files disk.new)) e
        (Rose (D.faults disk.old) (D.faults disk.new)) ⊥
        (Reached fuse.old fuse.new × (IsTrue D.tells → Lands (D.files disk.new) (D.image disk.new))) ⊤) }
    ensures later { D.faults disk.old ≤ D.faults disk.new }
    ensures counts { CountsOn fuse.old fuse.new }
    ensures not_cut { OnOk result (Reached fuse.old fuse.new → ⊥) }
    ensures all { OnOk result (IsTrue D.tells → RanAll D.made disk.old disk.new fuse.old fuse.new (Op.Barrier ∷ open_calls (D.files disk.old))) }
    ensures calls { IsTrue D.tells → Ran D.made disk.old disk.new fuse.old fuse.new (Op.Barrier ∷ open_calls (D.files disk.old)) }
{
    if let Err(error) = perform(alloc, disk, fuse, &Op::Barrier) {
        return Err(of_journal(error));
    }
    match Journal::open(alloc, disk, fuse) {
        Ok(journal) => Ok(journal),
        Err(error) => Err(of_journal(error)),
    }
}

/// The restored dealings as a list, by epoch and dealer, rising.
fn listed(alloc: Global, dealings: &PairMap<(Public, Private)>) -> Mem<Vec<Restored>>
    ensures { IfOk result (λ restored. restored.items ≡ restored_list dealings.now) }
{
    let mut restored = Vec::new(alloc);
    for ((epoch, dealer), (public, private)) in dealings.iter() {
        restored.push(Restored {
            epoch: Epoch(*epoch),
            dealer: Key(*dealer),
            public: public.copy(alloc)?,
            private: *private,
        })?;
    }
    Ok(restored)
}

/// The first dealer, of an epoch's recorded dealings, that the check refuses.
fn first_refused<C: Ceremony>(
    alloc: Global,
    ceremony: &C,
    dealings: &PairMap<(Public, Private)>,
    epoch: Epoch,
    me: Key,
    round: &Round,
) -> Mem<Option<Key>>
    requires { Contains round.now.players me }
    ensures { IfOk result (λ first. first ≡ first_refused (C.dealing_of round.now me) (of_epoch epoch dealings.now)) }
{
    let mut noting = round.copy(alloc)?;
    for ((_, dealer), (public, private)) in dealings.of_epoch(epoch.0) {
        let dealer = Key(*dealer);
        if ceremony
            .check_dealing(&noting, me, dealer, public, private)
            .is_err()
        {
            return Ok(Some(dealer));
        }
        noting.note_check(alloc);
    }
    Ok(None)
}

/// Pairs whose keys rise, as a map.
pub(crate) fn in_order<V: Drop>(pairs: Vec<(Key, V)>) -> Mem<Map<V>>
    requires { IsStrictlyIncreasing (keys_of pairs.items) }
    ensures { IfOk result (λ made. made ≡ pairs.items) }
{
    if pairs.len() > u32::MAX as usize {
        return Err(NoMemory);
    }
    match Map::from_sorted(pairs) {
        Ok(made) => Ok(made),
        Err(NotRising) => unreachable!(),
    }
}

/// What is recorded of one epoch, keys rising.
fn pairs_of_epoch<V: Value + Drop>(
    alloc: Global,
    values: &PairMap<V>,
    epoch: Epoch,
) -> Mem<Vec<(Key, V)>>
    ensures { IfOk result (λ pairs. pairs.items ≡ at_epoch epoch values.now) }
{
    let mut pairs = Vec::new(alloc);
    for ((_, key), value) in values.of_epoch(epoch.0) {
        pairs.push((Key(*key), value.copy(alloc)?))?;
    }
    Ok(pairs)
}

/// What is recorded of one epoch, by key.
#[tactic(auto, using(crate::proofs::Epochs::rising))]
fn map_of_epoch<V: Value + Drop>(alloc: Global, values: &PairMap<V>, epoch: Epoch) -> Mem<Map<V>>
    ensures { IfOk result (λ made. made ≡ at_epoch epoch values.now) }
{
    let pairs = pairs_of_epoch(alloc, values, epoch)?;
    in_order(pairs)
}

/// The logs that are recorded of one epoch, keys rising, whatever their heights.
fn pairs_of_logs(
    alloc: Global,
    logs: &PairMap<RecordedLog>,
    epoch: Epoch,
) -> Mem<Vec<(Key, DealerLog)>>
    ensures { IfOk result (λ pairs. pairs.items ≡ bare_logs (at_epoch epoch logs.now)) }
{
    let mut pairs = Vec::new(alloc);
    for ((_, dealer), recorded) in logs.of_epoch(epoch.0) {
        pairs.push((Key(*dealer), recorded.log.copy(alloc)?))?;
    }
    Ok(pairs)
}

/// The logs that are recorded of one epoch, by dealer, whatever their heights.
#[tactic(auto, using(crate::proofs::Logs::bare_rising))]
fn bare_logs(alloc: Global, logs: &PairMap<RecordedLog>, epoch: Epoch) -> Mem<Map<DealerLog>>
    ensures { IfOk result (λ made. made ≡ bare_logs (at_epoch epoch logs.now)) }
{
    let pairs = pairs_of_logs(alloc, logs, epoch)?;
    in_order(pairs)
}

/// Whether a log is of a block at or below the tip. One that was recorded without a height stands at the midpoint.
fn is_reached(recorded: &RecordedLog, midpoint: Height, tip: Option<Height>) -> bool
    ensures { result ≡ is_reached midpoint tip recorded.now }
{
    let height = match recorded.height {
        None => midpoint,
        Some(height) => height,
    };
    match tip {
        None => false,
        Some(tip) => height <= tip,
    }
}

/// The logs that are recorded of one epoch, keys rising, of blocks at or below the tip.
fn pairs_of_reached(
    alloc: Global,
    logs: &PairMap<RecordedLog>,
    epoch: Epoch,
    midpoint: Height,
    tip: Option<Height>,
) -> Mem<Vec<(Key, DealerLog)>>
    ensures { IfOk result (λ pairs. pairs.items ≡ reached_logs midpoint tip (at_epoch epoch logs.now)) }
{
    let mut pairs = Vec::new(alloc);
    for ((_, dealer), recorded) in logs.of_epoch(epoch.0) {
        if is_reached(recorded, midpoint, tip) {
            pairs.push((Key(*dealer), recorded.log.copy(alloc)?))?;
        }
    }
    Ok(pairs)
}

/// The logs that are recorded of one epoch, by dealer, of blocks at or below the tip.
#[tactic(auto, using(crate::proofs::Logs::reached_rising))]
fn reached_logs(
    alloc: Global,
    logs: &PairMap<RecordedLog>,
    epoch: Epoch,
    midpoint: Height,
    tip: Option<Height>,
) -> Mem<Map<DealerLog>>
    ensures { IfOk result (λ made. made ≡ reached_logs midpoint tip (at_epoch epoch logs.now)) }
{
    let pairs = pairs_of_reached(alloc, logs, epoch, midpoint, tip)?;
    in_order(pairs)
}

/// A player's own copy of what is recorded of one epoch.
fn copy_of_epoch<V: Value + Drop>(
    alloc: Global,
    values: &PairMap<V>,
    epoch: Epoch,
) -> Mem<KeyMap<V>>
    ensures { IfOk result (λ made. map.entries made ≡ at_epoch epoch values.now) }
{
    let mut kept = KeyMap::new(alloc);
    for ((_, key), value) in values.of_epoch(epoch.0) {
        kept.insert(Key(*key), value.copy(alloc)?)?;
    }
    Ok(kept)
}

/// Whether what is recorded at a key has this public half.
fn is_half_at(
    dealings: &PairMap<(Public, Private)>,
    epoch: Epoch,
    dealer: Key,
    public: &Public,
) -> bool
    ensures { result ≡ has_public public.now (map.get dealings.now (epoch, dealer)) }
{
    match dealings.get(epoch, dealer) {
        None => false,
        Some((recorded, _)) => recorded.same(public),
    }
}

/// Whether the dealing that is recorded of a dealer has this public half.
fn has_half(
    dealings: &PairMap<(Public, Private)>,
    epoch: Epoch,
    dealer: Key,
    public: &Public,
) -> bool
    ensures { result ≡ has_public public.now (lookup dealer (at_epoch epoch dealings.now)) }
{
    let _number = dealer.number();
    is_half_at(dealings, epoch, dealer, public)
}

/// Whether a log bears the player's acknowledgement, and no recorded dealing of its dealer has the log's public half.
fn has_orphan<C: Ceremony>(
    alloc: Global,
    ceremony: &C,
    dealings: &PairMap<(Public, Private)>,
    epoch: Epoch,
    me: Key,
    round: &Round,
    logs: &Map<DealerLog>,
) -> Mem<bool>
    ensures { IfOk result (λ found. found ≡ has_orphan (λ dealer log. C.bears_ack_of round.now dealer log me) (at_epoch epoch dealings.now) logs.now) }
{
    for (dealer, log) in logs.iter() {
        if ceremony.bears_ack(alloc, round, dealer, log, me)?
            && !has_half(dealings, epoch, dealer, &log.public)
        {
            return Ok(true);
        }
    }
    Ok(false)
}

/// Puts the share of an epoch, if there is one, and then its seed.
fn put_both<X: SecretStore>(
    alloc: Global,
    secrets: &mut X,
    fuse: &mut Fuse,
    epoch: Epoch,
    seed: Seed,
    share: Option<Share>,
) -> Result<(), StoreError>
    ensures done { OnOk result (IsTrue X.tells → X.held secrets.new ≡ committed epoch seed share (X.held secrets.old)) }
    ensures acts { IsTrue X.tells → (out : List Entry) (j : Journaled) → Runs (committing epoch seed share) (ended result)
        (world out j (X.held secrets.old) fuse.old) (world out j (X.held secrets.new) fuse.new) }
    ensures privates { (X.held secrets.new).privates ≡ (X.held secrets.old).privates }
    ensures due { IfErr result (λ e. ErrorIsDue e ⊥ (Rose (X.faults secrets.old) (X.faults secrets.new)) (Reached fuse.old fuse.new)
        (Rose (X.wants secrets.old) (X.wants secrets.new))) }
    ensures later { X.faults secrets.old ≤ X.faults secrets.new }
    ensures not_cut { OnOk result (Reached fuse.old fuse.new → ⊥) }
    ensures all { OnOk result (RanAll X.made secrets.old secrets.new fuse.old fuse.new (commit_calls epoch seed share)) }
    ensures calls { Ran X.made secrets.old secrets.new fuse.old fuse.new (commit_calls epoch seed share) }
{
    match share {
        None => perform_secret(alloc, secrets, fuse, &SecretOp::PutSeed { epoch, seed }),
        Some(share) => {
            perform_secret(alloc, secrets, fuse, &SecretOp::PutShare { epoch, share })?;
            perform_secret(alloc, secrets, fuse, &SecretOp::PutSeed { epoch, seed })?;
            Ok(())
        }
    }
}

/// Keeps the dealing, and makes its calls. After an error it isn't kept.
fn record_dealing<D: Disk, X: SecretStore>(
    alloc: Global,
    dealings: &mut PairMap<(Public, Private)>,
    journal: &mut Journal,
    devices: &mut Devices<'_, D, X>,
    ready: &ReadyDealing,
    epoch: Epoch,
    dealer: Key,
    public: Public,
    private: Private,
) -> Result<(), StoreError>
    requires ready { IsReadyDealing ready.now epoch dealer public private }
    requires short { length (event_spelling (events.Dealing dealer public)) < 2 ^ 32 }
    requires new { map.get dealings.old (epoch, dealer) ≡ None }
    requires open { IsTrue D.tells → IsOpen journal.old (D.files devices.old.disk.now) (D.image devices.old.disk.now) }
    ensures open { OnOk result (IsTrue D.tells → IsOpen journal.new (D.files devices.new.disk.now) (D.image devices.new.disk.now)) }
    ensures kept { dealings.new ≡ if_made (made_in true result) (map.insert dealings.old (epoch, dealer) (public, private)) dealings.old }
    // Each image, with the secrets then held, gives the dealings from before, with the new one or without; the other kinds it gives as before.
    ensures gives { IsTrue D.tells → GivesDealing (IsTrue X.tells) (made_in true result)
        dealings.old (map.insert dealings.old (epoch, dealer) (public, private))
        (D.image devices.old.disk.now) (D.image devices.new.disk.now) (X.held devices.old.secrets.now) (X.held devices.new.secrets.now) }
    // Whatever a crash leaves of the disk.
    ensures extends { IsTrue D.tells → Extends (made_in true result)
        epoch (event_spelling (events.Dealing dealer public))
        (D.files devices.old.disk.now) (D.files devices.new.disk.now) (D.image devices.old.disk.now) (D.image devices.new.disk.now) }
    ensures acts { IsTrue D.tells → IsTrue X.tells → (out : List Entry) → MadeOn D.files D.image X.held
        (put_and_appended (SecretOp.PutDealing epoch dealer private) (epoch, event_spelling (events.Dealing dealer public)) tt)
        (ended result) devices.old devices.new out out }
    ensures called { Called ⊤ D.made X.made D.faults X.faults (made_in true result)
        (dealing_calls journal.old epoch dealer public private) devices.old devices.new }
    // The secret store comes first: where it failed, the disk is as it was. After a cut nothing of the disk is loose, where nothing was.
    ensures due { IfErr result (λ e. ErrorIsDue e (Rose (D.faults devices.old.disk.now) (D.faults devices.new.disk.now))
        (Rose (X.faults devices.old.secrets.now) (X.faults devices.new.secrets.now) × (devices.new.disk.now ≡ devices.old.disk.now))
        (Reached devices.old.fuse devices.new.fuse × (IsTrue D.tells → StaysFirm D.files D.image devices.old.disk.now devices.new.disk.now))
        (IsWant ((dealings.new ≡ dealings.old) × (journal.new ≡ journal.old) × (devices.new ≡ devices.old))
        (D.wants devices.old.disk.now) (D.wants devices.new.disk.now) (X.wants devices.old.secrets.now) (X.wants devices.new.secrets.now))) }
{
    dealings.insert(epoch, dealer, (public, private))?;
    let Ok(calls) = journal.ready(alloc, epoch.0, &ready.body) else {
        dealings.remove(epoch, dealer);
        return Err(StoreError::NoMemory);
    };
    if let Err(error) = put_and_append(
        alloc,
        devices,
        journal,
        &ready.put,
        &calls,
        epoch.0,
        &ready.body,
    ) {
        dealings.remove(epoch, dealer);
        return Err(error);
    }
    Ok(())
}

impl<Dir: Drop> Store<Dir> {
    /// Opens the store of both devices: a barrier, the journal, and what it replays. A dealing without its private half is not
    /// restored.
    ///
    /// Corrupt: a record that is not whole, or whose body is no event within the limit, at the place of its gate.
    ///
    /// A file whose end is mended is replaced whole. Where there is an old file of all epochs, it is parted into one an epoch, and goes; else no file
    /// comes or goes, wherever it stops.
    ///
    /// The time and the memory grow linearly with the journal's files, but that each record takes a look-up of its private half and one
    /// among the dealings, which are logarithmic.
    pub fn init<D: Disk, X: SecretStore>(
        alloc: Global,
        devices: &mut Devices<'_, D, X>,
        limit: NonZeroU32,
    ) -> Result<Store<Dir>, StoreError>
        // A dealing is restored exactly where its record and its private half are there, a later record of a key in place of an earlier one. From then
        // on a crash leaves just that, and nothing of the disk is loose.
        ensures restores { IfOk result (λ store. Restores (IsTrue D.tells) (IsTrue X.tells) (non_zero_u32_get limit) store
            (D.files devices.old.disk.now) (D.files devices.new.disk.now) (D.image devices.new.disk.now)
            (X.held devices.old.secrets.now) (X.held devices.new.secrets.now)) }
        // Wherever it stops: no entry is lost, each record stays in its grammar, and each image with the secrets gives the same dealings.
        ensures rereads { IsTrue D.tells → Rereads (D.image devices.old.disk.now) (D.image devices.new.disk.now)
            (X.held devices.old.secrets.now) (X.held devices.new.secrets.now) }
        ensures same { X.held devices.new.secrets.now ≡ X.held devices.old.secrets.now }
        // The barrier, the journal's opening, and what is read then, or the first body that is no event: all at Ok and at Corrupt, and at any
        // other exit a part, whatever image is left.
        ensures acts { IsTrue D.tells → IsTrue X.tells → first_break (D.files devices.old.disk.now) ≡ None
            → (alien : Option (Name × ℕ)) → IsAlien (non_zero_u32_get limit) (D.files devices.old.disk.now) alien → (out : List Entry)
            → MadeOn D.files D.image X.held (store_opening None (length (open_calls (D.files devices.old.disk.now))) alien)
            (ended_as (λ store. (store.dealings, store.acks, store.logs)) result) devices.old devices.new out out }
        // Where there is a record that is not whole, or, where all are, a first body that is no event within the limit, the answer is Corrupt at its
        // gate, but where a device, a cut or want of memory ended it before.
        ensures answer { (name : Name) (place : ℕ) → IsTrue D.tells → IsCorruptAt (non_zero_u32_get limit) (D.files devices.old.disk.now) name place
            → MatchResult result (λ store. ⊥) (λ e. (e ≡ StoreError.Corrupt name place) ⊎ IsOfDevices e) }
        // Where a crash left no such record as the call began, only a device, a cut or want of memory ends it.
        ensures opens { IsTrue D.tells → AreFit (non_zero_u32_get limit) (D.image devices.old.disk.now) → IfErr result IsOfDevices }
        // Corrupt comes of such a record alone, which the disk has as the call leaves it. A private half is read once the journal is open, and of an
        // event before which all are events.
        ensures due { IfErr result (λ e. ErrorIsDueWith (λ name place. IsTrue D.tells
            → IsCorruptAt (non_zero_u32_get limit) (D.files devices.old.disk.now) name place
            × IsCorruptAt (non_zero_u32_get limit) (D.files devices.new.disk.now) name place) e
            (Rose (D.faults devices.old.disk.now) (D.faults devices.new.disk.now))
            (Rose (X.faults devices.old.secrets.now) (X.faults devices.new.secrets.now) × (IsTrue D.tells → (first_break (D.files devices.old.disk.now) ≡ None)
            × BeginsWithEvent (non_zero_u32_get limit) (entries (D.files devices.old.disk.now))))
            (Reached devices.old.fuse devices.new.fuse × (IsTrue D.tells → Lands (D.files devices.new.disk.now) (D.image devices.new.disk.now))) ⊤) }
        ensures called { Called (IsTrue D.tells) D.made X.made D.faults X.faults (made_in true result)
            (list_map on_disk (Op.Barrier ∷ open_calls (D.files devices.old.disk.now))) devices.old devices.new }
        ensures secret_calls { X.made devices.old.secrets.now devices.new.secrets.now [] }
    {
        let mut journal = open_journal(alloc, devices.disk, &mut devices.fuse)?;
        let entries = journal.replay(alloc);
        let recorded = restore(alloc, devices.secrets, limit.get(), &entries)?;
        let restored = listed(alloc, &recorded.dealings)?;
        let Recorded {
            dealings,
            acks,
            logs,
        } = recorded;
        Ok(Store {
            journal,
            dealings,
            acks,
            logs,
            restored,
            current: None,
        })
    }

    /// The dealings that opening restored, by epoch and dealer, rising.
    pub fn restored(&self) -> &[Restored]
        ensures { result.now ≡ self.now.restored.items }
    {
        &self.restored
    }

    /// A recorded dealing, restored or new. The time is logarithmic in how many are recorded.
    pub fn dealing(&self, epoch: Epoch, dealer: Key) -> Option<&(Public, Private)>
        ensures { option_copied result ≡ map.get self.now.dealings (epoch, dealer) }
    {
        self.dealings.get(epoch, dealer)
    }

    /// This node as a player of an epoch's round, over the recorded dealings and logs, whatever the logs' heights.
    ///
    /// It answers as `create_player_with_logs` does of the recorded logs.
    pub fn create_player<C: Ceremony>(
        &self,
        alloc: Global,
        ceremony: &C,
        epoch: Epoch,
        me: Key,
        round: &Round,
    ) -> Result<Option<Player>, StoreError>
        requires { Contains round.now.players me }
        ensures me { IfOk result (λ made. IfSome made (λ player. player.me ≡ me)) }
        ensures round { IfOk result (λ made. IfSome made (λ player. player.round ≡ round.now)) }
        ensures acks { IfOk result (λ made. IfSome made (λ player. player.acks ≡ map.empty)) }
        ensures some { IfOk result (λ made. is_some made ≡ not (has_orphan (λ dealer log. C.bears_ack_of round.now dealer log me)
            (at_epoch epoch self.now.dealings) (bare_logs (at_epoch epoch self.now.logs)))) }
        // It has its own copy of what is recorded of the epoch, and each of that passes the check.
        ensures dealings { IfOk result (λ made. IfSome made (λ player. map.entries player.dealings ≡ at_epoch epoch self.now.dealings)) }
        ensures checked { IfOk result (λ made. IfSome made (λ player. AreChecked (C.dealing_of round.now me) player.dealings)) }
        ensures passes { IfOk result (λ made. IfSome made (λ player. first_refused (C.dealing_of round.now me) (of_epoch epoch self.now.dealings) ≡ None)) }
        ensures error_kinds { IfErr result IsOfPlaying }
        ensures stored { IfErr result (λ e. (e ≡ StoreError.NoMemory) ⊎ ((dealer : ℕ) × (e ≡ StoreError.LocalState (LocalCause.StoredDealing epoch dealer))
            × (first_refused (C.dealing_of round.now me) (of_epoch epoch self.now.dealings) ≡ Some dealer)
            × (has_orphan (λ dealer log. C.bears_ack_of round.now dealer log me)
            (at_epoch epoch self.now.dealings) (bare_logs (at_epoch epoch self.now.logs)) ≡ false))) }
    {
        let logs = bare_logs(alloc, &self.logs, epoch)?;
        self.create_player_with_logs(alloc, ceremony, epoch, me, round, &logs)
    }

    /// This node as a player of an epoch's round, over the recorded dealings and these logs by dealer.
    ///
    /// None: a log bears this node's acknowledgement, and no recorded dealing of that dealer has the log's public half.
    ///
    /// LocalState: else StoredDealing of the first recorded dealing of the epoch, by dealer, that the check refuses.
    pub fn create_player_with_logs<C: Ceremony>(
        &self,
        alloc: Global,
        ceremony: &C,
        epoch: Epoch,
        me: Key,
        round: &Round,
        logs: &Map<DealerLog>,
    ) -> Result<Option<Player>, StoreError>
        requires { Contains round.now.players me }
        ensures me { IfOk result (λ made. IfSome made (λ player. player.me ≡ me)) }
        ensures round { IfOk result (λ made. IfSome made (λ player. player.round ≡ round.now)) }
        ensures acks { IfOk result (λ made. IfSome made (λ player. player.acks ≡ map.empty)) }
        ensures some { IfOk result (λ made. is_some made ≡ not (has_orphan (λ dealer log. C.bears_ack_of round.now dealer log me)
            (at_epoch epoch self.now.dealings) logs.now)) }
        // It has its own copy of what is recorded of the epoch, and each of that passes the check.
        ensures dealings { IfOk result (λ made. IfSome made (λ player. map.entries player.dealings ≡ at_epoch epoch self.now.dealings)) }
        ensures checked { IfOk result (λ made. IfSome made (λ player. AreChecked (C.dealing_of round.now me) player.dealings)) }
        ensures passes { IfOk result (λ made. IfSome made (λ player. first_refused (C.dealing_of round.now me) (of_epoch epoch self.now.dealings) ≡ None)) }
        ensures error_kinds { IfErr result IsOfPlaying }
        ensures stored { IfErr result (λ e. (e ≡ StoreError.NoMemory) ⊎ ((dealer : ℕ) × (e ≡ StoreError.LocalState (LocalCause.StoredDealing epoch dealer))
            × (first_refused (C.dealing_of round.now me) (of_epoch epoch self.now.dealings) ≡ Some dealer)
            × (has_orphan (λ dealer log. C.bears_ack_of round.now dealer log me) (at_epoch epoch self.now.dealings) logs.now ≡ false))) }
    {
        if has_orphan(alloc, ceremony, &self.dealings, epoch, me, round, logs)? {
            return Ok(None);
        }
        if let Some(dealer) = first_refused(alloc, ceremony, &self.dealings, epoch, me, round)? {
            return Err(StoreError::LocalState(LocalCause::StoredDealing { epoch, dealer }));
        }
        let dealings = copy_of_epoch(alloc, &self.dealings, epoch)?;
        Ok(Some(Player::new(alloc, me, round, dealings)?))
    }

    /// This node as a dealer of an epoch's round: its dealing from its share and a seed, and the recorded acknowledgements that pass the
    /// check of it. The same share and seed give the same dealing.
    ///
    /// None: this node's log is recorded. LocalState: else ShareRefused, where the ceremony refuses the share.
    #[tactic(auto, using(crate::proofs::Listed::passing_listed))]
    pub fn create_dealer<C: Ceremony>(
        &self,
        alloc: Global,
        ceremony: &C,
        epoch: Epoch,
        signer: &C::Signer,
        round: &Round,
        share: Option<&Share>,
        seed: &Seed,
    ) -> Result<Option<Dealer>, StoreError>
        requires { Contains round.now.dealers (C.Signer.key_of signer.now) }
        ensures some { IfOk result (λ made. is_some made ≡ not (map.contains_key self.now.logs (epoch, C.Signer.key_of signer.now))) }
        ensures me { IfOk result (λ made. IfSome made (λ dealer. dealer.me ≡ C.Signer.key_of signer.now)) }
        ensures round { IfOk result (λ made. IfSome made (λ dealer. dealer.round ≡ round.now)) }
        ensures dealt { IfOk result (λ made. IfSome made (λ dealer. C.deal_of round.now (C.Signer.key_of signer.now) (option_copied share.entry) seed.now
            ≡ Ok (dealer.public, dealer.privates))) }
        ensures acks { IfOk result (λ made. IfSome made (λ dealer. map.entries dealer.acks
            ≡ passing_acks (C.check_ack_of round.now (C.Signer.key_of signer.now) dealer.public) (at_epoch epoch self.now.acks))) }
        ensures open { IfOk result (λ made. IfSome made (λ dealer. dealer.is_open ≡ true)) }
        ensures finalized { IfOk result (λ made. IfSome made (λ dealer. dealer.finalized ≡ None)) }
        ensures dealer { IfOk result (λ made. IfSome made (λ dealer. IsDealerOf C.deal_of C.check_ack_of dealer)) }
        ensures error_kinds { IfErr result IsOfDealing }
        ensures refused { IfErr result (λ e. (e ≡ StoreError.NoMemory) ⊎ ((e ≡ StoreError.LocalState (LocalCause.ShareRefused epoch))
            × (C.deal_of round.now (C.Signer.key_of signer.now) (option_copied share.entry) seed.now ≡ Err DealError.ShareRefused)
            × (map.contains_key self.now.logs (epoch, C.Signer.key_of signer.now) ≡ false))) }
    {
        let me = signer.public_key();
        if self.has_log(epoch, me) {
            return Ok(None);
        }
        match ceremony.deal(alloc, round, signer, share, seed) {
            Err(DealError::NoMemory) => Err(StoreError::NoMemory),
            Err(DealError::ShareRefused) => {
                Err(StoreError::LocalState(LocalCause::ShareRefused { epoch }))
            }
            Ok((public, privates)) => {
                let acks = replayed(alloc, ceremony, &self.acks, epoch, round, me, &public)?;
                let dealer = Dealer::new(alloc, me, round, public, privates, acks)?;
                Ok(Some(dealer))
            }
        }
    }

    /// The info of the epoch that was committed last in this life.
    pub fn current(&self) -> Option<&EpochInfo<Dir>>
        ensures { option_copied result ≡ self.now.current }
    {
        self.current.as_ref()
    }

    /// The share of an epoch, if one was put.
    pub fn share<D: Disk, X: SecretStore>(
        &mut self,
        alloc: Global,
        devices: &mut Devices<'_, D, X>,
        epoch: Epoch,
    ) -> Result<Option<Share>, StoreError>
        ensures share { IfOk result (λ share. IsTrue X.tells → share ≡ map.get (X.held devices.old.secrets.now).shares epoch) }
        ensures store { self.new ≡ self.old }
        ensures same { X.held devices.new.secrets.now ≡ X.held devices.old.secrets.now }
        ensures disk { devices.new.disk.now ≡ devices.old.disk.now }
        ensures fuse { devices.new.fuse ≡ devices.old.fuse }
        ensures acts { IsTrue D.tells → IsTrue X.tells → (out : List Entry) → MadeOn D.files D.image X.held
            (sharing epoch)
            (ended result) devices.old devices.new out out }
        ensures called { Called ⊤ D.made X.made D.faults X.faults (made_in false result)
            [] devices.old devices.new }
        ensures due { IfErr result (λ e. ErrorIsDue e ⊥ (Rose (X.faults devices.old.secrets.now) (X.faults devices.new.secrets.now)) ⊥
            (Rose (X.wants devices.old.secrets.now) (X.wants devices.new.secrets.now))) }
    {
        match devices.secrets.get_share(alloc, epoch) {
            Ok(share) => Ok(share),
            Err(SecretError::Failed) => Err(StoreError::Secrets),
            Err(SecretError::NoMemory) => Err(StoreError::NoMemory),
        }
    }

    /// The newest share of an epoch below this one, if there is one.
    pub fn share_below<D: Disk, X: SecretStore>(
        &mut self,
        alloc: Global,
        devices: &mut Devices<'_, D, X>,
        epoch: Epoch,
    ) -> Result<Option<Share>, StoreError>
        ensures share { IfOk result (λ share. IsTrue X.tells → share ≡ newest_below (map.entries (X.held devices.old.secrets.now).shares) epoch) }
        ensures store { self.new ≡ self.old }
        ensures same { X.held devices.new.secrets.now ≡ X.held devices.old.secrets.now }
        ensures disk { devices.new.disk.now ≡ devices.old.disk.now }
        ensures fuse { devices.new.fuse ≡ devices.old.fuse }
        ensures acts { IsTrue D.tells → IsTrue X.tells → (out : List Entry) → MadeOn D.files D.image X.held
            (sharing_below epoch)
            (ended result) devices.old devices.new out out }
        ensures called { Called ⊤ D.made X.made D.faults X.faults (made_in false result)
            [] devices.old devices.new }
        ensures due { IfErr result (λ e. ErrorIsDue e ⊥ (Rose (X.faults devices.old.secrets.now) (X.faults devices.new.secrets.now)) ⊥
            (Rose (X.wants devices.old.secrets.now) (X.wants devices.new.secrets.now))) }
    {
        match devices.secrets.get_share_below(alloc, epoch) {
            Ok(share) => Ok(share),
            Err(SecretError::Failed) => Err(StoreError::Secrets),
            Err(SecretError::NoMemory) => Err(StoreError::NoMemory),
        }
    }

    /// The seed of an epoch, if one was put.
    pub fn seed<D: Disk, X: SecretStore>(
        &mut self,
        alloc: Global,
        devices: &mut Devices<'_, D, X>,
        epoch: Epoch,
    ) -> Result<Option<Seed>, StoreError>
        ensures seed { IfOk result (λ seed. IsTrue X.tells → seed ≡ map.get (X.held devices.old.secrets.now).seeds epoch) }
        ensures store { self.new ≡ self.old }
        ensures same { X.held devices.new.secrets.now ≡ X.held devices.old.secrets.now }
        ensures disk { devices.new.disk.now ≡ devices.old.disk.now }
        ensures fuse { devices.new.fuse ≡ devices.old.fuse }
        ensures acts { IsTrue D.tells → IsTrue X.tells → (out : List Entry) → MadeOn D.files D.image X.held
            (seeding epoch)
            (ended result) devices.old devices.new out out }
        ensures called { Called ⊤ D.made X.made D.faults X.faults (made_in false result)
            [] devices.old devices.new }
        ensures due { IfErr result (λ e. ErrorIsDue e ⊥ (Rose (X.faults devices.old.secrets.now) (X.faults devices.new.secrets.now)) ⊥
            (Rose (X.wants devices.old.secrets.now) (X.wants devices.new.secrets.now))) }
    {
        match devices.secrets.get_seed(alloc, epoch) {
            Ok(seed) => Ok(seed),
            Err(SecretError::Failed) => Err(StoreError::Secrets),
            Err(SecretError::NoMemory) => Err(StoreError::NoMemory),
        }
    }

    /// Puts the share, if there is one, then the seed; then the info is the current one.
    pub fn commit_epoch<D: Disk, X: SecretStore>(
        &mut self,
        alloc: Global,
        devices: &mut Devices<'_, D, X>,
        info: EpochInfo<Dir>,
        seed: Seed,
        share: Option<Share>,
    ) -> Result<(), StoreError>
        ensures kept { self.new ≡ record self.old { current = if_made (made_in true result) (Some info) self.old.current } }
        ensures done { OnOk result (IsTrue X.tells → X.held devices.new.secrets.now ≡ committed info.epoch seed share (X.held devices.old.secrets.now)) }
        ensures disk { devices.new.disk.now ≡ devices.old.disk.now }
        // Wherever it stops, each image with the secrets is whole as before, and gives the same dealings.
        ensures holds { (pairs : Pairs) → HoldsDealings pairs (D.image devices.old.disk.now) (X.held devices.old.secrets.now)
            → HoldsDealings pairs (D.image devices.new.disk.now) (X.held devices.new.secrets.now) }
        // The share, if there is one, and then the seed: both at Ok, and at any other exit a part.
        ensures acts { IsTrue D.tells → IsTrue X.tells → (out : List Entry) → MadeOn D.files D.image X.held
            (committing info.epoch seed share)
            (ended result) devices.old devices.new out out }
        ensures called { Called ⊤ D.made X.made D.faults X.faults (made_in true result)
            (list_map on_secrets (commit_calls info.epoch seed share)) devices.old devices.new }
        ensures due { IfErr result (λ e. ErrorIsDue e ⊥ (Rose (X.faults devices.old.secrets.now) (X.faults devices.new.secrets.now))
            (Reached devices.old.fuse devices.new.fuse) (Rose (X.wants devices.old.secrets.now) (X.wants devices.new.secrets.now))) }
    {
        put_both(
            alloc,
            devices.secrets,
            &mut devices.fuse,
            info.epoch,
            seed,
            share,
        )?;
        self.current = Some(info);
        Ok(())
    }

    /// Forgets what is below the minimum: it takes away the journal's files of epochs below it, and then prunes the secrets. No other file
    /// comes or goes, wherever it stops.
    ///
    /// After an error all is kept in memory as it was. Want of memory leaves all as before, but where a device itself wanted it.
    ///
    /// It takes a call of the disk for each file that goes, and reads none. The time is linear in the names of files, and in what goes of the secrets.
    pub fn prune<D: Disk, X: SecretStore>(
        &mut self,
        alloc: Global,
        devices: &mut Devices<'_, D, X>,
        min: Epoch,
    ) -> Result<(), StoreError>
        requires open { IsTrue D.tells → IsOpen self.old.journal (D.files devices.old.disk.now) (D.image devices.old.disk.now) }
        ensures open { OnOk result (IsTrue D.tells → IsOpen self.new.journal (D.files devices.new.disk.now) (D.image devices.new.disk.now)) }
        // Nothing is forgotten that the devices may still hold.
        ensures kept { KeepsAbove (made_in true result) min self.old self.new }
        ensures done { OnOk result (IsTrue X.tells → X.held devices.new.secrets.now ≡ after (SecretOp.Prune min) (X.held devices.old.secrets.now)) }
        ensures crash { Tries (SecretOp.Prune min) (X.held devices.old.secrets.now) (X.held devices.new.secrets.now) }
        // Each image with the secrets then held is whole as before, and gives all from before, or what lies at or above the minimum; at Ok the latter.
        ensures gives { IsTrue D.tells → GivesAbove min (made_in true result)
            (D.image devices.old.disk.now) (D.image devices.new.disk.now) (X.held devices.old.secrets.now) (X.held devices.new.secrets.now) }
        // Each image has the names of segments from before, or those at or above the minimum, and every other file as it was.
        ensures shrinks { IsTrue D.tells → Shrinks min (made_in true result)
            (D.files devices.old.disk.now) (D.files devices.new.disk.now) (D.image devices.old.disk.now) (D.image devices.new.disk.now) }
        // The journal, and then the secrets: both at Ok, and at any other exit a part, whatever image is left.
        ensures acts { IsTrue D.tells → IsTrue X.tells → (out : List Entry) → MadeOn D.files D.image X.held
            (pruning min)
            (ended result) devices.old devices.new out out }
        ensures called { Called (IsTrue D.tells) D.made X.made D.faults X.faults (made_in true result)
            (prune_both min (keys (D.files devices.old.disk.now))) devices.old devices.new }
        // The disk comes first: where it failed, the secrets are as they were. After a cut nothing of the disk is loose, where nothing was.
        ensures due { IfErr result (λ e. ErrorIsDue e
            (Rose (D.faults devices.old.disk.now) (D.faults devices.new.disk.now) × (devices.new.secrets.now ≡ devices.old.secrets.now))
            (Rose (X.faults devices.old.secrets.now) (X.faults devices.new.secrets.now))
            (Reached devices.old.fuse devices.new.fuse × (IsTrue D.tells → StaysFirm D.files D.image devices.old.disk.now devices.new.disk.now))
            (IsWant ((self.new ≡ self.old)
            × D.made devices.old.disk.now devices.new.disk.now [] × IsUnchanged D.files D.image devices.old.disk.now devices.new.disk.now
            × (devices.new.secrets.now ≡ devices.old.secrets.now) × (devices.new.fuse ≡ devices.old.fuse))
            (D.wants devices.old.disk.now) (D.wants devices.new.disk.now) (X.wants devices.old.secrets.now) (X.wants devices.new.secrets.now))) }
    {
        prune_devices(alloc, devices, &mut self.journal, min)?;
        self.dealings.prune(min.0);
        self.acks.prune(min.0);
        self.logs.prune(min.0);
        Ok(())
    }

    /// Puts the private half, and then appends the record. It answers false where the dealer's is recorded already. The first record of
    /// an epoch makes that epoch's file, and no other file comes or goes.
    pub fn append_dealing<D: Disk, X: SecretStore>(
        &mut self,
        alloc: Global,
        devices: &mut Devices<'_, D, X>,
        epoch: Epoch,
        dealer: Key,
        public: Public,
        private: Private,
    ) -> Result<bool, StoreError>
        requires short { length (event_spelling (events.Dealing dealer public)) < 2 ^ 32 }
        requires open { IsTrue D.tells → IsOpen self.old.journal (D.files devices.old.disk.now) (D.image devices.old.disk.now) }
        ensures open { OnOk result (IsTrue D.tells → IsOpen self.new.journal (D.files devices.new.disk.now) (D.image devices.new.disk.now)) }
        ensures known { IfOk result (λ new. new ≡ not (map.contains_key self.old.dealings (epoch, dealer))) }
        ensures kept { KeepsPair (result_ok result) (epoch, dealer) (public, private) self.old self.new }
        // What is recorded already touches nothing.
        ensures untouched { IfOk result (λ new. new ≡ false → (self.new ≡ self.old) × (devices.new ≡ devices.old)) }
        // Each image, with the secrets then held, gives the dealings from before, with the new one or without; the other kinds it gives as before.
        ensures gives { IsTrue D.tells → GivesDealing (IsTrue X.tells) (result_ok result)
            self.old.dealings (map.insert self.old.dealings (epoch, dealer) (public, private))
            (D.image devices.old.disk.now) (D.image devices.new.disk.now) (X.held devices.old.secrets.now) (X.held devices.new.secrets.now) }
        // Whatever a crash leaves of the disk.
        ensures extends { IsTrue D.tells → Extends (result_ok result)
            epoch (event_spelling (events.Dealing dealer public))
            (D.files devices.old.disk.now) (D.files devices.new.disk.now) (D.image devices.old.disk.now) (D.image devices.new.disk.now) }
        // The put, and then the append, where it was not recorded: both at Ok, and at any other exit a part, whatever image is left.
        ensures acts { IsTrue D.tells → IsTrue X.tells → (out : List Entry) → MadeOn D.files D.image X.held
            (recording (map.contains_key self.old.dealings (epoch, dealer)) epoch dealer public private)
            (ended result) devices.old devices.new out out }
        ensures called { Called ⊤ D.made X.made D.faults X.faults (result_ok result)
            (dealing_calls self.old.journal epoch dealer public private) devices.old devices.new }
        // The secret store comes first: where it failed, the disk is as it was. After a cut nothing of the disk is loose, where nothing was.
        ensures due { IfErr result (λ e. ErrorIsDue e (Rose (D.faults devices.old.disk.now) (D.faults devices.new.disk.now))
            (Rose (X.faults devices.old.secrets.now) (X.faults devices.new.secrets.now) × (devices.new.disk.now ≡ devices.old.disk.now))
            (Reached devices.old.fuse devices.new.fuse × (IsTrue D.tells → StaysFirm D.files D.image devices.old.disk.now devices.new.disk.now))
            (IsWant ((self.new ≡ self.old) × (devices.new ≡ devices.old))
            (D.wants devices.old.disk.now) (D.wants devices.new.disk.now) (X.wants devices.old.secrets.now) (X.wants devices.new.secrets.now))) }
    {
        if self.dealings.get(epoch, dealer).is_some() {
            return Ok(false);
        }
        let ready = ready_dealing(alloc, epoch, dealer, &public, private)?;
        record_dealing(
            alloc,
            &mut self.dealings,
            &mut self.journal,
            devices,
            &ready,
            epoch,
            dealer,
            public,
            private,
        )?;
        Ok(true)
    }

    /// Appends the record of a player's acknowledgement of this node's dealing. It answers false where the player's is recorded already.
    /// The first record of an epoch makes that epoch's file, and no other file comes or goes.
    pub fn append_ack<D: Disk, X: SecretStore>(
        &mut self,
        alloc: Global,
        devices: &mut Devices<'_, D, X>,
        epoch: Epoch,
        player: Key,
        ack: Ack,
    ) -> Result<bool, StoreError>
        requires open { IsTrue D.tells → IsOpen self.old.journal (D.files devices.old.disk.now) (D.image devices.old.disk.now) }
        ensures open { OnOk result (IsTrue D.tells → IsOpen self.new.journal (D.files devices.new.disk.now) (D.image devices.new.disk.now)) }
        ensures known { IfOk result (λ new. new ≡ not (map.contains_key self.old.acks (epoch, player))) }
        // The first record stays.
        ensures kept { KeepsAck (result_ok result) (epoch, player) ack self.old self.new }
        // What is recorded already touches nothing.
        ensures untouched { IfOk result (λ new. new ≡ false → (self.new ≡ self.old) × (devices.new ≡ devices.old)) }
        // Each image gives what was recorded of the kind, with the new record or without, and of the other kinds what it gave.
        ensures gives { IsTrue D.tells → GivesNote acks_in logs_in (result_ok result) self.old.acks
            (map.insert self.old.acks (epoch, player) ack)
            (D.image devices.old.disk.now) (D.image devices.new.disk.now) (X.held devices.old.secrets.now) (X.held devices.new.secrets.now) }
        // Whatever a crash leaves of the disk.
        ensures extends { IsTrue D.tells → Extends (result_ok result)
            epoch (event_spelling (events.Ack player ack))
            (D.files devices.old.disk.now) (D.files devices.new.disk.now) (D.image devices.old.disk.now) (D.image devices.new.disk.now) }
        ensures secrets { devices.new.secrets.now ≡ devices.old.secrets.now }
        // The append, where it was not recorded: all of it at Ok, and at any other exit a part, whatever image is left.
        ensures acts { IsTrue D.tells → (out : List Entry) → MadeOn D.files D.image X.held
            (noting (map.contains_key self.old.acks (epoch, player)) (epoch, event_spelling (events.Ack player ack)))
            (ended result) devices.old devices.new out out }
        ensures called { Called ⊤ D.made X.made D.faults X.faults (result_ok result)
            (list_map on_disk (append_calls self.old.journal (epoch, event_spelling (events.Ack player ack)))) devices.old devices.new }
        // The secret store is not called. After a cut nothing of the disk is loose.
        ensures due { IfErr result (λ e. ErrorIsDue e (Rose (D.faults devices.old.disk.now) (D.faults devices.new.disk.now)) ⊥
            (Reached devices.old.fuse devices.new.fuse × (IsTrue D.tells → Lands (D.files devices.new.disk.now) (D.image devices.new.disk.now)))
            (((self.new ≡ self.old) × (devices.new ≡ devices.old))
            ⊎ Rose (D.wants devices.old.disk.now) (D.wants devices.new.disk.now))) }
    {
        if self.acks.get(epoch, player).is_some() {
            return Ok(false);
        }
        ack_fits(player, &ack);
        let body = ack_body(alloc, player, &ack)?;
        append_event(
            alloc,
            &mut self.acks,
            &mut self.journal,
            devices,
            epoch,
            player,
            ack,
            &body,
        )?;
        Ok(true)
    }

    /// Appends the record of a dealer's log at the height of the block that carried it. It answers false where a log of the dealer is
    /// recorded already, with a height or without. The first record of an epoch makes that epoch's file, and no other file comes or goes.
    pub fn append_log<D: Disk, X: SecretStore>(
        &mut self,
        alloc: Global,
        devices: &mut Devices<'_, D, X>,
        epoch: Epoch,
        dealer: Key,
        height: Height,
        log: DealerLog,
    ) -> Result<bool, StoreError>
        requires short { length (event_spelling (events.LogAt dealer height log)) < 2 ^ 32 }
        requires open { IsTrue D.tells → IsOpen self.old.journal (D.files devices.old.disk.now) (D.image devices.old.disk.now) }
        ensures open { OnOk result (IsTrue D.tells → IsOpen self.new.journal (D.files devices.new.disk.now) (D.image devices.new.disk.now)) }
        ensures known { IfOk result (λ new. new ≡ not (map.contains_key self.old.logs (epoch, dealer))) }
        // The first record stays.
        ensures kept { KeepsLog (result_ok result) (epoch, dealer) (record { height = Some height; log = log }) self.old self.new }
        // What is recorded already touches nothing.
        ensures untouched { IfOk result (λ new. new ≡ false → (self.new ≡ self.old) × (devices.new ≡ devices.old)) }
        // Each image gives what was recorded of the kind, with the new record or without, and of the other kinds what it gave.
        ensures gives { IsTrue D.tells → GivesNote logs_in acks_in (result_ok result) self.old.logs
            (map.insert self.old.logs (epoch, dealer) (record { height = Some height; log = log }))
            (D.image devices.old.disk.now) (D.image devices.new.disk.now) (X.held devices.old.secrets.now) (X.held devices.new.secrets.now) }
        // Whatever a crash leaves of the disk.
        ensures extends { IsTrue D.tells → Extends (result_ok result)
            epoch (event_spelling (events.LogAt dealer height log))
            (D.files devices.old.disk.now) (D.files devices.new.disk.now) (D.image devices.old.disk.now) (D.image devices.new.disk.now) }
        ensures secrets { devices.new.secrets.now ≡ devices.old.secrets.now }
        // The append, where it was not recorded: all of it at Ok, and at any other exit a part, whatever image is left.
        ensures acts { IsTrue D.tells → (out : List Entry) → MadeOn D.files D.image X.held
            (noting (map.contains_key self.old.logs (epoch, dealer)) (epoch, event_spelling (events.LogAt dealer height log)))
            (ended result) devices.old devices.new out out }
        ensures called { Called ⊤ D.made X.made D.faults X.faults (result_ok result)
            (list_map on_disk (append_calls self.old.journal (epoch, event_spelling (events.LogAt dealer height log)))) devices.old devices.new }
        // The secret store is not called. After a cut nothing of the disk is loose.
        ensures due { IfErr result (λ e. ErrorIsDue e (Rose (D.faults devices.old.disk.now) (D.faults devices.new.disk.now)) ⊥
            (Reached devices.old.fuse devices.new.fuse × (IsTrue D.tells → Lands (D.files devices.new.disk.now) (D.image devices.new.disk.now)))
            (((self.new ≡ self.old) × (devices.new ≡ devices.old))
            ⊎ Rose (D.wants devices.old.disk.now) (D.wants devices.new.disk.now))) }
    {
        if self.logs.get(epoch, dealer).is_some() {
            return Ok(false);
        }
        log_fits(dealer, height, &log);
        let body = log_body(alloc, dealer, height, &log)?;
        let recorded = RecordedLog {
            height: Some(height),
            log,
        };
        append_event(
            alloc,
            &mut self.logs,
            &mut self.journal,
            devices,
            epoch,
            dealer,
            recorded,
            &body,
        )?;
        Ok(true)
    }

    /// The recorded dealings of an epoch by dealer, restored ones and new ones alike.
    ///
    /// The time is linear in them, but for one look-up among all that are recorded.
    pub fn dealings(&self, alloc: Global, epoch: Epoch) -> Mem<Map<(Public, Private)>>
        ensures { IfOk result (λ dealings. dealings ≡ at_epoch epoch self.now.dealings) }
    {
        map_of_epoch(alloc, &self.dealings, epoch)
    }

    /// The recorded logs of an epoch by dealer, of blocks at or below the tip; without a tip there are none. A log that was recorded
    /// without a height stands at the midpoint of its epoch.
    ///
    /// The time is linear in the epoch's logs, but for one look-up among all that are recorded.
    pub fn logs(
        &self,
        alloc: Global,
        epoch: Epoch,
        midpoint: Height,
        tip: Option<Height>,
    ) -> Mem<Map<DealerLog>>
        ensures { IfOk result (λ logs. logs ≡ reached_logs midpoint tip (at_epoch epoch self.now.logs)) }
    {
        reached_logs(alloc, &self.logs, epoch, midpoint, tip)
    }

    /// Whether a dealer's log is recorded, at whatever height. The time is logarithmic in how many are recorded.
    pub fn has_log(&self, epoch: Epoch, dealer: Key) -> bool
        ensures { result ≡ map.contains_key self.now.logs (epoch, dealer) }
    {
        self.logs.get(epoch, dealer).is_some()
    }
}
