//! A player of a round: it acknowledges each dealer once, for the dealing that is recorded.
//!
//! A reshare actor hands it each dealing that comes in.
ghost use Rattle.std.specs.Prelude.{◌≡◌, ◌⊎◌, ◌<◌, ◌^◌, ⊤, length, OnOk, OnErr, IfOk, IfErr, IsTrue, None, Contains, if◌then◌else◌, not, true};
ghost use Rattle.std.specs.FinMap as map;
ghost use Rattle.dkg_journal.specs.Disk.{Rose};
ghost use Rattle.dkg_journal.specs.Fuse.{Reached};
ghost use Rattle.dkg_journal.specs.Journals.{IsOpen};
ghost use Rattle.dkg_store.specs.Acts.{MadeOn};
ghost use Rattle.dkg_store.specs.Both.{IsWant};
ghost use Rattle.dkg_store.specs.Called.{Called, ErrorIsDue, made_in};
ghost use Rattle.dkg_store.specs.Calls.{keeping, accepting, answering, answered, ended};
ghost use Rattle.dkg_store.specs.Events.{event_spelling};
ghost use Rattle.dkg_store.specs.declared.event.Event.TheVariants as events;
ghost use Rattle.dkg_store.specs.Left.{Extends, GivesDealing};
ghost use Rattle.dkg_store.specs.On.{StaysFirm};
ghost use Rattle.dkg_store.specs.Player.{Handles, IsDueTo, IsPlayerOf, KeepsDealing, Untouched, answer_to, handled_in};
ghost use Rattle.dkg_store.specs.Ready.{dealing_calls};
ghost use Rattle.dkg_store.specs.Recorded.{AreChecked, with_first};
ghost use Rattle.dkg_ceremony.specs.Finishes.{AnswersFinish, IsMissing};
ghost use Rattle.dkg_store.specs.declared.player.DealingHandleError.TheVariants.{Store as OfStore};

use crate::call::StoreError;
use crate::devices::Devices;
use crate::key_map::KeyMap;
use crate::store::Store;
use dkg_ceremony::{
    Ack, Ceremony, DealerLog, DealingError, FinishError, Output, Private, Public, Round, Share,
    Signer, Value,
};
use dkg_infos::{Entry, Transcript};
use dkg_journal::Disk;
use dkg_secrets::{NumberMap, SecretStore};
use dkg_values::{Epoch, Key, Map, Mem};
use std::alloc::Global;
use thiserror::Error;

/// Why a dealing gets no acknowledgement.
#[derive(Debug, Drop, Error)]
pub enum DealingHandleError {
    /// The dealing is not one of the round's to this player.
    #[error("the dealing is refused: {0}")]
    Refused(DealingError),
    /// The store did not record it.
    #[error("the dealing is not recorded: {0}")]
    Store(StoreError),
}

impl From<StoreError> for DealingHandleError {
    ghost from_gives = { λ of_store of_player. of_player ≡ OfStore of_store };

    fn from(error: StoreError) -> DealingHandleError {
        DealingHandleError::Store(error)
    }
}

/// A node as a player of one round.
#[derive(Drop)]
pub struct Player {
    me: Key,
    round: Round,
    /// The acknowledgements that were asked for, by dealer.
    acks: NumberMap<Ack>,
    /// Both halves of what was recorded when it was made, and of what it recorded since, by dealer.
    dealings: KeyMap<(Public, Private)>,
}

pub(crate) fn kept_ack(acks: &NumberMap<Ack>, dealer: Key) -> Option<Ack>
    ensures { result ≡ map.get acks.now dealer }
{
    acks.get(u64::from(dealer.0)).copied()
}

pub(crate) fn keep_ack(acks: &mut NumberMap<Ack>, dealer: Key, ack: Ack) -> Result<(), StoreError>
    ensures done { OnOk result (acks.new ≡ map.insert acks.old dealer ack) }
    ensures kept { OnErr result (acks.new ≡ acks.old) }
    ensures memory { IfErr result (λ e. e ≡ StoreError.NoMemory) }
    ensures fits { dealer < 2 ^ 32 }
{
    acks.insert(u64::from(dealer.0), ack)?;
    Ok(())
}

pub(crate) fn forget_ack(acks: &mut NumberMap<Ack>, dealer: Key)
    ensures { acks.new ≡ map.remove acks.old dealer }
{
    acks.remove(u64::from(dealer.0));
}

/// Keeps both halves of a dealing, where none of its dealer's are kept. Whether they are new.
fn keep_halves(
    alloc: Global,
    dealings: &mut KeyMap<(Public, Private)>,
    dealer: Key,
    public: &Public,
    private: Private,
) -> Result<bool, StoreError>
    ensures done { OnOk result (dealings.new ≡ with_first dealings.old dealer (public.now, private)) }
    ensures new { IfOk result (λ new. new ≡ not (map.contains_key dealings.old dealer)) }
    ensures same { OnErr result (dealings.new ≡ dealings.old) }
    ensures memory { IfErr result (λ e. e ≡ StoreError.NoMemory) }
{
    if dealings.get(dealer).is_some() {
        return Ok(false);
    }
    dealings.insert(dealer, (public.copy(alloc)?, private))?;
    Ok(true)
}

/// Takes both halves back, where they were new.
fn forget_halves(dealings: &mut KeyMap<(Public, Private)>, dealer: Key, new: bool)
    ensures { dealings.new ≡ (if new then map.remove dealings.old dealer else dealings.old) }
{
    if new {
        dealings.remove(dealer);
    }
}

/// Keeps a dealing and its acknowledgement, or, where memory runs out, neither. Whether the dealing is new.
fn keep_both(
    alloc: Global,
    acks: &mut NumberMap<Ack>,
    dealings: &mut KeyMap<(Public, Private)>,
    dealer: Key,
    ack: Ack,
    public: &Public,
    private: Private,
) -> Result<bool, StoreError>
    ensures ack { OnOk result (acks.new ≡ map.insert acks.old dealer ack) }
    ensures dealing { OnOk result (dealings.new ≡ with_first dealings.old dealer (public.now, private)) }
    ensures new { IfOk result (λ new. new ≡ not (map.contains_key dealings.old dealer)) }
    ensures no_ack { OnErr result (acks.new ≡ acks.old) }
    ensures no_dealing { OnErr result (dealings.new ≡ dealings.old) }
    ensures memory { IfErr result (λ e. e ≡ StoreError.NoMemory) }
    ensures fits { OnOk result (dealer < 2 ^ 32) }
{
    let new = keep_halves(alloc, dealings, dealer, public, private)?;
    if let Err(error) = keep_ack(acks, dealer, ack) {
        forget_halves(dealings, dealer, new);
        return Err(error);
    }
    Ok(new)
}

/// Takes both back: the acknowledgement, and the dealing where it was new.
fn forget_both(
    acks: &mut NumberMap<Ack>,
    dealings: &mut KeyMap<(Public, Private)>,
    dealer: Key,
    new: bool,
)
    ensures ack { acks.new ≡ map.remove acks.old dealer }
    ensures dealing { dealings.new ≡ (if new then map.remove dealings.old dealer else dealings.old) }
{
    forget_ack(acks, dealer);
    forget_halves(dealings, dealer, new);
}

/// Records a new dealing, tells it, and keeps it with its acknowledgement.
fn keep_dealing<D: Disk, X: SecretStore, Dir: Drop>(
    alloc: Global,
    acks: &mut NumberMap<Ack>,
    dealings: &mut KeyMap<(Public, Private)>,
    devices: &mut Devices<'_, D, X>,
    store: &mut Store<Dir>,
    out: &mut Transcript,
    told: Public,
    ack: Ack,
    epoch: Epoch,
    dealer: Key,
    public: Public,
    private: Private,
) -> Result<(), StoreError>
    requires short { length (event_spelling (events.Dealing dealer public)) < 2 ^ 32 }
    requires room { 0 < out.old.spare }
    requires new { (map.get acks.old dealer ≡ None) × (map.get store.old.dealings (epoch, dealer) ≡ None) }
    requires open { IsTrue D.tells → IsOpen store.old.journal (D.files devices.old.disk.now) (D.image devices.old.disk.now) }
    ensures open { OnOk result (IsTrue D.tells → IsOpen store.new.journal (D.files devices.new.disk.now) (D.image devices.new.disk.now)) }
    ensures keeps { KeepsDealing (made_in true result) epoch dealer public told private ack acks.old acks.new dealings.old dealings.new
        store.old store.new out.old.entries out.new.entries }
    // Each image, with the secrets then held, gives the dealings from before, with the new one or without; the other kinds it gives as before.
    ensures gives { IsTrue D.tells → GivesDealing (IsTrue X.tells) (made_in true result)
        store.old.dealings (map.insert store.old.dealings (epoch, dealer) (public, private))
        (D.image devices.old.disk.now) (D.image devices.new.disk.now) (X.held devices.old.secrets.now) (X.held devices.new.secrets.now) }
    // Whatever a crash leaves of the disk.
    ensures extends { IsTrue D.tells → Extends (made_in true result)
        epoch (event_spelling (events.Dealing dealer public))
        (D.files devices.old.disk.now) (D.files devices.new.disk.now) (D.image devices.old.disk.now) (D.image devices.new.disk.now) }
    ensures acts { IsTrue D.tells → IsTrue X.tells → MadeOn D.files D.image X.held
        (keeping epoch dealer public told private tt)
        (ended result) devices.old devices.new out.old.entries out.new.entries }
    ensures called { Called ⊤ D.made X.made D.faults X.faults (made_in true result)
        (dealing_calls store.old.journal epoch dealer public private) devices.old devices.new }
    // The secret store comes first: where it failed, the disk is as it was. After a cut nothing of the disk is loose, where nothing was.
    ensures due { IfErr result (λ e. ErrorIsDue e (Rose (D.faults devices.old.disk.now) (D.faults devices.new.disk.now))
        (Rose (X.faults devices.old.secrets.now) (X.faults devices.new.secrets.now) × (devices.new.disk.now ≡ devices.old.disk.now))
        (Reached devices.old.fuse devices.new.fuse × (IsTrue D.tells → StaysFirm D.files D.image devices.old.disk.now devices.new.disk.now))
        (IsWant ((acks.new ≡ acks.old) × (dealings.new ≡ dealings.old) × (store.new ≡ store.old) × (devices.new ≡ devices.old))
        (D.wants devices.old.disk.now) (D.wants devices.new.disk.now) (X.wants devices.old.secrets.now) (X.wants devices.new.secrets.now))) }
{
    let new = keep_both(alloc, acks, dealings, dealer, ack, &public, private)?;
    match store.append_dealing(alloc, devices, epoch, dealer, public, private) {
        Err(error) => {
            forget_both(acks, dealings, dealer, new);
            Err(error)
        }
        Ok(_) => {
            let pushed = out.push(Entry::Recorded {
                epoch,
                dealer,
                public: told,
                private,
            });
            prove!(pushed.is_ok());
            Ok(())
        }
    }
}

/// The acknowledgement of a new dealing and the public half that is told, with room to tell it.
fn ready_answer<C: Ceremony>(
    alloc: Global,
    ceremony: &C,
    signer: &C::Signer,
    round: &mut Round,
    out: &mut Transcript,
    dealer: Key,
    public: &Public,
) -> Result<(Ack, Public), StoreError>
    requires { Contains round.old.players (C.Signer.key_of signer.now) }
    ensures ack { IfOk result (λ r. r.0 ≡ C.ack_of (C.Signer.key_of signer.now) round.old dealer public.now) }
    ensures told { IfOk result (λ r. r.1 ≡ public.now) }
    ensures room { OnOk result (0 < out.new.spare) }
    ensures same { out.new.entries ≡ out.old.entries }
    ensures round { round.new ≡ round.old }
    ensures memory { IfErr result (λ e. e ≡ StoreError.NoMemory) }
{
    round.note_check(alloc);
    round.begin_acks(signer.public_key());
    let ack = ceremony.ack(alloc, signer, round, dealer, public)?;
    let told = public.copy(alloc)?;
    out.reserve(1)?;
    Ok((ack, told))
}

/// The acknowledgement of what is recorded.
fn acknowledge<C: Ceremony>(
    alloc: Global,
    acks: &mut NumberMap<Ack>,
    ceremony: &C,
    signer: &C::Signer,
    round: &mut Round,
    dealer: Key,
    public: &Public,
) -> Result<Ack, StoreError>
    requires { Contains round.old.players (C.Signer.key_of signer.now) }
    ensures ack { IfOk result (λ ack. ack ≡ C.ack_of (C.Signer.key_of signer.now) round.old dealer public.now) }
    ensures kept { IfOk result (λ ack. acks.new ≡ map.insert acks.old dealer ack) }
    ensures same { OnErr result (acks.new ≡ acks.old) }
    ensures round { round.new ≡ round.old }
    ensures memory { IfErr result (λ e. e ≡ StoreError.NoMemory) }
{
    round.begin_acks(signer.public_key());
    let ack = ceremony.ack(alloc, signer, round, dealer, public)?;
    keep_ack(acks, dealer, ack)?;
    Ok(ack)
}

impl Player {
    /// A player that has not been asked for an acknowledgement in this life, with these dealings. It keeps the round.
    pub(crate) fn new(
        alloc: Global,
        me: Key,
        round: &Round,
        dealings: KeyMap<(Public, Private)>,
    ) -> Mem<Player>
        ensures me { IfOk result (λ player. player.me ≡ me) }
        ensures round { IfOk result (λ player. player.round ≡ round.now) }
        ensures acks { IfOk result (λ player. player.acks ≡ map.empty) }
        ensures dealings { IfOk result (λ player. player.dealings ≡ dealings) }
    {
        Ok(Player {
            me,
            round: round.copy(alloc)?,
            acks: NumberMap::new(alloc),
            dealings,
        })
    }

    /// Checks a new dealing, records it, and acknowledges it.
    fn accept<C: Ceremony, D: Disk, X: SecretStore, Dir: Drop>(
        &mut self,
        alloc: Global,
        ceremony: &C,
        signer: &C::Signer,
        devices: &mut Devices<'_, D, X>,
        store: &mut Store<Dir>,
        out: &mut Transcript,
        epoch: Epoch,
        dealer: Key,
        public: Public,
        private: Private,
    ) -> Result<Ack, DealingHandleError>
        requires short { length (event_spelling (events.Dealing dealer public)) < 2 ^ 32 }
        requires seat { (C.Signer.key_of signer.now ≡ self.old.me) × Contains self.old.round.players self.old.me }
        requires new { (map.get self.old.acks dealer ≡ None) × (map.get store.old.dealings (epoch, dealer) ≡ None) }
        requires open { IsTrue D.tells → IsOpen store.old.journal (D.files devices.old.disk.now) (D.image devices.old.disk.now) }
        ensures open { OnOk result (IsTrue D.tells → IsOpen store.new.journal (D.files devices.new.disk.now) (D.image devices.new.disk.now)) }
        // It answers as what was kept and recorded says, and else as the check does; and it keeps, records and tells just a new dealing.
        ensures handled { Handles (handled_in self.old.acks store.old.dealings epoch dealer result) result
            (answer_to (C.ack_of self.old.me self.old.round dealer) (map.get self.old.acks dealer) (map.get store.old.dealings (epoch, dealer))
            (C.dealing_of self.old.round self.old.me dealer public private) public)
            epoch dealer public private self.old self.new store.old store.new out.old.entries out.new.entries }
        // A refusal touches nothing, nor does a dealing of a dealer whose dealing is recorded; and one that was answered before is answered.
        ensures untouched { Untouched (map.get self.old.acks dealer) (map.get store.old.dealings (epoch, dealer))
            (C.dealing_of self.old.round self.old.me dealer public private) result (self.new ≡ self.old)
            ((store.new ≡ store.old) × (out.new ≡ out.old) × (devices.new ≡ devices.old)) }
        // Each image, with the secrets then held, gives the dealings from before, with the new one or without; the other kinds it gives as before.
        ensures gives { IsTrue D.tells → GivesDealing (IsTrue X.tells) (handled_in self.old.acks store.old.dealings epoch dealer result)
            store.old.dealings (map.insert store.old.dealings (epoch, dealer) (public, private))
            (D.image devices.old.disk.now) (D.image devices.new.disk.now) (X.held devices.old.secrets.now) (X.held devices.new.secrets.now) }
        // Whatever a crash leaves of the disk.
        ensures extends { IsTrue D.tells → Extends (handled_in self.old.acks store.old.dealings epoch dealer result)
            epoch (event_spelling (events.Dealing dealer public))
            (D.files devices.old.disk.now) (D.files devices.new.disk.now) (D.image devices.old.disk.now) (D.image devices.new.disk.now) }
        ensures acts { IsTrue D.tells → IsTrue X.tells → MadeOn D.files D.image X.held
            (accepting (C.dealing_of self.old.round self.old.me dealer public private) epoch dealer public private
            (C.ack_of self.old.me self.old.round dealer public))
            (answered result) devices.old devices.new out.old.entries out.new.entries }
        ensures called { Called ⊤ D.made X.made D.faults X.faults (handled_in self.old.acks store.old.dealings epoch dealer result)
            (dealing_calls store.old.journal epoch dealer public private) devices.old devices.new }
        // The secret store comes first: where it failed, the disk is as it was. After a cut nothing of the disk is loose, where nothing was.
        ensures due { IfErr result (λ e. IsDueTo e (Rose (D.faults devices.old.disk.now) (D.faults devices.new.disk.now))
            (Rose (X.faults devices.old.secrets.now) (X.faults devices.new.secrets.now) × (devices.new.disk.now ≡ devices.old.disk.now))
            (Reached devices.old.fuse devices.new.fuse × (IsTrue D.tells → StaysFirm D.files D.image devices.old.disk.now devices.new.disk.now))
            (IsWant ((self.new ≡ self.old) × (store.new ≡ store.old) × (devices.new ≡ devices.old))
            (D.wants devices.old.disk.now) (D.wants devices.new.disk.now) (X.wants devices.old.secrets.now) (X.wants devices.new.secrets.now))) }
    {
        if let Err(error) = ceremony.check_dealing(
            &self.round,
            self.me,
            dealer,
            &public,
            &private,
        ) {
            return Err(DealingHandleError::Refused(error));
        }
        let (ack, told) = ready_answer(
            alloc,
            ceremony,
            signer,
            &mut self.round,
            out,
            dealer,
            &public,
        )?;
        keep_dealing(
            alloc,
            &mut self.acks,
            &mut self.dealings,
            devices,
            store,
            out,
            told,
            ack,
            epoch,
            dealer,
            public,
            private,
        )?;
        Ok(ack)
    }

    /// Answers a dealing: to a dealer whose dealing is recorded by the acknowledgement of that, whatever comes now; else by the
    /// check, the record, and the acknowledgement. It keeps a copy of what it records.
    ///
    /// Refused: what the check answers. Want of memory leaves all as before, but where a device itself wanted it.
    ///
    /// A dealer that was answered before costs a look-up among the acknowledgements, and one whose dealing is recorded a look-up among
    /// the dealings too, and its acknowledgement: both are logarithmic in how many are recorded.
    pub fn handle<C: Ceremony, D: Disk, X: SecretStore, Dir: Drop>(
        &mut self,
        alloc: Global,
        ceremony: &C,
        signer: &C::Signer,
        devices: &mut Devices<'_, D, X>,
        store: &mut Store<Dir>,
        out: &mut Transcript,
        epoch: Epoch,
        dealer: Key,
        public: Public,
        private: Private,
    ) -> Result<Ack, DealingHandleError>
        requires short { length (event_spelling (events.Dealing dealer public)) < 2 ^ 32 }
        requires seat { (C.Signer.key_of signer.now ≡ self.old.me) × Contains self.old.round.players self.old.me }
        requires open { IsTrue D.tells → IsOpen store.old.journal (D.files devices.old.disk.now) (D.image devices.old.disk.now) }
        ensures open { OnOk result (IsTrue D.tells → IsOpen store.new.journal (D.files devices.new.disk.now) (D.image devices.new.disk.now)) }
        // It answers as what was kept and recorded says, and else as the check does; and it keeps, records and tells just a new dealing.
        ensures handled { Handles (handled_in self.old.acks store.old.dealings epoch dealer result) result
            (answer_to (C.ack_of self.old.me self.old.round dealer) (map.get self.old.acks dealer) (map.get store.old.dealings (epoch, dealer))
            (C.dealing_of self.old.round self.old.me dealer public private) public)
            epoch dealer public private self.old self.new store.old store.new out.old.entries out.new.entries }
        // A refusal touches nothing, nor does a dealing of a dealer whose dealing is recorded; and one that was answered before is answered.
        ensures untouched { Untouched (map.get self.old.acks dealer) (map.get store.old.dealings (epoch, dealer))
            (C.dealing_of self.old.round self.old.me dealer public private) result (self.new ≡ self.old)
            ((store.new ≡ store.old) × (out.new ≡ out.old) × (devices.new ≡ devices.old)) }
        // Each image, with the secrets then held, gives the dealings from before, with the new one or without; the other kinds it gives as before.
        ensures gives { IsTrue D.tells → GivesDealing (IsTrue X.tells) (handled_in self.old.acks store.old.dealings epoch dealer result)
            store.old.dealings (map.insert store.old.dealings (epoch, dealer) (public, private))
            (D.image devices.old.disk.now) (D.image devices.new.disk.now) (X.held devices.old.secrets.now) (X.held devices.new.secrets.now) }
        // Whatever a crash leaves of the disk.
        ensures extends { IsTrue D.tells → Extends (handled_in self.old.acks store.old.dealings epoch dealer result)
            epoch (event_spelling (events.Dealing dealer public))
            (D.files devices.old.disk.now) (D.files devices.new.disk.now) (D.image devices.old.disk.now) (D.image devices.new.disk.now) }
        // A dealer whose dealing is recorded is answered by the acknowledgement of that. Else the check, the put, the append and the line: all of
        // them at Ok, and at any other exit a part, whatever image is left.
        ensures acts { IsTrue D.tells → IsTrue X.tells → IsPlayerOf C.ack_of self.old.me self.old.round self.old.acks store.old.dealings epoch
            → MadeOn D.files D.image X.held
            (answering (C.ack_of self.old.me self.old.round dealer) (map.get store.old.dealings (epoch, dealer))
            (C.dealing_of self.old.round self.old.me dealer public private) epoch dealer public private)
            (answered result) devices.old devices.new out.old.entries out.new.entries }
        ensures called { Called ⊤ D.made X.made D.faults X.faults (handled_in self.old.acks store.old.dealings epoch dealer result)
            (dealing_calls store.old.journal epoch dealer public private) devices.old devices.new }
        // The secret store comes first: where it failed, the disk is as it was. After a cut nothing of the disk is loose, where nothing was.
        ensures due { IfErr result (λ e. IsDueTo e (Rose (D.faults devices.old.disk.now) (D.faults devices.new.disk.now))
            (Rose (X.faults devices.old.secrets.now) (X.faults devices.new.secrets.now) × (devices.new.disk.now ≡ devices.old.disk.now))
            (Reached devices.old.fuse devices.new.fuse × (IsTrue D.tells → StaysFirm D.files D.image devices.old.disk.now devices.new.disk.now))
            (IsWant ((self.new ≡ self.old) × (store.new ≡ store.old) × (devices.new ≡ devices.old))
            (D.wants devices.old.disk.now) (D.wants devices.new.disk.now) (X.wants devices.old.secrets.now) (X.wants devices.new.secrets.now))) }
    {
        if let Some(ack) = kept_ack(&self.acks, dealer) {
            return Ok(ack);
        }
        if let Some((recorded, _)) = store.dealing(epoch, dealer) {
            return Ok(acknowledge(
                alloc,
                &mut self.acks,
                ceremony,
                signer,
                &mut self.round,
                dealer,
                recorded,
            )?);
        }
        self.accept(
            alloc, ceremony, signer, devices, store, out, epoch, dealer, public, private,
        )
    }

    /// The outcome of the dealers' logs, and this player's share, from its own dealings. It gives the player up; the store keeps the
    /// dealings.
    ///
    /// MissingDealing: a log of which the outcome is made bears this player's acknowledgement, and no dealing of its own from that dealer
    /// has the log's public half.
    pub fn finalize<C: Ceremony>(
        self,
        alloc: Global,
        ceremony: &C,
        logs: &Map<DealerLog>,
    ) -> Result<Option<(Output, Share)>, FinishError>
        requires playing { Contains self.round.players self.me }
        requires passes { AreChecked (C.dealing_of self.round self.me) self.dealings }
        ensures finishes { AnswersFinish (C.finish_of self.round self.me (map.entries self.dealings) logs.now) result }
        // So there is a share wherever there is an outcome, and no selected log lacks its dealing.
        ensures missing { IfErr result (λ e. (e ≡ FinishError.NoMemory) ⊎ IsMissing (λ dealer log. C.bears_ack_of self.round dealer log self.me)
            (map.entries self.dealings) logs.now (C.selected_of self.round logs.now) e) }
    {
        let Player {
            me,
            round,
            acks: _,
            dealings,
        } = self;
        let dealings = dealings.into_map(alloc)?;
        ceremony.finish(alloc, &round, me, &dealings, logs)
    }
}
