//! A dealer of a round: it counts the acknowledgements that come in, and makes its log of them.
//!
//! A reshare actor sends its dealing to the players that have not acknowledged it, and hands it each acknowledgement that comes back.
ghost use Rattle.std.specs.Prelude.{◌≡◌, ◌⊎◌, ◌≤◌, ◌↔◌, ⊤, ℕ, List, length, OnOk, OnErr, IfOk, IfErr, IsErrOf, IsTrue, is_some, Some, None, Ok, Err, true, false, if◌then◌else◌};
ghost use Rattle.std.specs.Prelude.{map as list_map};
ghost use Rattle.std.specs.FinMap as map;
ghost use Rattle.std.specs.Option.{option_copied};
ghost use Rattle.std.specs.Iterator.{YieldsFirstBy, item_count};
ghost use Rattle.dkg_values.specs.Rising.{lookup};
ghost use Rattle.dkg_ceremony.specs.Thresholds.{max_faults_of};
ghost use Rattle.dkg_ceremony.specs.declared.ceremony.AckError.{AckError};
ghost use Rattle.dkg_journal.specs.Disk.{Lands, Rose};
ghost use Rattle.dkg_journal.specs.Fuse.{Reached};
ghost use Rattle.dkg_journal.specs.Journals.{IsOpen, append_calls};
ghost use Rattle.dkg_store.specs.Acts.{MadeOn};
ghost use Rattle.dkg_store.specs.Both.{on_disk};
ghost use Rattle.dkg_store.specs.Called.{Called};
ghost use Rattle.dkg_store.specs.Calls.{acking, acked};
ghost use Rattle.dkg_store.specs.Dealer.{HandlesAck, IsDealerOf, IsDueAs, acked_in, held_acks, passing, to_send, unsent};
ghost use Rattle.dkg_store.specs.Events.{event_spelling};
ghost use Rattle.dkg_store.specs.Left.{Extends, GivesNote};
ghost use Rattle.dkg_store.specs.Noted.{acks_in, logs_in};
ghost use Rattle.dkg_store.specs.Recorded.{at_epoch};
ghost use Rattle.dkg_store.specs.declared.dealer.AckHandleError.TheVariants.{Store as OfStore};
ghost use Rattle.dkg_store.specs.declared.event.Event.TheVariants as events;
ghost use Rattle.dkg_infos.specs.declared.entry.Entry.{Entry};

use crate::call::StoreError;
use crate::devices::Devices;
use crate::player::{forget_ack, keep_ack, kept_ack};
use crate::store::{Store, in_order};
use dkg_ceremony::{
    Ack, AckError, Ceremony, Private, Public, Round, SignedDealerLog, Value, max_faults,
};
use dkg_journal::Disk;
use dkg_secrets::{NumberMap, PairMap, SecretStore};
use dkg_values::{Epoch, Key, Map, Mem, NoMemory, Set};
use std::alloc::Global;
use std::marker::Model;
use thiserror::Error;

/// What came of an acknowledgement that passes the check.
#[derive(Clone, Copy, Debug, PartialEq, Eq)]
pub enum AckOutcome {
    /// It is recorded now.
    Recorded,
    /// The player's came in, or was recorded, before.
    Duplicate,
}

/// Why an acknowledgement is not counted.
#[derive(Debug, Drop, Error)]
pub enum AckHandleError {
    /// It is not a player's of this dealing. Want of memory is the store's.
    #[error("the acknowledgement is refused: {0}")]
    Refused(AckError),
    /// The store did not record it.
    #[error("the acknowledgement is not recorded: {0}")]
    Store(StoreError),
}

impl From<StoreError> for AckHandleError {
    ghost from_gives = { λ of_store of_dealer. of_dealer ≡ OfStore of_store };

    fn from(error: StoreError) -> AckHandleError {
        AckHandleError::Store(error)
    }
}

/// A node as a dealer of one round.
#[derive(Drop)]
pub struct Dealer {
    pub(crate) me: Key,
    pub(crate) round: Round,
    pub(crate) public: Public,
    pub(crate) privates: Map<Private>,
    /// The acknowledgements that count in this life, by player.
    pub(crate) acks: NumberMap<Ack>,
    pub(crate) is_open: bool,
    pub(crate) finalized: Option<SignedDealerLog>,
}

/// The acknowledgements of these players that came in, in the order of the players.
fn held_of(alloc: Global, acks: &NumberMap<Ack>, players: &Set) -> Mem<Vec<(Key, Ack)>>
    ensures { IfOk result (λ held. held.items ≡ held_acks acks.now players.now) }
{
    let mut held = Vec::new(alloc);
    for player in players.iter() {
        if let Some(ack) = kept_ack(acks, player) {
            held.push((player, ack))?;
        }
    }
    Ok(held)
}

/// The acknowledgements of these players that came in, by player.
#[tactic(auto, using(crate::proofs::Dealing::held_rising))]
fn acks_of(alloc: Global, acks: &NumberMap<Ack>, players: &Set) -> Mem<Map<Ack>>
    ensures { IfOk result (λ made. made ≡ held_acks acks.now players.now) }
{
    let _keys = players.as_slice();
    let held = held_of(alloc, acks, players)?;
    in_order(held)
}

/// Checks an acknowledgement of a dealer's public half.
fn check<C: Ceremony>(
    alloc: Global,
    ceremony: &C,
    dealer: &Dealer,
    player: Key,
    ack: &Ack,
) -> Result<(), AckHandleError>
    ensures passed { OnOk result (C.check_ack_of dealer.now.round dealer.now.me dealer.now.public player ack.now ≡ Ok tt) }
    ensures refused { (e : AckError) → IsErrOf result (AckHandleError.Refused e)
        → C.check_ack_of dealer.now.round dealer.now.me dealer.now.public player ack.now ≡ Err e }
    ensures not_want { IsErrOf result (AckHandleError.Refused AckError.NoMemory) → ⊥ }
    ensures memory { (e : StoreError) → IsErrOf result (AckHandleError.Store e) → e ≡ StoreError.NoMemory }
{
    match ceremony.check_ack(alloc, &dealer.round, dealer.me, &dealer.public, player, ack) {
        Ok(()) => Ok(()),
        Err(AckError::NoMemory) => Err(AckHandleError::Store(StoreError::NoMemory)),
        Err(error) => Err(AckHandleError::Refused(error)),
    }
}

/// Of the acknowledgements that are recorded of an epoch, those that pass the check of a dealing.
pub(crate) fn replayed<C: Ceremony>(
    alloc: Global,
    ceremony: &C,
    acks: &PairMap<Ack>,
    epoch: Epoch,
    round: &Round,
    me: Key,
    public: &Public,
) -> Mem<NumberMap<Ack>>
    ensures { IfOk result (λ kept. kept ≡ passing (C.check_ack_of round.now me public.now) (at_epoch epoch acks.now)) }
{
    let mut kept = NumberMap::new(alloc);
    for ((_, player), ack) in acks.of_epoch(epoch.0) {
        match ceremony.check_ack(alloc, round, me, public, Key(*player), ack) {
            Ok(()) => kept.insert(u64::from(*player), *ack)?,
            Err(AckError::NoMemory) => return Err(NoMemory),
            Err(_) => {}
        }
    }
    Ok(kept)
}

impl Dealer {
    /// A dealer of a new dealing, by which these acknowledgements count. It keeps the round.
    pub(crate) fn new(
        alloc: Global,
        me: Key,
        round: &Round,
        public: Public,
        privates: Map<Private>,
        acks: NumberMap<Ack>,
    ) -> Mem<Dealer>
        ensures { IfOk result (λ dealer. dealer ≡ record {
          me = me;
          round = round.now;
          public = public;
          privates = privates;
          acks = acks;
          is_open = true;
          finalized = None;
        }) }
    {
        Ok(Dealer {
            me,
            round: round.copy(alloc)?,
            public,
            privates,
            acks,
            is_open: true,
            finalized: None,
        })
    }

    /// Counts an acknowledgement of this dealing, and records it.
    ///
    /// Refused: what the check answers, but want of memory. Duplicate: that player's came in, or was recorded, before; the first record
    /// stays, and an acknowledgement that was recorded and did not pass the check counts from now on.
    ///
    /// It costs the check and look-ups that are logarithmic in how many are recorded.
    pub fn handle<C: Ceremony, D: Disk, X: SecretStore, Dir: Drop>(
        &mut self,
        alloc: Global,
        ceremony: &C,
        devices: &mut Devices<'_, D, X>,
        store: &mut Store<Dir>,
        epoch: Epoch,
        player: Key,
        ack: Ack,
    ) -> Result<AckOutcome, AckHandleError>
        requires is_open { IsTrue self.old.is_open }
        requires open { IsTrue D.tells → IsOpen store.old.journal (D.files devices.old.disk.now) (D.image devices.old.disk.now) }
        ensures open { OnOk result (IsTrue D.tells → IsOpen store.new.journal (D.files devices.new.disk.now) (D.image devices.new.disk.now)) }
        // It answers as the check does, and what came in first counts and is recorded. A refusal touches nothing.
        ensures handled { HandlesAck (acked_in self.old.acks store.old.acks epoch player result) result
            (C.check_ack_of self.old.round self.old.me self.old.public player ack) epoch player ack self.old self.new store.old store.new
            ((self.new ≡ self.old) × (store.new ≡ store.old) × (devices.new ≡ devices.old)) }
        ensures dealer { IsDealerOf C.deal_of C.check_ack_of self.old → IsDealerOf C.deal_of C.check_ack_of self.new }
        // Each image gives what was recorded of the kind, with the new record or without, and of the other kinds what it gave.
        ensures gives { IsTrue D.tells → GivesNote acks_in logs_in (acked_in self.old.acks store.old.acks epoch player result) store.old.acks
            (map.insert store.old.acks (epoch, player) ack)
            (D.image devices.old.disk.now) (D.image devices.new.disk.now) (X.held devices.old.secrets.now) (X.held devices.new.secrets.now) }
        // Whatever a crash leaves of the disk.
        ensures extends { IsTrue D.tells → Extends (acked_in self.old.acks store.old.acks epoch player result)
            epoch (event_spelling (events.Ack player ack))
            (D.files devices.old.disk.now) (D.files devices.new.disk.now) (D.image devices.old.disk.now) (D.image devices.new.disk.now) }
        ensures secrets { devices.new.secrets.now ≡ devices.old.secrets.now }
        // The check, and then the append: all of it at Ok, and at any other exit a part, whatever image is left.
        ensures acts { IsTrue D.tells → (out : List Entry) → MadeOn D.files D.image X.held
            (acking (C.check_ack_of self.old.round self.old.me self.old.public player ack) (is_some (map.get self.old.acks player))
            (map.contains_key store.old.acks (epoch, player)) (epoch, event_spelling (events.Ack player ack)))
            (acked result) devices.old devices.new out out }
        ensures called { Called ⊤ D.made X.made D.faults X.faults (acked_in self.old.acks store.old.acks epoch player result)
            (list_map on_disk (append_calls store.old.journal (epoch, event_spelling (events.Ack player ack)))) devices.old devices.new }
        // The secret store is not called. After a cut nothing of the disk is loose.
        ensures due { IfErr result (λ e. IsDueAs e (Rose (D.faults devices.old.disk.now) (D.faults devices.new.disk.now)) ⊥
            (Reached devices.old.fuse devices.new.fuse × (IsTrue D.tells → Lands (D.files devices.new.disk.now) (D.image devices.new.disk.now)))
            (((self.new ≡ self.old) × (store.new ≡ store.old) × (devices.new ≡ devices.old))
            ⊎ Rose (D.wants devices.old.disk.now) (D.wants devices.new.disk.now))) }
    {
        check(alloc, ceremony, self, player, &ack)?;
        if kept_ack(&self.acks, player).is_some() {
            return Ok(AckOutcome::Duplicate);
        }
        keep_ack(&mut self.acks, player, ack)?;
        match store.append_ack(alloc, devices, epoch, player, ack) {
            Ok(true) => Ok(AckOutcome::Recorded),
            Ok(false) => Ok(AckOutcome::Duplicate),
            Err(error) => {
                forget_ack(&mut self.acks, player);
                Err(AckHandleError::Store(error))
            }
        }
    }

    /// Whether the dealing is not finalized yet.
    pub fn is_open(&self) -> bool
        ensures { result ≡ self.now.is_open }
    {
        self.is_open
    }

    /// The dealing of each player that has not acknowledged it, keys rising.
    pub fn shares_to_distribute(&self) -> Unsent<'_>
        ensures { result ≡ to_send self.now.public (unsent self.now.acks self.now.privates self.now.round.players) }
    {
        Unsent {
            public: &self.public,
            privates: &self.privates,
            acks: &self.acks,
            rest: self.round.parts().players.as_slice(),
        }
    }

    /// Whether the players that have not acknowledged the dealing are no more than the faults among so many players.
    ///
    /// The time is linear in the round's players, with a look-up for each.
    #[tactic(auto, using(crate::proofs::Dealing::unsent_few, crate::proofs::Dealing::sent_few))]
    pub fn has_acknowledgement_quorum(&self, players: u32) -> bool
        ensures { IsTrue result ↔ (length (unsent self.now.acks self.now.privates self.now.round.players) ≤ max_faults_of players) }
    {
        let _keys = self.round.parts().players.as_slice();
        let mut count = 0u32;
        for _ in self.shares_to_distribute() {
            count += 1;
        }
        count <= max_faults(players)
    }

    /// Makes the log, on the first call: for each player its acknowledgement, where one is held, or else its private half, revealed. It
    /// answers whether this is the first call.
    pub fn finalize<C: Ceremony>(
        &mut self,
        alloc: Global,
        ceremony: &C,
        signer: &C::Signer,
    ) -> Mem<bool>
        requires signer { C.Signer.key_of signer.now ≡ self.old.me }
        requires dealer { IsDealerOf C.deal_of C.check_ack_of self.old }
        ensures first { IfOk result (λ first. first ≡ self.old.is_open) }
        ensures closed { OnOk result (self.new.is_open ≡ false) }
        ensures log { IfOk result (λ first. self.new.finalized ≡ (if first
            then Some (C.sign_log_of self.old.me self.old.round self.old.public self.old.privates (held_acks self.old.acks self.old.round.players))
            else self.old.finalized)) }
        ensures me { self.new.me ≡ self.old.me }
        ensures round { self.new.round ≡ self.old.round }
        ensures public { self.new.public ≡ self.old.public }
        ensures privates { self.new.privates ≡ self.old.privates }
        ensures acks { self.new.acks ≡ self.old.acks }
        ensures dealer { IsDealerOf C.deal_of C.check_ack_of self.new }
        ensures memory { OnErr result ((self.old.is_open ≡ true) × (self.new ≡ self.old)) }
    {
        if !self.is_open {
            return Ok(false);
        }
        let acks = acks_of(alloc, &self.acks, &self.round.parts().players)?;
        let log = ceremony.sign_log(
            alloc,
            signer,
            &self.round,
            &self.public,
            &self.privates,
            &acks,
        )?;
        self.is_open = false;
        self.finalized = Some(log);
        Ok(true)
    }

    /// The log that was made, until it is cleared.
    pub fn finalized(&self) -> Option<&SignedDealerLog>
        ensures { option_copied result ≡ self.now.finalized }
    {
        self.finalized.as_ref()
    }

    /// Forgets the log that was made: blocks carry it.
    pub fn clear_finalized(&mut self)
        ensures { self.new ≡ record self.old { finalized = None } }
    {
        self.finalized = None;
    }
}

/// The dealing of each player that has not acknowledged it, keys rising; contracts see a list of players, each with both halves.
#[derive(Drop)]
pub struct Unsent<'a> {
    public: &'a Public,
    privates: &'a Map<Private>,
    acks: &'a NumberMap<Ack>,
    rest: &'a [Key],
}

impl<'a> Model for Unsent<'a> {
    ghost use Rattle.std.specs.Prelude.{List, ℕ};
    ghost use Rattle.dkg_store.specs.Dealer.{to_send, unsent};

    ghost Value = { List (ℕ × (List ℕ × ℕ)) };

    ghost view = { λ u. to_send u.public.now (unsent u.acks.now u.privates.now u.rest.now) };
}

impl<'a> Iterator for Unsent<'a> {
    type Item = (Key, &'a Public, &'a Private);

    ghost next_gives = { YieldsFirstBy (λ item. (item.0, (item.1.now, item.2.now))) (λ u. u) };

    ghost remaining = { item_count (λ u. u) };

    fn next(&mut self) -> Option<(Key, &'a Public, &'a Private)> {
        while let Some((player, rest)) = self.rest.split_first() {
            self.rest = rest;
            if kept_ack(self.acks, *player).is_none()
                && let Some(private) = self.privates.get(*player)
            {
                return Some((*player, self.public, private));
            }
        }
        None
    }
}
