//! A node's dealing path on `dkg_store`, as whoever embeds it writes it: a life opens over two devices, hears messages, and answers them.
//!
//! `docs/EMBEDDING.md` goes through it.
#![tactic(auto)]

ghost use Rattle.std.specs.Prelude.{◌≡◌, ◌-◌, Contains, IfErr, IfOk, IfSome, IsTrue, MatchResult, OnOk, Some, is_some, not};
ghost use Rattle.std.specs.FinMap as map;
ghost use Rattle.std.specs.Int.NonZero.{non_zero_u32_get};
ghost use Rattle.std.specs.Result.{result_ok};
ghost use Rattle.dkg_values.specs.Codec.{whole};
ghost use Rattle.dkg_journal.specs.Disk.{Rose};
ghost use Rattle.dkg_journal.specs.Fuse.{Reached};
ghost use Rattle.dkg_journal.specs.Journals.{IsOpen};
ghost use Rattle.dkg_journal.specs.Records.{entries};
ghost use Rattle.dkg_secrets.specs.Secrets.{after};
ghost use Rattle.dkg_secrets.specs.declared.secrets.SecretOp.TheVariants.{Prune};
ghost use Rattle.dkg_store.specs.Both.{IsWant};
ghost use Rattle.dkg_store.specs.Called.{ErrorIsDue};
ghost use Rattle.dkg_store.specs.Corrupt.{IsCorruptAt};
ghost use Rattle.dkg_store.specs.On.{SameLoans};
ghost use Rattle.dkg_store.specs.Pairs.{HoldsDealings, IsWhole, recovered};
ghost use Rattle.dkg_types.specs.MessageCodes.{message_at};
ghost use Rattle.dkg_example.specs.Sent.{HoldsHeard, IsFair, IsFairTo, IsNodePlaying, IsSameSeat, IsSeatOf, IsSoundAnswer, NamesRefused, OpensDue, RecordsJust, first_heard, lost_dealing, since_below};

#[cfg(test)]
mod tests;

use dkg_ceremony::{Ack, Ceremony, CodecError, Private, Public, Round, decode_cfg};
use dkg_infos::{Transcript, Unit};
use dkg_journal::Disk;
use dkg_store::{DealingHandleError, Devices, Player, SecretStore, Store, StoreError};
use dkg_types::Message;
use dkg_values::{Epoch, Key};
use std::alloc::Global;
use std::num::NonZeroU32;

/// The longest polynomial that a round asks for: it has no more players than there are points.
const MOST_COEFFICIENTS: usize = 65_520;

/// What a message comes to.
#[derive(Debug, Drop)]
pub enum Answer {
    /// The dealer is sent this acknowledgement.
    Send(Ack),
    /// The peer is blocked: what it sent is no dealing, or none of the round's.
    Block,
}

/// A node between two messages of an epoch: what it has recorded, and the player that it is in the epoch's round.
#[derive(Drop)]
pub struct Node {
    store: Store<Unit>,
    player: Player,
    epoch: Epoch,
    limit: NonZeroU32,
}

impl Node {
    /// Begins a life: what was recorded is there again, and what is two epochs old is forgotten.
    ///
    /// None: a log bears this node's acknowledgement of a dealing that isn't there any more. It must not play in this epoch.
    pub fn open<C: Ceremony, D: Disk, X: SecretStore>(
        alloc: Global,
        ceremony: &C,
        devices: &mut Devices<'_, D, X>,
        limit: NonZeroU32,
        epoch: Epoch,
        me: Key,
        round: &Round,
    ) -> Result<Option<Node>, StoreError>
        requires playing { Contains round.now.players me }
        ensures seat { IfOk result (λ made. IfSome made (λ node. IsSeatOf me round.now epoch limit node)) }
        ensures open { IfOk result (λ made. IfSome made (λ node. IsTrue D.tells →
            IsOpen node.store.journal (D.files devices.new.disk.now) (D.image devices.new.disk.now))) }
        ensures playing { IfOk result (λ made. IfSome made (λ node. IsNodePlaying C.ack_of node)) }
        // What the devices give of this epoch and the one below.
        ensures restored { IfOk result (λ made. IfSome made (λ node. IsTrue D.tells → IsTrue X.tells →
            node.store.dealings ≡ since_below epoch (recovered (entries (D.files devices.old.disk.now)) (X.held devices.old.secrets.now)))) }
        // Where each recorded dealing's private half was there, a crash leaves just these.
        ensures holds { IfOk result (λ made. IfSome made (λ node. IsTrue D.tells → IsTrue X.tells
            → IsWhole (entries (D.files devices.old.disk.now)) (X.held devices.old.secrets.now)
            → HoldsDealings node.store.dealings (D.image devices.new.disk.now) (X.held devices.new.secrets.now))) }
        // None is answered exactly where a recorded log bears this node's acknowledgement of a dealing that isn't there.
        ensures none { IfOk result
            (λ made. IsTrue D.tells → IsTrue X.tells → is_some made ≡ not (lost_dealing (λ dealer log. C.bears_ack_of round.now dealer log me)
            epoch (entries (D.files devices.old.disk.now)) (X.held devices.old.secrets.now))) }
        // An error is due to a device, a cut, want of memory, a record that is not in its grammar, or a recorded dealing that the round refuses.
        ensures due { IfErr result
            (λ e. OpensDue (λ name place. IsTrue D.tells → IsCorruptAt (non_zero_u32_get limit) (D.files devices.old.disk.now) name place)
            (λ cause. NamesRefused (IsTrue D.tells × IsTrue X.tells) (C.dealing_of round.now me) epoch
            (entries (D.files devices.old.disk.now)) (X.held devices.old.secrets.now) cause)
            e (Rose (D.faults devices.old.disk.now) (D.faults devices.new.disk.now))
            (Rose (X.faults devices.old.secrets.now) (X.faults devices.new.secrets.now)) (Reached devices.old.fuse devices.new.fuse)) }
        ensures pruned { OnOk result (IsTrue X.tells → X.held devices.new.secrets.now ≡ after (Prune (epoch - 1)) (X.held devices.old.secrets.now)) }
        ensures same { SameLoans devices.old devices.new }
    {
        let mut store = Store::init(alloc, devices, limit)?;
        let below = Epoch(epoch.0.saturating_sub(1));
        store.prune(alloc, devices, below)?;
        let Some(player) = store.create_player(alloc, ceremony, epoch, me, round)? else {
            return Ok(None);
        };
        Ok(Some(Node {
            store,
            player,
            epoch,
            limit,
        }))
    }

    /// Records a dealing, if it is its dealer's first and passes, and answers it.
    fn answer<C: Ceremony, D: Disk, X: SecretStore>(
        &mut self,
        alloc: Global,
        ceremony: &C,
        signer: &C::Signer,
        devices: &mut Devices<'_, D, X>,
        out: &mut Transcript,
        from: Key,
        public: Public,
        private: Private,
    ) -> Result<Answer, StoreError>
        requires playing { IsNodePlaying C.ack_of self.old }
        requires signer { C.Signer.key_of signer.now ≡ self.old.player.me }
        requires open { IsTrue D.tells → IsOpen self.old.store.journal (D.files devices.old.disk.now) (D.image devices.old.disk.now) }
        ensures seat { IsSameSeat self.old self.new }
        ensures open { OnOk result (IsTrue D.tells → IsOpen self.new.store.journal (D.files devices.new.disk.now) (D.image devices.new.disk.now)) }
        ensures playing { IsNodePlaying C.ack_of self.new }
        ensures sound { IfOk result (IsSoundAnswer C.ack_of self.new.player.me self.new.player.round self.new.store.dealings self.new.epoch from) }
        ensures fair { IfOk result (IsFair (C.dealing_of self.old.player.round self.old.player.me from public private) public
            self.old.store.dealings self.old.epoch from) }
        ensures records { RecordsJust (first_heard result (Some (Message.Dealer public private)) (map.get self.old.store.dealings (self.old.epoch, from)))
            self.old.epoch from self.old.store.dealings self.new.store.dealings out.old.entries out.new.entries }
        // An error is due to a device, a cut or want of memory.
        ensures due { IfErr result (λ e. ErrorIsDue e (Rose (D.faults devices.old.disk.now) (D.faults devices.new.disk.now))
            (Rose (X.faults devices.old.secrets.now) (X.faults devices.new.secrets.now)) (Reached devices.old.fuse devices.new.fuse)
            (IsWant ((self.new ≡ self.old) × (devices.new ≡ devices.old)) (D.wants devices.old.disk.now) (D.wants devices.new.disk.now)
            (X.wants devices.old.secrets.now) (X.wants devices.new.secrets.now))) }
        // A crash leaves what is recorded; behind an error perhaps also a new dealing that was heard and passes.
        ensures holds { IsTrue D.tells → IsTrue X.tells
            → HoldsDealings self.old.store.dealings (D.image devices.old.disk.now) (X.held devices.old.secrets.now)
            → MatchResult result (λ a. HoldsDealings self.new.store.dealings (D.image devices.new.disk.now) (X.held devices.new.secrets.now))
            (λ e. HoldsHeard (C.dealing_of self.old.player.round self.old.player.me from) (Some (Message.Dealer public private))
            self.old.store.dealings (self.old.epoch, from) (D.image devices.new.disk.now) (X.held devices.new.secrets.now)) }
        ensures same { SameLoans devices.old devices.new }
    {
        if public.as_slice().len() > MOST_COEFFICIENTS {
            return Ok(Answer::Block);
        }
        let epoch = self.epoch;
        let handled = self.player.handle(
            alloc,
            ceremony,
            signer,
            devices,
            &mut self.store,
            out,
            epoch,
            from,
            public,
            private,
        );
        match handled {
            Ok(ack) => Ok(Answer::Send(ack)),
            Err(DealingHandleError::Refused(_)) => Ok(Answer::Block),
            Err(DealingHandleError::Store(error)) => Err(error),
        }
    }

    /// Hears a message of the dealing channel. After an error the node is done with: it opens its devices anew.
    pub fn hear<C: Ceremony, D: Disk, X: SecretStore>(
        &mut self,
        alloc: Global,
        ceremony: &C,
        signer: &C::Signer,
        devices: &mut Devices<'_, D, X>,
        out: &mut Transcript,
        from: Key,
        bytes: &[u8],
    ) -> Result<Answer, StoreError>
        requires playing { IsNodePlaying C.ack_of self.old }
        requires signer { C.Signer.key_of signer.now ≡ self.old.player.me }
        requires open { IsTrue D.tells → IsOpen self.old.store.journal (D.files devices.old.disk.now) (D.image devices.old.disk.now) }
        ensures seat { IsSameSeat self.old self.new }
        ensures open { OnOk result (IsTrue D.tells → IsOpen self.new.store.journal (D.files devices.new.disk.now) (D.image devices.new.disk.now)) }
        ensures playing { IsNodePlaying C.ack_of self.new }
        // What is sent is the acknowledgement of the dealing that is recorded.
        ensures sound { IfOk result (IsSoundAnswer C.ack_of self.new.player.me self.new.player.round self.new.store.dealings self.new.epoch from) }
        // Whose message is no dealing is blocked, and a dealing's sender only where that is fair; answered is a dealing that passes, or whose dealer's is recorded.
        ensures fair { IfOk result (IsFairTo (C.dealing_of self.old.player.round self.old.player.me from)
            (result_ok (whole (message_at (non_zero_u32_get self.old.limit) bytes.now))) self.old.store.dealings self.old.epoch from) }
        // Recorded and told is the dealing that was heard, where it is answered and is its dealer's first; and else nothing.
        ensures records { RecordsJust (first_heard result (result_ok (whole (message_at (non_zero_u32_get self.old.limit) bytes.now)))
            (map.get self.old.store.dealings (self.old.epoch, from)))
            self.old.epoch from self.old.store.dealings self.new.store.dealings out.old.entries out.new.entries }
        // An error is due to a device, a cut or want of memory.
        ensures due { IfErr result (λ e. ErrorIsDue e (Rose (D.faults devices.old.disk.now) (D.faults devices.new.disk.now))
            (Rose (X.faults devices.old.secrets.now) (X.faults devices.new.secrets.now)) (Reached devices.old.fuse devices.new.fuse)
            (IsWant ((self.new ≡ self.old) × (devices.new ≡ devices.old)) (D.wants devices.old.disk.now) (D.wants devices.new.disk.now)
            (X.wants devices.old.secrets.now) (X.wants devices.new.secrets.now))) }
        // A crash leaves what is recorded; behind an error perhaps also a new dealing that was heard and passes.
        ensures holds { IsTrue D.tells → IsTrue X.tells
            → HoldsDealings self.old.store.dealings (D.image devices.old.disk.now) (X.held devices.old.secrets.now)
            → MatchResult result (λ a. HoldsDealings self.new.store.dealings (D.image devices.new.disk.now) (X.held devices.new.secrets.now))
            (λ e. HoldsHeard (C.dealing_of self.old.player.round self.old.player.me from)
            (result_ok (whole (message_at (non_zero_u32_get self.old.limit) bytes.now)))
            self.old.store.dealings (self.old.epoch, from) (D.image devices.new.disk.now) (X.held devices.new.secrets.now)) }
        ensures same { SameLoans devices.old devices.new }
    {
        let limit = self.limit.get();
        match decode_cfg::<Message>(alloc, bytes, &limit) {
            Ok(Message::Dealer(public, private)) => {
                self.answer(alloc, ceremony, signer, devices, out, from, public, private)
            }
            Err(CodecError::NoMemory) => Err(StoreError::NoMemory),
            Ok(Message::Ack(_)) | Err(_) => Ok(Answer::Block),
        }
    }
}
