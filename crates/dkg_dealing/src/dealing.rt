//! Messages of the dealing channel: a dealing is recorded and acknowledged, an acknowledgement is counted, or the sender is blocked.
//!
//! Each function here is a part of the relation's `hears_peer`, and names it.
ghost use Rattle.std.specs.Prelude.{◌≡◌, ◌++◌, ◌∷◌, ◌≤◌, ◌^◌, [], ℕ, IfErr, IfOk, IfSome, IsTrue, OnErr, OnOk, Some, length, option_map};
ghost use Rattle.std.specs.FinMap as map;
ghost use Rattle.std.specs.Int.NonZero.{non_zero_u32_get};
ghost use Rattle.std.specs.Result.{result_ok};
ghost use Rattle.dkg_values.specs.Codec.{whole};
ghost use Rattle.dkg_ceremony.specs.declared.round.RoundParts.{RoundParts as Round};
ghost use Rattle.dkg_fence.specs.Readiness.{Readiness};
ghost use Rattle.dkg_store.specs.Corrupt.{AreFit};
ghost use Rattle.dkg_store.specs.Dealer.{IsDealerOf};
ghost use Rattle.dkg_types.specs.MessageCodes.{MessageFits, message_at};
ghost use Rattle.dkg_infos.specs.declared.fault.Fault.TheVariants.{NoMemory as OutOfMemory};
ghost use Rattle.dkg_core.specs.Dealing as dealing;
ghost use Rattle.dkg_core.specs.Fixed.{Fixed};
ghost use Rattle.dkg_core.specs.Said.{Said};
ghost use Rattle.dkg_life.specs.Ready.{IsReadyLife};
ghost use Rattle.dkg_life.specs.Ends.{StopsOver, ends, ends_in};
ghost use Rattle.dkg_life.specs.Given.{IsOf};
ghost use Rattle.dkg_life.specs.Heard.{KeepsSeat, player_answers, round_dealt};
ghost use Rattle.dkg_life.specs.LiveOf.{Beside, SitsAt, dealer_of, live_of, seat_of};
ghost use Rattle.dkg_life.specs.Made.{Makes, MakesOn, Tells};
ghost use Rattle.dkg_life.specs.Moved.{IsFirm, Moved};
ghost use Rattle.dkg_life.specs.Rules.{AnswersBy};
ghost use Rattle.dkg_life.specs.Steps.{told_by};
ghost use Rattle.dkg_life.specs.declared.life.Life.{Life};
ghost use Rattle.dkg_life.specs.declared.stop.Stop.TheVariants.{Fault as Faulted};

use crate::decoded::decoded;
use dkg_ceremony::{Ack, AckError, Ceremony, DealingError, Private, Public, decode_cfg};
use dkg_infos::{BlockedWhy, Directory, Entry, Transcript};
use dkg_journal::Disk;
use dkg_life::{Life, Stage, Stop, Terms};
use dkg_store::{AckHandleError, Dealer, DealingHandleError, Devices, Player, SecretStore, Store};
use dkg_types::Message;
use dkg_values::{Epoch, Key, Mem};
use std::alloc::Global;

/// The message that bytes spell under a limit of participants, if they spell one.
fn message_in(alloc: Global, limit: u32, bytes: &[u8]) -> Mem<Option<Message>>
    ensures read { IfOk result (λ message. message ≡ result_ok (whole (message_at limit bytes.now))) }
    ensures fits { IfOk result (λ message. IfSome message (MessageFits limit)) }
{
    decoded(decode_cfg::<Message>(alloc, bytes, &limit))
}

/// Tells that a peer is blocked (`blocks_sender`).
fn block(out: &mut Transcript, peer: Key, why: BlockedWhy) -> Result<(), Stop>
    ensures told { OnOk result (out.new.entries ≡ out.old.entries ++ Entry.Blocked peer why ∷ []) }
    ensures untold { OnErr result (out.new.entries ≡ out.old.entries) }
    ensures memory { IfErr result (λ stop. stop ≡ Faulted OutOfMemory) }
{
    Ok(out.push(Entry::Blocked { peer, why })?)
}

/// Tells the acknowledgement of a dealing (`acknowledges`).
fn acknowledge(out: &mut Transcript, epoch: Epoch, dealer: Key, ack: Ack) -> Result<(), Stop>
    ensures told { OnOk result (out.new.entries ≡ out.old.entries ++ Entry.Ack epoch dealer ack ∷ []) }
    ensures untold { OnErr result (out.new.entries ≡ out.old.entries) }
    ensures memory { IfErr result (λ stop. stop ≡ Faulted OutOfMemory) }
{
    Ok(out.push(Entry::Ack { epoch, dealer, ack })?)
}

/// Why the sender of a refused dealing is blocked.
fn blocked_by(why: DealingError) -> BlockedWhy
    ensures { result ≡ dealing.why_dealing why }
{
    match why {
        DealingError::UnexpectedDealer => BlockedWhy::Dealer,
        DealingError::InvalidCommitmentDegree => BlockedWhy::Degree,
        DealingError::MismatchedReshareCommitment => BlockedWhy::Commitment,
        DealingError::InvalidDealerShare => BlockedWhy::Share,
    }
}

/// Tells a dealing's acknowledgement, or that its sender is blocked.
fn tell_answer(
    out: &mut Transcript,
    epoch: Epoch,
    dealer: Key,
    answer: Result<Ack, DealingError>,
) -> Result<(), Stop>
    ensures told { OnOk result (out.new.entries ≡ out.old.entries ++ told_by epoch dealer answer ∷ []) }
    ensures untold { OnErr result (out.new.entries ≡ out.old.entries) }
    ensures memory { IfErr result (λ stop. stop ≡ Faulted OutOfMemory) }
{
    match answer {
        Ok(ack) => acknowledge(out, epoch, dealer, ack),
        Err(why) => block(out, dealer, blocked_by(why)),
    }
}

/// Hands a dealing to the player: its acknowledgement, or why it is refused (`hears_dealing_in` but its last line).
pub(crate) fn handle<C: Ceremony, Dir: Directory + Drop, D: Disk, X: SecretStore>(
    alloc: Global,
    ceremony: &C,
    signer: &C::Signer,
    player: &mut Player,
    store: &mut Store<Dir>,
    devices: &mut Devices<'_, D, X>,
    epoch: Epoch,
    from: Key,
    public: Public,
    private: Private,
    out: &mut Transcript,
) -> Result<Result<Ack, DealingError>, Stop>
    requires in_bound { length public ≤ 2 ^ 30 }
    requires sits { SitsAt C.ack_of (C.Signer.key_of signer.now) epoch store.old player.old }
    requires firm { IsTrue D.tells → IsFirm store.old.journal (D.files devices.old.disk.now) (D.image devices.old.disk.now) }
    ensures firm { OnOk result (IsTrue D.tells → IsFirm store.new.journal (D.files devices.new.disk.now) (D.image devices.new.disk.now)) }
    ensures keeps { KeepsSeat result C.dealing_of C.ack_of (C.Signer.key_of signer.now) epoch from public private store.old store.new player.old player.new }
    ensures acts { IsTrue D.tells → IsTrue X.tells → MakesOn D.files D.image X.held (player_answers C.dealing_of C.ack_of player.old.me player.old.round
        (map.get store.old.dealings (epoch, from)) epoch from public private) (ends (λ answer. answer) result)
        devices.old devices.new out.old.entries out.new.entries }
    ensures tells { Said (player_answers C.dealing_of C.ack_of player.old.me player.old.round
        (map.get store.old.dealings (epoch, from)) epoch from public private)
        (ends (λ answer. answer) result) out.old.entries out.new.entries }
    ensures moved { Moved D.tells D.made X.made D.faults X.faults devices.old devices.new }
    ensures causes { StopsOver D.faults X.faults devices.old devices.new result }
    ensures fit { IsTrue D.tells → (most : ℕ) → length public ≤ most → AreFit most (D.image devices.old.disk.now) → AreFit most (D.image devices.new.disk.now) }
{
    match player.handle(
        alloc, ceremony, signer, devices, store, out, epoch, from, public, private,
    ) {
        Ok(ack) => Ok(Ok(ack)),
        Err(DealingHandleError::Refused(why)) => Ok(Err(why)),
        Err(DealingHandleError::Store(error)) => Err(Stop::from(error)),
    }
}

/// Answers a dealing of the round: its sender is acknowledged or blocked (`seats_dealing_in`).
fn hear_dealing<C: Ceremony, Dir: Directory + Drop, D: Disk, X: SecretStore>(
    alloc: Global,
    ceremony: &C,
    signer: &C::Signer,
    terms: &Terms,
    life: &mut Life<Dir>,
    devices: &mut Devices<'_, D, X>,
    epoch: Epoch,
    from: Key,
    public: Public,
    private: Private,
    out: &mut Transcript,
) -> Result<(), Stop>
    requires fits { MessageFits (non_zero_u32_get terms.now.limit) (Message.Dealer public private) }
    requires dealt { round_dealt life.old ≡ Some epoch }
    requires me { terms.now.me ≡ C.Signer.key_of signer.now }
    requires ready { IsReadyLife D.tells D.files D.image C.ack_of C.deal_of C.check_ack_of terms.now life.old devices.old }
    ensures ready { OnOk result (IsReadyLife D.tells D.files D.image C.ack_of C.deal_of C.check_ack_of terms.now life.new devices.new) }
    ensures rest { life.new ≡ record life.old { store = life.new.store; dealer = life.new.dealer; player = life.new.player } }
    ensures current { life.new.store.current ≡ life.old.store.current }
    ensures acts { IsTrue D.tells → IsTrue X.tells → (c : Fixed Dir) (round : Round) (beside : Beside Dir) (fence : Readiness)
        → IsOf terms.now c → AnswersBy C.dealing_of C.ack_of C.check_ack_of c.rules → life.old.round ≡ Some round
        → Makes D.files D.image X.held (dealing.seats_dealing_in c round from public private (live_of beside fence life.old) (seat_of life.old.player))
        (ends_in (live_of beside fence life.new) result) devices.old devices.new out.old.entries out.new.entries }
    ensures tells { (c : Fixed Dir) (round : Round) (beside : Beside Dir) (fence : Readiness)
        → IsOf terms.now c → AnswersBy C.dealing_of C.ack_of C.check_ack_of c.rules → life.old.round ≡ Some round
        → Tells (dealing.seats_dealing_in c round from public private (live_of beside fence life.old) (seat_of life.old.player))
        (ends_in (live_of beside fence life.new) result) out.old.entries out.new.entries }
    ensures moved { Moved D.tells D.made X.made D.faults X.faults devices.old devices.new }
    ensures causes { StopsOver D.faults X.faults devices.old devices.new result }
    ensures fit { IsTrue D.tells → AreFit (non_zero_u32_get terms.now.limit) (D.image devices.old.disk.now)
        → AreFit (non_zero_u32_get terms.now.limit) (D.image devices.new.disk.now) }
{
    let Some(player) = &mut life.player else {
        return block(out, from, BlockedWhy::Nonplayer);
    };
    let answer = handle(
        alloc,
        ceremony,
        signer,
        player,
        &mut life.store,
        devices,
        epoch,
        from,
        public,
        private,
        out,
    )?;
    tell_answer(out, epoch, from, answer)
}

/// Why the sender of a refused acknowledgement is blocked.
fn refused_by(why: AckError) -> BlockedWhy
    ensures { result ≡ dealing.why_ack why }
{
    match why {
        AckError::UnexpectedPlayer => BlockedWhy::Player,
        AckError::InvalidAck | AckError::NoMemory => BlockedWhy::Ack,
    }
}

/// Hands an acknowledgement to the dealer: it counts, or its sender is blocked (`checked_ack`).
pub(crate) fn take_ack<C: Ceremony, Dir: Directory + Drop, D: Disk, X: SecretStore>(
    alloc: Global,
    ceremony: &C,
    dealer: &mut Dealer,
    store: &mut Store<Dir>,
    devices: &mut Devices<'_, D, X>,
    epoch: Epoch,
    from: Key,
    ack: Ack,
    out: &mut Transcript,
) -> Result<(), Stop>
    requires is_open { IsTrue dealer.old.is_open }
    requires firm { IsTrue D.tells → IsFirm store.old.journal (D.files devices.old.disk.now) (D.image devices.old.disk.now) }
    ensures firm { OnOk result (IsTrue D.tells → IsFirm store.new.journal (D.files devices.new.disk.now) (D.image devices.new.disk.now)) }
    ensures dealer { (dealer.new ≡ record dealer.old { acks = dealer.new.acks })
        × (IsDealerOf C.deal_of C.check_ack_of dealer.old → IsDealerOf C.deal_of C.check_ack_of dealer.new) }
    ensures store { store.new ≡ record store.old { journal = store.new.journal; acks = store.new.acks } }
    ensures acts { IsTrue D.tells → IsTrue X.tells → (life : Life Dir) (beside : Beside Dir) (fence : Readiness)
        → life.store ≡ store.old → life.dealer ≡ Some dealer.old → dealer.old.round.number ≡ epoch
        → Makes D.files D.image X.held (dealing.checked_ack dealer.old.round (dealer_of dealer.old) from ack (live_of beside fence life)
        (C.check_ack_of dealer.old.round dealer.old.me dealer.old.public from ack))
        (ends_in (live_of beside fence (record life { store = store.new; dealer = Some dealer.new })) result)
        devices.old devices.new out.old.entries out.new.entries }
    ensures tells { (life : Life Dir) (beside : Beside Dir) (fence : Readiness)
        → life.store ≡ store.old → life.dealer ≡ Some dealer.old → dealer.old.round.number ≡ epoch
        → Tells (dealing.checked_ack dealer.old.round (dealer_of dealer.old) from ack (live_of beside fence life)
        (C.check_ack_of dealer.old.round dealer.old.me dealer.old.public from ack))
        (ends_in (live_of beside fence (record life { store = store.new; dealer = Some dealer.new })) result) out.old.entries out.new.entries }
    ensures moved { Moved D.tells D.made X.made D.faults X.faults devices.old devices.new }
    ensures causes { StopsOver D.faults X.faults devices.old devices.new result }
    ensures fit { IsTrue D.tells → (most : ℕ) → AreFit most (D.image devices.old.disk.now) → AreFit most (D.image devices.new.disk.now) }
{
    match dealer.handle(alloc, ceremony, devices, store, epoch, from, ack) {
        Ok(_) => Ok(()),
        Err(AckHandleError::Refused(why)) => block(out, from, refused_by(why)),
        Err(AckHandleError::Store(error)) => Err(Stop::from(error)),
    }
}

/// Answers an acknowledgement of the round: it goes to the dealer, and without one its sender is blocked (`hears_ack`).
fn hear_ack<C: Ceremony, Dir: Directory + Drop, D: Disk, X: SecretStore>(
    alloc: Global,
    ceremony: &C,
    terms: &Terms,
    life: &mut Life<Dir>,
    devices: &mut Devices<'_, D, X>,
    epoch: Epoch,
    from: Key,
    ack: Ack,
    out: &mut Transcript,
) -> Result<(), Stop>
    requires dealt { round_dealt life.old ≡ Some epoch }
    requires ready { IsReadyLife D.tells D.files D.image C.ack_of C.deal_of C.check_ack_of terms.now life.old devices.old }
    ensures ready { OnOk result (IsReadyLife D.tells D.files D.image C.ack_of C.deal_of C.check_ack_of terms.now life.new devices.new) }
    ensures word { life.new.word ≡ life.old.word }
    ensures rest { life.new ≡ record life.old { store = life.new.store; dealer = life.new.dealer } }
    ensures current { life.new.store.current ≡ life.old.store.current }
    ensures acts { IsTrue D.tells → IsTrue X.tells → (c : Fixed Dir) (round : Round) (beside : Beside Dir) (fence : Readiness)
        → IsOf terms.now c → AnswersBy C.dealing_of C.ack_of C.check_ack_of c.rules → life.old.round ≡ Some round
        → Makes D.files D.image X.held (dealing.hears_ack c round (option_map dealer_of life.old.dealer) from ack (live_of beside fence life.old))
        (ends_in (live_of beside fence life.new) result) devices.old devices.new out.old.entries out.new.entries }
    ensures tells { (c : Fixed Dir) (round : Round) (beside : Beside Dir) (fence : Readiness)
        → IsOf terms.now c → AnswersBy C.dealing_of C.ack_of C.check_ack_of c.rules → life.old.round ≡ Some round
        → Tells (dealing.hears_ack c round (option_map dealer_of life.old.dealer) from ack (live_of beside fence life.old))
        (ends_in (live_of beside fence life.new) result) out.old.entries out.new.entries }
    ensures moved { Moved D.tells D.made X.made D.faults X.faults devices.old devices.new }
    ensures causes { StopsOver D.faults X.faults devices.old devices.new result }
    ensures fit { IsTrue D.tells → AreFit (non_zero_u32_get terms.now.limit) (D.image devices.old.disk.now)
        → AreFit (non_zero_u32_get terms.now.limit) (D.image devices.new.disk.now) }
{
    let Some(dealer) = &mut life.dealer else {
        return block(out, from, BlockedWhy::Nondealer);
    };
    take_ack(
        alloc,
        ceremony,
        dealer,
        &mut life.store,
        devices,
        epoch,
        from,
        ack,
        out,
    )
}

/// The number of the round that is dealt, while it is.
fn round_dealt<Dir: Directory + Drop>(life: &Life<Dir>) -> Option<Epoch>
    ensures { result ≡ round_dealt life.now }
{
    match life.stage {
        Stage::Dealing => life.round.as_ref().map(|round| Epoch(round.parts().number)),
        Stage::Including | Stage::Following => None,
    }
}

/// Answers a peer's message: a dealing goes to the player, and an acknowledgement to the dealer (`hears_peer`).
pub fn hear_peer<C: Ceremony, Dir: Directory + Drop, D: Disk, X: SecretStore>(
    alloc: Global,
    ceremony: &C,
    signer: &C::Signer,
    terms: &Terms,
    life: &mut Life<Dir>,
    devices: &mut Devices<'_, D, X>,
    from: Key,
    bytes: &[u8],
    out: &mut Transcript,
) -> Result<(), Stop>
    requires me { terms.now.me ≡ C.Signer.key_of signer.now }
    requires ready { IsReadyLife D.tells D.files D.image C.ack_of C.deal_of C.check_ack_of terms.now life.old devices.old }
    ensures ready { OnOk result (IsReadyLife D.tells D.files D.image C.ack_of C.deal_of C.check_ack_of terms.now life.new devices.new) }
    ensures word { life.new.word ≡ life.old.word }
    ensures rest { life.new ≡ record life.old { store = life.new.store; dealer = life.new.dealer; player = life.new.player } }
    ensures current { life.new.store.current ≡ life.old.store.current }
    ensures acts { IsTrue D.tells → IsTrue X.tells → (c : Fixed Dir) (beside : Beside Dir) (fence : Readiness)
        → IsOf terms.now c → AnswersBy C.dealing_of C.ack_of C.check_ack_of c.rules
        → Makes D.files D.image X.held (dealing.hears_peer c from bytes.now (live_of beside fence life.old))
        (ends_in (live_of beside fence life.new) result) devices.old devices.new out.old.entries out.new.entries }
    ensures tells { (c : Fixed Dir) (beside : Beside Dir) (fence : Readiness)
        → IsOf terms.now c → AnswersBy C.dealing_of C.ack_of C.check_ack_of c.rules
        → Tells (dealing.hears_peer c from bytes.now (live_of beside fence life.old))
        (ends_in (live_of beside fence life.new) result) out.old.entries out.new.entries }
    ensures moved { Moved D.tells D.made X.made D.faults X.faults devices.old devices.new }
    ensures causes { StopsOver D.faults X.faults devices.old devices.new result }
    ensures fit { IsTrue D.tells → AreFit (non_zero_u32_get terms.now.limit) (D.image devices.old.disk.now)
        → AreFit (non_zero_u32_get terms.now.limit) (D.image devices.new.disk.now) }
{
    let Some(epoch) = round_dealt(life) else {
        return Ok(());
    };
    let Some(message) = message_in(alloc, terms.limit.get(), bytes)? else {
        return block(out, from, BlockedWhy::Decode);
    };
    match message {
        Message::Dealer(public, private) => hear_dealing(
            alloc, ceremony, signer, terms, life, devices, epoch, from, public, private, out,
        ),
        Message::Ack(ack) => hear_ack(alloc, ceremony, terms, life, devices, epoch, from, ack, out),
    }
}
