//! This node's own dealing: each new early block offers it to the players that have not acknowledged it.
//!
//! Its half of the dealing goes through its own player, and its own acknowledgement through its dealer.
//! Each function here is a part of the relation's `deals`, and names it.
ghost use Rattle.std.specs.Prelude.{◌≡◌, ◌∷◌, ◌⊎◌, [], IfErr, IfOk, IfSome, IsSomeAnd, IsTrue, OnOk};
ghost use Rattle.std.specs.FinMap as map;
ghost use Rattle.std.specs.Int.NonZero.{non_zero_u32_get};
ghost use Rattle.std.specs.List.{AllByRecursion};
ghost use Rattle.dkg_values.specs.Rising.{lookup};
ghost use Rattle.dkg_ceremony.specs.declared.round.RoundParts.{RoundParts as Round};
ghost use Rattle.dkg_fence.specs.Readiness.{Readiness};
ghost use Rattle.dkg_store.specs.Corrupt.{AreFit};
ghost use Rattle.dkg_store.specs.Dealer.{unsent};
ghost use Rattle.dkg_store.specs.declared.dealer.Dealer.{Dealer};
ghost use Rattle.dkg_infos.specs.declared.fault.Fault.TheVariants.{LocalState, NoMemory as OutOfMemory};
ghost use Rattle.dkg_infos.specs.declared.fault.LocalCause.TheVariants.{OwnDealing};
ghost use Rattle.dkg_core.specs.Dealing as dealing;
ghost use Rattle.dkg_core.specs.Fixed.{Fixed};
ghost use Rattle.dkg_life.specs.Ready.{IsReadyLife};
ghost use Rattle.dkg_life.specs.Ends.{StopsOver, ends_in};
ghost use Rattle.dkg_life.specs.Given.{IsOf};
ghost use Rattle.dkg_life.specs.Heard.{round_dealt};
ghost use Rattle.dkg_life.specs.LiveOf.{Beside, live_of};
ghost use Rattle.dkg_life.specs.Made.{Makes, Tells};
ghost use Rattle.dkg_life.specs.Moved.{Moved};
ghost use Rattle.dkg_life.specs.Rules.{AnswersBy};
ghost use Rattle.dkg_life.specs.Steps.{SameHalves, private_halves_of, with_public};
ghost use Rattle.dkg_life.specs.declared.life.Stage.TheVariants.{Dealing};
ghost use Rattle.dkg_life.specs.declared.stop.Stop.TheVariants.{Fault as Faulted};

use crate::dealing::{handle, take_ack};
use dkg_ceremony::{Ceremony, Private, Public, Value};
use dkg_infos::{BoxedPublic, Directory, Entry, Fault, LocalCause, Transcript};
use dkg_journal::Disk;
use dkg_life::{Life, Stop, Terms};
use dkg_store::{Dealer, Devices, SecretStore, Store};
use dkg_values::{Epoch, Key, Mem};
use std::alloc::Global;

/// The dealing of each player that has not acknowledged it, as it is to be offered.
fn unsent_of(alloc: Global, dealer: &Dealer) -> Mem<Vec<(Key, Public, Private)>>
    ensures { IfOk result (λ it. it.items ≡ with_public dealer.now.public (unsent dealer.now.acks dealer.now.privates dealer.now.round.players)) }
{
    let mut unsent = Vec::new(alloc);
    for (player, public, private) in dealer.shares_to_distribute() {
        unsent.push((player, public.copy(alloc)?, *private))?;
    }
    Ok(unsent)
}

/// That another dealing of this node is recorded than it deals.
fn own_dealing(alloc: Global, epoch: Epoch, kept: &Public, dealt: &Public) -> Mem<LocalCause>
    ensures { IfOk result (λ cause. cause ≡ OwnDealing epoch kept.now dealt.now) }
{
    Ok(LocalCause::OwnDealing {
        epoch,
        kept: BoxedPublic::of(alloc, kept.copy(alloc)?)?,
        dealt: BoxedPublic::of(alloc, dealt.copy(alloc)?)?,
    })
}

/// Looks whether another dealing of this node is recorded.
fn check_own<Dir: Directory + Drop>(
    alloc: Global,
    store: &Store<Dir>,
    epoch: Epoch,
    me: Key,
    dealt: &Public,
) -> Result<(), Stop>
    ensures ok { OnOk result (IfSome (map.get store.now.dealings (epoch, me)) (λ kept. kept.0 ≡ dealt.now)) }
    ensures err { IfErr result (λ stop. (stop ≡ Faulted OutOfMemory) ⊎ IsSomeAnd (map.get store.now.dealings (epoch, me))
        (λ kept. (kept.0 ≡ dealt.now → ⊥) × (stop ≡ Faulted (LocalState (OwnDealing epoch kept.0 dealt.now))))) }
{
    match store.dealing(epoch, me) {
        Some((kept, _)) if !kept.same(dealt) => {
            let cause = own_dealing(alloc, epoch, kept, dealt)?;
            Err(Stop::Fault(Fault::LocalState(cause)))
        }
        _ => Ok(()),
    }
}

/// Deals to this node, where it plays: its player records the dealing, and its dealer counts the acknowledgement (`offers_to_itself`).
///
/// LocalState: OwnDealing, where another dealing of this node is recorded.
fn offer_to_itself<C: Ceremony, Dir: Directory + Drop, D: Disk, X: SecretStore>(
    alloc: Global,
    ceremony: &C,
    signer: &C::Signer,
    terms: &Terms,
    life: &mut Life<Dir>,
    devices: &mut Devices<'_, D, X>,
    epoch: Epoch,
    public: Public,
    private: Private,
    out: &mut Transcript,
) -> Result<(), Stop>
    requires dealt { round_dealt life.old ≡ Some epoch }
    requires me { terms.now.me ≡ C.Signer.key_of signer.now }
    requires ready { IsReadyLife D.tells D.files D.image C.ack_of C.deal_of C.check_ack_of terms.now life.old devices.old }
    requires half { IsSomeAnd life.old.dealer (λ dealer. (dealer.public ≡ public) × (lookup terms.now.me dealer.privates ≡ Some private)) }
    ensures ready { OnOk result (IsReadyLife D.tells D.files D.image C.ack_of C.deal_of C.check_ack_of terms.now life.new devices.new) }
    ensures rest { life.new ≡ record life.old { store = life.new.store; dealer = life.new.dealer; player = life.new.player } }
    ensures current { life.new.store.current ≡ life.old.store.current }
    ensures stays { SameHalves life.old.dealer life.new.dealer }
    ensures acts { IsTrue D.tells → IsTrue X.tells → (c : Fixed Dir) (round : Round) (beside : Beside Dir) (fence : Readiness)
        → IsOf terms.now c → AnswersBy C.dealing_of C.ack_of C.check_ack_of c.rules → life.old.round ≡ Some round
        → Makes D.files D.image X.held (dealing.offers_to_itself c round public private (live_of beside fence life.old))
        (ends_in (live_of beside fence life.new) result) devices.old devices.new out.old.entries out.new.entries }
    ensures tells { (c : Fixed Dir) (round : Round) (beside : Beside Dir) (fence : Readiness)
        → IsOf terms.now c → AnswersBy C.dealing_of C.ack_of C.check_ack_of c.rules → life.old.round ≡ Some round
        → Tells (dealing.offers_to_itself c round public private (live_of beside fence life.old))
        (ends_in (live_of beside fence life.new) result) out.old.entries out.new.entries }
    ensures moved { Moved D.tells D.made X.made D.faults X.faults devices.old devices.new }
    ensures causes { StopsOver D.faults X.faults devices.old devices.new result }
    ensures fit { IsTrue D.tells → AreFit (non_zero_u32_get terms.now.limit) (D.image devices.old.disk.now)
        → AreFit (non_zero_u32_get terms.now.limit) (D.image devices.new.disk.now) }
{
    let Some(dealer) = &mut life.dealer else {
        return Ok(());
    };
    let Some(player) = &mut life.player else {
        return Ok(());
    };
    let me = terms.me;
    check_own(alloc, &life.store, epoch, me, &public)?;
    let answer = handle(
        alloc,
        ceremony,
        signer,
        player,
        &mut life.store,
        devices,
        epoch,
        me,
        public,
        private,
        out,
    )?;
    match answer {
        Ok(ack) => take_ack(
            alloc,
            ceremony,
            dealer,
            &mut life.store,
            devices,
            epoch,
            me,
            ack,
            out,
        ),
        // What a dealer deals passes each player's check.
        Err(_) => unreachable!(),
    }
}

/// Offers a player its half of the dealing; this node takes its own.
fn offer<C: Ceremony, Dir: Directory + Drop, D: Disk, X: SecretStore>(
    alloc: Global,
    ceremony: &C,
    signer: &C::Signer,
    terms: &Terms,
    life: &mut Life<Dir>,
    devices: &mut Devices<'_, D, X>,
    epoch: Epoch,
    player: Key,
    public: Public,
    private: Private,
    out: &mut Transcript,
) -> Result<(), Stop>
    requires dealt { round_dealt life.old ≡ Some epoch }
    requires me { terms.now.me ≡ C.Signer.key_of signer.now }
    requires ready { IsReadyLife D.tells D.files D.image C.ack_of C.deal_of C.check_ack_of terms.now life.old devices.old }
    requires half { IsSomeAnd life.old.dealer (λ dealer. (dealer.public ≡ public) × (lookup player dealer.privates ≡ Some private)) }
    ensures ready { OnOk result (IsReadyLife D.tells D.files D.image C.ack_of C.deal_of C.check_ack_of terms.now life.new devices.new) }
    ensures rest { life.new ≡ record life.old { store = life.new.store; dealer = life.new.dealer; player = life.new.player } }
    ensures current { life.new.store.current ≡ life.old.store.current }
    ensures stays { SameHalves life.old.dealer life.new.dealer }
    ensures acts { IsTrue D.tells → IsTrue X.tells → (c : Fixed Dir) (round : Round) (beside : Beside Dir) (fence : Readiness)
        → IsOf terms.now c → AnswersBy C.dealing_of C.ack_of C.check_ack_of c.rules → life.old.round ≡ Some round
        → Makes D.files D.image X.held (dealing.offers c round public ((player, private) ∷ []) (live_of beside fence life.old))
        (ends_in (live_of beside fence life.new) result) devices.old devices.new out.old.entries out.new.entries }
    ensures tells { (c : Fixed Dir) (round : Round) (beside : Beside Dir) (fence : Readiness)
        → IsOf terms.now c → AnswersBy C.dealing_of C.ack_of C.check_ack_of c.rules → life.old.round ≡ Some round
        → Tells (dealing.offers c round public ((player, private) ∷ []) (live_of beside fence life.old))
        (ends_in (live_of beside fence life.new) result) out.old.entries out.new.entries }
    ensures moved { Moved D.tells D.made X.made D.faults X.faults devices.old devices.new }
    ensures causes { StopsOver D.faults X.faults devices.old devices.new result }
    ensures fit { IsTrue D.tells → AreFit (non_zero_u32_get terms.now.limit) (D.image devices.old.disk.now)
        → AreFit (non_zero_u32_get terms.now.limit) (D.image devices.new.disk.now) }
{
    if player == terms.me {
        return offer_to_itself(
            alloc, ceremony, signer, terms, life, devices, epoch, public, private, out,
        );
    }
    Ok(out.push(Entry::Offer {
        epoch,
        player,
        public,
        private,
    })?)
}

/// Offers these players their halves, in their order (`offers`).
fn offer_all<C: Ceremony, Dir: Directory + Drop, D: Disk, X: SecretStore>(
    alloc: Global,
    ceremony: &C,
    signer: &C::Signer,
    terms: &Terms,
    life: &mut Life<Dir>,
    devices: &mut Devices<'_, D, X>,
    epoch: Epoch,
    unsent: Vec<(Key, Public, Private)>,
    out: &mut Transcript,
) -> Result<(), Stop>
    requires dealt { round_dealt life.old ≡ Some epoch }
    requires me { terms.now.me ≡ C.Signer.key_of signer.now }
    requires ready { IsReadyLife D.tells D.files D.image C.ack_of C.deal_of C.check_ack_of terms.now life.old devices.old }
    requires halves { IsSomeAnd life.old.dealer (λ dealer. AllByRecursion (λ one. (one.1 ≡ dealer.public) × (lookup one.0 dealer.privates ≡ Some one.2))
        unsent.items) }
    ensures ready { OnOk result (IsReadyLife D.tells D.files D.image C.ack_of C.deal_of C.check_ack_of terms.now life.new devices.new) }
    ensures rest { life.new ≡ record life.old { store = life.new.store; dealer = life.new.dealer; player = life.new.player } }
    ensures current { life.new.store.current ≡ life.old.store.current }
    ensures acts { IsTrue D.tells → IsTrue X.tells → (c : Fixed Dir) (round : Round) (dealer : Dealer) (beside : Beside Dir) (fence : Readiness)
        → IsOf terms.now c → AnswersBy C.dealing_of C.ack_of C.check_ack_of c.rules → life.old.round ≡ Some round → life.old.dealer ≡ Some dealer
        → Makes D.files D.image X.held (dealing.offers c round dealer.public (private_halves_of unsent.items) (live_of beside fence life.old))
        (ends_in (live_of beside fence life.new) result) devices.old devices.new out.old.entries out.new.entries }
    ensures tells { (c : Fixed Dir) (round : Round) (dealer : Dealer) (beside : Beside Dir) (fence : Readiness)
        → IsOf terms.now c → AnswersBy C.dealing_of C.ack_of C.check_ack_of c.rules → life.old.round ≡ Some round → life.old.dealer ≡ Some dealer
        → Tells (dealing.offers c round dealer.public (private_halves_of unsent.items) (live_of beside fence life.old))
        (ends_in (live_of beside fence life.new) result) out.old.entries out.new.entries }
    ensures moved { Moved D.tells D.made X.made D.faults X.faults devices.old devices.new }
    ensures causes { StopsOver D.faults X.faults devices.old devices.new result }
    ensures fit { IsTrue D.tells → AreFit (non_zero_u32_get terms.now.limit) (D.image devices.old.disk.now)
        → AreFit (non_zero_u32_get terms.now.limit) (D.image devices.new.disk.now) }
{
    for (player, public, private) in unsent {
        offer(
            alloc, ceremony, signer, terms, life, devices, epoch, player, public, private, out,
        )?;
    }
    Ok(())
}

/// Offers the dealing to the players that have not acknowledged it, where this node deals (`deals`).
///
/// LocalState: another dealing of its own is recorded.
pub fn deal<C: Ceremony, Dir: Directory + Drop, D: Disk, X: SecretStore>(
    alloc: Global,
    ceremony: &C,
    signer: &C::Signer,
    terms: &Terms,
    life: &mut Life<Dir>,
    devices: &mut Devices<'_, D, X>,
    out: &mut Transcript,
) -> Result<(), Stop>
    requires dealing { life.old.stage ≡ Dealing }
    requires me { terms.now.me ≡ C.Signer.key_of signer.now }
    requires ready { IsReadyLife D.tells D.files D.image C.ack_of C.deal_of C.check_ack_of terms.now life.old devices.old }
    ensures ready { OnOk result (IsReadyLife D.tells D.files D.image C.ack_of C.deal_of C.check_ack_of terms.now life.new devices.new) }
    ensures rest { life.new ≡ record life.old { store = life.new.store; dealer = life.new.dealer; player = life.new.player } }
    ensures current { life.new.store.current ≡ life.old.store.current }
    ensures acts { IsTrue D.tells → IsTrue X.tells → (c : Fixed Dir) (beside : Beside Dir) (fence : Readiness)
        → IsOf terms.now c → AnswersBy C.dealing_of C.ack_of C.check_ack_of c.rules
        → Makes D.files D.image X.held (dealing.deals c (live_of beside fence life.old))
        (ends_in (live_of beside fence life.new) result) devices.old devices.new out.old.entries out.new.entries }
    ensures tells { (c : Fixed Dir) (beside : Beside Dir) (fence : Readiness)
        → IsOf terms.now c → AnswersBy C.dealing_of C.ack_of C.check_ack_of c.rules
        → Tells (dealing.deals c (live_of beside fence life.old))
        (ends_in (live_of beside fence life.new) result) out.old.entries out.new.entries }
    ensures moved { Moved D.tells D.made X.made D.faults X.faults devices.old devices.new }
    ensures causes { StopsOver D.faults X.faults devices.old devices.new result }
    ensures fit { IsTrue D.tells → AreFit (non_zero_u32_get terms.now.limit) (D.image devices.old.disk.now)
        → AreFit (non_zero_u32_get terms.now.limit) (D.image devices.new.disk.now) }
{
    let Some(round) = &life.round else {
        return Ok(());
    };
    let Some(dealer) = &life.dealer else {
        return Ok(());
    };
    let epoch = Epoch(round.parts().number);
    let unsent = unsent_of(alloc, dealer)?;
    offer_all(
        alloc, ceremony, signer, terms, life, devices, epoch, unsent, out,
    )
}
