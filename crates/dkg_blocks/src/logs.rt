//! Dealers' logs: which log a block records, and whom this node's own is served to.
ghost use Rattle.std.specs.Prelude.{◌≡◌, ◌<◌, ◌&&◌, ◌^◌, ℕ, [], IfErr, IfOk, IsTrue, List, None, OnOk, Some, if◌then◌else◌, length, nat_le, option_and_then, option_map};
ghost use Rattle.std.specs.Option.{option_copied};
ghost use Rattle.dkg_ceremony.specs.Logs.{LogFits, log_spelling};
ghost use Rattle.dkg_ceremony.specs.declared.round.RoundParts.{RoundParts as Round};
ghost use Rattle.dkg_fence.specs.Readiness.{Readiness};
ghost use Rattle.dkg_store.specs.Corrupt.{AreFit};
ghost use Rattle.dkg_types.specs.PayloadCodes.{its_log, log_payload};
ghost use Rattle.dkg_infos.specs.declared.entry.Entry.{Entry};
ghost use Rattle.dkg_infos.specs.declared.fault.Fault.TheVariants.{NoMemory as OutOfMemory};
ghost use Rattle.dkg_core.specs.Blocks as blocks;
ghost use Rattle.dkg_core.specs.Fixed.{Fixed, has};
ghost use Rattle.dkg_core.specs.Including as including;
ghost use Rattle.dkg_life.specs.Ready.{IsReadyLife};
ghost use Rattle.dkg_life.specs.Ends.{StopsOver, ends_in};
ghost use Rattle.dkg_life.specs.LiveOf.{Beside, EndsWith, live_of};
ghost use Rattle.dkg_life.specs.Made.{Makes, Speaks, Tells};
ghost use Rattle.dkg_life.specs.Moved.{IsFirm, Moved};
ghost use Rattle.dkg_life.specs.declared.life.Life.{Life};
ghost use Rattle.dkg_life.specs.declared.life.Stage.TheVariants.{Including};
ghost use Rattle.dkg_life.specs.declared.stop.Stop.TheVariants.{Fault as Faulted};
ghost use Rattle.dkg_verifying.specs.InclusionOf.{IsSeen};
ghost use Rattle.dkg_blocks.specs.CarriedLogs.{CarriesWithin, cleared_of};

use dkg_ceremony::{Ceremony, Round, SignedDealerLog};
use dkg_infos::{Directory, Entry, Fault, Transcript};
use dkg_journal::Disk;
use dkg_life::{Life, Stage, Stop, Terms};
use dkg_store::{Devices, SecretStore, Store};
use dkg_types::{Block, Payload, ReshareBlock};
use dkg_values::{EncodeSize, Epoch, Height, Key, Mem, Value};
use dkg_verifying::{Inclusion, bytes_of, told_log};
use std::alloc::Global;

/// The log that a block carries, if it carries one.
fn log_in<Dir: Directory>(block: &Block<Dir>) -> Option<&SignedDealerLog>
    ensures { option_copied result ≡ option_and_then its_log block.now.payload }
{
    match block.payload() {
        Some(Payload::DealerLog(signed)) => Some(signed),
        Some(Payload::EpochInfo(_)) | None => None,
    }
}

/// Whether a log counts in the round: it is of one of its dealers, and the check accepts it (`is_accepted`).
fn is_accepted<C: Ceremony>(
    alloc: Global,
    ceremony: &C,
    round: &Round,
    signed: &SignedDealerLog,
) -> Mem<bool>
    ensures { IfOk result (λ yes. yes ≡ (has round.now.dealers signed.now.dealer && C.check_log_of round.now signed.now)) }
{
    if !round.parts().dealers.has(signed.dealer) {
        return Ok(false);
    }
    ceremony.check_log(alloc, round, signed)
}

/// Whether a record of the journal has room for a log, with what stands before it.
fn has_room(signed: &SignedDealerLog) -> bool
    ensures room { IsTrue result → length (log_spelling signed.now.log) < 2 ^ 31 }
    ensures dealer { signed.now.dealer < 2 ^ 32 }
{
    let _number = signed.dealer.number();
    signed.log.encode_size() < 0x8000_0000
}

/// Records a dealer's first log, with the height of its block (`records_log`). A log of 2^31 bytes or more is answered by want of memory.
fn record<Dir: Directory + Drop, D: Disk, X: SecretStore>(
    alloc: Global,
    store: &mut Store<Dir>,
    devices: &mut Devices<'_, D, X>,
    epoch: Epoch,
    height: Height,
    signed: &SignedDealerLog,
) -> Result<(), Stop>
    requires firm { IsTrue D.tells → IsFirm store.old.journal (D.files devices.old.disk.now) (D.image devices.old.disk.now) }
    ensures firm { OnOk result (IsTrue D.tells → IsFirm store.new.journal (D.files devices.new.disk.now) (D.image devices.new.disk.now)) }
    ensures rest { store.new ≡ record store.old { journal = store.new.journal; logs = store.new.logs } }
    ensures acts { IsTrue D.tells → IsTrue X.tells → (life : Life Dir) (beside : Beside Dir) (fence : Readiness) (out : List Entry) → life.store ≡ store.old
        → Makes D.files D.image X.held (blocks.records_log epoch height signed.now (live_of beside fence life))
        (ends_in (live_of beside fence (record life { store = store.new })) result) devices.old devices.new out out }
    ensures tells { (life : Life Dir) (beside : Beside Dir) (fence : Readiness) (out : List Entry) → life.store ≡ store.old
        → Tells (blocks.records_log epoch height signed.now (live_of beside fence life))
        (ends_in (live_of beside fence (record life { store = store.new })) result) out out }
    ensures moved { Moved D.tells D.made X.made D.faults X.faults devices.old devices.new }
    ensures causes { StopsOver D.faults X.faults devices.old devices.new result }
    ensures fit { IsTrue D.tells → (most : ℕ) → LogFits most signed.now.log → AreFit most (D.image devices.old.disk.now)
        → AreFit most (D.image devices.new.disk.now) }
{
    if store.has_log(epoch, signed.dealer) {
        return Ok(());
    }
    if !has_room(signed) {
        return Err(Stop::Fault(Fault::NoMemory));
    }
    let log = signed.log.copy(alloc)?;
    store.append_log(alloc, devices, epoch, signed.dealer, height, log)?;
    Ok(())
}

/// Offers this node's log no more, once a block carries it (`without_own_log`).
fn clear_own<Dir: Directory + Drop>(me: Key, life: &mut Life<Dir>, dealer: Key)
    ensures rest { life.new ≡ record life.old { dealer = cleared_of me dealer life.old.dealer } }
    ensures cleared { (c : Fixed Dir) (beside : Beside Dir) (fence : Readiness) → c.me ≡ me
        → live_of beside fence life.new ≡ blocks.without_own_log c dealer (live_of beside fence life.old) }
{
    if dealer != me {
        return;
    }
    if let Some(dealer) = &mut life.dealer {
        dealer.clear_finalized();
    }
}

/// Takes the log that a block carries, where it counts (`observes`).
pub fn observe<C: Ceremony, Dir: Directory + Drop, D: Disk, X: SecretStore>(
    alloc: Global,
    ceremony: &C,
    terms: &Terms,
    life: &mut Life<Dir>,
    devices: &mut Devices<'_, D, X>,
    block: &Block<Dir>,
) -> Result<(), Stop>
    requires ready { IsReadyLife D.tells D.files D.image C.ack_of C.deal_of C.check_ack_of terms.now life.old devices.old }
    ensures ready { OnOk result (IsReadyLife D.tells D.files D.image C.ack_of C.deal_of C.check_ack_of terms.now life.new devices.new) }
    ensures rest { life.new ≡ record life.old {
      store = record life.old.store { journal = life.new.store.journal; logs = life.new.store.logs };
      dealer = life.new.dealer;
    } }
    ensures acts { IsTrue D.tells → IsTrue X.tells → (c : Fixed Dir) (round : Round) (beside : Beside Dir) (fence : Readiness) (out : List Entry)
        → c.me ≡ terms.now.me
        → c.rules.check_log_of ≡ C.check_log_of → life.old.round ≡ Some round
        → Makes D.files D.image X.held (blocks.observes c round block.now (live_of beside fence life.old) (option_and_then its_log block.now.payload))
        (ends_in (live_of beside fence life.new) result) devices.old devices.new out out }
    ensures tells { (c : Fixed Dir) (round : Round) (beside : Beside Dir) (fence : Readiness) (out : List Entry) → c.me ≡ terms.now.me
        → c.rules.check_log_of ≡ C.check_log_of → life.old.round ≡ Some round
        → Tells (blocks.observes c round block.now (live_of beside fence life.old) (option_and_then its_log block.now.payload))
        (ends_in (live_of beside fence life.new) result) out out }
    ensures moved { Moved D.tells D.made X.made D.faults X.faults devices.old devices.new }
    ensures causes { StopsOver D.faults X.faults devices.old devices.new result }
    ensures fit { IsTrue D.tells → (most : ℕ) → CarriesWithin most block.now → AreFit most (D.image devices.old.disk.now)
        → AreFit most (D.image devices.new.disk.now) }
{
    let Some(round) = &life.round else {
        return Ok(());
    };
    let Some(signed) = log_in(block) else {
        return Ok(());
    };
    let counts = is_accepted(alloc, ceremony, round, signed)?;
    if !counts {
        return Ok(());
    }
    let epoch = Epoch(round.parts().number);
    record(
        alloc,
        &mut life.store,
        devices,
        epoch,
        block.height(),
        signed,
    )?;
    clear_own(terms.me, life, signed.dealer);
    Ok(())
}

/// This node's log, while inclusion offers it (`own_log`).
fn own_log<Dir: Directory + Drop>(life: &Life<Dir>) -> Option<&SignedDealerLog>
    ensures { (beside : Beside Dir) (fence : Readiness) → option_copied result ≡ including.own_log (live_of beside fence life.now) }
{
    match &life.dealer {
        Some(dealer) => dealer.finalized(),
        None => None,
    }
}

/// A copy of a log as a block carries it, if there is one.
fn log_of<Dir: Directory>(alloc: Global, log: Option<&SignedDealerLog>) -> Mem<Option<Payload<Dir>>>
    ensures { IfOk result (λ made. made ≡ option_map log_payload (option_copied log.entry)) }
{
    match log {
        Some(signed) => Ok(Some(Payload::DealerLog(signed.copy(alloc)?))),
        None => Ok(None),
    }
}

/// This node's log, where inclusion offers it and none counts as served (`served_now`).
fn offered<C: Ceremony, Dir: Directory + Drop>(
    alloc: Global,
    life: &Life<Dir>,
    inclusion: &Inclusion<C, Dir>,
) -> Mem<Option<Payload<Dir>>>
    ensures made { IfOk result (λ made. (beside : Beside Dir) (fence : Readiness) → IsSeen inclusion.now beside.inclusion
        → made ≡ option_map log_payload (including.served_now (live_of beside fence life.now))) }
    ensures includes { IfOk result (λ made. (life.now.stage ≡ Including → ⊥) → made ≡ None) }
{
    if inclusion.served.is_some() {
        return Ok(None);
    }
    match life.stage {
        Stage::Including => log_of(alloc, own_log(life)),
        Stage::Dealing | Stage::Following => Ok(None),
    }
}

/// Takes a log request: what is served counts as served from then on (`serves_log`).
pub fn serve<C: Ceremony, Dir: Directory + Drop>(
    alloc: Global,
    life: &Life<Dir>,
    inclusion: &mut Inclusion<C, Dir>,
    request: u64,
    height: Height,
    out: &mut Transcript,
) -> Result<(), Stop>
    ensures speaks { (c : Fixed Dir) (beside : Beside Dir) (fence : Readiness) → c.directories.spelling ≡ Dir.spelling → IsSeen inclusion.old beside.inclusion
        → EndsWith beside (λ i. OnOk result (IsSeen inclusion.new i)) (λ more. more ≡ [])
        (λ now. Speaks (including.serves_log c request height (live_of beside fence life.now)) (ends_in (live_of now fence life.now) result)
        out.old.entries out.new.entries) }
    ensures rest { inclusion.new ≡ record inclusion.old { served = inclusion.new.served; told = inclusion.new.told } }
    ensures unserved { (life.now.stage ≡ Including → ⊥) → inclusion.new.served ≡ inclusion.old.served }
    ensures memory { IfErr result (λ stop. stop ≡ Faulted OutOfMemory) }
{
    let payload = offered(alloc, life, inclusion)?;
    let line = bytes_of(alloc, &payload)?;
    let serves = payload.is_some();
    out.push(Entry::Log {
        request,
        payload: line,
    })?;
    told_log(alloc, &mut inclusion.told, request, payload)?;
    if !serves {
        return Ok(());
    }
    inclusion.served = Some(height);
    Ok(())
}

/// Whether this node's log counts as served for this height (`is_served_at`).
fn is_served_at<Dir: Directory + Drop>(
    life: &Life<Dir>,
    served: Option<Height>,
    height: Height,
) -> bool
    ensures { (beside : Beside Dir) (fence : Readiness) → beside.inclusion.served ≡ served
        → result ≡ including.is_served_at height (live_of beside fence life.now) }
{
    match life.stage {
        Stage::Including => match served {
            Some(at) if at == height => own_log(life).is_some(),
            _ => false,
        },
        Stage::Dealing | Stage::Following => false,
    }
}

/// Takes a log back that was served for this height (`releases`).
pub fn release<C: Ceremony, Dir: Directory + Drop>(
    life: &Life<Dir>,
    inclusion: &mut Inclusion<C, Dir>,
    height: Height,
)
    ensures released { (beside : Beside Dir) (fence : Readiness) → IsSeen inclusion.old beside.inclusion
        → IsSeen inclusion.new (including.releases height (live_of beside fence life.now)).inclusion }
    ensures rest { inclusion.new ≡ record inclusion.old { served = inclusion.new.served } }
    ensures unserved { (life.now.stage ≡ Including → ⊥) → inclusion.new.served ≡ inclusion.old.served }
{
    if !is_served_at(life, inclusion.served, height) {
        return;
    }
    inclusion.served = None;
}

/// Takes a log back that was served for this height or one below (`unserved`).
pub fn unserve<C: Ceremony, Dir: Directory>(inclusion: &mut Inclusion<C, Dir>, height: Height)
    ensures { inclusion.new ≡ record inclusion.old { served = option_and_then (λ at. if nat_le at height then None else Some at) inclusion.old.served } }
{
    let served = inclusion.served;
    match served {
        Some(at) if at <= height => inclusion.served = None,
        _ => {}
    }
}
