//! What desks give over one output, and what one keeps over several lives.
ghost use Rattle.std.specs.Prelude.{◌≡◌, ◌<◌, ◌-◌, ◌^◌, length, IfOk, IsTrue, OnOk};
ghost use Rattle.dkg_sign.specs.Lives.{KeepsPromise, NeverBack};
ghost use Rattle.dkg_sign.specs.Played.{IsPlaying, desk_deeds};

use crate::asserts::{is, is_at};
use dkg_ceremony::{Mode, Public, Set, Share, Sharing};
use dkg_journal::{Disk, Fuse, MemoryDisk, SureDisk};
use dkg_sign::{
    CombineError, DeskError, DeskRegistrar, Partial, SignError, Signature, SigningDesk,
};
use dkg_types::{Registrar, SchemeInfo};
use dkg_values::{Element, Epoch, Key, Name};
use std::alloc::Global;
use std::process::Abort;
use std::test::Fail;

const ME: Key = Key(1);

const MESSAGE: &[u8] = b"abc";

fn element(value: u16) -> Result<Element, Fail> {
    Ok(Element::new(value).ok_or("no element")?)
}

/// A key that is shared among four by 5 + x + 2x².
fn sharing(alloc: Global) -> Result<Sharing, Fail> {
    let elements = vec![in alloc; element(5)?, element(1)?, element(2)?]?;
    Ok(Sharing {
        mode: Mode::NonZeroCounter,
        total: 4,
        poly: Public::new(alloc, elements)?,
    })
}

/// Key 1's material of this sharing among the keys 1 to 4, whose own shares are 8, 15, 26 and 41.
fn material(alloc: Global, share: Option<u16>) -> Result<SchemeInfo, Fail> {
    let share = match share {
        Some(value) => Some(Share(element(value)?)),
        None => None,
    };
    let participants = Set::from_any(alloc, &[Key(1), Key(2), Key(3), Key(4)])?;
    Ok(SchemeInfo::new(ME, participants, sharing(alloc)?, share))
}

/// Key 1's desk over its disk, in a life that nothing cuts.
fn opened<D: Disk>(alloc: Global, disk: &mut D) -> Result<SigningDesk, DeskError> {
    SigningDesk::open(alloc, disk, &mut Fuse::never(), ME)
}

/// Registers an epoch's material with this share, in a life that nothing cuts. Why it is refused is returned.
fn refusal<D: Disk>(
    alloc: Global,
    disk: &mut D,
    desk: &mut SigningDesk,
    epoch: u64,
    share: Option<u16>,
) -> Result<Option<DeskError>, Fail> {
    let info = material(alloc, share)?;
    let made = desk.register(alloc, disk, &mut Fuse::never(), Epoch(epoch), info);
    Ok(made.err())
}

/// Registers an epoch's material with key 1's own share, and fails where it is refused.
fn register<D: Disk>(
    alloc: Global,
    disk: &mut D,
    desk: &mut SigningDesk,
    epoch: u64,
) -> Result<(), Fail> {
    match refusal(alloc, disk, desk, epoch, Some(8))? {
        Some(why) => Err(why.into()),
        None => Ok(()),
    }
}

/// Why a desk signs nothing.
fn unsigned(desk: &SigningDesk, epoch: u64) -> Option<SignError> {
    desk.sign(Epoch(epoch), MESSAGE).err()
}

/// A desk over its disk, which holds epoch 0.
fn first_desk_over<D: Disk>(alloc: Global, disk: &mut D) -> Result<SigningDesk, Fail> {
    let mut desk = opened(alloc, disk)?;
    register(alloc, disk, &mut desk, 0)?;
    Ok(desk)
}

/// .. in memory.
fn first_desk(alloc: Global) -> Result<SigningDesk, Fail> {
    let mut disk = SureDisk::new(alloc);
    first_desk_over(alloc, &mut disk)
}

/// What the head of the crate shows, line by line.
fn register_sign_and_combine<D: Disk>(
    alloc: Global,
    disk: &mut D,
    me: Key,
    epoch: Epoch,
    info: SchemeInfo,
    message: &[u8],
    partials: &mut Vec<Partial>,
) -> Result<Signature, Fail>
    requires { length partials.old.items < 2 ^ 32 - 1 }
{
    let mut fuse = Fuse::never();
    let mut desk = SigningDesk::open(alloc, disk, &mut fuse, me)?;
    desk.register(alloc, disk, &mut fuse, epoch, info)?;
    let partial = desk.sign(epoch, message)?;
    partials.push(partial)?;
    let signature = desk.combine(alloc, message, epoch, partials)?;
    Ok(signature)
}

/// A partial of a signer, an epoch and a value.
fn partial_of(signer: u32, epoch: u64, value: u16) -> Result<Partial, Fail> {
    Ok(Partial {
        epoch: Epoch(epoch),
        signer: Key(signer),
        value: element(value)?,
    })
}

/// What keys 2 and 3 give for epoch 7.
fn partials_of_others(alloc: Global) -> Result<Vec<Partial>, Fail>
    ensures { IfOk result (λ partials. length partials.items ≡ 2) }
{
    let (two, three) = (partial_of(2, 7, 60830)?, partial_of(3, 7, 61758)?);
    Ok(vec![in alloc; two, three]?)
}

/// The signature of epoch 7 that key 1 makes with those.
fn signed(alloc: Global) -> Result<Signature, Fail> {
    let info = material(alloc, Some(8))?;
    let mut partials = partials_of_others(alloc)?;
    let mut disk = SureDisk::new(alloc);
    register_sign_and_combine(alloc, &mut disk, ME, Epoch(7), info, MESSAGE, &mut partials)
}

#[test]
fn a_validator_signs(rt: HostRuntime) -> Result<(), Fail> {
    is(&rt, signed(rt.alloc())?.value.get(), 42117);
    Ok(())
}

/// These partials, each a signer, an epoch and a value.
fn partials_of(alloc: Global, given: &[(u32, u64, u16)]) -> Result<Vec<Partial>, Fail> {
    let mut partials = Vec::new(alloc);
    for (signer, epoch, value) in given {
        partials.push(partial_of(*signer, *epoch, *value)?)?;
    }
    Ok(partials)
}

/// What a desk makes of partials, each a signer, an epoch and a value.
fn combined(
    alloc: Global,
    desk: &SigningDesk,
    given: &[(u32, u64, u16)],
) -> Result<Result<u16, CombineError>, Fail> {
    let partials = partials_of(alloc, given)?;
    if partials.len() > 4 {
        return Err(Fail::from("more partials than participants"));
    }
    let made = desk.combine(alloc, MESSAGE, Epoch(0), &partials);
    Ok(made.map(|signature| signature.value.get()))
}

/// Fails where this desk, which holds epoch 0, makes something else of some partials than it has to.
fn combines(rt: &impl Abort, alloc: Global, desk: &SigningDesk) -> Result<(), Fail> {
    let (one, two, three) = ((1, 0, 54283), (2, 0, 60830), (3, 0, 61758));
    let (wrong, later) = ((1, 0, 54284), (2, 1, 60830));
    let rows: [(&[(u32, u64, u16)], Result<u16, CombineError>); 8] = [
        (&[one, two, three], Ok(42117)),
        (&[three, one, two], Ok(42117)),
        (&[(4, 0, 57067), two, one], Ok(42117)),
        (&[one, two], Err(CombineError::Few { got: 2, need: 3 })),
        (
            &[wrong, two, three],
            Err(CombineError::Invalid { index: 0 }),
        ),
        (
            &[(5, 0, 1), two, three],
            Err(CombineError::Invalid { index: 0 }),
        ),
        (&[one, later, one], Err(CombineError::Invalid { index: 1 })),
        (&[one, one, later], Err(CombineError::Doubled { index: 1 })),
    ];
    for (given, want) in rows {
        is_at(rt, combined(alloc, desk, given)?, want, given);
    }
    let unknown = desk.combine(alloc, MESSAGE, Epoch(1), &[]);
    is(rt, unknown, Err(CombineError::Unknown { epoch: Epoch(1) }));
    Ok(())
}

#[test]
fn a_quorum_of_partials_makes_the_signature(rt: HostRuntime) -> Result<(), Fail> {
    let desk = first_desk(rt.alloc())?;
    combines(&rt, rt.alloc(), &desk)
}

/// Fails where this new desk takes or refuses some material as it mustn't.
fn refuses_in_order<D: Disk>(
    rt: &impl Abort,
    alloc: Global,
    disk: &mut D,
    desk: &mut SigningDesk,
) -> Result<(), Fail> {
    let (asked, current) = (Epoch(0), Epoch(1));
    let rows: [(u64, Option<u16>, Option<DeskError>); 7] = [
        (0, Some(9), Some(DeskError::Foreign { epoch: Epoch(0) })),
        (0, Some(8), None),
        (0, Some(8), None),
        (0, None, Some(DeskError::Conflict { epoch: Epoch(0) })),
        (0, Some(9), Some(DeskError::Foreign { epoch: Epoch(0) })),
        (1, None, None),
        (0, Some(9), Some(DeskError::Replaced { asked, current })),
    ];
    for (epoch, share, want) in rows {
        let why = refusal(alloc, disk, desk, epoch, share)?;
        is_at(rt, why, want, (epoch, share));
    }
    is(
        rt,
        unsigned(desk, 1),
        Some(SignError::NoShare { epoch: Epoch(1) }),
    );
    Ok(())
}

#[test]
fn material_is_refused_by_its_tests_in_order(rt: HostRuntime) -> Result<(), Fail> {
    let mut disk = SureDisk::new(rt.alloc());
    let mut desk = opened(rt.alloc(), &mut disk)?;
    refuses_in_order(&rt, rt.alloc(), &mut disk, &mut desk)
}

const REPLACED: SignError = SignError::Replaced {
    asked: Epoch(0),
    current: Epoch(1),
};

/// A desk that is opened behind a life that registered epochs 0 and 1.
fn opened_again<D: Disk>(alloc: Global, disk: &mut D) -> Result<SigningDesk, Fail> {
    let mut desk = first_desk_over(alloc, disk)?;
    register(alloc, disk, &mut desk, 1)?;
    Ok(opened(alloc, disk)?)
}

#[test]
fn an_opened_desk_has_its_epoch_without_material(rt: HostRuntime) -> Result<(), Fail> {
    let desk = opened_again(rt.alloc(), &mut SureDisk::new(rt.alloc()))?;
    is(&rt, desk.current(), Some(Epoch(1)));
    is(&rt, unsigned(&desk, 0), Some(REPLACED));
    let unknown = SignError::Unknown { epoch: Epoch(1) };
    is(&rt, unsigned(&desk, 1), Some(unknown));
    Ok(())
}

/// Cuts the put of epoch 1 of a desk. Fails where it isn't cut.
fn cut<D: Disk>(
    alloc: Global,
    disk: &mut D,
    desk: &mut SigningDesk,
    pick: u64,
) -> Result<(), Fail> {
    let info = material(alloc, Some(8))?;
    let made = desk.register(alloc, disk, &mut Fuse::at(1, pick), Epoch(1), info);
    if made != Err(DeskError::Cut) {
        return Err(Fail::from("the put was not cut"));
    }
    Ok(())
}

/// Cuts the put of epoch 1 behind that of epoch 0. What the desk then opens with is returned.
fn left_by_a_cut<D: Disk>(alloc: Global, disk: &mut D, pick: u64) -> Result<Option<Epoch>, Fail> {
    let mut desk = first_desk_over(alloc, disk)?;
    cut(alloc, disk, &mut desk, pick)?;
    Ok(opened(alloc, disk)?.current())
}

#[test]
fn a_cut_put_leaves_the_old_epoch_or_the_new_one(rt: HostRuntime) -> Result<(), Fail> {
    for (pick, current) in [(0, Epoch(1)), (1, Epoch(0))] {
        let left = left_by_a_cut(rt.alloc(), &mut MemoryDisk::new(rt.alloc()), pick)?;
        is_at(&rt, left, Some(current), pick);
    }
    Ok(())
}

/// What a desk opens with over a record of these bytes.
fn current_of(alloc: Global, bytes: &[u8]) -> Result<Result<Option<Epoch>, DeskError>, Fail> {
    let mut disk = SureDisk::new(alloc);
    disk.install(alloc, Name::Plan, bytes)?;
    Ok(opened(alloc, &mut disk).map(|desk| desk.current()))
}

#[test]
fn a_record_that_is_no_epoch_is_corrupt(rt: HostRuntime) -> Result<(), Fail> {
    let rows: [(&[u8], Result<Option<Epoch>, DeskError>); 4] = [
        (&[], Err(DeskError::Corrupt { place: 0 })),
        (&[128, 0], Err(DeskError::Corrupt { place: 0 })),
        (&[7, 7], Err(DeskError::Corrupt { place: 0 })),
        (&[172, 2], Ok(Some(Epoch(300)))),
    ];
    for (bytes, want) in rows {
        is_at(&rt, current_of(rt.alloc(), bytes)?, want, bytes);
    }
    Ok(())
}

/// A life of a desk: the call at which its fuse cuts, the pick with which its disk crashes at its end, and what it is asked in turn: to
/// register this epoch, or to sign for it.
type Life<'a> = (u64, u64, &'a [(bool, u64)]);

/// Asks a desk once, and lists in front what was done: an epoch was registered, or signed for. Whether the life goes on is returned.
fn ask<D: Disk>(
    alloc: Global,
    disk: &mut D,
    desk: &mut SigningDesk,
    fuse: &mut Fuse,
    request: (bool, u64),
    deeds: &mut Vec<(bool, u64)>,
) -> Result<bool, Fail>
    requires { IsTrue D.tells → IsPlaying (desk_deeds deeds.old.items) desk.old (D.files disk.old) (D.image disk.old) }
    ensures goes_on { IfOk result (λ goes. IsTrue D.tells → IsTrue goes
        → IsPlaying (desk_deeds deeds.new.items) desk.new (D.files disk.new) (D.image disk.new)) }
    ensures keeps { OnOk result (IsTrue D.tells → KeepsPromise (desk_deeds deeds.new.items) (D.image disk.new)) }
{
    let (registers, epoch) = request;
    if !registers {
        if desk.sign(Epoch(epoch), MESSAGE).is_ok() {
            deeds.insert(0, (false, epoch))?;
        }
        return Ok(true);
    }
    let info = material(alloc, Some(8))?;
    match desk.register(alloc, disk, fuse, Epoch(epoch), info) {
        Ok(()) => {
            deeds.insert(0, (true, epoch))?;
            Ok(true)
        }
        Err(DeskError::Disk | DeskError::Cut) => Ok(false),
        Err(_) => Ok(true),
    }
}

/// Plays a life.
fn live<D: Disk>(
    alloc: Global,
    disk: &mut D,
    life: &Life<'_>,
    deeds: &mut Vec<(bool, u64)>,
) -> Result<(), Fail>
    requires { IsTrue D.tells → KeepsPromise (desk_deeds deeds.old.items) (D.image disk.old) }
    ensures { OnOk result (IsTrue D.tells → KeepsPromise (desk_deeds deeds.new.items) (D.image disk.new)) }
{
    let (call, pick, requests) = *life;
    let mut fuse = Fuse::at(call, pick);
    let Ok(mut desk) = SigningDesk::open(alloc, disk, &mut fuse, ME) else {
        return Ok(());
    };
    for request in requests {
        if !ask(alloc, disk, &mut desk, &mut fuse, *request, deeds)? {
            return Ok(());
        }
    }
    disk.crash(pick);
    Ok(())
}

/// Plays lives, one behind the other, over one disk: whatever they are, no partial of an epoch is given after a registration of a later
/// one was answered Ok.
#[tactic(auto, using(dkg_sign::proofs::Deeds::nothing_done))]
fn live_all<D: Disk>(
    alloc: Global,
    disk: &mut D,
    lives: &[Life<'_>],
) -> Result<Vec<(bool, u64)>, Fail>
    ensures { IfOk result (λ deeds. IsTrue D.tells → NeverBack (desk_deeds deeds.items)) }
{
    let mut deeds = Vec::new(alloc);
    for life in lives {
        live(alloc, disk, life, &mut deeds)?;
    }
    Ok(deeds)
}

/// What is done in three lives of which the second is cut in its second call, the put of epoch 1, which an even pick has done and an odd one has not.
fn done_in_three_lives(alloc: Global, pick: u64) -> Result<Vec<(bool, u64)>, Fail> {
    let lives: [Life<'_>; 3] = [
        (0, 1, &[(false, 0), (true, 0), (false, 0), (false, 1)]),
        (2, pick, &[(true, 1), (false, 0), (false, 1)]),
        (0, 0, &[(false, 0), (true, 0), (false, 0)]),
    ];
    live_all(alloc, &mut SureDisk::new(alloc), &lives)
}

#[test]
fn no_life_signs_below_what_was_registered(rt: HostRuntime) -> Result<(), Fail> {
    let rows: [(u64, &[(bool, u64)]); 2] = [
        (0, &[(false, 0), (true, 0)]),
        (1, &[(false, 0), (true, 0), (false, 0), (true, 0)]),
    ];
    for (pick, done) in rows {
        let deeds = done_in_three_lives(rt.alloc(), pick)?;
        is_at(&rt, deeds.as_slice(), done, pick);
    }
    Ok(())
}

/// Registers epochs with a registrar, each with key 1's own material.
fn register_each<D: Disk>(
    alloc: Global,
    registrar: &mut DeskRegistrar<D>,
    epochs: &[u64],
) -> Result<(), Fail> {
    for epoch in epochs {
        registrar.register(alloc, Epoch(*epoch), material(alloc, Some(8))?)?;
    }
    Ok(())
}

/// A registrar whose registration of epoch 1 fails behind that of epoch 0.
fn failing_registrar(alloc: Global) -> Result<DeskRegistrar<MemoryDisk>, Fail> {
    // The calls are a barrier and a read, the put of epoch 0, and that of epoch 1, which fails.
    let mut disk = MemoryDisk::failing(alloc, vec![in alloc; 4]?);
    let desk = opened(alloc, &mut disk)?;
    Ok(DeskRegistrar::new(alloc, desk, disk))
}

/// Fails where a registrar whose registration of epoch 1 fails doesn't list that, or goes on from it.
fn keeps_what_is_refused<D: Disk>(
    rt: &impl Abort,
    alloc: Global,
    registrar: &mut DeskRegistrar<D>,
) -> Result<(), Fail> {
    register_each(alloc, registrar, &[0, 1])?;
    is(rt, registrar.refused(), &[DeskError::Disk][..]);
    is(rt, registrar.desk().current(), Some(Epoch(0)));
    Ok(())
}

#[test]
fn a_registrar_keeps_what_is_refused(rt: HostRuntime) -> Result<(), Fail> {
    let mut registrar = failing_registrar(rt.alloc())?;
    keeps_what_is_refused(&rt, rt.alloc(), &mut registrar)
}

/// Fails where such a registrar doesn't register epoch 1 later, refuse epoch 0 then, and sign for epoch 1.
fn opens_its_desk_again<D: Disk>(
    rt: &impl Abort,
    alloc: Global,
    registrar: &mut DeskRegistrar<D>,
) -> Result<(), Fail> {
    register_each(alloc, registrar, &[0, 1, 1, 0])?;
    let replaced = DeskError::Replaced {
        asked: Epoch(0),
        current: Epoch(1),
    };
    is(rt, registrar.refused(), &[DeskError::Disk, replaced][..]);
    let partial = registrar.desk().sign(Epoch(1), MESSAGE)?;
    is(rt, partial.value.get(), 54283);
    Ok(())
}

#[test]
fn a_registrar_opens_its_desk_again(rt: HostRuntime) -> Result<(), Fail> {
    let mut registrar = failing_registrar(rt.alloc())?;
    opens_its_desk_again(&rt, rt.alloc(), &mut registrar)
}
