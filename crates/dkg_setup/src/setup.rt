//! Setup of an epoch: its info, share and seed, their commit and registration, the prune, and this node's parts in the round.
//!
//! Each function here is a part of the relation's `setup`, and names it.
ghost use Rattle.std.specs.Prelude.{◌≡◌, ◌<◌, ◌≤◌, ◌-◌, ◌^◌, ◌++◌, ◌∷◌, ◌⊎◌, ◌&&◌, ◌||◌, [], ⊤, ℕ, Contains, IfErr, IfOk, IfSome, IsSome, IsTrue, List, Option, Some, None, OnErr, OnOk, Ok, is_none, is_some, option_map, true};
ghost use Rattle.std.specs.FinMap as maps;
ghost use Rattle.std.specs.FinMap.{FinMap};
ghost use Rattle.std.specs.Int.NonZero.{non_zero_u32_get, non_zero_u64_get};
ghost use Rattle.std.specs.Ordering.{nat_cmp};
ghost use Rattle.dkg_ceremony.specs.Schedule.{boundary, epoch_of, first, last};
ghost use Rattle.dkg_ceremony.specs.declared.phase.Phase.{Phase};
ghost use Rattle.dkg_fence.specs.Fence.{marked};
ghost use Rattle.dkg_fence.specs.Readiness.{Readiness};
ghost use Rattle.dkg_journal.specs.Disk.{Rose};
ghost use Rattle.dkg_journal.specs.Fuse.{Reached};
ghost use Rattle.dkg_store.specs.Acts.{Held, Stands, held_in};
ghost use Rattle.dkg_store.specs.Called.{ErrorIsDue};
ghost use Rattle.dkg_store.specs.Corrupt.{AreFit};
ghost use Rattle.dkg_types.specs.Schemes.{scheme_of};
ghost use Rattle.dkg_infos.specs.Validation.{validation};
ghost use Rattle.dkg_infos.specs.declared.entry.Entry.{Entry};
ghost use Rattle.dkg_infos.specs.declared.fault.Fault.TheVariants.{HeightRange, NoMemory as OutOfMemory};
ghost use Rattle.dkg_core.specs.Asked.{IsEmptied};
ghost use Rattle.dkg_core.specs.Agreeing.{AreAgreed};
ghost use Rattle.dkg_core.specs.Courses.{bind};
ghost use Rattle.dkg_core.specs.Fixed.{Fixed, has};
ghost use Rattle.dkg_core.specs.Live.{Live};
ghost use Rattle.dkg_core.specs.Live as live;
ghost use Rattle.dkg_core.specs.Setup as setup;
ghost use Rattle.dkg_life.specs.Ready.{IsReadyLife, IsSetUp};
ghost use Rattle.dkg_life.specs.Ends.{IsCaused, IsCausedBy, IsOutside, StopsReading, by_stop, ends, ends_in};
ghost use Rattle.dkg_life.specs.Given.{CanRead, GivesBoth, GivesSeed, GivesShare, IsIn, IsLent, IsOf, ReadsPlanless};
ghost use Rattle.dkg_life.specs.LiveOf.{Beside, DealsFor, EndsBeside, IsDealing, PlayerSits, IsToSign, IsRoundWithin, SitsIn, TookSchemes, awaited_of, dealer_of, live_of, records_of, scheme_by, seat_of, with_scheme_of};
ghost use Rattle.dkg_life.specs.Made.{Makes, Speaks, Tells, UnlessBroken};
ghost use Rattle.dkg_life.specs.Moved.{IsFirm, Moved, StaysAbove, StaysFrom, StaysWhole};
ghost use Rattle.dkg_life.specs.Opened.{epoch_above};
ghost use Rattle.dkg_life.specs.Rules.{DealsBy, IsRuledBy, SeatsBy, SharesBy};
ghost use Rattle.dkg_setup.specs.Standings.{standing_of};
ghost use Rattle.dkg_life.specs.Steps.{AreBoundsAt, IsFaultOrWant, MakesDealer, MakesPlayer, StandsIn, kept_for, no_round, reads_secrets, reads_seed, refusal_of, stage_begun_in};
ghost use Rattle.dkg_life.specs.declared.life.Life.{Life};
ghost use Rattle.dkg_life.specs.declared.stop.Stop.TheVariants.{Fault as Faulted};

use crate::midpoint::begin_inclusion;
use crate::source::BlockSource;
use dkg_ceremony::{Bounds, Ceremony, Epocher, Phase, Round, RoundError, Share, fresh_seed};
use dkg_fence::Fence;
use dkg_infos::{
    Directory, Entry, EpochInfo, EpochOutcome, Fault, Part, ParticipantsCause, Role, Transcript,
};
use dkg_journal::Disk;
use dkg_life::{Life, Stage, Stop, Terms, awaited};
use dkg_store::{Dealer, Devices, Player, SecretStore, Store, StoreError};
use dkg_types::{Registrar, SchemeInfo};
use dkg_values::{Epoch, Height, Key, Mem, Seed, Value};
use std::alloc::Global;
use std::num::NonZeroU32;

/// What a node has in secret of an epoch: its share, where it holds one, and the seed from which it deals.
#[derive(Clone, Copy, Debug, PartialEq, Eq)]
pub struct EpochSecrets {
    pub share: Option<Share>,
    pub seed: Seed,
}

/// Whether a setup's info was committed before.
#[derive(Clone, Copy, Debug, PartialEq, Eq)]
enum Standing {
    Uncommitted,
    WasCommitted,
}

/// The newest share of an epoch below this one.
fn share_below<Dir: Drop, D: Disk, X: SecretStore>(
    alloc: Global,
    store: &mut Store<Dir>,
    devices: &mut Devices<'_, D, X>,
    epoch: Epoch,
) -> Result<Option<Share>, StoreError>
    ensures share { IfOk result (λ share. IsTrue X.tells → share ≡ setup.share_below (maps.entries (X.held devices.old.secrets.now).shares) epoch) }
    ensures some { IfOk result (λ share. IfSome share (λ its. 0 < epoch)) }
    ensures store { store.new ≡ store.old }
    ensures same { X.held devices.new.secrets.now ≡ X.held devices.old.secrets.now }
    ensures disk { devices.new.disk.now ≡ devices.old.disk.now }
    ensures fuse { devices.new.fuse ≡ devices.old.fuse }
    ensures moved { Moved D.tells D.made X.made D.faults X.faults devices.old devices.new }
    ensures due { IfErr result (λ e. ErrorIsDue e ⊥ (Rose (X.faults devices.old.secrets.now) (X.faults devices.new.secrets.now)) ⊥ ⊤) }
{
    if epoch.0 == 0 {
        return Ok(None);
    }
    store.share_below(alloc, devices, epoch)
}

/// The share of an info's epoch: the one that is stored. Where there is none, and the info carries an output on, it is the newest share
/// below, if that is this node's of the output.
///
/// The secret store tells which one that is.
pub fn recovered_share<C: Ceremony, Dir: Drop, D: Disk, X: SecretStore>(
    alloc: Global,
    ceremony: &C,
    me: Key,
    store: &mut Store<Dir>,
    devices: &mut Devices<'_, D, X>,
    info: &EpochInfo<Dir>,
) -> Result<Option<Share>, StoreError>
    ensures share { IfOk result (λ share. IsTrue X.tells
        → GivesShare C.share_public_of C.partial_public_of me info.now share (X.held devices.old.secrets.now).shares) }
    // Whatever the store tells, it is the share that some stored shares give.
    ensures any { IfOk result (λ share. (stored : FinMap nat_cmp ℕ) × GivesShare C.share_public_of C.partial_public_of me info.now share stored) }
    ensures store { store.new ≡ store.old }
    ensures same { X.held devices.new.secrets.now ≡ X.held devices.old.secrets.now }
    ensures disk { devices.new.disk.now ≡ devices.old.disk.now }
    ensures fuse { devices.new.fuse ≡ devices.old.fuse }
    ensures moved { Moved D.tells D.made X.made D.faults X.faults devices.old devices.new }
    ensures due { IfErr result (λ e. ErrorIsDue e ⊥ (Rose (X.faults devices.old.secrets.now) (X.faults devices.new.secrets.now)) ⊥ ⊤) }
{
    let stored = store.share(alloc, devices, info.epoch)?;
    if stored.is_some() || info.outcome != EpochOutcome::Failure {
        return Ok(stored);
    }
    let Some(expected) = ceremony.partial_public(&info.output, me) else {
        return Ok(None);
    };
    match share_below(alloc, store, devices, info.epoch)? {
        Some(share) if ceremony.share_public(&share) == expected => Ok(Some(share)),
        _ => Ok(None),
    }
}

/// The seed of an epoch: the stored one, else a fresh one (`seed_for`).
fn seed_for<Dir: Directory + Drop, D: Disk, X: SecretStore>(
    alloc: Global,
    store: &mut Store<Dir>,
    devices: &mut Devices<'_, D, X>,
    word: u64,
    epoch: Epoch,
) -> Result<Seed, StoreError>
    ensures seed { IfOk result (λ seed. (c : Fixed Dir) → c.word ≡ word → IsTrue X.tells
        → setup.seed_for c epoch (maps.get (X.held devices.old.secrets.now).seeds epoch) ≡ seed) }
    // Whatever the store tells, it is the seed that some stored seed or none comes to.
    ensures any { IfOk result (λ seed. (kept : Option (List ℕ)) × ((c : Fixed Dir) → c.word ≡ word → setup.seed_for c epoch kept ≡ seed)) }
    ensures store { store.new ≡ store.old }
    ensures same { X.held devices.new.secrets.now ≡ X.held devices.old.secrets.now }
    ensures disk { devices.new.disk.now ≡ devices.old.disk.now }
    ensures fuse { devices.new.fuse ≡ devices.old.fuse }
    ensures moved { Moved D.tells D.made X.made D.faults X.faults devices.old devices.new }
    ensures due { IfErr result (λ e. ErrorIsDue e ⊥ (Rose (X.faults devices.old.secrets.now) (X.faults devices.new.secrets.now)) ⊥ ⊤) }
{
    match store.seed(alloc, devices, epoch)? {
        Some(seed) => Ok(seed),
        None => Ok(fresh_seed(word, epoch)),
    }
}

/// Reads an info's share and seed: one `looks` of the relation.
pub fn secrets_of<C: Ceremony, Dir: Directory + Drop, D: Disk, X: SecretStore>(
    alloc: Global,
    ceremony: &C,
    me: Key,
    life: &mut Life<Dir>,
    devices: &mut Devices<'_, D, X>,
    info: &EpochInfo<Dir>,
) -> Result<EpochSecrets, Stop>
    ensures life { life.new ≡ life.old }
    ensures disk { devices.new.disk.now ≡ devices.old.disk.now }
    ensures same { X.held devices.new.secrets.now ≡ X.held devices.old.secrets.now }
    ensures acts { IsTrue D.tells → IsTrue X.tells → (c : Fixed Dir) → c.me ≡ me → c.word ≡ life.old.word
        → SharesBy C.share_public_of C.partial_public_of c.rules → ReadsPlanless c → (out : List Entry)
        → Makes D.files D.image X.held (reads_secrets c info.now) (ends (λ it. (it.share, it.seed)) result) devices.old devices.new out out }
    // Whatever the devices tell, these are what some stored shares and seeds come to; and where nothing is read, nothing is said.
    ensures read { IfOk result (λ it. (h : Held) × ((c : Fixed Dir) → c.me ≡ me → c.word ≡ life.old.word
        → SharesBy C.share_public_of C.partial_public_of c.rules → GivesBoth c info.now it.share it.seed h)) }
    ensures unread { IfErr result (λ stop. (c : Fixed Dir) (out : List Entry) → Tells (reads_secrets c info.now) (by_stop stop) out out) }
    ensures moved { Moved D.tells D.made X.made D.faults X.faults devices.old devices.new }
    ensures causes { IfErr result (λ stop. IsOutside stop × IsCaused stop ⊥ (Rose (X.faults devices.old.secrets.now) (X.faults devices.new.secrets.now))
        (Reached devices.old.fuse devices.new.fuse)) }
{
    let share = recovered_share(alloc, ceremony, me, &mut life.store, devices, info)?;
    let seed = seed_for(alloc, &mut life.store, devices, life.word, info.epoch)?;
    Ok(EpochSecrets { share, seed })
}

/// An epoch's secrets with a share that is known: its seed is read (the `looks` of `takes_over`).
pub fn secrets_with<Dir: Directory + Drop, D: Disk, X: SecretStore>(
    alloc: Global,
    life: &mut Life<Dir>,
    devices: &mut Devices<'_, D, X>,
    info: &EpochInfo<Dir>,
    share: Option<Share>,
) -> Result<EpochSecrets, Stop>
    ensures life { life.new ≡ life.old }
    ensures disk { devices.new.disk.now ≡ devices.old.disk.now }
    ensures same { X.held devices.new.secrets.now ≡ X.held devices.old.secrets.now }
    ensures share { IfOk result (λ it. it.share ≡ share) }
    ensures acts { IsTrue D.tells → IsTrue X.tells → (c : Fixed Dir) → c.word ≡ life.old.word → ReadsPlanless c → (out : List Entry)
        → Makes D.files D.image X.held (reads_seed c info.now) (ends (λ it. it.seed) result) devices.old devices.new out out }
    ensures read { IfOk result (λ it. (h : Held) × ((c : Fixed Dir) → c.word ≡ life.old.word → GivesSeed c info.now it.seed h)) }
    ensures unread { IfErr result (λ stop. (c : Fixed Dir) (out : List Entry) → Tells (reads_seed c info.now) (by_stop stop) out out) }
    ensures moved { Moved D.tells D.made X.made D.faults X.faults devices.old devices.new }
    ensures causes { IfErr result (λ stop. IsOutside stop × IsCaused stop ⊥ (Rose (X.faults devices.old.secrets.now) (X.faults devices.new.secrets.now))
        (Reached devices.old.fuse devices.new.fuse)) }
{
    let seed = seed_for(alloc, &mut life.store, devices, life.word, info.epoch)?;
    Ok(EpochSecrets { share, seed })
}

/// What the node is to a scheme.
fn role_of(scheme: &SchemeInfo) -> Role
    ensures { result ≡ setup.role_of scheme.now }
{
    match scheme {
        SchemeInfo::Signer { .. } => Role::Signer,
        SchemeInfo::Member { .. } => Role::Member,
        SchemeInfo::Verifier { .. } => Role::Verifier,
    }
}

/// The node's part in the scheme of an info (`scheme_for`).
fn scheme_for<Dir: Directory + Drop>(
    alloc: Global,
    me: Key,
    info: &EpochInfo<Dir>,
    share: Option<Share>,
) -> Mem<SchemeInfo>
    ensures { IfOk result (λ scheme. scheme ≡ scheme_of me info.now.output.players info.now.output.sharing share) }
{
    let participants = info.output.players.copy(alloc)?;
    let sharing = info.output.sharing.copy(alloc)?;
    Ok(SchemeInfo::new(me, participants, sharing, share))
}

/// Puts an epoch's share, if there is one, and its seed, and tells that its info is committed (`commits`).
fn commit<Dir: Directory + Drop, D: Disk, X: SecretStore>(
    alloc: Global,
    life: &mut Life<Dir>,
    devices: &mut Devices<'_, D, X>,
    info: &EpochInfo<Dir>,
    secrets: &EpochSecrets,
    out: &mut Transcript,
) -> Result<(), Stop>
    ensures disk { devices.new.disk.now ≡ devices.old.disk.now }
    ensures rest { life.new ≡ record life.old { store = record life.old.store { current = life.new.store.current } } }
    ensures current { OnOk result (life.new.store.current ≡ Some info.now) }
    ensures acts { IsTrue D.tells → IsTrue X.tells → (beside : Beside Dir) (fence : Readiness)
        → Makes D.files D.image X.held (setup.commits info.now secrets.now.seed secrets.now.share (live_of beside fence life.old))
        (ends_in (live_of beside fence life.new) result) devices.old devices.new out.old.entries out.new.entries }
    // Its lines don't depend on the seed.
    ensures tells { (any : List ℕ) (beside : Beside Dir) (fence : Readiness)
        → Tells (setup.commits info.now any secrets.now.share (live_of beside fence life.old)) (ends_in (live_of beside fence life.new) result)
        out.old.entries out.new.entries }
    ensures moved { Moved D.tells D.made X.made D.faults X.faults devices.old devices.new }
    ensures causes { IfErr result (λ stop. IsOutside stop × IsCaused stop ⊥ (Rose (X.faults devices.old.secrets.now) (X.faults devices.new.secrets.now))
        (Reached devices.old.fuse devices.new.fuse)) }
    ensures whole { StaysWhole (D.image devices.old.disk.now) (D.image devices.new.disk.now) (X.held devices.old.secrets.now) (X.held devices.new.secrets.now) }
    ensures halves { OnOk result (IsTrue X.tells → (X.held devices.new.secrets.now).privates ≡ (X.held devices.old.secrets.now).privates) }
{
    let committed = info.copy(alloc)?;
    life.store
        .commit_epoch(alloc, devices, committed, secrets.seed, secrets.share)?;
    Ok(out.push(Entry::Committed {
        epoch: info.epoch,
        share: secrets.share,
    })?)
}

/// Gives the registrar an epoch's scheme, tells it, and marks the epoch on the fence (`registers`).
fn register<Dir: Directory + Drop, R: Registrar>(
    alloc: Global,
    registrar: &mut R,
    me: Key,
    info: &EpochInfo<Dir>,
    share: Option<Share>,
    fence: &mut Fence,
    out: &mut Transcript,
) -> Result<(), Stop>
    ensures marked { OnOk result (fence.new ≡ marked info.now.epoch fence.old) }
    ensures unmarked { OnErr result (fence.new ≡ fence.old) }
    ensures taken { OnOk result (IsTrue R.tells → R.taken registrar.new ≡ R.taken registrar.old ++ scheme_by me info.now share ∷ []) }
    ensures untaken { OnErr result (IsTrue R.tells → (R.taken registrar.new ≡ R.taken registrar.old)
        ⊎ (R.taken registrar.new ≡ R.taken registrar.old ++ scheme_by me info.now share ∷ [])) }
    ensures speaks { (c : Fixed Dir) → c.me ≡ me → (life : Life Dir) (beside : Beside Dir)
        → Speaks (setup.registers c info.now share (live_of beside fence.old life))
        (ends_in (live_of (with_scheme_of me info.now share beside) fence.new life) result) out.old.entries out.new.entries }
    ensures memory { IfErr result (λ stop. stop ≡ Faulted OutOfMemory) }
{
    let scheme = scheme_for(alloc, me, info, share)?;
    let role = role_of(&scheme);
    registrar.register(alloc, info.epoch, scheme)?;
    out.push(Entry::Registered {
        epoch: info.epoch,
        role,
    })?;
    fence.mark(info.epoch);
    Ok(())
}

/// Commits an info, registers its scheme, and marks its epoch on the fence (`commits`, `registers`). Where that fails the fence is as it was, and what the
/// registrar took is that scheme of the info that is committed by then.
pub fn commit_and_register<R: Registrar, Dir: Directory + Drop, D: Disk, X: SecretStore>(
    alloc: Global,
    registrar: &mut R,
    me: Key,
    life: &mut Life<Dir>,
    devices: &mut Devices<'_, D, X>,
    info: &EpochInfo<Dir>,
    secrets: &EpochSecrets,
    fence: &mut Fence,
    out: &mut Transcript,
) -> Result<(), Stop>
    ensures disk { devices.new.disk.now ≡ devices.old.disk.now }
    ensures rest { life.new ≡ record life.old { store = record life.old.store { current = life.new.store.current } } }
    ensures current { OnOk result (life.new.store.current ≡ Some info.now) }
    ensures acts { IsTrue D.tells → IsTrue X.tells → (c : Fixed Dir) (beside : Beside Dir) → c.me ≡ me
        → Makes D.files D.image X.held (bind (setup.commits info.now secrets.now.seed secrets.now.share (live_of beside fence.old life.old))
        (λ st. setup.registers c info.now secrets.now.share st))
        (ends_in (live_of (with_scheme_of me info.now secrets.now.share beside) fence.new life.new) result)
        devices.old devices.new out.old.entries out.new.entries }
    ensures tells { (any : List ℕ) (c : Fixed Dir) (beside : Beside Dir) → c.me ≡ me
        → Tells (bind (setup.commits info.now any secrets.now.share (live_of beside fence.old life.old))
        (λ st. setup.registers c info.now secrets.now.share st))
        (ends_in (live_of (with_scheme_of me info.now secrets.now.share beside) fence.new life.new) result) out.old.entries out.new.entries }
    ensures taken { OnOk result (IsTrue R.tells → R.taken registrar.new ≡ R.taken registrar.old ++ scheme_by me info.now secrets.now.share ∷ []) }
    ensures unmarked { OnErr result (fence.new ≡ fence.old) }
    ensures untaken { OnErr result (IsTrue R.tells → (R.taken registrar.new ≡ R.taken registrar.old)
        ⊎ ((R.taken registrar.new ≡ R.taken registrar.old ++ scheme_by me info.now secrets.now.share ∷ []) × (life.new.store.current ≡ Some info.now))) }
    ensures moved { Moved D.tells D.made X.made D.faults X.faults devices.old devices.new }
    ensures causes { IfErr result (λ stop. IsOutside stop × IsCaused stop ⊥ (Rose (X.faults devices.old.secrets.now) (X.faults devices.new.secrets.now))
        (Reached devices.old.fuse devices.new.fuse)) }
    ensures whole { StaysWhole (D.image devices.old.disk.now) (D.image devices.new.disk.now) (X.held devices.old.secrets.now) (X.held devices.new.secrets.now) }
    ensures halves { OnOk result (IsTrue X.tells → (X.held devices.new.secrets.now).privates ≡ (X.held devices.old.secrets.now).privates) }
{
    commit(alloc, life, devices, info, secrets, out)?;
    register(alloc, registrar, me, info, secrets.share, fence, out)
}

/// Both, where the info wasn't committed before (`commits_new`).
fn commit_new<R: Registrar, Dir: Directory + Drop, D: Disk, X: SecretStore>(
    alloc: Global,
    registrar: &mut R,
    me: Key,
    life: &mut Life<Dir>,
    devices: &mut Devices<'_, D, X>,
    standing: Standing,
    info: &EpochInfo<Dir>,
    secrets: &EpochSecrets,
    fence: &mut Fence,
    out: &mut Transcript,
) -> Result<(), Stop>
    ensures disk { devices.new.disk.now ≡ devices.old.disk.now }
    ensures rest { life.new ≡ record life.old { store = record life.old.store { current = life.new.store.current } } }
    ensures current { OnOk result ((standing ≡ Standing.WasCommitted → IsSome life.old.store.current) → IsSome life.new.store.current) }
    ensures acts { IsTrue D.tells → IsTrue X.tells → (c : Fixed Dir) (beside : Beside Dir) → c.me ≡ me
        → EndsBeside beside (λ more. OnOk result (TookSchemes R.tells (R.taken registrar.old) (R.taken registrar.new) more))
        (λ now. Makes D.files D.image X.held (setup.commits_new (standing_of standing) c info.now secrets.now.seed secrets.now.share
        (live_of beside fence.old life.old))
        (ends_in (live_of now fence.new life.new) result) devices.old devices.new out.old.entries out.new.entries) }
    ensures tells { (any : List ℕ) (c : Fixed Dir) (beside : Beside Dir) → c.me ≡ me
        → EndsBeside beside (λ more. OnOk result (TookSchemes R.tells (R.taken registrar.old) (R.taken registrar.new) more))
        (λ now. Tells (setup.commits_new (standing_of standing) c info.now any secrets.now.share (live_of beside fence.old life.old))
        (ends_in (live_of now fence.new life.new) result) out.old.entries out.new.entries) }
    ensures moved { Moved D.tells D.made X.made D.faults X.faults devices.old devices.new }
    ensures causes { IfErr result (λ stop. IsOutside stop × IsCaused stop ⊥ (Rose (X.faults devices.old.secrets.now) (X.faults devices.new.secrets.now))
        (Reached devices.old.fuse devices.new.fuse)) }
    ensures whole { StaysWhole (D.image devices.old.disk.now) (D.image devices.new.disk.now) (X.held devices.old.secrets.now) (X.held devices.new.secrets.now) }
    ensures halves { OnOk result (IsTrue X.tells → (X.held devices.new.secrets.now).privates ≡ (X.held devices.old.secrets.now).privates) }
{
    match standing {
        Standing::WasCommitted => Ok(()),
        Standing::Uncommitted => commit_and_register(
            alloc, registrar, me, life, devices, info, secrets, fence, out,
        ),
    }
}

/// Prunes the store below an epoch (`prunes`).
fn prune<Dir: Directory + Drop, D: Disk, X: SecretStore>(
    alloc: Global,
    life: &mut Life<Dir>,
    devices: &mut Devices<'_, D, X>,
    min: Epoch,
) -> Result<(), Stop>
    requires { IsTrue D.tells → IsFirm life.old.store.journal (D.files devices.old.disk.now) (D.image devices.old.disk.now) }
    ensures open { OnOk result (IsTrue D.tells → IsFirm life.new.store.journal (D.files devices.new.disk.now) (D.image devices.new.disk.now)) }
    ensures rest { life.new ≡ record life.old { store = life.new.store } }
    ensures current { OnOk result (life.new.store.current ≡ life.old.store.current) }
    ensures acts { IsTrue D.tells → IsTrue X.tells → (beside : Beside Dir) (fence : Readiness) (out : List Entry)
        → Makes D.files D.image X.held (setup.prunes min (live_of beside fence life.old)) (ends_in (live_of beside fence life.new) result)
        devices.old devices.new out out }
    ensures tells { (beside : Beside Dir) (fence : Readiness) (out : List Entry)
        → Tells (setup.prunes min (live_of beside fence life.old)) (ends_in (live_of beside fence life.new) result) out out }
    ensures moved { Moved D.tells D.made X.made D.faults X.faults devices.old devices.new }
    ensures causes { IfErr result (λ stop. IsOutside stop × IsCausedBy D.tells stop (Rose (D.faults devices.old.disk.now) (D.faults devices.new.disk.now))
        (Rose (X.faults devices.old.secrets.now) (X.faults devices.new.secrets.now)) (Reached devices.old.fuse devices.new.fuse)) }
    ensures above { IsTrue D.tells → StaysAbove min (D.image devices.old.disk.now) (D.image devices.new.disk.now)
        (X.held devices.old.secrets.now) (X.held devices.new.secrets.now) }
    ensures gives { OnOk result (IsTrue D.tells → StaysFrom min (D.image devices.old.disk.now) (D.image devices.new.disk.now)
        (X.held devices.old.secrets.now) (X.held devices.new.secrets.now)) }
{
    Ok(life.store.prune(alloc, devices, min)?)
}

/// The round of an epoch's info (what `draws_up` asks the rules for).
fn round_of<C: Ceremony, Dir: Directory + Drop>(
    alloc: Global,
    ceremony: &C,
    terms: &Terms,
    epoch: Epoch,
    info: &EpochInfo<Dir>,
) -> Result<Round, Stop>
    ensures ok { IfOk result (λ round. C.round_of terms.now.namespace epoch (Some info.now.output) terms.now.mode terms.now.reveal
        info.now.output.players info.now.players ≡ Ok round) }
    ensures err { IfErr result (IsFaultOrWant (no_round (C.round_of terms.now.namespace epoch (Some info.now.output) terms.now.mode terms.now.reveal
        info.now.output.players info.now.players))) }
{
    match ceremony.round(
        alloc,
        terms.namespace.as_slice(),
        epoch.0,
        Some(&info.output),
        terms.mode,
        terms.reveal,
        &info.output.players,
        &info.players,
    ) {
        Ok(round) => Ok(round),
        Err(RoundError::NoMemory) => Err(Stop::Fault(Fault::NoMemory)),
        Err(why) => Err(Stop::Fault(Fault::InvalidParticipants(ParticipantsCause::Round(why)))),
    }
}

/// The node's player, where it is one of the round's and lacks no dealing that it acknowledged (`makes_player`).
fn player_of<C: Ceremony, Dir: Directory + Drop>(
    alloc: Global,
    ceremony: &C,
    me: Key,
    store: &Store<Dir>,
    round: &Round,
) -> Result<Option<Player>, Stop>
    ensures sits { IfOk result (λ player. IfSome player (SitsIn C.ack_of me store.now round.now)) }
    ensures made { (c : Fixed Dir) (phase : Phase) (dealer : Option live.Dealer) (st : Live Dir) → c.me ≡ me
        → SeatsBy C.round_of C.dealing_of C.bears_ack_of c.rules → st.records ≡ records_of store.now → MakesPlayer c round.now phase dealer st result }
    ensures causes { IfErr result (λ stop. IsCaused stop ⊥ ⊥ ⊥) }
{
    if !round.parts().players.has(me) {
        return Ok(None);
    }
    let epoch = Epoch(round.parts().number);
    Ok(store.create_player(alloc, ceremony, epoch, me, round)?)
}

/// Keeps a dealer that may still make a log that counts: after an epoch's early blocks one that so many of the players have acknowledged that
/// those who lack are no more than may fail (`dealer_for`).
pub fn dealer_for_phase(phase: Phase, players: u32, dealer: Option<Dealer>) -> Option<Dealer>
    ensures { result ≡ kept_for phase players dealer }
{
    if phase == Phase::Early {
        return dealer;
    }
    let dealer = dealer?;
    if dealer.has_acknowledgement_quorum(players) {
        Some(dealer)
    } else {
        None
    }
}

/// Whether the node deals in the round: it is one of its dealers, and holds a share where the round follows an output. (That its log is not
/// recorded, the store asks: `may_deal`.)
fn is_dealer(me: Key, round: &Round, share: Option<Share>) -> bool
    ensures may { result ≡ (has round.now.dealers me && (is_some share || is_none round.now.previous)) }
    ensures among { IsTrue result → Contains round.now.dealers me }
{
    round.parts().dealers.has(me) && (share.is_some() || round.parts().previous.is_none())
}

/// The node's dealer, where it may deal in the round (`may_deal`, `dealt_by` but for what follows).
///
/// LocalState: ShareRefused, where the ceremony refuses the share.
fn dealer_of<C: Ceremony, Dir: Directory + Drop>(
    alloc: Global,
    ceremony: &C,
    signer: &C::Signer,
    me: Key,
    store: &Store<Dir>,
    round: &Round,
    secrets: &EpochSecrets,
    phase: Phase,
) -> Result<Option<Dealer>, Stop>
    requires me { me ≡ C.Signer.key_of signer.now }
    ensures deals { IfOk result (λ made. IfSome made (λ dealer. DealsFor C.deal_of C.check_ack_of me round.now dealer × (dealer.is_open ≡ true)
        × (dealer.finalized ≡ None))) }
    ensures made { (c : Fixed Dir) (st : Live Dir) → c.me ≡ me → DealsBy C.deal_of C.check_ack_of C.sign_log_of c.rules → st.records ≡ records_of store.now
        → MakesDealer c round.now phase secrets.now.share secrets.now.seed st result }
    ensures causes { IfErr result (λ stop. IsCaused stop ⊥ ⊥ ⊥) }
{
    if !is_dealer(me, round, secrets.share) {
        return Ok(None);
    }
    let dealer = store.create_dealer(
        alloc,
        ceremony,
        Epoch(round.parts().number),
        signer,
        round,
        secrets.share.as_ref(),
        &secrets.seed,
    )?;
    Ok(dealer_for_phase(phase, round.parts().players.len(), dealer))
}

/// The node's part in the round.
fn part_of(dealer: &Option<Dealer>, player: &Option<Player>) -> Part
    ensures { result ≡ setup.part_of (option_map dealer_of dealer.now) (seat_of player.now) }
{
    match (dealer, player) {
        (Some(_), Some(_)) => Part::Both,
        (Some(_), None) => Part::Dealer,
        (None, Some(_)) => Part::Player,
        (None, None) => Part::Observer,
    }
}

/// Begins the stage of a phase: dealing in the early one, and inclusion in the others (`in_stage`).
fn begin_stage<C: Ceremony, Dir: Directory + Drop>(
    alloc: Global,
    ceremony: &C,
    signer: &C::Signer,
    life: &mut Life<Dir>,
    phase: Phase,
) -> Result<(), Stop>
    requires signs { IfSome life.old.dealer (IsToSign C.deal_of C.check_ack_of (C.Signer.key_of signer.now) life.old.round) }
    requires unsigned { IfSome life.old.dealer (λ dealer. dealer.finalized ≡ None) }
    ensures begun { OnOk result ((c : Fixed Dir) (beside : Beside Dir) (fence : Readiness) → IsEmptied beside.inclusion → c.me ≡ C.Signer.key_of signer.now
        → DealsBy C.deal_of C.check_ack_of C.sign_log_of c.rules → live_of beside fence life.new ≡ setup.in_stage c phase (live_of beside fence life.old)) }
    ensures rest { life.new ≡ record life.old { stage = life.new.stage; dealer = life.new.dealer } }
    ensures stage { OnOk result (life.new.stage ≡ stage_begun_in phase) }
    ensures dealing { OnOk result (IsDealing C.deal_of C.check_ack_of (C.Signer.key_of signer.now) life.new) }
    ensures same { OnErr result (life.new ≡ life.old) }
    ensures memory { IfErr result (λ stop. stop ≡ Faulted OutOfMemory) }
{
    match phase {
        Phase::Early => {
            life.stage = Stage::Dealing;
            Ok(())
        }
        Phase::Midpoint | Phase::Late => begin_inclusion(alloc, ceremony, signer, life),
    }
}

/// Draws up the round, makes the dealer and then the player, tells the node's part, and begins the phase's stage (`draws_up`).
fn draw_up<C: Ceremony, Dir: Directory + Drop>(
    alloc: Global,
    ceremony: &C,
    signer: &C::Signer,
    terms: &Terms,
    life: &mut Life<Dir>,
    info: &EpochInfo<Dir>,
    secrets: &EpochSecrets,
    phase: Phase,
    out: &mut Transcript,
) -> Result<(), Stop>
    requires me { terms.now.me ≡ C.Signer.key_of signer.now }
    requires valid { refusal_of life.old.epoch (non_zero_u32_get terms.now.limit) info.now ≡ None }
    ensures rest { life.new ≡ record life.old { stage = life.new.stage; round = life.new.round; dealer = life.new.dealer; player = life.new.player } }
    ensures sits { OnOk result (PlayerSits C.ack_of terms.now.me life.new × IsDealing C.deal_of C.check_ack_of terms.now.me life.new
        × IsRoundWithin (non_zero_u32_get terms.now.limit) life.new.round × IsSome life.new.round × (life.new.stage ≡ stage_begun_in phase)) }
    ensures speaks { (c : Fixed Dir) (beside : Beside Dir) (fence : Readiness) → IsEmptied beside.inclusion → IsOf terms.now c
        → IsRuledBy C.round_of C.deal_of C.dealing_of C.ack_of C.check_ack_of C.sign_log_of C.bears_ack_of C.share_public_of C.partial_public_of c.rules
        → StandsIn c (live_of beside fence life.old) phase → Speaks (setup.draws_up c (setup.participants_of info.now) (Some info.now.output)
        secrets.now.share secrets.now.seed (live_of beside fence life.old)) (ends_in (live_of beside fence life.new) result)
        out.old.entries out.new.entries }
    ensures causes { IfErr result (λ stop. IsCaused stop ⊥ ⊥ ⊥) }
{
    let me = terms.me;
    let round = round_of(alloc, ceremony, terms, life.epoch, info)?;
    let dealer = dealer_of(
        alloc,
        ceremony,
        signer,
        me,
        &life.store,
        &round,
        secrets,
        phase,
    )?;
    let player = player_of(alloc, ceremony, me, &life.store, &round)?;
    out.push(Entry::Setup {
        epoch: life.epoch,
        phase,
        part: part_of(&dealer, &player),
    })?;
    life.round = Some(round);
    life.dealer = dealer;
    life.player = player;
    begin_stage(alloc, ceremony, signer, life, phase)
}

/// Tells that the node only follows (`follows`).
fn follow<Dir: Directory + Drop>(
    life: &Life<Dir>,
    phase: Phase,
    out: &mut Transcript,
) -> Result<(), Stop>
    ensures speaks { (c : Fixed Dir) (beside : Beside Dir) (fence : Readiness) → StandsIn c (live_of beside fence life.now) phase
        → Speaks (setup.follows c (live_of beside fence life.now)) (ends_in (live_of beside fence life.now) result) out.old.entries out.new.entries }
    ensures causes { IfErr result (λ stop. IsCaused stop ⊥ ⊥ ⊥) }
{
    Ok(out.push(Entry::Setup {
        epoch: life.epoch,
        phase,
        part: Part::Follow,
    })?)
}

/// Whether an info has dealers and players, and no more of each kind than a limit. Its participants are valid then, since the dealers are the players of
/// its own output.
#[tactic(auto, using(crate::proofs::Fitting::within_passes))]
fn are_within<Dir: Directory + Drop>(limit: NonZeroU32, info: &EpochInfo<Dir>) -> bool
    ensures { IsTrue result → validation (setup.participants_of info.now) (non_zero_u32_get limit) (Some info.now.output) info.now.epoch ≡ Ok tt }
{
    let most = limit.get();
    if info.output.players.is_empty() || info.players.is_empty() {
        return false;
    }
    if most < info.output.players.len() || most < info.players.len() {
        return false;
    }
    info.next_players.len() <= most
}

/// Judges an info: it has to be the awaited epoch's, and its participants valid (`with_info` and `judged`).
fn judge_info<Dir: Directory + Drop>(
    alloc: Global,
    terms: &Terms,
    epoch: Epoch,
    info: &EpochInfo<Dir>,
) -> Result<(), Stop>
    ensures ok { OnOk result (refusal_of epoch (non_zero_u32_get terms.now.limit) info.now ≡ None) }
    ensures err { IfErr result (IsFaultOrWant (refusal_of epoch (non_zero_u32_get terms.now.limit) info.now)) }
{
    if info.epoch != epoch {
        return Err(Stop::Fault(Fault::WrongEpoch {
            expected: epoch,
            got: info.epoch,
        }));
    }
    if are_within(terms.limit, info) {
        return Ok(());
    }
    let participants = info.participants(alloc)?;
    match participants.validate(terms.limit, Some(&info.output), info.epoch.0) {
        Ok(()) => Ok(()),
        Err(why) => Err(Stop::Fault(Fault::InvalidParticipants(ParticipantsCause::Refused(why)))),
    }
}

/// Sets the awaited epoch up by an info: its judgement, its share and seed, their commit and its registration where it wasn't committed, the
/// prune below the epoch before, and the parts (`with_info`).
fn set_up_by<C: Ceremony, R: Registrar, Dir: Directory + Drop, D: Disk, X: SecretStore>(
    alloc: Global,
    ceremony: &C,
    signer: &C::Signer,
    registrar: &mut R,
    terms: &Terms,
    life: &mut Life<Dir>,
    devices: &mut Devices<'_, D, X>,
    standing: Standing,
    info: &EpochInfo<Dir>,
    phase: Phase,
    fence: &mut Fence,
    out: &mut Transcript,
) -> Result<(), Stop>
    requires me { terms.now.me ≡ C.Signer.key_of signer.now }
    requires open { IsTrue D.tells → IsFirm life.old.store.journal (D.files devices.old.disk.now) (D.image devices.old.disk.now) }
    requires known { standing ≡ Standing.WasCommitted → IsSome life.old.store.current }
    ensures done { OnOk result (IsSetUp D.tells D.files D.image C.ack_of C.deal_of C.check_ack_of terms.now.me
        (non_zero_u32_get terms.now.limit) phase life.new devices.new) }
    ensures rest { life.new ≡ record life.old {
      store = life.new.store;
      stage = life.new.stage;
      round = life.new.round;
      dealer = life.new.dealer;
      player = life.new.player;
    } }
    ensures current { OnOk result (IsSome life.new.store.current) }
    ensures acts { IsTrue D.tells → IsTrue X.tells → (c : Fixed Dir) (beside : Beside Dir) → IsEmptied beside.inclusion → IsIn terms.now life.old.word c
        → ReadsPlanless c
        → IsRuledBy C.round_of C.deal_of C.dealing_of C.ack_of C.check_ack_of C.sign_log_of C.bears_ack_of C.share_public_of C.partial_public_of c.rules
        → StandsIn c (live_of beside fence.old life.old) phase
        → EndsBeside beside (λ more. OnOk result (TookSchemes R.tells (R.taken registrar.old) (R.taken registrar.new) more))
        (λ now. Makes D.files D.image X.held (setup.with_info c None (standing_of standing) info.now (live_of beside fence.old life.old))
        (ends_in (live_of now fence.new life.new) result)
        devices.old devices.new out.old.entries out.new.entries) }
    // Whatever the devices tell, its lines are those of one that has read some shares and seeds.
    ensures tells { (h : Held) × ((c : Fixed Dir) (beside : Beside Dir) → IsEmptied beside.inclusion → IsIn terms.now life.old.word c → CanRead c h
        → IsRuledBy C.round_of C.deal_of C.dealing_of C.ack_of C.check_ack_of C.sign_log_of C.bears_ack_of C.share_public_of C.partial_public_of c.rules
        → StandsIn c (live_of beside fence.old life.old) phase
        → EndsBeside beside (λ more. OnOk result (TookSchemes R.tells (R.taken registrar.old) (R.taken registrar.new) more))
        (λ now. Tells (setup.with_info c None (standing_of standing) info.now (live_of beside fence.old life.old))
        (ends_in (live_of now fence.new life.new) result)
        out.old.entries out.new.entries)) }
    ensures moved { Moved D.tells D.made X.made D.faults X.faults devices.old devices.new }
    ensures causes { StopsReading D.tells D.faults X.faults devices.old devices.new result }
    ensures above { IsTrue D.tells → StaysAbove (life.old.epoch - 1) (D.image devices.old.disk.now) (D.image devices.new.disk.now)
        (X.held devices.old.secrets.now) (X.held devices.new.secrets.now) }
    ensures gives { UnlessBroken (ends (λ done. done) result) (IsTrue D.tells → IsTrue X.tells → StaysFrom (life.old.epoch - 1)
        (D.image devices.old.disk.now) (D.image devices.new.disk.now) (X.held devices.old.secrets.now) (X.held devices.new.secrets.now)) }
{
    let me = terms.me;
    judge_info(alloc, terms, life.epoch, info)?;
    let secrets = secrets_of(alloc, ceremony, me, life, devices, info)?;
    commit_new(
        alloc, registrar, me, life, devices, standing, info, &secrets, fence, out,
    )?;
    let min = Epoch(life.epoch.0.saturating_sub(1));
    prune(alloc, life, devices, min)?;
    draw_up(
        alloc, ceremony, signer, terms, life, info, &secrets, phase, out,
    )
}

/// The height of an epoch's boundary block: the last one of the epoch before, and genesis for epoch 0.
fn boundary_of(bounds: &Bounds) -> Height
    ensures { (blocks : ℕ) → bounds.now.first ≡ first blocks bounds.now.epoch → result ≡ boundary blocks bounds.now.epoch }
{
    Height(bounds.first.0.saturating_sub(1))
}

/// A life in the epoch of these bounds, with nothing of the epoch before but its records and its current info (`anew`).
fn begin_epoch<Dir: Directory + Drop>(life: &mut Life<Dir>, bounds: &Bounds)
    ensures { life.new ≡ record life.old {
      epoch = bounds.now.epoch;
      midpoint = bounds.now.midpoint;
      stage = Stage.Following;
      round = None;
      dealer = None;
      player = None;
    } }
{
    life.epoch = bounds.epoch;
    life.midpoint = bounds.midpoint;
    life.stage = Stage::Following;
    life.round = None;
    life.dealer = None;
    life.player = None;
}

/// Begins the awaited epoch, and says where it lies.
///
/// HeightRange: its last height passes 64 bits.
fn begin_awaited<Dir: Directory + Drop>(terms: &Terms, life: &mut Life<Dir>) -> Result<Bounds, Stop>
    ensures begun { IfOk result (λ bounds. life.new ≡ record life.old {
      epoch = bounds.epoch;
      midpoint = bounds.midpoint;
      stage = Stage.Following;
      round = None;
      dealer = None;
      player = None;
    }) }
    ensures lies { IfOk result (λ bounds. AreBoundsAt (non_zero_u64_get terms.now.blocks_per_epoch) bounds (awaited_of life.old)) }
    ensures same { OnErr result (life.new ≡ life.old) }
    ensures err { IfErr result (λ stop. (stop ≡ Faulted HeightRange) × (2 ^ 64 ≤ last (non_zero_u64_get terms.now.blocks_per_epoch)
        (epoch_of (non_zero_u64_get terms.now.blocks_per_epoch) (awaited_of life.old)))) }
{
    let Some(height) = awaited(&life.tip) else {
        return Err(Stop::Fault(Fault::HeightRange));
    };
    let Some(bounds) = Epocher::new(terms.blocks_per_epoch).containing(height) else {
        return Err(Stop::Fault(Fault::HeightRange));
    };
    begin_epoch(life, &bounds);
    Ok(bounds)
}

/// Sets the awaited epoch up by its boundary block, or follows where that is not held (`setup`, where no info of the epoch is committed).
pub(crate) fn set_up<
    C: Ceremony,
    R: Registrar,
    Dir: Directory + Drop,
    D: Disk,
    X: SecretStore,
    B: BlockSource<Dir>,
>(
    alloc: Global,
    ceremony: &C,
    signer: &C::Signer,
    registrar: &mut R,
    terms: &Terms,
    life: &mut Life<Dir>,
    devices: &mut Devices<'_, D, X>,
    source: &B,
    fence: &mut Fence,
    out: &mut Transcript,
) -> Result<(), Stop>
    requires me { terms.now.me ≡ C.Signer.key_of signer.now }
    requires open { IsTrue D.tells → IsFirm life.old.store.journal (D.files devices.old.disk.now) (D.image devices.old.disk.now) }
    requires uncommitted { life.old.store.current ≡ None }
    ensures ready { OnOk result (IsReadyLife D.tells D.files D.image C.ack_of C.deal_of C.check_ack_of terms.now life.new devices.new) }
    ensures word { life.new.word ≡ life.old.word }
    ensures current { OnOk result ((life.new.stage ≡ Stage.Following → ⊥) → IsSome life.new.store.current) }
    ensures acts { IsTrue D.tells → IsTrue X.tells → (c : Fixed Dir) (beside : Beside Dir) → IsEmptied beside.inclusion
        → IsLent terms.now (B.answers source.now) life.old.word c → ReadsPlanless c
        → IsRuledBy C.round_of C.deal_of C.dealing_of C.ack_of C.check_ack_of C.sign_log_of C.bears_ack_of C.share_public_of C.partial_public_of c.rules
        → EndsBeside beside (λ more. OnOk result (TookSchemes R.tells (R.taken registrar.old) (R.taken registrar.new) more))
        (λ now. Makes D.files D.image X.held (setup.setup c None (live_of beside fence.old life.old)) (ends_in (live_of now fence.new life.new) result)
        devices.old devices.new out.old.entries out.new.entries) }
    // Whatever the devices tell, its lines are those of one that has read some shares and seeds.
    ensures tells { (h : Held) × ((c : Fixed Dir) (beside : Beside Dir) → IsEmptied beside.inclusion
        → IsLent terms.now (B.answers source.now) life.old.word c → CanRead c h
        → IsRuledBy C.round_of C.deal_of C.dealing_of C.ack_of C.check_ack_of C.sign_log_of C.bears_ack_of C.share_public_of C.partial_public_of c.rules
        → EndsBeside beside (λ more. OnOk result (TookSchemes R.tells (R.taken registrar.old) (R.taken registrar.new) more))
        (λ now. Tells (setup.setup c None (live_of beside fence.old life.old)) (ends_in (live_of now fence.new life.new) result)
        out.old.entries out.new.entries)) }
    // Where nothing was loose, and memory had what the devices give back, it has so behind it.
    ensures agrees { OnOk result (IsTrue D.tells → IsTrue X.tells → Stands (D.files devices.old.disk.now) (D.image devices.old.disk.now)
        → AreAgreed (records_of life.old.store) (held_in (D.files devices.old.disk.now) (X.held devices.old.secrets.now))
        → AreAgreed (records_of life.new.store) (held_in (D.files devices.new.disk.now) (X.held devices.new.secrets.now))) }
    ensures moved { Moved D.tells D.made X.made D.faults X.faults devices.old devices.new }
    ensures causes { StopsReading D.tells D.faults X.faults devices.old devices.new result }
    ensures above { IsTrue D.tells → StaysAbove (epoch_above terms.now life.old.tip - 1) (D.image devices.old.disk.now) (D.image devices.new.disk.now)
        (X.held devices.old.secrets.now) (X.held devices.new.secrets.now) }
    ensures gives { UnlessBroken (ends (λ done. done) result) (IsTrue D.tells → IsTrue X.tells → StaysFrom (epoch_above terms.now life.old.tip - 1)
        (D.image devices.old.disk.now) (D.image devices.new.disk.now) (X.held devices.old.secrets.now) (X.held devices.new.secrets.now)) }
{
    let bounds = begin_awaited(terms, life)?;
    let Some(block) = source.block(boundary_of(&bounds)) else {
        return follow(life, bounds.phase, out);
    };
    let Some(info) = block.epoch_info() else {
        return Err(Stop::Fault(Fault::MissingEpochInfo {
            height: block.height(),
        }));
    };
    set_up_by(
        alloc,
        ceremony,
        signer,
        registrar,
        terms,
        life,
        devices,
        Standing::Uncommitted,
        info,
        bounds.phase,
        fence,
        out,
    )
}

/// Sets the awaited epoch up by its info, which is the current one (`setup`, where the info of the epoch is committed).
///
/// HeightRange: its last height has no u64. InvalidParticipants: its participants are refused, or make no round. LocalState: the share of its output is refused, or a stored
/// dealing is.
pub fn set_up_committed<C: Ceremony, R: Registrar, Dir: Directory + Drop, D: Disk, X: SecretStore>(
    alloc: Global,
    ceremony: &C,
    signer: &C::Signer,
    registrar: &mut R,
    terms: &Terms,
    life: &mut Life<Dir>,
    devices: &mut Devices<'_, D, X>,
    info: &EpochInfo<Dir>,
    fence: &mut Fence,
    out: &mut Transcript,
) -> Result<(), Stop>
    requires me { terms.now.me ≡ C.Signer.key_of signer.now }
    requires open { IsTrue D.tells → IsFirm life.old.store.journal (D.files devices.old.disk.now) (D.image devices.old.disk.now) }
    requires current { life.old.store.current ≡ Some info.now }
    requires awaited { info.now.epoch ≡ epoch_above terms.now life.old.tip }
    ensures ready { OnOk result (IsReadyLife D.tells D.files D.image C.ack_of C.deal_of C.check_ack_of terms.now life.new devices.new) }
    ensures word { life.new.word ≡ life.old.word }
    ensures current { OnOk result (IsSome life.new.store.current) }
    ensures acts { IsTrue D.tells → IsTrue X.tells → (c : Fixed Dir) (beside : Beside Dir) → IsEmptied beside.inclusion → IsIn terms.now life.old.word c
        → ReadsPlanless c
        → IsRuledBy C.round_of C.deal_of C.dealing_of C.ack_of C.check_ack_of C.sign_log_of C.bears_ack_of C.share_public_of C.partial_public_of c.rules
        → EndsBeside beside (λ more. OnOk result (TookSchemes R.tells (R.taken registrar.old) (R.taken registrar.new) more))
        (λ now. Makes D.files D.image X.held (setup.setup c None (live_of beside fence.old life.old)) (ends_in (live_of now fence.new life.new) result)
        devices.old devices.new out.old.entries out.new.entries) }
    // Whatever the devices tell, its lines are those of one that has read some shares and seeds.
    ensures tells { (h : Held) × ((c : Fixed Dir) (beside : Beside Dir) → IsEmptied beside.inclusion → IsIn terms.now life.old.word c → CanRead c h
        → IsRuledBy C.round_of C.deal_of C.dealing_of C.ack_of C.check_ack_of C.sign_log_of C.bears_ack_of C.share_public_of C.partial_public_of c.rules
        → EndsBeside beside (λ more. OnOk result (TookSchemes R.tells (R.taken registrar.old) (R.taken registrar.new) more))
        (λ now. Tells (setup.setup c None (live_of beside fence.old life.old)) (ends_in (live_of now fence.new life.new) result)
        out.old.entries out.new.entries)) }
    ensures moved { Moved D.tells D.made X.made D.faults X.faults devices.old devices.new }
    ensures causes { StopsReading D.tells D.faults X.faults devices.old devices.new result }
    ensures fit { IsTrue D.tells → AreFit (non_zero_u32_get terms.now.limit) (D.image devices.old.disk.now)
        → AreFit (non_zero_u32_get terms.now.limit) (D.image devices.new.disk.now) }
{
    let bounds = begin_awaited(terms, life)?;
    set_up_by(
        alloc,
        ceremony,
        signer,
        registrar,
        terms,
        life,
        devices,
        Standing::WasCommitted,
        info,
        bounds.phase,
        fence,
        out,
    )
}
