//! The opening of a life: the store, the line with what it restored, and the setup of the epoch at the position of its source.
ghost use Rattle.std.specs.Prelude.{◌≡◌, ◌-◌, ℕ, IfErr, IfOk, IsSome, IsTrue, None, OnOk, length};
ghost use Rattle.std.specs.Int.NonZero.{non_zero_u32_get};
ghost use Rattle.dkg_journal.specs.Disk.{Rose};
ghost use Rattle.dkg_journal.specs.Fuse.{Reached};
ghost use Rattle.dkg_journal.specs.Opening.{open_calls};
ghost use Rattle.dkg_store.specs.Acts.{held_in};
ghost use Rattle.dkg_core.specs.Agreeing.{AreAgreed};
ghost use Rattle.dkg_core.specs.Core.{opening};
ghost use Rattle.dkg_core.specs.Fixed.{Fixed};
ghost use Rattle.dkg_life.specs.Ready.{IsFoundAt, IsReadyLife, IsSoundAt};
ghost use Rattle.dkg_life.specs.Ends.{ends};
ghost use Rattle.dkg_life.specs.Given.{AreGivenFrom, HasRead, IsLent, reading};
ghost use Rattle.dkg_life.specs.LiveOf.{EndsBeside, TookSchemes, live_of, no_fence, nothing_beside, records_of};
ghost use Rattle.dkg_life.specs.Made.{Makes, Tells, UnlessBroken};
ghost use Rattle.dkg_life.specs.Moved.{IsFirm, Moved, StaysAbove};
ghost use Rattle.dkg_life.specs.Opened.{IsInGrammar, IsOpeningOf, OpensReadable, epoch_at, opens_store, startup_of};
ghost use Rattle.dkg_life.specs.Rules.{IsRuledBy};
ghost use Rattle.dkg_life.specs.Planless.{IsBareOpening, seen_planless};

use crate::setup::set_up;
use crate::source::{BlockSource, position};
use dkg_ceremony::Ceremony;
use dkg_fence::Fence;
use dkg_infos::{Directory, Entry, Restored, RestoredList, Transcript};
use dkg_journal::Disk;
use dkg_life::{Life, Stage, Stop, Terms};
use dkg_store::{Devices, SecretStore, Store};
use dkg_types::Registrar;
use dkg_values::{Epoch, Height, Mem, Value};
use std::alloc::Global;
use std::num::NonZeroU32;

/// A list of the restored dealings, for the transcript.
fn list_of(alloc: Global, restored: &[Restored]) -> Mem<RestoredList>
    ensures { IfOk result (λ list. list ≡ restored.now) }
{
    let mut list = Vec::with_capacity(alloc, restored.len())?;
    for one in restored {
        list.push(Restored {
            epoch: one.epoch,
            dealer: one.dealer,
            public: one.public.copy(alloc)?,
            private: one.private,
        })?;
    }
    Ok(RestoredList(list))
}

/// Opens the store, and tells what it restored (`opening`, as far as its line).
fn open_store<Dir: Directory + Drop, D: Disk, X: SecretStore>(
    alloc: Global,
    limit: NonZeroU32,
    life: u64,
    devices: &mut Devices<'_, D, X>,
    out: &mut Transcript,
) -> Result<Store<Dir>, Stop>
    ensures open { IfOk result (λ store. IsTrue D.tells → IsFirm store.journal (D.files devices.new.disk.now) (D.image devices.new.disk.now)) }
    ensures current { IfOk result (λ store. store.current ≡ None) }
    ensures readable { IsTrue D.tells → OpensReadable (IsInGrammar (non_zero_u32_get limit) (D.files devices.old.disk.now)) result
        out.old.entries out.new.entries
        (D.image devices.old.disk.now) (D.image devices.new.disk.now) (X.held devices.old.secrets.now) (X.held devices.new.secrets.now) }
    ensures acts { IsTrue D.tells → IsTrue X.tells → IsInGrammar (non_zero_u32_get limit) (D.files devices.old.disk.now)
        → Makes {Dir = Dir} D.files D.image X.held (opens_store seen_planless life (length (open_calls (D.files devices.old.disk.now))))
        (ends records_of result)
        devices.old devices.new out.old.entries out.new.entries }
    ensures tells { (calls : ℕ) → HasRead (λ s. UnlessBroken (ends records_of result) (IsTrue D.tells → IsTrue X.tells
        → AreGivenFrom 0 s.dealings (D.image devices.new.disk.now) (X.held devices.new.secrets.now)))
        (λ s. Tells {Dir = Dir} (opens_store (λ h. s) life calls) (ends records_of result) out.old.entries out.new.entries) }
    ensures moved { Moved D.tells D.made X.made D.faults X.faults devices.old devices.new }
    ensures causes { IfErr result (λ stop. IsFoundAt (non_zero_u32_get limit) D.tells (D.files devices.new.disk.now) stop
        (Rose (D.faults devices.old.disk.now) (D.faults devices.new.disk.now))
        (Rose (X.faults devices.old.secrets.now) (X.faults devices.new.secrets.now)) (Reached devices.old.fuse devices.new.fuse)) }
    ensures above { IsTrue D.tells → (min : ℕ) → StaysAbove min (D.image devices.old.disk.now) (D.image devices.new.disk.now)
        (X.held devices.old.secrets.now) (X.held devices.new.secrets.now) }
{
    let store = Store::init(alloc, devices, limit)?;
    let restored = list_of(alloc, store.restored())?;
    out.push(Entry::Opened { life, restored })?;
    Ok(store)
}

/// A life over a store, at the position that its source tells.
fn begin<Dir: Directory + Drop, B: BlockSource<Dir>>(
    store: Store<Dir>,
    source: &B,
    word: u64,
) -> Life<Dir>
    ensures { result ≡ record {
      word = word;
      store = store;
      tip = startup_of (B.answers source.now);
      epoch = 0;
      midpoint = 0;
      stage = Stage.Following;
      round = None;
      dealer = None;
      player = None;
    } }
{
    Life {
        word,
        store,
        tip: position(source),
        epoch: Epoch(0),
        midpoint: Height(0),
        stage: Stage::Following,
        round: None,
        dealer: None,
        player: None,
    }
}

/// Opens the life of a number, whose fresh seeds come of its random word (`opening`): reads what the store kept, and sets the epoch up in which it starts.
pub fn open_life<
    C: Ceremony,
    R: Registrar,
    Dir: Directory + Drop,
    D: Disk,
    X: SecretStore,
    B: BlockSource<Dir>,
>(
    alloc: Global,
    ceremony: &C,
    signer: &C::Signer,
    registrar: &mut R,
    terms: &Terms,
    devices: &mut Devices<'_, D, X>,
    source: &B,
    number: u64,
    word: u64,
    fence: &mut Fence,
    out: &mut Transcript,
) -> Result<Life<Dir>, Stop>
    requires me { terms.now.me ≡ C.Signer.key_of signer.now }
    ensures ready { IfOk result (λ life. IsReadyLife D.tells D.files D.image C.ack_of C.deal_of C.check_ack_of terms.now life devices.new) }
    ensures word { IfOk result (λ life. life.word ≡ word) }
    ensures current { IfOk result (λ life. (life.stage ≡ Stage.Following → ⊥) → IsSome life.store.current) }
    ensures readable { IsTrue D.tells → OpensReadable (IsInGrammar (non_zero_u32_get terms.now.limit) (D.files devices.old.disk.now)) result
        out.old.entries out.new.entries
        (D.image devices.old.disk.now) (D.image devices.new.disk.now) (X.held devices.old.secrets.now) (X.held devices.new.secrets.now) }
    ensures acts { IsTrue D.tells → IsTrue X.tells → (c : Fixed Dir) → IsOpeningOf terms.now (B.answers source.now) number word (D.files devices.old.disk.now) c
        → IsRuledBy C.round_of C.deal_of C.dealing_of C.ack_of C.check_ack_of C.sign_log_of C.bears_ack_of C.share_public_of C.partial_public_of c.rules
        → fence.old ≡ no_fence → EndsBeside nothing_beside (λ more. OnOk result (TookSchemes R.tells (R.taken registrar.old) (R.taken registrar.new) more))
        (λ now. Makes D.files D.image X.held (opening c) (ends (live_of now fence.new) result)
        devices.old devices.new out.old.entries out.new.entries) }
    ensures tells { (c : Fixed Dir) → IsLent terms.now (B.answers source.now) word c → c.life ≡ number → IsBareOpening c
        → IsRuledBy C.round_of C.deal_of C.dealing_of C.ack_of C.check_ack_of C.sign_log_of C.bears_ack_of C.share_public_of C.partial_public_of c.rules
        → fence.old ≡ no_fence
        → HasRead (λ s. UnlessBroken (ends (λ life. life) result) (IsTrue D.tells → IsTrue X.tells
        → AreGivenFrom (epoch_at (B.answers source.now) terms.now - 1) s.dealings (D.image devices.new.disk.now) (X.held devices.new.secrets.now)))
        (λ s. EndsBeside nothing_beside (λ more. OnOk result (TookSchemes R.tells (R.taken registrar.old) (R.taken registrar.new) more))
        (λ now. Tells (opening (reading s c)) (ends (live_of now fence.new) result) out.old.entries out.new.entries)) }
    ensures live { IfOk result (λ life. IsTrue D.tells → IsTrue X.tells → IsSoundAt D.files D.image X.held devices.old
        → AreAgreed (records_of life.store) (held_in (D.files devices.new.disk.now) (X.held devices.new.secrets.now))) }
    ensures moved { Moved D.tells D.made X.made D.faults X.faults devices.old devices.new }
    ensures causes { IfErr result (λ stop. IsFoundAt (non_zero_u32_get terms.now.limit) D.tells (D.files devices.new.disk.now) stop
        (Rose (D.faults devices.old.disk.now) (D.faults devices.new.disk.now))
        (Rose (X.faults devices.old.secrets.now) (X.faults devices.new.secrets.now)) (Reached devices.old.fuse devices.new.fuse)) }
    ensures above { IsTrue D.tells → StaysAbove (epoch_at (B.answers source.now) terms.now - 1)
        (D.image devices.old.disk.now) (D.image devices.new.disk.now) (X.held devices.old.secrets.now) (X.held devices.new.secrets.now) }
{
    let store = open_store(alloc, terms.limit, number, devices, out)?;
    let mut life = begin(store, source, word);
    set_up(
        alloc, ceremony, signer, registrar, terms, &mut life, devices, source, fence, out,
    )?;
    Ok(life)
}
