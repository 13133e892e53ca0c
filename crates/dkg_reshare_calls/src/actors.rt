//! Actors of any parts, and who takes their schemes.
ghost use Rattle.std.specs.Prelude.{◌≡◌, ◌≤◌, ◌^◌, IfOk};
ghost use Rattle.std.specs.Int.NonZero.{non_zero_u32_get};
ghost use Rattle.dkg_reshare.specs.Actors.{IsNew};

use dkg_ceremony::{Blob, Ceremony, Mode, ModeVersion, Reveal, StandCeremony, StandSigner};
use dkg_infos::Unit;
use dkg_life::Config;
use dkg_reshare::Actor;
use dkg_types::{Registrar, SchemeInfo, StaticParticipants};
use dkg_values::{Epoch, Key, Mem, Set};
use std::alloc::Global;
use std::num::{NonZeroU32, NonZeroU64};
use std::test::Fail;

/// Who counts the schemes that it takes.
#[derive(Drop)]
pub(crate) struct Counting {
    taken: u64,
}

impl Registrar for Counting {
    ghost use Rattle.std.specs.Prelude.{false, []};

    ghost tells = { false };

    ghost taken = { λ _. [] };

    fn register(&mut self, _alloc: Global, _epoch: Epoch, _info: SchemeInfo) -> Mem<()> {
        self.taken = self.taken.saturating_add(1);
        Ok(())
    }
}

/// How many schemes were taken.
pub(crate) trait Counted {
    fn taken(&self) -> u64;
}

impl Counted for Counting {
    fn taken(&self) -> u64 {
        self.taken
    }
}

/// Who names key 1, in each epoch.
fn provider(alloc: Global) -> Mem<StaticParticipants<Unit>> {
    Ok(StaticParticipants::new(Set::from_any(alloc, &[Key(1)])?, Unit))
}

/// An actor of these parts, with so many participants at most and epochs of so many blocks.
fn actor_of<C: Ceremony + Drop, P: Drop, R: Drop>(
    alloc: Global,
    ceremony: C,
    signer: C::Signer,
    provider: P,
    registrar: R,
    limit: NonZeroU32,
    blocks: NonZeroU64,
) -> Result<Actor<C, P, R, Unit, Unit>, Fail>
where
    C::Signer: Drop,
    requires { non_zero_u32_get limit ≤ 2 ^ 30 }
    ensures { IfOk result (λ actor. IsNew actor.state) }
{
    let config = Config {
        ceremony,
        signer,
        provider,
        registrar,
        manager: Unit,
        namespace: Blob::new(Vec::new(alloc)),
        mode: Mode::NonZeroCounter,
        max_mode: ModeVersion(0),
        reveal: Reveal::V1,
        max_participants: limit,
        blocks_per_epoch: blocks,
    };
    Ok(Actor::new(config)?)
}

/// An actor of key 1 and of the plain ceremony, whose schemes are counted.
pub(crate) fn plain_actor(
    alloc: Global,
    blocks: u64,
) -> Result<Actor<StandCeremony, StaticParticipants<Unit>, Counting, Unit, Unit>, Fail>
    ensures { IfOk result (λ actor. IsNew actor.state) }
{
    let limit = NonZeroU32::new(4).ok_or("no limit")?;
    let blocks = NonZeroU64::new(blocks).ok_or("no blocks")?;
    let provider = provider(alloc)?;
    actor_of(
        alloc,
        StandCeremony,
        StandSigner::new(Key(1)),
        provider,
        Counting { taken: 0 },
        limit,
        blocks,
    )
}
