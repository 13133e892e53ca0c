//! What an actor is made with.
ghost use Rattle.std.specs.Prelude.{◌≡◌, ◌≤◌, ◌^◌, IfErr, None, OnOk, Some};
ghost use Rattle.std.specs.Int.NonZero.{non_zero_u32_get, non_zero_u64_get};
ghost use Rattle.dkg_life.specs.Configured.{config_fault};

use dkg_ceremony::{Blob, Ceremony, Mode, ModeVersion, Reveal};
use dkg_infos::{ConfigCause, Fault};
use dkg_values::Key;
use std::num::{NonZeroU32, NonZeroU64};

/// Who the node is, its parts, and the limits that hold in each of its lives.
#[derive(Drop)]
pub struct Config<C: Ceremony, P, R, M> {
    pub ceremony: C,
    pub signer: C::Signer,
    pub provider: P,
    pub registrar: R,
    pub manager: M,
    pub namespace: Blob,
    pub mode: Mode,
    pub max_mode: ModeVersion,
    pub reveal: Reveal,
    pub max_participants: NonZeroU32,
    pub blocks_per_epoch: NonZeroU64,
}

/// What of a configuration is plain data. It stays in all of an actor's life.
#[derive(Drop)]
pub struct Terms {
    pub me: Key,
    pub blocks_per_epoch: NonZeroU64,
    pub limit: NonZeroU32,
    pub max_mode: ModeVersion,
    pub mode: Mode,
    pub reveal: Reveal,
    pub namespace: Blob,
    // A dealing that is read under the limit has its record's length in 32 bits.
    pub ghost in_bound: { non_zero_u32_get limit ≤ 2 ^ 30 },
    // An epoch of one block has no early block, and is refused.
    pub ghost long: { 2 ≤ non_zero_u64_get blocks_per_epoch },
}

/// Whether an actor in reshare mode can be made with this.
///
/// InvalidConfig: the sharing mode is not supported; else an epoch has one block.
pub fn check_config(
    mode: Mode,
    max_mode: ModeVersion,
    blocks_per_epoch: NonZeroU64,
) -> Result<(), Fault>
    ensures refused { IfErr result (λ its. config_fault mode max_mode.0 (non_zero_u64_get blocks_per_epoch) ≡ Some its) }
    ensures accepted { OnOk result (config_fault mode max_mode.0 (non_zero_u64_get blocks_per_epoch) ≡ None) }
{
    if !max_mode.supports(mode) {
        return Err(Fault::InvalidConfig(ConfigCause::Mode));
    }
    if blocks_per_epoch.get() == 1 {
        return Err(Fault::InvalidConfig(ConfigCause::OneBlock));
    }
    Ok(())
}
