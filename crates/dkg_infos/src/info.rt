//! The public description of an epoch. Genesis and the last block of each epoch carry one.
ghost use Rattle.std.specs.Prelude.{◌≡◌, ℕ, ◌+◌, ◌*◌, ◌^◌, ◌≤◌, ◌++◌, length, IfOk, OnOk, OnErr};
ghost use Rattle.std.specs.Int.NonZero.{non_zero_u32_get};
ghost use Rattle.dkg_values.specs.Rising.{set_of};
ghost use Rattle.dkg_values.specs.Codec.{Reads, StandsInFront};
ghost use Rattle.dkg_infos.specs.InfoBounds.{IsBound};
ghost use Rattle.dkg_infos.specs.InfoLimits.{InfoWithin};
ghost use Rattle.dkg_infos.specs.InfoCodes.{InfoFits, info_output_at, info_spelling, parts_at, parts_text, peers_of as peers_from};

use crate::directory::Directory;
use crate::outcome::EpochOutcome;
use crate::participants::Participants;
use bytes::BytesMut;
use dkg_ceremony::{
    CodecError, EncodeSize, Epoch, Mem, ModeVersion, NoMemory, Output, Read, Reader, Set, Spelled,
    Value, What, Write, uint_size,
};
use std::alloc::Global;
use std::num::NonZeroU32;

/// The public description of an epoch: its output, the participants that the output does not name, and how they are
/// reached.
#[derive(Drop)]
pub struct EpochInfo<Dir> {
    /// How the ceremony ended that made this; after a failure `output` is the previous one carried forward.
    pub outcome: EpochOutcome,
    /// The epoch that this describes.
    pub epoch: Epoch,
    /// The output whose players are this epoch's dealers.
    pub output: Output,
    /// Peers that receive shares in this epoch.
    pub players: Set,
    /// Players of the next epoch.
    pub next_players: Set,
    /// The directory of exactly the dealers, the players and the next players.
    pub directory: Dir,
}

impl<Dir> EpochInfo<Dir> {
    /// The epoch's participants, the output's players as dealers.
    pub fn participants(&self, alloc: Global) -> Mem<Participants>
        ensures dealers { IfOk result (λ made. made.dealers ≡ self.now.output.players) }
        ensures players { IfOk result (λ made. made.players ≡ self.now.players) }
        ensures next_players { IfOk result (λ made. made.next_players ≡ self.now.next_players) }
    {
        Ok(Participants {
            dealers: self.output.players.copy(alloc)?,
            players: self.players.copy(alloc)?,
            next_players: self.next_players.copy(alloc)?,
        })
    }
}

impl<Dir: Directory + Drop> Value for EpochInfo<Dir> {
    fn copy(&self, alloc: Global) -> Mem<EpochInfo<Dir>> {
        Ok(EpochInfo {
            outcome: self.outcome,
            epoch: self.epoch,
            output: self.output.copy(alloc)?,
            players: self.players.copy(alloc)?,
            next_players: self.next_players.copy(alloc)?,
            directory: self.directory.copy(alloc)?,
        })
    }

    fn same(&self, other: &EpochInfo<Dir>) -> bool {
        self.outcome == other.outcome
            && self.epoch == other.epoch
            && self.output.same(&other.output)
            && self.players.same(&other.players)
            && self.next_players.same(&other.next_players)
            && self.directory.same(&other.directory)
    }
}

/// The union of two sets, which mostly are the same. One of 2^32 keys or more is answered by want of memory.
fn union_of(alloc: Global, one: &Set, other: &Set) -> Mem<Set>
    ensures { IfOk result (λ set. set ≡ set_of (one.now ++ other.now)) }
{
    if one.same(other) {
        let _keys = one.as_slice();
        return one.copy(alloc);
    }
    match one.len().checked_add(other.len()) {
        Some(_) => one.union(alloc, other),
        None => Err(NoMemory),
    }
}

/// The peers of an epoch: those who hold the key, the players and the next players.
fn peers_of(alloc: Global, holders: &Set, players: &Set, next_players: &Set) -> Mem<Set>
    ensures { IfOk result (λ set. set ≡ peers_from holders.now players.now next_players.now) }
{
    let both = union_of(alloc, holders, players)?;
    union_of(alloc, &both, next_players)
}

/// All of an info but the directory.
fn put_parts<Dir>(info: &EpochInfo<Dir>, out: &mut BytesMut) -> Mem<()>
    ensures ok { OnOk result (out.new.items ≡ out.old.items ++ parts_text info.now) }
    ensures err { OnErr result (StandsInFront out.old.items out.new.items) }
{
    info.outcome.put(out)?;
    info.epoch.put(out)?;
    info.output.put(out)?;
    info.players.put(out)?;
    info.next_players.put(out)?;
    Ok(())
}

#[tactic(auto, unfolding(crate::specs::InfoCodes::info_output_at))]
fn read_output(
    alloc: Global,
    input: &mut Reader<'_>,
    limits: &(u32, ModeVersion),
) -> Result<Output, CodecError>
    ensures { Reads (info_output_at limits.now.0 limits.now.1.0 input.old) result input.new }
{
    Output::read_cfg(alloc, input, limits)
}

/// What stands before the directory: outcome, epoch, output, players and next players.
type Parts = (EpochOutcome, (Epoch, (Output, (Set, Set))));

#[tactic(auto, unfolding(crate::specs::InfoCodes::parts_at))]
fn read_parts(
    alloc: Global,
    input: &mut Reader<'_>,
    limits: &(u32, ModeVersion),
) -> Result<Parts, CodecError>
    ensures { Reads (parts_at limits.now.0 limits.now.1.0 input.old) result input.new }
{
    let outcome = EpochOutcome::read_cfg(alloc, input, &())?;
    let epoch = Epoch::read_cfg(alloc, input, &())?;
    let output = read_output(alloc, input, limits)?;
    let players = Set::read_cfg(alloc, input, &limits.0)?;
    let next_players = Set::read_cfg(alloc, input, &limits.0)?;
    Ok((outcome, (epoch, (output, (players, next_players)))))
}

impl<Dir: Directory> EpochInfo<Dir> {
    /// A bound, in bytes, of the encoding of an info whose sets each have at most `max` keys.
    pub fn max_encode_size(max: NonZeroU32) -> usize
        ensures bound { result ≡ 55 + 22 * non_zero_u32_get max + Dir.bound_of (3 * non_zero_u32_get max) }
        ensures small { result ≤ 2 ^ 62 }
        ensures enough { (version : ℕ)
            → IsBound (InfoFits (λ peers. Dir.fits (Dir.config_of peers)) Dir.matches_of (non_zero_u32_get max) version) (info_spelling Dir.spelling) result }
    {
        let most = max.get() as usize;
        55 + 22 * most + Dir::max_encode_size(3 * most)
    }
}

impl<Dir: Directory> EpochInfo<Dir> {
    /// An info may be read under the limits that it keeps to.
    #[tactic(auto, using(crate::specs::InfoLimits::info_fits))]
    pub fn fits_limits(&self)
        ensures { (most version : ℕ) → InfoWithin Dir.matches_of most version self.now
            → InfoFits (λ peers. Dir.fits (Dir.config_of peers)) Dir.matches_of most version self.now }
    {
        let _epoch = self.epoch.0;
        self.output.fits_limits();
        self.players.fits_limits();
        self.next_players.fits_limits();
        self.directory.fits_peers();
    }
}

impl<Dir: Directory> Spelled for EpochInfo<Dir> {
    ghost use Rattle.dkg_infos.specs.InfoCodes.{info_spelling};

    ghost spelling = { info_spelling Dir.spelling };
}

impl<Dir: Directory> EncodeSize for EpochInfo<Dir> {
    ghost use Rattle.std.specs.Prelude.{◌≡◌, ◌^◌, ◌≤◌, length};
    ghost use Rattle.dkg_infos.specs.InfoCodes.{info_spelling};

    fn encode_size(&self) -> usize
        ensures size { result ≡ length (info_spelling Dir.spelling self.now) }
        ensures bound { result ≤ 2 ^ 62 }
    {
        1 + uint_size(self.epoch.0)
            + self.output.encode_size()
            + self.players.encode_size()
            + self.next_players.encode_size()
            + self.directory.size()
    }
}

impl<Dir: Directory> Write for EpochInfo<Dir> {
    fn put(&self, out: &mut BytesMut) -> Mem<()> {
        put_parts(self, out)?;
        self.directory.put(out)?;
        Ok(())
    }
}

impl<Dir: Directory + Drop> Read for EpochInfo<Dir>
where
    Dir::Cfg: Drop,
{
    /// How many keys a set may have, and the newest mode that a sharing may have.
    type Cfg = (NonZeroU32, ModeVersion);

    ghost use Rattle.std.specs.Int.NonZero.{non_zero_u32_get};
    ghost use Rattle.dkg_infos.specs.InfoCodes.{info_at, InfoFits, info_grammar};

    ghost fits = { λ cfg. InfoFits (λ peers. Dir.fits (Dir.config_of peers)) Dir.matches_of (non_zero_u32_get cfg.0) cfg.1.0 };

    ghost read_of = { λ cfg. info_at (λ peers. Dir.read_of (Dir.config_of peers)) Dir.matches_of (non_zero_u32_get cfg.0) cfg.1.0 };

    ghost grammar = { λ cfg. info_grammar (λ peers. Dir.fits (Dir.config_of peers)) Dir.spelling (λ peers. Dir.read_of (Dir.config_of peers)) Dir.matches_of
        (λ peers. Dir.grammar (Dir.config_of peers)) (non_zero_u32_get cfg.0) cfg.1.0 };

    fn read_cfg(
        alloc: Global,
        input: &mut Reader<'_>,
        cfg: &(NonZeroU32, ModeVersion),
    ) -> Result<EpochInfo<Dir>, CodecError> {
        let limits = (cfg.0.get(), cfg.1);
        let (outcome, (epoch, (output, (players, next_players)))) = read_parts(
            alloc, input, &limits,
        )?;
        let peers = peers_of(alloc, &output.players, &players, &next_players)?;
        let config = Dir::codec_config(&peers);
        let directory = Dir::read_cfg(alloc, input, &config)?;
        if !directory.matches(&peers) {
            return Err(CodecError::Invalid(What::Directory));
        }
        Ok(EpochInfo {
            outcome,
            epoch,
            output,
            players,
            next_players,
            directory,
        })
    }
}
