//! Blocks of the chain, as far as the ceremony looks at them. A source holds them and the actors are delivered them.
ghost use Rattle.std.specs.Prelude.{◌≡◌, ℕ, ◌+◌, ◌*◌, ◌^◌, ◌≤◌, ◌++◌, ◌↔◌, length, IfOk, IsErrOf, OnOk, OnErr, IsTrue, None};
ghost use Rattle.std.specs.Int.NonZero.{non_zero_u32_get};
ghost use Rattle.std.specs.Option.{option_copied};
ghost use Rattle.sha2.specs.Sha256.{sha256};
ghost use Rattle.dkg_values.specs.Codec.{Reads, StandsInFront};
ghost use Rattle.dkg_infos.specs.InfoBounds.{IsBound};
ghost use Rattle.dkg_types.specs.Within.{BlockWithin, PayloadWithin};
ghost use Rattle.dkg_types.specs.PayloadCodes.{PayloadFits};
ghost use Rattle.dkg_types.specs.BlockCodes.{BlockFits, ContextFits, FlaggedFits, IsBlock, context_at as context_from, block_bytes, block_spelling, flagged_at, flagged_bytes, genesis_context, head_at, block_payload_at, info_of, zero_digest};

use crate::apart::Apart;
use crate::payload::Payload;
use bytes::{BufMut, BytesMut};
use dkg_ceremony::{
    CodecError, Digest, EncodeSize, Epoch, Height, Key, Mem, ModeVersion, Read, Reader, Spelled,
    Value, Write, read_byte, read_u64, uint_size, write_uint,
};
use dkg_infos::{Directory, EpochInfo};
use dkg_values::Shared;
use sha2::{Digest as Hashes, Sha256};
use std::alloc::Global;
use std::marker::Model;
use std::num::NonZeroU32;

/// The most bytes of the encoding of a block that carries nothing: room for nearly every block's.
const BARE: usize = 109;

/// Where a block was proposed.
#[derive(Clone, Copy, Debug, PartialEq, Eq)]
pub struct Context {
    pub epoch: Epoch,
    pub view: u64,
    pub leader: Key,
    pub parent_view: u64,
    pub parent: Digest,
}

/// A block that may carry something for the ceremony.
pub trait ReshareBlock<Dir> {
    ghost use Rattle.std.specs.Prelude.{◌≡◌, Option};
    ghost use Rattle.std.specs.Option.{option_copied};
    ghost use Rattle.dkg_types.specs.declared.payload.Payload.{Payload};

    /// What it carries.
    ghost carried: { Self → Option (Payload Dir) };

    fn payload(&self) -> Option<&Payload<Dir>>
        ensures { option_copied result ≡ carried self.now };
}

/// What a block and its copies share. The digest is computed once, when a block is made, and the type keeps that it is that of the block's bytes.
#[derive(Drop)]
struct Parts<Dir: Directory> {
    context: Context,
    parent: Digest,
    height: Height,
    payload: Apart<Dir>,
    digest: Digest,
}

impl<Dir: Directory> Model for Parts<Dir> {
    ghost use Rattle.std.specs.Prelude.{◌≡◌};
    ghost use Rattle.sha2.specs.Sha256.{sha256};
    ghost use Rattle.dkg_types.specs.BlockCodes.{block_bytes};
    ghost use Rattle.dkg_types.specs.Blocks.{Block as Seen};

    ghost Value = { Seen Dir };

    ghost view = { λ b. record { context = b.context; parent = b.parent; height = b.height; payload = b.payload; digest = b.digest } };

    ghost invariant = { λ b. b.digest ≡ sha256 (block_bytes Dir.spelling b.context b.parent b.height b.payload) };
}

/// A block of the chain, in memory that it shares with its copies. Its digest is that of its bytes.
#[derive(Drop)]
pub struct Block<Dir: Directory>(Shared<Parts<Dir>>);

impl<Dir: Directory> Model for Block<Dir> {
    ghost use Rattle.dkg_types.specs.Blocks.{Block as Seen};

    ghost Value = { Seen Dir };

    ghost view = { λ b. b.0 };
}

impl Spelled for Context {
    ghost use Rattle.dkg_types.specs.BlockCodes.{context_bytes};

    ghost spelling = { context_bytes };
}

/// How many bytes a digest takes.
pub(crate) fn size_of_digest(digest: &Digest) -> usize
    ensures size { result ≡ length digest.now }
    ensures bound { result ≡ 32 }
{
    let bytes = &digest.0;
    bytes.len()
}

impl Context {
    /// A context may be read whatever the limits.
    #[tactic(auto, using(crate::specs::Within::context_fits))]
    pub fn fits_limits(&self)
        ensures { ContextFits self.now }
    {
        let _epoch = self.epoch.0;
        let _view = self.view;
        let _leader = self.leader.number();
        let _parent_view = self.parent_view;
        let _parent = size_of_digest(&self.parent);
    }
}

impl EncodeSize for Context {
    ghost use Rattle.std.specs.Prelude.{◌≡◌, ◌≤◌, length};
    ghost use Rattle.dkg_types.specs.BlockCodes.{context_bytes};

    fn encode_size(&self) -> usize
        ensures size { result ≡ length (context_bytes self.now) }
        ensures bound { result ≤ 66 }
    {
        uint_size(self.epoch.0)
            + uint_size(self.view)
            + 4
            + uint_size(self.parent_view)
            + size_of_digest(&self.parent)
    }
}

impl Write for Context {
    fn put(&self, out: &mut BytesMut) -> Mem<()> {
        self.epoch.put(out)?;
        write_uint(out, self.view)?;
        self.leader.put(out)?;
        write_uint(out, self.parent_view)?;
        self.parent.put(out)
    }
}

impl Read for Context {
    type Cfg = ();

    ghost use Rattle.dkg_types.specs.BlockCodes.{ContextFits, context_at, context_grammar};

    ghost fits = { λ _. ContextFits };

    ghost read_of = { λ _. context_at };

    ghost grammar = { λ _. context_grammar };

    fn read_cfg(alloc: Global, input: &mut Reader<'_>, _cfg: &()) -> Result<Context, CodecError>
        ensures exact { Reads (context_from input.old) result input.new }
        ensures sure { IsErrOf result CodecError.NoMemory → ⊥ }
    {
        let epoch = Epoch::read_cfg(alloc, input, &())?;
        let view = read_u64(input)?;
        let leader = Key::read_cfg(alloc, input, &())?;
        let parent_view = read_u64(input)?;
        let parent = Digest::read_cfg(alloc, input, &())?;
        Ok(Context {
            epoch,
            view,
            leader,
            parent_view,
            parent,
        })
    }
}

fn put_flagged<Dir: Directory>(payload: &Apart<Dir>, out: &mut BytesMut) -> Mem<()>
    ensures ok { OnOk result (out.new.items ≡ out.old.items ++ flagged_bytes Dir.spelling payload.now) }
    ensures err { OnErr result (StandsInFront out.old.items out.new.items) }
{
    match payload.get() {
        None => Ok(out.put_u8(0)?),
        Some(payload) => {
            out.put_u8(1)?;
            payload.put(out)
        }
    }
}

fn is_same_payload<Dir: Directory + Drop>(one: &Apart<Dir>, other: &Apart<Dir>) -> bool
    ensures { IsTrue result ↔ (one.now ≡ other.now) }
{
    match (one.get(), other.get()) {
        (None, None) => true,
        (Some(one), Some(other)) => one.same(other),
        _ => false,
    }
}

fn digest_of(bytes: &[u8]) -> Digest
    ensures { result ≡ sha256 bytes.now }
{
    let mut hasher = Sha256::new();
    hasher.update(bytes);
    let digest: [u8; 32] = hasher.finalize();
    Digest(digest)
}

/// The digest of a block's encoding.
#[tactic(auto, unfolding(crate::specs::BlockCodes::block_bytes))]
fn block_digest<Dir: Directory>(
    alloc: Global,
    context: &Context,
    parent: &Digest,
    height: Height,
    payload: &Apart<Dir>,
) -> Mem<Digest>
    ensures { IfOk result (λ digest. digest ≡ sha256 (block_bytes Dir.spelling context.now parent.now height payload.now)) }
{
    let mut out = BytesMut::with_capacity(alloc, BARE)?;
    context.put(&mut out)?;
    parent.put(&mut out)?;
    height.put(&mut out)?;
    put_flagged(payload, &mut out)?;
    Ok(digest_of(&out))
}

/// The parts of a block, with its digest.
fn parts_of<Dir: Directory + Drop>(
    alloc: Global,
    context: Context,
    parent: Digest,
    height: Height,
    payload: Apart<Dir>,
) -> Mem<Parts<Dir>>
    ensures { IfOk result (IsBlock Dir.spelling context parent height payload) }
{
    let digest = block_digest(alloc, &context, &parent, height, &payload)?;
    Ok(Parts {
        context,
        parent,
        height,
        payload,
        digest,
    })
}

impl<Dir: Directory + Drop> Block<Dir> {
    /// A block of these parts, whose digest is reckoned here.
    pub fn new(
        alloc: Global,
        context: Context,
        parent: Digest,
        height: Height,
        payload: Option<Payload<Dir>>,
    ) -> Mem<Block<Dir>>
        ensures { IfOk result (IsBlock Dir.spelling context parent height payload) }
    {
        let payload = Apart::of(alloc, payload)?;
        let parts = parts_of(alloc, context, parent, height, payload)?;
        Ok(Block(Shared::of(alloc, parts)?))
    }

    /// A block of a payload in memory that it shares.
    pub fn sharing(
        alloc: Global,
        context: Context,
        parent: Digest,
        height: Height,
        payload: Option<Shared<Payload<Dir>>>,
    ) -> Mem<Block<Dir>>
        ensures { IfOk result (IsBlock Dir.spelling context parent height payload) }
    {
        let parts = parts_of(alloc, context, parent, height, Apart::held(payload))?;
        Ok(Block(Shared::of(alloc, parts)?))
    }

    /// The first block of a chain: at height 0, without a payload, the zero digest as both its parents.
    pub fn genesis(alloc: Global, leader: Key) -> Mem<Block<Dir>>
        ensures height { IfOk result (λ block. block.height ≡ 0) }
        ensures payload { IfOk result (λ block. block.payload ≡ None) }
        ensures leader { IfOk result (λ block. block.context.leader ≡ leader) }
        ensures exact { IfOk result (IsBlock Dir.spelling (genesis_context leader) zero_digest 0 None) }
    {
        let zeros = Digest([0; 32]);
        let context = Context {
            epoch: Epoch(0),
            view: 0,
            leader,
            parent_view: 0,
            parent: zeros,
        };
        Block::new(alloc, context, zeros, Height(0), None)
    }
}

impl<Dir: Directory> Block<Dir> {
    /// A bound, in bytes, of the encoding of a block among at most `max` participants.
    pub fn max_encode_size(max: NonZeroU32) -> usize
        ensures bound { result ≡ 165 + 22 * non_zero_u32_get max + Dir.bound_of (3 * non_zero_u32_get max) }
        ensures enough { (version : ℕ)
            → IsBound (BlockFits (PayloadFits (λ peers. Dir.fits (Dir.config_of peers)) Dir.matches_of (non_zero_u32_get max) version) Dir.spelling)
            (block_spelling Dir.spelling) result }
    {
        109 + Payload::<Dir>::max_encode_size(max)
    }
}

impl<Dir: Directory> Parts<Dir> {
    fn epoch_info(&self) -> Option<&EpochInfo<Dir>>
        ensures { option_copied result ≡ info_of self.now.payload }
    {
        match self.payload.get() {
            Some(Payload::EpochInfo(info)) => Some(info),
            Some(Payload::DealerLog(_)) | None => None,
        }
    }
}

impl<Dir: Directory> Block<Dir> {
    /// The context in which the block was proposed.
    pub fn context(&self) -> Context
        ensures { result ≡ self.now.context }
    {
        let parts = self.0.get();
        parts.context
    }

    /// The digest of the block below.
    pub fn parent(&self) -> Digest
        ensures { result ≡ self.now.parent }
    {
        let parts = self.0.get();
        parts.parent
    }

    /// The height of the block.
    pub fn height(&self) -> Height
        ensures { result ≡ self.now.height }
    {
        let parts = self.0.get();
        parts.height
    }

    /// The digest of the block.
    pub fn digest(&self) -> Digest
        ensures { result ≡ self.now.digest }
    {
        let parts = self.0.get();
        parts.digest
    }

    /// The info that the block carries.
    pub fn epoch_info(&self) -> Option<&EpochInfo<Dir>>
        ensures { option_copied result ≡ info_of self.now.payload }
    {
        self.0.get().epoch_info()
    }
}

impl<Dir: Directory> ReshareBlock<Dir> for Block<Dir> {
    ghost carried = { λ block. block.payload };

    fn payload(&self) -> Option<&Payload<Dir>>
        ensures { option_copied result ≡ self.now.payload }
    {
        let parts = self.0.get();
        parts.payload.get()
    }
}

impl<Dir: Directory + Drop> Parts<Dir> {
    fn same(&self, other: &Parts<Dir>) -> bool
        ensures { IsTrue result ↔ (self.now ≡ other.now) }
    {
        self.context == other.context
            && self.parent == other.parent
            && self.height == other.height
            && is_same_payload(&self.payload, &other.payload)
            && self.digest == other.digest
    }
}

impl<Dir: Directory + Drop> Value for Block<Dir> {
    fn copy(&self, _alloc: Global) -> Mem<Block<Dir>> {
        Ok(Block(self.0.share()?))
    }

    fn same(&self, other: &Block<Dir>) -> bool {
        self.0.get().same(other.0.get())
    }
}

/// What a block carries may be read under the limits that it keeps to.
fn carried_fits<Dir: Directory>(payload: &Apart<Dir>)
    ensures { (most version : ℕ) → FlaggedFits (PayloadWithin Dir.matches_of most version) payload.now
        → FlaggedFits (PayloadFits (λ peers. Dir.fits (Dir.config_of peers)) Dir.matches_of most version) payload.now }
{
    match payload.get() {
        None => {}
        Some(payload) => payload.fits_limits(),
    }
}

impl<Dir: Directory> Parts<Dir> {
    #[tactic(auto, using(crate::specs::Within::block_fits))]
    fn fits_limits(&self)
        ensures { (most version : ℕ) → BlockWithin Dir.matches_of most version self.now
            → BlockFits (PayloadFits (λ peers. Dir.fits (Dir.config_of peers)) Dir.matches_of most version) Dir.spelling self.now }
    {
        self.context.fits_limits();
        let _parent = size_of_digest(&self.parent);
        let _height = self.height.0;
        carried_fits(&self.payload);
    }
}

impl<Dir: Directory> Block<Dir> {
    /// A block may be read under the limits that it keeps to.
    pub fn fits_limits(&self)
        ensures { (most version : ℕ) → BlockWithin Dir.matches_of most version self.now
            → BlockFits (PayloadFits (λ peers. Dir.fits (Dir.config_of peers)) Dir.matches_of most version) Dir.spelling self.now }
    {
        self.0.get().fits_limits();
    }
}

impl<Dir: Directory> Spelled for Parts<Dir> {
    ghost use Rattle.dkg_types.specs.BlockCodes.{block_spelling};

    ghost spelling = { block_spelling Dir.spelling };
}

impl<Dir: Directory> Spelled for Block<Dir> {
    ghost use Rattle.dkg_types.specs.BlockCodes.{block_spelling};

    ghost spelling = { block_spelling Dir.spelling };
}

/// How many bytes a flag takes and the payload behind it.
fn size_of_flagged<Dir: Directory>(payload: &Apart<Dir>) -> usize
    ensures size { result ≡ length (flagged_bytes Dir.spelling payload.now) }
    ensures bound { result ≤ 2 ^ 62 + 2 }
{
    match payload.get() {
        None => 1,
        Some(payload) => 1 + payload.encode_size(),
    }
}

impl<Dir: Directory> EncodeSize for Parts<Dir> {
    ghost use Rattle.std.specs.Prelude.{◌≡◌, ◌+◌, ◌^◌, ◌≤◌, length};
    ghost use Rattle.dkg_types.specs.BlockCodes.{block_spelling};

    #[tactic(auto, unfolding(crate::specs::BlockCodes::block_bytes))]
    fn encode_size(&self) -> usize
        ensures size { result ≡ length (block_spelling Dir.spelling self.now) }
        ensures bound { result ≤ 2 ^ 62 + 110 }
    {
        self.context.encode_size()
            + size_of_digest(&self.parent)
            + uint_size(self.height.0)
            + size_of_flagged(&self.payload)
    }
}

impl<Dir: Directory> Write for Parts<Dir> {
    #[tactic(auto, unfolding(crate::specs::BlockCodes::block_bytes))]
    fn put(&self, out: &mut BytesMut) -> Mem<()> {
        self.context.put(out)?;
        self.parent.put(out)?;
        self.height.put(out)?;
        put_flagged(&self.payload, out)
    }
}

impl<Dir: Directory> EncodeSize for Block<Dir> {
    ghost use Rattle.std.specs.Prelude.{◌≡◌, ◌+◌, ◌^◌, ◌≤◌, length};
    ghost use Rattle.dkg_types.specs.BlockCodes.{block_spelling};

    fn encode_size(&self) -> usize
        ensures size { result ≡ length (block_spelling Dir.spelling self.now) }
        ensures bound { result ≤ 2 ^ 62 + 110 }
    {
        self.0.get().encode_size()
    }
}

impl<Dir: Directory> Write for Block<Dir> {
    fn put(&self, out: &mut BytesMut) -> Mem<()> {
        self.0.get().put(out)
    }
}

/// What stands before the flag: where the block was proposed, the digest of the block below, and the height.
type Head = (Context, (Digest, Height));

#[tactic(auto, unfolding(crate::specs::BlockCodes::head_at))]
fn read_head(alloc: Global, input: &mut Reader<'_>) -> Result<Head, CodecError>
    ensures { Reads (head_at input.old) result input.new }
{
    let context = Context::read_cfg(alloc, input, &())?;
    let parent = Digest::read_cfg(alloc, input, &())?;
    let height = Height::read_cfg(alloc, input, &())?;
    Ok((context, (parent, height)))
}

#[tactic(auto, unfolding(crate::specs::BlockCodes::block_payload_at))]
fn read_payload<Dir: Directory + Drop>(
    alloc: Global,
    input: &mut Reader<'_>,
    cfg: &(NonZeroU32, ModeVersion),
) -> Result<Payload<Dir>, CodecError>
where
    Dir::Cfg: Drop,
    ensures { Reads (block_payload_at (λ peers. Dir.read_of (Dir.config_of peers)) Dir.matches_of
        (non_zero_u32_get cfg.now.0) cfg.now.1.0 input.old) result input.new }
{
    Payload::read_cfg(alloc, input, cfg)
}

#[tactic(auto, unfolding(crate::specs::BlockCodes::flagged_after))]
fn read_flagged<Dir: Directory + Drop>(
    alloc: Global,
    input: &mut Reader<'_>,
    cfg: &(NonZeroU32, ModeVersion),
) -> Result<Option<Payload<Dir>>, CodecError>
where
    Dir::Cfg: Drop,
    ensures { Reads (flagged_at
        (block_payload_at (λ peers. Dir.read_of (Dir.config_of peers)) Dir.matches_of (non_zero_u32_get cfg.now.0) cfg.now.1.0) input.old) result input.new }
{
    match read_byte(input)? {
        0 => Ok(None),
        1 => {
            let payload = read_payload(alloc, input, cfg)?;
            Ok(Some(payload))
        }
        other => Err(CodecError::InvalidEnum(other)),
    }
}

impl<Dir: Directory + Drop> Read for Block<Dir>
where
    Dir::Cfg: Drop,
{
    /// How many keys a set may have, and the newest mode that a sharing may have.
    type Cfg = (NonZeroU32, ModeVersion);

    ghost use Rattle.std.specs.Int.NonZero.{non_zero_u32_get};
    ghost use Rattle.dkg_types.specs.BlockCodes.{BlockFits, block_at, block_grammar, block_payload_at, held_grammar};
    ghost use Rattle.dkg_types.specs.PayloadCodes.{PayloadFits};

    ghost fits = { λ cfg. BlockFits (PayloadFits (λ peers. Dir.fits (Dir.config_of peers)) Dir.matches_of (non_zero_u32_get cfg.0) cfg.1.0) Dir.spelling };

    ghost read_of = { λ cfg. block_at Dir.spelling
        (block_payload_at (λ peers. Dir.read_of (Dir.config_of peers)) Dir.matches_of (non_zero_u32_get cfg.0) cfg.1.0) };

    ghost grammar = { λ cfg. block_grammar (PayloadFits (λ peers. Dir.fits (Dir.config_of peers)) Dir.matches_of (non_zero_u32_get cfg.0) cfg.1.0) Dir.spelling
        (block_payload_at (λ peers. Dir.read_of (Dir.config_of peers)) Dir.matches_of (non_zero_u32_get cfg.0) cfg.1.0)
        (held_grammar (λ peers. Dir.fits (Dir.config_of peers)) Dir.spelling (λ peers. Dir.read_of (Dir.config_of peers)) Dir.matches_of
        (λ peers. Dir.grammar (Dir.config_of peers)) (non_zero_u32_get cfg.0) cfg.1.0) };

    fn read_cfg(
        alloc: Global,
        input: &mut Reader<'_>,
        cfg: &(NonZeroU32, ModeVersion),
    ) -> Result<Block<Dir>, CodecError> {
        let (context, (parent, height)) = read_head(alloc, input)?;
        let payload = read_flagged(alloc, input, cfg)?;
        Ok(Block::new(alloc, context, parent, height, payload)?)
    }
}
