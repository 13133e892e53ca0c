//! What probes send each other: requests for a finalization or a block, and the responses.
ghost use Rattle.std.specs.Prelude.{◌≡◌, ℕ, ◌+◌, ◌*◌, ◌^◌, ◌-◌, ◌≤◌, ◌<◌, ◌∷◌, ◌++◌, length, max, IfOk, OnOk, OnErr, IsErrOf};
ghost use Rattle.std.specs.Int.NonZero.{non_zero_u32_get};
ghost use Rattle.dkg_values.specs.Codec.{Reads, Decodes, whole, StandsInFront};
ghost use Rattle.dkg_values.specs.Uint.{uint};
ghost use Rattle.dkg_infos.specs.InfoBounds.{IsBound};
ghost use Rattle.dkg_types.specs.BlockCodes.{BlockFits, block_spelling};
ghost use Rattle.dkg_types.specs.PayloadCodes.{PayloadFits};
ghost use Rattle.dkg_probe.specs.Wire.{tag_at, tag_byte, request_of, reply_of, epoch_number_at, with_commitment, AnswersReply, ProbeMessageFits, probe_message_spelling};

use bytes::{BufMut, BytesMut};
use dkg_ceremony::{
    CodecError, Digest, EncodeSize, Epoch, Mem, ModeVersion, Read, Reader, Spelled, What, Write,
    decode_cfg, read_byte, read_u64, uint_size,
};
use dkg_infos::Directory;
use dkg_types::{Block, Finalization};
use std::alloc::Global;
use std::num::NonZeroU32;

/// The first byte of a message, from 0 on in this order.
#[derive(Clone, Copy, Debug, PartialEq, Eq)]
pub enum Tag {
    BoundaryRequest,
    BoundaryResponse,
    BlockRequest,
    BlockResponse,
    LatestRequest,
    LatestResponse,
}

/// What a peer asks for.
#[derive(Clone, Copy, Debug, PartialEq, Eq)]
pub enum Request {
    /// The finalization of the block that begins an epoch.
    Boundary(Epoch),
    /// The block that begins an epoch.
    Block(Epoch),
    /// The latest finalization.
    Latest,
}

/// What a peer answers.
#[derive(Clone, Copy)]
pub enum Response<'a> {
    /// The finalization of the block that begins an epoch.
    Boundary(Finalization),
    /// The block that begins an epoch. Its bytes are read once it is known which block they must be.
    Block { epoch: Epoch, body: &'a [u8] },
    /// The latest finalization.
    Latest(Finalization),
}

/// A message of the probe, as the upstream's `wire` module has it.
#[derive(Drop)]
pub enum Message<Dir: Directory> {
    BoundaryRequest(Epoch),
    BoundaryResponse(Finalization),
    BlockRequest(Epoch),
    BlockResponse { epoch: Epoch, block: Block<Dir> },
    LatestRequest,
    LatestResponse(Finalization),
}

/// The tag's byte.
fn byte_of(tag: Tag) -> u8
    ensures { result ≡ tag_byte tag }
{
    match tag {
        Tag::BoundaryRequest => 0,
        Tag::BoundaryResponse => 1,
        Tag::BlockRequest => 2,
        Tag::BlockResponse => 3,
        Tag::LatestRequest => 4,
        Tag::LatestResponse => 5,
    }
}

#[tactic(auto, unfolding(crate::specs::Wire::tag_after))]
fn read_tag(input: &mut Reader<'_>) -> Result<Tag, CodecError>
    ensures exact { Reads (tag_at input.old) result input.new }
    ensures sure { IsErrOf result CodecError.NoMemory → ⊥ }
{
    match read_byte(input)? {
        0 => Ok(Tag::BoundaryRequest),
        1 => Ok(Tag::BoundaryResponse),
        2 => Ok(Tag::BlockRequest),
        3 => Ok(Tag::BlockResponse),
        4 => Ok(Tag::LatestRequest),
        5 => Ok(Tag::LatestResponse),
        other => Err(CodecError::InvalidEnum(other)),
    }
}

/// An epoch, and no bytes after it.
fn read_last_epoch(input: &mut Reader<'_>) -> Result<Epoch, CodecError>
    ensures exact { Decodes (whole (epoch_number_at input.old)) result }
    ensures sure { IsErrOf result CodecError.NoMemory → ⊥ }
{
    let epoch = read_u64(input)?;
    match input.left() {
        [] => Ok(Epoch(epoch)),
        [_, ..] => Err(CodecError::ExtraData),
    }
}

/// What some bytes ask for, or none where they are a response's, which isn't looked at.
pub fn read_request(bytes: &[u8]) -> Result<Option<Request>, CodecError>
    ensures exact { result ≡ request_of bytes.now }
{
    let mut input = Reader::new(bytes);
    match read_tag(&mut input)? {
        Tag::BoundaryRequest => {
            let epoch = read_last_epoch(&mut input)?;
            Ok(Some(Request::Boundary(epoch)))
        }
        Tag::BlockRequest => {
            let epoch = read_last_epoch(&mut input)?;
            Ok(Some(Request::Block(epoch)))
        }
        Tag::LatestRequest => Ok(Some(Request::Latest)),
        Tag::BoundaryResponse | Tag::BlockResponse | Tag::LatestResponse => Ok(None),
    }
}

/// What some bytes answer, or none where they are a request's, which isn't looked at.
pub fn read_response(alloc: Global, bytes: &[u8]) -> Result<Option<Response<'_>>, CodecError>
    ensures exact { AnswersReply (reply_of bytes.now) result }
{
    let mut input = Reader::new(bytes);
    match read_tag(&mut input)? {
        Tag::BoundaryResponse => {
            let finalization = decode_cfg::<Finalization>(alloc, input.left(), &())?;
            Ok(Some(Response::Boundary(finalization)))
        }
        Tag::BlockResponse => {
            let epoch = read_u64(&mut input)?;
            Ok(Some(Response::Block {
                epoch: Epoch(epoch),
                body: input.left(),
            }))
        }
        Tag::LatestResponse => {
            let finalization = decode_cfg::<Finalization>(alloc, input.left(), &())?;
            Ok(Some(Response::Latest(finalization)))
        }
        Tag::BoundaryRequest | Tag::BlockRequest | Tag::LatestRequest => Ok(None),
    }
}

/// The block that some bytes are, all of them, if it is the one with this digest: `Invalid(Commitment)` where it is another.
pub fn read_block<Dir: Directory + Drop>(
    alloc: Global,
    body: &[u8],
    commitment: &Digest,
    cfg: &(NonZeroU32, ModeVersion),
) -> Result<Block<Dir>, CodecError>
where
    Dir::Cfg: Drop,
    ensures found { IfOk result (λ b. (body.now ≡ block_spelling Dir.spelling b) × (b.digest ≡ commitment.now)) }
    ensures exact { Decodes (with_commitment commitment.now (whole (⟦<Block<Dir> as Read>⟧.read_of cfg.now body.now))) result }
{
    let block = decode_cfg::<Block<Dir>>(alloc, body, cfg)?;
    if block.digest() != *commitment {
        return Err(CodecError::Invalid(What::Commitment));
    }
    Ok(block)
}

/// Writes the message that answers with a block.
pub(crate) fn put_block<Dir: Directory>(
    out: &mut BytesMut,
    epoch: Epoch,
    block: &Block<Dir>,
) -> Mem<()>
    ensures ok { OnOk result (out.new.items ≡ out.old.items ++ 3 ∷ (uint epoch ++ block_spelling Dir.spelling block.now)) }
    ensures err { OnErr result (StandsInFront out.old.items out.new.items) }
{
    out.put_u8(byte_of(Tag::BlockResponse))?;
    epoch.put(out)?;
    block.put(out)
}

impl<Dir: Directory> Message<Dir> {
    /// A bound, in bytes, of the encoding of a message whose block takes at most `application` bytes. It is the same for any number of
    /// participants, since a certificate takes eight bytes.
    pub fn max_encode_size(_participants: u32, application: usize) -> usize
        requires { application ≤ 2 ^ 62 }
        ensures bound { result ≡ 1 + max 70 (10 + application) }
        ensures enough { IsBound (ProbeMessageFits {Cfg = Dir.Cfg} (λ b. length (block_spelling Dir.spelling b) ≤ application))
            (probe_message_spelling Dir.spelling) result }
    {
        1 + (10 + application).max(70)
    }
}

/// A bound, in bytes, of what probes send among at most so many participants.
pub fn max_payload_size<Dir: Directory>(participants: NonZeroU32) -> usize
    ensures bound { result ≡ 1 + max 70 (10 + (165 + 22 * non_zero_u32_get participants + Dir.bound_of (3 * non_zero_u32_get participants))) }
    ensures enough { (version : ℕ)
        → let fits = PayloadFits (λ peers. Dir.fits (Dir.config_of peers)) Dir.matches_of (non_zero_u32_get participants) version in
        IsBound (ProbeMessageFits {Cfg = Dir.Cfg} (BlockFits fits Dir.spelling)) (probe_message_spelling Dir.spelling) result }
{
    let most = participants.get();
    // A directory takes at most 2^61 bytes, so a block at most 2^62.
    let _directory = Dir::max_encode_size(3 * most as usize);
    let application = Block::<Dir>::max_encode_size(participants);
    Message::<Dir>::max_encode_size(most, application)
}

impl<Dir: Directory> Spelled for Message<Dir> {
    ghost use Rattle.dkg_probe.specs.Wire.{probe_message_spelling};

    ghost spelling = { probe_message_spelling Dir.spelling };
}

impl<Dir: Directory> EncodeSize for Message<Dir> {
    fn encode_size(&self) -> usize {
        match self {
            Message::BoundaryRequest(epoch) | Message::BlockRequest(epoch) => {
                1 + uint_size(epoch.0)
            }
            Message::BoundaryResponse(finalization) | Message::LatestResponse(finalization) => {
                1 + finalization.encode_size()
            }
            Message::BlockResponse { epoch, block } => {
                1 + uint_size(epoch.0) + block.encode_size()
            }
            Message::LatestRequest => 1,
        }
    }
}

impl<Dir: Directory> Write for Message<Dir> {
    fn put(&self, out: &mut BytesMut) -> Mem<()> {
        match self {
            Message::BoundaryRequest(epoch) => {
                out.put_u8(byte_of(Tag::BoundaryRequest))?;
                epoch.put(out)
            }
            Message::BoundaryResponse(finalization) => {
                out.put_u8(byte_of(Tag::BoundaryResponse))?;
                finalization.put(out)
            }
            Message::BlockRequest(epoch) => {
                out.put_u8(byte_of(Tag::BlockRequest))?;
                epoch.put(out)
            }
            Message::BlockResponse { epoch, block } => put_block(out, *epoch, block),
            Message::LatestRequest => Ok(out.put_u8(byte_of(Tag::LatestRequest))?),
            Message::LatestResponse(finalization) => {
                out.put_u8(byte_of(Tag::LatestResponse))?;
                finalization.put(out)
            }
        }
    }
}
