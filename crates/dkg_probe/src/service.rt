//! Serving others what a node holds, once nobody of its own waits.
ghost use Rattle.std.specs.Prelude.{◌≡◌, IfOk, option_map, option_and_then, ◌∷◌, ◌++◌};
ghost use Rattle.dkg_types.specs.BlockCodes.{block_spelling};
ghost use Rattle.dkg_values.specs.Uint.{uint};
ghost use Rattle.dkg_probe.specs.Acts.{ProbeRuns};
ghost use Rattle.dkg_probe.specs.Probing.{ended_in, fixed, response_to, serves};
ghost use Rattle.dkg_probe.specs.Wire.{request_of};

use crate::blocks::Blocks;
use crate::discovery::{block, boundary_height, is_want, send};
use crate::state::{State, Terms};
use crate::wire::{Message, Request, put_block, read_request};
use bytes::BytesMut;
use dkg_ceremony::{Blob, EncodeSize, Epoch, Key, Mem, NoMemory, Read, encode};
use dkg_infos::{BlockedWhy, Directory, Transcript};
use dkg_types::{Block, Scheme};
use std::alloc::Global;

/// A block as the message that answers with it.
fn block_message<Dir: Directory>(alloc: Global, epoch: Epoch, block: &Block<Dir>) -> Mem<Blob>
    ensures { IfOk result (λ blob. blob ≡ 3 ∷ (uint epoch ++ block_spelling Dir.spelling block.now)) }
{
    let mut out = BytesMut::with_capacity(alloc, 11 + block.encode_size())?;
    put_block(&mut out, epoch, block)?;
    Ok(Blob::new(out.into_vec()?))
}

/// What is held for a request, as a response.
fn respond<B: Blocks<Dir>, S: Scheme, Dir: Directory + Drop>(
    alloc: Global,
    terms: &Terms<S, Dir>,
    source: &B,
    request: Request,
) -> Mem<Option<Blob>>
where
    Dir::Cfg: Drop,
    ensures { IfOk result (λ bytes. bytes ≡
        response_to (fixed S.verifies Dir.spelling ⟦<Block<Dir> as Read>⟧.read_of terms.now.limits terms.now) (B.source source.now) request) }
{
    match request {
        Request::Latest => match source.latest(alloc)? {
            None => Ok(None),
            Some(latest) => Ok(Some(encode(alloc, &Message::<Dir>::LatestResponse(latest))?)),
        },
        Request::Boundary(epoch) => {
            let Some(height) = boundary_height(&terms.epocher, epoch) else {
                return Ok(None);
            };
            match source.finalization(alloc, height)? {
                None => Ok(None),
                Some(held) => Ok(Some(encode(alloc, &Message::<Dir>::BoundaryResponse(held))?)),
            }
        }
        Request::Block(epoch) => {
            let Some(height) = boundary_height(&terms.epocher, epoch) else {
                return Ok(None);
            };
            match source.block(height) {
                None => Ok(None),
                Some(held) => Ok(Some(block_message(alloc, epoch, held)?)),
            }
        }
    }
}

/// A peer's message, while others are served.
pub(crate) fn serve<B: Blocks<Dir>, S: Scheme, Dir: Directory + Drop>(
    alloc: Global,
    terms: &Terms<S, Dir>,
    state: &State<Dir>,
    source: &B,
    peer: Key,
    bytes: &[u8],
    out: &mut Transcript,
) -> Mem<()>
where
    Dir::Cfg: Drop,
    ensures acts { ProbeRuns (serves (fixed S.verifies Dir.spelling ⟦<Block<Dir> as Read>⟧.read_of terms.now.limits terms.now)
        (B.source source.now) peer (request_of bytes.now) state.now)
        (ended_in state.now result) out.old.entries out.new.entries }
{
    match read_request(bytes) {
        Err(error) => {
            if is_want(&error) {
                return Err(NoMemory);
            }
            block(out, peer, BlockedWhy::Reply)
        }
        Ok(None) => Ok(()),
        Ok(Some(request)) => match respond(alloc, terms, source, request)? {
            None => Ok(()),
            Some(response) => send(out, Some(peer), response),
        },
    }
}
