//! The bytes of requests, finalizations and blocks, and a sample.

use crate::asserts::{holds, is};
use dkg_cases::{held_block, probe_limits, sealed};
use dkg_ceremony::{CodecError, Digest, Epoch, Key, What, encode};
use dkg_infos::Unit;
use dkg_probe::{
    Message, Request, Response, Sample, max_payload_size, read_block, read_request, read_response,
};
use dkg_types::Finalization;
use std::alloc::Global;
use std::test::Fail;

/// Whether a message has these bytes, which are read as this request, and answer nothing.
fn is_request(
    alloc: Global,
    message: &Message<Unit>,
    spelled: &[u8],
    request: Request,
) -> Result<bool, Fail> {
    let bytes = encode(alloc, message)?;
    Ok(
        bytes.as_slice() == spelled
            && read_request(bytes.as_slice()) == Ok(Some(request))
            && matches!(read_response(alloc, bytes.as_slice()), Ok(None)),
    )
}

#[test]
fn a_request_has_its_bytes(rt: HostRuntime) -> Result<(), Fail> {
    let epoch = Epoch(300);
    let message = Message::BoundaryRequest(epoch);
    let request = Request::Boundary(epoch);
    holds(
        &rt,
        is_request(rt.alloc(), &message, &[0, 0xac, 2], request)?,
    );
    is(
        &rt,
        read_request(&[0, 0x80, 0]),
        Err(CodecError::InvalidVarint),
    );
    Ok(())
}

/// Whether some bytes are read as this latest finalization, and ask for nothing.
fn is_latest(alloc: Global, bytes: &[u8], finalization: &Finalization) -> bool {
    match read_response(alloc, bytes) {
        Ok(Some(Response::Latest(again))) => {
            again == *finalization && read_request(bytes) == Ok(None)
        }
        _ => false,
    }
}

#[test]
fn finalizations_have_their_bytes(rt: HostRuntime) -> Result<(), Fail> {
    let alloc = rt.alloc();
    let one = sealed(alloc, 1, 9, 1).ok_or("no finalization")?;
    let bytes = encode(alloc, &Message::<Unit>::LatestResponse(one))?;
    holds(&rt, bytes.as_slice().starts_with(&[5]));
    holds(&rt, is_latest(alloc, bytes.as_slice(), &one));
    Ok(())
}

/// Whether a body is read as the block of one digest, and refused as that of another.
fn is_block(alloc: Global, body: &[u8], one: &Digest, other: &Digest) -> Result<bool, Fail> {
    let limits = probe_limits().ok_or("no limits")?;
    let read = read_block::<Unit>(alloc, body, one, &limits);
    let refused = read_block::<Unit>(alloc, body, other, &limits);
    Ok(read.is_ok() && refused.err() == Some(CodecError::Invalid(What::Commitment)))
}

/// Whether a response is a block of an epoch.
fn has_block(
    alloc: Global,
    response: &Response<'_>,
    epoch: Epoch,
    digest: &Digest,
) -> Result<bool, Fail> {
    match response {
        Response::Block { epoch: again, body } => {
            let right = is_block(alloc, body, digest, &Digest([0; 32]))?;
            Ok(right && again.0 == epoch.0)
        }
        _ => Ok(false),
    }
}

/// Whether some bytes answer with a block of an epoch.
fn is_answer(alloc: Global, bytes: &[u8], epoch: Epoch, digest: &Digest) -> Result<bool, Fail> {
    match read_response(alloc, bytes) {
        Ok(Some(response)) => has_block(alloc, &response, epoch, digest),
        _ => Ok(false),
    }
}

#[test]
fn blocks_have_their_bytes(rt: HostRuntime) -> Result<(), Fail> {
    let alloc = rt.alloc();
    let epoch = Epoch(300);
    let block = held_block(alloc, 1, Digest([1; 32])).ok_or("no block")?;
    let digest = block.digest();
    let bytes = encode(alloc, &Message::BlockResponse { epoch, block })?;
    let right = is_answer(alloc, bytes.as_slice(), epoch, &digest)?;
    holds(&rt, right);
    let (most, _) = probe_limits().ok_or("no limits")?;
    is(&rt, max_payload_size::<Unit>(most), 264);
    is(&rt, Message::<Unit>::max_encode_size(4, 253), 264);
    Ok(())
}

/// A dealer that replies twice, and another one.
fn record_three(sample: &mut Sample, one: Finalization, two: Finalization) -> Result<bool, Fail> {
    sample.record(Key(4), one)?;
    sample.record(Key(4), two)?;
    let few = sample.select(4).is_none();
    let waits = !sample.awaits(Key(4)) && sample.awaits(Key(3));
    sample.record(Key(3), two)?;
    Ok(few && waits)
}

#[test]
fn a_sample_chooses_the_highest(rt: HostRuntime) -> Result<(), Fail> {
    let one = sealed(rt.alloc(), 1, 9, 1).ok_or("no finalization")?;
    let two = sealed(rt.alloc(), 2, 3, 2).ok_or("no finalization")?;
    let mut sample = Sample::new(rt.alloc(), Epoch(1));
    is(&rt, sample.minimum(), Epoch(1));
    let right = record_three(&mut sample, one, two)?;
    holds(&rt, right);
    is(&rt, sample.select(4), Some(two));
    is(&rt, sample.floor(), Some(&two));
    holds(&rt, !sample.awaits(Key(2)) && sample.select(4).is_none());
    sample.reset();
    holds(&rt, sample.floor().is_none() && sample.awaits(Key(4)));
    Ok(())
}
