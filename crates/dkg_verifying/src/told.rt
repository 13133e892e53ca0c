//! What the requests of a life were told, for their callers, who ask by number.
ghost use Rattle.std.specs.Prelude.{◌≡◌, ◌↔◌, IfOk, IsTrue, OnErr, OnOk};
ghost use Rattle.dkg_verifying.specs.InclusionOf.{posted_in};

use dkg_infos::{Directory, Why};
use dkg_rising::RisingMap;
use dkg_types::Payload;
use dkg_values::{Mem, Shared, Value};
use std::alloc::Global;

/// The answer to a final-block request.
#[derive(Drop)]
pub enum EpochInfoResponse<Dir> {
    /// What the final block carries; nothing where a one-shot ceremony has no outcome.
    Available(Option<Payload<Dir>>),
    Unavailable(Why),
}

/// What a request was told last. It lies apart, since a request that waits was told nothing yet, and takes no room for it so.
#[derive(Drop)]
pub enum Told<Dir> {
    /// A final-block request waits for its answer.
    Posted,
    /// The log that goes into the block, if one does.
    Log(Shared<Option<Payload<Dir>>>),
    Info(Shared<EpochInfoResponse<Dir>>),
}

/// A copy of a payload, if there is one.
fn copy_of<Dir: Directory + Drop>(
    alloc: Global,
    payload: &Option<Payload<Dir>>,
) -> Mem<Option<Payload<Dir>>>
    ensures { IfOk result (λ made. made ≡ payload.now) }
{
    match payload {
        None => Ok(None),
        Some(payload) => Ok(Some(payload.copy(alloc)?)),
    }
}

/// Whether two payloads are equal, or neither is there.
fn is_same<Dir: Directory + Drop>(one: &Option<Payload<Dir>>, other: &Option<Payload<Dir>>) -> bool
    ensures { IsTrue result ↔ (one.now ≡ other.now) }
{
    match (one, other) {
        (None, None) => true,
        (Some(one), Some(other)) => one.same(other),
        (None, Some(_)) | (Some(_), None) => false,
    }
}

impl<Dir: Directory + Drop> Value for EpochInfoResponse<Dir> {
    fn copy(&self, alloc: Global) -> Mem<EpochInfoResponse<Dir>> {
        match self {
            EpochInfoResponse::Available(payload) => {
                Ok(EpochInfoResponse::Available(copy_of(alloc, payload)?))
            }
            EpochInfoResponse::Unavailable(why) => Ok(EpochInfoResponse::Unavailable(*why)),
        }
    }

    fn same(&self, other: &EpochInfoResponse<Dir>) -> bool {
        match (self, other) {
            (EpochInfoResponse::Available(one), EpochInfoResponse::Available(two)) => {
                is_same(one, two)
            }
            (EpochInfoResponse::Unavailable(one), EpochInfoResponse::Unavailable(two)) => {
                *one == *two
            }
            _ => false,
        }
    }
}

impl<Dir: Directory + Drop> Value for Told<Dir> {
    fn copy(&self, _alloc: Global) -> Mem<Told<Dir>> {
        match self {
            Told::Posted => Ok(Told::Posted),
            Told::Log(payload) => Ok(Told::Log(payload.share()?)),
            Told::Info(response) => Ok(Told::Info(response.share()?)),
        }
    }

    fn same(&self, other: &Told<Dir>) -> bool {
        match (self, other) {
            (Told::Posted, Told::Posted) => true,
            (Told::Log(one), Told::Log(two)) => is_same(one.get(), two.get()),
            (Told::Info(one), Told::Info(two)) => one.get().same(two.get()),
            _ => false,
        }
    }
}

/// A request was made. One that has an answer keeps it, until it is told another.
pub fn post<Dir: Directory + Drop>(told: &mut RisingMap<Told<Dir>>, request: u64) -> Mem<()>
    ensures done { OnOk result (told.new ≡ posted_in request told.old) }
    ensures same { OnErr result (told.new ≡ told.old) }
{
    if told.get(request).is_none() {
        told.insert(request, Told::Posted)?;
    }
    Ok(())
}
