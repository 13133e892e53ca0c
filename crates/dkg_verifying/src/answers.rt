//! Answers to final-block requests: each is a line, and is kept for its caller.
//!
//! Each function here is a part of the relation's `Including`, and names it.
ghost use Rattle.std.specs.Prelude.{◌≡◌, IfErr, IfOk, IsSome, OnErr, OnOk, option_map};
ghost use Rattle.std.specs.FinMap as maps;
ghost use Rattle.dkg_types.specs.PayloadCodes.{info_payload, payload_spelling};
ghost use Rattle.dkg_infos.specs.declared.fault.Fault.TheVariants.{NoMemory as OutOfMemory};
ghost use Rattle.dkg_core.specs.Fixed.{Fixed};
ghost use Rattle.dkg_core.specs.Including as including;
ghost use Rattle.dkg_core.specs.Live.{GaveInfo, GaveNone, Live, with_told};
ghost use Rattle.dkg_life.specs.Ends.{ends_in};
ghost use Rattle.dkg_life.specs.Made.{Speaks};
ghost use Rattle.dkg_life.specs.declared.stop.Stop.TheVariants.{Fault as Faulted};
ghost use Rattle.dkg_verifying.specs.InclusionOf.{artifact_of};
ghost use Rattle.dkg_verifying.specs.declared.told.EpochInfoResponse.TheVariants.{Available, Unavailable};
ghost use Rattle.dkg_verifying.specs.declared.told.Told.TheVariants.{Info as ToldInfo, Log as ToldLog};

use crate::told::{EpochInfoResponse, Told};
use dkg_artifact::Artifact;
use dkg_ceremony::encode;
use dkg_infos::{AnswerLine, Directory, Entry, EpochInfo, Transcript, Why};
use dkg_life::Stop;
use dkg_rising::RisingMap;
use dkg_types::Payload;
use dkg_values::{Blob, Mem, Shared, Value};
use std::alloc::Global;

/// Tells that a request has no answer (`answers_none`).
pub fn answer_none<Dir: Directory + Drop>(
    alloc: Global,
    told: &mut RisingMap<Told<Dir>>,
    request: u64,
    why: Why,
    out: &mut Transcript,
) -> Result<(), Stop>
    ensures told { OnOk result (told.new ≡ maps.insert told.old request (ToldInfo (Unavailable why))) }
    ensures same { OnErr result (told.new ≡ told.old) }
    ensures speaks { (st : Live Dir) → Speaks (including.answers_none request why st) (ends_in (with_told request (GaveNone why) st) result)
        out.old.entries out.new.entries }
    ensures memory { IfErr result (λ stop. stop ≡ Faulted OutOfMemory) }
{
    out.push(Entry::Answer {
        request,
        answer: AnswerLine::Unavailable(why),
    })?;
    let response = EpochInfoResponse::Unavailable(why);
    Ok(told_info(alloc, told, request, response)?)
}

/// Keeps what a request was told (`with_told`).
fn told_as<Dir: Directory + Drop>(
    told: &mut RisingMap<Told<Dir>>,
    request: u64,
    its: Told<Dir>,
) -> Mem<()>
    ensures done { OnOk result (told.new ≡ maps.insert told.old request its) }
    ensures same { OnErr result (told.new ≡ told.old) }
{
    told.insert(request, its)?;
    Ok(())
}

/// Keeps the log that a request was told, or that there was none.
pub fn told_log<Dir: Directory + Drop>(
    alloc: Global,
    told: &mut RisingMap<Told<Dir>>,
    request: u64,
    payload: Option<Payload<Dir>>,
) -> Mem<()>
    ensures done { OnOk result (told.new ≡ maps.insert told.old request (ToldLog payload)) }
    ensures same { OnErr result (told.new ≡ told.old) }
{
    let payload = Shared::of(alloc, payload)?;
    Ok(told_as(told, request, Told::Log(payload))?)
}

/// Keeps the answer that a final-block request was told.
fn told_info<Dir: Directory + Drop>(
    alloc: Global,
    told: &mut RisingMap<Told<Dir>>,
    request: u64,
    response: EpochInfoResponse<Dir>,
) -> Mem<()>
    ensures done { OnOk result (told.new ≡ maps.insert told.old request (ToldInfo response)) }
    ensures same { OnErr result (told.new ≡ told.old) }
{
    let response = Shared::of(alloc, response)?;
    Ok(told_as(told, request, Told::Info(response))?)
}

/// What a final block carries by an info: it, or nothing (`info_payload`).
fn payload_of<Dir: Directory + Drop>(
    alloc: Global,
    info: &Option<EpochInfo<Dir>>,
) -> Mem<Option<Payload<Dir>>>
    ensures { IfOk result (λ made. made ≡ option_map info_payload info.now) }
{
    match info {
        None => Ok(None),
        Some(info) => Ok(Some(Payload::EpochInfo(info.copy(alloc)?))),
    }
}

/// The bytes of a payload, if there is one (`payload_bytes`).
pub fn bytes_of<Dir: Directory + Drop>(
    alloc: Global,
    payload: &Option<Payload<Dir>>,
) -> Mem<Option<Shared<Blob>>>
    ensures ok { IfOk result (λ made. made ≡ option_map (payload_spelling Dir.spelling) payload.now) }
    ensures none { OnErr result (IsSome payload.now) }
{
    match payload {
        None => Ok(None),
        Some(payload) => Ok(Some(Shared::of(alloc, encode(alloc, payload)?)?)),
    }
}

/// Answers a request by an artifact (`answers`).
pub fn answer<Dir: Directory + Drop>(
    alloc: Global,
    told: &mut RisingMap<Told<Dir>>,
    request: u64,
    artifact: &Artifact<Dir>,
    out: &mut Transcript,
) -> Result<(), Stop>
    ensures told { OnOk result (told.new ≡ maps.insert told.old request (ToldInfo (Available (option_map info_payload artifact.now.info)))) }
    ensures same { OnErr result (told.new ≡ told.old) }
    ensures speaks { (c : Fixed Dir) (st : Live Dir) → c.directories.spelling ≡ Dir.spelling
        → Speaks (including.answers_request c request (artifact_of artifact.now) st)
        (ends_in (with_told request (GaveInfo (option_map info_payload artifact.now.info)) st) result) out.old.entries out.new.entries }
    ensures memory { IfErr result (λ stop. stop ≡ Faulted OutOfMemory) }
{
    let payload = payload_of(alloc, &artifact.info)?;
    let line = bytes_of(alloc, &payload)?;
    out.push(Entry::Answer {
        request,
        answer: AnswerLine::Available(line),
    })?;
    let response = EpochInfoResponse::Available(payload);
    Ok(told_info(alloc, told, request, response)?)
}
