//! What a block carries by its line: the encoding of a payload, which lies as the payload that was read of it.
//!
//! So the bytes and the payload don't lie beside one another, and a block that is made of the line shares it.
ghost use Rattle.std.specs.Prelude.{◌≡◌, ◌++◌, IfOk, MatchOption, None, OnOk, Some, false, is_some, true};
ghost use Rattle.std.specs.Int.NonZero.{non_zero_u32_get};
ghost use Rattle.dkg_values.specs.Codec.{IsBytes};
ghost use Rattle.dkg_text.specs.Fields.{bytes_field};
ghost use Rattle.dkg_text.specs.FoundPayloads.{IsFoundPayload, found_bytes};
ghost use Rattle.dkg_text.specs.PayloadKinds.{payload_kind, unit_spelled};

use crate::payload::carried_by;
use crate::text::Text;
use dkg_ceremony::{Blob, CodecError, Mem, ModeVersion, NoMemory, decode_cfg, encode};
use dkg_infos::Unit;
use dkg_types::Payload;
use dkg_values::Shared;
use std::alloc::Global;
use std::marker::Model;
use std::num::NonZeroU32;

/// A payload whose directories say nothing, and the limits under which it was read of the bytes that spell it.
#[derive(Drop)]
struct Found {
    version: ModeVersion,
    limit: NonZeroU32,
    payload: Shared<Payload<Unit>>,
}

impl Model for Found {
    ghost use Rattle.std.specs.Int.NonZero.{non_zero_u32_get};
    ghost use Rattle.dkg_text.specs.FoundPayloads.{Found as Seen, IsFoundPayload};

    ghost Value = { Seen };

    ghost view = { λ f. record { limit = non_zero_u32_get f.limit; version = f.version.0; payload = f.payload } };

    ghost invariant = { λ f. IsFoundPayload (record { limit = non_zero_u32_get f.limit; version = f.version.0; payload = f.payload }) };
}

/// How the bytes lie.
#[derive(Drop)]
enum Form {
    Plain(Shared<Blob>),
    Read(Found),
}

/// The encoding of a payload, which contracts see as its bytes.
#[derive(Drop)]
pub struct PayloadBytes {
    form: Form,
}

impl Model for PayloadBytes {
    ghost use Rattle.std.specs.Prelude.{List, ℕ};

    ghost Value = { List ℕ };

    ghost use Rattle.dkg_text.specs.Carrying.{carried_bytes};

    ghost view = { λ c. carried_bytes c.form };
}

/// The payload that bytes spell under limits, if they spell one.
fn decoded(
    alloc: Global,
    limits: (NonZeroU32, ModeVersion),
    bytes: &[u8],
) -> Mem<Option<Shared<Payload<Unit>>>>
    ensures payload { IfOk result (λ payload. payload ≡ unit_spelled (non_zero_u32_get limits.0) limits.1.0 bytes.now) }
    ensures bytes { IsBytes bytes.now }
{
    match decode_cfg::<Payload<Unit>>(alloc, bytes, &limits) {
        Ok(payload) => Ok(Some(Shared::of(alloc, payload)?)),
        Err(CodecError::NoMemory) => Err(NoMemory),
        Err(_) => Ok(None),
    }
}

/// What was read of bytes under limits.
fn found_of(alloc: Global, limits: (NonZeroU32, ModeVersion), payload: Payload<Unit>) -> Mem<Found>
    requires { IsFoundPayload (record { limit = non_zero_u32_get limits.0; version = limits.1.0; payload = payload }) }
    ensures { IfOk result (λ made. made ≡ record { limit = non_zero_u32_get limits.0; version = limits.1.0; payload = payload }) }
{
    Ok(Found {
        version: limits.1,
        limit: limits.0,
        payload: Shared::of(alloc, payload)?,
    })
}

/// What bytes are read as under limits, if they spell a payload.
fn find(alloc: Global, limits: (NonZeroU32, ModeVersion), bytes: &[u8]) -> Mem<Option<Found>>
    ensures { IfOk result (λ made. MatchOption made (unit_spelled (non_zero_u32_get limits.0) limits.1.0 bytes.now ≡ None)
        (λ found. (unit_spelled (non_zero_u32_get limits.0) limits.1.0 bytes.now ≡ Some found.payload) × (found_bytes found ≡ bytes.now))) }
{
    match decode_cfg::<Payload<Unit>>(alloc, bytes, &limits) {
        Ok(payload) => Ok(Some(found_of(alloc, limits, payload)?)),
        Err(CodecError::NoMemory) => Err(NoMemory),
        Err(_) => Ok(None),
    }
}

impl Found {
    /// The payload that its bytes spell under limits. Where these are the ones that it was read under, it is shared.
    fn payload(
        &self,
        alloc: Global,
        limits: (NonZeroU32, ModeVersion),
    ) -> Mem<Option<Shared<Payload<Unit>>>>
        ensures payload { IfOk result (λ payload. payload ≡ unit_spelled (non_zero_u32_get limits.0) limits.1.0 (found_bytes self.now)) }
        ensures bytes { IsBytes (found_bytes self.now) }
    {
        if self.limit.get() == limits.0.get() && self.version.0 == limits.1.0 {
            return Ok(Some(self.payload.share()?));
        }
        let bytes = encode(alloc, self.payload.get())?;
        decoded(alloc, limits, bytes.as_slice())
    }

    /// Writes its bytes as a field.
    fn put(&self, text: &mut Text) -> Mem<()>
        ensures { OnOk result (text.new ≡ text.old ++ bytes_field (found_bytes self.now)) }
    {
        text.value(self.payload.get())
    }
}

/// The bytes, and whether they spell a payload whose directories hold addresses.
fn read_addressed(
    alloc: Global,
    limits: (NonZeroU32, ModeVersion),
    bytes: Blob,
) -> Mem<(PayloadBytes, bool)>
    ensures { IfOk result (λ made. (made.0 ≡ bytes) × (made.1 ≡ is_some (payload_kind true (non_zero_u32_get limits.0) limits.1.0 bytes))) }
{
    let is_read = carried_by(alloc, true, limits, bytes.as_slice())?.is_some();
    Ok((PayloadBytes::new(alloc, bytes)?, is_read))
}

/// The bytes, and whether they spell a payload whose directories say nothing. Where they do, it lies in their place.
#[tactic(auto, unfolding(crate::specs::PayloadKinds::payload_kind, crate::specs::PayloadKinds::unit_kind))]
fn read_unit(
    alloc: Global,
    limits: (NonZeroU32, ModeVersion),
    bytes: Blob,
) -> Mem<(PayloadBytes, bool)>
    ensures { IfOk result (λ made. (made.0 ≡ bytes) × (made.1 ≡ is_some (payload_kind false (non_zero_u32_get limits.0) limits.1.0 bytes))) }
{
    match find(alloc, limits, bytes.as_slice())? {
        Some(found) => {
            let form = Form::Read(found);
            Ok((PayloadBytes { form }, true))
        }
        None => Ok((PayloadBytes::new(alloc, bytes)?, false)),
    }
}

impl PayloadBytes {
    /// The bytes as they are.
    pub fn new(alloc: Global, bytes: Blob) -> Mem<PayloadBytes>
        ensures { IfOk result (λ made. made ≡ bytes) }
    {
        let form = Form::Plain(Shared::of(alloc, bytes)?);
        Ok(PayloadBytes { form })
    }

    /// The bytes, and whether they spell a payload under limits.
    pub fn read(
        alloc: Global,
        addressed: bool,
        limits: (NonZeroU32, ModeVersion),
        bytes: Blob,
    ) -> Mem<(PayloadBytes, bool)>
        ensures { IfOk result (λ made. (made.0 ≡ bytes) × (made.1 ≡ is_some (payload_kind addressed (non_zero_u32_get limits.0) limits.1.0 bytes))) }
    {
        if addressed {
            read_addressed(alloc, limits, bytes)
        } else {
            read_unit(alloc, limits, bytes)
        }
    }

    /// The payload that the bytes spell under limits, where directories say nothing, if they spell one. One that was read of them under these is shared.
    pub fn payload(
        &self,
        alloc: Global,
        limits: (NonZeroU32, ModeVersion),
    ) -> Mem<Option<Shared<Payload<Unit>>>>
        ensures payload { IfOk result (λ payload. payload ≡ unit_spelled (non_zero_u32_get limits.0) limits.1.0 self.now) }
        ensures bytes { IsBytes self.now }
    {
        match &self.form {
            Form::Plain(bytes) => decoded(alloc, limits, bytes.get().as_slice()),
            Form::Read(found) => found.payload(alloc, limits),
        }
    }

    /// Writes the bytes as a field.
    pub(crate) fn put(&self, text: &mut Text) -> Mem<()>
        ensures { OnOk result (text.new ≡ text.old ++ bytes_field self.now) }
    {
        match &self.form {
            Form::Plain(bytes) => text.bytes(bytes.get().as_slice()),
            Form::Read(found) => found.put(text),
        }
    }
}
