//! A payload that lies apart from its block. Most blocks carry nothing, and are less than half as large so.
ghost use Rattle.std.specs.Prelude.{◌≡◌, IfOk};
ghost use Rattle.std.specs.Option.{option_copied};

use crate::payload::Payload;
use dkg_ceremony::Mem;
use dkg_values::Shared;
use std::alloc::Global;
use std::marker::Model;

/// What a block carries, if anything. Contracts see it as if it lay in the block.
#[derive(Drop)]
pub(crate) struct Apart<Dir>(Option<Shared<Payload<Dir>>>);

impl<Dir> Model for Apart<Dir> {
    ghost use Rattle.std.specs.Prelude.{Option};
    ghost use Rattle.dkg_types.specs.declared.payload.Payload.{Payload};

    ghost Value = { Option (Payload Dir) };

    ghost view = { λ its. its.0 };
}

impl<Dir: Drop> Apart<Dir> {
    pub(crate) fn of(alloc: Global, payload: Option<Payload<Dir>>) -> Mem<Apart<Dir>>
        ensures { IfOk result (λ made. made ≡ payload) }
    {
        match payload {
            None => Ok(Apart(None)),
            Some(payload) => Ok(Apart(Some(Shared::of(alloc, payload)?))),
        }
    }
}

impl<Dir> Apart<Dir> {
    /// What lies apart already.
    pub(crate) fn held(payload: Option<Shared<Payload<Dir>>>) -> Apart<Dir>
        ensures { result ≡ payload }
    {
        Apart(payload)
    }

    pub(crate) fn get(&self) -> Option<&Payload<Dir>>
        ensures { option_copied result ≡ self.now }
    {
        match &self.0 {
            None => None,
            Some(held) => Some(held.get()),
        }
    }
}
