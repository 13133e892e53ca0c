//! What bytes spell, apart from want of memory.
ghost use Rattle.std.specs.Prelude.{◌≡◌, IfOk, OnErr, OnOk, Err};
ghost use Rattle.std.specs.Result.{result_ok};
ghost use Rattle.dkg_values.specs.declared.codec.CodecError.TheVariants.{NoMemory as OutOfMemory};

use dkg_ceremony::{CodecError, Mem, NoMemory};

/// What was decoded, or nothing where the bytes spell no such value.
pub fn decoded<T: Drop>(read: Result<T, CodecError>) -> Mem<Option<T>>
    ensures value { IfOk result (λ made. made ≡ result_ok read) }
    ensures known { OnOk result (read ≡ Err OutOfMemory → ⊥) }
    ensures memory { OnErr result (read ≡ Err OutOfMemory) }
{
    match read {
        Ok(value) => Ok(Some(value)),
        Err(CodecError::NoMemory) => Err(NoMemory),
        Err(_) => Ok(None),
    }
}
