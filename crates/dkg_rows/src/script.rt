//! Scripts that a script's own rows can't be: `dkg_replay` has the rest.

use crate::texts::{HEAD, script, text};
use dkg_script::{ReadError, read_in_form};
use std::alloc::Global;
use std::test::Fail;

/// Why a text of a script with addresses is not read.
fn refused(alloc: Global, text: &str) -> Option<ReadError> {
    read_in_form(alloc, text.as_bytes(), true).err()
}

#[test]
fn scripts_with_addresses_are_not_run(rt: HostRuntime) -> Result<(), Fail> {
    let alloc = rt.alloc();
    let none = text(alloc, &[HEAD, "end\n"])?;
    assert_eq!(rt; refused(alloc, none.as_str()), Some(ReadError::Unsupported));
    // An info without a directory is none then.
    let some = script(alloc, "")?;
    assert_eq!(rt;
        refused(alloc, some.as_str()),
        Some(ReadError::Bad { place: 45 })
    );
    Ok(())
}
