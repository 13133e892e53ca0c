//! Asserts as calls: a body at concrete types in which `assert_eq!` stands is proved in seconds for each.

use dkg_values::{Mem, Value};
use std::alloc::Global;
use std::fmt::Debug;
use std::process::Abort;

/// Two values are equal.
pub(crate) fn is<T: PartialEq + Debug + Drop>(rt: &impl Abort, found: T, want: T) {
    assert_eq!(rt; found, want);
}

/// A test holds.
pub(crate) fn holds(rt: &impl Abort, test: bool) {
    assert!(rt; test);
}

/// Whether a value is equal to a copy of it.
pub(crate) fn is_copied<T: Value + Drop>(alloc: Global, value: &T) -> Mem<bool> {
    let copy = value.copy(alloc)?;
    Ok(copy.same(value))
}
