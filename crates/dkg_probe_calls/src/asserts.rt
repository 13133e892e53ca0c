//! Asserts as calls: a body at concrete types in which `assert_eq!` stands is proved in seconds for each.

use std::fmt::Debug;
use std::process::Abort;

/// Two values are equal.
pub(crate) fn is<T: PartialEq + Debug + Drop>(rt: &impl Abort, found: T, want: T) {
    assert_eq!(rt; found, want);
}

/// A test holds.
pub(crate) fn holds(rt: &impl Abort, test: bool) {
    assert!(rt; test);
}
