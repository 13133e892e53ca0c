//! Asserts as calls: a body at concrete types in which `assert_eq!` stands is proved in seconds for each.

use std::fmt::Debug;
use std::process::Abort;

/// Two values are equal.
pub(crate) fn is<T: PartialEq + Debug + Drop>(rt: &impl Abort, found: T, want: T) {
    assert_eq!(rt; found, want);
}

/// Two values are equal, of a row with this label.
pub(crate) fn is_at<T: PartialEq + Debug + Drop, L: Debug + Drop>(
    rt: &impl Abort,
    found: T,
    want: T,
    label: L,
) {
    assert_eq!(rt; found, want, "at {label:?}");
}

/// A test holds.
pub(crate) fn holds(rt: &impl Abort, test: bool) {
    assert!(rt; test);
}
