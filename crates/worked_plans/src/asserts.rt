//! Assertions as functions, so that each is proved once for all tests.
use std::fmt::Debug;
use std::process::Abort;

/// Fails the test unless both are equal.
pub(crate) fn same<T: PartialEq + Debug + Copy>(rt: &impl Abort, got: T, want: T) {
    assert_eq!(rt; got, want);
}

/// The same, and tells where.
pub(crate) fn same_at<T: PartialEq + Debug + Copy>(rt: &impl Abort, got: T, want: T, place: &str) {
    assert_eq!(rt; got, want, "at {place}");
}

/// Fails the test unless this holds.
pub(crate) fn holds(rt: &impl Abort, fact: bool) {
    assert!(rt; fact);
}
