//! Assertions as functions, each proved once.
use std::fmt::Debug;
use std::process::Abort;

/// Fails the test unless both are equal, and tells the place.
pub(crate) fn same_at<T: PartialEq + Debug + Copy>(
    rt: &impl Abort,
    got: T,
    want: T,
    place: &impl Debug,
) {
    assert_eq!(rt; got, want, "at {place:?}");
}

/// Fails the test unless this holds, and tells the place.
pub(crate) fn holds_at(rt: &impl Abort, fact: bool, place: &impl Debug) {
    assert!(rt; fact, "at {place:?}");
}
