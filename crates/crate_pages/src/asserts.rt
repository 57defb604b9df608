//! What a test asserts beside the lines that stand on a page, as a function that is proved once.
use std::fmt::Debug;
use std::process::Abort;

/// Fails the test unless both are equal.
pub(crate) fn same<T: PartialEq + Debug + Copy>(rt: &impl Abort, got: T, want: T) {
    assert_eq!(rt; got, want);
}
