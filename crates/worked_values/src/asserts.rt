//! Assertions as functions: a test that calls them is proved much sooner than one that holds them.
use chunk_core::{Load, render};
use std::alloc::{AllocError, Global};
use std::fmt;
use std::fmt::{Debug, Display};
use std::process::Abort;

/// Fails the test unless both are equal.
pub(crate) fn same<T: PartialEq + Debug + Copy>(rt: &impl Abort, got: T, want: T) {
    assert_eq!(rt; got, want);
}

/// Fails the test unless both are equal, and tells the case.
pub(crate) fn same_at<T: PartialEq + Debug + Copy>(
    rt: &impl Abort,
    got: T,
    want: T,
    place: &impl Debug,
) {
    assert_eq!(rt; got, want, "at {place:?}");
}

/// Fails the test unless this holds.
pub(crate) fn holds(rt: &impl Abort, fact: bool) {
    assert!(rt; fact);
}

/// Fails the test unless the value prints so.
pub(crate) fn prints(
    rt: &impl Abort,
    alloc: Global,
    value: &impl Display,
    text: &str,
) -> Result<(), fmt::Error> {
    let printed = format!(in alloc; "{value}")?;
    same(rt, printed.as_str(), text);
    Ok(())
}

/// Fails the test unless the load renders so.
pub(crate) fn renders(
    rt: &impl Abort,
    alloc: Global,
    load: &Load,
    text: &[u8],
) -> Result<(), AllocError> {
    let rendered = render(alloc, load)?;
    same(rt, rendered.as_slice(), text);
    Ok(())
}
