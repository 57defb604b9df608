//! Assertions that the tests share.
use res_ledger::{Ledger, text};
use std::alloc::{AllocError, Global};
use std::fmt::Debug;
use std::process::Abort;

/// Fails the test unless both are equal.
pub(crate) fn same<T: PartialEq + Debug + Copy>(rt: &impl Abort, got: T, want: T) {
    assert_eq!(rt; got, want);
}

/// Fails the test unless this holds.
pub(crate) fn holds(rt: &impl Abort, fact: bool) {
    assert!(rt; fact);
}

/// Fails the test unless the ledger is printed so.
pub(crate) fn prints(
    rt: &impl Abort,
    alloc: Global,
    ledger: &Ledger,
    want: &[u8],
) -> Result<(), AllocError> {
    same(rt, text(alloc, ledger)?.as_slice(), want);
    Ok(())
}
