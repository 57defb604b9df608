//! What the words ask for, and words that mean nothing.
use crate::asserts::same_at;
use flume_cli::Status;
use std::alloc::{AllocError, Global};
use std::process::Abort;
use std::sync::Wait;
use std::test::Fail;
use std::thread::Threads;
use worked_calls::outside::{Case, cat_of, run};

/// These words, over a file `a` that holds `hello` and a line end.
fn said<'a>(words: &'a [&'a str]) -> Case<'a> {
    Case {
        words,
        ..cat_of(b"hello\n")
    }
}

/// Fails the test unless the call ends so though standard error can't be written.
fn end_untold(
    rt: &(impl Abort + Threads + Wait + Sync),
    alloc: Global,
    words: &[&str],
    status: Status,
    faults: u64,
) -> Result<(), AllocError> {
    let case = Case {
        err_fails: &[1],
        ..said(words)
    };
    let seen = run(rt, alloc, &case)?;
    same_at(rt, seen.report.status, status, &words);
    same_at(rt, seen.err.faults(), faults, &words);
    same_at(rt, seen.err.written(), b"", &words);
    Ok(())
}

#[test]
fn failing_standard_error_changes_no_status(rt: HostRuntime) -> Result<(), Fail> {
    end_untold(&rt, rt.alloc(), &["cat"], Status::BadWords, 1)?;
    end_untold(&rt, rt.alloc(), &["cat", "b"], Status::Faulty, 0)?;
    end_untold(&rt, rt.alloc(), &["cat", "a"], Status::Good, 0)?;
    Ok(())
}
