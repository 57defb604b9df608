//! As many streams as a description may have.
use crate::asserts::{holds_at, same_at};
use crate::reports::all_ended;
use chunk_core::How;
use flume_cli::Status;
use std::alloc::{AllocError, Global};
use std::process::Abort;
use std::sync::Wait;
use std::test::Fail;
use std::thread::Threads;
use worked_calls::outside::{Aftermath, run, run_of};

/// 1,024 streams of one file, of which so many may be open at a time.
fn crowd_of(alloc: Global, max_open: &str) -> Result<String, AllocError> {
    let mut text = format!(in alloc; "max_open = {max_open}\n")?;
    for _ in 0..1024 {
        text.push_str("[[stream]]\npath = 'a'\n")?;
    }
    Ok(text)
}

fn is_whole(rt: &impl Abort, max_open: &str, seen: &Aftermath) {
    let report = &seen.report;
    same_at(rt, report.status, Status::Good, &max_open);
    same_at(rt, report.ends.len(), 1025, &max_open);
    holds_at(rt, all_ended(report, How::Done, How::Done), &max_open);
    same_at(rt, report.ledger.len(), 5 * 1024 + 1, &max_open);
    same_at(rt, seen.depot.made().len(), 1024, &max_open);
    holds_at(rt, seen.returned(), &max_open);
}

fn runs_whole<R: Abort + Threads + Wait + Sync>(
    rt: &R,
    alloc: Global,
    max_open: &str,
) -> Result<(), AllocError> {
    let text = crowd_of(alloc, max_open)?;
    let seen = run(rt, alloc, &run_of(text.as_str(), b"x"))?;
    is_whole(rt, max_open, &seen);
    Ok(())
}

/// 1,024 streams of one file are each printed once and closed once, however many are open at a time.
#[test]
fn as_many_streams_as_may_be(rt: HostRuntime) -> Result<(), Fail> {
    runs_whole(&rt, rt.alloc(), "1")?;
    runs_whole(&rt, rt.alloc(), "64")?;
    Ok(())
}
