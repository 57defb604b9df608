//! Audits of ledgers: what is printed and reported of them, and what is told where the ledger can't
//! be read, or the verdict can't be written.
use crate::asserts::{holds, holds_at, same, same_at};
use audit_run::LedgerRefusal;
use flume_cli::Status;
use std::alloc::{AllocError, Global};
use std::process::Abort;
use std::sync::Wait;
use std::test::Fail;
use std::thread::Threads;
use worked_calls::outside::{Aftermath, Case, cat_of, filled, run, run_from};
use worked_calls::slow::OneByOne;

/// One file is read whole and closed.
const KEPT: &str = "ledger 3\n0 acquire 0 0\n0 close 0 succeeded\n0 final 0 succeeded ok\n";

const UNREAD: &str = "flume: cannot read the ledger\n";

/// An audit of a text.
fn audit_of(text: &[u8]) -> Case<'_> {
    Case {
        words: &["audit"],
        source: text,
        ..cat_of(b"hello\n")
    }
}

/// Fails the test unless the audit of a ledger prints this, makes no device, and reports so many
/// events and no end.
fn is_told(
    rt: &(impl Abort + Threads + Wait + Sync),
    alloc: Global,
    text: &str,
    status: Status,
    line: &str,
    events: u64,
) -> Result<(), AllocError> {
    let seen = run(rt, alloc, &audit_of(text.as_bytes()))?;
    holds_at(rt, seen.printed(status, line.as_bytes()), &text);
    has_read(rt, &seen, events, &text);
    Ok(())
}

/// Fails the test unless the report has a ledger of so many events and nothing else.
fn has_read(rt: &impl Abort, seen: &Aftermath, events: u64, text: &str) {
    same_at(rt, seen.report.ledger.len(), events, &text);
    holds_at(rt, seen.report.ends.is_empty(), &text);
    holds_at(rt, seen.depot.made().is_empty(), &text);
}

/// The report has the ledger that was judged, also where a finalizer failed, which breaks no rule.
#[test]
fn ledgers_are_judged_and_reported(rt: HostRuntime) -> Result<(), Fail> {
    let alloc = rt.alloc();
    let faulty = "ledger 3\n0 acquire 0 0\n0 close 0 errored\n0 final 0 errored fault\n";
    let unended = "ledger 2\n0 acquire 0 0\n0 close 0 succeeded\n";
    let unknown = "ledger 1\n0 final 0 succeeded ok\n";
    is_told(&rt, alloc, KEPT, Status::Good, "audit ok\n", 3)?;
    is_told(&rt, alloc, faulty, Status::Good, "audit ok\n", 3)?;
    is_told(
        &rt,
        alloc,
        unended,
        Status::Broken,
        "audit end complete\n",
        2,
    )?;
    is_told(
        &rt,
        alloc,
        unknown,
        Status::Broken,
        "audit line 0 legal\n",
        1,
    )?;
    Ok(())
}

/// Fails the test unless nothing is printed or reported of the text, and standard error is told why.
fn is_refused(
    rt: &(impl Abort + Threads + Wait + Sync),
    alloc: Global,
    text: &[u8],
    refusal: LedgerRefusal,
    line: &str,
) -> Result<(), AllocError> {
    let seen = run(rt, alloc, &audit_of(text))?;
    holds_at(
        rt,
        seen.is_idle(Status::LedgerRefused(refusal), line),
        &line,
    );
    same_at(rt, seen.report.status.number(), 3, &line);
    Ok(())
}

#[test]
fn texts_are_refused(rt: HostRuntime) -> Result<(), Fail> {
    let alloc = rt.alloc();
    let misspelled = b"ledger 1\n0 shut 0\n";
    let short = b"ledger 2\n0 close 0 succeeded\n";
    let long = filled(alloc, &[("", 524_289)])?;
    let counts = LedgerRefusal::Count(2, 1);
    is_refused(
        &rt,
        alloc,
        misspelled,
        LedgerRefusal::Line(1),
        "flume: ledger refused line 1\n",
    )?;
    is_refused(
        &rt,
        alloc,
        short,
        counts,
        "flume: ledger refused count 2 1\n",
    )?;
    is_refused(
        &rt,
        alloc,
        &long,
        LedgerRefusal::Size,
        "flume: ledger refused size\n",
    )?;
    Ok(())
}

/// Nothing is read behind the first byte that is too many.
#[test]
fn too_long_a_ledger(rt: HostRuntime) -> Result<(), Fail> {
    let more = filled(rt.alloc(), &[("", 524_300)])?;
    let mut src = OneByOne::new(rt.alloc(), &more, None)?;
    let seen = run_from(&rt, rt.alloc(), &mut src, &audit_of(b""))?;
    same(
        &rt,
        seen.report.status,
        Status::LedgerRefused(LedgerRefusal::Size),
    );
    same(&rt, src.given(), 524_289);
    Ok(())
}

/// Fails the test unless the ledger is unread where this read of it fails.
fn is_unread(
    rt: &(impl Abort + Threads + Wait + Sync),
    alloc: Global,
    text: &[u8],
    nth: u32,
) -> Result<(), AllocError> {
    let case = Case {
        source_fails: &[nth],
        ..audit_of(text)
    };
    let seen = run(rt, alloc, &case)?;
    holds_at(rt, seen.is_idle(Status::LedgerUnread, UNREAD), &nth);
    same_at(rt, seen.report.status.number(), 6, &nth);
    Ok(())
}

/// Whatever was read before, and whether that is a ledger's text or not.
#[test]
fn ledger_that_fails(rt: HostRuntime) -> Result<(), Fail> {
    let alloc = rt.alloc();
    let long = filled(alloc, &[("", 10_000)])?;
    is_unread(&rt, alloc, KEPT.as_bytes(), 1)?;
    is_unread(&rt, alloc, KEPT.as_bytes(), 2)?;
    is_unread(&rt, alloc, &long, 3)?;
    is_unread(&rt, alloc, &long, 4)?;
    Ok(())
}

/// The ledger that was read is reported all the same.
#[test]
fn verdict_that_is_not_written(rt: HostRuntime) -> Result<(), Fail> {
    let case = Case {
        out_fails: &[1],
        ..audit_of(KEPT.as_bytes())
    };
    let seen = run(&rt, rt.alloc(), &case)?;
    holds(&rt, seen.printed(Status::NotWritten, b""));
    has_read(&rt, &seen, 3, KEPT);
    Ok(())
}

#[test]
fn longest_line_has_room(rt: HostRuntime) {
    let status = Status::LedgerRefused(LedgerRefusal::Count(u64::MAX, u64::MAX));
    same(
        &rt,
        status.line().as_str(),
        "flume: ledger refused count 18446744073709551615 18446744073709551615\n",
    );
}
