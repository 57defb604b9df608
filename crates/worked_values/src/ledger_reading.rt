//! The reader of ledgers, and why it refuses a text.
use crate::asserts::{same, same_at};
use ledger_laws::back::read_back;
use ledger_text::{LedgerRefused, read};
use res_ledger::text;
use std::alloc::Global;
use std::process::Abort;
use std::test::Fail;

/// Fails the test unless each of the texts is refused so.
fn are_refused(rt: &impl Abort, alloc: Global, why: LedgerRefused, texts: &[&str]) {
    for text in texts {
        let refused = read(alloc, text.as_bytes()).err();
        same_at(rt, refused, Some(why), text);
    }
}

/// Fails the test unless the text is read as a ledger of so many events, which has it as its text.
fn is_read_back(rt: &impl Abort, alloc: Global, written: &[u8], count: u64) -> Result<(), Fail> {
    let ledger = read(alloc, written)?;
    same(rt, ledger.len(), count);
    same(rt, text(alloc, &ledger)?.as_slice(), written);
    Ok(())
}

#[test]
fn reads_back_what_was_written(rt: HostRuntime) -> Result<(), Fail> {
    let written = b"ledger 8\nouter open 1 0\nouter acquire 0 1\nouter lease 4294967295 1\n\
        outer close 0 errored\n10 acquire 4294967295 0\n10 final 0 succeeded ok\n\
        10 final 4294967295 errored fault\n10 cancel 4294967295 canceled\n";
    is_read_back(&rt, rt.alloc(), written, 8)?;
    is_read_back(&rt, rt.alloc(), b"ledger 0\n", 0)?;
    Ok(())
}

#[test]
fn reads_a_ledger_back(rt: HostRuntime) -> Result<(), Fail> {
    let alloc = rt.alloc();
    let written = b"ledger 2\nouter close 0 canceled\n7 final 3 errored fault\n";
    let back = read_back(alloc, &read(alloc, written)?)?;
    same(&rt, back.len(), 2);
    same(&rt, text(alloc, &back)?.as_slice(), written);
    Ok(())
}

#[test]
fn says_why_a_text_is_refused(rt: HostRuntime) {
    let alloc = rt.alloc();
    let bad_heads = [
        "",
        "ledger 0",
        "ledger 00\n",
        "ledger +1\n0 close 0 succeeded\n",
        "ledger 18446744073709551616\n",
    ];
    are_refused(&rt, alloc, LedgerRefused::BadLine(0), &bad_heads);
    let bad_events = [
        "ledger 1\n\n",
        "ledger 1\n0 close 0 succeeded",
        "ledger 1\n0  close 0 succeeded\n",
        "ledger 1\n0 close 0 succeeded \n",
        "ledger 1\n0 close 4294967296 succeeded\n",
        "ledger 1\n0 shut 0\n",
    ];
    are_refused(&rt, alloc, LedgerRefused::BadLine(1), &bad_events);
}

#[test]
fn refuses_a_line_without_its_exit(rt: HostRuntime) {
    let alloc = rt.alloc();
    let bad_events = [
        "ledger 1\n0 close 0\n",
        "ledger 1\n0 cancel 0\n",
        "ledger 1\n0 final 0 ok\n",
        "ledger 1\n0 close 0 failed\n",
    ];
    are_refused(&rt, alloc, LedgerRefused::BadLine(1), &bad_events);
}

#[test]
fn looks_at_the_lines_before_their_number(rt: HostRuntime) {
    let alloc = rt.alloc();
    let late = "ledger 9\n0 close 0 succeeded\n0 final 0 succeeded maybe\n0 close 0 succeeded\n";
    are_refused(&rt, alloc, LedgerRefused::BadLine(2), &[late]);
    let short = "ledger 2\n0 close 0 succeeded\n";
    are_refused(&rt, alloc, LedgerRefused::BadCount(2, 1), &[short]);
    let long = "ledger 0\n0 close 0 succeeded\n";
    are_refused(&rt, alloc, LedgerRefused::BadCount(0, 1), &[long]);
}
