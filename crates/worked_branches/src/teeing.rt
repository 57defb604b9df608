//! Branches of a file of which nothing fails but a branch.
use crate::asserts::{holds_at, same_at};
use flume_cli::Status;
use std::alloc::{AllocError, Global};
use std::process::Abort;
use std::sync::Wait;
use std::test::Fail;
use std::thread::Threads;
use worked_calls::outside::{Aftermath, Case, cat_of, run};

/// The ledger of a tee that read its file.
pub(crate) const READ: &str =
    "ledger 3\nouter acquire 0 0\nouter close 0 succeeded\nouter final 0 succeeded ok\n";

/// A call with these words over the file `a`.
pub(crate) fn call_of<'a>(words: &'a [&'a str], file: &'a [u8]) -> Case<'a> {
    Case {
        words,
        ..cat_of(file)
    }
}

/// All of these texts, one behind the other.
pub(crate) fn joined(alloc: Global, texts: &[&str]) -> Result<Vec<u8>, AllocError> {
    let mut bytes = Vec::new(alloc);
    for text in texts {
        bytes.extend_from_slice(text.as_bytes())?;
    }
    Ok(bytes)
}

/// Fails the test unless the call printed this and the device came back.
pub(crate) fn printed(
    rt: &impl Abort,
    seen: &Aftermath,
    status: Status,
    text: &[u8],
    place: &[&str],
) {
    same_at(rt, seen.report.status, status, &place);
    same_at(rt, seen.out.written(), text, &place);
    same_at(rt, seen.err.written(), b"", &place);
    holds_at(rt, seen.returned(), &place);
}

/// Fails the test unless a tee of these words prints these frames, in any order, and all is done.
fn tees(
    rt: &(impl Abort + Threads + Wait + Sync),
    alloc: Global,
    words: &[&str],
    file: &[u8],
    frames: [&str; 2],
    ends: &str,
) -> Result<(), AllocError> {
    let seen = run(rt, alloc, &call_of(words, file))?;
    let [first, second] = frames;
    let in_order = joined(alloc, &[first, second, ends, READ])?;
    let turned = joined(alloc, &[second, first, ends, READ])?;
    if seen.out.written() == turned.as_slice() {
        printed(rt, &seen, Status::Good, &turned, words);
    } else {
        printed(rt, &seen, Status::Good, &in_order, words);
    }
    Ok(())
}

/// Each branch prints what its steps give, under its own number.
#[test]
fn branches_print_what_their_steps_give(rt: HostRuntime) -> Result<(), Fail> {
    let alloc = rt.alloc();
    let done = "end outer done\nend 0 done\nend 1 done\n";
    let rows = ["tee", "a", "lines|count", "utf8|lines|filter d"];
    tees(
        &rt,
        alloc,
        &rows,
        b"ab\ncd\n",
        ["0 2\n2\n\n", "1 3\ncd\n\n"],
        done,
    )?;
    let plain = ["tee", "a", "", "hex"];
    tees(
        &rt,
        alloc,
        &plain,
        b"ab",
        ["0 2\nab\n", "1 5\n6162\n\n"],
        done,
    )?;
    tees(&rt, alloc, &plain, b"", ["", ""], done)?;
    Ok(())
}

/// A branch whose steps want no more still ends with the file.
#[test]
fn branches_that_want_no_more_are_done(rt: HostRuntime) -> Result<(), Fail> {
    let alloc = rt.alloc();
    let done = "end outer done\nend 0 done\nend 1 done\n";
    let none = ["tee", "--chunk", "1", "a", "lines|take 0", "lines|count"];
    tees(&rt, alloc, &none, b"ab\ncd\nef\n", ["", "1 2\n3\n\n"], done)?;
    let one = ["tee", "--chunk", "1", "a", "lines|take 1", "lines|count"];
    tees(
        &rt,
        alloc,
        &one,
        b"ab\ncd\nef\n",
        ["0 3\nab\n\n", "1 2\n3\n\n"],
        done,
    )?;
    Ok(())
}

/// Fails the test unless nothing is done for these words.
fn is_refused(
    rt: &(impl Abort + Threads + Wait + Sync),
    alloc: Global,
    words: &[&str],
) -> Result<(), AllocError> {
    let seen = run(rt, alloc, &call_of(words, b"ab\n"))?;
    let line = "flume: bad command line\n";
    holds_at(rt, seen.is_idle(Status::BadWords, line), &words);
    Ok(())
}

/// A word of steps that means nothing: no device is made.
#[test]
fn words_that_mean_no_chain(rt: HostRuntime) -> Result<(), Fail> {
    let alloc = rt.alloc();
    is_refused(&rt, alloc, &["tee", "a", "lines", "field 0"])?;
    is_refused(&rt, alloc, &["tee", "a", "lines", "no step"])?;
    is_refused(&rt, alloc, &["eval", "a", "lookup t 0"])?;
    Ok(())
}

/// Fails the test unless these words print this front and have so many ends, of which one is a fault.
fn is_faulty(
    rt: &(impl Abort + Threads + Wait + Sync),
    alloc: Global,
    words: &[&str],
    file: &[u8],
    front: &str,
    ends: usize,
) -> Result<(), AllocError> {
    let seen = run(rt, alloc, &call_of(words, file))?;
    same_at(rt, seen.report.status, Status::Faulty, &words);
    same_at(rt, seen.report.ends.len(), ends, &words);
    holds_at(rt, seen.out.written().starts_with(front.as_bytes()), &words);
    holds_at(rt, seen.returned(), &words);
    Ok(())
}

/// A branch fails: the output has what was printed, and its end names the fault. The last one fails at once, and what is
/// published then fills its queue.
#[test]
fn a_branch_with_a_fault(rt: HostRuntime) -> Result<(), Fail> {
    let alloc = rt.alloc();
    let one = ["tee", "a", "utf8"];
    is_faulty(&rt, alloc, &one, b"ab\xFFcd", "0 2\nab\nend outer ", 2)?;
    let two = ["tee", "a", "lines|count", "csv|field 1"];
    is_faulty(&rt, alloc, &two, b"ab\n", "", 3)?;
    let full = ["tee", "--chunk", "1", "a", "lines|count", "utf8"];
    is_faulty(&rt, alloc, &full, &[0xFF; 200], "", 3)?;
    Ok(())
}
