//! As many loads and groups as fill every queue.
use crate::asserts::{holds_at, same_at};
use crate::evaluating::{DONE, evaluates};
use crate::teeing::{READ, call_of, joined, printed};
use flume_cli::Status;
use std::alloc::{AllocError, Global};
use std::process::Abort;
use std::sync::Wait;
use std::test::Fail;
use std::thread::Threads;
use worked_calls::outside::run;

/// So many lines `x`.
pub(crate) fn lines_of(alloc: Global, count: usize) -> Result<Vec<u8>, AllocError> {
    let mut bytes = Vec::new(alloc);
    for _ in 0..count {
        bytes.extend_from_slice(b"x\n")?;
    }
    Ok(bytes)
}

/// A file comes byte by byte: the queues of both branches are full many times.
#[test]
fn queues_of_branches_fill(rt: HostRuntime) -> Result<(), Fail> {
    let alloc = rt.alloc();
    let file = lines_of(alloc, 2000)?;
    let words = [
        "tee",
        "--chunk",
        "1",
        "a",
        "lines|count",
        "lines|filter y",
        "lines|take 1",
    ];
    let seen = run(&rt, alloc, &call_of(&words, &file))?;
    let tail = "end outer done\nend 0 done\nend 1 done\nend 2 done\n";
    let (count, line) = ("0 5\n2000\n\n", "2 2\nx\n\n");
    let turned = joined(alloc, &[line, count, tail, READ])?;
    let whole = joined(alloc, &[count, line, tail, READ])?;
    if seen.out.written() == turned.as_slice() {
        printed(&rt, &seen, Status::Good, &turned, &words);
    } else {
        printed(&rt, &seen, Status::Good, &whole, &words);
    }
    Ok(())
}

/// Each line is a group of its own, and printed as a frame.
fn evaluates_lines(
    rt: &(impl Abort + Threads + Wait + Sync),
    alloc: Global,
    words: &[&str],
    count: usize,
) -> Result<(), AllocError> {
    let seen = run(rt, alloc, &call_of(words, &lines_of(alloc, count)?))?;
    let mut whole = Vec::new(alloc);
    for _ in 0..count {
        whole.extend_from_slice(b"0 2\nx\n\n")?;
    }
    whole.extend_from_slice(DONE.as_bytes())?;
    holds_at(rt, seen.out.written() == whole.as_slice(), &words);
    same_at(rt, seen.report.status, Status::Good, &words);
    Ok(())
}

#[test]
fn groups_of_one_line_are_dealt(rt: HostRuntime) -> Result<(), Fail> {
    let alloc = rt.alloc();
    let one = ["eval", "--jobs", "1", "--group", "1", "a", "lines"];
    evaluates_lines(&rt, alloc, &one, 200)?;
    let many = ["eval", "--jobs", "64", "--group", "1", "a", "lines"];
    evaluates_lines(&rt, alloc, &many, 200)?;
    Ok(())
}

/// One group has all lines of a long file, or all but one.
#[test]
fn groups_of_many_lines_are_dealt(rt: HostRuntime) -> Result<(), Fail> {
    let alloc = rt.alloc();
    let file = lines_of(alloc, 1000)?;
    let all = ["eval", "--group", "1000", "a", "lines|count"];
    evaluates(&rt, alloc, &all, &file, "0 5\n1000\n\n")?;
    let but_one = ["eval", "--group", "999", "a", "lines|count"];
    evaluates(&rt, alloc, &but_one, &file, "0 4\n999\n\n0 2\n1\n\n")?;
    Ok(())
}
