//! Evaluations of which nothing fails.
use crate::teeing::{call_of, joined, printed};
use flume_cli::Status;
use std::alloc::{AllocError, Global};
use std::process::Abort;
use std::sync::Wait;
use std::test::Fail;
use std::thread::Threads;
use worked_calls::outside::run;

/// The tail of an evaluation that is done.
pub(crate) const DONE: &str =
    "end 0 done\nledger 3\n0 acquire 0 0\n0 close 0 succeeded\n0 final 0 succeeded ok\n";

/// Fails the test unless these words print these frames, and all is done.
pub(crate) fn evaluates(
    rt: &(impl Abort + Threads + Wait + Sync),
    alloc: Global,
    words: &[&str],
    file: &[u8],
    frames: &str,
) -> Result<(), AllocError> {
    let seen = run(rt, alloc, &call_of(words, file))?;
    let text = joined(alloc, &[frames, DONE])?;
    printed(rt, &seen, Status::Good, &text, words);
    Ok(())
}

/// Groups of two lines, each with numbers of its own, whatever the number of hands.
fn by_jobs(
    rt: &(impl Abort + Threads + Wait + Sync),
    alloc: Global,
    jobs: &str,
) -> Result<(), AllocError> {
    let two = [
        "eval",
        "--jobs",
        jobs,
        "--group",
        "2",
        "a",
        "lines|filter x|number",
    ];
    let frames = "0 5\n0 x1\n\n0 5\n0 x2\n\n";
    evaluates(rt, alloc, &two, b"x1\ny\nx2\n", frames)?;
    let one = ["eval", "--jobs", jobs, "--group", "1", "a", "upper"];
    let frames = "0 2\nA\n\n0 2\nB\n\n0 2\nC\n\n";
    evaluates(rt, alloc, &one, b"a\nb\nc", frames)?;
    let all = ["eval", "--jobs", jobs, "a", "lines|count"];
    evaluates(rt, alloc, &all, b"a\nb\nc", "0 2\n3\n\n")?;
    evaluates(rt, alloc, &all, b"", "")
}

#[test]
fn groups_come_out_in_order(rt: HostRuntime) -> Result<(), Fail> {
    let alloc = rt.alloc();
    by_jobs(&rt, alloc, "1")?;
    by_jobs(&rt, alloc, "2")?;
    by_jobs(&rt, alloc, "3")?;
    by_jobs(&rt, alloc, "64")?;
    Ok(())
}

/// A group of which nothing comes has no frame.
#[test]
fn empty_results_have_no_frame(rt: HostRuntime) -> Result<(), Fail> {
    let alloc = rt.alloc();
    let words = ["eval", "--group", "1", "a", "lines|filter x"];
    evaluates(&rt, alloc, &words, b"y\nx\ny\nx\n", "0 2\nx\n\n0 2\nx\n\n")?;
    Ok(())
}
