//! What is seen where memory is wanting. Run these with each allocation failing in turn; with ample memory each call is whole.
use crate::asserts::{holds_at, same_at};
use crate::evaluating::DONE;
use crate::teeing::call_of;
use flume_cli::Status;
use std::alloc::Global;
use std::process::Abort;
use std::sync::Wait;
use std::test::Fail;
use std::thread::Threads;
use worked_calls::outside::{Aftermath, run};

/// Fails the test unless what the status says is what stands on the two outputs: these frames and the tail,
/// or a front of the frames where memory was wanting.
fn is_told(rt: &impl Abort, seen: &Aftermath, frames: &str, tail: &str) {
    let out = seen.out.written();
    let is_front = frames.as_bytes().starts_with(out);
    holds_at(rt, seen.returned(), &frames);
    match seen.report.status {
        Status::Memory => {
            same_at(rt, seen.err.written(), b"flume: out of memory\n", &frames);
            holds_at(rt, is_front, &frames);
        }
        Status::NotWritten => {
            same_at(rt, seen.out.starved(), 1, &frames);
            holds_at(rt, is_front, &frames);
        }
        status => {
            same_at(rt, status, Status::Good, &frames);
            is_whole(rt, out, frames, tail);
        }
    }
}

/// Fails the test unless the output is these frames and the tail.
fn is_whole(rt: &impl Abort, out: &[u8], frames: &str, tail: &str) {
    holds_at(rt, out.starts_with(frames.as_bytes()), &frames);
    holds_at(rt, out.ends_with(tail.as_bytes()), &frames);
    same_at(rt, out.len(), frames.len() + tail.len(), &frames);
}

/// Fails the test unless a call with these words, over two lines, is told as it went.
fn tells(
    rt: &(impl Abort + Threads + Wait + Sync),
    alloc: Global,
    words: &[&str],
    frames: &str,
    tail: &str,
) {
    if let Ok(seen) = run(rt, alloc, &call_of(words, b"ab\ncd\n")) {
        is_told(rt, &seen, frames, tail);
    }
}

#[test]
fn wanting_memory_of_a_tee_is_told(rt: HostRuntime) -> Result<(), Fail> {
    let words = ["tee", "--chunk", "3", "a", "lines|upper", "lines|filter x"];
    let tail = "end outer done\nend 0 done\nend 1 done\nledger 3\nouter acquire 0 0\n\
        outer close 0 succeeded\nouter final 0 succeeded ok\n";
    tells(&rt, rt.alloc(), &words, "0 3\nAB\n\n0 3\nCD\n\n", tail);
    Ok(())
}

#[test]
fn wanting_memory_of_an_evaluation_is_told(rt: HostRuntime) -> Result<(), Fail> {
    let words = ["eval", "--jobs", "2", "--group", "1", "a", "lines|number"];
    tells(&rt, rt.alloc(), &words, "0 5\n0 ab\n\n0 5\n0 cd\n\n", DONE);
    Ok(())
}
