//! Writes to the output that fail, one at a time.
use crate::asserts::{holds_at, same_at};
use crate::teeing::call_of;
use flume_cli::Status;
use std::alloc::{AllocError, Global};
use std::process::Abort;
use std::sync::Wait;
use std::test::Fail;
use std::thread::Threads;
use worked_calls::outside::{Case, run};

/// Whether one of both texts begins with this.
fn is_front(out: &[u8], wholes: [&str; 2]) -> bool {
    let [first, second] = wholes;
    first.as_bytes().starts_with(out) || second.as_bytes().starts_with(out)
}

/// Fails the test unless what these words print where this write fails is a proper front of one of
/// these outputs, which are as long: whether there was such a write.
fn breaks_off(
    rt: &(impl Abort + Threads + Wait + Sync),
    alloc: Global,
    words: &[&str],
    wholes: [&str; 2],
    nth: u32,
) -> Result<bool, AllocError> {
    let fails = [nth];
    let case = Case {
        out_fails: &fails,
        ..call_of(words, b"ab\ncd\n")
    };
    let seen = run(rt, alloc, &case)?;
    let out = seen.out.written();
    holds_at(rt, seen.returned(), &words);
    same_at(rt, seen.err.written(), b"", &words);
    holds_at(rt, is_front(out, wholes), &words);
    let len = wholes[0].len();
    if seen.report.status == Status::Good {
        same_at(rt, out.len(), len, &words);
        return Ok(false);
    }
    same_at(rt, seen.report.status, Status::NotWritten, &words);
    holds_at(rt, out.len() < len, &words);
    Ok(true)
}

/// Each write fails in turn: how many there are.
fn breaks_anywhere(
    rt: &(impl Abort + Threads + Wait + Sync),
    alloc: Global,
    words: &[&str],
    wholes: [&str; 2],
) -> Result<u32, AllocError> {
    for nth in 1..=16u32 {
        if !breaks_off(rt, alloc, words, wholes, nth)? {
            return Ok(nth);
        }
    }
    Ok(0)
}

/// The frames of both branches stand in either order.
#[test]
fn each_write_of_a_tee_fails(rt: HostRuntime) -> Result<(), Fail> {
    let alloc = rt.alloc();
    let words = ["tee", "a", "lines", "lines|count"];
    let wholes = [
        "0 6\nab\ncd\n\n1 2\n2\n\nend outer done\nend 0 done\nend 1 done\nledger 3\n\
            outer acquire 0 0\nouter close 0 succeeded\nouter final 0 succeeded ok\n",
        "1 2\n2\n\n0 6\nab\ncd\n\nend outer done\nend 0 done\nend 1 done\nledger 3\n\
            outer acquire 0 0\nouter close 0 succeeded\nouter final 0 succeeded ok\n",
    ];
    holds_at(
        &rt,
        2 < breaks_anywhere(&rt, alloc, &words, wholes)?,
        &"writes",
    );
    Ok(())
}

#[test]
fn each_write_of_an_evaluation_fails(rt: HostRuntime) -> Result<(), Fail> {
    let alloc = rt.alloc();
    let words = ["eval", "--group", "1", "a", "lines"];
    let whole = "0 3\nab\n\n0 3\ncd\n\nend 0 done\nledger 3\n0 acquire 0 0\n\
        0 close 0 succeeded\n0 final 0 succeeded ok\n";
    holds_at(
        &rt,
        2 < breaks_anywhere(&rt, alloc, &words, [whole, whole])?,
        &"writes",
    );
    Ok(())
}
