//! Runs of a description over a file or an output of which a call fails.
use crate::runs::{
    Alike, Row, Wanted, at_fault, each_leaves, ending_well, is_not_written, leaves_at,
};
use device_port::Act;
use flume_cli::Status;
use std::alloc::{AllocError, Global};
use std::process::Abort;
use std::sync::Wait;
use std::test::Fail;
use std::thread::Threads;
use worked_calls::outside::{Case, run, run_of};
use worked_calls::reports::{CAUGHT, DONE, faulty};

/// Fails the test unless lines of which this read fails leave these frames.
fn read_fails(
    rt: &(impl Abort + Threads + Wait + Sync),
    alloc: Global,
    nth: u32,
    frames: &[u8],
) -> Result<(), AllocError> {
    let tail = faulty(alloc, "read")?;
    let case = Case {
        trips: &[(Act::Read, nth)],
        ..run_of(
            "chunk = 3\n[[stream]]\npath = 'a'\nsteps = ['lines']\n",
            b"a\nbcd",
        )
    };
    leaves_at(rt, alloc, &case, at_fault(frames, tail.as_str()), &nth)
}

/// What was read before a failure comes out, and an unfinished line doesn't.
#[test]
fn failed_read_ends_the_stream(rt: HostRuntime) -> Result<(), Fail> {
    read_fails(&rt, rt.alloc(), 1, b"")?;
    read_fails(&rt, rt.alloc(), 2, b"0 2\na\n\n")?;
    read_fails(&rt, rt.alloc(), 3, b"0 2\na\n\n")?;
    Ok(())
}

#[test]
fn text_stands_in_for_a_fault(rt: HostRuntime) -> Result<(), Fail> {
    const ROWS: &[Row<'static>] = &[
        (
            "steps = ['lines']\non_fault = 'lost'",
            b"ab\ncd",
            b"0 3\nab\n\n0 5\nlost\n\n",
        ),
        (
            "steps = ['lines']\non_fault = ''",
            b"ab\ncd",
            b"0 3\nab\n\n0 1\n\n\n",
        ),
        (
            "steps = []\non_fault = 'lost'",
            b"ab",
            b"0 2\nab\n0 4\nlost\n",
        ),
        ("steps = []\non_fault = ''", b"ab", b"0 2\nab\n"),
        (
            "steps = ['utf8', 'upper']\non_fault = 'lost'",
            b"ab\xFF",
            b"0 2\nAB\n0 4\nlost\n",
        ),
    ];
    let each = Alike {
        trips: &[(Act::Read, 2)],
        tail: CAUGHT,
        ..ending_well("[[stream]]\npath = 'a'\n@\n")
    };
    each_leaves(&rt, rt.alloc(), &each, ROWS)?;
    Ok(())
}

/// Fails the test unless this description leaves this, where its file's close fails.
fn close_fails(
    rt: &(impl Abort + Threads + Wait + Sync),
    alloc: Global,
    text: &str,
    wanted: Wanted<'_>,
) -> Result<(), AllocError> {
    let case = Case {
        trips: &[(Act::Close, 1)],
        ..run_of(text, b"a\xFF")
    };
    leaves_at(rt, alloc, &case, wanted, &text)
}

/// A close that fails is told where nothing else went wrong, also behind a fault that was caught.
#[test]
fn failed_close_of_a_stream(rt: HostRuntime) -> Result<(), Fail> {
    let unclean = Wanted {
        status: Status::Unclean,
        frames: b"0 2\na\xFF\n",
        tail: "end outer done\nend 0 done\nledger 6\n\
            outer lease 0 0\nouter close 0 succeeded\n0 acquire 0 0\n0 close 0 succeeded\n\
            0 final 0 succeeded fault\n0 cancel 0 succeeded\n",
    };
    close_fails(&rt, rt.alloc(), "[[stream]]\npath = 'a'\n", unclean)?;
    let both = at_fault(
        b"0 1\na\n",
        "end outer done\nend 0 fault malformed\nledger 6\n\
        outer lease 0 0\nouter close 0 succeeded\n0 acquire 0 0\n0 close 0 errored\n\
        0 final 0 errored fault\n0 cancel 0 errored\n",
    );
    let text = "[[stream]]\npath = 'a'\nsteps = ['utf8']\n";
    close_fails(&rt, rt.alloc(), text, both)?;
    let caught = Wanted {
        status: Status::Unclean,
        frames: b"0 1\na\n0 4\nlost\n",
        tail: "end outer done\nend 0 done\nledger 8\n\
            outer lease 0 0\nouter close 0 succeeded\n0 open 1 0\n0 acquire 0 1\n\
            0 close 1 errored\n0 final 0 errored fault\n0 close 0 succeeded\n\
            0 cancel 0 succeeded\n",
    };
    let text = "[[stream]]\npath = 'a'\nsteps = ['utf8']\non_fault = 'lost'\n";
    close_fails(&rt, rt.alloc(), text, caught)?;
    Ok(())
}

/// Fails the test unless this write fails behind this output, and one of these is reported.
fn write_fails(
    rt: &(impl Abort + Threads + Wait + Sync),
    alloc: Global,
    nth: u32,
    out: &[u8],
    tails: &[&str],
) -> Result<(), AllocError> {
    let case = Case {
        trips: &[(Act::Read, 2)],
        out_fails: &[nth],
        ..run_of(
            "[[stream]]\npath = 'a'\nsteps = ['lines']\non_fault = 'lost'\n",
            b"ab\ncd",
        )
    };
    let seen = run(rt, alloc, &case)?;
    is_not_written(rt, alloc, &seen, out, tails)
}

/// Fails the test unless each of the three writes fails, where a stream that gave all before its end was
/// halted is told by the last of these.
fn each_write_fails(
    rt: &(impl Abort + Threads + Wait + Sync),
    alloc: Global,
    last: &str,
) -> Result<(), AllocError> {
    let first = "end outer done\nend 0 halted\nledger 7\n\
        outer lease 0 0\nouter close 0 succeeded\n0 open 1 0\n0 acquire 0 1\n0 close 0 canceled\n\
        0 final 0 canceled ok\n0 cancel 0 canceled\n";
    let second = "end outer done\nend 0 halted\nledger 8\n\
        outer lease 0 0\nouter close 0 succeeded\n0 open 1 0\n0 acquire 0 1\n0 close 1 errored\n\
        0 final 0 errored ok\n0 close 0 canceled\n0 cancel 0 canceled\n";
    let frames = b"0 3\nab\n\n0 5\nlost\n\n";
    write_fails(rt, alloc, 1, b"", &[first, second, last])?;
    write_fails(rt, alloc, 2, b"0 3\nab\n\n", &[second, last])?;
    write_fails(rt, alloc, 3, frames, &[CAUGHT])
}

/// Two frames and the tail are three writes. Where one of these fails nothing is written after it. A stream
/// of which a frame is missing is halted, wherever it had come to by then.
#[test]
fn failed_write_ends_the_run(rt: HostRuntime) -> Result<(), Fail> {
    let last = CAUGHT.replace(rt.alloc(), "end 0 done", "end 0 halted")?;
    each_write_fails(&rt, rt.alloc(), last.as_str())?;
    Ok(())
}

/// The tail is the only write of a run without frames.
#[test]
fn failed_write_of_the_tail(rt: HostRuntime) -> Result<(), Fail> {
    let case = Case {
        out_fails: &[1],
        ..run_of("[[stream]]\npath = 'a'\nsteps = ['lines']\n", b"")
    };
    let seen = run(&rt, rt.alloc(), &case)?;
    is_not_written(&rt, rt.alloc(), &seen, b"", &[DONE])?;
    Ok(())
}
