//! Runs of streams with two sources.
use crate::runs::{at_fault, good, leaves, leaves_at};
use device_port::Act;
use std::alloc::{AllocError, Global};
use std::process::Abort;
use std::sync::Wait;
use std::test::Fail;
use std::thread::Threads;
use worked_calls::outside::{Case, run_of};

/// The tail of a run whose one stream ended with this fault when both its sources were open.
fn both_faulty(alloc: Global, fault: &str) -> Result<String, AllocError> {
    format!(in alloc;
        "end outer done\nend 0 fault {fault}\nledger 8\n\
        outer lease 0 0\nouter close 0 succeeded\n0 acquire 0 0\n0 acquire 1 0\n\
        0 close 0 errored\n0 final 1 errored ok\n0 final 0 errored ok\n0 cancel 0 errored\n"
    )
}

/// Fails the test unless the first read of the file at this path fails behind these frames.
fn side_fails(
    rt: &(impl Abort + Threads + Wait + Sync),
    alloc: Global,
    text: &str,
    path: &str,
    frames: &[u8],
) -> Result<(), AllocError> {
    let tail = both_faulty(alloc, "read")?;
    let case = Case {
        others: &[("b", b"y\n")],
        other_trips: &[(path, Act::Read, 1)],
        ..run_of(text, b"x\n")
    };
    let wanted = at_fault(frames, tail.as_str());
    leaves_at(rt, alloc, &case, wanted, &(text, path))
}

/// A side that fails ends the stream, and what was whole before comes out.
#[test]
fn side_that_fails(rt: HostRuntime) -> Result<(), Fail> {
    let zip = "[[stream]]\npath = 'a'\nsteps = ['lines']\nwith = 'b'\njoin = 'zip'\n";
    side_fails(&rt, rt.alloc(), zip, "b", b"")?;
    side_fails(&rt, rt.alloc(), zip, "a", b"")?;
    let append = "[[stream]]\npath = 'a'\nsteps = ['lines']\nwith = 'b'\njoin = 'append'\n";
    side_fails(&rt, rt.alloc(), append, "b", b"0 2\nx\n\n")?;
    side_fails(&rt, rt.alloc(), append, "a", b"")?;
    Ok(())
}

/// The text stands in for what both sides would have given, as a row where they are paired.
#[test]
fn text_stands_in_for_both_sides(rt: HostRuntime) -> Result<(), Fail> {
    let tail = "end outer done\nend 0 done\nledger 10\n\
        outer lease 0 0\nouter close 0 succeeded\n0 open 1 0\n0 acquire 0 1\n0 acquire 1 1\n\
        0 close 1 errored\n0 final 1 errored ok\n0 final 0 errored ok\n0 close 0 succeeded\n\
        0 cancel 0 succeeded\n";
    let text = "[[stream]]\npath = 'a'\nsteps = ['lines']\nwith = 'b'\njoin = 'zip'\n\
        on_fault = 'a, b'\n";
    let case = Case {
        others: &[("b", b"y\n")],
        other_trips: &[("b", Act::Read, 2)],
        ..run_of(text, b"x\nz\n")
    };
    let frames = b"0 4\nx,y\n\n0 7\n\"a, b\"\n\n";
    leaves(&rt, rt.alloc(), &case, good(frames, tail))?;
    Ok(())
}
