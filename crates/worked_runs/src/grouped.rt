//! Runs of groups of streams: sixteen of them, one behind the other, and calls on a group's table that fail.
use crate::asserts::holds;
use crate::runs::{Wanted, at_fault, leaves, leaves_at};
use crate::tables::KEYS;
use device_port::Act;
use flume_cli::Status;
use std::alloc::{AllocError, Global};
use std::process::Abort;
use std::sync::Wait;
use std::test::Fail;
use std::thread::Threads;
use worked_calls::outside::{Case, run, run_of};

/// A group with the table `t` of the file `t.csv`, and a stream whose keys are looked up in it.
const GROUP: &str = "version = 2\n[[group]]\n[[group.table]]\nname = 't'\npath = 't.csv'\n\
    [[group.stream]]\npath = 'a'\nsteps = ['csv', 'lookup t 0']\n";

const LOOKED_UP: &[u8] = b"0 7\nk,v\nz,\n\n";

/// Fails the test unless a run of which the first such call on the table fails leaves this.
fn call_fails(
    rt: &(impl Abort + Threads + Wait + Sync),
    alloc: Global,
    act: Act,
    wanted: Wanted<'_>,
) -> Result<(), AllocError> {
    let trips: [(&str, Act, u32); 1] = [("t.csv", act, 1)];
    let case = Case {
        others: &[("t.csv", b"k,v\n")],
        other_trips: &trips,
        ..run_of(GROUP, KEYS)
    };
    leaves_at(rt, alloc, &case, wanted, &act)
}

/// A call on the table of a group fails, the first of its act.
#[test]
fn calls_fail_on_a_table_of_a_group(rt: HostRuntime) -> Result<(), Fail> {
    let alloc = rt.alloc();
    let unopened =
        "end outer fault open\nend 0 halted\nledger 2\nouter open 1 0\nouter close 0 errored\n";
    call_fails(&rt, alloc, Act::Open, at_fault(b"", unopened))?;
    let unread = "end outer fault read\nend 0 halted\nledger 4\nouter open 1 0\n\
        outer acquire 0 1\nouter close 0 errored\nouter final 0 errored ok\n";
    call_fails(&rt, alloc, Act::Read, at_fault(b"", unread))?;
    let unclosed = "end outer done\nend 0 done\nledger 10\nouter open 1 0\nouter acquire 0 1\n\
        outer lease 0 1\nouter close 1 succeeded\nouter close 0 succeeded\n0 acquire 1 0\n\
        0 close 0 succeeded\n0 final 1 succeeded ok\n0 cancel 0 succeeded\n\
        0 final 0 succeeded fault\n";
    let unclean = Wanted {
        status: Status::Unclean,
        frames: LOOKED_UP,
        tail: unclosed,
    };
    call_fails(&rt, alloc, Act::Close, unclean)?;
    Ok(())
}

/// Sixteen groups, each of one stream, of which one is open at a time.
fn describe_sixteen(alloc: Global) -> Result<String, AllocError> {
    let mut text = String::from_str(alloc, "version = 2\nmax_open = 1\n")?;
    for _ in 0..16u32 {
        text.push_str("[[group]]\n[[group.stream]]\npath = 'a'\n")?;
    }
    Ok(text)
}

/// Appends what stream k notes, whose row has its number.
fn push_stream(text: &mut String, k: u32) -> Result<(), AllocError> {
    writeln!(text, "{k} acquire {k} 0")?;
    writeln!(text, "{k} close 0 succeeded")?;
    writeln!(text, "{k} final {k} succeeded ok")?;
    writeln!(text, "{k} cancel {k} succeeded")
}

/// Appends what is noted as stream k is given: the scope of the group before it is closed, that of its
/// own is opened and leased, and the stream before it runs.
fn push_given(text: &mut String, k: u32) -> Result<(), AllocError> {
    let scope = k.saturating_add(1);
    if k > 0 {
        writeln!(text, "outer close {k} succeeded")?;
    }
    writeln!(text, "outer open {scope} 0")?;
    writeln!(text, "outer lease {k} {scope}")?;
    match k.checked_sub(1) {
        Some(before) => push_stream(text, before),
        None => Ok(()),
    }
}

/// The frames and the tail of the sixteen.
fn text_of_sixteen(alloc: Global) -> Result<(String, String), AllocError> {
    let mut frames = String::new(alloc);
    let mut tail = String::from_str(alloc, "end outer done\n")?;
    for k in 0..16u32 {
        writeln!(frames, "{k} 1\nx")?;
        writeln!(tail, "end {k} done")?;
    }
    tail.push_str("ledger 113\n")?;
    for k in 0..16u32 {
        push_given(&mut tail, k)?;
    }
    tail.push_str("outer close 16 succeeded\nouter close 0 succeeded\n")?;
    push_stream(&mut tail, 15)?;
    Ok((frames, tail))
}

/// As many groups as there may be.
#[test]
fn sixteen_groups(rt: HostRuntime) -> Result<(), Fail> {
    let alloc = rt.alloc();
    let text = describe_sixteen(alloc)?;
    let (frames, tail) = text_of_sixteen(alloc)?;
    let seen = run(&rt, alloc, &run_of(text.as_str(), b"x"))?;
    let is_whole = seen.is_whole(alloc, Status::Good, frames.as_bytes(), tail.as_str())?;
    holds(&rt, is_whole);
    Ok(())
}

/// A group whose stream was given before the table of the next one failed.
#[test]
fn table_of_a_later_group_fails(rt: HostRuntime) -> Result<(), Fail> {
    let text = "version = 2\nmax_open = 1\n[[group]]\n[[group.stream]]\npath = 'a'\n\
        [[group]]\n[[group.table]]\nname = 't'\npath = 't.csv'\n";
    let case = Case {
        others: &[("t.csv", b"k,v\n")],
        other_trips: &[("t.csv", Act::Read, 1)],
        ..run_of(text, KEYS)
    };
    let tail = "end outer fault read\nend 0 halted\nledger 8\nouter open 1 0\nouter lease 0 1\n\
        outer close 1 succeeded\nouter open 2 0\nouter acquire 0 2\nouter close 0 errored\n\
        outer final 0 errored ok\nouter cancel 0 canceled\n";
    leaves(&rt, rt.alloc(), &case, at_fault(b"", tail))?;
    Ok(())
}
