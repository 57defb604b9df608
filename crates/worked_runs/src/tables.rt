//! Runs with tables: each is read before the first stream begins, kept open by the leases of the
//! streams, and closed once behind the last.
use crate::runs::{Wanted, at_fault, leaves_at};
use device_port::Act;
use flume_cli::Status;
use std::alloc::{AllocError, Global};
use std::process::Abort;
use std::sync::Wait;
use std::test::Fail;
use std::thread::Threads;
use worked_calls::outside::{Case, run_of};

/// The table `t` of the file `t.csv`, and a stream whose keys are looked up in it.
pub(crate) const LOOKUP: &str = "[[table]]\nname = 't'\npath = 't.csv'\n\
    [[stream]]\npath = 'a'\nsteps = ['csv', 'lookup t 0']\n";

pub(crate) const KEYS: &[u8] = b"k\nz\n";

fn lookup_in<'a>(others: &'a [(&'a str, &'a [u8])]) -> Case<'a> {
    Case {
        others,
        ..run_of(LOOKUP, KEYS)
    }
}

/// The tail of a run whose one table was opened and ended so.
fn table_failed(alloc: Global, fault: &str) -> Result<String, AllocError> {
    format!(in alloc;
        "end outer fault {fault}\nend 0 halted\nledger 3\n\
        outer acquire 0 0\nouter close 0 errored\nouter final 0 errored ok\n"
    )
}

/// Fails the test unless a run of which the first such call fails leaves this.
fn call_fails(
    rt: &(impl Abort + Threads + Wait + Sync),
    alloc: Global,
    path: &str,
    act: Act,
    wanted: Wanted<'_>,
) -> Result<(), AllocError> {
    let case = Case {
        other_trips: &[(path, act, 1)],
        ..lookup_in(&[("t.csv", b"k,v\n")])
    };
    leaves_at(rt, alloc, &case, wanted, &(path, act))
}

/// What a run leaves whose keys were looked up, and of which a close failed.
fn unclean(tail: &str) -> Wanted<'_> {
    Wanted {
        status: Status::Unclean,
        frames: b"0 7\nk,v\nz,\n\n",
        tail,
    }
}

/// A call on the table fails, the first of its act.
#[test]
fn calls_fail_on_a_table(rt: HostRuntime) -> Result<(), Fail> {
    let tail = table_failed(rt.alloc(), "read")?;
    let unread = at_fault(b"", tail.as_str());
    call_fails(&rt, rt.alloc(), "t.csv", Act::Read, unread)?;
    let tail = "end outer done\nend 0 done\nledger 8\n\
        outer acquire 0 0\nouter lease 0 0\nouter close 0 succeeded\n0 acquire 1 0\n\
        0 close 0 succeeded\n0 final 1 succeeded ok\n0 cancel 0 succeeded\n\
        0 final 0 succeeded fault\n";
    call_fails(&rt, rt.alloc(), "t.csv", Act::Close, unclean(tail))?;
    Ok(())
}

/// A call on the file fails, the first of its act.
#[test]
fn calls_fail_beside_a_table(rt: HostRuntime) -> Result<(), Fail> {
    let unopened = "end outer done\nend 0 fault open\nledger 6\n\
        outer acquire 0 0\nouter lease 0 0\nouter close 0 succeeded\n0 close 0 errored\n\
        0 cancel 0 errored\n0 final 0 errored ok\n";
    call_fails(&rt, rt.alloc(), "a", Act::Open, at_fault(b"", unopened))?;
    let unread = "end outer done\nend 0 fault read\nledger 8\n\
        outer acquire 0 0\nouter lease 0 0\nouter close 0 succeeded\n0 acquire 1 0\n\
        0 close 0 errored\n0 final 1 errored ok\n0 cancel 0 errored\n0 final 0 errored ok\n";
    call_fails(&rt, rt.alloc(), "a", Act::Read, at_fault(b"", unread))?;
    let unclosed = "end outer done\nend 0 done\nledger 8\n\
        outer acquire 0 0\nouter lease 0 0\nouter close 0 succeeded\n0 acquire 1 0\n\
        0 close 0 succeeded\n0 final 1 succeeded fault\n0 cancel 0 succeeded\n\
        0 final 0 succeeded ok\n";
    call_fails(&rt, rt.alloc(), "a", Act::Close, unclean(unclosed))?;
    Ok(())
}
