//! The text of ledgers.
use crate::asserts::{prints, same};
use chunk_core::Exit;
use res_ledger::{Event, Ledger, StreamNo, What, text};
use std::alloc::{AllocError, Global};
use std::process::Abort;
use std::test::Fail;

fn of_events(alloc: Global, by: StreamNo, steps: [What; 3]) -> Result<Ledger, AllocError> {
    let [first, second, third] = steps;
    let first = Event {
        stamp: 0,
        by,
        what: first,
    };
    let second = Event {
        stamp: 1,
        by,
        what: second,
    };
    let third = Event {
        stamp: 2,
        by,
        what: third,
    };
    Ok(Ledger::of_events(vec![in alloc; first, second, third]?))
}

/// Fails the test unless a ledger of these steps by the stream has this text.
fn are_written(
    rt: &impl Abort,
    alloc: Global,
    by: StreamNo,
    steps: [What; 3],
    written: &[u8],
) -> Result<(), AllocError> {
    let ledger = of_events(alloc, by, steps)?;
    same(rt, text(alloc, &ledger)?.as_slice(), written);
    Ok(())
}

#[test]
fn prints_the_events_of_a_row(rt: HostRuntime) -> Result<(), Fail> {
    let (exit, ok) = (Exit::Succeeded, true);
    let one_row = [
        What::Acquire { row: 0, scope: 0 },
        What::Close { scope: 0, exit },
        What::Final { row: 0, exit, ok },
    ];
    let written = b"ledger 3\n0 acquire 0 0\n0 close 0 succeeded\n0 final 0 succeeded ok\n";
    are_written(&rt, rt.alloc(), StreamNo::Inner(0), one_row, written)?;
    Ok(())
}

#[test]
fn prints_the_events_of_a_lease(rt: HostRuntime) -> Result<(), Fail> {
    let (stream, scope, exit) = (5, 1, Exit::Canceled);
    let leased = [
        What::Open { scope, parent: 0 },
        What::Lease { stream, scope },
        What::Cancel { stream, exit },
    ];
    let written = b"ledger 3\nouter open 1 0\nouter lease 5 1\nouter cancel 5 canceled\n";
    are_written(&rt, rt.alloc(), StreamNo::Outer, leased, written)?;
    Ok(())
}

#[test]
fn prints_a_finalizer_that_failed(rt: HostRuntime) -> Result<(), Fail> {
    let (row, exit, ok) = (4294967295, Exit::Errored, false);
    let failed = What::Final { row, exit, ok };
    prints(&rt, rt.alloc(), &failed, "final 4294967295 errored fault")?;
    Ok(())
}
