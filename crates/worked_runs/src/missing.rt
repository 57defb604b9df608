//! A file that isn't there.
use crate::asserts::{holds, same};
use chunk_core::{Code, Exit, How};
use flume_cli::Status;
use res_ledger::{StreamNo, What};
use run_rules::EndOf;
use std::process::Abort;
use std::test::Fail;
use worked_calls::outside::{Aftermath, Case, cat_of, event, run};

/// Fails the test unless the report has one end, that of stream 0, which ended so.
fn ended_alone(rt: &impl Abort, seen: &Aftermath, how: How) {
    let end = EndOf {
        who: StreamNo::Inner(0),
        how,
    };
    assert_eq!(rt; seen.report.ends.as_slice(), [end].as_slice());
}

/// Fails the test unless the ledger has this event of stream 0 alone.
fn noted_alone(rt: &impl Abort, seen: &Aftermath, what: What) {
    let noted = [event(0, what)];
    same(rt, seen.report.ledger.as_slice(), noted.as_slice());
}

#[test]
fn missing_file_is_a_fault_of_open(rt: HostRuntime) -> Result<(), Fail> {
    let case = Case {
        words: &["cat", "b"],
        ..cat_of(b"hello\n")
    };
    let text = b"end 0 fault open\nledger 1\n0 close 0 errored\n";
    let closed = What::Close {
        scope: 0,
        exit: Exit::Errored,
    };
    let seen = run(&rt, rt.alloc(), &case)?;
    holds(&rt, seen.printed(Status::Faulty, text));
    same(&rt, seen.report.status.number(), 1);
    ended_alone(&rt, &seen, How::Fault(Code::Open));
    noted_alone(&rt, &seen, closed);
    holds(&rt, seen.device_came_back(None));
    Ok(())
}
