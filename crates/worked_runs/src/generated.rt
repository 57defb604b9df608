//! Cases that `gen` makes of three numbers, runs and sums up.
use crate::asserts::{holds, same};
use flume_cli::Status;
use std::test::Fail;
use worked_calls::outside::{Case, cat_of, run};

#[test]
fn a_summary_is_not_written(rt: HostRuntime) -> Result<(), Fail> {
    let case = Case {
        words: &["gen", "0", "1", "3"],
        out_fails: &[1],
        ..cat_of(b"not read")
    };
    let seen = run(&rt, rt.alloc(), &case)?;
    holds(&rt, seen.printed(Status::NotWritten, b""));
    same(&rt, seen.out.faults(), 1);
    Ok(())
}
