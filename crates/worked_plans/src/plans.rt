//! Plans that are written out.
use crate::asserts::{holds, same};
use chunk_core::List;
use pipeline_desc::{Plan, StreamSpec, TableSpec, read};
use std::test::Fail;

#[test]
fn another_number_of_open_streams(rt: HostRuntime) -> Result<(), Fail> {
    let plan = read(rt.alloc(), b"max_open = 2\nqueue = 3\n")?.with_max_open(64);
    same(&rt, plan.max_open(), 64);
    same(&rt, plan.queue(), 3);
    Ok(())
}

#[test]
fn a_plan_of_no_parts(rt: HostRuntime) {
    let alloc = rt.alloc();
    let tables: List<TableSpec> = List::new(alloc);
    let streams: List<StreamSpec> = List::new(alloc);
    let plan = Plan::of(alloc, 1, 64, 65536, Some(0), tables, streams);
    same(
        &rt,
        (plan.max_open(), plan.queue(), plan.chunk(), plan.take()),
        (1, 64, 65536, Some(0)),
    );
    holds(&rt, plan.streams().is_empty());
}
