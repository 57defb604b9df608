//! Streams of the top, of groups and of a list, and the rows of all.
use crate::asserts::{holds, same};
use crate::nodes::streams_are;
use pipeline_desc::{GroupSpec, ListSpec, outer_rows, read};
use pull_nodes::Kind;
use std::alloc::Global;
use std::process::Abort;
use std::test::Fail;

/// A table and a stream of the top, a group of nothing, one of a table and two streams, and a list of
/// two lines at most.
const PARTS: &str =
    "version = 2\n[[table]]\nname = 't'\npath = 't.csv'\n[[stream]]\npath = 'a'\n[[group]]\n[[group]]\n[[group.table]]\nname = 'u'\npath = 'u.csv'\n[[group.stream]]\npath = 'b'\nto = 'c'\n[[group.stream]]\npath = 'b'\n[list]\npath = 'l'\nsteps = ['lines']\non_fault = ''\nmax = 2\n";

/// The tables' rows are followed by that of the list, those of the described streams in their order, and
/// one for each line.
#[test]
fn rows_of_groups_and_a_list(rt: HostRuntime) -> Result<(), Fail> {
    streams_are(
        &rt,
        rt.alloc(),
        &[
            (PARTS, 0, Kind::Bytes, (3, 4), 7),
            (PARTS, 1, Kind::Any, (4, 6), 9),
            (PARTS, 2, Kind::Bytes, (6, 7), 7),
            (PARTS, 3, Kind::Lines, (7, 8), 9),
            (PARTS, 4, Kind::Lines, (8, 9), 9),
        ],
    )
}

/// Fails the test unless the group has these tables and streams.
fn group_is(rt: &impl Abort, group: &GroupSpec, tables: (u32, u32), streams: (u32, u32)) {
    same(rt, (group.tables.from, group.tables.to), tables);
    same(rt, (group.streams.from, group.streams.to), streams);
}

/// Fails the test unless this is the list of the parts.
fn list_is(rt: &impl Abort, list: &ListSpec) {
    same(rt, list.path.as_str(), "l");
    same(rt, (list.steps.len(), list.max), (1, 2));
    holds(rt, list.on_fault.is_some());
}

#[test]
fn groups_and_a_list(rt: HostRuntime) -> Result<(), Fail> {
    let plan = read(rt.alloc(), PARTS.as_bytes())?.with_max_open(1);
    same(&rt, (plan.tables().len(), plan.streams().len()), (2, 3));
    same(&rt, (plan.stream_limit(), outer_rows(&plan)), (5, 3));
    let [first, second] = plan.groups().as_slice() else {
        return Err(Fail::from("there are two groups"));
    };
    group_is(&rt, first, (1, 1), (1, 1));
    group_is(&rt, second, (1, 2), (1, 3));
    let Some(list) = plan.list() else {
        return Err(Fail::from("there is a list"));
    };
    list_is(&rt, list);
    Ok(())
}

/// The list of a description that gives its path alone may have so many lines, beside so many streams
/// that are described.
fn fills_up(
    rt: &impl Abort,
    alloc: Global,
    described: u32,
    wanted: Option<u32>,
) -> Result<(), Fail> {
    let mut text = String::from_str(alloc, "version = 2\n")?;
    for _ in 0..described {
        text.push_str("[[stream]]\npath = 'a'\n")?;
    }
    text.push_str("[list]\npath = 'l'\n")?;
    let limit = match read(alloc, text.as_bytes()) {
        Ok(plan) => Some(plan.stream_limit()),
        Err(_) => None,
    };
    same(rt, limit, wanted);
    Ok(())
}

#[test]
fn streams_and_lines_in_all(rt: HostRuntime) -> Result<(), Fail> {
    fills_up(&rt, rt.alloc(), 0, Some(64))?;
    fills_up(&rt, rt.alloc(), 960, Some(1024))?;
    fills_up(&rt, rt.alloc(), 961, None)
}
