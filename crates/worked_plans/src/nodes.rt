//! The nodes of streams, and the rows and the events that a run of each needs.
use crate::asserts::same_at;
use pipeline_desc::{Plan, events, node, outer_rows, read, rows};
use pull_nodes::Kind;
use std::alloc::Global;
use std::process::Abort;
use std::test::Fail;

/// Pairs of lines, of which some fields are written.
pub(crate) const ZIPPED: &str =
    "[[stream]]\npath = 'a'\nto = 'c'\nsteps = ['lines']\nwith = 'b'\njoin = 'zip'\nafter = ['field 1', 'take 2']\non_fault = 'x'\n";

/// A file twice.
pub(crate) const APPENDED: &str = "[[stream]]\npath = 'a'\nwith = 'a'\njoin = 'append'\n";

/// Records of two files in turn, behind a table.
pub(crate) const MERGED: &str =
    "[[stream]]\npath = 'a'\nsteps = ['csv']\nwith = 'b'\njoin = 'merge'\n[[table]]\nname = 't'\npath = 'b'\n";

/// Records that are looked up in two tables.
pub(crate) const LOOKED_UP: &str =
    "[[stream]]\npath = 'a'\nsteps = ['csv', 'lookup t 007', 'lookup u 0', 'field 999999999']\n[[table]]\nname = 'u'\npath = 'u.csv'\n[[table]]\nname = 't'\npath = 't.csv'\n";

/// A text and the number of one of its streams, and the kind, the first row and the one behind the
/// last, and the events of that stream.
type Row<'a> = (&'a str, u32, Kind, (u32, u32), u64);

/// Fails the test unless the stream of the row's number is so, by the plan and by its node, which is
/// placed in its rows.
pub(crate) fn stream_is(
    rt: &impl Abort,
    alloc: Global,
    plan: &Plan,
    row: &Row<'_>,
) -> Result<(), Fail> {
    let (place, k, kind, span, most) = *row;
    assert!(rt; k < plan.stream_limit());
    let rows = rows(plan, k);
    same_at(rt, (rows.from, rows.to), span, place);
    same_at(rt, events(plan, k), most, place);
    let node = node(alloc, plan, k)?;
    same_at(rt, node.kind(), Ok(kind), place);
    same_at(rt, node.placed(rows), true, place);
    let of_others = u64::from(outer_rows(plan));
    same_at(rt, node.events() + 1 + of_others, most, place);
    Ok(())
}

/// The same of each row's stream in the plan of its text.
pub(crate) fn streams_are(rt: &impl Abort, alloc: Global, rows: &[Row<'_>]) -> Result<(), Fail> {
    for row in rows {
        let plan = read(alloc, row.0.as_bytes())?;
        stream_is(rt, alloc, &plan, row)?;
    }
    Ok(())
}

#[test]
fn nodes_of_single_streams(rt: HostRuntime) -> Result<(), Fail> {
    const PLAIN: &str = "[[stream]]\npath = 'a'\n";
    const OR_NOTHING: &str = "[[stream]]\npath = 'a'\non_fault = ''\n";
    const LINES: &str =
        "[[stream]]\npath = 'a'\nsteps = ['lines', 'take 2', 'filter E', 'intersperse -']\non_fault = 'lost'\n";
    streams_are(
        &rt,
        rt.alloc(),
        &[
            (PLAIN, 0, Kind::Bytes, (0, 1), 4),
            (OR_NOTHING, 0, Kind::Bytes, (0, 1), 6),
            (LINES, 0, Kind::Lines, (0, 1), 6),
        ],
    )
}

#[test]
fn nodes_of_two_sides(rt: HostRuntime) -> Result<(), Fail> {
    streams_are(
        &rt,
        rt.alloc(),
        &[
            (ZIPPED, 0, Kind::Any, (0, 3), 10),
            (APPENDED, 0, Kind::Bytes, (0, 2), 6),
            (MERGED, 0, Kind::Rows, (1, 3), 7),
        ],
    )
}

#[test]
fn nodes_behind_tables(rt: HostRuntime) -> Result<(), Fail> {
    streams_are(&rt, rt.alloc(), &[(LOOKED_UP, 0, Kind::Lines, (2, 3), 6)])
}
