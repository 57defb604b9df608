//! Nodes that read comma-separated values and look up in tables: what each gives and how it ends.
use crate::files::Files;
use crate::parts::{source, through};
use crate::runs::{FREELY, run_over};
use crate::shown::is_shown;
use crate::uses::Pace;
use csv_pipes::{Dicts, TableRefused, table_of};
use device_port::Act;
use pull_nodes::{Node, Pipe};
use std::alloc::Global;
use std::process::Abort;

/// Reads of one byte, halted after the first elements that might have come.
const FEW: Pace = Pace {
    chunk: 1,
    asks: 1,
    turns: 8,
};

/// The dictionaries of two tables.
fn two_tables(alloc: Global) -> Result<Dicts, TableRefused> {
    let mut tables = Dicts::new(alloc);
    tables.push(alloc, table_of(alloc, b"k,v\n")?)?;
    tables.push(alloc, table_of(alloc, b"k,w\nz,y\n")?)?;
    Ok(tables)
}

/// Fails the test unless the rows of the file at place 0 are shown so behind a pipe.
fn rows_show(
    rt: &(impl Abort + AllocGlobal),
    files: Files<'_>,
    pipe: Pipe,
    pace: Pace,
    want: &[u8],
) {
    let tables = two_tables(rt.alloc()).expect(rt, "two tables");
    let rows = through(rt, source(rt, 0), Pipe::Csv);
    let node = Node::Through(rows, pipe);
    let run = run_over(rt.alloc(), files, tables, node, &["a"], pace).expect(rt, "a run");
    is_shown(rt, run, want);
}

#[test]
fn what_is_gathered_is_not_given_before_the_end(rt: HostRuntime) {
    let rows = Files::of(b"k\nz\nz\n");
    rows_show(
        &rt,
        rows.failing(Act::Read, 2),
        Pipe::Field(0),
        FREELY,
        b"Fault(Read)\nledger 3\n0 acquire 0 0\n0 close 0 errored\n0 final 0 errored ok\na 1 1 errored\n",
    );
    rows_show(
        &rt,
        rows,
        Pipe::Field(0),
        FEW,
        b"Halted\nledger 3\n0 acquire 0 0\n0 close 0 canceled\n0 final 0 canceled ok\na 1 1 canceled\n",
    );
}
