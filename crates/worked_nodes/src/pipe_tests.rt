//! Nodes with pipes over a plain seat and devices in memory: what each gives, how it ends, what its
//! stream noted, and how often each device was opened and closed.
use crate::asserts::same;
use crate::files::Files;
use crate::parts::{boxed, lines_of, scope, two_lines};
use crate::runs::{FREELY, run, shows};
use crate::uses::Pace;
use device_port::Act;
use pull_nodes::Node;
use std::process::Abort;

/// Reads of so many bytes, and as many turns as are wanted.
fn by(chunk: u32) -> Pace {
    Pace { chunk, ..FREELY }
}

/// Fails the test unless a node that reads `a` is shown so.
fn node_shows(
    rt: &(impl Abort + AllocGlobal),
    files: Files<'_>,
    node: Box<Node>,
    pace: Pace,
    want: &[u8],
) {
    shows(rt, files, Box::into_inner(node), &["a"], pace, want);
}

#[test]
fn what_is_held_back_is_not_given_at_a_fault(rt: HostRuntime) {
    node_shows(
        &rt,
        Files::of(b"ab\ncd").failing(Act::Read, 2),
        lines_of(&rt, 0),
        by(5),
        b"ab\n|Fault(Read)\nledger 3\n0 acquire 0 0\n0 close 0 errored\n0 final 0 errored ok\na 1 1 errored\n",
    );
}

#[test]
fn a_failed_part_with_a_pipe_is_closed_before_its_handler_runs(rt: HostRuntime) {
    let part = scope(&rt, lines_of(&rt, 0));
    node_shows(
        &rt,
        Files::of(b"ab\ncd").failing(Act::Read, 2),
        boxed(&rt, Node::OnFault(part, two_lines(&rt))),
        by(5),
        b"ab\n|a\nb\n|Done\nledger 5\n0 open 1 0\n0 acquire 0 1\n0 close 1 errored\n0 final 0 errored ok\n0 close 0 succeeded\na 1 1 errored\n",
    );
}

/// Takes two lines of a file that has two, where the second read would fail.
fn taken_lines(rt: &(impl Abort + AllocGlobal)) -> (Files<'static>, Node) {
    let files = Files::of(b"a\nb\n").failing(Act::Read, 2);
    (files, Node::Take(2, lines_of(rt, 0)))
}

/// Fails the test unless no read of a device failed.
fn no_read_fails(rt: &(impl Abort + AllocGlobal), files: Files<'_>, node: Node) {
    let run = run(rt.alloc(), files, node, &["a"], FREELY).expect(rt, "a run");
    for spent in run.shelf.into_vec() {
        same(rt, spent.pay.into_device().facts().read_faults, 0);
    }
}

#[test]
fn a_taker_of_lines_reads_no_further(rt: HostRuntime) {
    let (files, node) = taken_lines(&rt);
    shows(
        &rt,
        files,
        node,
        &["a"],
        FREELY,
        b"a\nb\n|Done\nledger 3\n0 acquire 0 0\n0 close 0 succeeded\n0 final 0 succeeded ok\na 1 1 succeeded\n",
    );
    let (files, node) = taken_lines(&rt);
    no_read_fails(&rt, files, node);
}

#[test]
fn what_is_held_back_is_not_given_at_a_halt(rt: HostRuntime) {
    node_shows(
        &rt,
        Files::of(b"ab\ncd"),
        lines_of(&rt, 0),
        Pace { asks: 1, ..by(5) },
        b"ab\n|Halted\nledger 3\n0 acquire 0 0\n0 close 0 canceled\n0 final 0 canceled ok\na 1 1 canceled\n",
    );
}
