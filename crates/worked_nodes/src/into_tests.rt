//! Nodes that write what comes to a device in memory.
use crate::files::{Files, HELLO};
use crate::parts::{boxed, fault, into, source, two_lines};
use crate::runs::{FREELY, shows};
use crate::uses::Pace;
use device_port::Act;
use pull_nodes::Node;
use std::process::Abort;

/// `a` is empty.
const EMPTY: Files<'static> = Files { a: b"", ..HELLO };

/// At most three bytes go to `a` by a write.
const SHORT_WRITES: Files<'static> = Files { most: 3, ..EMPTY };

/// Halted after one load.
const ONCE: Pace = Pace {
    chunk: 4,
    asks: 1,
    turns: 5,
};

/// Fails the test unless a node is shown so that writes what `b` has to `a`.
fn copy_shows(rt: &(impl Abort + AllocGlobal), files: Files<'_>, pace: Pace, want: &[u8]) {
    let node = into(rt, 0, source(rt, 1));
    shows(rt, files, node, &["a", "b"], pace, want);
}

#[test]
fn a_write_that_fails_is_the_end(rt: HostRuntime) {
    copy_shows(
        &rt,
        EMPTY.failing(Act::Write, 2),
        FREELY,
        b"Fault(Write)\nledger 5\n0 acquire 0 0\n0 acquire 1 0\n0 close 0 errored\n0 final 1 errored ok\n0 final 0 errored ok\nb 1 1 errored\na 1 1 errored <worl>\n",
    );
}

#[test]
fn a_run_that_is_stopped_has_written_what_came(rt: HostRuntime) {
    copy_shows(
        &rt,
        EMPTY,
        ONCE,
        b"Halted\nledger 5\n0 acquire 0 0\n0 acquire 1 0\n0 close 0 canceled\n0 final 1 canceled ok\n0 final 0 canceled ok\nb 1 1 canceled\na 1 1 canceled <worl>\n",
    );
}

#[test]
fn short_writes_go_on_where_they_stopped(rt: HostRuntime) {
    copy_shows(
        &rt,
        SHORT_WRITES,
        FREELY,
        b"Done\nledger 5\n0 acquire 0 0\n0 acquire 1 0\n0 close 0 succeeded\n0 final 1 succeeded ok\n0 final 0 succeeded ok\nb 1 1 succeeded\na 1 1 succeeded <world>\n",
    );
}

#[test]
fn a_write_that_fails_behind_a_short_one_leaves_a_part_of_a_load(rt: HostRuntime) {
    copy_shows(
        &rt,
        SHORT_WRITES.failing(Act::Write, 2),
        FREELY,
        b"Fault(Write)\nledger 5\n0 acquire 0 0\n0 acquire 1 0\n0 close 0 errored\n0 final 1 errored ok\n0 final 0 errored ok\nb 1 1 errored\na 1 1 errored <wor>\n",
    );
}

#[test]
fn a_run_that_is_stopped_has_written_each_load_whole(rt: HostRuntime) {
    copy_shows(
        &rt,
        SHORT_WRITES,
        ONCE,
        b"Halted\nledger 5\n0 acquire 0 0\n0 acquire 1 0\n0 close 0 canceled\n0 final 1 canceled ok\n0 final 0 canceled ok\nb 1 1 canceled\na 1 1 canceled <worl>\n",
    );
}

#[test]
fn a_fault_below_is_passed_on(rt: HostRuntime) {
    let both = boxed(&rt, Node::Append(two_lines(&rt), fault(&rt)));
    shows(
        &rt,
        HELLO,
        into(&rt, 0, both),
        &["a"],
        FREELY,
        b"Fault(Raised(9))\nledger 3\n0 acquire 0 0\n0 close 0 errored\n0 final 0 errored ok\na 1 1 errored <a\nb\n>\n",
    );
}
