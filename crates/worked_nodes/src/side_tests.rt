//! Nodes with two sides over a plain seat and devices in memory: what each gives, how it ends, and
//! what its stream noted.
use crate::files::{Files, HELLO};
use crate::parts::{boxed, fault, lines_of, nil, scope, through, two_lines};
use crate::runs::{FREELY, shows};
use crate::uses::Pace;
use device_port::Act;
use pull_nodes::{Node, Pipe};
use std::process::Abort;

/// Reads of one byte.
const BYTEWISE: Pace = Pace { chunk: 1, ..FREELY };

/// One line less than two.
fn one_line(rt: &(impl Abort + AllocGlobal)) -> Box<Node> {
    boxed(rt, Node::Take(1, two_lines(rt)))
}

/// One line, and then a fault.
fn line_and_fault(rt: &(impl Abort + AllocGlobal)) -> Box<Node> {
    boxed(rt, Node::Append(one_line(rt), fault(rt)))
}

/// Two lines, each in a group of its own.
fn single_lines(rt: &(impl Abort + AllocGlobal)) -> Box<Node> {
    through(rt, two_lines(rt), Pipe::ChunkN(1))
}

/// The lines of the file at a place, in a scope of their own.
fn scoped_lines_of(rt: &(impl Abort + AllocGlobal), place: u32) -> Box<Node> {
    scope(rt, lines_of(rt, place))
}

/// The lines of the file at a place in a scope of their own, or else two lines.
fn lines_or_two(rt: &(impl Abort + AllocGlobal), place: u32) -> Box<Node> {
    boxed(rt, Node::OnFault(scoped_lines_of(rt, place), two_lines(rt)))
}

/// Fails the test unless a node with no devices is shown so.
fn node_shows(rt: &(impl Abort + AllocGlobal), node: Node, want: &[u8]) {
    shows(rt, HELLO, node, &[], FREELY, want);
}

#[test]
fn pairs_end_with_the_shorter_side(rt: HostRuntime) {
    shows(
        &rt,
        Files::of(b"a\nb\nc\n"),
        Node::Zip(lines_of(&rt, 0), lines_of(&rt, 1)),
        &["a", "b"],
        FREELY,
        b"a,world\n|Done\nledger 5\n0 acquire 0 0\n0 acquire 1 0\n0 close 0 succeeded\n0 final 1 succeeded ok\n0 final 0 succeeded ok\nb 1 1 succeeded\na 1 1 succeeded\n",
    );
}

#[test]
fn the_side_that_had_no_more_tells_the_end_of_pairs(rt: HostRuntime) {
    node_shows(
        &rt,
        Node::Zip(line_and_fault(&rt), two_lines(&rt)),
        b"a,a\n|Fault(Raised(9))\nledger 1\n0 close 0 errored\n",
    );
    node_shows(
        &rt,
        Node::Zip(one_line(&rt), line_and_fault(&rt)),
        b"a,a\n|Done\nledger 1\n0 close 0 succeeded\n",
    );
    node_shows(
        &rt,
        Node::Zip(two_lines(&rt), fault(&rt)),
        b"Fault(Raised(9))\nledger 1\n0 close 0 errored\n",
    );
}

#[test]
fn a_merge_ends_with_both_sides_or_with_the_fault_of_one(rt: HostRuntime) {
    node_shows(
        &rt,
        Node::Merge(one_line(&rt), two_lines(&rt)),
        b"a\nb\n|a\n|Done\nledger 1\n0 close 0 succeeded\n",
    );
    node_shows(
        &rt,
        Node::Merge(two_lines(&rt), fault(&rt)),
        b"a\nb\n|Fault(Raised(9))\nledger 1\n0 close 0 errored\n",
    );
    node_shows(
        &rt,
        Node::Merge(nil(&rt), fault(&rt)),
        b"Fault(Raised(9))\nledger 1\n0 close 0 errored\n",
    );
}

#[test]
fn a_side_that_fails_is_handled_while_the_other_stays_open(rt: HostRuntime) {
    shows(
        &rt,
        HELLO.failing(Act::Read, 1),
        Node::Merge(lines_or_two(&rt, 0), scoped_lines_of(&rt, 1)),
        &["a", "b"],
        FREELY,
        b"a\nb\n|world\n|Done\nledger 9\n0 open 1 0\n0 open 2 0\n0 acquire 1 1\n0 acquire 0 2\n0 close 2 errored\n0 final 0 errored ok\n0 close 1 succeeded\n0 final 1 succeeded ok\n0 close 0 succeeded\na 1 1 errored\nb 1 1 succeeded\n",
    );
}

#[test]
fn sides_take_groups_whole_for_pairs_and_one_by_one_for_a_merge(rt: HostRuntime) {
    node_shows(
        &rt,
        Node::Zip(single_lines(&rt), two_lines(&rt)),
        b"a,a\nb,b\n|Done\nledger 1\n0 close 0 succeeded\n",
    );
    node_shows(
        &rt,
        Node::Merge(single_lines(&rt), nil(&rt)),
        b"a\n|b\n|Done\nledger 1\n0 close 0 succeeded\n",
    );
}

#[test]
fn the_other_side_is_closed_with_the_scope_round_the_pairs(rt: HostRuntime) {
    let pairs = Node::Zip(one_line(&rt), scoped_lines_of(&rt, 0));
    let round = scope(&rt, boxed(&rt, pairs));
    shows(
        &rt,
        Files::of(b"c\nd\ne\n"),
        Node::Append(round, fault(&rt)),
        &["a"],
        FREELY,
        b"a,c\n|Fault(Raised(9))\nledger 6\n0 open 1 0\n0 open 2 1\n0 acquire 0 2\n0 close 1 succeeded\n0 final 0 succeeded ok\n0 close 0 errored\na 1 1 succeeded\n",
    );
}

#[test]
fn a_side_that_fails_in_pairs_is_handled_while_the_other_stays_open(rt: HostRuntime) {
    shows(
        &rt,
        HELLO.failing(Act::Read, 1),
        Node::Zip(scoped_lines_of(&rt, 1), lines_or_two(&rt, 0)),
        &["a", "b"],
        FREELY,
        b"world,a\n|Done\nledger 9\n0 open 1 0\n0 acquire 1 1\n0 open 2 0\n0 acquire 0 2\n0 close 2 errored\n0 final 0 errored ok\n0 close 1 succeeded\n0 final 1 succeeded ok\n0 close 0 succeeded\na 1 1 errored\nb 1 1 succeeded\n",
    );
}

#[test]
fn the_fault_of_one_side_closes_the_other_that_is_open(rt: HostRuntime) {
    let right = boxed(&rt, Node::Append(lines_of(&rt, 1), fault(&rt)));
    shows(
        &rt,
        Files::of(b"aa\nbbbbbbbbbb\n"),
        Node::Merge(scoped_lines_of(&rt, 0), right),
        &["a", "b"],
        BYTEWISE,
        b"aa\n|world\n|Fault(Raised(9))\nledger 6\n0 open 1 0\n0 acquire 0 1\n0 acquire 1 0\n0 close 0 errored\n0 final 0 errored ok\n0 final 1 errored ok\na 1 1 errored\nb 1 1 errored\n",
    );
}

#[test]
fn a_merge_asks_on_where_a_side_has_nothing_yet(rt: HostRuntime) {
    shows(
        &rt,
        Files::of(b"ab\nc\n"),
        Node::Merge(lines_of(&rt, 0), lines_of(&rt, 1)),
        &["a", "b"],
        BYTEWISE,
        b"ab\n|c\n|world\n|Done\nledger 5\n0 acquire 0 0\n0 acquire 1 0\n0 close 0 succeeded\n0 final 1 succeeded ok\n0 final 0 succeeded ok\nb 1 1 succeeded\na 1 1 succeeded\n",
    );
}
