//! Nodes over a plain seat and devices in memory: what each gives, how it ends, what its stream
//! noted, and how often each device was opened and closed.
use crate::asserts::same;
use crate::files::{Files, HELLO};
use crate::parts::{boxed, emit, fault, scope, source, two_lines};
use crate::runs::{FREELY, run, shows};
use crate::shown::is_shown;
use crate::uses::Pace;
use device_port::Act;
use pull_nodes::Node;
use std::process::Abort;

/// Fails the test unless a read of `a` is shown so.
fn read_shows(rt: &(impl Abort + AllocGlobal), files: Files<'_>, pace: Pace, want: &[u8]) {
    let node = Box::into_inner(source(rt, 0));
    shows(rt, files, node, &["a"], pace, want);
}

#[test]
fn a_taker_ends_before_the_fault(rt: HostRuntime) {
    let both = Node::Append(two_lines(&rt), fault(&rt));
    shows(
        &rt,
        HELLO,
        Node::Take(2, boxed(&rt, both)),
        &[],
        FREELY,
        b"a\nb\n|Done\nledger 1\n0 close 0 succeeded\n",
    );
}

#[test]
fn one_line_comes_first_and_then_the_end(rt: HostRuntime) {
    let node = Box::into_inner(emit(&rt, &[b"a"]));
    let twice = Pace {
        chunk: 4,
        asks: 2,
        turns: 10,
    };
    let run = run(rt.alloc(), HELLO, node, &[], twice).expect(&rt, "a run");
    same(&rt, run.quiet, Ok(0));
    is_shown(&rt, run, b"a\n|Done\nledger 1\n0 close 0 succeeded\n");
}

#[test]
fn each_call_of_a_device_fails(rt: HostRuntime) {
    read_shows(
        &rt,
        HELLO.failing(Act::Open, 1),
        FREELY,
        b"Fault(Open)\nledger 1\n0 close 0 errored\na 0 0\n",
    );
    read_shows(
        &rt,
        HELLO.failing(Act::Read, 1),
        FREELY,
        b"Fault(Read)\nledger 3\n0 acquire 0 0\n0 close 0 errored\n0 final 0 errored ok\na 1 1 errored\n",
    );
    read_shows(
        &rt,
        HELLO.failing(Act::Read, 2),
        FREELY,
        b"hell|Fault(Read)\nledger 3\n0 acquire 0 0\n0 close 0 errored\n0 final 0 errored ok\na 1 1 errored\n",
    );
    read_shows(
        &rt,
        HELLO.failing(Act::Close, 1),
        FREELY,
        b"hell|o\n|Done\nledger 3\n0 acquire 0 0\n0 close 0 succeeded\n0 final 0 succeeded fault\na 1 1 succeeded\n",
    );
}

#[test]
fn a_failed_part_is_closed_before_its_handler_runs(rt: HostRuntime) {
    let part = scope(&rt, source(&rt, 0));
    shows(
        &rt,
        HELLO.failing(Act::Read, 1),
        Node::OnFault(part, source(&rt, 1)),
        &["a", "b"],
        FREELY,
        b"worl|d|Done\nledger 7\n0 open 1 0\n0 acquire 0 1\n0 close 1 errored\n0 final 0 errored ok\n0 acquire 1 0\n0 close 0 succeeded\n0 final 1 succeeded ok\na 1 1 errored\nb 1 1 succeeded\n",
    );
}

#[test]
fn a_scope_is_told_how_its_part_ended(rt: HostRuntime) {
    let part = scope(&rt, source(&rt, 0));
    shows(
        &rt,
        HELLO,
        Node::Append(part, fault(&rt)),
        &["a"],
        FREELY,
        b"hell|o\n|Fault(Raised(9))\nledger 5\n0 open 1 0\n0 acquire 0 1\n0 close 1 succeeded\n0 final 0 succeeded ok\n0 close 0 errored\na 1 1 succeeded\n",
    );
}

#[test]
fn a_scope_that_a_taker_left_is_told_of_the_end_around_it(rt: HostRuntime) {
    let front = boxed(&rt, Node::Take(2, scope(&rt, source(&rt, 0))));
    shows(
        &rt,
        HELLO,
        Node::Append(front, fault(&rt)),
        &["a"],
        FREELY,
        b"he|Fault(Raised(9))\nledger 4\n0 open 1 0\n0 acquire 0 1\n0 close 0 errored\n0 final 0 errored ok\na 1 1 errored\n",
    );
}

#[test]
fn a_run_is_halted(rt: HostRuntime) {
    read_shows(
        &rt,
        HELLO,
        Pace { asks: 1, ..FREELY },
        b"hell|Halted\nledger 3\n0 acquire 0 0\n0 close 0 canceled\n0 final 0 canceled ok\na 1 1 canceled\n",
    );
    read_shows(
        &rt,
        HELLO,
        Pace { asks: 0, ..FREELY },
        b"Halted\nledger 1\n0 close 0 canceled\na 0 0\n",
    );
}

#[test]
fn a_turn_may_give_nothing(rt: HostRuntime) {
    let slowly = Pace { turns: 1, ..FREELY };
    let node = Box::into_inner(source(&rt, 0));
    let run = run(rt.alloc(), HELLO, node, &["a"], slowly).expect(&rt, "a run");
    same(&rt, run.quiet, Ok(2));
    same(&rt, run.loads.len(), 2);
}
