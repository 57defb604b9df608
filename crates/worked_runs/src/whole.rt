//! Runs of a description of which nothing fails.
use crate::runs::{Alike, Row, STEPS, each_leaves, ending_well, row_leaves};
use device_port::Act;
use std::test::Fail;
use worked_calls::reports::HALTED;

/// A step that has all its elements lets the file be: the second read would fail.
#[test]
fn taker_asks_no_more(rt: HostRuntime) -> Result<(), Fail> {
    const ROWS: &[Row<'static>] = &[
        ("'lines', 'take 2'", b"a\nb\n", b"0 4\na\nb\n\n"),
        ("'take 1'", b"a\nb\n", b"0 1\na\n"),
        ("'take 0'", b"a\nb\n", b""),
    ];
    let each = Alike {
        trips: &[(Act::Read, 2)],
        ..ending_well(STEPS)
    };
    each_leaves(&rt, rt.alloc(), &each, ROWS)?;
    Ok(())
}

/// Behind the last frame that is wanted the stream is halted. By then two pieces may have been read that
/// nobody wants: one that waits in the queue, and one that waits for room there.
#[test]
fn frames_are_limited(rt: HostRuntime) -> Result<(), Fail> {
    const FEWER: &[Row<'static>] = &[
        ("1", b"abcdefgh", b"0 1\na\n"),
        ("2", b"abcdefgh", b"0 1\na\n0 1\nb\n"),
        ("3", b"abcdefgh", b"0 1\na\n0 1\nb\n0 1\nc\n"),
    ];
    const ALL: Row<'static> = ("4", b"abc", b"0 1\na\n0 1\nb\n0 1\nc\n");
    let whole = Alike {
        trips: &[(Act::Read, 6)],
        ..ending_well("take = @\nchunk = 1\nqueue = 1\n[[stream]]\npath = 'a'\n")
    };
    row_leaves(&rt, rt.alloc(), &whole, &ALL)?;
    let halted = Alike {
        tail: HALTED,
        ..whole
    };
    each_leaves(&rt, rt.alloc(), &halted, FEWER)?;
    Ok(())
}
