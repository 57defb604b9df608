//! Runs of which a call on the outside fails.
use crate::cats::{HALTED, Left, WELL, leaves, long_leaves, long_output};
use chunk_core::{Code, Exit, How};
use device_port::Act;
use flume_cli::Status;
use std::alloc::{AllocError, Global};
use std::process::Abort;
use std::sync::Wait;
use std::test::Fail;
use std::thread::Threads;
use worked_calls::outside::{Case, cat_of, filled};

/// What is left where a read fails.
const UNREAD: Left = Left {
    status: Status::Faulty,
    number: 1,
    how: How::Fault(Code::Read),
    exit: Exit::Errored,
    ok: true,
    faults: 0,
};

#[test]
fn failed_read_ends_the_frames(rt: HostRuntime) -> Result<(), Fail> {
    let tail =
        "\nend 0 fault read\nledger 3\n0 acquire 0 0\n0 close 0 errored\n0 final 0 errored ok\n";
    let text = filled(rt.alloc(), &[("0 4096\n", 4096), (tail, 0)])?;
    let trips = [(Act::Read, 2)];
    long_leaves(&rt, rt.alloc(), &trips, &[], text.as_slice(), &UNREAD)?;
    Ok(())
}

#[test]
fn failed_close_is_unclean(rt: HostRuntime) -> Result<(), Fail> {
    let case = Case {
        trips: &[(Act::Close, 1)],
        ..cat_of(b"hello\n")
    };
    let text =
        b"0 6\nhello\n\nend 0 done\nledger 3\n0 acquire 0 0\n0 close 0 succeeded\n0 final 0 succeeded fault\n";
    let unclean = Left {
        status: Status::Unclean,
        number: 7,
        ok: false,
        ..WELL
    };
    leaves(&rt, rt.alloc(), &case, text, &unclean)?;
    Ok(())
}

#[test]
fn fault_tells_more_than_a_failed_close(rt: HostRuntime) -> Result<(), Fail> {
    let case = Case {
        trips: &[(Act::Read, 1), (Act::Close, 1)],
        ..cat_of(b"hello\n")
    };
    let text =
        b"end 0 fault read\nledger 3\n0 acquire 0 0\n0 close 0 errored\n0 final 0 errored fault\n";
    let both = Left {
        ok: false,
        ..UNREAD
    };
    leaves(&rt, rt.alloc(), &case, text, &both)?;
    Ok(())
}

#[test]
fn failed_write_halts_the_stream(rt: HostRuntime) -> Result<(), Fail> {
    let case = Case {
        out_fails: &[1],
        ..cat_of(b"hello\n")
    };
    leaves(&rt, rt.alloc(), &case, b"", &HALTED)?;
    Ok(())
}

/// Fails the test unless, where this write of a long output fails, so many bytes of it are printed,
/// and this is left.
fn long_is_cut(
    rt: &(impl Abort + Threads + Wait + Sync),
    alloc: Global,
    nth: u32,
    cut: usize,
    left: &Left,
) -> Result<(), AllocError> {
    let text = long_output(alloc)?;
    assert!(rt; cut <= text.len());
    long_leaves(rt, alloc, &[], &[nth], &text[..cut], left)
}

/// Two frames and the tail are three writes, so the fourth that fails is none of them.
#[test]
fn nothing_is_written_after_a_failed_write(rt: HostRuntime) -> Result<(), Fail> {
    let without_tail = Left {
        status: Status::NotWritten,
        number: 4,
        faults: 1,
        ..WELL
    };
    long_is_cut(&rt, rt.alloc(), 1, 0, &HALTED)?;
    long_is_cut(&rt, rt.alloc(), 2, 4104, &HALTED)?;
    long_is_cut(&rt, rt.alloc(), 3, 5015, &without_tail)?;
    long_is_cut(&rt, rt.alloc(), 4, 5092, &WELL)?;
    Ok(())
}
