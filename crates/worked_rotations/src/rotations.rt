//! Rotations of which nothing fails.
use crate::asserts::{holds_at, same_at};
use device_port::MemDepot;
use flume_cli::Status;
use std::alloc::{AllocError, Global};
use std::process::Abort;
use std::sync::Wait;
use std::test::Fail;
use std::thread::Threads;
use worked_calls::outside::{Case, cat_of, run};

/// The tail of a rotation into two files.
pub(crate) const TWO: &str = "end 0 done\nledger 10\n0 acquire 0 0\n0 open 1 0\n0 acquire 1 1\n\
    0 open 2 0\n0 acquire 2 2\n0 close 1 succeeded\n0 final 1 succeeded ok\n\
    0 close 0 succeeded\n0 final 2 succeeded ok\n0 final 0 succeeded ok\n";

/// The tail of a rotation into one file.
const ONE: &str = "end 0 done\nledger 6\n0 acquire 0 0\n0 open 1 0\n0 acquire 1 1\n\
    0 close 0 succeeded\n0 final 1 succeeded ok\n0 final 0 succeeded ok\n";

/// The tail of a rotation of an empty file.
const NONE: &str =
    "end 0 done\nledger 3\n0 acquire 0 0\n0 close 0 succeeded\n0 final 0 succeeded ok\n";

/// What is to be left: the status, what is printed, and what the files p.0, p.1 and so on hold.
#[derive(Clone, Copy, Debug)]
pub(crate) struct Left<'a> {
    pub(crate) status: Status,
    pub(crate) tail: &'a str,
    pub(crate) pieces: &'a [&'a [u8]],
}

/// The file `a` is copied into files p.0, p.1 and so on.
pub(crate) fn rotation_of<'a>(words: &'a [&'a str], file: &'a [u8]) -> Case<'a> {
    Case {
        words,
        ..cat_of(file)
    }
}

/// Fails the test unless the files p.0, p.1 and so on hold these pieces, and there are no more.
pub(crate) fn holds_pieces(
    rt: &impl Abort,
    alloc: Global,
    depot: &MemDepot,
    pieces: &[&[u8]],
    place: &str,
) -> Result<(), AllocError> {
    let mut i: u64 = 0;
    for piece in pieces {
        let path = format!(in alloc; "p.{i}")?;
        same_at(rt, depot.file(path.as_str()), Some(*piece), &place);
        i = i.saturating_add(1);
    }
    let path = format!(in alloc; "p.{i}")?;
    same_at(rt, depot.file(path.as_str()), None, &place);
    Ok(())
}

/// Fails the test unless the case leaves this, and the file `a` as it was.
pub(crate) fn leaves(
    rt: &(impl Abort + Threads + Wait + Sync),
    alloc: Global,
    case: &Case,
    left: &Left,
) -> Result<(), AllocError> {
    let seen = run(rt, alloc, case)?;
    holds_at(rt, seen.is_whole(alloc, left.status, b"", left.tail)?, left);
    same_at(rt, seen.depot.file("a"), Some(case.file), left);
    holds_pieces(rt, alloc, &seen.depot, left.pieces, left.tail)
}

fn rotates(
    rt: &(impl Abort + Threads + Wait + Sync),
    alloc: Global,
    words: &[&str],
    file: &[u8],
    tail: &str,
    pieces: &[&[u8]],
) -> Result<(), AllocError> {
    let left = Left {
        status: Status::Good,
        tail,
        pieces,
    };
    leaves(rt, alloc, &rotation_of(words, file), &left)
}

/// Each file but the last has so many bytes; none is made without a byte for it.
#[test]
fn whole_files_are_rotated(rt: HostRuntime) -> Result<(), Fail> {
    let alloc = rt.alloc();
    let four = ["rotate", "--bytes", "4", "a", "p"];
    let two = ["rotate", "--bytes", "2", "a", "p"];
    rotates(&rt, alloc, &four, b"abcdef", TWO, &[b"abcd", b"ef"])?;
    rotates(&rt, alloc, &four, b"abcdefgh", TWO, &[b"abcd", b"efgh"])?;
    rotates(&rt, alloc, &two, b"abcd", TWO, &[b"ab", b"cd"])?;
    rotates(&rt, alloc, &four, b"abcd", ONE, &[b"abcd"])?;
    rotates(&rt, alloc, &four, b"\0", ONE, &[b"\0"])?;
    rotates(&rt, alloc, &four, b"", NONE, &[])?;
    Ok(())
}

/// The tail can't be printed: the files are whole all the same.
#[test]
fn failed_write_of_the_tail(rt: HostRuntime) -> Result<(), Fail> {
    let alloc = rt.alloc();
    let case = Case {
        out_fails: &[1],
        ..rotation_of(&["rotate", "--bytes", "4", "a", "p"], b"abcdef")
    };
    let seen = run(&rt, alloc, &case)?;
    same_at(&rt, seen.report.status, Status::NotWritten, &"the tail");
    holds_at(&rt, seen.reported(alloc, TWO)?, &"the tail");
    holds_pieces(&rt, alloc, &seen.depot, &[b"abcd", b"ef"], "the tail")?;
    Ok(())
}
