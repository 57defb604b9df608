//! Pipes over text.
use crate::cuttings::{held_loads_stay, pieces_give, text};
use crate::feeding::{AsBytes, AsLetters, Recipe};
use std::alloc::{AllocError, Global};
use std::test::Fail;
use text_pipes::{HexPipe, LinesPipe, UpperPipe};

/// Loads whose lines are of several lengths.
const PIECES: &[&[&[u8]]] = &[
    &[b"one\ntwo\nthree\n"],
    &[b"1\n22\n"],
    &[b"333\n4444\n55555\n666666\n"],
    &[b"a line that is longer than all of those before it\nb\n"],
    &[b"\n\n\n"],
    &[b"c\nd\ne\nf\n"],
];

#[derive(Drop)]
pub(crate) struct Lines;

impl Recipe<AsBytes> for Lines {
    type Pipe = LinesPipe;

    fn pipe(&self, alloc: Global) -> Result<LinesPipe, AllocError> {
        Ok(LinesPipe::new(alloc)?)
    }
}

#[derive(Drop)]
struct Hexadecimal;

impl Recipe<AsBytes> for Hexadecimal {
    type Pipe = HexPipe;

    fn pipe(&self, alloc: Global) -> Result<HexPipe, AllocError> {
        Ok(HexPipe::new(alloc)?)
    }
}

#[derive(Drop)]
struct Capitals;

impl Recipe<AsBytes> for Capitals {
    type Pipe = UpperPipe;

    fn pipe(&self, alloc: Global) -> Result<UpperPipe, AllocError> {
        Ok(UpperPipe::new(alloc)?)
    }
}

impl Recipe<AsLetters> for Capitals {
    type Pipe = UpperPipe;

    fn pipe(&self, alloc: Global) -> Result<UpperPipe, AllocError> {
        Ok(UpperPipe::new(alloc)?)
    }
}

#[test]
fn a_line_comes_with_its_end(rt: HostRuntime) -> Result<(), Fail> {
    let cut: [&[&[u8]]; 2] = [&[b"a\r"], &[b"\nb"]];
    pieces_give(&rt, &Lines, &cut, text(b"a|b|").in_loads(&[1, 1]))?;
    pieces_give(&rt, &Lines, &[&[b"a\r"]], text(b"a|").early(2))?;
    pieces_give(&rt, &Lines, &[&[b"ab\ncd"]], text(b"ab|cd|").early(3))?;
    Ok(())
}

#[test]
fn loads_that_are_held_stay_as_they_are(rt: HostRuntime) -> Result<(), Fail> {
    held_loads_stay(&rt, &Lines, PIECES)?;
    held_loads_stay(&rt, &Hexadecimal, PIECES)?;
    held_loads_stay::<AsLetters, _>(&rt, &Capitals, PIECES)?;
    Ok(())
}
