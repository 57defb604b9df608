//! The states of nodes with two sides.
ghost use Rattle.std.specs.Prelude.{◌≡◌, IfOk};
ghost use Rattle.chunk_core.specs.Elements.{kind_of};
ghost use Rattle.chunk_core.specs.Elements.LoadKind.{Lines};

use crate::asserts::same;
use chunk_core::{Chunk, Line, Load, render};
use std::alloc::{AllocError, Global};
use std::process::Abort;
use std::test::Fail;
use stream_sides::{Side, ZipState};

/// A line of each byte.
fn lines(alloc: Global, text: &[u8]) -> Result<Load, AllocError>
    ensures { IfOk result (λ load. kind_of load ≡ Lines) }
{
    let mut lines = Vec::new(alloc);
    for byte in text {
        lines.push(Line::copy_of(alloc, [*byte].as_slice())?)?;
    }
    Ok(Load::Lines(Chunk::of_vec(alloc, lines)?))
}

/// The text of the pairs that these lines make whole, of the side that is needed.
fn fed(alloc: Global, state: &mut ZipState, text: &[u8]) -> Result<Line, AllocError> {
    let side = state.need();
    let pairs = state.give(side, lines(alloc, text)?)?;
    render(alloc, &pairs)
}

/// Fails the test unless these lines of the side that is needed make these pairs whole.
fn makes(
    rt: &(impl Abort + AllocGlobal),
    state: &mut ZipState,
    text: &[u8],
    pairs: &[u8],
) -> Result<(), AllocError> {
    let made = fed(rt.alloc(), state, text)?;
    same(rt, made.as_slice(), pairs);
    same(rt, made.is_empty(), pairs.is_empty());
    Ok(())
}

/// Three lines waited for the other side, of which the first has its pair.
fn first_of_three(rt: &impl Abort, alloc: Global) -> Result<ZipState, AllocError> {
    let mut state = ZipState::new(alloc);
    assert_eq!(rt; state.need(), Side::Left);
    let pairs = fed(alloc, &mut state, b"abc")?;
    assert!(rt; pairs.is_empty());
    assert_eq!(rt; state.need(), Side::Right);
    let pairs = fed(alloc, &mut state, b"x")?;
    assert_eq!(rt; pairs.as_slice(), b"a,x\n".as_slice());
    Ok(state)
}

#[test]
fn lines_that_wait_are_paired_in_their_order(rt: HostRuntime) -> Result<(), Fail> {
    let mut state = first_of_three(&rt, rt.alloc())?;
    same(&rt, state.need(), Side::Right);
    makes(&rt, &mut state, b"yzw", b"b,y\nc,z\n")?;
    same(&rt, state.need(), Side::Left);
    makes(&rt, &mut state, b"d", b"d,w\n")?;
    same(&rt, state.need(), Side::Left);
    Ok(())
}
