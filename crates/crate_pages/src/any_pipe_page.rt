//! A whole input goes through a pipe that is given as plain data.
use crate::asserts::same;
use crate::loads::{bytes, text_of};
use any_pipe::{AnyPipe, Poured, pour_through};
use chunk_core::Code;
use csv_pipes::Dicts;
use pull_nodes::Pipe;
use std::alloc::{AllocError, Global};
use std::process::Abort;
use std::test::Fail;

/// The input as far as it is UTF-8, and the fault.
fn checked(
    alloc: Global,
    front: &[u8],
    back: &[u8],
) -> Result<(Vec<u8>, Option<Code>), AllocError> {
    let mut loads = Vec::new(alloc);
    loads.push(bytes(alloc, front)?)?;
    loads.push(bytes(alloc, back)?)?;
    let tables = Dicts::new(alloc);
    let Poured { loads, fault } = pour_through::<AnyPipe>(alloc, &tables, Pipe::Utf8, loads)?;
    Ok((text_of(alloc, loads.as_slice())?, fault))
}

/// Fails the test unless both halves give this text, and then the fault.
fn gives(
    rt: &impl Abort,
    alloc: Global,
    halves: (&[u8], &[u8]),
    text: &[u8],
    fault: Option<Code>,
) -> Result<(), AllocError> {
    let (given, then) = checked(alloc, halves.0, halves.1)?;
    same(rt, given.as_slice(), text);
    same(rt, then, fault);
    Ok(())
}

#[test]
fn a_character_cut_in_two_comes_whole(rt: HostRuntime) -> Result<(), Fail> {
    let alloc = rt.alloc();
    let whole = b"1 |\xE2\x82\xAC|";
    gives(&rt, alloc, (b"1 \xE2\x82", b"\xAC"), whole, None)?;
    let broken = Some(Code::Malformed);
    gives(&rt, alloc, (b"1 \xE2\x82", b"2"), b"1 ||", broken)?;
    Ok(())
}
