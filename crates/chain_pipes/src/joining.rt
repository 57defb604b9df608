//! Several loads as one, and loads of nothing.
ghost use Rattle.std.specs.Prelude.{◌≡◌, ◌++◌, [], IfOk, OnOk, map};
ghost use Rattle.chunk_core.specs.Elements.{LoadKind, elements, elements_of, kind_of};
ghost use Rattle.chunk_core.specs.Elements.LoadKind.{Bytes, Lines, Rows};
ghost use Rattle.any_pipe.specs.Pouring.{AreOf};
ghost use Rattle.pull_nodes.specs.PipeKinds.{stream_kind};

use chunk_core::{Chunk, Line, Load, Row};
use pull_nodes::Kind;
use std::alloc::{AllocError, Global};

/// A load of no elements of a kind, which takes no memory.
pub(crate) fn empty_of(kind: Kind) -> Load
    ensures none { elements result ≡ [] }
    ensures kind { (k : LoadKind) → kind ≡ stream_kind k → kind_of result ≡ k }
{
    match kind {
        Kind::Bytes | Kind::Any => Load::empty(),
        Kind::Lines => Load::Lines(Chunk::empty()),
        Kind::Rows => Load::Rows(Chunk::empty()),
    }
}

/// The bytes of loads in a load of their own.
fn joined_bytes(alloc: Global, loads: &[Load]) -> Result<Load, AllocError>
    requires { AreOf Bytes loads.now }
    ensures all { IfOk result (λ load. elements load ≡ elements_of loads.now) }
    ensures kind { IfOk result (λ load. kind_of load ≡ Bytes) }
{
    let mut items = Vec::new(alloc);
    for load in loads {
        match load {
            Load::Bytes(bytes) => items.extend_from_slice(bytes.as_slice())?,
            _ => unreachable!(),
        }
    }
    Ok(Load::Bytes(Chunk::of_vec(alloc, items)?))
}

/// Appends copies of lines.
fn push_lines(alloc: Global, items: &mut Vec<Line>, lines: &[Line]) -> Result<(), AllocError>
    ensures { OnOk result (items.new.items ≡ items.old.items ++ lines.now) }
{
    for line in lines {
        items.push(Line::copy_of(alloc, line.as_slice())?)?;
    }
    Ok(())
}

/// The lines of loads in a load of their own.
fn joined_lines(alloc: Global, loads: &[Load]) -> Result<Load, AllocError>
    requires { AreOf Lines loads.now }
    ensures all { IfOk result (λ load. elements load ≡ elements_of loads.now) }
    ensures kind { IfOk result (λ load. kind_of load ≡ Lines) }
{
    let mut items = Vec::new(alloc);
    for load in loads {
        match load {
            Load::Lines(lines) => push_lines(alloc, &mut items, lines.as_slice())?,
            _ => unreachable!(),
        }
    }
    Ok(Load::Lines(Chunk::of_vec(alloc, items)?))
}

/// Appends copies of rows.
fn push_rows(alloc: Global, items: &mut Vec<Row>, rows: &[Row]) -> Result<(), AllocError>
    ensures { OnOk result (items.new.items ≡ items.old.items ++ rows.now) }
{
    for row in rows {
        let mut fields = Vec::new(alloc);
        push_lines(alloc, &mut fields, row.as_slice())?;
        items.push(Row::of_vec(fields))?;
    }
    Ok(())
}

/// The rows of loads in a load of their own.
fn joined_rows(alloc: Global, loads: &[Load]) -> Result<Load, AllocError>
    requires { AreOf Rows loads.now }
    ensures all { IfOk result (λ load. elements load ≡ elements_of loads.now) }
    ensures kind { IfOk result (λ load. kind_of load ≡ Rows) }
{
    let mut items = Vec::new(alloc);
    for load in loads {
        match load {
            Load::Rows(rows) => push_rows(alloc, &mut items, rows.as_slice())?,
            _ => unreachable!(),
        }
    }
    Ok(Load::Rows(Chunk::of_vec(alloc, items)?))
}

/// Loads of a kind as one. Where there is one alone it isn't copied.
pub(crate) fn joined(alloc: Global, kind: Kind, mut loads: Vec<Load>) -> Result<Load, AllocError>
    requires { (k : LoadKind) × (kind ≡ stream_kind k) × AreOf k loads.items }
    ensures all { IfOk result (λ load. elements load ≡ elements_of loads.items) }
    ensures kind { IfOk result (λ load. (k : LoadKind) → kind ≡ stream_kind k → kind_of load ≡ k) }
{
    if loads.len() == 1 {
        let Some(load) = loads.pop() else {
            unreachable!()
        };
        return Ok(load);
    }
    match kind {
        Kind::Bytes | Kind::Any => joined_bytes(alloc, loads.as_slice()),
        Kind::Lines => joined_lines(alloc, loads.as_slice()),
        Kind::Rows => joined_rows(alloc, loads.as_slice()),
    }
}
