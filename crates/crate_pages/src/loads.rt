//! Loads of bytes and of lines, and their texts.
ghost use Rattle.std.specs.Prelude.{◌≡◌, IfOk};
ghost use Rattle.chunk_core.specs.Elements.{kind_of};
ghost use Rattle.chunk_core.specs.Elements.LoadKind.{Bytes, Lines};

use chunk_core::{Chunk, Line, Load, render};
use std::alloc::{AllocError, Global};

pub fn bytes(alloc: Global, text: &[u8]) -> Result<Load, AllocError>
    ensures { IfOk result (λ load. kind_of load ≡ Bytes) }
{
    let text = Vec::from_slice(alloc, text)?;
    Ok(Load::Bytes(Chunk::of_vec(alloc, text)?))
}

/// Each text is a line.
pub fn lines(alloc: Global, texts: &[&[u8]]) -> Result<Load, AllocError>
    ensures { IfOk result (λ load. kind_of load ≡ Lines) }
{
    let mut lines = Vec::new(alloc);
    for text in texts {
        lines.push(Line::copy_of(alloc, text)?)?;
    }
    Ok(Load::Lines(Chunk::of_vec(alloc, lines)?))
}

/// The text of each load, with a bar behind it.
pub fn text_of(alloc: Global, loads: &[Load]) -> Result<Vec<u8>, AllocError> {
    let mut text = Vec::new(alloc);
    for load in loads {
        text.extend_from_slice(render(alloc, load)?.as_slice())?;
        text.push(b'|')?;
    }
    Ok(text)
}
