//! Loads of one kind.
ghost use Rattle.std.specs.Prelude.{◌≡◌, [], ◌∷◌, map, IfOk};
ghost use Rattle.chunk_core.specs.Elements.{elements, kind_of};
ghost use Rattle.chunk_core.specs.Elements.Element.{Byte};
ghost use Rattle.chunk_core.specs.Elements.LoadKind.{Bytes};
ghost use Rattle.chunk_core.specs.declared.load.Load.TheVariants as load;

use chunk_core::{Chunk, Line, Load};
use std::alloc::{AllocError, Global};

pub(crate) fn into_bytes(load: Load) -> Chunk<u8>
    requires { kind_of load ≡ Bytes }
    ensures { elements load ≡ map Byte result }
{
    match load {
        Load::Bytes(bytes) => bytes,
        _ => unreachable!(),
    }
}

pub(crate) fn one_line(alloc: Global, line: Line) -> Result<Load, AllocError>
    ensures { IfOk result (λ given. given ≡ load.Lines (line ∷ [])) }
{
    let mut lines = Vec::new(alloc);
    lines.push(line)?;
    Ok(Load::Lines(Chunk::of_vec(alloc, lines)?))
}
