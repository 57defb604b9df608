//! The stream: gathered, read as rows, looked up and rendered.
ghost use Rattle.std.specs.Prelude.{◌≡◌, IfOk, IsTrue};
ghost use Rattle.chunk_core.specs.Elements.{kind_of};
ghost use Rattle.chunk_core.specs.Elements.LoadKind.{Rows};
ghost use Rattle.csv_bench.specs.States.{Gave, MayGive, MayLookUp, MayRead};

use chunk_core::{Chunk, Fed, Feed, Load, render};
use csv_pipes::{CsvPipe, Dict, LookupPipe};
use std::alloc::{AllocError, Global};
use std::io;
use std::io::{Read, Write};
use std::sync::Arc;

/// How many bytes are read at once.
const PIECE: usize = 4096;

/// Up to so many bytes; none at the end.
fn next_piece<R: Read>(alloc: Global, input: &mut R) -> io::Result<Chunk<u8>> {
    let mut piece = Vec::new(alloc);
    piece.resize(PIECE, 0)?;
    let len = input.read(piece.as_mut_slice())?;
    piece.truncate(len);
    Ok(Chunk::of_vec(alloc, piece)?)
}

/// Feeds the whole input, and answers whether the pipe goes on.
fn gather<R: Read>(alloc: Global, input: &mut R, csv: &mut CsvPipe) -> io::Result<bool>
    requires { MayRead csv.old }
    ensures { IfOk result (λ goes_on. IsTrue goes_on → MayRead csv.new) }
{
    'pieces: for _ in 0..u64::MAX {
        let piece = next_piece(alloc, input)?;
        if piece.is_empty() {
            return Ok(true);
        }
        let Fed::Out(_) = csv.feed(alloc, Load::Bytes(piece))? else {
            return Ok(false);
        };
    }
    Ok(true)
}

/// The next rows, where there are some.
fn next_rows(alloc: Global, csv: &mut CsvPipe) -> Result<Fed, AllocError>
    requires { MayGive csv.old }
    ensures { IfOk result (λ fed. Gave fed csv.new) }
{
    csv.finish(alloc)
}

/// Looks the rows up, and writes them. False where the pipe had a fault.
fn give<W: Write>(
    alloc: Global,
    rows: Load,
    lookup: &mut LookupPipe,
    output: &mut W,
) -> io::Result<bool>
    requires rows { kind_of rows ≡ Rows }
    requires lookup { MayLookUp lookup.old }
    ensures { IfOk result (λ goes_on. IsTrue goes_on → MayLookUp lookup.new) }
{
    let Fed::Out(longer) = lookup.feed(alloc, rows)? else {
        return Ok(false);
    };
    output.write_all(render(alloc, &longer)?.as_slice())?;
    Ok(true)
}

/// Writes the rows of the input with their values. False where a pipe had a fault.
pub fn copy<R: Read, W: Write>(
    alloc: Global,
    dict: Dict,
    input: &mut R,
    output: &mut W,
) -> io::Result<bool> {
    let mut csv = CsvPipe::new(alloc)?;
    let mut lookup = LookupPipe::new(alloc, Arc::new(alloc, dict)?, 0)?;
    if !gather(alloc, input, &mut csv)? {
        return Ok(false);
    }
    'batches: for _ in 0..u64::MAX {
        match next_rows(alloc, &mut csv)? {
            Fed::Out(rows) => {
                if !give(alloc, rows, &mut lookup, output)? {
                    return Ok(false);
                }
            }
            Fed::End => return Ok(true),
            Fed::Fault(_, _) => return Ok(false),
        }
    }
    Ok(true)
}
