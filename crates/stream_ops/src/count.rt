//! The number of elements.
ghost use Rattle.std.specs.Prelude.{◌≡◌, [], IfOk, decimal};
ghost use Rattle.chunk_core.specs.Feed.{Meaning};
ghost use Rattle.pull_nodes.specs.Pipes.{IsMeaningOf};
ghost use Rattle.pull_nodes.specs.declared.pipe.Pipe.TheVariants as pipe;
ghost use Rattle.stream_ops.specs.CountState.{StandsFor};

use chunk_core::{Chunk, Fed, Feed, Line, Load};
use std::alloc::{AllocError, Global};

/// `Count`: the number so far, and whether it was given; and a chunk of no lines, which is given
/// before the end.
#[derive(Drop)]
pub struct CountPipe {
    count: u64,
    told: bool,
    none: Chunk<Line>,
}

fn line_of(alloc: Global, count: u64) -> Result<Line, AllocError>
    ensures { IfOk result (λ line. line ≡ decimal count) }
{
    Ok(Line::of_vec(format!(in alloc; "{count}")?.into_bytes()))
}

impl CountPipe {
    /// Nothing was read.
    pub fn new(alloc: Global) -> Result<CountPipe, AllocError>
        ensures { IfOk result (λ q. (m : Meaning) → IsMeaningOf pipe.Count m → StandsFor q m []) }
    {
        Ok(CountPipe {
            count: 0,
            told: false,
            none: Chunk::of_vec(alloc, Vec::new(alloc))?,
        })
    }
}

impl Feed for CountPipe {
    ghost use Rattle.std.specs.Prelude.{refl};
    ghost use Rattle.pull_nodes.specs.declared.pipe.Pipe.TheVariants as pipe;
    ghost use Rattle.pull_nodes.proofs.Meanings.{sound_from};
    ghost use Rattle.stream_ops.specs.CountState.{StandsFor, Comes};

    ghost stands = { StandsFor };

    ghost comes = { Comes };

    ghost sound = { λ q m xs h. sound_from pipe.Count m h.0 xs refl };

    fn feed(&mut self, _alloc: Global, load: Load) -> Result<Fed, AllocError> {
        self.count = self.count.saturating_add(load.len() as u64);
        Ok(Fed::Out(Load::Lines(self.none.split(0)?)))
    }

    fn finish(&mut self, alloc: Global) -> Result<Fed, AllocError> {
        if self.told {
            return Ok(Fed::End);
        }
        let mut lines = Vec::new(alloc);
        lines.push(line_of(alloc, self.count)?)?;
        self.told = true;
        Ok(Fed::Out(Load::Lines(Chunk::of_vec(alloc, lines)?)))
    }
}
