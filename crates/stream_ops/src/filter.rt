//! Lines that contain a text.
ghost use Rattle.std.specs.Prelude.{◌≡◌, [], IfOk, filter};
ghost use Rattle.chunk_core.specs.Feed.{Meaning};
ghost use Rattle.pull_nodes.specs.Pipes.{IsMeaningOf};
ghost use Rattle.pull_nodes.specs.Filter.{contains};
ghost use Rattle.pull_nodes.specs.declared.pipe.Pipe.TheVariants as pipe;
ghost use Rattle.stream_ops.specs.FilterState.{StandsFor};

use crate::loads::{into_lines, push_copy};
use chunk_core::{Chunk, Fed, Feed, Line, Load, Spare};
use memchr::memmem::Finder;
use std::alloc::{AllocError, Global};

/// `Filter`: the search for the text.
#[derive(Drop)]
pub struct FilterPipe {
    finder: Box<Finder<'static>>,
    spare: Spare,
}

fn is_match(finder: &Finder<'_>, line: &Line) -> bool
    ensures { result ≡ contains finder.now line.now }
{
    finder.find(line.as_slice()).is_some()
}

/// Copies of the lines that contain the text.
fn keep(
    alloc: Global,
    spare: &mut Spare,
    finder: &Finder<'_>,
    lines: &[Line],
) -> Result<Vec<Line>, AllocError>
    ensures { IfOk result (λ kept. kept.items ≡ filter (contains finder.now) lines.now) }
{
    let mut kept = Vec::with_capacity(alloc, lines.len())?;
    for line in lines {
        if is_match(finder, line) {
            push_copy(alloc, spare, &mut kept, line)?;
        }
    }
    Ok(kept)
}

impl FilterPipe {
    /// Nothing was read.
    pub fn new(alloc: Global, text: Line) -> Result<FilterPipe, AllocError>
        ensures { IfOk result (λ q. (m : Meaning) → IsMeaningOf (pipe.Filter text) m → StandsFor q m []) }
    {
        let finder = Finder::new(text.as_slice()).into_owned(alloc)?;
        Ok(FilterPipe {
            finder: Box::new(alloc, finder)?,
            spare: Spare::new(alloc),
        })
    }

    /// The lines that contain the text: the chunk's own where nobody else has them, else copies.
    fn take(&mut self, alloc: Global, lines: Chunk<Line>) -> Result<Vec<Line>, AllocError>
        ensures kept { IfOk result (λ kept. kept.items ≡ filter (contains self.old.finder.value) lines) }
        ensures same { self.new.finder.value ≡ self.old.finder.value }
    {
        match lines.into_vec() {
            Ok(mut own) => {
                let finder = &self.finder;
                own.retain(|line| is_match(finder, line));
                Ok(own)
            }
            Err(shared) => keep(alloc, &mut self.spare, &self.finder, shared.as_slice()),
        }
    }
}

impl Feed for FilterPipe {
    ghost use Rattle.std.specs.Prelude.{refl};
    ghost use Rattle.pull_nodes.specs.declared.pipe.Pipe.TheVariants as pipe;
    ghost use Rattle.pull_nodes.proofs.Meanings.{sound_from};
    ghost use Rattle.chunk_core.specs.Feed.{NothingComes};
    ghost use Rattle.stream_ops.specs.FilterState.{StandsFor};

    ghost stands = { StandsFor };

    ghost comes = { NothingComes };

    ghost sound = { λ q m xs h. sound_from (pipe.Filter q.finder.value) m h xs refl };

    fn feed(&mut self, alloc: Global, load: Load) -> Result<Fed, AllocError> {
        self.spare.regain();
        let kept = self.take(alloc, into_lines(load))?;
        Ok(Fed::Out(Load::Lines(self.spare.give(alloc, kept)?)))
    }

    fn finish(&mut self, _alloc: Global) -> Result<Fed, AllocError> {
        Ok(Fed::End)
    }
}
