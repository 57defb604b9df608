//! Lines behind their numbers.
ghost use Rattle.std.specs.Prelude.{◌≡◌, ◌++◌, ◌∷◌, [], ℕ, IfOk, decimal, map};
ghost use Rattle.std.specs.List.{enumerate_from};
ghost use Rattle.chunk_core.specs.Elements.Element.{Line};
ghost use Rattle.chunk_core.specs.Feed.{Meaning};
ghost use Rattle.pull_nodes.specs.Pipes.{IsMeaningOf};
ghost use Rattle.pull_nodes.specs.Number.{with_number};
ghost use Rattle.pull_nodes.specs.Plain.{capped_number};
ghost use Rattle.pull_nodes.specs.declared.pipe.Pipe.TheVariants as pipe;
ghost use Rattle.stream_ops.specs.NumberState.{StandsFor};

use crate::loads::into_lines;
use chunk_core::{Fed, Feed, Line, Load, Spare};
use itoa::Buffer;
use std::alloc::{AllocError, Global};

/// `Number`: the number of the next line.
#[derive(Drop)]
pub struct NumberPipe {
    next: u64,
    spare: Spare,
}

fn numbered(alloc: Global, spare: &mut Spare, number: u64, line: &Line) -> Result<Line, AllocError>
    ensures { IfOk result (λ given. given ≡ decimal number ++ 32 ∷ line.now) }
{
    let mut buffer = Buffer::new();
    let digits = buffer.format(number).as_bytes();
    let mut text = spare.empty(alloc);
    text.reserve(line.len().saturating_add(digits.len() + 1))?;
    text.extend_from_slice(digits)?;
    text.push(b' ')?;
    text.extend_from_slice(line.as_slice())?;
    Ok(Line::of_vec(text))
}

/// Each line behind its number, of which the first is given.
fn numbered_lines(
    alloc: Global,
    spare: &mut Spare,
    first: u64,
    lines: &[Line],
) -> Result<Vec<Line>, AllocError>
    ensures { IfOk result (λ given. (k : ℕ) → first ≡ capped_number k → map Line given.items ≡ map with_number (enumerate_from k (map Line lines.now))) }
{
    let mut given = Vec::with_capacity(alloc, lines.len())?;
    for (i, line) in lines.iter().enumerate() {
        let number = first.saturating_add(i as u64);
        given.push(numbered(alloc, spare, number, line)?)?;
    }
    Ok(given)
}

impl NumberPipe {
    /// Nothing was read.
    pub fn new(alloc: Global) -> Result<NumberPipe, AllocError>
        ensures { IfOk result (λ q. (m : Meaning) → IsMeaningOf pipe.Number m → StandsFor q m []) }
    {
        Ok(NumberPipe {
            next: 0,
            spare: Spare::new(alloc),
        })
    }
}

impl Feed for NumberPipe {
    ghost use Rattle.std.specs.Prelude.{refl};
    ghost use Rattle.pull_nodes.specs.declared.pipe.Pipe.TheVariants as pipe;
    ghost use Rattle.pull_nodes.proofs.Meanings.{sound_from};
    ghost use Rattle.chunk_core.specs.Feed.{NothingComes};
    ghost use Rattle.stream_ops.specs.NumberState.{StandsFor};

    ghost stands = { StandsFor };

    ghost comes = { NothingComes };

    ghost sound = { λ q m xs h. sound_from pipe.Number m h.0 xs refl };

    fn feed(&mut self, alloc: Global, load: Load) -> Result<Fed, AllocError> {
        let lines = into_lines(load);
        self.spare.regain();
        let given = numbered_lines(alloc, &mut self.spare, self.next, lines.as_slice())?;
        self.next = self.next.saturating_add(lines.len() as u64);
        Ok(Fed::Out(Load::Lines(self.spare.give(alloc, given)?)))
    }

    fn finish(&mut self, _alloc: Global) -> Result<Fed, AllocError> {
        Ok(Fed::End)
    }
}
