//! A line between each two.
ghost use Rattle.std.specs.Prelude.{◌≡◌, ◌++◌, ◌∷◌, ◌||◌, [], IfOk, OnOk, map};
ghost use Rattle.chunk_core.specs.Elements.Element.{Line};
ghost use Rattle.chunk_core.specs.Feed.{Meaning};
ghost use Rattle.pull_nodes.specs.Pipes.{IsMeaningOf};
ghost use Rattle.pull_nodes.specs.declared.pipe.Pipe.TheVariants as pipe;
ghost use Rattle.stream_ops.specs.IntersperseState.{StandsFor};
ghost use Rattle.stream_ops.specs.Spread.{is_any, spread};

use crate::loads::{into_lines, push_copy};
use chunk_core::{Fed, Feed, Line, Load, Spare};
use std::alloc::{AllocError, Global};

/// `Intersperse`: the line that stands between, and whether a line came.
#[derive(Drop)]
pub struct InterspersePipe {
    between: Line,
    started: bool,
    spare: Spare,
}

/// Appends a line, behind the one between where others came before.
fn put(
    alloc: Global,
    spare: &mut Spare,
    given: &mut Vec<Line>,
    between: &Line,
    started: bool,
    line: &Line,
) -> Result<(), AllocError>
    ensures { OnOk result (map Line given.new.items ≡ map Line given.old.items ++ spread started between.now (Line line.now ∷ [])) }
{
    if started {
        push_copy(alloc, spare, given, between)?;
    }
    push_copy(alloc, spare, given, line)
}

impl InterspersePipe {
    /// Nothing was read.
    pub fn new(alloc: Global, line: Line) -> Result<InterspersePipe, AllocError>
        ensures { IfOk result (λ q. (m : Meaning) → IsMeaningOf (pipe.Intersperse line) m → StandsFor q m []) }
    {
        Ok(InterspersePipe {
            between: line,
            started: false,
            spare: Spare::new(alloc),
        })
    }

    /// The lines, and those between.
    fn take(&mut self, alloc: Global, lines: &[Line]) -> Result<Vec<Line>, AllocError>
        ensures given { IfOk result (λ given. map Line given.items ≡ spread self.old.started self.old.between (map Line lines.now)) }
        ensures started { OnOk result (self.new.started ≡ (self.old.started || is_any lines.now)) }
        ensures between { OnOk result (self.new.between ≡ self.old.between) }
    {
        let mut given = Vec::with_capacity(alloc, lines.len().saturating_mul(2))?;
        for line in lines {
            put(
                alloc,
                &mut self.spare,
                &mut given,
                &self.between,
                self.started,
                line,
            )?;
            self.started = true;
        }
        Ok(given)
    }
}

impl Feed for InterspersePipe {
    ghost use Rattle.std.specs.Prelude.{refl};
    ghost use Rattle.pull_nodes.specs.declared.pipe.Pipe.TheVariants as pipe;
    ghost use Rattle.pull_nodes.proofs.Meanings.{sound_from};
    ghost use Rattle.chunk_core.specs.Feed.{NothingComes};
    ghost use Rattle.stream_ops.specs.IntersperseState.{StandsFor};

    ghost stands = { StandsFor };

    ghost comes = { NothingComes };

    ghost sound = { λ q m xs h. sound_from (pipe.Intersperse q.between) m h.0 xs refl };

    fn feed(&mut self, alloc: Global, load: Load) -> Result<Fed, AllocError> {
        let lines = into_lines(load);
        self.spare.regain();
        let given = self.take(alloc, lines.as_slice())?;
        Ok(Fed::Out(Load::Lines(self.spare.give(alloc, given)?)))
    }

    fn finish(&mut self, _alloc: Global) -> Result<Fed, AllocError> {
        Ok(Fed::End)
    }
}
