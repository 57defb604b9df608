//! One field of each row.
ghost use Rattle.std.specs.Prelude.{◌≡◌, [], IfOk, map};
ghost use Rattle.chunk_core.specs.Elements.Element.{Line, Row};
ghost use Rattle.chunk_core.specs.Feed.{Meaning};
ghost use Rattle.pull_nodes.specs.Field.{each_made, field_line};
ghost use Rattle.pull_nodes.specs.Pipes.{IsMeaningOf};
ghost use Rattle.pull_nodes.specs.declared.pipe.Pipe.TheVariants as pipe;
ghost use Rattle.csv_pipes.specs.FieldState.{StandsFor};
ghost use Rattle.csv_pipes.specs.Made.{made_of};

use chunk_core::{Code, Fed, Feed, Line, Load, Row, Spare};
use std::alloc::{AllocError, Global};

/// `Field`: the field's place.
#[derive(Drop)]
pub struct FieldPipe {
    field: u32,
    spare: Spare,
}

/// The field of each row, up to the first row without it; and whether all have it.
fn lines_of(
    alloc: Global,
    spare: &mut Spare,
    field: usize,
    rows: &[Row],
) -> Result<(Vec<Line>, bool), AllocError>
    ensures { IfOk result (λ p. each_made (field_line field) (map Row rows.now) ≡ made_of (map Line p.0.items) p.1) }
{
    let mut lines = Vec::with_capacity(alloc, rows.len())?;
    for row in rows {
        let Some(line) = row.get(field) else {
            return Ok((lines, false));
        };
        lines.push(spare.line(alloc, line.as_slice())?)?;
    }
    Ok((lines, true))
}

impl FieldPipe {
    /// Nothing was read.
    pub fn new(alloc: Global, field: u32) -> Result<FieldPipe, AllocError>
        ensures { IfOk result (λ q. (m : Meaning) → IsMeaningOf (pipe.Field field) m → StandsFor q m []) }
    {
        Ok(FieldPipe {
            field,
            spare: Spare::new(alloc),
        })
    }
}

impl Feed for FieldPipe {
    ghost use Rattle.pull_nodes.specs.declared.pipe.Pipe.TheVariants as pipe;
    ghost use Rattle.pull_nodes.proofs.Meanings.{sound_from};
    ghost use Rattle.chunk_core.specs.Feed.{NothingComes};
    ghost use Rattle.csv_pipes.specs.FieldState.{StandsFor};

    ghost stands = { StandsFor };

    ghost comes = { NothingComes };

    ghost sound = { λ q m xs h. sound_from (pipe.Field q.field) m h.0 xs h.1 };

    fn feed(&mut self, alloc: Global, load: Load) -> Result<Fed, AllocError> {
        let Load::Rows(rows) = load else {
            unreachable!()
        };
        self.spare.regain();
        let (lines, all) = lines_of(alloc, &mut self.spare, self.field as usize, rows.as_slice())?;
        let given = Load::Lines(self.spare.give(alloc, lines)?);
        if !all {
            return Ok(Fed::Fault(given, Code::NoField));
        }
        Ok(Fed::Out(given))
    }

    fn finish(&mut self, _alloc: Global) -> Result<Fed, AllocError> {
        Ok(Fed::End)
    }
}
