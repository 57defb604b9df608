//! The records of a text as rows.
use crate::even::{EvenRows, Found};
use crate::kept::KeptRows;
use chunk_core::{Chunk, Code, Fed, Feed, Load, Row};
use std::alloc::{AllocError, Global};
use std::io::Cursor;
use std::mem;

/// The most bytes that are gathered, and that a table may have.
pub(crate) const MOST_GATHERED: usize = 16_777_216;

/// The text as far as it was gathered, and from the input's end on the rows that are still to come.
#[derive(Drop)]
pub(crate) enum Stage {
    Gathering(Vec<u8>),
    Reading(EvenRows<Cursor<Vec<u8>>>),
    Ended,
}

/// `Csv`: the text, and then its rows; and a chunk of no rows, which is given before the end.
#[derive(Drop)]
pub struct CsvPipe {
    stage: Stage,
    kept: KeptRows,
    none: Chunk<Row>,
}

impl CsvPipe {
    ghost use Rattle.std.specs.Prelude.{◌≡◌, ◌+◌, ◌≤◌, [], IfOk, length, map};
    ghost use Rattle.chunk_core.specs.Elements.Element.{Row};
    ghost use Rattle.chunk_core.specs.Elements.LoadKind.{Rows};
    ghost use Rattle.chunk_core.specs.Feed.{Continues, Meaning};
    ghost use Rattle.pull_nodes.specs.Pipes.{IsMeaningOf};
    ghost use Rattle.pull_nodes.specs.declared.pipe.Pipe.TheVariants as pipe;
    ghost use Rattle.pull_nodes.specs.Csv.{most_gathered, uneven_fault};
    ghost use Rattle.csv_pipes.specs.CsvState.{StandsFor, Comes};
    ghost use Rattle.csv_pipes.specs.declared.csv_pipe.Stage.TheVariants as stage;

    /// No byte was read.
    pub fn new(alloc: Global) -> Result<CsvPipe, AllocError>
        ensures { IfOk result (λ q. (m : Meaning) → IsMeaningOf pipe.Csv m → StandsFor q m []) }
    {
        Ok(CsvPipe {
            stage: Stage::Gathering(Vec::new(alloc)),
            kept: KeptRows::new(alloc),
            none: Chunk::of_vec(alloc, Vec::new(alloc))?,
        })
    }

    /// The next rows, of those that are left.
    fn answer(
        &mut self,
        alloc: Global,
        mut left: EvenRows<Cursor<Vec<u8>>>,
    ) -> Result<Fed, AllocError>
        requires { self.old.stage ≡ stage.Ended }
        ensures { IfOk result (λ fed. length left.0 ≤ most_gathered + 1 → Continues Rows (map Row left.0) (uneven_fault left.1) fed (Comes self.new Rows)) }
    {
        self.kept.regain();
        let (rows, found) = left.take_rows(alloc, &mut self.kept)?;
        let load = Load::Rows(self.kept.give(alloc, rows)?);
        match found {
            Found::Row => {
                self.stage = Stage::Reading(left);
                Ok(Fed::Out(load))
            }
            Found::End if load.is_empty() => Ok(Fed::End),
            Found::End => Ok(Fed::Out(load)),
            Found::Uneven => Ok(Fed::Fault(load, Code::Uneven)),
        }
    }
}

impl Feed for CsvPipe {
    ghost use Rattle.std.proofs.Common.{ap};
    ghost use Rattle.pull_nodes.specs.declared.pipe.Pipe.TheVariants as pipe;
    ghost use Rattle.pull_nodes.proofs.Meanings.{sound_from};
    ghost use Rattle.csv_pipes.specs.CsvState.{StandsFor, Comes, fault_where};

    ghost stands = { StandsFor };

    ghost comes = { Comes };

    ghost sound = { λ q m xs h. sound_from pipe.Csv m h.0 xs (ap fault_where h.2) };

    fn feed(&mut self, _alloc: Global, load: Load) -> Result<Fed, AllocError> {
        let none = Load::Rows(self.none.split(0)?);
        let Load::Bytes(bytes) = load else {
            unreachable!()
        };
        let Stage::Gathering(text) = &mut self.stage else {
            unreachable!()
        };
        if text.len().saturating_add(bytes.len()) > MOST_GATHERED {
            return Ok(Fed::Fault(none, Code::TooLarge));
        }
        text.extend_from_slice(bytes.as_slice())?;
        Ok(Fed::Out(none))
    }

    fn finish(&mut self, alloc: Global) -> Result<Fed, AllocError> {
        match mem::replace(&mut self.stage, Stage::Ended) {
            Stage::Gathering(text) => {
                let Ok(_) = simdutf8::basic::from_utf8(text.as_slice()) else {
                    return Ok(Fed::Fault(Load::Rows(self.none.split(0)?), Code::NotUtf8));
                };
                let left = EvenRows::new(alloc, Cursor::new(text))?;
                self.answer(alloc, left)
            }
            Stage::Reading(left) => self.answer(alloc, left),
            Stage::Ended => Ok(Fed::End),
        }
    }
}
