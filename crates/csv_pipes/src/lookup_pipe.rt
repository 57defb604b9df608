//! Rows with a table's value for one of their fields.
ghost use Rattle.std.specs.Prelude.{◌≡◌, ◌++◌, ◌∷◌, ℕ, List, [], IfOk, OnOk, map, unwrap_or};
ghost use Rattle.std.specs.Arc.{arc_value};
ghost use Rattle.std.specs.FinMap as dictionary;
ghost use Rattle.chunk_core.specs.Elements.Element.{Row};
ghost use Rattle.chunk_core.specs.Feed.{Meaning};
ghost use Rattle.chunk_core.specs.Tables.{Values};
ghost use Rattle.pull_nodes.specs.Field.{each_made};
ghost use Rattle.pull_nodes.specs.Lookup.{looked_up};
ghost use Rattle.pull_nodes.specs.Pipes.{IsMeaningOver};
ghost use Rattle.pull_nodes.specs.declared.pipe.Pipe.TheVariants as pipe;
ghost use Rattle.csv_pipes.specs.LookupState.{StandsFor};
ghost use Rattle.csv_pipes.specs.Made.{made_of};

use crate::dict::Dict;
use crate::kept::KeptRows;
use chunk_core::{Chunk, Code, Fed, Feed, Line, Load, Row};
use std::alloc::{AllocError, Global};
use std::sync::Arc;

/// `Lookup`: the table's values, and the place of the field that is the key.
#[derive(Drop)]
pub struct LookupPipe {
    table: Arc<Dict>,
    field: u32,
    kept: KeptRows,
}

/// The value for the key, or nothing where it has none.
fn value_of<'a>(table: &'a Dict, key: &[u8]) -> &'a [u8]
    ensures { result.now ≡ unwrap_or (dictionary.get table.now key.now) [] }
{
    match table.get(key) {
        Some(value) => value.as_slice(),
        None => &[],
    }
}

/// The row with the value at its end.
fn push_value(alloc: Global, value: &[u8], row: Row) -> Result<Row, AllocError>
    ensures { IfOk result (λ longer. longer ≡ row ++ value.now ∷ []) }
{
    let value = Line::copy_of(alloc, value)?;
    let mut fields = row.into_vec();
    fields.push(value)?;
    Ok(Row::of_vec(fields))
}

/// The rows themselves, each with its value at its end, up to the first without the field; and
/// whether all have it.
fn lengthen(
    alloc: Global,
    table: &Dict,
    field: usize,
    rows: Vec<Row>,
) -> Result<(Vec<Row>, bool), AllocError>
    ensures { IfOk result (λ p. each_made (looked_up (dictionary.get table.now) field) (map Row rows.items) ≡ made_of (map Row p.0.items) p.1) }
{
    let mut given = Vec::with_capacity(alloc, rows.len())?;
    for row in rows {
        let Some(key) = row.get(field) else {
            return Ok((given, false));
        };
        let value = value_of(table, key.as_slice());
        given.push(push_value(alloc, value, row)?)?;
    }
    Ok((given, true))
}

/// Longer copies of the rows, each with its value at its end, up to the first without the field; and
/// whether all have it.
fn copy_longer(
    alloc: Global,
    kept: &mut KeptRows,
    table: &Dict,
    field: usize,
    rows: &[Row],
) -> Result<(Vec<Row>, bool), AllocError>
    ensures { IfOk result (λ p. each_made (looked_up (dictionary.get table.now) field) (map Row rows.now) ≡ made_of (map Row p.0.items) p.1) }
{
    let mut given = Vec::with_capacity(alloc, rows.len())?;
    for row in rows {
        let Some(key) = row.get(field) else {
            return Ok((given, false));
        };
        let value = value_of(table, key.as_slice());
        given.push(kept.longer(alloc, row.as_slice(), value)?)?;
    }
    Ok((given, true))
}

impl LookupPipe {
    /// Nothing was read. The table is shared with whoever else has it.
    pub fn new(alloc: Global, table: Arc<Dict>, field: u32) -> Result<LookupPipe, AllocError>
        ensures { IfOk result (λ q. (v : Values) (t : ℕ) (m : Meaning) → ((key : List ℕ) → v t key ≡ dictionary.get (arc_value table) key) → IsMeaningOver v (pipe.Lookup t field) m → StandsFor q m []) }
    {
        Ok(LookupPipe {
            table,
            field,
            kept: KeptRows::new(alloc),
        })
    }

    /// The rows with their values: the chunk's own where nobody else has them, else copies.
    fn take(&mut self, alloc: Global, rows: Chunk<Row>) -> Result<(Vec<Row>, bool), AllocError>
        ensures made { IfOk result (λ p. each_made (looked_up (dictionary.get (arc_value self.old.table)) self.old.field) (map Row rows) ≡ made_of (map Row p.0.items) p.1) }
        ensures table { OnOk result (self.new.table ≡ self.old.table) }
        ensures field { OnOk result (self.new.field ≡ self.old.field) }
    {
        let field = self.field as usize;
        match rows.into_vec() {
            Ok(own) => lengthen(alloc, &self.table, field, own),
            Err(shared) => {
                let rows = shared.as_slice();
                copy_longer(alloc, &mut self.kept, &self.table, field, rows)
            }
        }
    }
}

impl Feed for LookupPipe {
    ghost use Rattle.csv_pipes.specs.LookupState.{StandsFor, sound};
    ghost use Rattle.chunk_core.specs.Feed.{NothingComes};

    ghost stands = { StandsFor };

    ghost comes = { NothingComes };

    ghost sound = { sound };

    fn feed(&mut self, alloc: Global, load: Load) -> Result<Fed, AllocError> {
        let Load::Rows(rows) = load else {
            unreachable!()
        };
        self.kept.regain();
        let (rows, all) = self.take(alloc, rows)?;
        let given = Load::Rows(self.kept.give(alloc, rows)?);
        if !all {
            return Ok(Fed::Fault(given, Code::NoField));
        }
        Ok(Fed::Out(given))
    }

    fn finish(&mut self, _alloc: Global) -> Result<Fed, AllocError> {
        Ok(Fed::End)
    }
}
