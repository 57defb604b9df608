//! A table's text.
ghost use Rattle.std.specs.Prelude.{◌≡◌, ℕ, List, None, IfOk, IfErr};
ghost use Rattle.std.specs.FinMap.{get};
ghost use Rattle.csv_pipes.specs.Dictionaries.{records_fault, table_fault, table_value};
ghost use Rattle.csv_pipes.specs.Refusals.{IsDraftOf, IsRefusedBy, IsTable, IsTaken};
ghost use Rattle.csv.specs.Records.{fields_of};
ghost use Rattle.csv_pipes.specs.Even.{even_part};

use crate::csv_pipe::MOST_GATHERED;
use crate::dict::Dict;
use crate::even::{EvenRows, Found};
use chunk_core::Code;
use csv::ByteRecord;
use std::alloc::{AllocError, Global};

/// The most bytes of a value.
const LONGEST_VALUE: usize = 1024;

/// Why there is no dictionary.
#[derive(Clone, Copy, Debug, PartialEq, Eq)]
pub enum TableRefused {
    Memory,
    /// What is wrong with the text.
    Data(Code),
}

impl From<AllocError> for TableRefused {
    ghost use Rattle.std.specs.Prelude.{◌≡◌};
    ghost use Rattle.csv_pipes.specs.declared.table.TableRefused.TheVariants.{Memory};

    ghost from_gives = { λ _ e. e ≡ Memory };

    fn from(_: AllocError) -> TableRefused {
        TableRefused::Memory
    }
}

/// What was read of a table: its dictionary, and whether a value was too long.
#[derive(Drop)]
pub(crate) struct Draft {
    dict: Dict,
    long: bool,
}

impl Draft {
    /// Takes the next record, or answers false where it has fewer than two fields.
    fn take(&mut self, alloc: Global, record: &ByteRecord) -> Result<bool, AllocError>
        ensures { IfOk result (λ taken. (seen : List (List (List ℕ))) → IsDraftOf seen self.old → IsTaken taken seen (fields_of record.now) self.new) }
    {
        let (Some(key), Some(value)) = (record.get(0), record.get(1)) else {
            return Ok(false);
        };
        self.long |= value.len() > LONGEST_VALUE;
        self.dict.add(alloc, key, value)?;
        Ok(true)
    }
}

/// The dictionary of a text's rows.
fn read_rows(alloc: Global, mut rows: EvenRows<&[u8]>) -> Result<Dict, TableRefused>
    ensures ok { IfOk result (λ dict. (records : List (List (List ℕ))) → rows.entry ≡ even_part records → IsTable records dict) }
    ensures refused { IfErr result (λ why. (records : List (List (List ℕ))) → rows.entry ≡ even_part records → IsRefusedBy (records_fault records) why) }
{
    let mut draft = Draft {
        dict: Dict::new(alloc),
        long: false,
    };
    let mut record = ByteRecord::new(alloc);
    'records: loop {
        match rows.next(&mut record)? {
            Found::Row => {
                if !draft.take(alloc, &record)? {
                    return Err(TableRefused::Data(Code::NoField));
                }
            }
            Found::End if draft.long => return Err(TableRefused::Data(Code::TooLarge)),
            Found::End => return Ok(draft.dict),
            Found::Uneven => return Err(TableRefused::Data(Code::Uneven)),
        }
    }
}

/// The dictionary of a table's text: field 0 of each record is a key and field 1 its value, and the
/// first record with a key counts.
pub fn table_of(alloc: Global, bytes: &[u8]) -> Result<Dict, TableRefused>
    ensures fine { IfOk result (λ dict. table_fault bytes.now ≡ None) }
    ensures values { IfOk result (λ dict. (key : List ℕ) → get dict key ≡ table_value bytes.now key) }
    ensures refused { IfErr result (λ why. IsRefusedBy (table_fault bytes.now) why) }
{
    if bytes.len() > MOST_GATHERED {
        return Err(TableRefused::Data(Code::TooLarge));
    }
    let Ok(_) = simdutf8::basic::from_utf8(bytes) else {
        return Err(TableRefused::Data(Code::NotUtf8));
    };
    read_rows(alloc, EvenRows::new(alloc, bytes)?)
}
