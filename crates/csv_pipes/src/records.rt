//! The records of a text, one after another.
ghost use Rattle.std.specs.Prelude.{◌≡◌, ℕ, ◌∷◌, [], List, Some, true, false, IfOk, OnOk};
ghost use Rattle.csv.specs.Records.{fields_of};
ghost use Rattle.pull_nodes.specs.Csv.{records_of};
ghost use Rattle.csv_pipes.specs.Left.{IsReading, TakesRecord, records_at};

use csv::{ByteRecord, Reader, ReaderBuilder};
use std::alloc::{AllocError, Global};
use std::io::Read;
use std::marker::Model;

/// The records of a text that are still to come, of any numbers of fields, the first one as the
/// others.
#[derive(Drop)]
pub(crate) struct Records<R: Read> {
    reader: Option<Box<Reader<R>>>,
}

impl<R: Read> Model for Records<R> {
    ghost use Rattle.std.specs.Prelude.{ℕ, List, IfSome};
    ghost use Rattle.csv_pipes.specs.Left.{IsReading, records_left};

    ghost Value = { List (List (List ℕ)) };

    ghost view = { λ a. records_left R.remaining a.reader };

    ghost invariant = { λ a. IfSome a.reader (λ b. IsReading R.remaining b.value) };
}

/// The next record, or false where there is none.
fn read<R: Read>(reader: &mut Reader<R>, record: &mut ByteRecord) -> Result<bool, AllocError>
    requires { IsReading R.remaining reader.old }
    ensures reads { IfOk result (λ found. found ≡ true → IsReading R.remaining reader.new) }
    ensures takes { IfOk result (λ found. TakesRecord found (records_at R.remaining reader.old) (fields_of record.new) (records_at R.remaining reader.new)) }
{
    let Ok(found) = reader.read_byte_record(record) else {
        return Err(AllocError);
    };
    Ok(found)
}

impl<R: Read + Drop> Records<R> {
    /// None was read.
    pub(crate) fn new(alloc: Global, text: R) -> Result<Records<R>, AllocError>
        requires known { (xs : List ℕ) × (R.remaining text ≡ Some xs) }
        ensures { IfOk result (λ records. (xs : List ℕ) → R.remaining text ≡ Some xs → records ≡ records_of xs) }
    {
        let reader = ReaderBuilder::new()
            .has_headers(false)
            .flexible(true)
            .from_reader(alloc, text);
        Ok(Records {
            reader: Some(Box::new(alloc, reader)?),
        })
    }

    /// Takes the next record, or answers false where there is none.
    pub(crate) fn next(&mut self, record: &mut ByteRecord) -> Result<bool, AllocError>
        ensures { IfOk result (λ found. TakesRecord found self.old (fields_of record.new) self.new) }
    {
        let Some(mut reader) = self.reader.take() else {
            return Ok(false);
        };
        if !read(&mut reader, record)? {
            return Ok(false);
        }
        self.reader = Some(reader);
        Ok(true)
    }
}
