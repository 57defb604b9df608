//! A text's rows with what a table has for their first fields.
use crate::loads::{bytes, text_of};
use chunk_core::{Fed, Feed};
use csv_pipes::{CsvPipe, Dicts, LookupPipe, TableRefused, table_of};
use std::alloc::Global;
use std::test::Fail;

/// The first rows of the text, each with the table's value for its field 0, where the text has some.
fn looked_up(alloc: Global, text: &[u8], table: &[u8]) -> Result<Option<Vec<u8>>, TableRefused> {
    let mut dicts = Dicts::new(alloc);
    dicts.push(alloc, table_of(alloc, table)?)?;
    let mut csv = CsvPipe::new(alloc)?;
    let mut lookup = LookupPipe::new(alloc, dicts.dict(alloc, 0)?, 0)?;
    let Fed::Out(_) = csv.feed(alloc, bytes(alloc, text)?)? else {
        return Ok(None);
    };
    let Fed::Out(rows) = csv.finish(alloc)? else {
        return Ok(None);
    };
    let Fed::Out(longer) = lookup.feed(alloc, rows)? else {
        return Ok(None);
    };
    Ok(Some(text_of(alloc, [longer].as_slice())?))
}

#[test]
fn a_row_without_a_value_gets_an_empty_field(rt: HostRuntime) -> Result<(), Fail> {
    match looked_up(rt.alloc(), b"b,1\n\"c,d\",2\n", b"a,one\nb,two\n") {
        Ok(Some(text)) => {
            assert_eq!(rt; text.as_slice(), b"b,1,two\n\"c,d\",2,\n|".as_slice());
            Ok(())
        }
        _ => Err(Fail::from("the pipes answered otherwise")),
    }
}
