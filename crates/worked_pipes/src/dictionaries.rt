//! The dictionary of a table.
use csv_pipes::{Dict, TableRefused, table_of};
use std::alloc::{AllocError, Global};
use std::test::Fail;

/// The dictionary of a text that is a table.
pub(crate) fn dict_of(alloc: Global, text: &[u8]) -> Result<Dict, Fail> {
    match table_of(alloc, text) {
        Ok(dict) => Ok(dict),
        Err(TableRefused::Memory) => Err(AllocError.into()),
        Err(TableRefused::Data(_)) => Err("the table is refused".into()),
    }
}
