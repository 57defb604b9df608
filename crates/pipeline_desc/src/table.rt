//! One table of a plan.
use chunk_core::Word;

/// A file of records that steps look up by the table's name.
#[derive(Drop)]
pub struct TableSpec {
    /// Its name.
    pub name: Word,
    /// The file.
    pub path: Word,
}
