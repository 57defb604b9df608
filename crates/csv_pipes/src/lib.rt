//! Comma-separated values: the records of a text as rows, a field of each row, and the value that a
//! table has for it.
//!
//! `CsvPipe` gathers a text and gives its records at the end, in loads of at most 1,024 rows.
//! `FieldPipe` gives one field of each row as a line, and `LookupPipe` each row with one field more,
//! the value that a table has for one of its fields. Each is made by `new`, is fed load by load
//! (`feed`), and told the end again and again (`finish`) until it answers `Fed::End`.
//!
//! `Fed::Fault` comes with what was given before it: `TooLarge`, `NotUtf8` and `Uneven` from
//! `CsvPipe`, `NoField` from the others. After a fault, the end or `AllocError` a pipe may only be
//! dropped.
//!
//! `table_of` makes the dictionary of a table's text (`Dict`), or tells why there is none
//! (`TableRefused`). `Dicts` has the dictionaries of a run's tables by their numbers, and shares the first of them.
//!
//! ```
//! let mut dicts = Dicts::new(alloc);
//! dicts.push(alloc, table_of(alloc, table)?)?;
//! let mut csv = CsvPipe::new(alloc)?;
//! let mut lookup = LookupPipe::new(alloc, dicts.dict(alloc, 0)?, 0)?;
//! let Fed::Out(_) = csv.feed(alloc, bytes(alloc, text)?)? else {
//!     return Ok(None);
//! };
//! let Fed::Out(rows) = csv.finish(alloc)? else {
//!     return Ok(None);
//! };
//! let Fed::Out(longer) = lookup.feed(alloc, rows)? else {
//!     return Ok(None);
//! };
//! Ok(Some(text_of(alloc, [longer].as_slice())?))
//! ```
#![tactic(auto)]

pub mod crossing;
pub mod csv_pipe;
pub mod dict;
pub mod dicts;
pub(crate) mod even;
pub mod field_pipe;
pub(crate) mod kept;
pub mod lookup_pipe;
pub(crate) mod records;
pub mod table;

pub use csv_pipe::CsvPipe;
pub use dict::Dict;
pub use dicts::Dicts;
pub use field_pipe::FieldPipe;
pub use lookup_pipe::LookupPipe;
pub use table::{TableRefused, table_of};
