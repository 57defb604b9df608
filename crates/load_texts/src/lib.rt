//! The text of loads, gathered in one.
//!
//! `push_text` appends what is printed of a load to a text: bytes as they are, each line with a line feed behind it, rows as
//! comma-separated values. Bytes and lines take no memory but that of the text; rows are rendered by themselves first. Where
//! memory is wanting it answers `AllocError`, and a front of the load's text may stand there.
//!
//! Nothing here runs by itself: the reading of an evaluation and its hands gather their texts so.
#![tactic(auto)]

pub mod text;

pub use text::push_text;
