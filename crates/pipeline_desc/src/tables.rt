//! The tables of records of a description.
ghost use Rattle.std.specs.Prelude.{◌≡◌, true, codes, length, IfOk};
ghost use Rattle.std.specs.List.{list_all, list_any};
ghost use Rattle.std.specs.Str.{bytes_eq};
ghost use Rattle.toml.specs.Data.{get_member};
ghost use Rattle.toml.specs.View.{table_view};
ghost use Rattle.pipeline_desc.specs.Groups.{members_of};
ghost use Rattle.pipeline_desc.specs.Limits.{is_name, is_name_byte};
ghost use Rattle.pipeline_desc.specs.Reading.{ReadsAs};
ghost use Rattle.pipeline_desc.specs.Sound.{AreSoundTables, IsSoundTable};
ghost use Rattle.pipeline_desc.specs.Tables.{is_new_name, table_meant, tables_meant};
ghost use Rattle.pipeline_desc.specs.Values.{required, text_that};
ghost use Rattle.pipeline_desc.specs.declared.refusal.Position.TheVariants.{Nowhere};

use crate::refusal::{Position, RefusalKind, Refused, refuse};
use crate::table::TableSpec;
use crate::values::{LONGEST_PATH, check_keys, member, word};
use chunk_core::{List, Word};
use std::alloc::Global;
use toml::Table;

/// The most bytes of a name.
const LONGEST_NAME: usize = 32;

/// The byte may stand in a name.
fn is_name_byte(byte: u8) -> bool
    ensures { result ≡ is_name_byte byte }
{
    byte.is_ascii_lowercase() || byte.is_ascii_digit() || byte == b'_'
}

/// Each byte may stand in a name.
fn are_name_bytes(text: &[u8]) -> bool
    ensures { result ≡ list_all is_name_byte text.now }
{
    text.iter().all(|byte| is_name_byte(*byte))
}

/// The text is the name of a table.
fn is_name(text: &[u8]) -> bool
    ensures { result ≡ is_name text.now }
{
    text.len() >= 1 && text.len() <= LONGEST_NAME && are_name_bytes(text)
}

/// A table has this name.
fn is_taken(tables: &[TableSpec], name: &str) -> bool
    ensures { result ≡ list_any (λ t. bytes_eq t.name name.now) tables.now }
{
    tables.iter().any(|table| table.name.as_str() == name)
}

/// The text is a name that none of the tables has.
fn is_new_name(before: &[TableSpec], name: &str) -> bool
    ensures { result ≡ is_new_name before.now name.now }
{
    is_name(name.as_bytes()) && !is_taken(before, name)
}

/// The name of one more table.
fn new_name(alloc: Global, before: &[TableSpec], table: &Table) -> Result<Word, Refused>
    ensures meant { ReadsAs (λ w. w) result (required (text_that (is_new_name before.now) Nowhere) Nowhere (get_member (codes "name") (table_view table.now))) }
    ensures sound { IfOk result (λ w. is_new_name before.now w ≡ true) }
{
    let Some(value) = member(table, "name") else {
        return Err(refuse(RefusalKind::WrongType, Position::Nowhere));
    };
    let Some(name) = value.as_str() else {
        return Err(refuse(RefusalKind::WrongType, Position::Nowhere));
    };
    if !is_new_name(before, name) {
        return Err(refuse(RefusalKind::OutOfRange, Position::Nowhere));
    }
    Ok(Word::of(alloc, name)?)
}

/// One more table.
fn table(alloc: Global, before: &[TableSpec], table: &Table) -> Result<TableSpec, Refused>
    ensures meant { ReadsAs (λ t. t) result (table_meant before.now (table_view table.now)) }
    ensures sound { IfOk result (IsSoundTable before.now) }
{
    let top = Position::Nowhere;
    check_keys(table, &["name", "path"], top)?;
    let name = new_name(alloc, before, table)?;
    let path = word(alloc, table, "path", 1, LONGEST_PATH, top)?;
    Ok(TableSpec { name, path })
}

/// The tables that are described.
pub(crate) fn record_tables(alloc: Global, described: &[&Table]) -> Result<List<TableSpec>, Refused>
    ensures meant { ReadsAs (λ t. t) result (tables_meant (members_of described.now)) }
    ensures sound { IfOk result AreSoundTables }
    ensures count { IfOk result (λ t. length t ≡ length described.now) }
{
    let mut tables = List::new(alloc);
    for i in 0..described.len() {
        let table = table(alloc, tables.as_slice(), described[i])?;
        tables.push(table)?;
    }
    Ok(tables)
}
