//! The values at the keys of a description.
ghost use Rattle.std.specs.Prelude.{◌≡◌, ◌≤◌, true, is_some, option_map, map, length, string_bytes, IfOk, IfSome};
ghost use Rattle.std.specs.List.{list_any, list_all};
ghost use Rattle.std.specs.Str.{bytes_eq};
ghost use Rattle.std.specs.BTreeMap.{keys};
ghost use Rattle.toml.specs.Data.{as_str, as_table, get_member};
ghost use Rattle.toml.specs.View.{items_view, table_view, view};
ghost use Rattle.pipeline_desc.specs.Limits.{is_sized};
ghost use Rattle.pipeline_desc.specs.Reading.{ReadsAs};
ghost use Rattle.pipeline_desc.specs.Values.{all_known, array_at, each_as, known_keys, list_at, number_within, required, seen_as, table_that, tables_at, text_that, where_given};
ghost use Rattle.pipeline_desc.specs.declared.refusal.Position.TheVariants.{Nowhere};

use crate::refusal::{Position, RefusalKind, Refused, refuse};
use chunk_core::{Line, Word};
use std::alloc::Global;
use toml::{Table, Value};

/// The most bytes of a path.
pub(crate) const LONGEST_PATH: usize = 1024;

/// The most bytes of a text that stands in for a fault.
pub(crate) const LONGEST_TEXT: usize = 1024;

/// The value at a key.
pub(crate) fn member<'a>(table: &'a Table, key: &str) -> Option<&'a Value>
    ensures { option_map (λ v. view v.now) result ≡ get_member key.now (table_view table.now) }
{
    table.get(key)
}

/// The key is one of these.
fn is_known(key: &str, names: &[&str]) -> bool
    ensures { result ≡ list_any (λ s. bytes_eq key.now s.now) names.now }
{
    names.iter().any(|name| key == *name)
}

/// Each key is one of these.
fn keys_are_known(table: &Table, names: &[&str]) -> bool
    ensures { result ≡ list_all (λ k. list_any (λ s. bytes_eq (string_bytes k) s.now) names.now) (keys table.now) }
{
    table.keys().all(|key| is_known(key.as_str(), names))
}

/// The same, of what the table stands for.
fn has_only(table: &Table, names: &[&str]) -> bool
    ensures { result ≡ all_known (map (λ s. s.now) names.now) (table_view table.now) }
{
    keys_are_known(table, names)
}

/// No key has another name.
pub(crate) fn check_keys(table: &Table, names: &[&str], position: Position) -> Result<(), Refused>
    ensures { ReadsAs (λ u. u) result (known_keys (map (λ s. s.now) names.now) position (table_view table.now)) }
{
    if !has_only(table, names) {
        return Err(refuse(RefusalKind::UnknownKey, position));
    }
    Ok(())
}

/// A number within limits.
fn number(value: &Value, low: u32, high: u32, position: Position) -> Result<u32, Refused>
    ensures meant { ReadsAs (λ n. n) result (number_within low high position (view value.now)) }
    ensures low { IfOk result (λ n. low ≤ n) }
    ensures high { IfOk result (λ n. n ≤ high) }
{
    let Some(n) = value.as_integer() else {
        return Err(refuse(RefusalKind::WrongType, position));
    };
    if n >= i64::from(low) && n <= i64::from(high) {
        Ok(n as u32)
    } else {
        Err(refuse(RefusalKind::OutOfRange, position))
    }
}

/// The number within limits at a key, where there is one.
pub(crate) fn number_or_none(
    table: &Table,
    key: &str,
    low: u32,
    high: u32,
    position: Position,
) -> Result<Option<u32>, Refused>
    ensures meant { ReadsAs (λ n. n) result (where_given (number_within low high position) (get_member key.now (table_view table.now))) }
    ensures within { IfOk result (λ n. IfSome n (λ m. (low ≤ m) × (m ≤ high))) }
{
    match member(table, key) {
        Some(value) => Ok(Some(number(value, low, high, position)?)),
        None => Ok(None),
    }
}

/// A text of so many bytes.
fn text(value: &Value, low: usize, high: usize, position: Position) -> Result<&str, Refused>
    ensures meant { ReadsAs (λ s. s.now) result (text_that (is_sized low high) position (view value.now)) }
    ensures sound { IfOk result (λ s. is_sized low high s.now ≡ true) }
{
    let Some(text) = value.as_str() else {
        return Err(refuse(RefusalKind::WrongType, position));
    };
    if text.len() >= low && text.len() <= high {
        Ok(text)
    } else {
        Err(refuse(RefusalKind::OutOfRange, position))
    }
}

/// The text of so many bytes at a key, which has to be there, as a word.
pub(crate) fn word(
    alloc: Global,
    table: &Table,
    key: &str,
    low: usize,
    high: usize,
    position: Position,
) -> Result<Word, Refused>
    ensures meant { ReadsAs (λ w. w) result (required (text_that (is_sized low high) position) position (get_member key.now (table_view table.now))) }
    ensures sound { IfOk result (λ w. is_sized low high w ≡ true) }
{
    let Some(value) = member(table, key) else {
        return Err(refuse(RefusalKind::WrongType, position));
    };
    let text = text(value, low, high, position)?;
    Ok(Word::of(alloc, text)?)
}

/// The text of so many bytes at a key, where there is one, as a word.
pub(crate) fn word_or_none(
    alloc: Global,
    table: &Table,
    key: &str,
    low: usize,
    high: usize,
    position: Position,
) -> Result<Option<Word>, Refused>
    ensures meant { ReadsAs (λ o. o) result (where_given (text_that (is_sized low high) position) (get_member key.now (table_view table.now))) }
    ensures sound { IfOk result (λ o. IfSome o (λ w. is_sized low high w ≡ true)) }
{
    let Some(value) = member(table, key) else {
        return Ok(None);
    };
    let text = text(value, low, high, position)?;
    Ok(Some(Word::of(alloc, text)?))
}

/// The text of so many bytes at a key, where there is one, as a line.
pub(crate) fn line_or_none(
    alloc: Global,
    table: &Table,
    key: &str,
    low: usize,
    high: usize,
    position: Position,
) -> Result<Option<Line>, Refused>
    ensures meant { ReadsAs (λ o. o) result (where_given (text_that (is_sized low high) position) (get_member key.now (table_view table.now))) }
    ensures sound { IfOk result (λ o. IfSome o (λ x. is_sized low high x ≡ true)) }
{
    let Some(value) = member(table, key) else {
        return Ok(None);
    };
    let text = text(value, low, high, position)?;
    Ok(Some(Line::copy_of(alloc, text.as_bytes())?))
}

/// Whether each value is a table.
fn are_tables(values: &[Value]) -> bool
    ensures { result ≡ list_all (λ v. is_some (as_table (view v))) values.now }
{
    values.iter().all(|value| value.is_table())
}

/// Whether each value is a text.
fn are_texts(values: &[Value]) -> bool
    ensures { result ≡ list_all (λ v. is_some (as_str (view v))) values.now }
{
    values.iter().all(|value| value.is_str())
}

/// The values of the array at a key, or none where there is no value.
fn array<'a>(table: &'a Table, key: &str, position: Position) -> Result<&'a [Value], Refused>
    ensures { ReadsAs (λ s. items_view s.now) result (array_at position (get_member key.now (table_view table.now))) }
{
    let Some(value) = member(table, key) else {
        return Ok(&[]);
    };
    match value.as_array() {
        Some(values) => Ok(values.as_slice()),
        None => Err(refuse(RefusalKind::WrongType, position)),
    }
}

/// The texts of the array at a key, or none where there is no value.
pub(crate) fn texts<'a>(
    table: &'a Table,
    key: &str,
    position: Position,
) -> Result<&'a [Value], Refused>
    ensures meant { ReadsAs (λ s. seen_as as_str s.now) result (list_at as_str position (get_member key.now (table_view table.now))) }
    ensures seen { IfOk result (λ s. is_some (each_as as_str (items_view s.now)) ≡ true) }
{
    let values = array(table, key, position)?;
    if !are_texts(values) {
        return Err(refuse(RefusalKind::WrongType, position));
    }
    Ok(values)
}

/// The tables of the array at a key, or none where there is no value.
pub(crate) fn tables_in<'a>(table: &'a Table, key: &str) -> Result<&'a [Value], Refused>
    ensures meant { ReadsAs (λ s. seen_as as_table s.now) result (list_at as_table Nowhere (get_member key.now (table_view table.now))) }
    ensures seen { IfOk result (λ s. is_some (each_as as_table (items_view s.now)) ≡ true) }
{
    let values = array(table, key, Position::Nowhere)?;
    if !are_tables(values) {
        return Err(refuse(RefusalKind::WrongType, Position::Nowhere));
    }
    Ok(values)
}

/// The tables of the array at a key, of at most so many, or none where there is no value.
pub(crate) fn tables<'a>(table: &'a Table, key: &str, most: usize) -> Result<&'a [Value], Refused>
    ensures meant { ReadsAs (λ s. seen_as as_table s.now) result (tables_at most (get_member key.now (table_view table.now))) }
    ensures seen { IfOk result (λ s. is_some (each_as as_table (items_view s.now)) ≡ true) }
    ensures few { IfOk result (λ s. length s.now ≤ most) }
{
    let values = tables_in(table, key)?;
    if values.len() > most {
        return Err(refuse(RefusalKind::OutOfRange, Position::Nowhere));
    }
    Ok(values)
}

/// The table at a key, where there is a value.
pub(crate) fn table_or_none<'a>(
    table: &'a Table,
    key: &str,
    position: Position,
) -> Result<Option<&'a Table>, Refused>
    ensures { ReadsAs (λ o. option_map (λ t. table_view t.now) o) result (where_given (table_that position) (get_member key.now (table_view table.now))) }
{
    let Some(value) = member(table, key) else {
        return Ok(None);
    };
    match value.as_table() {
        Some(inner) => Ok(Some(inner)),
        None => Err(refuse(RefusalKind::WrongType, position)),
    }
}
