//! The streams of a description.
ghost use Rattle.std.specs.Prelude.{◌≡◌, ◌+◌, ◌^◌, ◌<◌, ◌≤◌, true, codes, length, IfOk, IfSome};
ghost use Rattle.std.specs.List.{list_all};
ghost use Rattle.toml.specs.Data.{get_member};
ghost use Rattle.toml.specs.View.{table_view, view};
ghost use Rattle.pipeline_desc.specs.Groups.{HaveTables, members_of};
ghost use Rattle.pipeline_desc.specs.Limits.{most_streams, most_tables};
ghost use Rattle.pipeline_desc.specs.Meant.{setting_at};
ghost use Rattle.pipeline_desc.specs.Reading.{ReadsAs, each_from};
ghost use Rattle.pipeline_desc.specs.Places.{second_path};
ghost use Rattle.pipeline_desc.specs.Sound.{AreSoundStreams, IsAnotherStream, IsSoundStream, is_sound_step};
ghost use Rattle.pipeline_desc.specs.Steps.{steps_at, steps_behind};
ghost use Rattle.pipeline_desc.specs.Streams.{join_meant, join_named, second_meant, stream_meant, streams_meant, until_meant};
ghost use Rattle.pipeline_desc.specs.Values.{where_given};

use crate::group::GroupSpec;
use crate::join::Join;
use crate::kinds::kind_given;
use crate::refusal::{Position, RefusalKind, Refused, refuse};
use crate::setting::Setting;
use crate::step::Step;
use crate::steps::{check_steps, steps};
use crate::stream::{Second, StreamSpec};
use crate::table::TableSpec;
use crate::values::{
    LONGEST_PATH, LONGEST_TEXT, check_keys, line_or_none, member, word, word_or_none,
};
use chunk_core::{List, Word};
use std::alloc::Global;
use toml::{Table, Value};

/// The join of a name.
fn join_named(name: &str) -> Option<Join>
    ensures { result ≡ join_named name.now }
{
    match name {
        "append" => Some(Join::Append),
        "zip" => Some(Join::Zip),
        "merge" => Some(Join::Merge),
        _ => None,
    }
}

/// The join of a stream, where one is named.
fn join_or_none(table: &Table, position: Position) -> Result<Option<Join>, Refused>
    ensures { ReadsAs (λ j. j) result (where_given (join_meant position) (get_member (codes "join") (table_view table.now))) }
{
    let Some(value) = member(table, "join") else {
        return Ok(None);
    };
    let Some(name) = value.as_str() else {
        return Err(refuse(RefusalKind::WrongType, position));
    };
    match join_named(name) {
        Some(join) => Ok(Some(join)),
        None => Err(refuse(RefusalKind::OutOfRange, position)),
    }
}

/// The second side of a path, a join and the steps behind it.
fn second(
    path: Option<Word>,
    join: Option<Join>,
    after: List<Step>,
    position: Position,
) -> Result<Option<Second>, Refused>
    ensures meant { ReadsAs (λ s. s) result (second_meant position path join after) }
    ensures path { IfOk result (λ s. second_path s ≡ path) }
    ensures after { IfOk result (λ s. steps_behind s ≡ after) }
{
    match (path, join) {
        (Some(path), Some(join)) => Ok(Some(Second { join, path, after })),
        (None, None) if after.is_empty() => Ok(None),
        _ => Err(refuse(RefusalKind::OutOfRange, position)),
    }
}

/// The steps of stream k behind a join, which has the number behind those before it.
fn steps_after(
    alloc: Global,
    setting: &Setting<'_>,
    table: &Table,
    k: u32,
    before: &List<Step>,
) -> Result<List<Step>, Refused>
    requires { length before.now + 1 < 2 ^ 32 }
    ensures meant { ReadsAs (λ s. s) result (steps_at setting.now k (length before.now + 1) (get_member (codes "after") (table_view table.now))) }
    ensures sound { IfOk result (λ s. list_all (is_sound_step setting.now.tables) s ≡ true) }
    ensures few { IfOk result (λ s. length before.now + 1 + length s < 2 ^ 32) }
{
    steps(alloc, setting, table, "after", k, before.len() + 1)
}

/// The number of a stream other than stream k, where there are so many.
fn another_stream(value: &Value, count: u32, k: u32) -> Result<u32, Refused>
    ensures meant { ReadsAs (λ j. j) result (until_meant count k (view value.now)) }
    ensures sound { IfOk result (IsAnotherStream count k) }
{
    let Some(j) = value.as_integer() else {
        return Err(refuse(RefusalKind::WrongType, Position::InStream(k)));
    };
    if j >= 0 && j < i64::from(count) && j != i64::from(k) {
        Ok(j as u32)
    } else {
        Err(refuse(RefusalKind::BadUntil, Position::InStream(k)))
    }
}

/// The number of the stream with whose end stream k is interrupted, where one is named.
fn until_or_none(setting: &Setting<'_>, table: &Table, k: u32) -> Result<Option<u32>, Refused>
    ensures meant { ReadsAs (λ j. j) result (where_given (until_meant setting.now.count k) (get_member (codes "until") (table_view table.now))) }
    ensures sound { IfOk result (λ j. IfSome j (IsAnotherStream setting.now.count k)) }
{
    match member(table, "until") {
        Some(value) => Ok(Some(another_stream(value, setting.count(), k)?)),
        None => Ok(None),
    }
}

/// Stream k by its table.
fn stream(
    alloc: Global,
    setting: &Setting<'_>,
    table: &Table,
    k: u32,
) -> Result<StreamSpec, Refused>
    ensures meant { ReadsAs (λ s. s) result (stream_meant setting.now k (table_view table.now)) }
    ensures sound { IfOk result (IsSoundStream setting.now k) }
{
    let here = Position::InStream(k);
    check_keys(
        table,
        &[
            "path", "steps", "with", "join", "after", "on_fault", "to", "until",
        ],
        here,
    )?;
    let path = word(alloc, table, "path", 1, LONGEST_PATH, here)?;
    let before = steps(alloc, setting, table, "steps", k, 0)?;
    let side = word_or_none(alloc, table, "with", 1, LONGEST_PATH, here)?;
    let join = join_or_none(table, here)?;
    let after = steps_after(alloc, setting, table, k, &before)?;
    let on_fault = line_or_none(alloc, table, "on_fault", 0, LONGEST_TEXT, here)?;
    let to = word_or_none(alloc, table, "to", 1, LONGEST_PATH, here)?;
    let until = until_or_none(setting, table, k)?;
    let second = second(side, join, after, here)?;
    check_steps(&before, &second, k)?;
    kind_given(&before, &second, k)?;
    Ok(StreamSpec {
        path,
        steps: before,
        second,
        on_fault,
        to,
        until,
    })
}

/// The stream of each table, in order, where there are so many.
fn each_stream(
    alloc: Global,
    tables: &[TableSpec],
    groups: &[GroupSpec],
    count: u32,
    described: &[&Table],
) -> Result<List<StreamSpec>, Refused>
    requires few { length described.now ≤ most_streams }
    requires few_tables { length tables.now ≤ most_tables }
    requires tables { HaveTables (length tables.now) groups.now }
    ensures meant { ReadsAs (λ s. s) result (each_from (λ k. stream_meant (setting_at tables.now groups.now count k) k) 0 (members_of described.now)) }
    ensures sound { IfOk result (AreSoundStreams (setting_at tables.now groups.now count)) }
    ensures count { IfOk result (λ s. length s ≡ length described.now) }
{
    let mut streams = List::new(alloc);
    for i in 0..described.len() {
        let setting = Setting::at(tables, groups, count, i as u32);
        let stream = stream(alloc, &setting, described[i], i as u32)?;
        streams.push(stream)?;
    }
    Ok(streams)
}

/// The streams that are described beside tables of records and groups.
pub(crate) fn streams(
    alloc: Global,
    tables: &[TableSpec],
    groups: &[GroupSpec],
    described: &[&Table],
) -> Result<List<StreamSpec>, Refused>
    requires few { length described.now ≤ most_streams }
    requires few_tables { length tables.now ≤ most_tables }
    requires tables { HaveTables (length tables.now) groups.now }
    ensures meant { ReadsAs (λ s. s) result (streams_meant tables.now groups.now (members_of described.now)) }
    ensures sound { IfOk result (λ s. AreSoundStreams (setting_at tables.now groups.now (length s)) s) }
    ensures count { IfOk result (λ s. length s ≡ length described.now) }
{
    each_stream(alloc, tables, groups, described.len() as u32, described)
}
