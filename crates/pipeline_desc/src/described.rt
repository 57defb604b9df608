//! What stands below the top of a description: the tables and streams of the top and of its groups,
//! and the table of its list.
ghost use Rattle.std.specs.Prelude.{◌≡◌, ◌++◌, ◌≤◌, true, is_some, length, IfOk, Ok};
ghost use Rattle.toml.specs.Data.{as_table};
ghost use Rattle.toml.specs.View.{items_view, table_view};
ghost use Rattle.pipeline_desc.specs.Groups.{Follows, at_top, below_view, described_view, members_of, with_group};
ghost use Rattle.pipeline_desc.specs.Limits.{most_groups, most_streams, most_tables};
ghost use Rattle.pipeline_desc.specs.Plans.{are_few, below_meant, group_meant, groups_meant};
ghost use Rattle.pipeline_desc.specs.Reading.{ReadsAs};
ghost use Rattle.pipeline_desc.specs.Values.{each_as, seen_as};

use crate::group::GroupSpec;
use crate::refusal::{Position, RefusalKind, Refused, refuse};
use crate::values::{check_keys, table_or_none, tables, tables_in};
use chunk_core::{List, Span};
use std::alloc::Global;
use toml::{Table, Value};

/// The most tables of a description.
const MOST_TABLES: usize = 8;

/// The most streams of a description.
const MOST_STREAMS: usize = 1024;

/// The most groups of a description.
const MOST_GROUPS: usize = 16;

/// What is described so far: the tables and the streams in the order of their numbers, and the
/// groups.
#[derive(Drop)]
pub(crate) struct Described<'a> {
    pub tables: List<&'a Table>,
    pub streams: List<&'a Table>,
    pub groups: List<GroupSpec>,
}

/// What is described, and the table of the list, where there is one.
#[derive(Drop)]
pub(crate) struct Below<'a> {
    pub described: Described<'a>,
    pub list: Option<&'a Table>,
}

/// How many there are, as a number. A description is too short for 2^32 of anything.
fn number_of(count: usize) -> Result<u32, Refused>
    ensures { ReadsAs (λ n. n) result (Ok count) }
{
    if count > u32::MAX as usize {
        return Err(Refused::Memory);
    }
    Ok(count as u32)
}

/// These tables, and behind them each of the values, which are tables.
fn with_tables<'a>(found: List<&'a Table>, values: &'a [Value]) -> Result<List<&'a Table>, Refused>
    requires { is_some (each_as as_table (items_view values.now)) ≡ true }
    ensures { ReadsAs members_of result (Ok (members_of found.entry ++ seen_as as_table values.now)) }
{
    let mut all = found;
    for i in 0..values.len() {
        let Some(table) = values[i].as_table() else {
            unreachable!()
        };
        all.push(table)?;
    }
    Ok(all)
}

/// What the top describes, which stands in no group.
fn at_top<'a>(
    alloc: Global,
    tables: &'a [Value],
    streams: &'a [Value],
) -> Result<Described<'a>, Refused>
    requires tables { is_some (each_as as_table (items_view tables.now)) ≡ true }
    requires streams { is_some (each_as as_table (items_view streams.now)) ≡ true }
    ensures { ReadsAs described_view result (Ok (at_top (seen_as as_table tables.now) (seen_as as_table streams.now))) }
{
    Ok(Described {
        tables: with_tables(List::new(alloc), tables)?,
        streams: with_tables(List::new(alloc), streams)?,
        groups: List::new(alloc),
    })
}

/// What is described, and behind it a group with these tables and streams.
fn with_group<'a>(
    described: Described<'a>,
    tables: &'a [Value],
    streams: &'a [Value],
) -> Result<Described<'a>, Refused>
    requires tables { is_some (each_as as_table (items_view tables.now)) ≡ true }
    requires streams { is_some (each_as as_table (items_view streams.now)) ≡ true }
    ensures { ReadsAs described_view result (Ok (with_group (described_view described.entry) (seen_as as_table tables.now) (seen_as as_table streams.now))) }
{
    let first_table = number_of(described.tables.len())?;
    let first_stream = number_of(described.streams.len())?;
    let all_tables = with_tables(described.tables, tables)?;
    let all_streams = with_tables(described.streams, streams)?;
    let own_tables = Span {
        from: first_table,
        to: number_of(all_tables.len())?,
    };
    let own_streams = Span {
        from: first_stream,
        to: number_of(all_streams.len())?,
    };
    let mut groups = described.groups;
    groups.push(GroupSpec {
        tables: own_tables,
        streams: own_streams,
    })?;
    Ok(Described {
        tables: all_tables,
        streams: all_streams,
        groups,
    })
}

/// What is described, and behind it the group of a table.
fn group<'a>(described: Described<'a>, table: &'a Table) -> Result<Described<'a>, Refused>
    ensures { ReadsAs described_view result (group_meant (described_view described.entry) (table_view table.now)) }
{
    check_keys(table, &["table", "stream"], Position::Nowhere)?;
    let tables = tables_in(table, "table")?;
    let streams = tables_in(table, "stream")?;
    with_group(described, tables, streams)
}

/// What is described, and behind it the groups of these values in order.
fn groups<'a>(described: Described<'a>, values: &'a [Value]) -> Result<Described<'a>, Refused>
    requires { is_some (each_as as_table (items_view values.now)) ≡ true }
    ensures { ReadsAs described_view result (groups_meant (described_view described.entry) (seen_as as_table values.now)) }
{
    let mut all = described;
    for i in 0..values.len() {
        let Some(table) = values[i].as_table() else {
            unreachable!()
        };
        all = group(all, table)?;
    }
    Ok(all)
}

/// The tables, and the streams, aren't too many.
fn check_few(described: &Described<'_>) -> Result<(), Refused>
    ensures meant { ReadsAs (λ u. u) result (are_few (described_view described.now)) }
    ensures tables { IfOk result (λ u. length described.now.tables ≤ most_tables) }
    ensures streams { IfOk result (λ u. length described.now.streams ≤ most_streams) }
{
    if described.tables.len() > MOST_TABLES || described.streams.len() > MOST_STREAMS {
        return Err(refuse(RefusalKind::OutOfRange, Position::Nowhere));
    }
    Ok(())
}

/// What stands below the top.
pub(crate) fn below_top<'a>(alloc: Global, table: &'a Table) -> Result<Below<'a>, Refused>
    ensures meant { ReadsAs below_view result (below_meant (table_view table.now)) }
    ensures tables { IfOk result (λ b. length b.described.tables ≤ most_tables) }
    ensures streams { IfOk result (λ b. length b.described.streams ≤ most_streams) }
    ensures groups { IfOk result (λ b. length b.described.groups ≤ most_groups) }
    ensures follow { IfOk result (λ b. Follows (described_view b.described)) }
{
    let own_tables = tables(table, "table", MOST_TABLES)?;
    let own_streams = tables(table, "stream", MOST_STREAMS)?;
    let in_groups = tables(table, "group", MOST_GROUPS)?;
    let list = table_or_none(table, "list", Position::Nowhere)?;
    let top = at_top(alloc, own_tables, own_streams)?;
    let described = groups(top, in_groups)?;
    check_few(&described)?;
    Ok(Below { described, list })
}
