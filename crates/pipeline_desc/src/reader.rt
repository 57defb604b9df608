//! A description is read to a plan.
ghost use Rattle.std.specs.Prelude.{◌≡◌, ◌≤◌, length, IfOk};
ghost use Rattle.toml.specs.View.{table_view};
ghost use Rattle.pipeline_desc.specs.Groups.{Follows, below_view, described_view};
ghost use Rattle.pipeline_desc.specs.Limits.{most_groups, most_streams, most_tables};
ghost use Rattle.pipeline_desc.specs.Plans.{document_of, is_second, numbers_meant, plan_below, plan_meant, plan_of, top_keys};
ghost use Rattle.pipeline_desc.specs.Reading.{ReadsAs};
ghost use Rattle.pipeline_desc.specs.Sound.{AreSoundNumbers};
ghost use Rattle.pipeline_desc.specs.Values.{known_keys};
ghost use Rattle.pipeline_desc.specs.declared.refusal.Position.TheVariants.{Nowhere};

use crate::described::{Below, below_top};
use crate::lists::list_behind;
use crate::outputs::check_outputs;
use crate::plan::{Numbers, Plan};
use crate::refusal::{Position, RefusalKind, Refused, refuse};
use crate::streams::streams;
use crate::tables::record_tables;
use crate::values::{check_keys, member, number_or_none};
use std::alloc::Global;
use toml::Table;

/// The most bytes of a description.
const LONGEST: usize = 1_048_576;

/// The table of a document.
fn document(alloc: Global, bytes: &[u8]) -> Result<Table, Refused>
    ensures { ReadsAs table_view result (document_of bytes.now) }
{
    if bytes.len() > LONGEST {
        return Err(refuse(RefusalKind::TooLong, Position::Nowhere));
    }
    let Ok(text) = std::str::from_utf8(bytes) else {
        return Err(refuse(RefusalKind::NotUtf8, Position::Nowhere));
    };
    match toml::table_from_str(alloc, text) {
        Ok(table) => Ok(table),
        Err(error) => {
            if error.is_memory() {
                Err(Refused::Memory)
            } else {
                Err(refuse(RefusalKind::NotToml, Position::Nowhere))
            }
        }
    }
}

/// The description is of the second version.
fn is_second(table: &Table) -> bool
    ensures { result ≡ is_second (table_view table.now) }
{
    let Some(version) = member(table, "version") else {
        return false;
    };
    let Some(n) = version.as_integer() else {
        return false;
    };
    n == 2
}

/// The top has no other key.
fn check_top(table: &Table) -> Result<(), Refused>
    ensures { ReadsAs (λ u. u) result (known_keys (top_keys (is_second (table_view table.now))) Nowhere (table_view table.now)) }
{
    let top = Position::Nowhere;
    if is_second(table) {
        check_keys(
            table,
            &[
                "version", "max_open", "queue", "chunk", "take", "table", "stream", "group", "list",
            ],
            top,
        )
    } else {
        check_keys(
            table,
            &[
                "version", "max_open", "queue", "chunk", "take", "table", "stream",
            ],
            top,
        )
    }
}

/// The numbers of the top.
fn numbers(table: &Table) -> Result<Numbers, Refused>
    ensures meant { ReadsAs (λ n. n) result (numbers_meant (table_view table.now)) }
    ensures sound { IfOk result AreSoundNumbers }
{
    let top = Position::Nowhere;
    number_or_none(table, "version", 1, 2, top)?;
    let max_open = number_or_none(table, "max_open", 1, 64, top)?;
    let queue = number_or_none(table, "queue", 1, 64, top)?;
    let chunk = number_or_none(table, "chunk", 1, 65536, top)?;
    let take = number_or_none(table, "take", 0, 1_000_000_000, top)?;
    Ok(Numbers {
        max_open: max_open.unwrap_or(4),
        queue: queue.unwrap_or(16),
        chunk: chunk.unwrap_or(4096),
        take: take.map(u64::from),
    })
}

/// The plan of what stands below the top.
fn plan_below(alloc: Global, numbers: Numbers, below: Below<'_>) -> Result<Plan, Refused>
    requires numbers { AreSoundNumbers numbers }
    requires tables { length below.described.tables ≤ most_tables }
    requires streams { length below.described.streams ≤ most_streams }
    requires groups { length below.described.groups ≤ most_groups }
    requires follow { Follows (described_view below.described) }
    ensures { ReadsAs (λ p. p) result (plan_below numbers (below_view below.entry)) }
{
    let described = below.described;
    let groups = described.groups;
    let spans = groups.as_slice();
    let of_tables = described.tables.as_slice();
    let tables = record_tables(alloc, of_tables)?;
    let records = tables.as_slice();
    let of_streams = described.streams.as_slice();
    let streams = streams(alloc, records, spans, of_streams)?;
    let all = streams.as_slice();
    let list = list_behind(alloc, records, spans, all.len() as u32, below.list)?;
    check_outputs(records, &list, all)?;
    Ok(Plan::whole(numbers, tables, streams, groups, list))
}

/// The plan of a table.
fn plan_of_table(alloc: Global, table: &Table) -> Result<Plan, Refused>
    ensures { ReadsAs (λ p. p) result (plan_meant (table_view table.now)) }
{
    check_top(table)?;
    let numbers = numbers(table)?;
    let below = below_top(alloc, table)?;
    plan_below(alloc, numbers, below)
}

/// The plan that a description means, or the first reason to refuse it.
pub fn read(alloc: Global, bytes: &[u8]) -> Result<Plan, Refused>
    ensures { ReadsAs (λ p. p) result (plan_of bytes.now) }
{
    let table = document(alloc, bytes)?;
    plan_of_table(alloc, &table)
}
