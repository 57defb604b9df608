//! The list of a description.
ghost use Rattle.std.specs.Prelude.{◌+◌, ◌^◌, ◌<◌, ◌≤◌, codes, length, nat_le, option_map, IfOk, IfSome};
ghost use Rattle.toml.specs.View.{table_view};
ghost use Rattle.pipeline_desc.specs.Groups.{HaveTables};
ghost use Rattle.pipeline_desc.specs.Limits.{most_streams, most_tables};
ghost use Rattle.pipeline_desc.specs.Meant.{setting_at};
ghost use Rattle.pipeline_desc.specs.Reading.{ReadsAs, passes};
ghost use Rattle.toml.specs.Data.{get_member};
ghost use Rattle.pipeline_desc.specs.Sound.{IsSoundList};
ghost use Rattle.pipeline_desc.specs.Streams.{list_behind, list_meant, max_meant};
ghost use Rattle.pipeline_desc.specs.declared.refusal.Position.TheVariants.{InStream};
ghost use Rattle.pipeline_desc.specs.declared.refusal.RefusalKind.TheVariants.{OutOfRange};

use crate::group::GroupSpec;
use crate::kinds::kind_given;
use crate::listing::ListSpec;
use crate::refusal::{Position, RefusalKind, Refused, refuse};
use crate::setting::Setting;
use crate::steps::{check_steps, steps};
use crate::table::TableSpec;
use crate::values::{LONGEST_PATH, LONGEST_TEXT, check_keys, line_or_none, number_or_none, word};
use std::alloc::Global;
use toml::Table;

/// The most streams of a description.
const MOST_STREAMS: u32 = 1024;

/// As many streams a list may have where no number is given.
const LISTED_BY_DEFAULT: u32 = 64;

/// So many streams may stand behind k others.
fn check_listed(k: u32, most: u32) -> Result<(), Refused>
    requires { k + most < 2 ^ 32 }
    ensures meant { ReadsAs (λ u. u) result (passes (nat_le (k + most) most_streams) OutOfRange (InStream k)) }
    ensures few { IfOk result (λ u. k + most ≤ most_streams) }
{
    if k + most > MOST_STREAMS {
        return Err(refuse(RefusalKind::OutOfRange, Position::InStream(k)));
    }
    Ok(())
}

/// How many streams the list behind k streams may have.
fn most_listed(table: &Table, k: u32) -> Result<u32, Refused>
    requires { k ≤ most_streams }
    ensures meant { ReadsAs (λ n. n) result (max_meant k (get_member (codes "max") (table_view table.now))) }
    ensures some { IfOk result (λ n. 1 ≤ n) }
    ensures few { IfOk result (λ n. k + n ≤ most_streams) }
{
    let given = number_or_none(table, "max", 1, MOST_STREAMS, Position::InStream(k))?;
    let most = given.unwrap_or(LISTED_BY_DEFAULT);
    check_listed(k, most)?;
    Ok(most)
}

/// The list behind k streams, by its table.
fn list(alloc: Global, setting: &Setting<'_>, table: &Table, k: u32) -> Result<ListSpec, Refused>
    requires { k ≤ most_streams }
    ensures meant { ReadsAs (λ l. l) result (list_meant setting.now k (table_view table.now)) }
    ensures sound { IfOk result (IsSoundList setting.now k) }
{
    let here = Position::InStream(k);
    check_keys(table, &["path", "steps", "on_fault", "max"], here)?;
    let path = word(alloc, table, "path", 1, LONGEST_PATH, here)?;
    let each = steps(alloc, setting, table, "steps", k, 0)?;
    let on_fault = line_or_none(alloc, table, "on_fault", 0, LONGEST_TEXT, here)?;
    let max = most_listed(table, k)?;
    check_steps(&each, &None, k)?;
    kind_given(&each, &None, k)?;
    Ok(ListSpec {
        path,
        steps: each,
        on_fault,
        max,
    })
}

/// The list behind k streams, by its table, beside tables of records and groups.
fn list_beside(
    alloc: Global,
    tables: &[TableSpec],
    groups: &[GroupSpec],
    k: u32,
    table: &Table,
) -> Result<ListSpec, Refused>
    requires few { k ≤ most_streams }
    requires few_tables { length tables.now ≤ most_tables }
    requires tables { HaveTables (length tables.now) groups.now }
    ensures meant { ReadsAs (λ l. l) result (list_meant (setting_at tables.now groups.now k k) k (table_view table.now)) }
    ensures sound { IfOk result (IsSoundList (setting_at tables.now groups.now k k) k) }
{
    let setting = Setting::at(tables, groups, k, k);
    list(alloc, &setting, table, k)
}

/// The list behind k streams, where there is one, beside tables of records and groups.
pub(crate) fn list_behind(
    alloc: Global,
    tables: &[TableSpec],
    groups: &[GroupSpec],
    k: u32,
    described: Option<&Table>,
) -> Result<Option<ListSpec>, Refused>
    requires few { k ≤ most_streams }
    requires few_tables { length tables.now ≤ most_tables }
    requires tables { HaveTables (length tables.now) groups.now }
    ensures meant { ReadsAs (λ l. l) result (list_behind tables.now groups.now k (option_map (λ t. table_view t.now) described.entry)) }
    ensures sound { IfOk result (λ l. IfSome l (IsSoundList (setting_at tables.now groups.now k k) k)) }
{
    match described {
        Some(table) => Ok(Some(list_beside(alloc, tables, groups, k, table)?)),
        None => Ok(None),
    }
}
