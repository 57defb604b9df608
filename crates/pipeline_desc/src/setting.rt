//! What the keys of a stream may name.
ghost use Rattle.std.specs.Prelude.{◌≡◌, ◌+◌, ◌^◌, ◌<◌, true, ◌≤◌, length, position, IfSome};
ghost use Rattle.std.specs.Str.{bytes_eq};
ghost use Rattle.pipeline_desc.specs.Groups.{HaveTables};
ghost use Rattle.pipeline_desc.specs.Limits.{most_tables};
ghost use Rattle.pipeline_desc.specs.Meant.{named_from, own_tables, setting_at, setting_of, top_tables};
ghost use Rattle.pipeline_desc.specs.Sound.{has_number};
ghost use Rattle.pipeline_desc.specs.Steps.{table_named};

use crate::group::GroupSpec;
use crate::table::TableSpec;
use chunk_core::Span;
use std::marker::Model;

/// The tables of records that a stream may look up, by their names, and the streams, by their
/// numbers.
#[derive(Drop)]
pub struct Setting<'a> {
    top: &'a [TableSpec],
    own: &'a [TableSpec],
    first_own: u32,
    count: u32,
}

impl<'a> Model for Setting<'a> {
    ghost use Rattle.std.specs.Prelude.{◌≤◌, ◌+◌, ◌++◌, length};
    ghost use Rattle.pipeline_desc.specs.Limits.{most_tables};
    ghost use Rattle.pipeline_desc.specs.Meant.{SettingMeant, named_from};

    ghost Value = { SettingMeant };

    ghost view = { λ s. record { tables = named_from 0 s.top.now ++ named_from s.first_own s.own.now; count = s.count } };

    ghost invariant = { λ s. length s.top.now + s.first_own + length s.own.now ≤ most_tables + most_tables };
}

/// Where the first table of a name stands.
fn place_of(tables: &[TableSpec], name: &[u8]) -> Option<usize>
    ensures { result ≡ position (λ t. bytes_eq t.name name.now) tables.now }
{
    tables
        .iter()
        .position(|table| table.name.as_bytes() == name)
}

/// The number of the first table of a name, where the first of all has this number.
fn number_in(tables: &[TableSpec], first: u32, name: &[u8]) -> Option<u32>
    requires { first + length tables.now < 2 ^ 32 }
    ensures { result ≡ table_named name.now (named_from first tables.now) }
{
    let at = place_of(tables, name)?;
    Some(first + at as u32)
}

/// How many tables stand at the top: those before the first group's.
fn top_tables(count: usize, groups: &[GroupSpec]) -> usize
    ensures { result ≡ top_tables count groups.now }
{
    match groups.first() {
        Some(group) => group.tables.from as usize,
        None => count,
    }
}

/// The numbers of the tables of the group of stream k, and none where it stands in no group.
fn own_tables(groups: &[GroupSpec], k: u32) -> Span
    ensures { result ≡ own_tables groups.now k }
{
    for group in groups {
        if group.streams.from <= k && k < group.streams.to {
            return group.tables;
        }
    }
    Span { from: 0, to: 0 }
}

impl<'a> Setting<'a> {
    /// Beside these tables, where there are so many streams.
    pub fn of(tables: &'a [TableSpec], count: u32) -> Setting<'a>
        requires { length tables.now ≤ most_tables }
        ensures { result ≡ setting_of tables.now count }
    {
        Setting {
            top: tables,
            own: &[],
            first_own: 0,
            count,
        }
    }

    /// That of stream k beside these tables and groups, where there are so many streams.
    pub(crate) fn at(
        tables: &'a [TableSpec],
        groups: &[GroupSpec],
        count: u32,
        k: u32,
    ) -> Setting<'a>
        requires few { length tables.now ≤ most_tables }
        requires tables { HaveTables (length tables.now) groups.now }
        ensures { result ≡ setting_at tables.now groups.now count k }
    {
        let own = own_tables(groups, k);
        Setting {
            top: &tables[..top_tables(tables.len(), groups)],
            own: &tables[own.from as usize..own.to as usize],
            first_own: own.from,
            count,
        }
    }

    /// How many streams there are.
    pub(crate) fn count(&self) -> u32
        ensures { result ≡ self.now.count }
    {
        self.count
    }

    /// The number of the table of a name, where there is one.
    pub(crate) fn table(&self, name: &[u8]) -> Option<u32>
        ensures table { result ≡ table_named name.now self.now.tables }
        ensures known { IfSome result (λ t. has_number self.now.tables t ≡ true) }
    {
        let at_top = number_in(self.top, 0, name);
        let in_group = number_in(self.own, self.first_own, name);
        at_top.or(in_group)
    }
}
