//! All tables are read.
ghost use Rattle.std.specs.Prelude.{◌≡◌, ℕ, ◌+◌, ◌*◌, ◌^◌, ◌<◌, ◌≤◌, length, map, None};
ghost use Rattle.chunk_core.specs.Lists.{IsAmong};
ghost use Rattle.res_ledger.specs.declared.event.StreamNo.TheVariants.{Outer};
ghost use Rattle.row_seat.specs.Views.{OthersFit};
ghost use Rattle.scope_tree.specs.Calls.{IsOpenScope, used};
ghost use Rattle.scope_tree.specs.Trees.{Fits, seen};
ghost use Rattle.scope_tree.specs.Trace.{owed};
ghost use Rattle.join_tree.specs.Mains.{IsMain};
ghost use Rattle.join_tree.specs.Progress.{Progress};
ghost use Rattle.pull_stepper.specs.Held.{FinishesDevice};
ghost use Rattle.outer_tables.specs.Tables.{ReadsTables};

use crate::not_read::NotRead;
use crate::table::read_table;
use csv_pipes::Dicts;
use device_port::Depot;
use pipeline_desc::TableSpec;
use pull_stepper::Held;
use row_seat::RowSeat;
use scope_tree::Tree;
use std::alloc::Global;

/// Opens the tables in order as the rows from `first` on in an open scope, each of which is read whole
/// before the next is opened, and puts their dictionaries behind those that are there. The scope stays
/// open also where a table isn't read.
pub fn read_tables<D: Depot, S: RowSeat<Pay = Held<D::Dev>>>(
    alloc: Global,
    tree: &mut Tree<S>,
    desk: &mut S::Desk,
    scope: u32,
    first: u32,
    tables: &[TableSpec],
    dicts: &mut Dicts,
    depot: &mut D,
) -> Result<(), NotRead>
    requires fits { Fits S.view S.fits tree.old desk.old }
    requires main { (width n : ℕ) × (p : Progress D.Dev) × IsMain (FinishesDevice D.Dev.Device.told) width n (seen S.view tree.old) p × (p.root ≡ None) }
    requires scope { IsOpenScope (seen S.view tree.old) scope }
    requires rows { (r : ℕ) → r < length tables.now → IsAmong (first + r) (seen S.view tree.old).seat.empty }
    requires numbers { first + length tables.now < 2 ^ 32 }
    requires room { used (seen S.view tree.old) + length tables.now ≤ (seen S.view tree.old).rows }
    requires free { owed (seen S.view tree.old).seat + 2 * length tables.now ≤ (seen S.view tree.old).seat.spare }
    ensures reads { ReadsTables D.Dev.Device.told (FinishesDevice D.Dev.Device.told) scope first (map (λ t. t.path) tables.now) (D.told depot.old) (D.told depot.new) (seen S.view tree.old) (seen S.view tree.new) dicts.old dicts.new result }
    ensures fits { Fits S.view S.fits tree.new desk.new }
    ensures others { OthersFit S.view S.fits Outer desk.old desk.new }
{
    for (i, table) in tables.iter().enumerate() {
        let row = first + i as u32;
        let dict = read_table(alloc, tree, desk, scope, row, &table.path, depot)?;
        dicts.push(alloc, dict)?;
    }
    Ok(())
}
