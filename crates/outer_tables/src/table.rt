//! One table is read.
ghost use Rattle.std.specs.Prelude.{◌≡◌, ◌+◌, ◌≤◌};
ghost use Rattle.chunk_core.specs.Lists.{IsAmong};
ghost use Rattle.row_seat.specs.Views.{HasRow, OthersFit};
ghost use Rattle.scope_tree.specs.Calls.{IsOpenScope, used};
ghost use Rattle.scope_tree.specs.Trees.{Fits, seen};
ghost use Rattle.scope_tree.specs.Trace.{owed};
ghost use Rattle.outer_tables.specs.Rows.{ReadsRow};
ghost use Rattle.pull_stepper.specs.Held.{FinishesDevice};
ghost use Rattle.outer_tables.specs.Tables.{ReadsTable};
ghost use Rattle.outer_tables.specs.Whole.{IsReadable};

use crate::not_read::NotRead;
use crate::opening::open_device;
use crate::whole::read_whole;
use chunk_core::{Line, Word};
use csv_pipes::{Dict, table_of};
use device_port::{Depot, Device};
use pull_stepper::Held;
use row_seat::RowSeat;
use scope_tree::Tree;
use std::alloc::Global;

/// Reads the device of an open row to its end.
fn read_row<V: Device, S: RowSeat<Pay = Held<V>>>(
    alloc: Global,
    tree: &mut Tree<S>,
    row: u32,
) -> Result<Line, NotRead>
    requires row { HasRow (seen S.view tree.old).seat.opened row }
    requires device { (d : V) → IsAmong (row, d) (seen S.view tree.old).seat.opened → IsReadable (V.told d) }
    ensures reads { ReadsRow V.told row (seen S.view tree.old) (seen S.view tree.new) result }
    ensures fits { (d : S.Desk) → Fits S.view S.fits tree.old d → Fits S.view S.fits tree.new d }
{
    read_whole(alloc, tree.pay_mut(row).device_mut())
}

/// Opens the table at a path, acquires it as this row in an open scope, and reads it.
pub(crate) fn read_table<D: Depot, S: RowSeat<Pay = Held<D::Dev>>>(
    alloc: Global,
    tree: &mut Tree<S>,
    desk: &mut S::Desk,
    scope: u32,
    row: u32,
    path: &Word,
    depot: &mut D,
) -> Result<Dict, NotRead>
    requires fits { Fits S.view S.fits tree.old desk.old }
    requires scope { IsOpenScope (seen S.view tree.old) scope }
    requires row { IsAmong row (seen S.view tree.old).seat.empty }
    requires room { used (seen S.view tree.old) + 1 ≤ (seen S.view tree.old).rows }
    requires free { owed (seen S.view tree.old).seat + 2 ≤ (seen S.view tree.old).seat.spare }
    ensures reads { ReadsTable D.Dev.Device.told (FinishesDevice D.Dev.Device.told) scope row path.now (D.told depot.old) (D.told depot.new) (seen S.view tree.old) (seen S.view tree.new) result }
    ensures fits { Fits S.view S.fits tree.new desk.new }
    ensures others { OthersFit S.view S.fits (seen S.view tree.old).seat.by desk.old desk.new }
{
    let device = open_device(alloc, path, depot)?;
    tree.acquired(desk, scope, row, Held::new(device));
    let bytes = read_row(alloc, tree, row)?;
    let dict = table_of(alloc, bytes.as_slice())?;
    Ok(dict)
}
