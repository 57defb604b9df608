//! A rotation from its begin to its end.
ghost use Rattle.std.specs.Prelude.{◌≡◌, ◌≤◌, ℕ, List, [], false, true};
ghost use Rattle.device_port.specs.Depot.{DepotTold};
ghost use Rattle.row_seat.specs.Views.{CanFinish};
ghost use Rattle.scope_tree.specs.Calls.{ClosesScope, IsClosedScope};
ghost use Rattle.scope_tree.specs.Rights.{HasNoLeaseBut};
ghost use Rattle.scope_tree.specs.Trees.{Fits, seen};
ghost use Rattle.pull_stepper.specs.Held.{FinishesDevice};
ghost use Rattle.hot_swap.specs.Swaps.{EndsAll, IsHolding, IsUnleased};
ghost use Rattle.rotate_files.specs.Beginning.{IsUnused};
ghost use Rattle.rotate_files.specs.Copies.{IsCopying};
ghost use Rattle.rotate_files.specs.Told.{HasMade, source_told};
ghost use Rattle.rotate_files.specs.Visible.{FitsFiles, files_of, held_file, room_of, seen_files};

use crate::rotation::Rotation;
use chunk_core::{Exit, List};
use device_port::Device;
use hot_swap::Hotswap;
use pull_stepper::Held;
use row_seat::RowSeat;
use scope_tree::{Spent, Tree};

/// Puts the open device that is to be copied in row 0. No file is there yet.
pub fn begin<V: Device, S: RowSeat<Pay = Held<V>>>(
    tree: Tree<S>,
    desk: &mut S::Desk,
    device: V,
) -> Rotation<S>
    requires fits { Fits S.view S.fits tree desk.old }
    requires unused { IsUnused (seen S.view tree) }
    ensures copying { (old now : DepotTold) (prefix : List ℕ) (n : ℕ) (path : List ℕ) → 1 ≤ n → HasMade old path prefix 0 now → V.told device ≡ source_told old path 0 false 0 → IsCopying V.told old prefix n path (seen_files S.view result) (held_file result) now (files_of result) (room_of result) false 0 }
    ensures left { room_of result ≡ 0 }
    ensures fits { FitsFiles S.view S.fits result desk.new }
{
    let mut tree = tree;
    let pay = Held::new(device);
    tree.acquired(desk, 0, 0, pay);
    let files = Hotswap::new(tree);
    Rotation {
        files,
        count: 0,
        left: 0,
    }
}

/// Closes all with the exit: the seat, and the devices in the order in which they were closed.
pub fn end<V: Device, S: RowSeat<Pay = Held<V>>>(
    rotation: Rotation<S>,
    desk: &mut S::Desk,
    exit: Exit,
) -> (S, List<Spent<Held<V>>>)
    requires fits { FitsFiles S.view S.fits rotation desk.old }
    requires holding { IsHolding (seen_files S.view rotation) (held_file rotation) }
    ensures ends { IsUnleased (seen_files S.view rotation).seat → EndsAll (FinishesDevice V.told) (seen_files S.view rotation) (held_file rotation) exit (record (seen_files S.view rotation) { seat = S.view result.0; shelf = result.1 }) }
    ensures closes { ClosesScope (FinishesDevice V.told) (seen_files S.view rotation) 0 exit (record (seen_files S.view rotation) { seat = S.view result.0; shelf = result.1 }) }
    ensures root { IsClosedScope (record (seen_files S.view rotation) { seat = S.view result.0; shelf = result.1 }) 0 }
    ensures none_left { (S.view result.0).opened ≡ [] }
    ensures fits { S.fits result.0 desk.new }
    ensures finish { (seen_files S.view rotation).seat.main ≡ true → (seen_files S.view rotation).seat.out ≡ [] → HasNoLeaseBut (seen_files S.view rotation).seat [] → CanFinish (S.view result.0) }
{
    let Rotation {
        files,
        count: _,
        left: _,
    } = rotation;
    files.end(desk, exit)
}
