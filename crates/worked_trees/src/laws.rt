//! By the laws of a tree this caller's ledger is whole, over any seat.
ghost use Rattle.std.specs.Prelude.{◌≡◌, ◌≤◌};
ghost use Rattle.res_ledger.specs.declared.event.StreamNo.TheVariants.{Outer};
ghost use Rattle.row_seat.specs.Views.{start};
ghost use Rattle.tree_laws.specs.Whole.{IsWholeLedger};
ghost use Rattle.scope_tree.specs.Visible.{row_room, scope_room};

use crate::asserts::same;
use crate::coins::GOOD;
use chunk_core::{Exit, List};
use res_ledger::{Ledger, StreamNo};
use row_seat::{PlainSeat, RowSeat};
use scope_tree::{Finish, Room, Spent, Tree};
use std::test::Fail;

/// A row in a child of the root, and the ledger once the root is closed.
pub fn one_row<S: RowSeat>(
    seat: S,
    room: Room<S::Pay>,
    desk: &mut S::Desk,
    pay: S::Pay,
) -> (Ledger, List<Spent<S::Pay>>)
where
    S::Pay: Finish,
    requires fits { S.fits seat desk.old }
    requires start { S.view seat ≡ start Outer 1 8 (S.view seat).splits }
    requires room { (2 ≤ scope_room room) × (1 ≤ row_room room) }
    ensures whole { IsWholeLedger result.0 }
{
    let mut tree = Tree::new(seat, room);
    let child = tree.open(desk, 0);
    tree.acquired(desk, child, 0, pay);
    tree.close(desk, 0, Exit::Succeeded);
    let (seat, shelf) = tree.end();
    let ledger = seat.finish(desk);
    (ledger, shelf)
}

#[test]
fn finishes_a_plain_seat(rt: HostRuntime) -> Result<(), Fail> {
    let (seat, mut desk) = PlainSeat::new(rt.alloc(), StreamNo::Outer, 1, 8)?;
    let room = Room::new(rt.alloc(), 2, 1)?;
    let (ledger, shelf) = one_row(seat, room, &mut desk, GOOD);
    same(&rt, ledger.len(), 4);
    same(&rt, shelf.len(), 1);
    Ok(())
}
