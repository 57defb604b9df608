//! A short caller of a tree, which cancels its lease itself.
ghost use Rattle.std.specs.Prelude.{◌≡◌, ◌≤◌, IfOk};
ghost use Rattle.chunk_core.specs.declared.code.Exit.TheVariants.{Succeeded};
ghost use Rattle.res_ledger.specs.declared.event.StreamNo.TheVariants.{Outer};
ghost use Rattle.row_seat.specs.Views.{start};
ghost use Rattle.scope_tree.specs.Trees.{Fits, seen};
ghost use Rattle.scope_tree.specs.Visible.{row_room, scope_room};
ghost use Rattle.tree_scripts.specs.Short.{HasTwoRows, IsLeasedAndCanceled};

use crate::scripts::{Coin, finish_alone};
use chunk_core::Exit;
use res_ledger::{Ledger, StreamNo};
use row_seat::{PlainSeat, RowSeat};
use scope_tree::{Finish, Room, Tree};
use std::alloc::{AllocError, Global};

/// A first tree with a row in the root and one in its child.
pub fn two_rows<S: RowSeat>(
    seat: S,
    room: Room<S::Pay>,
    desk: &mut S::Desk,
    first: S::Pay,
    second: S::Pay,
) -> Tree<S>
where
    S::Pay: Finish,
    requires fits { S.fits seat desk.old }
    requires start { S.view seat ≡ start Outer 2 16 (S.view seat).splits }
    requires room { (2 ≤ scope_room room) × (2 ≤ row_room room) }
    ensures two { HasTwoRows first second (seen S.view result) }
    ensures fits { Fits S.view S.fits result desk.new }
{
    let mut tree = Tree::new(seat, room);
    let child = tree.open(desk, 0);
    tree.acquired(desk, 0, 0, first);
    tree.acquired(desk, child, 1, second);
    tree
}

/// Two rows in two scopes. The root is leased for the stream 7, which covers both, and closed; the
/// lease is cancelled, with which both end; and the seat finishes.
pub fn lease_and_cancel<S: RowSeat>(
    alloc: Global,
    seat: S,
    room: Room<S::Pay>,
    desk: &mut S::Desk,
    first: S::Pay,
    second: S::Pay,
) -> Result<Ledger, AllocError>
where
    S::Pay: Finish + Drop,
    requires fits { S.fits seat desk.old }
    requires start { S.view seat ≡ start Outer 2 16 (S.view seat).splits }
    requires room { (2 ≤ scope_room room) × (2 ≤ row_room room) }
    ensures { IfOk result (λ ledger. IsLeasedAndCanceled Succeeded ledger) }
{
    let mut tree = two_rows(seat, room, desk, first, second);
    match tree.lease(alloc, desk, 0, 7) {
        Ok(lease) => {
            tree.close(desk, 0, Exit::Succeeded);
            tree.cancel(desk, lease, Exit::Succeeded);
            let (ledger, _) = finish_alone(tree, desk);
            Ok(ledger)
        }
        Err(error) => {
            tree.close(desk, 0, Exit::Canceled);
            finish_alone(tree, desk);
            Err(error)
        }
    }
}

/// The same over a plain seat, with two rows of which the second's finalizer fails.
pub fn over_a_plain_seat(alloc: Global) -> Result<Ledger, AllocError>
    ensures { IfOk result (λ ledger. IsLeasedAndCanceled Succeeded ledger) }
{
    let (seat, mut desk) = PlainSeat::new(alloc, StreamNo::Outer, 2, 16)?;
    let room = Room::new(alloc, 2, 2)?;
    let (first, second) = (Coin { good: true }, Coin { good: false });
    lease_and_cancel(alloc, seat, room, &mut desk, first, second)
}
