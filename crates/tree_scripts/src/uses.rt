//! Callers over the seat of one stream: rows that end with their scopes, and a row that is written.
ghost use Rattle.std.specs.Prelude.{◌≡◌, ℕ, ◌≤◌};
ghost use Rattle.chunk_core.specs.Lists.{IsAmong};
ghost use Rattle.row_seat.specs.Views.{HasRow};
ghost use Rattle.scope_tree.specs.Calls.{AtStart, IsOpenScope};
ghost use Rattle.scope_tree.specs.Trees.{Fits, seen};
ghost use Rattle.scope_tree.specs.Visible.{row_room, scope_room};
ghost use Rattle.tree_scripts.specs.Uses.{IsEndedWith, IsTwo};
ghost use Rattle.tree_scripts.specs.Waiting.{IsAlone};

use chunk_core::{Exit, List};
use row_seat::RowSeat;
use scope_tree::{Finish, Room, Spent, Tree};

/// Two rows in two scopes, and the root is closed as succeeded.
pub fn two<S: RowSeat>(
    seat: S,
    room: Room<S::Pay>,
    desk: &mut S::Desk,
    first: S::Pay,
    second: S::Pay,
) -> (S, List<Spent<S::Pay>>)
where
    S::Pay: Finish,
    requires fits { S.fits seat desk.old }
    requires start { AtStart (S.view seat) }
    requires spare { 7 ≤ (S.view seat).spare }
    requires rows { IsAmong 0 (S.view seat).empty × IsAmong 1 (S.view seat).empty }
    requires room { (2 ≤ scope_room room) × (2 ≤ row_room room) }
    ensures two { IsTwo S.Pay.ends first second (S.view result.0) result.1 }
    ensures fits { S.fits result.0 desk.new }
{
    let mut tree = Tree::new(seat, room);
    let child = tree.open(desk, 0);
    tree.acquired(desk, 0, 0, first);
    tree.acquired(desk, child, 1, second);
    tree.close(desk, 0, Exit::Succeeded);
    tree.end()
}

/// Writes another payload into an open row, closes the root as canceled and ends the tree.
pub fn write_and_end<S: RowSeat>(
    mut tree: Tree<S>,
    desk: &mut S::Desk,
    row: u32,
    pay: S::Pay,
) -> (S, List<Spent<S::Pay>>)
where
    S::Pay: Finish + Drop,
    requires fits { Fits S.view S.fits tree desk.old }
    requires alone { IsAlone (seen S.view tree).seat }
    requires row { HasRow (seen S.view tree).seat.opened row }
    requires root { IsOpenScope (seen S.view tree) 0 }
    ensures ended { IsEndedWith S.Pay.ends row pay result.1 }
    ensures fits { S.fits result.0 desk.new }
{
    *tree.pay_mut(row) = pay;
    tree.close(desk, 0, Exit::Canceled);
    tree.end()
}
