//! A stream with a seat of its own, to which the lease of another stream's row passes.
ghost use Rattle.std.specs.Prelude.{◌≡◌, ◌≤◌, [], ◌∷◌};
ghost use Rattle.res_ledger.specs.declared.event.StreamNo.TheVariants.{Inner};
ghost use Rattle.row_seat.specs.Views.{AtRest, OthersFit};
ghost use Rattle.tree_scripts.specs.Guests.{HasVisited, IsGuest, IsHost};
ghost use Rattle.scope_tree.specs.Trees.{Fits, seen};
ghost use Rattle.scope_tree.specs.Visible.{lessee, row_room, rows_covered};

use chunk_core::Exit;
use res_ledger::Ledger;
use row_seat::RowSeat;
use scope_tree::{Finish, Lease, Room, Tree};

/// Over its own seat the stream acquires the row 1 and ends it as errored, and then lets go of the
/// leased one, which ends so too.
pub fn visit<S: RowSeat>(
    seat: S,
    room: Room<S::Pay>,
    desk: &mut S::Desk,
    lease: Lease,
    pay: S::Pay,
) -> S
where
    S::Pay: Finish + Drop,
    requires fits { S.fits seat desk.old }
    requires guest { IsGuest (S.view seat) }
    requires room { 2 ≤ row_room room }
    requires lease { (lessee lease ≡ 5) × (rows_covered lease ≡ 0 ∷ []) }
    ensures rest { AtRest (S.view result) × ((S.view result).by ≡ Inner 5) }
    ensures visited { HasVisited (S.view result) }
    ensures fits { S.fits result desk.new }
    ensures others { OthersFit S.view S.fits (Inner 5) desk.old desk.new }
{
    let mut tree = Tree::new(seat, room);
    tree.acquired(desk, 0, 1, pay);
    tree.close(desk, 0, Exit::Errored);
    tree.cancel(desk, lease, Exit::Errored);
    let (seat, _) = tree.end();
    seat
}

/// Takes the stream's seat in again, and finishes.
pub fn part<S: RowSeat>(mut tree: Tree<S>, desk: &mut S::Desk, guest: S) -> Ledger
where
    S::Pay: Finish + Drop,
    requires fits { Fits S.view S.fits tree desk.old × S.fits guest desk.old }
    requires host { IsHost (seen S.view tree).seat }
    requires rest { AtRest (S.view guest) × ((S.view guest).by ≡ Inner 5) }
{
    tree.join(desk, guest);
    let (seat, _) = tree.end();
    seat.finish(desk)
}
