//! Taking down what is open.
ghost use Rattle.std.specs.Prelude.{◌≡◌, ℕ, ◌+◌, ◌<◌, ◌≤◌, length, vec_len, vec_capacity, ◌++◌, [], ◌∷◌};
ghost use Rattle.row_seat.specs.Views.{OthersFit};
ghost use Rattle.scope_tree.specs.Kids.{lasts, whole};
ghost use Rattle.scope_tree.specs.Released.{CanRelease, Releases};
ghost use Rattle.scope_tree.specs.Released.Holder.{owner};

use crate::branch::{AcquiredRow, Branch, Finish, Spent};
use crate::finalize::finalize;
use chunk_core::Exit;
use row_seat::{Left, RowSeat};

/// Closes a row, and where it is handed to this seat, ends it.
fn release<S: RowSeat>(
    seat: &mut S,
    desk: &mut S::Desk,
    shelf: &mut Vec<Spent<S::Pay>>,
    row: u32,
    exit: Exit,
)
where
    S::Pay: Finish,
    requires fits { S.fits seat.old desk.old }
    requires can { CanRelease owner (row ∷ []) (S.view seat.old) }
    requires room { vec_len shelf.old + 1 ≤ vec_capacity shelf.old }
    ensures released { Releases S.Pay.ends exit owner (row ∷ []) (S.view seat.old) shelf.old.items shelf.new.items (S.view seat.new) }
    ensures room { vec_capacity shelf.old ≤ vec_capacity shelf.new }
    ensures fits { S.fits seat.new desk.new }
    ensures others { OthersFit S.view S.fits (S.view seat.old).by desk.old desk.new }
{
    match seat.close(desk, row) {
        Left::Stays => {}
        Left::Yours => finalize(seat, desk, shelf, row, exit),
    }
}

/// The rows of a scope, latest acquired first.
fn release_rows<S: RowSeat>(
    seat: &mut S,
    desk: &mut S::Desk,
    shelf: &mut Vec<Spent<S::Pay>>,
    acquisitions: &[AcquiredRow],
    scope: usize,
    exit: Exit,
)
where
    S::Pay: Finish,
    requires fits { S.fits seat.old desk.old }
    requires can { CanRelease owner (lasts acquisitions.now scope) (S.view seat.old) }
    requires room { vec_len shelf.old + length (lasts acquisitions.now scope) ≤ vec_capacity shelf.old }
    ensures released { Releases S.Pay.ends exit owner (lasts acquisitions.now scope) (S.view seat.old) shelf.old.items shelf.new.items (S.view seat.new) }
    ensures room { vec_capacity shelf.old ≤ vec_capacity shelf.new }
    ensures fits { S.fits seat.new desk.new }
    ensures others { OthersFit S.view S.fits (S.view seat.old).by desk.old desk.new }
{
    let mut at = acquisitions.len();
    'rows: while at > 0 {
        at -= 1;
        let one = acquisitions[at];
        if one.scope as usize == scope {
            release(seat, desk, shelf, one.row, exit);
        }
    }
}

/// The open children of a scope, latest opened first, and then its rows.
pub fn tear<S: RowSeat>(
    seat: &mut S,
    desk: &mut S::Desk,
    shelf: &mut Vec<Spent<S::Pay>>,
    branches: &[Branch],
    acquisitions: &[AcquiredRow],
    scope: usize,
    exit: Exit,
)
where
    S::Pay: Finish,
    requires scope { scope < length branches.now }
    requires fits { S.fits seat.old desk.old }
    requires can { CanRelease owner (whole branches.now acquisitions.now scope) (S.view seat.old) }
    requires room { vec_len shelf.old + length (whole branches.now acquisitions.now scope) ≤ vec_capacity shelf.old }
    ensures released { Releases S.Pay.ends exit owner (whole branches.now acquisitions.now scope) (S.view seat.old) shelf.old.items shelf.new.items (S.view seat.new) }
    ensures room { vec_capacity shelf.old ≤ vec_capacity shelf.new }
    ensures fits { S.fits seat.new desk.new }
    ensures others { OthersFit S.view S.fits (S.view seat.old).by desk.old desk.new }
{
    let mut child = branches.len();
    'children: while child > scope + 1 {
        child -= 1;
        let branch = branches[child];
        if branch.parent as usize == scope && !branch.shut {
            tear(seat, desk, shelf, branches, acquisitions, child, exit);
        }
    }
    release_rows(seat, desk, shelf, acquisitions, scope, exit);
}
