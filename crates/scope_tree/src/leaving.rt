//! Leaving the rows of a lease.
ghost use Rattle.std.specs.Prelude.{◌≡◌, ℕ, ◌+◌, ◌<◌, ◌≤◌, length, vec_len, vec_capacity, [], ◌∷◌, reverse};
ghost use Rattle.row_seat.specs.Views.{OthersFit};
ghost use Rattle.scope_tree.specs.Released.{CanRelease, Releases, away};
ghost use Rattle.scope_tree.specs.Released.Holder.{lease};

use crate::branch::{Finish, Spent};
use crate::finalize::finalize;
use chunk_core::Exit;
use row_seat::{Left, RowSeat};

/// Leaves a row, and where it is handed to this seat, ends it.
fn leave<S: RowSeat>(
    seat: &mut S,
    desk: &mut S::Desk,
    shelf: &mut Vec<Spent<S::Pay>>,
    stream: u32,
    row: u32,
    exit: Exit,
)
where
    S::Pay: Finish,
    requires fits { S.fits seat.old desk.old }
    requires can { CanRelease (lease stream) (row ∷ []) (S.view seat.old) }
    requires room { vec_len shelf.old + away (row ∷ []) (S.view seat.old).opened ≤ vec_capacity shelf.old }
    ensures released { Releases S.Pay.ends exit (lease stream) (row ∷ []) (S.view seat.old) shelf.old.items shelf.new.items (S.view seat.new) }
    ensures room { vec_capacity shelf.old ≤ vec_capacity shelf.new }
    ensures fits { S.fits seat.new desk.new }
    ensures others { OthersFit S.view S.fits (S.view seat.old).by desk.old desk.new }
{
    match seat.leave(desk, stream, row) {
        Left::Stays => {}
        Left::Yours => finalize(seat, desk, shelf, row, exit),
    }
}

/// Leaves the rows, the last first.
pub fn leave_all<S: RowSeat>(
    seat: &mut S,
    desk: &mut S::Desk,
    shelf: &mut Vec<Spent<S::Pay>>,
    stream: u32,
    rows: &[u32],
    exit: Exit,
)
where
    S::Pay: Finish,
    requires fits { S.fits seat.old desk.old }
    requires can { CanRelease (lease stream) (reverse rows.now) (S.view seat.old) }
    requires room { vec_len shelf.old + away (reverse rows.now) (S.view seat.old).opened ≤ vec_capacity shelf.old }
    ensures released { Releases S.Pay.ends exit (lease stream) (reverse rows.now) (S.view seat.old) shelf.old.items shelf.new.items (S.view seat.new) }
    ensures room { vec_capacity shelf.old ≤ vec_capacity shelf.new }
    ensures fits { S.fits seat.new desk.new }
    ensures others { OthersFit S.view S.fits (S.view seat.old).by desk.old desk.new }
{
    let mut at = rows.len();
    'rows: while at > 0 {
        at -= 1;
        leave(seat, desk, shelf, stream, rows[at], exit);
    }
}
