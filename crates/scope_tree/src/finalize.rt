//! Ending a row.
ghost use Rattle.std.specs.Prelude.{ℕ, ◌+◌, ◌≤◌, vec_len, vec_capacity};
ghost use Rattle.row_seat.specs.Views.{CanTake, OthersFit};
ghost use Rattle.scope_tree.specs.Released.{Finalizes};

use crate::branch::{Finish, Spent};
use chunk_core::Exit;
use res_ledger::What;
use row_seat::RowSeat;

/// Ends a row that was handed to this seat: its finalizer is told the exit, its Final is noted, and
/// what is left of it is put on the shelf.
pub fn finalize<S: RowSeat>(
    seat: &mut S,
    desk: &mut S::Desk,
    shelf: &mut Vec<Spent<S::Pay>>,
    row: u32,
    exit: Exit,
)
where
    S::Pay: Finish,
    requires fits { S.fits seat.old desk.old }
    requires row { CanTake (S.view seat.old) row }
    requires spare { 1 ≤ (S.view seat.old).spare }
    requires room { vec_len shelf.old + 1 ≤ vec_capacity shelf.old }
    ensures ended { Finalizes S.Pay.ends exit row (S.view seat.old) shelf.old.items shelf.new.items (S.view seat.new) }
    ensures room { vec_capacity shelf.old ≤ vec_capacity shelf.new }
    ensures fits { S.fits seat.new desk.new }
    ensures others { OthersFit S.view S.fits (S.view seat.old).by desk.old desk.new }
{
    let mut pay = seat.take(desk, row);
    let ok = pay.finish(exit);
    seat.note(desk, What::Final { row, exit, ok });
    shelf.push_reserved(Spent { row, pay, exit, ok });
}
