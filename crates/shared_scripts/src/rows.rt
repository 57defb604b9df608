//! A row's steps with their events, over any seat: a row in a scope of its own is opened and closed, and
//! the lease of a row is left. Who is handed the row ends it.
ghost use Rattle.std.specs.Prelude.{◌+◌, ◌<◌, ◌≤◌, ◌^◌};
ghost use Rattle.chunk_core.specs.Lists.{IsAmong};
ghost use Rattle.row_seat.specs.Views.{CanLeave, OthersFit};
ghost use Rattle.shared_scripts.specs.Rows.{CanOpenRow, CanShutRow, OpensRow, QuitsRow, ShutsRow};

use crate::races::finalize;
use chunk_core::Exit;
use res_ledger::What;
use row_seat::{Left, RowSeat};
use scope_tree::Finish;

/// Opens a scope for the row under the root, acquires the row in it, and places it.
pub fn open_row<S: RowSeat>(seat: &mut S, desk: &mut S::Desk, row: u32, pay: S::Pay)
    requires fits { S.fits seat.old desk.old }
    requires number { row + 1 < 2 ^ 32 }
    requires can { CanOpenRow (S.view seat.old) row }
    ensures opens { OpensRow (S.view seat.old) row pay (S.view seat.new) }
    ensures fits { S.fits seat.new desk.new }
    ensures others { OthersFit S.view S.fits (S.view seat.old).by desk.old desk.new }
{
    let scope = row + 1;
    seat.note(desk, What::Open { scope, parent: 0 });
    seat.note(desk, What::Acquire { row, scope });
    seat.place(desk, row, pay);
}

/// Closes the row's scope and the row, and finalizes it where it is handed to this seat.
pub fn shut_row<S: RowSeat>(seat: &mut S, desk: &mut S::Desk, row: u32)
where
    S::Pay: Finish + Drop,
    requires fits { S.fits seat.old desk.old }
    requires number { row + 1 < 2 ^ 32 }
    requires can { CanShutRow (S.view seat.old) row }
    ensures shuts { ShutsRow (S.view seat.old) row (S.view seat.new) }
    ensures fits { S.fits seat.new desk.new }
    ensures others { OthersFit S.view S.fits (S.view seat.old).by desk.old desk.new }
{
    let exit = Exit::Succeeded;
    let scope = row + 1;
    seat.note(desk, What::Close { scope, exit });
    match seat.close(desk, row) {
        Left::Stays => {}
        Left::Yours => finalize(seat, desk, row),
    }
}

/// Lets go of a leased row, and finalizes it where it is handed to this seat.
pub fn quit_row<S: RowSeat>(seat: &mut S, desk: &mut S::Desk, stream: u32, row: u32)
where
    S::Pay: Finish + Drop,
    requires fits { S.fits seat.old desk.old }
    requires row { CanLeave (S.view seat.old) stream row }
    requires taken { ¬ (IsAmong row (S.view seat.old).taken) }
    requires room { 1 ≤ (S.view seat.old).spare }
    ensures quits { QuitsRow (S.view seat.old) stream row (S.view seat.new) }
    ensures fits { S.fits seat.new desk.new }
    ensures others { OthersFit S.view S.fits (S.view seat.old).by desk.old desk.new }
{
    match seat.leave(desk, stream, row) {
        Left::Stays => {}
        Left::Yours => finalize(seat, desk, row),
    }
}
