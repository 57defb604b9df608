//! A stream with rows of its own, and with leases of rows of the main seat.
ghost use Rattle.std.specs.Prelude.{◌≡◌, ◌+◌, ◌-◌, ◌*◌, ◌≤◌, vec_len};
ghost use Rattle.res_ledger.specs.declared.event.StreamNo.TheVariants.{Inner};
ghost use Rattle.row_seat.specs.Views.{OthersFit};
ghost use Rattle.shared_scripts.specs.Crowds.{IsLiving, IsQuitting, IsRested};

use crate::hosting::{COMMON, ROWS, first_row};
use crate::rows::{open_row, quit_row, shut_row};
use chunk_core::Exit;
use res_ledger::What;
use row_seat::RowSeat;
use scope_tree::Finish;

/// Lives through the rows of the stream, one after another, each with one of the payloads.
pub fn live_rows<S: RowSeat>(seat: &mut S, desk: &mut S::Desk, stream: u32, mut pays: Vec<S::Pay>)
where
    S::Pay: Finish + Drop,
    requires fits { S.fits seat.old desk.old }
    requires stream { 1 ≤ stream × stream ≤ 8 }
    requires living { IsLiving (S.view seat.old) stream (64 * stream - 56) }
    requires pays { vec_len pays ≡ 64 }
    ensures living { IsLiving (S.view seat.new) stream (64 * stream + 8) }
    ensures fits { S.fits seat.new desk.new }
    ensures others { OthersFit S.view S.fits (Inner stream) desk.old desk.new }
{
    let from = first_row(stream);
    for row in from..from + ROWS {
        let Some(pay) = pays.pop() else {
            unreachable!()
        };
        open_row(seat, desk, row, pay);
        shut_row(seat, desk, row);
    }
}

/// Lets go of the rows of the main seat, one after another.
pub fn quit_rows<S: RowSeat>(seat: &mut S, desk: &mut S::Desk, stream: u32)
where
    S::Pay: Finish + Drop,
    requires fits { S.fits seat.old desk.old }
    requires quitting { IsQuitting (S.view seat.old) stream 0 }
    ensures quitting { IsQuitting (S.view seat.new) stream 8 }
    ensures fits { S.fits seat.new desk.new }
    ensures others { OthersFit S.view S.fits (Inner stream) desk.old desk.new }
{
    for row in 0..COMMON {
        quit_row(seat, desk, stream, row);
    }
}

/// The whole stay of a stream: its own rows, then the cancellation of its lease.
pub fn stay<S: RowSeat>(seat: &mut S, desk: &mut S::Desk, stream: u32, pays: Vec<S::Pay>)
where
    S::Pay: Finish + Drop,
    requires fits { S.fits seat.old desk.old }
    requires stream { 1 ≤ stream × stream ≤ 8 }
    requires living { IsLiving (S.view seat.old) stream (64 * stream - 56) }
    requires pays { vec_len pays ≡ 64 }
    ensures rested { IsRested (S.view seat.new) stream }
    ensures fits { S.fits seat.new desk.new }
    ensures others { OthersFit S.view S.fits (Inner stream) desk.old desk.new }
{
    live_rows(seat, desk, stream, pays);
    let exit = Exit::Succeeded;
    seat.note(desk, What::Cancel { stream, exit });
    quit_rows(seat, desk, stream);
}
