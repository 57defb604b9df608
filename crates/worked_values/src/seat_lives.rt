//! Callers that see public clauses alone: the whole life of a row, and a seat that is split off and
//! comes back.
ghost use Rattle.std.specs.Prelude.{◌≡◌, ◌≤◌, ◌+◌, true, [], ◌∷◌, IfOk};
ghost use Rattle.row_seat.specs.Views.{CanSplit};
ghost use Rattle.res_ledger.specs.Ledger.{IsUsable};
ghost use Rattle.chunk_core.specs.declared.code.Exit.TheVariants.{Succeeded};
ghost use Rattle.res_ledger.specs.declared.event.StreamNo.TheVariants.{Outer};
ghost use Rattle.res_ledger.specs.declared.event.What.TheVariants.{Acquire, Close, Final};

use crate::asserts::same;
use chunk_core::{Exit, Span};
use res_ledger::{Ledger, StreamNo, What};
use row_seat::{PlainSeat, RowSeat};
use std::alloc::{AllocError, Global};
use std::test::Fail;

/// Acquires the row 0 with 7, adds 1, closes its scope, takes it and finalizes it.
fn whole_life(alloc: Global) -> Result<(u32, Ledger), AllocError>
    ensures pay { IfOk result (λ x. x.0 ≡ 8) }
    ensures events { IfOk result (λ x. x.1 ≡ record { stamp = 0; by = Outer; what = Acquire 0 0 } ∷ record { stamp = 1; by = Outer; what = Close 0 Succeeded } ∷ record { stamp = 2; by = Outer; what = Final 0 Succeeded true } ∷ []) }
{
    let (mut seat, mut desk) = PlainSeat::<u32>::new(alloc, StreamNo::Outer, 1, 3)?;
    seat.note(&mut desk, What::Acquire { row: 0, scope: 0 });
    seat.place(&mut desk, 0, 7);
    *seat.pay_mut(0) = 8;
    seat.note(
        &mut desk,
        What::Close {
            scope: 0,
            exit: Exit::Succeeded,
        },
    );
    seat.close(&mut desk, 0);
    let pay = seat.take(&mut desk, 0);
    seat.note(
        &mut desk,
        What::Final {
            row: 0,
            exit: Exit::Succeeded,
            ok: true,
        },
    );
    let ledger = seat.finish(&mut desk);
    Ok((pay, ledger))
}

/// A seat is split off, both note a Close, and it is taken in again.
fn hand_out<S: RowSeat>(
    alloc: Global,
    seat: &mut S,
    desk: &mut S::Desk,
    stream: u32,
    rows: Span,
) -> Result<(), AllocError>
    requires fits { S.fits seat.old desk.old }
    requires can { CanSplit (S.view seat.old) stream rows.from rows.to 1 }
    requires room { 2 ≤ (S.view seat.old).spare }
    requires rest { ((S.view seat.old).pairs ≡ []) × ((S.view seat.old).kept ≡ []) }
    requires scope { IsUsable (S.view seat.old).events (S.view seat.old).by 0 }
    ensures fits { S.fits seat.new desk.new }
    ensures spare { IfOk result (λ _. (S.view seat.new).spare + 2 ≡ (S.view seat.old).spare) }
{
    let mut other = seat.split(alloc, desk, stream, rows, 1)?;
    seat.note(
        desk,
        What::Close {
            scope: 0,
            exit: Exit::Succeeded,
        },
    );
    other.note(
        desk,
        What::Close {
            scope: 0,
            exit: Exit::Succeeded,
        },
    );
    seat.join(desk, other);
    Ok(())
}

#[test]
fn finalizes_what_it_placed(rt: HostRuntime) -> Result<(), Fail> {
    let (pay, ledger) = whole_life(rt.alloc())?;
    same(&rt, pay, 8);
    same(&rt, ledger.len(), 3);
    Ok(())
}

#[test]
fn takes_a_seat_in_again(rt: HostRuntime) -> Result<(), Fail> {
    let (mut seat, mut desk) = PlainSeat::<u32>::new(rt.alloc(), StreamNo::Outer, 2, 3)?;
    let rows = Span { from: 1, to: 2 };
    hand_out(rt.alloc(), &mut seat, &mut desk, 1, rows)?;
    Ok(())
}
