//! Rows one after another at one table, each with its whole life.
ghost use Rattle.std.specs.Prelude.{◌≡◌, ℕ, ◌+◌, ◌*◌, ◌<◌, ◌≤◌, ◌^◌};
ghost use Rattle.res_ledger.specs.declared.event.StreamNo.TheVariants.{Outer};
ghost use Rattle.row_seat.specs.Views.{start};
ghost use Rattle.seat_bench.specs.Rows.{IsIdle, IsLent, IsMain, IsOpen, IsShut};

use chunk_core::Exit;
use res_ledger::{StreamNo, What};
use row_seat::{PlainSeat, RowSeat};
use row_shared::SharedSeat;
use scope_tree::Finish;
use shared_scripts::rows;
use std::alloc::{AllocError, Global};
use tree_scripts::scripts::Coin;

/// Opens a scope for the row, and places it there.
fn open_row<S: RowSeat>(seat: &mut S, desk: &mut S::Desk, row: u32, pay: S::Pay)
    requires fits { S.fits seat.old desk.old }
    requires number { row + 1 < 2 ^ 32 }
    requires idle { (to : ℕ) × (row < to) × IsIdle (S.view seat.old) row to }
    ensures open { (to : ℕ) → row < to → IsIdle (S.view seat.old) row to → IsOpen (S.view seat.new) row to }
    ensures main { IsMain (S.view seat.old) → IsMain (S.view seat.new) }
    ensures fits { S.fits seat.new desk.new }
{
    rows::open_row(seat, desk, row, pay)
}

/// Leases the row's scope for the stream of its number.
fn lend_row<S: RowSeat>(seat: &mut S, desk: &mut S::Desk, row: u32)
    requires main { IsMain (S.view seat.old) }
    requires fits { S.fits seat.old desk.old }
    requires number { row + 1 < 2 ^ 32 }
    requires open { (to : ℕ) × (row < to) × IsOpen (S.view seat.old) row to }
    ensures lent { (to : ℕ) → row < to → IsOpen (S.view seat.old) row to → IsLent (S.view seat.new) row to }
    ensures main { IsMain (S.view seat.old) → IsMain (S.view seat.new) }
    ensures fits { S.fits seat.new desk.new }
{
    seat.lease(desk, row, row);
    seat.note(
        desk,
        What::Lease {
            stream: row,
            scope: row + 1,
        },
    );
}

/// Closes the row's scope and the row.
fn shut_row<S: RowSeat>(seat: &mut S, desk: &mut S::Desk, row: u32)
where
    S::Pay: Finish + Drop,
    requires fits { S.fits seat.old desk.old }
    requires number { row + 1 < 2 ^ 32 }
    requires lent { (to : ℕ) × (row < to) × IsLent (S.view seat.old) row to }
    ensures shut { (to : ℕ) → row < to → IsLent (S.view seat.old) row to → IsShut (S.view seat.new) row to }
    ensures main { IsMain (S.view seat.old) → IsMain (S.view seat.new) }
    ensures fits { S.fits seat.new desk.new }
{
    rows::shut_row(seat, desk, row)
}

/// Cancels the lease and lets go of the row.
fn leave_row<S: RowSeat>(seat: &mut S, desk: &mut S::Desk, row: u32)
where
    S::Pay: Finish + Drop,
    requires main { IsMain (S.view seat.old) }
    requires fits { S.fits seat.old desk.old }
    requires shut { (to : ℕ) × (row < to) × IsShut (S.view seat.old) row to }
    ensures idle { (to : ℕ) → row < to → IsShut (S.view seat.old) row to → IsIdle (S.view seat.new) (row + 1) to }
    ensures main { IsMain (S.view seat.old) → IsMain (S.view seat.new) }
    ensures fits { S.fits seat.new desk.new }
{
    let exit = Exit::Succeeded;
    seat.note(desk, What::Cancel { stream: row, exit });
    rows::quit_row(seat, desk, row, row)
}

/// Closes the row's scope and the row, which nobody leased.
fn end_row<S: RowSeat>(seat: &mut S, desk: &mut S::Desk, row: u32)
where
    S::Pay: Finish + Drop,
    requires fits { S.fits seat.old desk.old }
    requires number { row + 1 < 2 ^ 32 }
    requires open { (to : ℕ) × (row < to) × IsOpen (S.view seat.old) row to }
    ensures idle { (to : ℕ) → row < to → IsOpen (S.view seat.old) row to → IsIdle (S.view seat.new) (row + 1) to }
    ensures fits { S.fits seat.new desk.new }
{
    rows::shut_row(seat, desk, row)
}

/// The lives of the rows of the span, which nobody leases, one after another.
pub fn live_alone<S: RowSeat>(seat: &mut S, desk: &mut S::Desk, from: u32, to: u32, pay: S::Pay)
where
    S::Pay: Finish + Drop + Copy,
    requires fits { S.fits seat.old desk.old }
    requires idle { IsIdle (S.view seat.old) from to }
    requires span { from ≤ to }
{
    for row in from..to {
        open_row(seat, desk, row, pay);
        end_row(seat, desk, row);
    }
}

/// The whole lives of the rows below `count`, one after another.
fn live_all<S: RowSeat>(seat: &mut S, desk: &mut S::Desk, count: u32, pay: S::Pay)
where
    S::Pay: Finish + Drop + Copy,
    requires main { IsMain (S.view seat.old) }
    requires fits { S.fits seat.old desk.old }
    requires idle { IsIdle (S.view seat.old) 0 count }
    ensures fits { S.fits seat.new desk.new }
{
    for row in 0..count {
        open_row(seat, desk, row, pay);
        lend_row(seat, desk, row);
        shut_row(seat, desk, row);
        leave_row(seat, desk, row);
    }
}

/// So many rows at one table of one thread.
pub fn plain_rows(alloc: Global, count: u32) -> Result<u64, AllocError> {
    let events = 7 * count as u64;
    let (mut seat, mut desk) = PlainSeat::new(alloc, StreamNo::Outer, count, events)?;
    live_all(&mut seat, &mut desk, count, Coin { good: true });
    Ok(count as u64)
}

/// So many rows at one table that threads share.
pub fn shared_rows(alloc: Global, count: u32) -> Result<u64, AllocError> {
    let events = 7 * count as u64;
    let (mut seat, mut desk) = SharedSeat::new(alloc, StreamNo::Outer, count, 1, events)?;
    live_all(&mut seat, &mut desk, count, Coin { good: true });
    Ok(count as u64)
}
