//! A main seat with rows that streams lease, and the seats of these streams.
ghost use Rattle.std.specs.Prelude.{◌≡◌, ℕ, List, ◌+◌, ◌-◌, ◌*◌, ◌≤◌, [], ◌∷◌, ◌++◌, IfOk, vec_len};
ghost use Rattle.res_ledger.specs.declared.event.StreamNo.TheVariants.{Outer};
ghost use Rattle.row_seat.specs.Views.{OthersFit, start};
ghost use Rattle.shared_scripts.specs.Crowds.{IsGathered, IsHost, IsLiving, with_lent};

use crate::rows::{open_row, shut_row};
use chunk_core::Span;
use res_ledger::What;
use row_seat::RowSeat;
use scope_tree::Finish;
use std::alloc::{AllocError, Global};

/// How many streams there are, from 1 on.
pub const STREAMS: u32 = 8;

/// How many rows all streams lease.
pub const COMMON: u32 = 8;

/// How many rows of its own each stream has.
pub const ROWS: u32 = 64;

/// How many events a stream may note: four a row, its Cancel, and a Final of each leased row.
const NOTES: u64 = 265;

/// The first row of a stream.
pub fn first_row(stream: u32) -> u32
    requires { 1 ≤ stream × stream ≤ 8 }
    ensures { result ≡ 64 * stream - 56 }
{
    ROWS * stream - 56
}

/// Opens the rows that are to be leased, each with one of the payloads.
pub fn open_common<S: RowSeat>(seat: &mut S, desk: &mut S::Desk, mut pays: Vec<S::Pay>)
where
    S::Pay: Drop,
    requires fits { S.fits seat.old desk.old }
    requires start { S.view seat.old ≡ start Outer 520 2160 8 }
    requires pays { vec_len pays ≡ 8 }
    ensures host { IsHost (S.view seat.new) [] 8 0 1 }
    ensures fits { S.fits seat.new desk.new }
{
    for row in 0..COMMON {
        let Some(pay) = pays.pop() else {
            unreachable!()
        };
        open_row(seat, desk, row, pay);
    }
}

/// Leases these rows for a stream.
pub fn lease_common<S: RowSeat>(seat: &mut S, desk: &mut S::Desk, stream: u32)
    requires fits { S.fits seat.old desk.old }
    requires host { (out : List ℕ) × IsHost (S.view seat.old) out 8 0 stream }
    ensures view { S.view seat.new ≡ with_lent (S.view seat.old) stream 8 }
    ensures fits { S.fits seat.new desk.new }
    ensures others { OthersFit S.view S.fits Outer desk.old desk.new }
{
    for row in 0..COMMON {
        seat.lease(desk, stream, row);
    }
}

/// Leases these rows for a stream, and splits its seat off.
pub fn lend<S: RowSeat>(
    alloc: Global,
    seat: &mut S,
    desk: &mut S::Desk,
    stream: u32,
) -> Result<S, AllocError>
    requires fits { S.fits seat.old desk.old }
    requires stream { 1 ≤ stream × stream ≤ 8 }
    requires host { IsHost (S.view seat.old) (S.view seat.old).out 8 0 stream }
    ensures host { IfOk result (λ _. IsHost (S.view seat.new) ((S.view seat.old).out ++ stream ∷ []) 8 0 (stream + 1)) }
    ensures living { IfOk result (λ s. IsLiving (S.view s) stream (64 * stream - 56) × S.fits s desk.new) }
    ensures fits { S.fits seat.new desk.new }
    ensures others { OthersFit S.view S.fits Outer desk.old desk.new }
{
    lease_common(seat, desk, stream);
    seat.note(desk, What::Lease { stream, scope: 0 });
    let from = first_row(stream);
    let rows = Span {
        from,
        to: from + ROWS,
    };
    let own = seat.split(alloc, desk, stream, rows, NOTES)?;
    Ok(own)
}

/// Closes the leased rows, one after another.
pub fn shut_common<S: RowSeat>(seat: &mut S, desk: &mut S::Desk)
where
    S::Pay: Finish + Drop,
    requires fits { S.fits seat.old desk.old }
    requires host { (j : ℕ) × IsHost (S.view seat.old) (S.view seat.old).out 8 0 j }
    ensures gathered { IsGathered (S.view seat.new) (S.view seat.old).out }
    ensures fits { S.fits seat.new desk.new }
    ensures others { OthersFit S.view S.fits Outer desk.old desk.new }
{
    for row in 0..COMMON {
        shut_row(seat, desk, row);
    }
}
