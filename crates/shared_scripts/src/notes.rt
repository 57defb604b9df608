//! Two threads note at one table.
ghost use Rattle.std.specs.Prelude.{◌≡◌, ℕ, ◌≤◌, ◌<◌, ◌*◌, ◌^◌, [], List, IfOk};
ghost use Rattle.res_ledger.specs.declared.event.StreamNo.TheVariants.{Inner};
ghost use Rattle.res_ledger.specs.declared.event.What.TheVariants.{Open};
ghost use Rattle.res_ledger.specs.declared.event.Event.{Event};
ghost use Rattle.res_ledger.specs.Ledger.{Notes};
ghost use Rattle.row_seat.specs.Views.{OthersFit};
ghost use Rattle.row_shared.specs.Seats.{shown, SharedFits};
ghost use Rattle.shared_scripts.specs.Scopes.{HasScopes, after_scopes};

use chunk_core::Span;
use res_ledger::{Ledger, StreamNo, What};
use row_seat::RowSeat;
use row_shared::{SharedSeat, TableRef};
use std::alloc::{AllocError, Global};
use std::thread::{Threads, join};

/// Notes the scopes 1 to `count`.
pub fn note_scopes<S: RowSeat>(seat: &mut S, desk: &mut S::Desk, count: u32)
    requires fits { S.fits seat.old desk.old }
    requires start { (S.view seat.old).events ≡ [] }
    requires room { count ≤ (S.view seat.old).spare }
    ensures view { (E : List Event) × (S.view seat.new ≡ after_scopes (S.view seat.old) E count) × HasScopes E (S.view seat.old).by count }
    ensures fits { S.fits seat.new desk.new }
    ensures others { OthersFit S.view S.fits (S.view seat.old).by desk.old desk.new }
{
    for i in 0..count {
        seat.note(
            desk,
            What::Open {
                scope: i + 1,
                parent: 0,
            },
        );
    }
}

// The same with a seat and a handle of the thread's own, which come back.
fn noted(
    mut seat: SharedSeat<u32>,
    mut desk: TableRef<u32>,
    count: u32,
) -> (SharedSeat<u32>, TableRef<u32>)
    requires fits { SharedFits seat desk }
    requires start { (shown seat).events ≡ [] }
    requires room { count ≤ (shown seat).spare }
    ensures view { (E : List Event) × (shown result.0 ≡ after_scopes (shown seat) E count) × HasScopes E (shown seat).by count }
    ensures fits { SharedFits result.0 result.1 }
    ensures others { OthersFit shown SharedFits (shown seat).by desk result.1 }
{
    note_scopes(&mut seat, &mut desk, count);
    (seat, desk)
}

/// Two threads open the scopes 1 to `count` each, at seats of one table: the ledger has them all.
pub fn both_note<R: Threads + Sync>(rt: &R, alloc: Global, count: u32) -> Result<Ledger, AllocError>
    ensures { IfOk result (λ l. (s : ℕ) → 1 ≤ s → s ≤ count → Notes l (Inner 1) (Open s 0) × Notes l (Inner 2) (Open s 0)) }
{
    let (mut seat, mut desk) = SharedSeat::<u32>::new(
        alloc,
        StreamNo::Outer,
        0,
        3,
        2 * count as u64,
    )?;
    let none = Span { from: 0, to: 0 };
    let one = seat.split(alloc, &mut desk, 1, none, count as u64)?;
    let two = seat.split(alloc, &mut desk, 2, none, count as u64)?;
    let first = desk.share()?;
    let second = desk.share()?;
    let (left, right) = join(
        rt,
        || -> (SharedSeat<u32>, TableRef<u32>)
            requires fits { SharedFits one first }
            requires start { (shown one).events ≡ [] }
            requires room { count ≤ (shown one).spare }
            ensures view { (E : List Event) × (shown result.0 ≡ after_scopes (shown one) E count) × HasScopes E (shown one).by count }
            ensures fits { SharedFits result.0 result.1 }
            ensures others { OthersFit shown SharedFits (shown one).by first result.1 }
        { noted(one, first, count) },
        || -> (SharedSeat<u32>, TableRef<u32>)
            requires fits { SharedFits two second }
            requires start { (shown two).events ≡ [] }
            requires room { count ≤ (shown two).spare }
            ensures view { (E : List Event) × (shown result.0 ≡ after_scopes (shown two) E count) × HasScopes E (shown two).by count }
            ensures fits { SharedFits result.0 result.1 }
            ensures others { OthersFit shown SharedFits (shown two).by second result.1 }
        { noted(two, second, count) },
    );
    let (one, _first) = left;
    let (two, _second) = right;
    seat.join(&mut desk, one);
    seat.join(&mut desk, two);
    Ok(seat.finish(&mut desk))
}
