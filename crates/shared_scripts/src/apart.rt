//! Seats that note at handles of their own, over any desk that can be shared.
ghost use Rattle.std.specs.Prelude.{◌≡◌, ℕ, ◌≤◌, false, [], List, IfOk};
ghost use Rattle.res_ledger.specs.declared.event.StreamNo.TheVariants.{Inner};
ghost use Rattle.res_ledger.specs.declared.event.What.TheVariants.{Open};
ghost use Rattle.res_ledger.specs.declared.event.Event.{Event};
ghost use Rattle.res_ledger.specs.Ledger.{Notes};
ghost use Rattle.shared_scripts.specs.Scopes.{HasScopes, after_scopes};

use crate::notes::note_scopes;
use chunk_core::Span;
use res_ledger::{Ledger, StreamNo};
use row_seat::RowSeat;
use row_shared::{SharedSeat, SharesDesk};
use std::alloc::{AllocError, Global};

/// Notes the scopes 1 to `count` at a further handle, which is then let go of. The seat fits the
/// desk as before, since that handle was of its table.
pub fn note_apart<S: SharesDesk>(seat: &mut S, desk: &S::Desk, count: u32) -> Result<(), AllocError>
where
    S::Desk: Drop,
    requires fits { S.fits seat.old desk.now }
    requires side { (S.view seat.old).main ≡ false }
    requires start { (S.view seat.old).events ≡ [] }
    requires room { count ≤ (S.view seat.old).spare }
    ensures view { IfOk result (λ _. (E : List Event) × (S.view seat.new ≡ after_scopes (S.view seat.old) E count) × HasScopes E (S.view seat.old).by count) }
    ensures fits { S.fits seat.new desk.now }
{
    let mut own = S::share(desk)?;
    note_scopes(seat, &mut own, count);
    Ok(())
}

/// Two seats open the scopes 1 to `count` each, at handles of their own: once they are taken in the
/// ledger has them all.
pub fn both_note_apart(alloc: Global, count: u32) -> Result<Ledger, AllocError>
    ensures { IfOk result (λ l. (s : ℕ) → 1 ≤ s → s ≤ count → Notes l (Inner 1) (Open s 0) × Notes l (Inner 2) (Open s 0)) }
{
    let (mut seat, mut desk) = SharedSeat::<u32>::new(
        alloc,
        StreamNo::Outer,
        0,
        3,
        2 * count as u64,
    )?;
    let none = Span { from: 0, to: 0 };
    let mut one = seat.split(alloc, &mut desk, 1, none, count as u64)?;
    let mut two = seat.split(alloc, &mut desk, 2, none, count as u64)?;
    note_apart(&mut one, &desk, count)?;
    note_apart(&mut two, &desk, count)?;
    seat.join(&mut desk, one);
    seat.join(&mut desk, two);
    Ok(seat.finish(&mut desk))
}
