//! Lives of rows, and notes.
ghost use Rattle.std.specs.Prelude.{◌≡◌, ◌≤◌, ◌^◌, ◌-◌, ◌<◌, []};
ghost use Rattle.res_ledger.specs.declared.event.StreamNo.TheVariants.{Outer};
ghost use Rattle.row_seat.specs.Views.{start};

use res_ledger::StreamNo;
use row_seat::{PlainSeat, RowSeat};
use row_shared::SharedSeat;
use scope_tree::Finish;
use shared_scripts::notes::note_scopes;
use shared_scripts::races::{finish_both, lend, let_go, shut};
use std::alloc::{AllocError, Global};
use tree_scripts::scripts::Coin;

/// One whole life of the row 0; how many events it noted.
fn life<S: RowSeat>(
    alloc: Global,
    mut owner: S,
    desk: &mut S::Desk,
    pay: S::Pay,
) -> Result<u64, AllocError>
where
    S: Drop,
    S::Pay: Finish + Drop,
    requires fits { S.fits owner desk.old }
    requires start { S.view owner ≡ start Outer 1 8 (S.view owner).splits }
    requires splits { 1 ≤ (S.view owner).splits }
{
    let mut lessee = lend(alloc, &mut owner, desk, pay)?;
    shut(&mut owner, desk);
    let_go(&mut lessee, desk);
    Ok(finish_both(owner, desk, lessee).len())
}

/// So many lives over seats of one thread.
pub fn plain_lives(alloc: Global, count: u32) -> Result<u64, AllocError> {
    let mut events = 0u64;
    for _ in 0..count {
        let (seat, mut desk) = PlainSeat::new(alloc, StreamNo::Outer, 1, 8)?;
        events = events.wrapping_add(life(alloc, seat, &mut desk, Coin { good: true })?);
    }
    Ok(events)
}

/// So many lives over seats that threads share.
pub fn shared_lives(alloc: Global, count: u32) -> Result<u64, AllocError> {
    let mut events = 0u64;
    for _ in 0..count {
        let (seat, mut desk) = SharedSeat::new(alloc, StreamNo::Outer, 1, 2, 8)?;
        events = events.wrapping_add(life(alloc, seat, &mut desk, Coin { good: true })?);
    }
    Ok(events)
}

/// So many events of one seat of one thread.
pub fn plain_notes(alloc: Global, count: u32) -> Result<u64, AllocError> {
    let (mut seat, mut desk) = PlainSeat::<u32>::new(alloc, StreamNo::Outer, 0, count as u64)?;
    note_scopes(&mut seat, &mut desk, count);
    Ok(count as u64)
}

/// So many events of one seat that threads share.
pub fn shared_notes(alloc: Global, count: u32) -> Result<u64, AllocError> {
    let (mut seat, mut desk) = SharedSeat::<u32>::new(alloc, StreamNo::Outer, 0, 1, count as u64)?;
    note_scopes(&mut seat, &mut desk, count);
    Ok(count as u64)
}
