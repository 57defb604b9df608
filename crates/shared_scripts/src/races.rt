//! One thread closes a row while another lets go of its last lease.
ghost use Rattle.std.specs.Prelude.{◌≡◌, ◌≤◌, Bool, IfOk};
ghost use Rattle.chunk_core.specs.Lists.{IsAmong};
ghost use Rattle.chunk_core.specs.declared.code.Exit.TheVariants.{Succeeded};
ghost use Rattle.res_ledger.specs.declared.event.StreamNo.TheVariants.{Inner, Outer};
ghost use Rattle.row_seat.specs.Views.{CanTake, OthersFit, start};
ghost use Rattle.row_shared.specs.Seats.{SharedFits, shown};
ghost use Rattle.shared_scripts.specs.Races.{HasClosed, HasLeft, IsEnded, IsLessee, IsOwner};

use chunk_core::{Exit, Span};
use res_ledger::{Ledger, StreamNo, What};
use row_seat::{Left, RowSeat};
use row_shared::{SharedSeat, TableRef};
use scope_tree::Finish;
use std::alloc::{AllocError, Global};
use std::sync::Arc;
use std::sync::atomic::AtomicU64;
use std::sync::atomic::Ordering::SeqCst;
use std::thread::{Threads, join};

/// Takes the payload of a row that was handed to the seat, finalizes it, and notes how that ended.
pub fn finalize<S: RowSeat>(seat: &mut S, desk: &mut S::Desk, row: u32)
where
    S::Pay: Finish + Drop,
    requires fits { S.fits seat.old desk.old }
    requires row { CanTake (S.view seat.old) row }
    requires room { 1 ≤ (S.view seat.old).spare }
    ensures pay { (p q : S.Pay) × (ok : Bool) × IsAmong (row, p) (S.view seat.old).given × S.Pay.ends p Succeeded ok q × IsEnded (S.view seat.old) row ok (S.view seat.new) }
    ensures fits { S.fits seat.new desk.new }
    ensures others { OthersFit S.view S.fits (S.view seat.old).by desk.old desk.new }
{
    let mut pay = seat.take(desk, row);
    let exit = Exit::Succeeded;
    let ok = pay.finish(exit);
    seat.note(desk, What::Final { row, exit, ok });
}

/// Acquires the row 0, leases it for the stream 1, and splits that stream's seat off.
pub fn lend<S: RowSeat>(
    alloc: Global,
    seat: &mut S,
    desk: &mut S::Desk,
    pay: S::Pay,
) -> Result<S, AllocError>
    requires fits { S.fits seat.old desk.old }
    requires start { S.view seat.old ≡ start Outer 1 8 (S.view seat.old).splits }
    requires splits { 1 ≤ (S.view seat.old).splits }
    ensures ok { IfOk result (λ s. IsOwner (S.view seat.new) × IsLessee (S.view s) × S.fits s desk.new) }
    ensures fits { S.fits seat.new desk.new }
{
    seat.note(desk, What::Acquire { row: 0, scope: 0 });
    seat.place(desk, 0, pay);
    seat.lease(desk, 1, 0);
    seat.note(
        desk,
        What::Lease {
            stream: 1,
            scope: 0,
        },
    );
    let lessee = seat.split(alloc, desk, 1, Span { from: 0, to: 0 }, 2)?;
    Ok(lessee)
}

/// Closes the root and its row, and finalizes it where it is handed to this seat.
pub fn shut<S: RowSeat>(seat: &mut S, desk: &mut S::Desk)
where
    S::Pay: Finish + Drop,
    requires fits { S.fits seat.old desk.old }
    requires owner { IsOwner (S.view seat.old) }
    ensures closed { HasClosed (S.view seat.new) }
    ensures fits { S.fits seat.new desk.new }
    ensures others { OthersFit S.view S.fits Outer desk.old desk.new }
{
    let exit = Exit::Succeeded;
    seat.note(desk, What::Close { scope: 0, exit });
    match seat.close(desk, 0) {
        Left::Stays => {}
        Left::Yours => finalize(seat, desk, 0),
    }
}

/// Cancels the lease and lets go of its row, and finalizes it where it is handed to this seat.
pub fn let_go<S: RowSeat>(seat: &mut S, desk: &mut S::Desk)
where
    S::Pay: Finish + Drop,
    requires fits { S.fits seat.old desk.old }
    requires lessee { IsLessee (S.view seat.old) }
    ensures left { HasLeft (S.view seat.new) }
    ensures fits { S.fits seat.new desk.new }
    ensures others { OthersFit S.view S.fits (Inner 1) desk.old desk.new }
{
    let exit = Exit::Succeeded;
    seat.note(desk, What::Cancel { stream: 1, exit });
    match seat.leave(desk, 1, 0) {
        Left::Stays => {}
        Left::Yours => finalize(seat, desk, 0),
    }
}

/// Takes the other seat in, and finishes.
pub fn finish_both<S: RowSeat>(mut seat: S, desk: &mut S::Desk, other: S) -> Ledger
    requires fits { S.fits seat desk.old × S.fits other desk.old }
    requires closed { HasClosed (S.view seat) }
    requires left { HasLeft (S.view other) }
{
    seat.join(desk, other);
    seat.finish(desk)
}

/// A payload that counts the calls of its finalizer.
#[derive(Drop)]
pub struct Bell {
    pub(crate) rings: Arc<AtomicU64>,
}

impl Finish for Bell {
    ghost ends = { λ p x ok q. Unit {0} };

    fn finish(&mut self, _exit: Exit) -> bool {
        self.rings.fetch_add(1, SeqCst);
        true
    }
}

// The owner's work with a handle of the thread's own, which comes back with the seat.
fn shut_with(
    mut seat: SharedSeat<Bell>,
    mut desk: TableRef<Bell>,
) -> (SharedSeat<Bell>, TableRef<Bell>)
    requires fits { SharedFits seat desk }
    requires owner { IsOwner (shown seat) }
    ensures closed { HasClosed (shown result.0) }
    ensures fits { SharedFits result.0 result.1 }
    ensures others { OthersFit shown SharedFits Outer desk result.1 }
{
    shut(&mut seat, &mut desk);
    (seat, desk)
}

// The lessee's work with a handle of the thread's own, which comes back with the seat.
fn let_go_with(
    mut seat: SharedSeat<Bell>,
    mut desk: TableRef<Bell>,
) -> (SharedSeat<Bell>, TableRef<Bell>)
    requires fits { SharedFits seat desk }
    requires lessee { IsLessee (shown seat) }
    ensures left { HasLeft (shown result.0) }
    ensures fits { SharedFits result.0 result.1 }
    ensures others { OthersFit shown SharedFits (Inner 1) desk result.1 }
{
    let_go(&mut seat, &mut desk);
    (seat, desk)
}

// The owner closes in a new thread while the lessee works in this one.
fn close_beside<R: Threads + Sync>(
    rt: &R,
    owner: SharedSeat<Bell>,
    lessee: SharedSeat<Bell>,
    first: TableRef<Bell>,
    second: TableRef<Bell>,
) -> (SharedSeat<Bell>, SharedSeat<Bell>, TableRef<Bell>)
    requires fits { SharedFits owner first × SharedFits owner second × SharedFits lessee first × SharedFits lessee second }
    requires owner { IsOwner (shown owner) }
    requires lessee { IsLessee (shown lessee) }
    ensures closed { HasClosed (shown result.0) }
    ensures left { HasLeft (shown result.1) }
    ensures owner { SharedFits result.0 result.2 }
    ensures lessee { SharedFits result.1 result.2 }
{
    let (left, right) = join(
        rt,
        || -> (SharedSeat<Bell>, TableRef<Bell>)
            requires fits { SharedFits owner first }
            requires owner { IsOwner (shown owner) }
            ensures closed { HasClosed (shown result.0) }
            ensures fits { SharedFits result.0 result.1 }
            ensures others { OthersFit shown SharedFits Outer first result.1 }
        { shut_with(owner, first) },
        || -> (SharedSeat<Bell>, TableRef<Bell>)
            requires fits { SharedFits lessee second }
            requires lessee { IsLessee (shown lessee) }
            ensures left { HasLeft (shown result.0) }
            ensures fits { SharedFits result.0 result.1 }
            ensures others { OthersFit shown SharedFits (Inner 1) second result.1 }
        { let_go_with(lessee, second) },
    );
    let (owner, desk) = left;
    let (lessee, _second) = right;
    (owner, lessee, desk)
}

// The lessee works in a new thread while the owner closes in this one.
fn leave_beside<R: Threads + Sync>(
    rt: &R,
    owner: SharedSeat<Bell>,
    lessee: SharedSeat<Bell>,
    first: TableRef<Bell>,
    second: TableRef<Bell>,
) -> (SharedSeat<Bell>, SharedSeat<Bell>, TableRef<Bell>)
    requires fits { SharedFits owner first × SharedFits owner second × SharedFits lessee first × SharedFits lessee second }
    requires owner { IsOwner (shown owner) }
    requires lessee { IsLessee (shown lessee) }
    ensures closed { HasClosed (shown result.0) }
    ensures left { HasLeft (shown result.1) }
    ensures owner { SharedFits result.0 result.2 }
    ensures lessee { SharedFits result.1 result.2 }
{
    let (left, right) = join(
        rt,
        || -> (SharedSeat<Bell>, TableRef<Bell>)
            requires fits { SharedFits lessee second }
            requires lessee { IsLessee (shown lessee) }
            ensures left { HasLeft (shown result.0) }
            ensures fits { SharedFits result.0 result.1 }
            ensures others { OthersFit shown SharedFits (Inner 1) second result.1 }
        { let_go_with(lessee, second) },
        || -> (SharedSeat<Bell>, TableRef<Bell>)
            requires fits { SharedFits owner first }
            requires owner { IsOwner (shown owner) }
            ensures closed { HasClosed (shown result.0) }
            ensures fits { SharedFits result.0 result.1 }
            ensures others { OthersFit shown SharedFits Outer first result.1 }
        { shut_with(owner, first) },
    );
    let (lessee, _second) = left;
    let (owner, desk) = right;
    (owner, lessee, desk)
}

/// One race with a fresh row: the ledger, and how often the row's payload was finalized.
pub fn race<R: Threads + Sync>(
    rt: &R,
    alloc: Global,
    lessee_first: bool,
) -> Result<(Ledger, u64), AllocError> {
    let rings = Arc::new(alloc, AtomicU64::new(0))?;
    let pay = Bell {
        rings: Arc::try_clone(&rings)?,
    };
    let (mut owner, mut desk) = SharedSeat::new(alloc, StreamNo::Outer, 1, 2, 8)?;
    let lessee = lend(alloc, &mut owner, &mut desk, pay)?;
    let first = desk.share()?;
    let second = desk.share()?;
    let (owner, lessee, mut desk) = if lessee_first {
        leave_beside(rt, owner, lessee, first, second)
    } else {
        close_beside(rt, owner, lessee, first, second)
    };
    let ledger = finish_both(owner, &mut desk, lessee);
    Ok((ledger, rings.load(SeqCst)))
}
