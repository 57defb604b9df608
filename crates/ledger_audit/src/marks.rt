//! What a stream's last Close or Cancel still has to come.
ghost use Rattle.std.specs.Prelude.{◌≡◌, ◌≢◌, ◌≤◌, ℕ, Bool, true, false, List, [], ◌∷◌, ◌++◌, IfOk, MatchOption, None, Some, length, reverse, slice_get};
ghost use Rattle.std.specs.List.{list_all as all};
ghost use Rattle.chunk_core.specs.Lists.{has};
ghost use Rattle.res_ledger.specs.declared.event.StreamNo.{StreamNo};
ghost use Rattle.res_ledger.specs.declared.event.What.TheVariants.{Acquire, Lease};
ghost use Rattle.res_ledger.specs.Ledger.{IsLeased, IsLegal};
ghost use Rattle.res_ledger.specs.Order.{any_row, covered, covered_by, same_exit};
ghost use Rattle.ledger_verdict.specs.Pending.{Due, behind, is_over as is_over_of};
ghost use Rattle.ledger_books.specs.Keyed.{IsSomeCover, NotesAt};
ghost use Rattle.ledger_books.specs.Kept.{Keeps};
ghost use Rattle.ledger_audit.specs.Marks.{Stands, Tells, after_final as after_final_of, covered_until};

use chunk_core::Exit;
use ledger_books::books::{acquired, covering};
use ledger_books::leases::{covers, lease_at, leased};
use ledger_books::{Books, Lenders};
use res_ledger::{Event, StreamNo};
use std::alloc::{AllocError, Global};

/// What may still have its Final in the sequence of a stream's last Close or Cancel.
#[derive(Clone, Copy, Debug, PartialEq, Eq)]
pub enum Mark {
    Nothing,
    /// The exit, and the rows that a Close took down between two places of a list, what comes first
    /// as the last.
    Closed(Exit, u64, u64),
    /// The exit, and the place of the lease that was canceled: rows that it covers, and that were
    /// acquired in front of a place, the latest first.
    Canceled(Exit, u64, u64),
}

/// The one at a place.
fn at(list: &[u32], place: u64) -> Option<u32>
    ensures { result ≡ slice_get list.now place }
{
    list.get(place as usize).copied()
}

/// Whether two exits are the same.
fn is_same(a: Exit, b: Exit) -> bool
    ensures { result ≡ same_exit a b }
{
    a == b
}

/// Whether a lease stands at the place that covers the row.
fn is_lent_at(
    books: &Books,
    past: &[Event],
    place: Option<u64>,
    row: u32,
    at: u64,
    owner: StreamNo,
    of: u32,
) -> bool
    requires keeps { Keeps books.now past.now }
    requires legal { IsLegal past.now }
    requires row { NotesAt past.now at owner (Acquire row of) }
    ensures { result ≡ true → (j : ℕ) × IsSomeCover past.now j row }
{
    let Some(place) = place else {
        return false;
    };
    let Some((by, _, scope)) = lease_at(past, place) else {
        return false;
    };
    covers(
        &books.index,
        &books.jumps,
        past,
        place,
        by,
        scope,
        row,
        at,
        owner,
        of,
    )
}

/// Whether some lease covers the row: one of the two that likely does, or else any.
fn is_covered(
    alloc: Global,
    books: &Books,
    lenders: &Lenders,
    past: &[Event],
    row: u32,
) -> Result<bool, AllocError>
    requires keeps { Keeps books.now past.now }
    requires legal { IsLegal past.now }
    ensures { IfOk result (λ b. b ≡ has row (covered past.now)) }
{
    let Some((at, owner, of)) = acquired(&books.index, past, row) else {
        return Ok(false);
    };
    let within = lenders.within(owner, of);
    if is_lent_at(books, past, within, row, at, owner, of) {
        return Ok(true);
    }
    let beside = lenders.beside(past, owner, of);
    if is_lent_at(books, past, beside, row, at, owner, of) {
        return Ok(true);
    }
    let streams = covering(alloc, books, past, row, at, owner, of)?;
    Ok(!streams.is_empty())
}

/// Whether some lease covers each of the rows between two places of the list.
fn are_covered(
    alloc: Global,
    books: &Books,
    lenders: &Lenders,
    past: &[Event],
    torn: &[u32],
    from: u64,
    to: u64,
) -> Result<bool, AllocError>
    requires keeps { Keeps books.now past.now }
    requires legal { IsLegal past.now }
    ensures { IfOk result (λ b. (ys : List ℕ) → Stands torn.now from to ys → b ≡ all (λ r. has r (covered past.now)) (reverse ys)) }
{
    let mut n = to;
    while n > from {
        n -= 1;
        let Some(row) = at(torn, n) else {
            return Ok(false);
        };
        if !is_covered(alloc, books, lenders, past, row)? {
            return Ok(false);
        }
    }
    Ok(true)
}

/// Whether each row that is due may be left out.
pub fn is_over(
    alloc: Global,
    books: &Books,
    lenders: &Lenders,
    past: &[Event],
    torn: &[u32],
    mark: Mark,
) -> Result<bool, AllocError>
    requires keeps { Keeps books.now past.now }
    requires legal { IsLegal past.now }
    ensures { IfOk result (λ b. (d : Due) → Tells past.now torn.now mark d → b ≡ is_over_of (λ r. has r (covered past.now)) d) }
{
    match mark {
        Mark::Nothing => Ok(true),
        Mark::Canceled(..) => Ok(true),
        Mark::Closed(_, from, to) => are_covered(alloc, books, lenders, past, torn, from, to),
    }
}

/// Where the row stands between two places of the list, if some lease covers each behind it.
fn passed(
    alloc: Global,
    books: &Books,
    lenders: &Lenders,
    past: &[Event],
    torn: &[u32],
    from: u64,
    to: u64,
    row: u32,
) -> Result<Option<u64>, AllocError>
    requires keeps { Keeps books.now past.now }
    requires legal { IsLegal past.now }
    ensures { IfOk result (λ o. (ys : List ℕ) → Stands torn.now from to ys → MatchOption o (behind (λ r. has r (covered past.now)) row (reverse ys) ≡ None) (λ n. (zs : List ℕ) × Stands torn.now from n zs × (behind (λ r. has r (covered past.now)) row (reverse ys) ≡ Some (reverse zs)))) }
{
    let mut n = to;
    while n > from {
        n -= 1;
        let Some(next) = at(torn, n) else {
            return Ok(None);
        };
        if next == row {
            return Ok(Some(n));
        }
        if !is_covered(alloc, books, lenders, past, next)? {
            return Ok(None);
        }
    }
    Ok(None)
}

/// Where the row was acquired, if the lease at a place covers it and it was acquired in front of
/// another.
fn reached(books: &Books, past: &[Event], lease: u64, until: u64, row: u32) -> Option<u64>
    requires keeps { Keeps books.now past.now }
    requires legal { IsLegal past.now }
    ensures { until ≤ lease → (q : StreamNo) (j s : ℕ) → NotesAt past.now lease q (Lease j s) → MatchOption result (behind any_row row (covered_until past.now q lease s until) ≡ None) (λ n. (n ≤ lease) × (behind any_row row (covered_until past.now q lease s until) ≡ Some (covered_until past.now q lease s n))) }
{
    let Some((at, owner, of)) = acquired(&books.index, past, row) else {
        return None;
    };
    if at >= until {
        return None;
    }
    let Some((by, _, scope)) = lease_at(past, lease) else {
        return None;
    };
    if !covers(
        &books.index,
        &books.jumps,
        past,
        lease,
        by,
        scope,
        row,
        at,
        owner,
        of,
    ) {
        return None;
    }
    Some(at)
}

/// What is due after a Final of the row with this exit, if it may come.
pub fn after_final(
    alloc: Global,
    books: &Books,
    lenders: &Lenders,
    past: &[Event],
    torn: &[u32],
    mark: Mark,
    row: u32,
    exit: Exit,
) -> Result<Option<Mark>, AllocError>
    requires keeps { Keeps books.now past.now }
    requires legal { IsLegal past.now }
    ensures { IfOk result (λ o. (d : Due) → Tells past.now torn.now mark d → MatchOption o (after_final_of (λ r. has r (covered past.now)) d row exit ≡ None) (λ m. (e : Due) × (after_final_of (λ r. has r (covered past.now)) d row exit ≡ Some e) × Tells past.now torn.now m e)) }
{
    match mark {
        Mark::Nothing => Ok(None),
        Mark::Closed(end, from, to) => {
            if !is_same(exit, end) {
                return Ok(None);
            }
            let Some(left) = passed(alloc, books, lenders, past, torn, from, to, row)? else {
                return Ok(None);
            };
            Ok(Some(Mark::Closed(end, from, left)))
        }
        Mark::Canceled(end, lease, until) => {
            if !is_same(exit, end) {
                return Ok(None);
            }
            let Some(left) = reached(books, past, lease, until, row) else {
                return Ok(None);
            };
            Ok(Some(Mark::Canceled(end, lease, left)))
        }
    }
}

/// What is due after a Cancel of the lease for the stream with this exit.
pub fn after_cancel(books: &Books, past: &[Event], stream: u32, exit: Exit) -> Mark
    requires keeps { Keeps books.now past.now }
    requires legal { IsLegal past.now }
    requires leased { IsLeased past.now stream }
    ensures { (torn : List ℕ) → Tells past.now torn result (record { exit = exit; strict = false; rows = reverse (covered_by past.now stream) }) }
{
    let Some((place, _, _)) = leased(&books.index, past, stream) else {
        return Mark::Nothing;
    };
    Mark::Canceled(exit, place, place)
}
