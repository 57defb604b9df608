//! Scopes in a tree, each with the rows that were acquired in it.
ghost use Rattle.std.specs.Prelude.{◌≡◌, ◌≢◌, ℕ, List, ◌+◌, ◌<◌, ◌≤◌, ◌↔◌, length, [], true, false, IfOk, IfErr, reverse};
ghost use Rattle.std.specs.Borrow.{Lends, sem};
ghost use Rattle.chunk_core.specs.Lists.{IsAmong};
ghost use Rattle.res_ledger.specs.Ledger.{IsAcquired, IsLeased};
ghost use Rattle.res_ledger.specs.Order.{firsts};
ghost use Rattle.res_ledger.specs.Own.{leased_rows, opens, reaches, teardown};
ghost use Rattle.res_ledger.specs.Rising.{Rises};
ghost use Rattle.res_ledger.specs.Streams.{by_stream};
ghost use Rattle.res_ledger.specs.declared.event.StreamNo.TheVariants.{Inner};
ghost use Rattle.res_ledger.specs.declared.event.What.TheVariants.{Cancel};
ghost use Rattle.row_seat.specs.Views.{AreApart, AtRest, CanFinish, CanJoin, CanSplit, HasRow, MayNote, OthersFit, joined, split_main, split_off};
ghost use Rattle.scope_tree.specs.Rows.{strangers, unleased};
ghost use Rattle.scope_tree.specs.Released.{away, said};
ghost use Rattle.scope_tree.specs.Trace.{ended_rows, owed, own_rows, trace};
ghost use Rattle.scope_tree.specs.Calls.{AcquiresRow, AtStart, Cancels, ClosesScope, EndsRows, IsClosedScope, IsOpenScope, KeepsScopes, Leases, LeavesOpen, NoneStays, OpensScope, TakesRoom, WasOpened, used};
ghost use Rattle.scope_tree.specs.Rights.{AddsLease, DropsLease, HasNoLeaseBut, IsNewStream, IsSameSeat, KeepsLeases};
ghost use Rattle.scope_tree.specs.Standings.{StandsAs};
ghost use Rattle.scope_tree.specs.Trees.{Fits, IsConsistent, seen};
ghost use Rattle.scope_tree.specs.Lending.{lends_pay, lent_tree};
ghost use Rattle.scope_tree.specs.Visible.{lessee, row_room, rows_covered, scope_room};

use crate::branch::{AcquiredRow, Branch, Finish, Spent, Standing};
use crate::leases::{Lease, lease_rows};
use crate::leaving::leave_all;
use crate::room::Room;
use crate::rows::{outcome, scope_of};
use crate::tear::tear;
use crate::walk::{first_open, is_above, is_open};
use chunk_core::{Exit, List, Span};
use res_ledger::What;
use row_seat::RowSeat;
use std::alloc::{AllocError, Global};

/// The scopes of one stream, over its seat.
///
/// The root, scope 0, is open from the start, and scopes are numbered in the order in which they are
/// opened. The tree's seat must keep room for the events that close all that is open: `owed` of them.
#[derive(Drop)]
pub struct Tree<S: RowSeat> {
    pub(crate) seat: S,
    branches: Vec<Branch>,
    acquisitions: Vec<AcquiredRow>,
    shelf: Vec<Spent<S::Pay>>,
    scopes: u32,
    rows: u32,
}

impl<S: RowSeat> Tree<S>
where
    S::Pay: Finish,
{
    /// A tree whose root is open, with this room.
    pub fn new(seat: S, room: Room<S::Pay>) -> Tree<S>
        requires start { AtStart (S.view seat) }
        ensures seen { seen S.view result ≡ record { seat = S.view seat; shelf = []; scopes = scope_room room; rows = row_room room } }
        ensures root { IsOpenScope (seen S.view result) 0 }
        ensures empty { (r : ℕ) → IsAmong r (S.view seat).empty → IsAmong r (seen S.view result).seat.empty }
        ensures rights { IsSameSeat (S.view seat) (seen S.view result).seat }
        ensures leases { KeepsLeases (S.view seat) (seen S.view result).seat }
        ensures used { (used (seen S.view result) ≡ 0) × (opens (trace (seen S.view result).seat) ≡ []) }
        ensures owed { owed (seen S.view result).seat ≡ 1 }
        ensures fits { (d : S.Desk) → S.fits seat d → Fits S.view S.fits result d }
    {
        let Room {
            mut branches,
            acquisitions,
            shelf,
            scopes,
            rows,
        } = room;
        branches.push_reserved(Branch {
            parent: 0,
            shut: false,
        });
        Tree {
            seat,
            branches,
            acquisitions,
            shelf,
            scopes,
            rows,
        }
    }

    /// Opens a child of the first open scope from `at` upward, and answers its number.
    pub fn open(&mut self, desk: &mut S::Desk, at: u32) -> u32
        requires fits { Fits S.view S.fits self.old desk.old }
        requires root { ¬ (IsClosedScope (seen S.view self.old) 0) }
        requires at { WasOpened (seen S.view self.old) at }
        requires room { length (opens (trace (seen S.view self.old).seat)) + 1 < (seen S.view self.old).scopes }
        requires free { owed (seen S.view self.old).seat + 2 ≤ (seen S.view self.old).seat.spare }
        ensures opens { OpensScope (seen S.view self.old) at result (seen S.view self.new) }
        ensures child { IsOpenScope (seen S.view self.new) result }
        ensures scopes { KeepsScopes (seen S.view self.old) (seen S.view self.new) }
        ensures empty { (r : ℕ) → IsAmong r (seen S.view self.old).seat.empty → IsAmong r (seen S.view self.new).seat.empty }
        ensures rights { IsSameSeat (seen S.view self.old).seat (seen S.view self.new).seat }
        ensures leases { KeepsLeases (seen S.view self.old).seat (seen S.view self.new).seat }
        ensures room { TakesRoom 1 0 (seen S.view self.old) (seen S.view self.new) }
        ensures owed { owed (seen S.view self.new).seat ≡ owed (seen S.view self.old).seat + 1 }
        ensures fits { Fits S.view S.fits self.new desk.new }
        ensures others { OthersFit S.view S.fits (seen S.view self.old).seat.by desk.old desk.new }
    {
        let parent = first_open(&self.branches, at);
        let scope = self.branches.len() as u32;
        self.seat.note(desk, What::Open { scope, parent });
        self.branches.push_reserved(Branch {
            parent,
            shut: false,
        });
        scope
    }

    /// Puts a resource that was just acquired into its row, which belongs to an open scope from then
    /// on. The tree ends it, or leaves it to the last lease.
    pub fn acquired(&mut self, desk: &mut S::Desk, scope: u32, row: u32, pay: S::Pay)
        requires fits { Fits S.view S.fits self.old desk.old }
        requires scope { IsOpenScope (seen S.view self.old) scope }
        requires row { IsAmong row (seen S.view self.old).seat.empty }
        requires room { used (seen S.view self.old) + 1 ≤ (seen S.view self.old).rows }
        requires free { owed (seen S.view self.old).seat + 2 ≤ (seen S.view self.old).seat.spare }
        ensures acquires { AcquiresRow (seen S.view self.old) scope row pay (seen S.view self.new) }
        ensures scopes { KeepsScopes (seen S.view self.old) (seen S.view self.new) }
        ensures empty { (r : ℕ) → r ≢ row → IsAmong r (seen S.view self.old).seat.empty → IsAmong r (seen S.view self.new).seat.empty }
        ensures rights { IsSameSeat (seen S.view self.old).seat (seen S.view self.new).seat }
        ensures leases { KeepsLeases (seen S.view self.old).seat (seen S.view self.new).seat }
        ensures room { TakesRoom 0 1 (seen S.view self.old) (seen S.view self.new) }
        ensures owed { owed (seen S.view self.new).seat ≡ owed (seen S.view self.old).seat + 1 }
        ensures fits { Fits S.view S.fits self.new desk.new }
        ensures others { OthersFit S.view S.fits (seen S.view self.old).seat.by desk.old desk.new }
    {
        self.seat.note(desk, What::Acquire { row, scope });
        self.seat.place(desk, row, pay);
        self.acquisitions.push_reserved(AcquiredRow { row, scope });
    }

    /// The payload of an open row, for reading and writing.
    pub fn pay_mut(&mut self, row: u32) -> &mut S::Pay
        requires row { HasRow (seen S.view self.old).seat.opened row }
        ensures* back { sem 𝓛 (lends_pay S.row S.Pay.row S.Desk.row S.with_pay self.entry row result) }
        ensures value { IsAmong (row, result.now) (seen S.view self.old).seat.opened }
    {
        self.seat.pay_mut(row)
    }

    // Whether a lease on the scope covers rows of `of`.
    fn reaches(&self, scope: u32, of: u32) -> bool
        requires tree { IsConsistent S.view self.now }
        requires scope { IsOpenScope (seen S.view self.now) scope }
        requires of { WasOpened (seen S.view self.now) of }
        ensures { result ≡ reaches (trace (seen S.view self.now).seat) scope of }
    {
        is_open(&self.branches, of)
            && (is_above(&self.branches, scope, of)
                || (of > 0 && self.branches[of as usize].parent == scope))
    }

    // The rows that a lease on the scope covers, in the order of their acquisition.
    fn covered(&self, alloc: Global, scope: u32) -> Result<Vec<u32>, AllocError>
        requires tree { IsConsistent S.view self.now }
        requires scope { IsOpenScope (seen S.view self.now) scope }
        ensures { IfOk result (λ rows. rows.items ≡ leased_rows (trace (seen S.view self.now).seat) scope) }
    {
        let mut rows = Vec::new(alloc);
        'each: for one in &self.acquisitions {
            if self.reaches(scope, one.scope) {
                rows.push(one.row)?;
            }
        }
        Ok(rows)
    }

    /// Leases a scope for a stream that is to begin: the lease covers the rows that are open in the
    /// scope, in its children and in the scopes above it. Needs memory.
    pub fn lease(
        &mut self,
        alloc: Global,
        desk: &mut S::Desk,
        scope: u32,
        stream: u32,
    ) -> Result<Lease, AllocError>
        requires fits { Fits S.view S.fits self.old desk.old }
        requires main { (seen S.view self.old).seat.main ≡ true }
        requires scope { IsOpenScope (seen S.view self.old) scope }
        requires stream { IsNewStream (seen S.view self.old).seat stream }
        requires free { owed (seen S.view self.old).seat + 2 ≤ (seen S.view self.old).seat.spare }
        ensures ok { IfOk result (λ lease. (lessee lease ≡ stream) × Leases (seen S.view self.old) scope stream (rows_covered lease) (seen S.view self.new)) }
        ensures err { IfErr result (λ _. seen S.view self.new ≡ seen S.view self.old) }
        ensures scopes { KeepsScopes (seen S.view self.old) (seen S.view self.new) }
        ensures empty { (r : ℕ) → IsAmong r (seen S.view self.old).seat.empty → IsAmong r (seen S.view self.new).seat.empty }
        ensures rights { IsSameSeat (seen S.view self.old).seat (seen S.view self.new).seat }
        ensures leases { IfOk result (λ lease. AddsLease (seen S.view self.old).seat (lessee lease) (rows_covered lease) (seen S.view self.new).seat) }
        ensures kept { IfErr result (λ _. KeepsLeases (seen S.view self.old).seat (seen S.view self.new).seat) }
        ensures room { TakesRoom 0 0 (seen S.view self.old) (seen S.view self.new) }
        ensures pairs { IfOk result (λ lease. (r : ℕ) → IsAmong r (rows_covered lease) → IsAmong (lessee lease, r) (seen S.view self.new).seat.pairs) }
        ensures own { IfOk result (λ lease. strangers (own_rows (seen S.view self.new).seat) (rows_covered lease) ≡ 0) }
        ensures owed { owed (seen S.view self.new).seat ≡ owed (seen S.view self.old).seat }
        ensures fits { Fits S.view S.fits self.new desk.new }
        ensures others { OthersFit S.view S.fits (seen S.view self.old).seat.by desk.old desk.new }
    {
        let rows = self.covered(alloc, scope)?;
        lease_rows(&mut self.seat, desk, stream, &rows);
        self.seat.note(desk, What::Lease { stream, scope });
        Ok(Lease { stream, rows })
    }

    /// Closes an open scope: its open children, latest first, then its own rows, latest first, each
    /// ended before the next. A row that a lease stands on is left to the last lease.
    pub fn close(&mut self, desk: &mut S::Desk, scope: u32, exit: Exit)
        requires fits { Fits S.view S.fits self.old desk.old }
        requires scope { IsOpenScope (seen S.view self.old) scope }
        ensures closes { ClosesScope S.Pay.ends (seen S.view self.old) scope exit (seen S.view self.new) }
        ensures closed { IsClosedScope (seen S.view self.new) scope }
        ensures stays { LeavesOpen (seen S.view self.old) scope (seen S.view self.new) }
        ensures all { NoneStays (seen S.view self.old).seat (teardown (trace (seen S.view self.old).seat) scope) → EndsRows (teardown (trace (seen S.view self.old).seat) scope) (seen S.view self.old) scope exit (seen S.view self.new) }
        ensures unleased { (seen S.view self.old).seat.out ≡ [] → EndsRows (unleased (seen S.view self.old).seat.pairs (teardown (trace (seen S.view self.old).seat) scope)) (seen S.view self.old) scope exit (seen S.view self.new) }
        ensures scopes { (s : ℕ) → IsClosedScope (seen S.view self.old) s → IsClosedScope (seen S.view self.new) s }
        ensures empty { (r : ℕ) → IsAmong r (seen S.view self.old).seat.empty → IsAmong r (seen S.view self.new).seat.empty }
        ensures rights { IsSameSeat (seen S.view self.old).seat (seen S.view self.new).seat }
        ensures leases { KeepsLeases (seen S.view self.old).seat (seen S.view self.new).seat }
        ensures room { TakesRoom 0 0 (seen S.view self.old) (seen S.view self.new) }
        ensures free { (seen S.view self.old).seat.spare + owed (seen S.view self.new).seat ≤ (seen S.view self.new).seat.spare + owed (seen S.view self.old).seat }
        ensures owed { scope ≡ 0 → owed (seen S.view self.new).seat ≡ 0 }
        ensures fits { Fits S.view S.fits self.new desk.new }
        ensures others { OthersFit S.view S.fits (seen S.view self.old).seat.by desk.old desk.new }
    {
        self.seat.note(desk, What::Close { scope, exit });
        tear(
            &mut self.seat,
            desk,
            &mut self.shelf,
            &self.branches,
            &self.acquisitions,
            scope as usize,
            exit,
        );
        self.branches[scope as usize].shut = true;
    }

    /// Cancels a lease: on the tree that made it, or on that of the stream it was made for, once the
    /// stream's own rows have ended. Its rows are left, latest first; a closed row that no other lease
    /// stands on is ended before the next is left.
    pub fn cancel(&mut self, desk: &mut S::Desk, lease: Lease, exit: Exit)
        requires fits { Fits S.view S.fits self.old desk.old }
        requires may { MayNote (seen S.view self.old).seat (Cancel (lessee lease) exit) }
        requires pairs { (r : ℕ) → IsAmong r (rows_covered lease) → IsAmong (lessee lease, r) (seen S.view self.old).seat.pairs }
        requires room { used (seen S.view self.old) + strangers (own_rows (seen S.view self.old).seat) (rows_covered lease) ≤ (seen S.view self.old).rows }
        requires free { owed (seen S.view self.old).seat + 1 + away (rows_covered lease) (seen S.view self.old).seat.opened ≤ (seen S.view self.old).seat.spare }
        ensures cancels { Cancels S.Pay.ends (seen S.view self.old) (lessee lease) (rows_covered lease) exit (seen S.view self.new) }
        ensures scopes { KeepsScopes (seen S.view self.old) (seen S.view self.new) }
        ensures empty { (r : ℕ) → IsAmong r (seen S.view self.old).seat.empty → IsAmong r (seen S.view self.new).seat.empty }
        ensures rights { IsSameSeat (seen S.view self.old).seat (seen S.view self.new).seat }
        ensures leases { DropsLease (seen S.view self.old).seat (lessee lease) (rows_covered lease) (seen S.view self.new).seat }
        ensures new { (j : ℕ) → IsNewStream (seen S.view self.old).seat j → IsNewStream (seen S.view self.new).seat j }
        ensures room { (n : ℕ) × (n ≤ strangers (own_rows (seen S.view self.old).seat) (rows_covered lease)) × TakesRoom 0 n (seen S.view self.old) (seen S.view self.new) }
        ensures free { (seen S.view self.old).seat.spare ≤ (seen S.view self.new).seat.spare + 1 + away (rows_covered lease) (seen S.view self.old).seat.opened }
        ensures owed { owed (seen S.view self.new).seat ≡ owed (seen S.view self.old).seat }
        ensures fits { Fits S.view S.fits self.new desk.new }
        ensures others { OthersFit S.view S.fits (seen S.view self.old).seat.by desk.old desk.new }
    {
        let Lease { stream, rows } = lease;
        self.seat.note(desk, What::Cancel { stream, exit });
        leave_all(&mut self.seat, desk, &mut self.shelf, stream, &rows, exit);
    }

    /// Makes the seat of a stream, with empty rows and room for events of this tree's seat, and with
    /// the leases of that stream. Needs memory.
    pub fn split(
        &mut self,
        alloc: Global,
        desk: &mut S::Desk,
        stream: u32,
        rows: Span,
        events: u64,
    ) -> Result<S, AllocError>
        requires fits { Fits S.view S.fits self.old desk.old }
        requires can { CanSplit (seen S.view self.old).seat stream rows.from rows.to events }
        requires free { owed (seen S.view self.old).seat + events ≤ (seen S.view self.old).seat.spare }
        ensures ok { IfOk result (λ seat. (seen S.view self.new ≡ record (seen S.view self.old) { seat = split_main (seen S.view self.old).seat stream rows.from rows.to events }) × (S.view seat ≡ split_off (seen S.view self.old).seat stream rows.from rows.to events) × S.fits seat desk.new) }
        ensures start { IfOk result (λ seat. 1 ≤ events → AtStart (S.view seat)) }
        ensures err { IfErr result (λ _. seen S.view self.new ≡ seen S.view self.old) }
        ensures scopes { KeepsScopes (seen S.view self.old) (seen S.view self.new) }
        ensures leases { IfOk result (λ _. (T : List ℕ) → DropsLease (seen S.view self.old).seat stream T (seen S.view self.new).seat) }
        ensures owed { owed (seen S.view self.new).seat ≡ owed (seen S.view self.old).seat }
        ensures fits { Fits S.view S.fits self.new desk.new }
        ensures others { OthersFit S.view S.fits (seen S.view self.old).seat.by desk.old desk.new }
    {
        let seat = self.seat.split(alloc, desk, stream, rows, events)?;
        Ok(seat)
    }

    /// Takes a seat that was split off in again, once nothing of it is open, leased or handed.
    pub fn join(&mut self, desk: &mut S::Desk, other: S)
        requires fits { Fits S.view S.fits self.old desk.old × S.fits other desk.old }
        requires can { CanJoin (seen S.view self.old).seat (S.view other) }
        ensures seen { seen S.view self.new ≡ record (seen S.view self.old) { seat = joined (seen S.view self.old).seat (S.view other) } }
        ensures apart { AreApart (seen S.view self.old).seat (S.view other) }
        ensures scopes { KeepsScopes (seen S.view self.old) (seen S.view self.new) }
        ensures empty { (r : ℕ) → IsAmong r (seen S.view self.old).seat.empty → IsAmong r (seen S.view self.new).seat.empty }
        ensures leases { (Ls : List (ℕ × List ℕ)) → HasNoLeaseBut (seen S.view self.old).seat Ls → HasNoLeaseBut (seen S.view self.new).seat Ls }
        ensures owed { owed (seen S.view self.new).seat ≡ owed (seen S.view self.old).seat }
        ensures fits { Fits S.view S.fits self.new desk.new }
        ensures others { (o : S) → (S.view o).by ≢ (seen S.view self.old).seat.by → (S.view o).by ≢ (S.view other).by → S.fits o desk.old → S.fits o desk.new }
    {
        self.seat.join(desk, other);
    }

    /// How the row stands for this tree.
    pub fn status(&self, row: u32) -> Standing
        requires tree { IsConsistent S.view self.now }
        ensures { StandsAs (seen S.view self.now) row result }
    {
        if let Some(ok) = outcome(&self.shelf, row) {
            return Standing::Final(ok);
        }
        match scope_of(&self.acquisitions, row) {
            None => Standing::Empty,
            Some(scope) => {
                if is_open(&self.branches, scope) {
                    Standing::Open
                } else {
                    Standing::Left
                }
            }
        }
    }

    /// The seat and the rows that ended, in the order of their ends, once all scopes are closed. Where
    /// no other stream can hold a row back, these are all that were acquired.
    pub fn end(self) -> (S, List<Spent<S::Pay>>)
        requires tree { IsConsistent S.view self }
        requires closed { IsClosedScope (seen S.view self) 0 }
        ensures seat { S.view result.0 ≡ (seen S.view self).seat }
        ensures fits { (d : S.Desk) → Fits S.view S.fits self d → S.fits result.0 d }
        ensures shelf { result.1 ≡ (seen S.view self).shelf }
        ensures finals { ended_rows (trace (S.view result.0)) ≡ said result.1 }
        ensures ended { (S.view result.0).main ≡ false → (r : ℕ) → IsAmong r (own_rows (S.view result.0)) → IsAmong r (firsts (said result.1)) }
        ensures rising { Rises (by_stream (S.view result.0).by (S.view result.0).events) }
        ensures rest { ((S.view result.0).opened ≡ []) × ((S.view result.0).handed ≡ []) × ((S.view result.0).taken ≡ []) × ((r : ℕ) → IsAmong r (S.view result.0).empty → ¬ (IsAcquired (S.view result.0).events r)) }
        ensures at_rest { HasNoLeaseBut (seen S.view self).seat [] → AtRest (S.view result.0) }
        ensures finish { (seen S.view self).seat.main ≡ true → (seen S.view self).seat.out ≡ [] → HasNoLeaseBut (seen S.view self).seat [] → CanFinish (S.view result.0) }
    {
        let Tree {
            seat,
            branches: _,
            acquisitions: _,
            shelf,
            scopes: _,
            rows: _,
        } = self;
        (seat, List::of_vec(shelf))
    }
}
