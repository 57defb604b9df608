//! The contract of a seat.
ghost use Rattle.std.specs.Prelude.{◌≡◌, ◌≢◌, ℕ, ◌≤◌, IfOk, IfErr};
ghost use Rattle.std.specs.Borrow.{Lends, sem};

use crate::view::Left;
use chunk_core::Span;
use res_ledger::{Ledger, What};
use std::alloc::{AllocError, Global};

/// The right of one stream to act on rows.
///
/// A row holds one resource. It is empty, then open with a payload, then closed, then final. While it
/// is open, other streams may lease it; after the close it is handed, with its payload, to the last
/// who lets go of it: to the closer where no lease stands, else to the one who leaves with the last
/// lease. So exactly one finalizes it, and only when nobody uses it.
///
/// A call asks that the seat and the desk, where the rows are, come from one maker, and says what it
/// does to the seat's view. It leaves the fit of every other seat as it was.
pub trait RowSeat: Sized {
    ghost use Rattle.row_seat.specs.declared.view.View.{View};
    ghost use Rattle.row_seat.specs.Views.{CanPlace, placed, HasRow, HasPair, paid, CanLease, leased, CanLeave, LeavesRow, CanClose, ClosesRow, CanTake, took, MayNote, noted, IsFreshStamp, OthersFit, CanSplit, split_main, split_off, CanJoin, AreApart, joined, CanFinish, IsLedgerOf};
    ghost use Rattle.chunk_core.specs.Lists.{IsAmong};

    /// What a row holds.
    type Pay;

    /// Where the rows are.
    type Desk;

    // What the seat knows, and what it has the right to.
    ghost view: { Self → View Self.Pay };
    // The seat and the desk come from one maker, and the rule of rows holds.
    ghost fits: { Self → Self.Desk → Type 0 };
    // The seat with another payload in an open row.
    ghost with_pay: { Self → ℕ → Self.Pay → Self };

    /// Puts the payload of a resource that was just acquired into its row. The seat owns the row from
    /// then on.
    fn place(&mut self, desk: &mut Self::Desk, row: u32, pay: Self::Pay)
        requires fits { fits self.old desk.old }
        requires row { CanPlace (view self.old) row }
        ensures view { view self.new ≡ placed (view self.old) row pay }
        ensures bare { ¬ (HasPair (view self.old) row) }
        ensures fits { fits self.new desk.new }
        ensures others { OthersFit view fits (view self.old).by desk.old desk.new };

    /// The payload of an open row of this seat, for reading and writing.
    fn pay_mut(&mut self, row: u32) -> &mut Self::Pay
        requires row { HasRow (view self.old).opened row }
        ensures* back { sem 𝓛 (Lends Self.row Self.Pay.row self.entry result (λ w. with_pay self.old row w)) }
        ensures value { IsAmong (row, result.now) (view self.old).opened };

    /// Adds a lease of the row for a stream that is to begin. The `Lease` event that names these
    /// pairs is noted once all are there.
    fn lease(&mut self, desk: &mut Self::Desk, stream: u32, row: u32)
        requires fits { fits self.old desk.old }
        requires row { CanLease (view self.old) stream row }
        ensures view { view self.new ≡ leased (view self.old) stream row }
        ensures fits { fits self.new desk.new }
        ensures others { OthersFit view fits (view self.old).by desk.old desk.new };

    /// Gives up one lease, after its `Cancel` was noted. `Yours` where the row was closed and this
    /// was its last lease: the row is then handed to this seat, which finalizes it.
    fn leave(&mut self, desk: &mut Self::Desk, stream: u32, row: u32) -> Left
        requires fits { fits self.old desk.old }
        requires row { CanLeave (view self.old) stream row }
        ensures view { LeavesRow (view self.old) stream row result (view self.new) }
        ensures fits { fits self.new desk.new }
        ensures others { OthersFit view fits (view self.old).by desk.old desk.new };

    /// Closes an open row, after a `Close` of its scope was noted. `Yours` where no lease stood on it:
    /// the row is then handed to this seat. `Stays` leaves it to the last lease.
    fn close(&mut self, desk: &mut Self::Desk, row: u32) -> Left
        requires fits { fits self.old desk.old }
        requires row { CanClose (view self.old) row }
        ensures view { ClosesRow (view self.old) row result (view self.new) }
        ensures fits { fits self.new desk.new }
        ensures others { OthersFit view fits (view self.old).by desk.old desk.new };

    /// The payload of a row that was handed to this seat, to be finalized.
    fn take(&mut self, desk: &mut Self::Desk, row: u32) -> Self::Pay
        requires fits { fits self.old desk.old }
        requires row { CanTake (view self.old) row }
        ensures view { view self.new ≡ took (view self.old) row }
        ensures pay { IsAmong (row, result) (view self.old).given }
        ensures only { (q : Self.Pay) → IsAmong (row, q) (view self.old).given → q ≡ result }
        ensures fits { fits self.new desk.new }
        ensures others { OthersFit view fits (view self.old).by desk.old desk.new };

    /// Appends an event to the ledger, and answers its stamp.
    fn note(&mut self, desk: &mut Self::Desk, what: What) -> u64
        requires fits { fits self.old desk.old }
        requires room { 1 ≤ (view self.old).spare }
        requires event { MayNote (view self.old) what }
        ensures view { view self.new ≡ noted (view self.old) (record { stamp = result; by = (view self.old).by; what = what }) }
        ensures stamp { IsFreshStamp (view self.old) result }
        ensures fits { fits self.new desk.new }
        ensures others { OthersFit view fits (view self.old).by desk.old desk.new };

    /// Makes the seat of a stream, with empty rows and room for events of this seat, and with the
    /// leases of that stream. Needs memory.
    fn split(
        &mut self,
        alloc: Global,
        desk: &mut Self::Desk,
        stream: u32,
        rows: Span,
        events: u64,
    ) -> Result<Self, AllocError>
        requires fits { fits self.old desk.old }
        requires can { CanSplit (view self.old) stream rows.from rows.to events }
        ensures ok { IfOk result (λ s. (view self.new ≡ split_main (view self.old) stream rows.from rows.to events) × (view s ≡ split_off (view self.old) stream rows.from rows.to events) × fits s desk.new) }
        ensures err { IfErr result (λ _. view self.new ≡ view self.old) }
        ensures fits { fits self.new desk.new }
        ensures others { OthersFit view fits (view self.old).by desk.old desk.new };

    /// Takes a seat that was split off in again, once nothing of it is open, leased or handed.
    fn join(&mut self, desk: &mut Self::Desk, other: Self)
        requires fits { fits self.old desk.old × fits other desk.old }
        requires can { CanJoin (view self.old) (view other) }
        ensures view { view self.new ≡ joined (view self.old) (view other) }
        ensures apart { AreApart (view self.old) (view other) }
        ensures fits { fits self.new desk.new }
        ensures others { (o : Self) → (view o).by ≢ (view self.old).by → (view o).by ≢ (view other).by → fits o desk.old → fits o desk.new };

    /// The ledger of all seats, once none is out and nothing is open, leased or handed.
    fn finish(self, desk: &mut Self::Desk) -> Ledger
        requires fits { fits self desk.old }
        requires can { CanFinish (view self) }
        ensures { IsLedgerOf (view self) result };

    ghost pay_view: { (s : Self) (r : ℕ) (w : Self.Pay) → view (with_pay s r w) ≡ paid (view s) r w };

    ghost pay_fits: { (s : Self) (r : ℕ) (w : Self.Pay) (d : Self.Desk) → fits s d → fits (with_pay s r w) d };
}
