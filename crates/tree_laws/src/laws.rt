//! Laws of all that was done to a tree, each the contract of a function that does nothing.
ghost use Rattle.res_ledger.specs.declared.event.StreamNo.TheVariants.{Inner, Outer};
ghost use Rattle.tree_laws.specs.Laws.{AloneCanFinish, AloneIsWhole, CallsAreTidy, CallsFollow, CallsStayAlone, CancelsAreLeaseless, CancelsAreNoted, EventsAreFloored, EventsAreNamed, EventsStay, GuestsRest, JoinedIsFinished, LeaseIsLent, LedgerHasEvents, LedgerIsComplete, LedgerIsInOrder, LedgerIsWhole, LentIsCovered, LentIsOwn, OneLeaseIsWhole, OwnLeasesAreCovered, RowsHaveEnded, ScopesFit, ShelfHasExits, ShelfIsGiven, ShelfIsSaid, ShelvesAreApart, SplitsMakeGuests, StampsRise, SubTrees, WholeForEach};
ghost use Rattle.tree_laws.specs.Owing.{OwedStays, RootOwesNothing};
ghost use Rattle.tree_laws.specs.Refused.{IsLegalButNotWhole, first_row_first, lease_left_over, row_left_over};
ghost use Rattle.tree_laws.specs.Whole.{IsWholeFor};

use row_seat::RowSeat;
use scope_tree::Finish;

/// Calls, and calls after them, are calls.
pub fn calls_follow<P: Finish>()
    ensures { CallsFollow P.ends }
{}

/// What the stream of a tree noted since the start.
pub fn what_is_noted<P: Finish>()
    ensures tidy { CallsAreTidy P.ends }
    ensures shelf { ShelfIsSaid P.ends }
    ensures exits { ShelfHasExits P.ends }
    ensures rises { StampsRise P.ends }
    ensures stays { EventsStay P.ends }
    ensures cancels { CancelsAreNoted P.ends }
    ensures room { ScopesFit P.ends }
{}

/// Whose events the seat of a tree has, and where they stand.
pub fn events_are_named<P: Finish>()
    ensures named { EventsAreNamed P.ends }
    ensures floored { EventsAreFloored P.ends }
{}

/// No row stands on two trees' shelves.
pub fn shelves_are_apart<P: Finish>()
    ensures { ShelvesAreApart P.ends }
{}

/// What ends on a shelf was handed to the seat.
pub fn shelf_is_given<P: Finish>()
    ensures { ShelfIsGiven P.ends }
{}

/// The rows of a lease that a tree made are those that its Lease covers in the ledger.
pub fn leases_are_covered<P: Finish>()
    ensures lent { LeaseIsLent P.ends }
    ensures covered { LentIsCovered P }
    ensures rows { LentIsOwn P }
    ensures own { OwnLeasesAreCovered P.ends }
    ensures cancels { CancelsAreLeaseless P.ends }
{}

/// The tree of a seat that was split off, and may be taken in again.
pub fn sub_trees<S: RowSeat>()
where
    S::Pay: Finish,
    ensures noted { SubTrees S.Pay.ends }
    ensures joined { JoinedIsFinished S.Pay.ends }
    ensures rows { RowsHaveEnded S.view S.Desk }
{}

/// A stream whose seat was split off with its one lease: what it is at the start, and that it is at
/// rest once it cancelled the lease and closed its root.
pub fn guests_come_and_rest<P: Finish>()
    ensures begins { SplitsMakeGuests P }
    ensures rests { GuestsRest P.ends }
{}

/// What leases, splits, joins and cancellations leave to be owed.
pub fn owed_stays<P: Finish>()
    ensures { OwedStays P.ends }
{}

/// What the close of the root leaves to be owed.
pub fn root_owes_nothing<S: RowSeat>()
where
    S::Pay: Finish,
    ensures { RootOwesNothing S.Pay.ends S.view S.Desk }
{}

/// The ledger of a tree whose root is closed is legal, in order and complete for its stream.
pub fn ledger_is_whole<P: Finish>()
    ensures events { LedgerHasEvents P.ends }
    ensures order { LedgerIsInOrder P.ends }
    ensures complete { LedgerIsComplete P.ends }
    ensures whole { LedgerIsWhole P.ends }
    ensures one_lease { OneLeaseIsWhole P.ends }
{}

/// A ledger that is whole for each stream is complete and ordered.
pub fn whole_for_each()
    ensures { WholeForEach }
{}

/// A tree that only opens, acquires, writes and closes keeps the leases and seats that it has, and
/// where it has none its ledger is whole.
pub fn calls_stay_alone<P: Finish>()
    ensures alone { CallsStayAlone P.ends }
    ensures finish { AloneCanFinish P }
    ensures whole { AloneIsWhole P.ends }
{}

/// Legal ledgers that are not whole for a stream, and one that is so for another.
pub fn refused()
    ensures is_first_row_first { IsLegalButNotWhole first_row_first Outer }
    ensures is_row_left_over { IsLegalButNotWhole row_left_over Outer }
    ensures is_lease_left_over { IsLegalButNotWhole lease_left_over Outer }
    ensures is_whole_for_the_leased { IsWholeFor lease_left_over (Inner 0) }
{}
