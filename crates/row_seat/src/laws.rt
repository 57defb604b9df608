//! Laws of the rule, each the contract of a function that does nothing.
ghost use Rattle.row_seat.specs.Laws.{LedgerIsNeverBehind};

/// Between any two steps the ledger of all seats stands at each row where its word does, or ahead of
/// it where a close or a cancel is noted and its step on the row is still to come.
pub fn ledger_is_never_behind<P>()
    ensures { LedgerIsNeverBehind P }
{}
