//! Laws of the shared table, each the contract of a function that does nothing.
ghost use Rattle.row_shared.specs.Laws.{HandlesAgree, LedgerIsNeverBehind};

/// Between any two steps the events of all seats, in the order of their stamps, are a legal ledger.
/// At each row it stands where the row's word does, or ahead of it where a close or a cancel is noted
/// and its step on the row is still to come.
pub fn ledger_is_never_behind<P>()
    ensures { LedgerIsNeverBehind P }
{}

/// A seat that comes back from a thread fits the handle that the thread had; by this law it fits the
/// main seat's handle too.
pub fn handles_agree<P>()
    ensures { HandlesAgree P }
{}
