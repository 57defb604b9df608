//! Laws of the definitions, each the contract of a function that does nothing.
ghost use Rattle.audit_run.specs.Laws.{NoTextForOneCause, RefusalIsOfTheText, TextForNoCause, UnreadIsCounted, UnwrittenIsCounted, VerdictIsOfTheText};

/// A text is a ledger's, or it is refused, for one cause.
pub fn texts_are_told_apart()
    ensures refused { NoTextForOneCause }
    ensures taken { TextForNoCause }
{}

/// How an audit ends is exact: its failures are those of the source and of the output, and else the
/// text decides.
pub fn ends_are_exact()
    ensures unread { UnreadIsCounted }
    ensures unwritten { UnwrittenIsCounted }
    ensures refused { RefusalIsOfTheText }
    ensures told { VerdictIsOfTheText }
{}
