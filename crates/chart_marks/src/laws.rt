//! What follows of the marks of a ledger, each the contract of a function that does nothing.
ghost use Rattle.chart_marks.specs.Laws.{EndIsFirst, MarkIsOne, MarksAreCounted, NoEndIsNone, WholeLedgerEnds};

/// Each thing that is begun has a mark of its own, to the first event that ends it; where a ledger
/// keeps the rules there is one.
pub fn marks_are_of_events()
    ensures one { MarkIsOne }
    ensures counted { MarksAreCounted }
    ensures first { EndIsFirst }
    ensures none { NoEndIsNone }
    ensures whole { WholeLedgerEnds }
{}
