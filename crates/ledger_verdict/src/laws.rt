//! Laws of the verdict.
ghost use Rattle.ledger_verdict.specs.Verdict.{FrontIsOrderedSoFar, IsVerdict, OrderedSoFarIsOrdered, ThereIsAVerdict, VerdictIsOne};
ghost use Rattle.ledger_verdict.specs.Worked.{first_first, no_row, one_row, unended};
ghost use Rattle.ledger_verdict.specs.declared.verdict.Rule.TheVariants.{Complete, Legal, Ordered};
ghost use Rattle.ledger_verdict.specs.declared.verdict.Verdict.TheVariants.{Broken, Clean};

/// What the last sequence of a stream lacks may wait, where all was ended.
pub fn ordered_so_far_is_ordered()
    ensures { OrderedSoFarIsOrdered }
{}

/// A front of a legal ledger that is ordered so far is ordered so far.
pub fn front_is_ordered_so_far()
    ensures { FrontIsOrderedSoFar }
{}

/// A ledger has one verdict.
pub fn verdict_is_one()
    ensures some { ThereIsAVerdict }
    ensures one { VerdictIsOne }
{}

/// Ledgers that are written out, each with its verdict.
pub fn worked_ledgers()
    ensures clean { IsVerdict one_row Clean }
    ensures unended { IsVerdict unended (Broken 2 Complete) }
    ensures disordered { IsVerdict first_first (Broken 3 Ordered) }
    ensures illegal { IsVerdict no_row (Broken 0 Legal) }
{}
