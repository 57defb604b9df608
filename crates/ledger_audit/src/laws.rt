//! Ledgers that are written out, each with its verdict.
ghost use Rattle.ledger_verdict.specs.Verdict.{IsVerdict};
ghost use Rattle.ledger_verdict.specs.declared.verdict.Rule.TheVariants.{Complete, Ordered};
ghost use Rattle.ledger_verdict.specs.declared.verdict.Verdict.TheVariants.{Broken, Clean};
ghost use Rattle.ledger_audit.specs.Worked.{kept, lent, overtaken};

/// A row that is lent waits behind the Close that took it down, until the lease is canceled; a row
/// that isn't lent may not; and a lease has to be canceled.
pub fn lent_rows_wait()
    ensures waits { IsVerdict lent Clean }
    ensures kept { IsVerdict kept (Broken 5 Complete) }
    ensures overtaken { IsVerdict overtaken (Broken 4 Ordered) }
{}
