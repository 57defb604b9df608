//! Laws of the calls that the contract of the top call takes.
ghost use Rattle.audit_laws.specs.Printed.{LedgersAreClean, LedgersArePrinted};

/// What `cat` and `run` report keeps the rules, and is what they print.
pub fn printed_ledgers_are_clean()
    ensures clean { LedgersAreClean }
    ensures printed { LedgersArePrinted }
{}
