//! What follows of the rules of a run's ledger.
ghost use Rattle.run_laws.specs.Laws.{LeaversAreSilent};

/// Behind the Cancel of its own lease a stream notes nothing but Finals.
pub fn leavers_are_silent()
    ensures { LeaversAreSilent }
{}
