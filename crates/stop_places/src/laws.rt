//! What follows of places in a ledger, each the contract of a function that does nothing.
ghost use Rattle.res_ledger.specs.Ledger.{IsStamped};
ghost use Rattle.res_ledger.specs.declared.event.Event.{Event};
ghost use Rattle.res_ledger.specs.declared.event.StreamNo.{StreamNo};
ghost use Rattle.run_rules.specs.Ends.{ClosesBefore};
ghost use Rattle.std.specs.Prelude.{ℕ, List};
ghost use Rattle.stop_places.specs.Places.{ClosedWithin, ClosesBehind};

/// The stream j closed its root within the front that a stop names, and k closed its own behind that: so
/// wherever k closed its root, j had closed its own before.
pub fn closes_follow()
    ensures { (L : List Event) (j k : StreamNo) (at : ℕ) → IsStamped L → ClosedWithin L j at → ClosesBehind L k at → ClosesBefore L j k }
{}
