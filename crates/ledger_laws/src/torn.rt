//! What a Close takes down.
ghost use Rattle.ledger_laws.specs.Torn.{TornRowsAreDistinct, TornRowsAreExact, TornRowsAreOpen};

/// In a legal ledger: the rows that are open in the scope and below it, each once.
pub fn teardown_is_exact()
    ensures exact { TornRowsAreExact }
    ensures open { TornRowsAreOpen }
    ensures distinct { TornRowsAreDistinct }
{}
