//! Where a row stands while a ledger grows.
ghost use Rattle.ledger_laws.specs.Stands.{KeptRowGoesForward, OwnRowGoesForward};

/// The two rows of a run with one table and one stream that reads it.
pub fn rows_of_a_run()
    ensures kept { KeptRowGoesForward }
    ensures own { OwnRowGoesForward }
{}
