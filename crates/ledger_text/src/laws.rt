//! Laws of the definitions, each the contract of a function that does nothing.
ghost use Rattle.ledger_text.specs.Closing.{ClosedHasCoveringClose, CoveringCloseIsOne, FinalsFollowCoveringClose};
ghost use Rattle.ledger_text.specs.Tests.{ClosedTestIsExact, CompleteTestIsExact, CoveredByIsExact, CoveredIsExact, LeasedRowsAreExact, LegalTestIsExact, OrderTestIsExact};
ghost use Rattle.ledger_text.specs.Reading.{RefusalIsOne, TextIsNotRefused, TextIsOne};
ghost use Rattle.ledger_text.specs.Standings.{StandingBeginsOpen, StandingGoesForward, StandingIsOne, StandingNeverGoesBack};
ghost use Rattle.res_ledger.specs.Standing.{StandingIsExact};

/// A row's standing, event by event.
pub fn standing_goes_forward()
    ensures begins { StandingBeginsOpen }
    ensures forward { StandingGoesForward }
    ensures never_back { StandingNeverGoesBack }
    ensures one { StandingIsOne }
    ensures exact { StandingIsExact }
{}

/// The first Close of a scope or of one above it, which covers the scope and its rows.
pub fn covering_close_is_first()
    ensures some { ClosedHasCoveringClose }
    ensures one { CoveringCloseIsOne }
    ensures before_finals { FinalsFollowCoveringClose }
{}

/// Whether a scope is closed and what a lease covers, by the lists that the order of a ledger is
/// told by, is what the rules say of it.
pub fn lists_are_exact()
    ensures closed { ClosedTestIsExact }
    ensures leased_rows { LeasedRowsAreExact }
    ensures covered_by { CoveredByIsExact }
    ensures covered { CoveredIsExact }
{}

/// The tests of a ledger that is written out.
pub fn tests_are_exact()
    ensures ordered { OrderTestIsExact }
    ensures legal { LegalTestIsExact }
    ensures complete { CompleteTestIsExact }
{}

/// What `read` answers: two ledgers have two texts, the text of a ledger is refused for want of
/// memory alone, and a text that is refused for another cause is refused for one.
pub fn reading_is_one()
    ensures ledger { TextIsOne }
    ensures text { TextIsNotRefused }
    ensures refusal { RefusalIsOne }
{}
