//! What holds of such runs, and runs that are written out.
ghost use Rattle.tee_rules.specs.Tee.{TeesFile};
ghost use Rattle.tee_rules.specs.Whole.{PrintsWhole};
ghost use Rattle.tee_rules.specs.Worked.{broken, counted_and_filtered, counted_first, counted_last, cut_and_done, done_too_early, end_missing, halted_for_nothing, hidden_fault, left_open, not_opened, path_a, silenced, swapped, unknown_branch, wrong_exit};

/// What a branch printed that is done is the text of what its steps give of the whole file.
pub fn prints_whole()
    ensures { PrintsWhole }
{}

/// Two branches, which print in any order; and what is left where the file can't be opened, and where a
/// write fails.
pub fn worked_tees()
    ensures first { TeesFile path_a counted_and_filtered counted_first }
    ensures last { TeesFile path_a counted_and_filtered counted_last }
    ensures not_opened { TeesFile path_a counted_and_filtered not_opened }
    ensures broken { TeesFile path_a counted_and_filtered broken }
{}

/// A branch prints under its own number, all that its steps give where it is done, and is done only with the
/// outer stream; it is halted only for a cause. A fault of the device shows, and it comes back closed, as the
/// outer stream ended.
pub fn refused_tees()
    ensures swapped { ¬ (TeesFile path_a counted_and_filtered swapped) }
    ensures silenced { ¬ (TeesFile path_a counted_and_filtered silenced) }
    ensures unknown_branch { ¬ (TeesFile path_a counted_and_filtered unknown_branch) }
    ensures halted_for_nothing { ¬ (TeesFile path_a counted_and_filtered halted_for_nothing) }
    ensures done_too_early { ¬ (TeesFile path_a counted_and_filtered done_too_early) }
    ensures hidden_fault { ¬ (TeesFile path_a counted_and_filtered hidden_fault) }
    ensures left_open { ¬ (TeesFile path_a counted_and_filtered left_open) }
    ensures wrong_exit { ¬ (TeesFile path_a counted_and_filtered wrong_exit) }
    ensures end_missing { ¬ (TeesFile path_a counted_and_filtered end_missing) }
    ensures cut_and_done { ¬ (TeesFile path_a counted_and_filtered cut_and_done) }
{}
