//! What holds of lists: each function does nothing, and its contract is the law.
ghost use Rattle.list_runs.specs.Laws.{AreListings, GivesListedLines, IsTimely, LinesAreTexts, RunsAreListRuns};

/// The steps `utf8` and `lines` give lines.
pub fn gives_lines()
    ensures { GivesListedLines }
{}

/// What a list gives over a device that was opened once is a run of the list's node.
pub fn runs_are_list_runs()
    ensures { RunsAreListRuns }
{}

/// A list that was read no further than its lines needed was read in time.
pub fn is_timely()
    ensures { IsTimely }
{}

/// The lines of a list are UTF-8.
pub fn lines_are_texts()
    ensures { LinesAreTexts }
{}

/// Good lines of which there are not too many are given streams, and what the next one does.
pub fn are_listings()
    ensures { AreListings }
{}
