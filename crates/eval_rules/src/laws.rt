//! Answers that are written out, and what holds of all.
ghost use Rattle.eval_rules.specs.Evaluation.{PrintsTheSame};
ghost use Rattle.eval_rules.specs.Worked.{AreWorked};

/// Answers that are written out.
pub fn worked_answers()
    ensures { AreWorked }
{}

/// Two runs over the same content in which nothing failed and no memory was wanting print the same,
/// however many threads each had.
pub fn prints_the_same()
    ensures { PrintsTheSame }
{}
