//! What the contract says of the number of hands.
ghost use Rattle.headline_laws.specs.Evaluated.{EvaluationsAnswer, HandsPrintTheSame};

/// A call of `eval` in which nothing failed prints the answer of one thread; so two of them print the
/// same frames and ends, however many hands each has.
pub fn hands_print_the_same()
    ensures answer { EvaluationsAnswer }
    ensures same { HandsPrintTheSame }
{}
