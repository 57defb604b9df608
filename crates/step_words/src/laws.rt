//! Words, and what they mean.
ghost use Rattle.step_words.specs.Worked.{AreRead, AreRefused, IsSixteenRead};

/// Words that are read.
pub fn read_words()
    ensures read { AreRead }
    ensures sixteen { IsSixteenRead }
{}

/// Words that are refused.
pub fn refused_words()
    ensures { AreRefused }
{}
