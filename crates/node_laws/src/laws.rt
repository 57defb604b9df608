//! What holds of the runs of every node, and of every pipe.
ghost use Rattle.node_laws.specs.Laws.{CanBeLeft, HasOneIdealRun, IsToldByContents, ComparesElements, PipesAreSteady, TellsLongLines, TellsMalformed};

/// A run may be left early: then a front of it was given.
pub fn can_be_left()
    ensures { CanBeLeft }
{}

/// Over the same contents a node without a merge has one ideal run.
pub fn has_one_ideal_run()
    ensures { HasOneIdealRun }
{}

/// An ideal run takes from a device only its content and what was written to it.
pub fn is_told_by_contents()
    ensures { IsToldByContents }
{}

/// What a pipe gave is a front of what it gives of more input, and a fault is final.
pub fn pipes_are_steady()
    ensures { PipesAreSteady }
{}

/// The fault of bytes that aren't UTF-8 comes where no continuation makes them so.
pub fn tells_malformed()
    ensures { TellsMalformed }
{}

/// The elements that `Changes` leaves out are equal to the one before them.
pub fn compares_elements()
    ensures { ComparesElements }
{}

/// The fault of lines comes where more bytes than a line may have stand without a line end.
pub fn tells_long_lines()
    ensures { TellsLongLines }
{}
