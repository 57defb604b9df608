//! Laws of reports, each the contract of a function that does nothing.
ghost use Rattle.join_report.specs.Laws.{LearnsKnown, NamesAgree, ReportsEnds, ReportsStay, SettlesAtEnd, UnknownIsUnknown};

/// What leaves a report as it is, and what it says at the end.
pub fn reports_tell()
    ensures stay { ReportsStay }
    ensures ends { ReportsEnds }
    ensures names { NamesAgree }
{}

/// What a seat's view says of the tale.
pub fn stops_tell()
    ensures learns { LearnsKnown }
    ensures unknown { UnknownIsUnknown }
    ensures settles { SettlesAtEnd }
{}
