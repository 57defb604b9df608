//! Laws of tales, each the contract of a function that does nothing.
ghost use Rattle.join_tale.specs.Laws.{ForAll, ForAny, LoadsAreReceived, MemoryWasWanting, OutputsFollow, RecordFollows, StreamsEndOnce, UndisturbedIsDone, WithinAny};
ghost use Rattle.join_tale.specs.Steps.{MarksAreKnown, StepsKeepTale};
ghost use Rattle.join_tale.specs.Worked.{AreRefused, IsWorked};

/// How a tale begins, and that each step of a collector keeps it.
pub fn steps_keep_tale()
    ensures steps { WithinAny StepsKeepTale }
    ensures marks { WithinAny MarksAreKnown }
{}

/// Each stream has one end.
pub fn streams_end_once()
    ensures { WithinAny StreamsEndOnce }
{}

/// What was printed of each stream, and what each step adds to its loads.
pub fn outputs_follow()
    ensures outputs { WithinAny OutputsFollow }
    ensures received { WithinAny LoadsAreReceived }
{}

/// What a record tells of causes, of what begins behind a stop, and of want of memory; and that each
/// stream is done where nothing stopped one.
pub fn records_follow()
    ensures follows { ForAll RecordFollows }
    ensures wanting { ForAll MemoryWasWanting }
    ensures done { ForAny UndisturbedIsDone }
{}

/// A tale of two streams that is written out, and twelve that can't be.
pub fn worked()
    ensures tale { IsWorked }
    ensures refused { AreRefused }
{}
