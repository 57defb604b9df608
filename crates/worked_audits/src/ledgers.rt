//! The ledgers of runs, as they were printed.

/// One file is read.
pub(crate) const CAT: &str =
    "ledger 3\n0 acquire 0 0\n0 close 0 succeeded\n0 final 0 succeeded ok\n";

/// Two streams over one table: the file of stream 0 has an uneven record, for which there is a text;
/// stream 1 ends with stream 0.
pub(crate) const TWO_STREAMS: &str = "ledger 15\nouter acquire 0 0\nouter lease 0 0\n\
    outer lease 1 0\nouter close 0 succeeded\n1 acquire 2 0\n0 open 1 0\n0 acquire 1 1\n\
    0 close 1 errored\n0 final 1 errored ok\n0 close 0 succeeded\n0 cancel 0 succeeded\n\
    1 close 0 canceled\n1 final 2 canceled ok\n1 cancel 1 canceled\n1 final 0 canceled ok\n";

/// Three streams over one table, of which two are open at a time.
pub(crate) const THREE_STREAMS: &str = "ledger 18\nouter acquire 0 0\nouter lease 0 0\n\
    outer lease 1 0\nouter lease 2 0\n0 acquire 1 0\n1 acquire 2 0\n0 close 0 succeeded\n\
    0 final 1 succeeded ok\n0 cancel 0 succeeded\n1 close 0 succeeded\n1 final 2 succeeded ok\n\
    1 cancel 1 succeeded\nouter close 0 succeeded\n2 acquire 3 0\n2 close 0 succeeded\n\
    2 final 3 succeeded ok\n2 cancel 2 succeeded\n2 final 0 succeeded ok\n";

/// Stream 0 ends with stream 1.
pub(crate) const INTERRUPTED: &str = "ledger 11\nouter lease 0 0\nouter lease 1 0\n\
    outer close 0 succeeded\n0 acquire 0 0\n1 acquire 1 0\n1 close 0 succeeded\n\
    1 final 1 succeeded ok\n1 cancel 1 succeeded\n0 close 0 canceled\n0 final 0 canceled ok\n\
    0 cancel 0 canceled\n";

/// A text stands in for a fault, within a file that is written.
pub(crate) const WRITTEN: &str = "ledger 10\nouter lease 0 0\nouter close 0 succeeded\n\
    0 acquire 0 0\n0 open 1 0\n0 acquire 1 1\n0 close 1 errored\n0 final 1 errored ok\n\
    0 close 0 succeeded\n0 final 0 succeeded ok\n0 cancel 0 succeeded\n";

/// A write fails where a text stands in for the fault of a file.
pub(crate) const BROKEN_OFF: &str = "ledger 8\nouter lease 0 0\nouter close 0 succeeded\n\
    0 open 1 0\n0 acquire 0 1\n0 close 1 errored\n0 final 0 errored ok\n0 close 0 canceled\n\
    0 cancel 0 canceled\n";

/// The rows of a file are looked up in a table whose close fails.
pub(crate) const UNCLEAN: &str = "ledger 8\nouter acquire 0 0\nouter lease 0 0\n\
    outer close 0 succeeded\n0 acquire 1 0\n0 close 0 succeeded\n0 final 1 succeeded ok\n\
    0 cancel 0 succeeded\n0 final 0 succeeded fault\n";

/// A stream of two files has a text for its fault.
pub(crate) const TWO_FILES: &str = "ledger 10\nouter lease 0 0\nouter close 0 succeeded\n\
    0 open 1 0\n0 acquire 0 1\n0 acquire 1 1\n0 close 1 errored\n0 final 1 errored ok\n\
    0 final 0 errored ok\n0 close 0 succeeded\n0 cancel 0 succeeded\n";

/// A table can't be read.
pub(crate) const NO_TABLE: &str =
    "ledger 3\nouter acquire 0 0\nouter close 0 errored\nouter final 0 errored ok\n";

/// A stream is leased for and never begun, since no more frames are wanted.
pub(crate) const ENOUGH: &str = "ledger 10\nouter acquire 0 0\nouter lease 0 0\n\
    outer lease 1 0\n0 acquire 1 0\n0 close 0 succeeded\n0 final 1 succeeded ok\n\
    0 cancel 0 succeeded\nouter cancel 1 canceled\nouter close 0 canceled\n\
    outer final 0 canceled ok\n";

/// The one frame that is wanted was printed, when no stream had ended.
pub(crate) const STOPPED: &str = "ledger 12\nouter lease 0 0\nouter lease 1 0\n\
    outer lease 2 0\nouter close 0 succeeded\n0 acquire 0 0\n0 close 0 canceled\n\
    0 final 0 canceled ok\n1 close 0 canceled\n1 cancel 1 canceled\n2 close 0 canceled\n\
    2 cancel 2 canceled\n0 cancel 0 canceled\n";

/// A tree of three scopes, of which the one in the middle is leased.
pub(crate) const MIDDLE: &str = "ledger 11\nouter acquire 0 0\nouter open 1 0\n\
    outer acquire 1 1\nouter open 2 1\nouter acquire 2 2\nouter lease 5 1\n\
    outer close 0 succeeded\nouter cancel 5 canceled\nouter final 2 canceled ok\n\
    outer final 1 canceled ok\nouter final 0 canceled ok\n";

/// The same tree, of which the root is leased.
pub(crate) const ROOT: &str = "ledger 11\nouter acquire 0 0\nouter open 1 0\n\
    outer acquire 1 1\nouter open 2 1\nouter acquire 2 2\nouter lease 5 0\nouter close 0 errored\n\
    outer final 2 errored ok\nouter cancel 5 canceled\nouter final 1 canceled ok\n\
    outer final 0 canceled ok\n";

/// The same tree, in which a scope is closed before the root.
pub(crate) const LATE: &str = "ledger 11\nouter acquire 0 0\nouter open 1 0\n\
    outer acquire 1 1\nouter open 2 1\nouter acquire 2 2\nouter close 1 errored\n\
    outer final 2 errored ok\nouter final 1 errored ok\nouter open 3 0\nouter close 0 succeeded\n\
    outer final 0 succeeded ok\n";
