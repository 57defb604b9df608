//! One run, and all that it printed and reported.
use chunk_core::How;
use flume_cli::Report;

/// Whether each stream ended in one of these ways.
pub(crate) fn all_ended(report: &Report, one: How, other: How) -> bool {
    report
        .ends
        .as_slice()
        .iter()
        .all(|end| end.how == one || end.how == other)
}
