//! Why nothing more is printed.
ghost use Rattle.std.specs.Prelude.{◌≡◌};
ghost use Rattle.eval_run.specs.Printing.{ending_of, is_unwritten as is_unwritten_stop, is_wanting as is_wanting_stop};

use chunk_core::{Code, How};

/// Why nothing more is printed.
#[derive(Clone, Copy, Debug, PartialEq, Eq)]
pub(crate) enum Stop {
    /// A group failed.
    Fault(Code),
    /// A write failed.
    Unwritten,
    /// Memory was wanting.
    Memory,
}

/// How stream 0 ended whose reading ended so, where this stopped its printing, if anything did.
pub(crate) fn end_of(how: How, stop: Option<Stop>) -> How
    ensures { result ≡ ending_of how stop }
{
    match stop {
        None => how,
        Some(Stop::Fault(code)) => How::Fault(code),
        Some(Stop::Unwritten) => How::Halted,
        Some(Stop::Memory) => How::Memory,
    }
}

/// Whether a write failed.
pub(crate) fn is_unwritten(stop: Option<Stop>) -> bool
    ensures { result ≡ is_unwritten_stop stop }
{
    matches!(stop, Some(Stop::Unwritten))
}

/// Whether memory was wanting.
pub(crate) fn is_wanting(stop: Option<Stop>) -> bool
    ensures { result ≡ is_wanting_stop stop }
{
    matches!(stop, Some(Stop::Memory))
}
