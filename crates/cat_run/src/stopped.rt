//! Why no more of a stream is printed.
ghost use Rattle.std.specs.Prelude.{◌≡◌};
ghost use Rattle.cat_run.specs.Printing.{is_unwritten as is_unwritten_stop, is_wanting as is_wanting_stop};

/// Why no more of a stream is printed.
#[derive(Clone, Copy, Debug, PartialEq, Eq)]
pub(crate) enum Stopped {
    /// It ended by itself.
    Ended,
    /// A write failed.
    Unwritten,
    /// Memory was wanting.
    Memory,
}

impl Stopped {
    pub(crate) fn is_unwritten(self) -> bool
        ensures { result ≡ is_unwritten_stop self }
    {
        matches!(self, Stopped::Unwritten)
    }

    pub(crate) fn is_wanting(self) -> bool
        ensures { result ≡ is_wanting_stop self }
    {
        matches!(self, Stopped::Memory)
    }
}
