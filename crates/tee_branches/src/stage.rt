//! How far a branch is.
use chunk_core::How;

/// How far a branch is, whose pipe has states of the type `F`.
#[derive(Drop)]
pub(crate) enum Stage<F> {
    /// It receives loads, and feeds them to its pipe.
    Feeding(F),
    /// The end came, and its pipe gives what is still to come.
    Finishing(F),
    /// Its end is to be said, and nothing before that.
    Ending(How),
    /// Its end was said.
    Over(How),
}
