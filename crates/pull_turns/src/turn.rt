//! What one turn gives.
ghost use Rattle.std.specs.Prelude.{◌≡◌};
ghost use Rattle.pull_turns.specs.Moves.{how_of};

use chunk_core::{Code, How, Load};

/// What one turn gives.
#[derive(Drop)]
pub enum Turn {
    /// Elements, at least one.
    Chunk(Load),
    /// Nothing, but a node was entered or left, a device gave a byte, or a pipe whose input has ended
    /// gave a load.
    Quiet,
    /// The end.
    Done,
    /// The end, by a fault.
    Fault(Code),
}

impl Turn {
    /// How the run has ended, where it has.
    pub(crate) fn how(&self) -> Option<How>
        ensures { result ≡ how_of self.now }
    {
        match self {
            Turn::Chunk(_) | Turn::Quiet => None,
            Turn::Done => Some(How::Done),
            Turn::Fault(code) => Some(How::Fault(*code)),
        }
    }
}
