//! The states of pipes.
ghost use Rattle.std.specs.Prelude.{◌≡◌, ℕ, ◌<◌, ◌^◌, List, [], length, Option, IfOk};
ghost use Rattle.chunk_core.specs.declared.code.Code.{Code};
ghost use Rattle.chunk_core.specs.Elements.{Element, LoadKind};
ghost use Rattle.chunk_core.specs.Feed.{Meaning};
ghost use Rattle.pull_nodes.specs.Pipes.{IsMeaningOver};
ghost use Rattle.chunk_core.specs.Tables.{Values};

use crate::pipe::Pipe;
use chunk_core::Feed;
use std::alloc::{AllocError, Global};

/// What is fed the input of a pipe, whichever pipe it is.
pub trait PipeState: Feed {
    /// The tables in which pipes look up.
    type Tables;

    /// The values that the tables have for keys.
    ghost values: { Self.Tables → Values };

    /// As many elements as are still to come, once the input has ended.
    ghost due: { Self → ℕ };

    /// The state of a pipe that was fed nothing, over these tables. Needs memory.
    fn of(alloc: Global, tables: &Self::Tables, pipe: Pipe) -> Result<Self, AllocError>
        ensures { IfOk result (λ state. (m : Meaning) → IsMeaningOver (values tables.now) pipe m → Self.stands state m []) };

    /// What is still to come is as long as that.
    ghost dues: { (q : Self) (k : LoadKind) (ys : List Element) (c : Option Code) → Self.Feed.comes q k ys c → (length ys ≡ due q) × (due q < 2 ^ 64) };
}
