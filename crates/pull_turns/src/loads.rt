//! Loads that are given, and fronts of them.
ghost use Rattle.std.specs.Prelude.{◌≡◌, IfOk, OnErr};
ghost use Rattle.pull_turns.specs.Moves.{TakenOf, giving};
ghost use Rattle.pull_turns.specs.Turned.{IsLoadOrDone};

use crate::turn::Turn;
use chunk_core::Load;
use std::alloc::AllocError;

/// Gives a load, or nothing where it is empty.
pub(crate) fn give(load: Load) -> Turn
    ensures { result ≡ giving load }
{
    if load.is_empty() {
        return Turn::Quiet;
    }
    Turn::Chunk(load)
}

/// What a taker passes on: no more than is wanted.
pub(crate) fn taken(wanted: &mut u64, turn: Turn) -> Result<Turn, AllocError>
    ensures taken { IfOk result (λ t. TakenOf wanted.old wanted.new turn t) }
    ensures wants { OnErr result (IsLoadOrDone turn) }
{
    match turn {
        Turn::Chunk(mut load) => {
            let len = load.len() as u64;
            if len <= *wanted {
                *wanted -= len;
                return Ok(Turn::Chunk(load));
            }
            let front = load.split(*wanted as usize)?;
            *wanted = 0;
            Ok(Turn::Chunk(front))
        }
        turn => Ok(turn),
    }
}
