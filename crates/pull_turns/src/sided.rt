//! Two sides that both run.
ghost use Rattle.std.specs.Prelude.{◌≡◌, IfOk, OnErr};
ghost use Rattle.pull_turns.specs.Moves.{GivesLines, MergeTurn, ZipTurn, side_left};
ghost use Rattle.pull_turns.specs.Turned.{IsLoadOrDone};
ghost use Rattle.stream_sides.specs.Sides.{IsNeeded};

use crate::loads::give;
use crate::rest::Rest;
use crate::turn::Turn;
use std::alloc::AllocError;
use stream_sides::{MergeState, Side, ZipState};

/// What a turn of the side that was asked gives of the pairs, or its end, which is that of the whole.
pub(crate) fn zipped(state: &mut ZipState, side: Side, turn: Turn) -> Result<Turn, AllocError>
    requires needed { IsNeeded state.old side }
    requires lines { GivesLines turn }
    ensures turn { IfOk result (λ t. ZipTurn state.old side state.new turn t) }
    ensures wants { OnErr result (IsLoadOrDone turn) }
{
    let Turn::Chunk(load) = turn else {
        return Ok(turn);
    };
    let pairs = state.give(side, load)?;
    Ok(give(pairs))
}

/// What a turn of the side that was asked is to the merge. Nothing is left of a side that has ended.
pub(crate) fn merged<F: Drop>(
    state: &mut MergeState,
    side: Side,
    part: &mut Rest<F>,
    turn: Turn,
) -> Turn
    ensures turn { MergeTurn state.old side state.new turn result }
    ensures part { part.new ≡ side_left turn part.old }
{
    match turn {
        Turn::Fault(code) => Turn::Fault(code),
        Turn::Done => {
            state.ended(side);
            *part = Rest::Nil;
            if state.is_done() {
                Turn::Done
            } else {
                Turn::Quiet
            }
        }
        turn => {
            state.gave(side);
            turn
        }
    }
}
