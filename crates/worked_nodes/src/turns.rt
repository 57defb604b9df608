//! A caller that sees a runner's public clauses alone.
ghost use Rattle.std.specs.Prelude.{◌≡◌, ◌<◌, false, None, IfOk};
ghost use Rattle.pull_turns.specs.Moves.{how_of};
ghost use Rattle.pull_turns.specs.Piping.{standing};
ghost use Rattle.pull_turns.specs.Rest.{CanStep};
ghost use Rattle.pull_turns.specs.Turned.{Gave};

use pull_nodes::PipeState;
use pull_turns::{Outside, Runner, Turn};
use std::alloc::AllocError;

/// Makes turns until one gives elements or is the end, but not more than `turns`.
pub fn advance<O: Outside, F: PipeState>(
    runner: &mut Runner<O, F>,
    tables: &F::Tables,
    desk: &mut O::Desk,
    turns: u64,
) -> Result<Turn, AllocError>
    requires fits { O.fits runner.old.outside desk.old }
    requires runs { (runner.old.how ≡ None) × (runner.old.wanting ≡ false) }
    requires can { CanStep (standing F.stands F.comes (F.values tables.now)) (O.seen runner.old.outside) 0 runner.old.rest }
    requires chunk { 0 < runner.old.chunk }
    ensures gave { IfOk result (λ t. Gave (standing F.stands F.comes (F.values tables.now)) (O.seen runner.new.outside).told runner.old.rest runner.new.rest t) }
    ensures how { IfOk result (λ t. runner.new.how ≡ how_of t) }
    ensures fits { O.fits runner.new.outside desk.new }
{
    for _turn in 0..turns {
        let turn = runner.turn(tables, desk)?;
        match turn {
            Turn::Quiet => {}
            Turn::Chunk(_) | Turn::Done | Turn::Fault(_) => return Ok(turn),
        }
    }
    Ok(Turn::Quiet)
}
