//! A pipe's part of a turn.
ghost use Rattle.std.specs.Prelude.{◌≡◌, IfOk, OnErr};
ghost use Rattle.chunk_core.specs.Elements.{Element, LoadKind, elements, kind_of};
ghost use Rattle.chunk_core.specs.Feed.{Continues, Feeds, Finishes, Meaning};
ghost use Rattle.pull_turns.specs.Piping.{standing, PipeCanFinish, CanPass};
ghost use Rattle.pull_turns.specs.Passing.{after_fed, after_pipe, PipeGaveMore, Passes, turn_of_fed};
ghost use Rattle.pull_turns.specs.Turned.{IsLoadOrDone};
ghost use Rattle.chunk_core.specs.Tables.{Values, no_values};
ghost use Rattle.pull_turns.specs.declared.piping.After.TheVariants as after;

use crate::loads::give;
use crate::rest::Rest;
use crate::turn::Turn;
use chunk_core::{Code, Fed};
use pull_nodes::PipeState;
use std::alloc::{AllocError, Global};
use std::mem;

/// What becomes of a pipe in a turn.
#[derive(Drop)]
pub(crate) enum After {
    /// It stays where it is.
    Same,
    /// Its input has ended.
    Finishing,
    /// It has failed, with a load before the fault.
    Faulty(Code),
}

/// What a pipe makes of the turn of what is below it.
pub(crate) fn pass<F: PipeState>(
    alloc: Global,
    state: &mut F,
    below: Turn,
) -> Result<(Turn, After), AllocError>
    requires { CanPass (standing F.stands F.comes no_values) state.old below }
    ensures passes { IfOk result (λ r. (t : Values) → Passes (standing F.stands F.comes t) state.old state.new below r.0 r.1) }
    ensures wants { OnErr result (IsLoadOrDone below) }
{
    match below {
        Turn::Chunk(load) => {
            let fed = state.feed(alloc, load)?;
            Ok(answer(fed, After::Same))
        }
        Turn::Quiet => Ok((Turn::Quiet, After::Same)),
        Turn::Done => finish(alloc, state),
        Turn::Fault(code) => Ok((Turn::Fault(code), After::Same)),
    }
}

/// A pipe whose input has ended gives what it held back, load by load.
pub(crate) fn finish<F: PipeState>(
    alloc: Global,
    state: &mut F,
) -> Result<(Turn, After), AllocError>
    requires { PipeCanFinish (standing F.stands F.comes no_values) state.old }
    ensures { IfOk result (λ r. (t : Values) → PipeGaveMore (standing F.stands F.comes t) state.old state.new r.0 r.1) }
{
    let fed = state.finish(alloc)?;
    Ok(answer(fed, After::Finishing))
}

/// The turn of a pipe that answered so, and what becomes of it where it goes on as `after` says.
fn answer(fed: Fed, after: After) -> (Turn, After)
    ensures turn { result.0 ≡ turn_of_fed fed }
    ensures after { result.1 ≡ after_fed fed after }
{
    match fed {
        Fed::Out(load) => (give(load), after),
        Fed::End => (Turn::Done, After::Same),
        Fed::Fault(load, code) => {
            if load.is_empty() {
                return (Turn::Fault(code), After::Same);
            }
            (Turn::Chunk(load), After::Faulty(code))
        }
    }
}

/// What is left after a pipe's part of a turn.
pub(crate) fn go_through<F: Drop>(rest: &mut Rest<F>, after: After)
    ensures { rest.new ≡ after_pipe after rest.old }
{
    match after {
        After::Same => (),
        After::Finishing => match mem::replace(rest, Rest::Nil) {
            Rest::Through(_a, state) => *rest = Rest::Finishing(state),
            other => *rest = other,
        },
        After::Faulty(code) => *rest = Rest::Faulty(code),
    }
}
