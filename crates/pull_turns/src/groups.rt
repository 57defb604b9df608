//! Groups that leave the run one by one.
ghost use Rattle.std.specs.Prelude.{◌≡◌, ◌<◌, ◌^◌, length, IfOk, OnErr};
ghost use Rattle.chunk_core.specs.Elements.{elements, kind_of};
ghost use Rattle.pull_turns.specs.Turned.{IsLoadOrDone};
ghost use Rattle.pull_turns.specs.Groups.{GroupedOf, HasElements, IsFirstGroup, IsInGroups, IsOfKind, size_above, waiting};

use crate::rest::Rest;
use crate::turn::Turn;
use chunk_core::Load;
use pull_nodes::Pipe;
use std::alloc::{AllocError, Global};

/// The size of the groups of a pipe that leave the run one by one: none where a step gets its loads
/// whole.
pub(crate) fn group_size(pipe: &Pipe, whole: bool) -> Option<u32>
    ensures { result ≡ size_above whole pipe.now }
{
    if whole {
        return None;
    }
    pipe.group_size()
}

/// Round what is left stands a part that gives groups of this size one by one.
pub(crate) fn in_groups<F: Drop>(
    alloc: Global,
    size: Option<u32>,
    rest: Rest<F>,
) -> Result<Rest<F>, AllocError>
    ensures { IfOk result (λ r. IsInGroups size rest r) }
{
    match size {
        Some(size) => Ok(Rest::Groups(size, None, Box::new(alloc, rest)?)),
        None => Ok(rest),
    }
}

/// The first group of a load; those behind it wait.
pub(crate) fn first_group(
    size: u32,
    waits: &mut Option<Load>,
    mut load: Load,
) -> Result<Load, AllocError>
    ensures { IfOk result (λ group. IsFirstGroup size load group waits.new) }
{
    let group = load.split(size as usize)?;
    *waits = some_load(load);
    Ok(group)
}

/// A load, or none where it is empty.
fn some_load(load: Load) -> Option<Load>
    ensures elements { waiting result ≡ elements load }
    ensures some { HasElements result }
    ensures kind { IsOfKind (kind_of load) result }
    ensures few { length (waiting result) < 2 ^ 64 }
{
    if load.len() == 0 {
        return None;
    }
    Some(load)
}

/// What comes of a turn below: of a load the first group.
pub(crate) fn grouped(size: u32, waits: &mut Option<Load>, turn: Turn) -> Result<Turn, AllocError>
    ensures groups { IfOk result (λ t. GroupedOf size waits.old waits.new turn t) }
    ensures wants { OnErr result (IsLoadOrDone turn) }
{
    match turn {
        Turn::Chunk(load) => Ok(Turn::Chunk(first_group(size, waits, load)?)),
        turn => Ok(turn),
    }
}
