//! What a list is read through.
ghost use Rattle.std.specs.Prelude.{[], IfOk};
ghost use Rattle.chain_pipes.specs.Chains.{StandsFor};
ghost use Rattle.device_port.specs.Device.{DeviceTold};
ghost use Rattle.list_lines.specs.Lists.{IsAt, IsUnread};
ghost use Rattle.list_runs.specs.Meant.{list_meaning};

use chain_pipes::Chain;
use chunk_core::List;
use list_lines::ListLines;
use pipeline_desc::Step;
use pull_nodes::Pipe;
use std::alloc::{AllocError, Global};

/// The chain of the steps `utf8` and `lines`, which was fed nothing.
pub fn list_pipe(alloc: Global) -> Result<Chain, AllocError>
    ensures { IfOk result (λ chain. StandsFor chain list_meaning []) }
{
    let mut steps = List::new(alloc);
    steps.push(Step::Pipe(Pipe::Utf8))?;
    steps.push(Step::Pipe(Pipe::Lines))?;
    Chain::new(alloc, &steps)
}

/// A list that is read through these steps, of which nothing was read.
pub fn new_list(alloc: Global) -> Result<ListLines<Chain>, AllocError>
    ensures { IfOk result (λ list. (d : DeviceTold) → IsUnread d → IsAt StandsFor list_meaning d [] list) }
{
    let chain = list_pipe(alloc)?;
    Ok(ListLines::new(alloc, chain))
}
