//! Copies of steps.
ghost use Rattle.std.specs.Prelude.{◌≡◌, IfOk};

use chunk_core::List;
use pipeline_desc::Step;
use pull_nodes::Pipe;
use std::alloc::{AllocError, Global};

/// A copy of a step, with its text in memory of its own.
fn copy_step(alloc: Global, step: &Step) -> Result<Step, AllocError>
    ensures { IfOk result (λ copy. copy ≡ step.now) }
{
    match step {
        Step::Take(n) => Ok(Step::Take(*n)),
        Step::Pipe(pipe) => {
            let pipe = Pipe::copy_of(alloc, pipe)?;
            Ok(Step::Pipe(pipe))
        }
    }
}

/// A copy of steps, with their texts in memory of their own.
pub(crate) fn copy_steps(alloc: Global, steps: &List<Step>) -> Result<List<Step>, AllocError>
    ensures { IfOk result (λ copy. copy ≡ steps.now) }
{
    let mut copy = Vec::new(alloc);
    for step in steps.as_slice() {
        copy.push(copy_step(alloc, step)?)?;
    }
    Ok(List::of_vec(copy))
}
