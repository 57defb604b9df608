//! The plan that is run over the files of a case.
ghost use Rattle.std.specs.Prelude.{◌≡◌, ◌≤◌, IfOk};
ghost use Rattle.pipeline_desc.specs.Limits.{most_streams};
ghost use Rattle.gen_case.specs.Plan.{plan_of_case, steps_of_case, stream_spec, streams_of, tables_of_case};

use crate::Case;
use crate::files::{stream_path, table_path};
use chunk_core::{List, Word};
use pipeline_desc::{Plan, Step, StreamSpec, TableSpec};
use pull_nodes::Pipe;
use std::alloc::{AllocError, Global};

/// The one table, `t`.
pub fn tables_of(alloc: Global) -> Result<List<TableSpec>, AllocError>
    ensures { IfOk result (λ tables. tables ≡ tables_of_case) }
{
    let mut tables = List::new(alloc);
    tables.push(TableSpec {
        name: Word::of(alloc, "t")?,
        path: table_path(alloc)?,
    })?;
    Ok(tables)
}

/// The steps of each stream: the values of its file, and those of the table.
fn steps(alloc: Global) -> Result<List<Step>, AllocError>
    ensures { IfOk result (λ steps. steps ≡ steps_of_case) }
{
    let mut steps = List::new(alloc);
    steps.push(Step::Pipe(Pipe::Csv))?;
    steps.push(Step::Pipe(Pipe::Lookup(0, 0)))?;
    Ok(steps)
}

fn stream_spec(alloc: Global, k: u32) -> Result<StreamSpec, AllocError>
    ensures { IfOk result (λ stream. stream ≡ stream_spec k) }
{
    Ok(StreamSpec {
        path: stream_path(alloc, k)?,
        steps: steps(alloc)?,
        second: None,
        on_fault: None,
        to: None,
        until: None,
    })
}

/// The streams in order.
#[tactic(auto, using(crate::proofs::Counting::value_more))]
pub fn streams_of(alloc: Global, case: Case) -> Result<List<StreamSpec>, AllocError>
    ensures { IfOk result (λ streams. streams ≡ streams_of case) }
{
    let mut streams = List::new(alloc);
    for k in 0..case.streams {
        streams.push(stream_spec(alloc, k)?)?;
    }
    Ok(streams)
}

/// The plan: one table, and the streams of the case, with all other values as they are where a
/// description doesn't give them.
pub fn plan_of(alloc: Global, case: Case) -> Result<Plan, AllocError>
    requires { case.streams ≤ most_streams }
    ensures { IfOk result (λ plan. plan ≡ plan_of_case case) }
{
    let tables = tables_of(alloc)?;
    let streams = streams_of(alloc, case)?;
    Ok(Plan::of(alloc, 4, 16, 4096, None, tables, streams))
}
