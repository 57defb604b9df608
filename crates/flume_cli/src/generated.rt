//! The command `gen`: a case is made, run in memory and summed up.
ghost use Rattle.std.specs.Prelude.{◌≡◌, ◌≤◌, IfOk};
ghost use Rattle.device_port.specs.Memory.{sink_told};
ghost use Rattle.flume_cli.specs.Generated.{Generates, Sums};
ghost use Rattle.flume_cli.specs.Readied.{IsReady};

use chunk_core::{Line, List};
use device_port::{Gate, MemSink};
use gen_case::{Case, SureDepot, files_of, plan_of, summary_of, text};
use par_join::{Outcome, run_streams};
use pipeline_desc::Plan;
use std::alloc::{AllocError, Global};
use std::sync::Wait;
use std::thread::Threads;

/// What came of a case, and the text of its summary, unless memory was wanting.
pub(crate) struct Generated {
    pub(crate) outcome: Outcome,
    pub(crate) text: Option<Line>,
}

/// What a run of a case takes.
struct Ready {
    plan: Plan,
    depot: SureDepot,
    out: MemSink,
}

/// Makes the case, runs it over its files and sums it up.
pub(crate) fn generate<R: Threads + Wait + Sync, G: Gate + Sync>(
    rt: &R,
    alloc: Global,
    case: Case,
    gate: &G,
) -> Generated
    requires { (case.streams ≤ 64) × (case.lines ≤ 100000) }
    ensures { Generates case result.outcome.ends result.outcome.ledger result.text }
{
    match make_ready(alloc, case) {
        Ok(ready) => run_ready(rt, alloc, case, ready, gate),
        Err(AllocError) => Generated {
            outcome: Outcome::unmade(alloc),
            text: None,
        },
    }
}

fn make_ready(alloc: Global, case: Case) -> Result<Ready, AllocError>
    requires { case.streams ≤ 64 }
    ensures { IfOk result (IsReady case) }
{
    Ok(Ready {
        plan: plan_of(alloc, case)?,
        depot: SureDepot::new(alloc, files_of(alloc, case)?)?,
        out: MemSink::new(alloc, List::new(alloc))?,
    })
}

/// Runs the plan of a case over its files. A write that found no memory is want of memory.
fn run_ready<R: Threads + Wait + Sync, G: Gate + Sync>(
    rt: &R,
    alloc: Global,
    case: Case,
    ready: Ready,
    gate: &G,
) -> Generated
    requires limits { (case.streams ≤ 64) × (case.lines ≤ 100000) }
    requires ready { IsReady case ready }
    ensures { Generates case result.outcome.ends result.outcome.ledger result.text }
{
    let Ready {
        plan,
        mut depot,
        mut out,
    } = ready;
    let outcome = run_streams(rt, alloc, &plan, &mut depot, &mut out, gate);
    let text = text_of(alloc, case, &outcome, &out);
    Generated { outcome, text }
}

/// The text of the summary, unless memory was wanting.
fn text_of(alloc: Global, case: Case, outcome: &Outcome, out: &MemSink) -> Option<Line>
    ensures { Sums case outcome.now (sink_told out.now) result }
{
    if outcome.sink_failed || outcome.memory {
        return None;
    }
    let summary = summary_of(case, out.written(), &outcome.ledger);
    text(alloc, summary).ok()
}
