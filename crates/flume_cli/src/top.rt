//! The top call.
ghost use Rattle.std.specs.Prelude.{◌≡◌, ◌-◌, ◌^◌, ◌<◌, ◌≤◌, ℕ, List, IfSome, false, [], Some, option_map};
ghost use Rattle.device_port.specs.Source.{SourceTold};
ghost use Rattle.command_words.specs.declared.asked.Asked.TheVariants.{Eval, Run, Tee};
ghost use Rattle.command_words.specs.Words.{IsLimited, command_of};
ghost use Rattle.flume_cli.specs.Call.{call_of};
ghost use Rattle.flume_cli.specs.Headline.{Headline, RunsStreams};
ghost use Rattle.flume_cli.specs.Finish.{Reports, PrintsTail, PrintsText, Tells, TellsText, status_by as status_by_of};
ghost use Rattle.flume_cli.specs.Status.{status_of_audit};
ghost use Rattle.run_rules.specs.Facts.{is_fault as is_fault_end, is_failed as is_failed_final, has_event};
ghost use Rattle.std.specs.List.{list_any as any};

use crate::chains::{read_chain, read_chains};
use crate::description::{read_plan, with_most};
use crate::generated::{Generated, generate};
use crate::report::Report;
use crate::status::Status;
use crate::tail::tail_of;
use audit_run::{Audited, run_audit};
use chunk_core::{How, Line, List, Word};
use command_words::{Asked, asked_by};
use device_port::{Depot, Failed, Gate, Sink, Source, put};
use eval_run::run_eval;
use gen_case::Case;
use par_join::{Outcome, run_cat, run_streams};
use res_ledger::{Ledger, What};
use rotate_run::run_rotate;
use run_rules::EndOf;
use std::alloc::{AllocError, Global};
use std::sync::Wait;
use std::thread::Threads;
use tee_run::run_tee;

/// Does what the words say: reads from `src` and the depot's devices, prints to `out`, tells
/// `err` what went wrong, and reports how it ended. Nothing is written to `out` after its first
/// failure, and a failure of `err` changes nothing.
pub fn flume<R: Threads + Wait + Sync, S: Source, K: Sink, E: Sink, D: Depot, G: Gate + Sync>(
    rt: &R,
    alloc: Global,
    words: &[Word],
    src: &mut S,
    depot: &mut D,
    out: &mut K,
    err: &mut E,
    gate: &G,
) -> Report
where
    D::Dev: Send,
    requires source { (S.told src.old).faults < 2 ^ 64 - 1 }
    requires out { (K.told out.old).faults < 2 ^ 64 - 1 }
    requires err { (E.told err.old).faults < 2 ^ 64 - 1 }
    ensures { Headline (call_of words.now (S.told src.old) (S.told src.new) (D.told depot.old) (D.told depot.new) (K.told out.old) (K.told out.new) (E.told err.old) (E.told err.new) result) }
{
    match asked_by(alloc, words) {
        Ok(Some(asked)) => perform(rt, alloc, asked, src, depot, out, err, gate),
        Ok(None) => refuse(alloc, Status::BadWords, err),
        Err(AllocError) => refuse(alloc, Status::Memory, err),
    }
}

/// Does what is asked, and tells how it ended.
fn perform<R: Threads + Wait + Sync, S: Source, K: Sink, E: Sink, D: Depot, G: Gate + Sync>(
    rt: &R,
    alloc: Global,
    asked: Asked,
    src: &mut S,
    depot: &mut D,
    out: &mut K,
    err: &mut E,
    gate: &G,
) -> Report
where
    D::Dev: Send,
    requires limits { IsLimited asked }
    requires source { (S.told src.old).faults < 2 ^ 64 - 1 }
    requires out { (K.told out.old).faults < 2 ^ 64 - 1 }
    requires err { (E.told err.old).faults < 2 ^ 64 - 1 }
    ensures { (words : List (List ℕ)) → command_of words ≡ Some asked → Headline (call_of words (S.told src.old) (S.told src.new) (D.told depot.old) (D.told depot.new) (K.told out.old) (K.told out.new) (E.told err.old) (E.told err.new) result) }
{
    match asked {
        Asked::Cat { chunk, path } => {
            let outcome = run_cat(alloc, &path, chunk, depot, out);
            tell(alloc, outcome, out, err)
        }
        Asked::Run { max_open } => perform_run(rt, alloc, max_open, src, depot, out, err, gate),
        Asked::Gen {
            seed,
            streams,
            lines,
        } => {
            let case = Case {
                seed,
                streams,
                lines,
            };
            let generated = generate(rt, alloc, case, gate);
            tell_summary(generated, out, err)
        }
        Asked::Audit => {
            let audited = run_audit(alloc, src, out);
            tell_audit(alloc, audited, err)
        }
        Asked::Rotate {
            bytes,
            path,
            prefix,
        } => {
            let outcome = run_rotate(alloc, &path, &prefix, bytes, depot);
            tell(alloc, outcome, out, err)
        }
        Asked::Tee {
            chunk,
            path,
            branches,
        } => perform_tee(rt, alloc, chunk, &path, &branches, depot, out, err, gate),
        Asked::Eval {
            jobs,
            group,
            path,
            steps,
        } => perform_eval(rt, alloc, jobs, group, &path, &steps, depot, out, err, gate),
    }
}

/// Runs the description that the source has, and tells how that ended.
fn perform_run<R: Threads + Wait + Sync, S: Source, K: Sink, E: Sink, D: Depot, G: Gate + Sync>(
    rt: &R,
    alloc: Global,
    max_open: Option<u32>,
    src: &mut S,
    depot: &mut D,
    out: &mut K,
    err: &mut E,
    gate: &G,
) -> Report
where
    D::Dev: Send,
    requires most { IfSome max_open (λ n. (1 ≤ n) × (n ≤ 64)) }
    requires source { (S.told src.old).faults < 2 ^ 64 - 1 }
    requires out { (K.told out.old).faults < 2 ^ 64 - 1 }
    requires err { (E.told err.old).faults < 2 ^ 64 - 1 }
    ensures { (words : List (List ℕ)) → command_of words ≡ Some (Run max_open) → RunsStreams (call_of words (S.told src.old) (S.told src.new) (D.told depot.old) (D.told depot.new) (K.told out.old) (K.told out.new) (E.told err.old) (E.told err.new) result) }
{
    match read_plan(alloc, src) {
        Ok(plan) => {
            let plan = with_most(plan, max_open);
            let outcome = run_streams(rt, alloc, &plan, depot, out, gate);
            tell(alloc, outcome, out, err)
        }
        Err(status) => refuse(alloc, status, err),
    }
}

/// Reads a file once for a branch for each word of steps, and tells how that ended.
fn perform_tee<R: Threads + Wait + Sync, K: Sink, E: Sink, D: Depot, G: Gate + Sync>(
    rt: &R,
    alloc: Global,
    chunk: u32,
    path: &Word,
    branches: &List<Word>,
    depot: &mut D,
    out: &mut K,
    err: &mut E,
    gate: &G,
) -> Report
where
    D::Dev: Send,
    requires limits { IsLimited (Tee chunk path.now branches.now) }
    requires out { (K.told out.old).faults < 2 ^ 64 - 1 }
    requires err { (E.told err.old).faults < 2 ^ 64 - 1 }
    ensures { (words : List (List ℕ)) (source : SourceTold) → command_of words ≡ Some (Tee chunk path.now branches.now) → RunsStreams (call_of words source source (D.told depot.old) (D.told depot.new) (K.told out.old) (K.told out.new) (E.told err.old) (E.told err.new) result) }
{
    match read_chains(alloc, branches) {
        Ok(chains) => {
            let outcome = run_tee(rt, alloc, path, chunk, &chains, depot, out, gate);
            tell(alloc, outcome, out, err)
        }
        Err(status) => refuse(alloc, status, err),
    }
}

/// Takes the lines of a file in groups through the steps of a word, and tells how that ended.
fn perform_eval<R: Threads + Wait + Sync, K: Sink, E: Sink, D: Depot, G: Gate + Sync>(
    rt: &R,
    alloc: Global,
    jobs: u32,
    group: u32,
    path: &Word,
    steps: &Word,
    depot: &mut D,
    out: &mut K,
    err: &mut E,
    gate: &G,
) -> Report
where
    D::Dev: Send,
    requires limits { IsLimited (Eval jobs group path.now steps.now) }
    requires out { (K.told out.old).faults < 2 ^ 64 - 1 }
    requires err { (E.told err.old).faults < 2 ^ 64 - 1 }
    ensures { (words : List (List ℕ)) (source : SourceTold) → command_of words ≡ Some (Eval jobs group path.now steps.now) → RunsStreams (call_of words source source (D.told depot.old) (D.told depot.new) (K.told out.old) (K.told out.new) (E.told err.old) (E.told err.new) result) }
{
    match read_chain(alloc, steps) {
        Ok(chain) => {
            let outcome = run_eval(rt, alloc, path, jobs, group, &chain, depot, out, gate);
            tell(alloc, outcome, out, err)
        }
        Err(status) => refuse(alloc, status, err),
    }
}

/// Tells how a run ended: prints the tail where it can, and reports.
fn tell<K: Sink, E: Sink>(alloc: Global, outcome: Outcome, out: &mut K, err: &mut E) -> Report
    requires out { outcome.sink_failed ≡ false → (K.told out.old).faults < 2 ^ 64 - 1 }
    requires err { (E.told err.old).faults < 2 ^ 64 - 1 }
    ensures { Tells outcome (K.told out.old) (K.told out.new) (E.told err.old) (E.told err.new) result }
{
    let status = print_tail(alloc, &outcome, out);
    finish(status, outcome.ends, outcome.ledger, err)
}

/// Tells how a case ended: prints its summary where there is one, and reports.
fn tell_summary<K: Sink, E: Sink>(generated: Generated, out: &mut K, err: &mut E) -> Report
    requires out { (K.told out.old).faults < 2 ^ 64 - 1 }
    requires err { (E.told err.old).faults < 2 ^ 64 - 1 }
    ensures { TellsText generated.text generated.outcome (K.told out.old) (K.told out.new) (E.told err.old) (E.told err.new) result }
{
    let Generated { outcome, text } = generated;
    let Outcome { ends, ledger, .. } = outcome;
    finish(print_text(text.as_ref(), out), ends, ledger, err)
}

/// Tells how an audit ended, and reports.
fn tell_audit<E: Sink>(alloc: Global, audited: Audited, err: &mut E) -> Report
    requires room { (E.told err.old).faults < 2 ^ 64 - 1 }
    ensures { Reports (status_of_audit audited.end) [] audited.ledger (E.told err.old) (E.told err.new) result }
{
    let Audited { end, ledger } = audited;
    finish(Status::of_audit(end), List::new(alloc), ledger, err)
}

/// Tells and reports that nothing was done.
fn refuse<E: Sink>(alloc: Global, status: Status, err: &mut E) -> Report
    requires room { (E.told err.old).faults < 2 ^ 64 - 1 }
    ensures { Reports status [] [] (E.told err.old) (E.told err.new) result }
{
    finish(status, List::new(alloc), Ledger::empty(alloc), err)
}

/// Tells standard error the line of the status, and reports.
fn finish<E: Sink>(status: Status, ends: List<EndOf>, ledger: Ledger, err: &mut E) -> Report
    requires room { (E.told err.old).faults < 2 ^ 64 - 1 }
    ensures { Reports status ends ledger (E.told err.old) (E.told err.new) result }
{
    let _ = put(err, status.line().as_str().as_bytes());
    Report {
        status,
        ends,
        ledger,
    }
}

/// Prints the tail, unless a write failed or memory was wanting before, and gives the status.
fn print_tail<K: Sink>(alloc: Global, outcome: &Outcome, out: &mut K) -> Status
    requires room { outcome.now.sink_failed ≡ false → (K.told out.old).faults < 2 ^ 64 - 1 }
    ensures { PrintsTail outcome.now (K.told out.old) (K.told out.new) result }
{
    if outcome.sink_failed {
        return Status::NotWritten;
    }
    if outcome.memory {
        return Status::Memory;
    }
    match tail_of(alloc, &outcome.ends, &outcome.ledger) {
        Ok(tail) => match put(out, tail.as_slice()) {
            Ok(()) => status_by(&outcome.ends, &outcome.ledger),
            Err(Failed) => Status::NotWritten,
        },
        Err(_) => Status::Memory,
    }
}

/// Prints the text of a summary, where memory wasn't wanting for it, and gives the status.
fn print_text<K: Sink>(text: Option<&Line>, out: &mut K) -> Status
    requires room { (K.told out.old).faults < 2 ^ 64 - 1 }
    ensures { PrintsText (option_map (λ text. text.now) text.entry) (K.told out.old) (K.told out.new) result }
{
    match text {
        Some(text) => match put(out, text.as_slice()) {
            Ok(()) => Status::Good,
            Err(Failed) => Status::NotWritten,
        },
        None => Status::Memory,
    }
}

/// The status of a run of which all was printed.
fn status_by(ends: &List<EndOf>, ledger: &Ledger) -> Status
    ensures { result ≡ status_by_of ends.now ledger.now }
{
    if has_fault(ends) {
        Status::Faulty
    } else if has_failed(ledger) {
        Status::Unclean
    } else {
        Status::Good
    }
}

fn has_fault(ends: &List<EndOf>) -> bool
    ensures { result ≡ any (λ e. is_fault_end e.how) ends.now }
{
    for end in ends.as_slice() {
        if is_fault(end.how) {
            return true;
        }
    }
    false
}

fn is_fault(how: How) -> bool
    ensures { result ≡ is_fault_end how }
{
    matches!(how, How::Fault(_))
}

fn has_failed(ledger: &Ledger) -> bool
    ensures { result ≡ has_event is_failed_final ledger.now }
{
    for event in ledger.as_slice() {
        if is_failed(event.what) {
            return true;
        }
    }
    false
}

fn is_failed(what: What) -> bool
    ensures { result ≡ is_failed_final what }
{
    matches!(what, What::Final { ok: false, .. })
}
