//! A file evaluated in groups.
ghost use Rattle.std.specs.Prelude.{◌≡◌, ◌-◌, ◌^◌, ◌<◌, ◌≤◌, [], ◌∷◌, true, ℕ, List, Some, IsSome, length, vec_capacity};
ghost use Rattle.std.specs.List.{list_all};
ghost use Rattle.chunk_core.specs.Elements.LoadKind.{Bytes};
ghost use Rattle.eval_reader.specs.Reading.{IsGrouping};
ghost use Rattle.eval_work.specs.Works.{result_of};
ghost use Rattle.lone_stream.specs.Steps.{IsBegun};
ghost use Rattle.pull_nodes.specs.declared.node.Node.{Node as NodeOf};
ghost use Rattle.pull_stepper.specs.Steppers.{Works, stepping};
ghost use Rattle.pull_stepper.specs.Stepping.{CanGo, IsSupplied};
ghost use Rattle.pull_turns.specs.Piping.{standing};
ghost use Rattle.res_ledger.specs.declared.event.StreamNo.TheVariants.{Inner};
ghost use Rattle.step_words.specs.Words.{kind_behind, needs_no_table};
ghost use Rattle.stream_parts.specs.Retire.{MayReturnAll, Returns, devices_of};
ghost use Rattle.eval_run.specs.Eval.{RunsEval};
ghost use Rattle.eval_run.specs.Ready.{IsLinesNode, IsReady, IsStaffed};
ghost use Rattle.eval_run.specs.Printing.{ending_of, is_unwritten as is_unwritten_stop, is_wanting as is_wanting_stop};
ghost use Rattle.eval_run.specs.Runs.{Evaluated};

use crate::lent::{Pumped, Staff, pump_lending};
use crate::ready::{Ready, make_ready};
use crate::stop::{Stop, end_of, is_unwritten, is_wanting};
use any_pipe::AnyPipe;
use cat_run::Outcome;
use chunk_core::{How, List, Word};
use csv_pipes::Dicts;
use device_port::{Depot, Device, Gate, Mode, Sink};
use eval_hands::Bells;
use eval_reader::Reader;
use eval_work::GroupWork;
use lone_stream::{Ran, begin, end, retire};
use par_eval::{PlainLanes, Work};
use pipeline_desc::Step;
use pull_nodes::PipeState;
use pull_stepper::{Held, Stepper};
use res_ledger::StreamNo;
use row_seat::{PlainSeat, RowSeat};
use run_rules::EndOf;
use std::alloc::{AllocError, Global};
use std::sync::Wait;
use std::thread::Threads;

/// The most bytes of a read.
const CHUNK: u32 = 4096;

/// What the stream of the lines did, room for its end, and why not all was printed, if so.
struct Evaluation<V> {
    ran: Ran<V>,
    ends: Vec<EndOf>,
    stop: Option<Stop>,
}

/// Takes the lines of the file at a path in groups of so many, works on up to `jobs` of them at once by the steps,
/// and prints what comes of each as a frame of stream 0, in the order of the groups. All room for what is noted and
/// closed is made before the file is opened.
pub fn run_eval<R: Threads + Wait + Sync, D: Depot, K: Sink, G: Gate + Sync>(
    rt: &R,
    alloc: Global,
    path: &Word,
    jobs: u32,
    group: u32,
    steps: &List<Step>,
    depot: &mut D,
    out: &mut K,
    gate: &G,
) -> Outcome
    requires jobs { (1 ≤ jobs) × (jobs ≤ 64) }
    requires group { 1 ≤ group }
    requires kinds { IsSome (kind_behind steps.now Bytes) }
    requires tables { list_all needs_no_table steps.now ≡ true }
    requires room { (K.told out.old).faults < 2 ^ 64 - 1 }
    ensures { RunsEval path.now group steps.now (D.told depot.old) (D.told depot.new) (K.told out.old) (K.told out.new) result }
{
    let Ok(ready) = make_ready(alloc, jobs, steps) else {
        return Outcome::unmade(alloc);
    };
    match depot.make(alloc, path, Mode::Read) {
        Ok(device) => {
            let evaluation = run_ready(rt, alloc, ready, device, jobs, group, out, gate);
            finish(depot, evaluation)
        }
        Err(AllocError) => Outcome::unmade(alloc),
    }
}

/// Begins the stream over its device and evaluates its lines.
fn run_ready<R: Threads + Wait + Sync, V: Device + Drop, K: Sink, G: Gate + Sync>(
    rt: &R,
    alloc: Global,
    ready: Ready<V>,
    device: V,
    jobs: u32,
    group: u32,
    out: &mut K,
    gate: &G,
) -> Evaluation<V>
    requires ready { IsReady jobs ready }
    requires device { IsSupplied V.told ready.node (device ∷ []) }
    requires group { 1 ≤ group }
    requires sink { (K.told out.old).faults < 2 ^ 64 - 1 }
    ensures evaluated { Evaluated V.told (result_of ready.work) group ready.node (device ∷ []) (K.told out.old) (K.told out.new) result.ran result.stop }
    ensures ends { (result.ends.items ≡ []) × (vec_capacity result.ends ≡ 1) }
{
    let Ready {
        node,
        room,
        mut table,
        mut devices,
        ends,
        lanes,
        staff,
        bells,
        work,
    } = ready;
    devices.push(device).unwrap();
    let devices = List::of_vec(devices);
    match begin::<V, PlainSeat<Held<V>>, AnyPipe>(alloc, room, &mut table, node, devices, CHUNK) {
        Ok(stepper) => {
            let (ran, stop) = evaluate(
                rt,
                alloc,
                gate,
                &lanes,
                &work,
                &bells,
                jobs,
                group as usize,
                stepper,
                table,
                staff,
                out,
            );
            Evaluation { ran, ends, stop }
        }
        Err(ran) => Evaluation {
            ran,
            ends,
            stop: Some(Stop::Memory),
        },
    }
}

/// Evaluates the lines of a stream that was begun, and takes it apart.
fn evaluate<
    'x,
    R: Threads + Wait + Sync,
    G: Gate + Sync,
    W: Work + Send + Sync,
    V: Device + Drop,
    S: RowSeat<Pay = Held<V>> + Drop,
    F: PipeState<Tables = Dicts>,
    K: Sink,
>(
    rt: &'x R,
    alloc: Global,
    gate: &'x G,
    lanes: &'x PlainLanes,
    work: &'x W,
    bells: &'x Bells,
    jobs: u32,
    size: usize,
    stepper: Stepper<S, V, F>,
    desk: S::Desk,
    staff: Staff<W>,
    out: &mut K,
) -> (Ran<V>, Option<Stop>)
where
    S::Desk: Drop,
    requires staff { IsStaffed jobs lanes.now staff }
    requires size { 0 < size }
    requires fits { Works S.view V.told S.fits stepper desk }
    requires begun { (n : NodeOf) × (devices : List V) × (chunk : ℕ) × IsBegun (standing F.stands F.comes) V.told (Inner 0) n devices chunk (stepping S.view F.values stepper) × IsLinesNode n }
    requires can { CanGo (standing F.stands F.comes) V.told (stepping S.view F.values stepper) }
    requires sink { (K.told out.old).faults < 2 ^ 64 - 1 }
    ensures { (n : NodeOf) (devices : List V) (chunk : ℕ) → IsBegun (standing F.stands F.comes) V.told (Inner 0) n devices chunk (stepping S.view F.values stepper) → Evaluated V.told (W.result_of work.now) size n devices (K.told out.old) (K.told out.new) result.0 result.1 }
{
    let reader = Reader::new(alloc, stepper);
    let Pumped {
        stepper,
        mut desk,
        stop,
    } = pump_lending(
        rt, alloc, gate, lanes, work, bells, jobs, size, reader, desk, staff, out,
    );
    (end(stepper, &mut desk), stop)
}

/// Gives the device back, and tells what the evaluation did.
fn finish<D: Depot>(depot: &mut D, evaluation: Evaluation<D::Dev>) -> Outcome
    requires may { MayReturnAll (D.told depot.old) (devices_of D.Dev.Device.told evaluation.ran.shelf evaluation.ran.unopened) }
    requires ends { (evaluation.ends.items ≡ []) × (vec_capacity evaluation.ends ≡ 1) }
    ensures returns { Returns (D.told depot.old) (D.told depot.new) (devices_of D.Dev.Device.told evaluation.ran.shelf evaluation.ran.unopened) }
    ensures ends { result.ends ≡ record { who = Inner 0; how = ending_of evaluation.ran.how evaluation.stop } ∷ [] }
    ensures ledger { result.ledger ≡ evaluation.ran.ledger }
    ensures broken { result.sink_failed ≡ is_unwritten_stop evaluation.stop }
    ensures memory { result.memory ≡ is_wanting_stop evaluation.stop }
{
    let Evaluation { ran, ends, stop } = evaluation;
    let Ran {
        how,
        ledger,
        shelf,
        unopened,
    } = ran;
    retire(depot, shelf, unopened);
    Outcome {
        ends: ends_of(ends, end_of(how, stop)),
        ledger,
        sink_failed: is_unwritten(stop),
        memory: is_wanting(stop),
    }
}

/// The end of stream 0, in the room that was made for it.
fn ends_of(ends: Vec<EndOf>, how: How) -> List<EndOf>
    requires none { ends.items ≡ [] }
    requires room { vec_capacity ends ≡ 1 }
    ensures { result ≡ record { who = Inner 0; how = how } ∷ [] }
{
    let mut ends = ends;
    let end = EndOf {
        who: StreamNo::Inner(0),
        how,
    };
    ends.push(end).unwrap();
    List::of_vec(ends)
}
