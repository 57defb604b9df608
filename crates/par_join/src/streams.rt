//! The streams of a plan, which an outer stream gives.
ghost use Rattle.std.specs.Prelude.{◌≡◌, ◌-◌, ◌^◌, ◌<◌, [], List};
ghost use Rattle.collector.specs.Collecting.{IsCollecting, between};
ghost use Rattle.collector.specs.Members.{members};
ghost use Rattle.csv_pipes.specs.Dictionaries.{Dictionary, values_of};
ghost use Rattle.device_port.specs.Depot.{DepotTold};
ghost use Rattle.device_port.specs.Sink.{SinkTold};
ghost use Rattle.pipeline_desc.specs.Sound.{IsSoundPlan};
ghost use Rattle.pull_turns.specs.Piping.{standing};
ghost use Rattle.par_join.specs.Plans.{RunsPlan};
ghost use Rattle.par_join.specs.Room.{IsRoomOfRun};

use crate::left::retire_left;
use crate::room::{RunRoom, make_room};
use crate::scoped::run_lending;
use any_pipe::AnyPipe;
use cat_run::Outcome;
use collector::{Collector, Ended, JoinRoom};
use csv_pipes::Dicts;
use device_port::{Depot, Device, Gate, Sink};
use join_tree::{begin, settle};
use pipeline_desc::Plan;
use pull_nodes::PipeState;
use pull_stepper::Held;
use row_seat::{MarksFront, RowSeat};
use row_shared::{SharedSeat, SharesDesk};
use std::alloc::{AllocError, Global};
use std::sync::Wait;
use std::thread::{Scope, Threads};
use stream_parts::retire_shelf;
use stream_workers::Place;

/// Runs the streams of a plan, each on a thread of its own, and prints what they give in frames of their
/// numbers. The tables of a part are read before its streams begin, and the list once all were. All room
/// for what is noted and closed is made before the first file is opened.
pub fn run_streams<R: Threads + Wait + Sync, D: Depot, K: Sink, G: Gate + Sync>(
    rt: &R,
    alloc: Global,
    plan: &Plan,
    depot: &mut D,
    out: &mut K,
    gate: &G,
) -> Outcome
where
    D::Dev: Send,
    requires room { (K.told out.old).faults < 2 ^ 64 - 1 }
    ensures { RunsPlan plan.now (D.told depot.old) (D.told depot.new) (K.told out.old) (K.told out.new) result }
{
    plan.limits();
    match make_room(alloc, plan) {
        Ok((room, mut table)) => {
            run_lending::<R, D::Dev, SharedSeat<Held<D::Dev>>, AnyPipe, D, K, G>(
                rt, alloc, room, &mut table, plan, depot, out, gate,
            )
        }
        Err(AllocError) => Outcome::unmade(alloc),
    }
}

/// Makes what the streams take, runs them on threads of the scope in the room that was made for the outer
/// stream, at its desk, and ends the run.
pub(crate) fn run_in<
    's,
    E,
    R: Threads + Wait + Sync + 's,
    V: Device + Drop + Send + 's,
    S: SharesDesk + MarksFront + RowSeat<Pay = Held<V>> + Drop + Send + 's,
    F: PipeState<Tables = Dicts> + Send + 's,
    D: Depot<Dev = V>,
    K: Sink,
    G: Gate + Sync + 's,
>(
    scope: &Scope<'s, E>,
    place: &'s Place<'s, R, G>,
    alloc: Global,
    room: RunRoom<S, Held<V>>,
    desk: &mut S::Desk,
    plan: &Plan,
    depot: &mut D,
    out: &mut K,
) -> Outcome
where
    S::Desk: Drop + Send + 's,
    S::Mark: Drop + Send,
    requires limits { IsSoundPlan plan.now }
    requires room { IsRoomOfRun S.view plan.now room }
    requires fits { S.fits room.seat desk.old }
    requires values { (tables : List Dictionary) → F.values tables ≡ values_of tables }
    requires sink { (K.told out.old).faults < 2 ^ 64 - 1 }
    ensures { RunsPlan plan.now (D.told depot.old) (D.told depot.new) (K.told out.old) (K.told out.new) result }
{
    match JoinRoom::<S, V, F>::new(alloc, plan) {
        Ok(streams) => {
            let RunRoom { seat, scopes } = room;
            let mut collector = Collector::new(alloc, begin(seat, scopes), streams);
            collector.run(scope, place, alloc, desk, plan, depot, out);
            end_run(collector, desk, plan, depot)
        }
        Err(AllocError) => Outcome::unmade(alloc),
    }
}

/// Settles the ledger of a collector of a plan at its end, and gives all devices that are left back.
fn end_run<S: RowSeat<Pay = Held<D::Dev>>, D: Depot, F: PipeState>(
    collector: Collector<S, D::Dev, F>,
    desk: &mut S::Desk,
    plan: &Plan,
    depot: &mut D,
) -> Outcome
    requires limits { IsSoundPlan plan.now }
    requires collecting { (d0 : DepotTold) × (s0 : SinkTold) × (sink : SinkTold) × IsCollecting (members S.view D.Dev.Device.told S.fits F.values (standing F.stands F.comes)) plan.now d0 s0 (between 1 (D.told depot.old) sink desk.old collector) }
    requires waiting { collector.waiting.items ≡ [] }
    requires jobs { collector.jobs.items ≡ [] }
    ensures { (d0 : DepotTold) (s0 : SinkTold) (sink : SinkTold) → IsCollecting (members S.view D.Dev.Device.told S.fits F.values (standing F.stands F.comes)) plan.now d0 s0 (between 1 (D.told depot.old) sink desk.old collector) → RunsPlan plan.now d0 (D.told depot.new) s0 sink result }
{
    let Ended {
        tree,
        report,
        outer,
        streams,
        left,
    } = collector.into_ended(plan);
    let (ledger, shelf) = settle(tree, desk);
    retire_shelf(depot, shelf);
    retire_left(depot, left);
    Outcome {
        sink_failed: report.sink_failed(),
        memory: report.memory(),
        ends: report.into_ends(outer, streams),
        ledger,
    }
}
