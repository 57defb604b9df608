//! A run in a scope of its own, in which the streams' threads begin and end.
ghost use Rattle.std.specs.Prelude.{◌≡◌, ◌-◌, ◌^◌, ◌<◌, List};
ghost use Rattle.csv_pipes.specs.Dictionaries.{Dictionary, values_of};
ghost use Rattle.pipeline_desc.specs.Sound.{IsSoundPlan};
ghost use Rattle.par_join.specs.Plans.{RunsPlan};
ghost use Rattle.par_join.specs.Room.{IsRoomOfRun};

use crate::room::RunRoom;
use crate::streams::run_in;
use cat_run::Outcome;
use csv_pipes::Dicts;
use device_port::{Depot, Device, Gate, Sink};
use pipeline_desc::Plan;
use pull_nodes::PipeState;
use pull_stepper::Held;
use row_seat::{MarksFront, RowSeat};
use row_shared::SharesDesk;
use std::alloc::Global;
use std::sync::Wait;
use std::sync::atomic::AtomicU64;
use std::thread;
use std::thread::{Scope, Threads};
use stream_workers::Place;

/// Lends all that a run uses to a scope of threads, in which it comes to its end.
pub(crate) fn run_lending<
    R: Threads + Wait + Sync,
    V: Device + Drop + Send,
    S: SharesDesk + MarksFront + RowSeat<Pay = Held<V>> + Drop + Send,
    F: PipeState<Tables = Dicts> + Send,
    D: Depot<Dev = V>,
    K: Sink,
    G: Gate + Sync,
>(
    rt: &R,
    alloc: Global,
    room: RunRoom<S, Held<V>>,
    desk: &mut S::Desk,
    plan: &Plan,
    depot: &mut D,
    out: &mut K,
    gate: &G,
) -> Outcome
where
    S::Desk: Drop + Send,
    S::Mark: Drop + Send,
    requires limits { IsSoundPlan plan.now }
    requires room { IsRoomOfRun S.view plan.now room }
    requires fits { S.fits room.seat desk.old }
    requires values { (tables : List Dictionary) → F.values tables ≡ values_of tables }
    requires sink { (K.told out.old).faults < 2 ^ 64 - 1 }
    ensures { RunsPlan plan.now (D.told depot.old) (D.told depot.new) (K.told out.old) (K.told out.new) result }
{
    let mut outcome = Outcome::unmade(alloc);
    let lent = Lent {
        told: &mut outcome,
        desk,
        depot,
        out,
    };
    let Lent {
        told,
        desk,
        depot,
        out,
    } = run_scoped::<R, V, S, F, D, K, G>(rt, alloc, room, plan, gate, lent);
    let _ = told;
    let _ = desk;
    let _ = depot;
    let _ = out;
    outcome
}

/// What a run lends to the scope of its threads, which hands it back, with what came of the run.
#[derive(Drop)]
struct Lent<'a, S: RowSeat + 'a, D, K> {
    told: &'a mut Outcome,
    desk: &'a mut S::Desk,
    depot: &'a mut D,
    out: &'a mut K,
}

/// Does a run in a scope, in which threads may be begun.
fn run_scoped<
    'a,
    R: Threads + Wait + Sync,
    V: Device + Drop + Send,
    S: SharesDesk + MarksFront + RowSeat<Pay = Held<V>> + Drop + Send,
    F: PipeState<Tables = Dicts> + Send,
    D: Depot<Dev = V>,
    K: Sink,
    G: Gate + Sync,
>(
    rt: &R,
    alloc: Global,
    room: RunRoom<S, Held<V>>,
    plan: &Plan,
    gate: &G,
    lent: Lent<'a, S, D, K>,
) -> Lent<'a, S, D, K>
where
    S::Desk: Drop + Send,
    S::Mark: Drop + Send,
    requires limits { IsSoundPlan plan.now }
    requires room { IsRoomOfRun S.view plan.now room }
    requires fits { S.fits room.seat lent.desk.now }
    requires values { (tables : List Dictionary) → F.values tables ≡ values_of tables }
    requires sink { (K.told lent.out.now).faults < 2 ^ 64 - 1 }
    ensures names { (result.told.ghost_name ≡ lent.entry.told.ghost_name) × (result.depot.ghost_name ≡ lent.entry.depot.ghost_name) × (result.out.ghost_name ≡ lent.entry.out.ghost_name) }
    ensures ran { RunsPlan plan.now (D.told lent.entry.depot.now) (D.told result.depot.now) (K.told lent.entry.out.now) (K.told result.out.now) result.told.now }
{
    let refused = AtomicU64::new(0);
    let place = Place {
        rt,
        gate,
        refused: &refused,
    };
    let place = &place;
    thread::scope(
        thread::scope_env(),
        rt,
        move |scope| -> Lent<'_, S, D, K>
            requires { IsSoundPlan plan.now × IsRoomOfRun S.view plan.now room × S.fits room.seat lent.desk.now × ((tables : List Dictionary) → F.values tables ≡ values_of tables) × ((K.told lent.out.now).faults < 2 ^ 64 - 1) }
            ensures { (result.told.ghost_name ≡ lent.entry.told.ghost_name) × (result.depot.ghost_name ≡ lent.entry.depot.ghost_name) × (result.out.ghost_name ≡ lent.entry.out.ghost_name) × RunsPlan plan.entry.now (D.told lent.entry.depot.now) (D.told result.depot.now) (K.told lent.entry.out.now) (K.told result.out.now) result.told.now }
        { run_lent::<_, R, V, S, F, D, K, G>(scope, place, alloc, room, plan, lent) },
    )
}

/// Does a run with what is lent to its scope.
fn run_lent<
    's,
    'a,
    E,
    R: Threads + Wait + Sync + 's,
    V: Device + Drop + Send + 's,
    S: SharesDesk + MarksFront + RowSeat<Pay = Held<V>> + Drop + Send + 's,
    F: PipeState<Tables = Dicts> + Send + 's,
    D: Depot<Dev = V>,
    K: Sink,
    G: Gate + Sync + 's,
>(
    scope: &Scope<'s, E>,
    place: &'s Place<'s, R, G>,
    alloc: Global,
    room: RunRoom<S, Held<V>>,
    plan: &Plan,
    lent: Lent<'a, S, D, K>,
) -> Lent<'a, S, D, K>
where
    S::Desk: Drop + Send + 's,
    S::Mark: Drop + Send,
    requires limits { IsSoundPlan plan.now }
    requires room { IsRoomOfRun S.view plan.now room }
    requires fits { S.fits room.seat lent.desk.now }
    requires values { (tables : List Dictionary) → F.values tables ≡ values_of tables }
    requires sink { (K.told lent.out.now).faults < 2 ^ 64 - 1 }
    ensures names { (result.told.ghost_name ≡ lent.entry.told.ghost_name) × (result.depot.ghost_name ≡ lent.entry.depot.ghost_name) × (result.out.ghost_name ≡ lent.entry.out.ghost_name) }
    ensures ran { RunsPlan plan.now (D.told lent.entry.depot.now) (D.told result.depot.now) (K.told lent.entry.out.now) (K.told result.out.now) result.told.now }
{
    let Lent {
        told,
        desk,
        depot,
        out,
    } = lent;
    *told = run_in::<E, R, V, S, F, D, K, G>(scope, place, alloc, room, desk, plan, depot, out);
    Lent {
        told,
        desk,
        depot,
        out,
    }
}
