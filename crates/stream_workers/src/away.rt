//! What a worker does with a job.
ghost use Rattle.std.specs.Prelude.{◌≡◌};
ghost use Rattle.pull_turns.specs.Piping.{standing};
ghost use Rattle.stream_jobs.specs.Jobs.{IsOver, seen_job};
ghost use Rattle.stream_workers.specs.Returns.{ComesBack, IsReady};

use crate::pause::Pause;
use crate::place::Place;
use channel_bounded::{Hub, HubRef, May};
use device_port::{Device, Gate};
use interrupt_ctx::{Board, BoardRef};
use pull_nodes::PipeState;
use pull_stepper::Held;
use row_seat::{MarksFront, RowSeat};
use row_shared::SharesDesk;
use std::snapshot::Snapshot;
use std::sync::Wait;
use std::sync::atomic::Ordering::SeqCst;
use std::thread::Promise;
use stream_jobs::{Job, JobTurn};

/// A worker gives back the job that it was given, as the same job.
#[derive(Drop)]
pub struct AsBegun<S: RowSeat<Pay = Held<V>>, V: Device, F: PipeState>(Snapshot<Job<S, V, F>>);

impl<S: RowSeat<Pay = Held<V>>, V: Device, F: PipeState> AsBegun<S, V, F> {
    /// The promise for this job.
    pub fn of(job: &Job<S, V, F>) -> AsBegun<S, V, F>
        ensures { result.0.value ≡ job.now }
    {
        AsBegun(Snapshot::of(job))
    }
}

impl<S: RowSeat<Pay = Held<V>>, V: Device, F: PipeState> Promise<Job<S, V, F>>
    for AsBegun<S, V, F> {
    ghost use Rattle.pull_turns.specs.Piping.{standing};
    ghost use Rattle.stream_workers.specs.Returns.{ComesBack};

    ghost kept_by = { λ p j. ComesBack S.view F.values V.told (standing F.stands F.comes) S.fits p.0.value j };
}

/// Runs a job to its end at a desk of its own, which it fits. Where the queue is full it waits a little
/// before it tries again.
pub fn run_away<
    A: May,
    R: Wait,
    G: Gate,
    S: SharesDesk + MarksFront + RowSeat<Pay = Held<V>>,
    V: Device,
    F: PipeState,
>(rt: &R, desk: S::Desk, hub: &Hub<A>, board: &Board, gate: &G, job: Job<S, V, F>) -> Job<S, V, F>
where
    F::Tables: Drop,
    S::Desk: Drop,
    S::Mark: Drop,
    requires ready { IsReady S.view F.values V.told (standing F.stands F.comes) S.fits A.may job desk hub.now board.now }
    ensures back { ComesBack S.view F.values V.told (standing F.stands F.comes) S.fits job result }
    ensures over { IsOver (seen_job S.view F.values result) }
{
    let mut job = job;
    let mut desk = desk;
    let mut pause = Pause::new();
    'turns: for _ in rt.forever() {
        if job.is_over() {
            return job;
        }
        match job.turn(rt, &mut desk, hub, board, gate) {
            JobTurn::Blocked => pause.step(rt),
            JobTurn::More | JobTurn::Over => pause.reset(),
        }
    }
    unreachable!()
}

/// What goes to a worker: the job, its desk, and handles of its own on the queue and the board.
#[derive(Drop)]
pub(crate) struct Carried<S: RowSeat, V, F: PipeState, A: May> {
    pub(crate) job: Job<S, V, F>,
    pub(crate) desk: S::Desk,
    pub(crate) hub: HubRef<A>,
    pub(crate) board: BoardRef,
}

/// Runs a job to its end, unless its stream is refused: then it comes back as it is.
pub(crate) fn run_unless<
    A: May,
    R: Wait,
    G: Gate,
    S: SharesDesk + MarksFront + RowSeat<Pay = Held<V>>,
    V: Device,
    F: PipeState,
>(place: &Place<'_, R, G>, carried: Carried<S, V, F, A>) -> Job<S, V, F>
where
    F::Tables: Drop,
    S::Desk: Drop,
    S::Mark: Drop,
    requires ready { IsReady S.view F.values V.told (standing F.stands F.comes) S.fits A.may carried.job carried.desk carried.hub carried.board }
    ensures { ComesBack S.view F.values V.told (standing F.stands F.comes) S.fits carried.job result }
{
    let Carried {
        job,
        desk,
        hub,
        board,
    } = carried;
    if place.refused.load(SeqCst) == u64::from(job.stream()) + 1 {
        return job;
    }
    run_away(place.rt, desk, hub.get(), board.get(), place.gate, job)
}
