//! How a worker begins.
ghost use Rattle.std.specs.Prelude.{◌≡◌};
ghost use Rattle.pull_turns.specs.Piping.{standing};
ghost use Rattle.stream_jobs.specs.Jobs.{FitsJob, IsAt, IsJob, MaySendAll, seen_job};
ghost use Rattle.stream_jobs.specs.Running.{Origin};
ghost use Rattle.stream_workers.specs.Returns.{ComesBack, IsReady};

use crate::away::{AsBegun, Carried, run_unless};
use crate::open::Open;
use crate::place::Place;
use channel_bounded::{HubRef, May};
use device_port::{Device, Gate};
use interrupt_ctx::BoardRef;
use pull_nodes::PipeState;
use pull_stepper::Held;
use row_seat::{MarksFront, RowSeat};
use row_shared::SharesDesk;
use std::snapshot::Snapshot;
use std::sync::Wait;
use std::sync::atomic::Ordering::SeqCst;
use std::thread::Scope;
use stream_jobs::Job;

/// Begins a worker for a job, which has this desk and these handles for itself. Where no thread can be
/// started the job stays here.
pub fn begin<
    's,
    E,
    A: May + Send + Sync + 's,
    S: SharesDesk + MarksFront + RowSeat<Pay = Held<V>> + Drop + Send + 's,
    V: Device + Drop + Send + 's,
    F: PipeState + Send + 's,
    R: Wait + Sync + 's,
    G: Gate + Sync + 's,
>(
    scope: &Scope<'s, E>,
    place: &'s Place<'s, R, G>,
    hub: HubRef<A>,
    board: BoardRef,
    desk: S::Desk,
    job: Job<S, V, F>,
) -> Open<S, V, F>
where
    S::Desk: Drop + Send + 's,
    S::Mark: Drop + Send,
    F::Tables: Drop + Send + 's,
    requires job { (w : Origin V F) × IsJob S.view F.values V.told (standing F.stands F.comes) w job }
    requires at { IsAt (seen_job S.view F.values job) hub board }
    requires may { MaySendAll A.may hub.capacity (seen_job S.view F.values job).sender.stream }
    requires fits { FitsJob S.view V.told S.fits job desk }
    ensures { result ≡ job }
{
    let stream = job.stream();
    let first = Snapshot::of(&job);
    let promise = AsBegun::of(&job);
    let carried = Carried {
        job,
        desk,
        hub,
        board,
    };
    let started = scope.spawn_with(
        promise,
        move || -> Job<S, V, F>
            requires { IsReady S.view F.values V.told (standing F.stands F.comes) S.fits A.may carried.job carried.desk carried.hub carried.board }
            ensures { ComesBack S.view F.values V.told (standing F.stands F.comes) S.fits carried.job result }
        { run_unless(place, carried) },
    );
    match started {
        Ok(handle) => Open::away(stream, first, handle),
        Err(back) => {
            place.refused.store(u64::from(stream) + 1, SeqCst);
            let job = (back.value)();
            place.refused.store(0, SeqCst);
            Open::kept(stream, first, job)
        }
    }
}
