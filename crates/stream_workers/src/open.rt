//! A job that is here or with a worker.
ghost use Rattle.std.specs.Prelude.{◌≡◌, ℕ};
ghost use Rattle.pull_turns.specs.Piping.{standing};
ghost use Rattle.res_ledger.specs.declared.event.StreamNo.TheVariants.{Inner};
ghost use Rattle.row_seat.specs.Views.{OthersFit};
ghost use Rattle.stream_jobs.specs.Jobs.{FitsJob, IsAt, IsJob, IsSameJob, MaySendAll, seen_job};
ghost use Rattle.stream_jobs.specs.Running.{Origin};
ghost use Rattle.stream_workers.specs.Returns.{ComesBack};

use crate::away::AsBegun;
use channel_bounded::{Hub, May};
use device_port::{Device, Gate};
use interrupt_ctx::Board;
use pull_nodes::PipeState;
use pull_stepper::Held;
use row_seat::{MarksFront, RowSeat};
use row_shared::SharesDesk;
use std::marker::Model;
use std::snapshot::Snapshot;
use std::sync::Wait;
use std::thread::{PromisedHandle, Threads};
use stream_jobs::Job;

/// Gives a job a turn, unless it is over.
fn step<A: May, R: Wait, G: Gate, S: MarksFront + RowSeat<Pay = Held<V>>, V: Device, F: PipeState>(
    rt: &R,
    desk: &mut S::Desk,
    hub: &Hub<A>,
    board: &Board,
    gate: &G,
    job: Job<S, V, F>,
) -> Job<S, V, F>
where
    F::Tables: Drop,
    S::Mark: Drop,
    requires job { (w : Origin V F) × IsJob S.view F.values V.told (standing F.stands F.comes) w job }
    requires fits { FitsJob S.view V.told S.fits job desk.old }
    requires at { IsAt (seen_job S.view F.values job) hub.now board.now }
    requires may { MaySendAll A.may hub.now.capacity job.sender.stream }
    ensures job { (w : Origin V F) → IsJob S.view F.values V.told (standing F.stands F.comes) w job → IsJob S.view F.values V.told (standing F.stands F.comes) w result }
    ensures same { IsSameJob (seen_job S.view F.values job) (seen_job S.view F.values result) }
    ensures fits { FitsJob S.view V.told S.fits result desk.new }
    ensures others { OthersFit S.view S.fits (Inner job.sender.stream) desk.old desk.new }
{
    let mut job = job;
    if !job.is_over() {
        job.turn(rt, desk, hub, board, gate);
    }
    job
}

/// Where a job is.
pub(crate) enum Where<S: RowSeat<Pay = Held<V>>, V: Device, F: PipeState> {
    Here(Job<S, V, F>),
    Away(PromisedHandle<Job<S, V, F>, AsBegun<S, V, F>>),
}

/// The job of a stream that was begun. Contracts see it as the job as it began.
pub struct Open<S: RowSeat<Pay = Held<V>>, V: Device, F: PipeState> {
    stream: u32,
    first: Snapshot<Job<S, V, F>>,
    at: Where<S, V, F>,
}

impl<S: RowSeat<Pay = Held<V>>, V: Device, F: PipeState> Model for Open<S, V, F> {
    ghost use Rattle.stream_jobs.specs.declared.job.Job.{Job};
    ghost use Rattle.stream_workers.specs.Codes.{job_code};

    ghost Value = { Job S V F V S.Desk F.Tables };

    ghost coded = { job_code S.code V.code F.code S.Desk.code F.Tables.code };

    ghost use Rattle.stream_workers.specs.Stands.{IsOpened};
    ghost use Rattle.pull_turns.specs.Piping.{standing};

    ghost view = { λ o. o.first.value };

    ghost invariant = { λ o. IsOpened S.view F.values V.told (standing F.stands F.comes) S.fits o.stream o.first.value o.at };
}

impl<S: RowSeat<Pay = Held<V>>, V: Device, F: PipeState> Open<S, V, F> {
    /// A job that stays here.
    pub fn here(job: Job<S, V, F>) -> Open<S, V, F>
        requires job { (w : Origin V F) × IsJob S.view F.values V.told (standing F.stands F.comes) w job }
        ensures { result ≡ job }
    {
        Open {
            stream: job.stream(),
            first: Snapshot::of(&job),
            at: Where::Here(job),
        }
    }

    /// A job that began so, and went to its worker.
    pub(crate) fn away(
        stream: u32,
        first: Snapshot<Job<S, V, F>>,
        handle: PromisedHandle<Job<S, V, F>, AsBegun<S, V, F>>,
    ) -> Open<S, V, F>
        requires number { stream ≡ first.value.sender.stream }
        requires promise { handle.promise.0.value ≡ first.value }
        ensures { result ≡ first.value }
    {
        Open {
            stream,
            first,
            at: Where::Away(handle),
        }
    }

    /// What became of a job that began so, which stays here.
    pub(crate) fn kept(
        stream: u32,
        first: Snapshot<Job<S, V, F>>,
        job: Job<S, V, F>,
    ) -> Open<S, V, F>
        requires number { stream ≡ first.value.sender.stream }
        requires back { ComesBack S.view F.values V.told (standing F.stands F.comes) S.fits first.value job }
        ensures { result ≡ first.value }
    {
        Open {
            stream,
            first,
            at: Where::Here(job),
        }
    }

    /// The number of its stream.
    pub fn stream(&self) -> u32
        ensures { result ≡ self.now.sender.stream }
    {
        self.stream
    }

    /// Whether it is here, so that it is for the caller to give it turns.
    pub fn is_here(&self) -> bool {
        matches!(self.at, Where::Here(_))
    }

    /// The job, once its worker has returned.
    pub fn settle<R: Threads>(self, rt: &R) -> Job<S, V, F>
        ensures { ComesBack S.view F.values V.told (standing F.stands F.comes) S.fits self result }
    {
        let Open {
            stream: _,
            first: _,
            at,
        } = self;
        match at {
            Where::Here(job) => job,
            Where::Away(handle) => handle.join(rt),
        }
    }
}

impl<S: SharesDesk + MarksFront + RowSeat<Pay = Held<V>>, V: Device, F: PipeState> Open<S, V, F> {
    /// Gives a job that is here a turn, unless it is over. It is seen as it began still.
    pub fn turn<A: May, R: Wait, G: Gate>(
        self,
        rt: &R,
        desk: &mut S::Desk,
        hub: &Hub<A>,
        board: &Board,
        gate: &G,
    ) -> Open<S, V, F>
    where
        F::Tables: Drop,
        S::Mark: Drop,
        requires job { (w : Origin V F) × IsJob S.view F.values V.told (standing F.stands F.comes) w self }
        requires fits { FitsJob S.view V.told S.fits self desk.old }
        requires at { IsAt (seen_job S.view F.values self) hub.now board.now }
        requires may { MaySendAll A.may hub.now.capacity self.sender.stream }
        ensures same { result ≡ self }
        ensures fits { FitsJob S.view V.told S.fits self desk.new }
        ensures others { OthersFit S.view S.fits (Inner self.sender.stream) desk.old desk.new }
    {
        let Open { stream, first, at } = self;
        match at {
            Where::Here(job) => {
                let job = step::<A, R, G, S, V, F>(rt, desk, hub, board, gate, job);
                Open::kept(stream, first, job)
            }
            Where::Away(handle) => Open {
                stream,
                first,
                at: Where::Away(handle),
            },
        }
    }
}
