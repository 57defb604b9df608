//! A stream on its way, and how one call takes it further.
ghost use Rattle.std.specs.Prelude.{◌≡◌, ℕ, ◌+◌, ◌<◌, ◌^◌, ◌++◌, List, None};
ghost use Rattle.channel_bounded.specs.declared.message.Msg.{Msg};
ghost use Rattle.res_ledger.specs.declared.event.StreamNo.TheVariants.{Inner};
ghost use Rattle.row_seat.specs.Views.{OthersFit};
ghost use Rattle.pull_turns.specs.Piping.{standing};
ghost use Rattle.scope_tree.specs.Visible.{lessee, rows_covered};
ghost use Rattle.pull_stepper.specs.Sites.{Site};
ghost use Rattle.pull_stepper.specs.Stepping.{IsOver};
ghost use Rattle.stream_jobs.specs.Leaving.{CanLeave, IsVisiting, Leaves};
ghost use Rattle.pull_stepper.specs.Steppers.{Works, stepping};
ghost use Rattle.stream_jobs.specs.Learned.{HasLearned};
ghost use Rattle.stream_jobs.specs.Messages.{IsNews, end_message, held, load_message};
ghost use Rattle.stream_jobs.specs.Running.{FitsStage, Origin, RunsOn, StagePlaces, Stands, ended_at, running_at};
ghost use Rattle.stream_jobs.specs.Steps.{MovesOn};

use crate::leaving::{Left, leave};
use crate::rendering::rendered;
use crate::stepping::{interrupt_run, look_and_step};
use channel_bounded::{Body, Msg};
use chunk_core::{How, Load};
use device_port::{Device, Gate};
use interrupt_ctx::{Board, BoardSeat};
use pull_nodes::PipeState;
use pull_stepper::{Held, Stepper};
use row_seat::{MarksFront, RowSeat};
use scope_tree::Lease;
use std::alloc::Global;
use std::sync::Wait;

/// A lease that goes with its job. What a thread gives back may be let go, so a job has to be; then the
/// lease is never cancelled.
pub(crate) struct JobLease(pub(crate) Lease);

impl Drop for JobLease {
    fn drop(self) {
        let JobLease(lease) = self;
        lease.abandon();
    }
}

impl JobLease {
    /// As `leave`, with the lease.
    fn leave<V: Device, S: RowSeat<Pay = Held<V>>, F: PipeState>(
        self,
        stepper: Stepper<S, V, F>,
        desk: &mut S::Desk,
    ) -> Left<S, V>
    where
        F::Tables: Drop,
        requires works { Works S.view V.told S.fits stepper desk.old }
        requires over { IsOver V.told (stepping S.view F.values stepper) }
        requires visiting { (x : Site V) × IsVisiting V.told (lessee self.0) (rows_covered self.0) x (stepping S.view F.values stepper).site }
        requires room { CanLeave V.told (rows_covered self.0) (stepping S.view F.values stepper).site }
        ensures leaves { (x : Site V) → IsVisiting V.told (lessee self.0) (rows_covered self.0) x (stepping S.view F.values stepper).site → Leaves V.told (lessee self.0) (rows_covered self.0) x (stepping S.view F.values stepper) (S.view result.seat) result.shelf result.unopened result.how }
        ensures fits { S.fits result.seat desk.new }
        ensures others { OthersFit S.view S.fits (Inner (lessee self.0)) desk.old desk.new }
    {
        let JobLease(lease) = self;
        leave(stepper, lease, desk)
    }
}

/// A stream whose stepper hasn't ended.
#[derive(Drop)]
pub(crate) struct Running<S: RowSeat, V, F: PipeState> {
    pub(crate) stream: u32,
    pub(crate) stepper: Stepper<S, V, F>,
    pub(crate) lease: JobLease,
    /// For the texts of its loads.
    pub(crate) alloc: Global,
}

/// How far a stream is.
#[derive(Drop)]
pub(crate) enum Stage<S: RowSeat, V, F: PipeState> {
    Running(Running<S, V, F>),
    Left(Left<S, V>),
}

/// How far a stream is behind a turn, and what is to be said of it.
pub(crate) struct Advanced<S: RowSeat, V, F: PipeState> {
    pub(crate) stage: Stage<S, V, F>,
    pub(crate) message: Option<Msg>,
}

fn load_of(stream: u32, load: Load) -> Msg
    ensures { result ≡ load_message stream load }
{
    Msg {
        stream,
        body: Body::Load(load),
    }
}

pub(crate) fn end_of(stream: u32, how: How) -> Msg
    ensures { result ≡ end_message stream how }
{
    Msg {
        stream,
        body: Body::End(how),
    }
}

/// The message with the text of the load that came, if one came.
fn message_of(alloc: Global, stream: u32, load: Option<Load>) -> Option<Msg>
    ensures { IsNews stream None load (held result) }
{
    match load {
        Some(load) => Some(load_of(stream, rendered(alloc, load))),
        None => None,
    }
}

impl<V: Device, S: MarksFront + RowSeat<Pay = Held<V>>, F: PipeState> Running<S, V, F> {
    /// Passes the gate, looks at the stream's context once, and halts the stepper where it is
    /// interrupted, or makes one turn. Where the stepper has ended then, the lease is cancelled, and
    /// the whole run is interrupted by a fault or want of memory.
    pub(crate) fn advance<R: Wait, G: Gate>(
        self,
        rt: &R,
        desk: &mut S::Desk,
        seat: &mut BoardSeat,
        board: &Board,
        gate: &G,
    ) -> Advanced<S, V, F>
    where
        F::Tables: Drop,
        S::Mark: Drop,
        requires fits { Works S.view V.told S.fits self.stepper desk.old }
        requires runs { (w : Origin V F) × (said : List Msg) × RunsOn V.told (standing F.stands F.comes) S.view F.values w self said }
        requires board { seat.old.board ≡ board.now.id }
        requires context { 1 + self.stream < board.now.contexts }
        requires number { 1 + self.stream < 2 ^ 32 }
        ensures stands { (w : Origin V F) (said : List Msg) → RunsOn V.told (standing F.stands F.comes) S.view F.values w self said → Stands V.told (standing F.stands F.comes) S.view F.values w result.stage (said ++ held result.message) }
        ensures learned { (w : Origin V F) (said : List Msg) → RunsOn V.told (standing F.stands F.comes) S.view F.values w self said → HasLearned w.stream w.board seat.old None → HasLearned w.stream w.board seat.new (ended_at result.stage) }
        ensures places { (w : Origin V F) (said : List Msg) → RunsOn V.told (standing F.stands F.comes) S.view F.values w self said → HasLearned w.stream w.board seat.old None → StagePlaces S.view w.stream seat.new.view result.stage }
        ensures moves { MovesOn (standing F.stands F.comes) V.told self.stream (stepping S.view F.values self.stepper) (running_at S.view F.values result.stage) seat.old seat.new (held result.message) }
        ensures fits { FitsStage V.told S.view S.fits result.stage desk.new }
        ensures others { OthersFit S.view S.fits (Inner self.stream) desk.old desk.new }
    {
        let Running {
            stream,
            mut stepper,
            lease,
            alloc,
        } = self;
        gate.pass(stream);
        let load = look_and_step(rt, &mut stepper, desk, seat, board, 1 + stream);
        match stepper.how() {
            None => Advanced {
                message: message_of(alloc, stream, load),
                stage: Stage::Running(Running {
                    stream,
                    stepper,
                    lease,
                    alloc,
                }),
            },
            Some(how) => {
                let mut left = lease.leave(stepper, desk);
                interrupt_run(&mut left.seat, desk, seat, board, how);
                Advanced {
                    stage: Stage::Left(left),
                    message: Some(end_of(stream, how)),
                }
            }
        }
    }
}
