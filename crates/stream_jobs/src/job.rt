//! A stream's job.
ghost use Rattle.std.specs.Prelude.{◌≡◌, ◌≢◌, ◌↔◌, ℕ, ◌<◌, ◌++◌, List, [], Option, Some, None, IfSome, IsSome, false};
ghost use Rattle.std.specs.Bool.{OnFalse, OnTrue};
ghost use Rattle.chunk_core.specs.declared.code.How.TheVariants as how;
ghost use Rattle.channel_bounded.specs.Ends.{HubSeen, SenderSeen};
ghost use Rattle.interrupt_ctx.specs.declared.why.Why.TheVariants as why;
ghost use Rattle.res_ledger.specs.declared.event.StreamNo.TheVariants.{Inner};
ghost use Rattle.row_seat.specs.Views.{OthersFit};
ghost use Rattle.scope_tree.specs.Trees.{Fits, seen};
ghost use Rattle.scope_tree.specs.Visible.{lessee, rows_covered};
ghost use Rattle.pull_turns.specs.Piping.{standing};
ghost use Rattle.pull_stepper.specs.Steppers.{Works, stepping};
ghost use Rattle.pull_stepper.specs.Stepping.{CanGo, Stepping};
ghost use Rattle.stream_jobs.specs.Messages.{IsFullMessage, end_message};
ghost use Rattle.stream_jobs.specs.Running.{IsBegun, Origin};
ghost use Rattle.stream_jobs.specs.Steps.{StopsRun};
ghost use Rattle.stream_jobs.specs.Unmade.{IsUnmade};
ghost use Rattle.stream_jobs.specs.Jobs.{Advances, EndsJob, FitsJob, IsAt, IsJob, IsOver, IsSameJob, JobSeen, MaySendAll, OnlySends, Sends, said, seen_job};

use crate::leaving::{Left, leave_unmade};
use crate::running::{Advanced, JobLease, Running, Stage, end_of};
use crate::stepping::interrupt_run;
use channel_bounded::{Full, Hub, May, Msg, Sender};
use chunk_core::{How, List};
use device_port::{Device, Gate};
use interrupt_ctx::{Board, BoardSeat};
use pull_nodes::PipeState;
use pull_stepper::{Held, Stepper};
use row_seat::{MarksFront, RowSeat};
use scope_tree::{Lease, Spent, Tree};
use std::alloc::Global;
use std::mem;
use std::sync::Wait;

/// A stream on its way: it is run by a stepper, and what it gives is sent to the collector.
#[derive(Drop)]
pub struct Job<S: RowSeat, V, F: PipeState> {
    stream: u32,
    stage: Option<Stage<S, V, F>>,
    board: BoardSeat,
    sender: Sender,
    waiting: Option<Msg>,
}

/// What a turn of a job comes to.
#[derive(Clone, Copy, Debug, PartialEq, Eq)]
pub enum JobTurn {
    /// Nothing waits, and more is to come.
    More,
    /// The queue is full, and a message waits for room.
    Blocked,
    /// The end was sent.
    Over,
}

/// What is left of a job that is over: its seats and its sender, and its devices, those that were
/// acquired on the shelf, with the rows of other streams that it was the last to leave.
#[derive(Drop)]
pub struct JobEnd<S, V> {
    pub seat: S,
    pub board: BoardSeat,
    pub sender: Sender,
    pub shelf: List<Spent<Held<V>>>,
    pub unopened: List<V>,
    pub how: How,
}

/// Puts a value in where none is. An assignment would let go of the value that was there.
fn fill<T>(slot: &mut Option<T>, value: T)
    requires { slot.old ≡ None }
    ensures { slot.new ≡ Some value }
{
    match mem::replace(slot, Some(value)) {
        None => {}
        Some(_value) => unreachable!(),
    }
}

impl<V: Device, S: RowSeat<Pay = Held<V>>, F: PipeState> Job<S, V, F> {
    /// The job of a stream, of which nothing was sent, and whose seat was just split off with its lease.
    /// The texts of its loads are made in memory of `alloc`.
    pub fn new(
        alloc: Global,
        stream: u32,
        stepper: Stepper<S, V, F>,
        board: BoardSeat,
        sender: Sender,
        lease: Lease,
    ) -> Job<S, V, F>
        requires sender { (sender.stream ≡ stream) × (sender.sent ≡ []) }
        requires lease { lessee lease ≡ stream }
        requires seat { (board.view.set ≡ []) × (board.view.first ≡ false) }
        requires begun { IsBegun V.told (record { stream = stream; leased = rows_covered lease; start = stepping S.view F.values stepper; board = board }) }
        requires can { CanGo (standing F.stands F.comes) V.told (stepping S.view F.values stepper) }
        ensures seen { seen_job S.view F.values result ≡ record { running = Some (stepping S.view F.values stepper); board = board; sender = sender; waiting = None } }
        ensures job { IsJob S.view F.values V.told (standing F.stands F.comes) (record { stream = stream; leased = rows_covered lease; start = stepping S.view F.values stepper; board = board }) result }
        ensures fits { (d : S.Desk) → Works S.view V.told S.fits stepper d → FitsJob S.view V.told S.fits result d }
    {
        Job {
            stream,
            stage: Some(Stage::Running(Running {
                stream,
                stepper,
                lease: JobLease(lease),
                alloc,
            })),
            board,
            sender,
            waiting: None,
        }
    }

    /// Tries to send the message that waits.
    fn send<A: May, R: Wait>(&mut self, rt: &R, hub: &Hub<A>) -> JobTurn
        requires stage { IsSome self.old.stage }
        requires stream { IfSome self.old.waiting (λ m. m.stream ≡ self.old.sender.stream) }
        requires full { IfSome self.old.waiting IsFullMessage }
        requires ended { (seen_job S.view F.values self.old).running ≡ None → IsSome self.old.waiting }
        requires hub { self.old.sender.hub ≡ hub.now.id }
        requires may { MaySendAll A.may hub.now.capacity self.old.sender.stream }
        ensures sends { Sends A.may hub.now.capacity (seen_job S.view F.values self.old) (seen_job S.view F.values self.new) result }
        ensures only { OnlySends (seen_job S.view F.values self.old) (seen_job S.view F.values self.new) }
        ensures stage { self.new.stage ≡ self.old.stage }
        ensures number { self.new.stream ≡ self.old.stream }
        ensures same { IsSameJob (seen_job S.view F.values self.old) (seen_job S.view F.values self.new) }
        ensures waits { IfSome self.new.waiting (λ m. m.stream ≡ self.new.sender.stream) }
        ensures full { IfSome self.new.waiting IsFullMessage }
    {
        if let Some(message) = self.waiting.take() {
            match self.sender.try_send(rt, hub, message) {
                Ok(()) => {}
                Err(Full(message)) => {
                    self.waiting = Some(message);
                    return JobTurn::Blocked;
                }
            }
        }
        match self.stage {
            Some(Stage::Left(_)) => JobTurn::Over,
            _ => JobTurn::More,
        }
    }

    /// The number of its stream.
    pub fn stream(&self) -> u32
        requires job { (w : Origin V F) × IsJob S.view F.values V.told (standing F.stands F.comes) w self.now }
        ensures { result ≡ (seen_job S.view F.values self.now).sender.stream }
    {
        self.stream
    }

    /// Whether the end was sent.
    pub fn is_over(&self) -> bool
        ensures over { OnTrue result (IsOver (seen_job S.view F.values self.now)) }
        ensures open { OnFalse result (¬ (IsOver (seen_job S.view F.values self.now))) }
    {
        match self.stage {
            Some(Stage::Running(_)) => false,
            _ => self.waiting.is_none(),
        }
    }

    /// Takes a job apart that is over.
    pub fn end(self) -> JobEnd<S, V>
        requires over { IsOver (seen_job S.view F.values self) }
        requires job { (w : Origin V F) × IsJob S.view F.values V.told (standing F.stands F.comes) w self }
        ensures parts { (result.board ≡ (seen_job S.view F.values self).board) × (result.sender ≡ (seen_job S.view F.values self).sender) }
        ensures leaves { (w : Origin V F) → IsJob S.view F.values V.told (standing F.stands F.comes) w self → EndsJob S.view V.told (standing F.stands F.comes) w result }
        ensures fits { (d : S.Desk) → FitsJob S.view V.told S.fits self d → S.fits result.seat d }
    {
        let Job {
            stream: _,
            stage,
            board,
            sender,
            waiting: _,
        } = self;
        match stage {
            Some(
                Stage::Left(
                    Left {
                        seat,
                        shelf,
                        unopened,
                        how,
                    },
                ),
            ) => JobEnd {
                seat,
                board,
                sender,
                shelf,
                unopened,
                how,
            },
            Some(Stage::Running(_running)) => unreachable!(),
            None => unreachable!(),
        }
    }
}

impl<V: Device, S: MarksFront + RowSeat<Pay = Held<V>>, F: PipeState> Job<S, V, F> {
    /// The job of a stream whose stepper found no memory to begin, over its tree and its devices: it has
    /// ended so. The root is closed and the lease cancelled, the whole run is interrupted for want of
    /// memory, and the end waits.
    pub fn unmade(
        stream: u32,
        tree: Tree<S>,
        devices: List<V>,
        seat: BoardSeat,
        board: &Board,
        sender: Sender,
        lease: Lease,
        desk: &mut S::Desk,
    ) -> Job<S, V, F>
    where
        S::Mark: Drop,
        requires sender { (sender.stream ≡ stream) × (sender.sent ≡ []) }
        requires lease { lessee lease ≡ stream }
        requires seat { (seat.view.set ≡ []) × (seat.view.first ≡ false) }
        requires board { seat.board ≡ board.now.id }
        requires context { 0 < board.now.contexts }
        requires fits { Fits S.view S.fits tree desk.old }
        requires unmade { (w : Origin V F) × IsUnmade V.told stream (rows_covered lease) seat (seen S.view tree) devices w }
        ensures job { (w : Origin V F) → IsUnmade V.told stream (rows_covered lease) seat (seen S.view tree) devices w → IsJob S.view F.values V.told (standing F.stands F.comes) w result }
        ensures ended { (seen_job S.view F.values result).running ≡ None }
        ensures sender { (seen_job S.view F.values result).sender ≡ sender }
        ensures waits { (seen_job S.view F.values result).waiting ≡ Some (end_message stream how.Memory) }
        ensures stops { StopsRun seat (seen_job S.view F.values result).board why.Memory }
        ensures fits { FitsJob S.view V.told S.fits result desk.new }
        ensures others { OthersFit S.view S.fits (Inner stream) desk.old desk.new }
    {
        let mut left = leave_unmade::<V, S, F>(tree, devices, lease, desk);
        let mut seat = seat;
        interrupt_run(&mut left.seat, desk, &mut seat, board, How::Memory);
        Job {
            stream,
            stage: Some(Stage::Left(left)),
            board: seat,
            sender,
            waiting: Some(end_of(stream, How::Memory)),
        }
    }

    /// Sends the message that waits, or makes a turn of the stepper and sends what is to be said of it.
    /// It passes the gate and looks at the stream's context before each turn of the stepper.
    pub fn turn<A: May, R: Wait, G: Gate>(
        &mut self,
        rt: &R,
        desk: &mut S::Desk,
        hub: &Hub<A>,
        board: &Board,
        gate: &G,
    ) -> JobTurn
    where
        F::Tables: Drop,
        S::Mark: Drop,
        requires over { ¬ (IsOver (seen_job S.view F.values self.old)) }
        requires job { (w : Origin V F) × IsJob S.view F.values V.told (standing F.stands F.comes) w self.old }
        requires fits { FitsJob S.view V.told S.fits self.old desk.old }
        requires at { IsAt (seen_job S.view F.values self.old) hub.now board.now }
        requires may { MaySendAll A.may hub.now.capacity (seen_job S.view F.values self.old).sender.stream }
        ensures job { (w : Origin V F) → IsJob S.view F.values V.told (standing F.stands F.comes) w self.old → IsJob S.view F.values V.told (standing F.stands F.comes) w self.new }
        ensures same { IsSameJob (seen_job S.view F.values self.old) (seen_job S.view F.values self.new) }
        ensures advances { (seen_job S.view F.values self.old).waiting ≡ None → (s : Stepping V F) × ((seen_job S.view F.values self.old).running ≡ Some s) × Advances (standing F.stands F.comes) V.told s (seen_job S.view F.values self.old) (seen_job S.view F.values self.new) }
        ensures only { IsSome (seen_job S.view F.values self.old).waiting → OnlySends (seen_job S.view F.values self.old) (seen_job S.view F.values self.new) }
        ensures sends { Sends A.may hub.now.capacity (seen_job S.view F.values self.old) (seen_job S.view F.values self.new) result }
        ensures fits { FitsJob S.view V.told S.fits self.new desk.new }
        ensures others { OthersFit S.view S.fits (Inner (seen_job S.view F.values self.old).sender.stream) desk.old desk.new }
    {
        match self.waiting {
            Some(_) => self.send(rt, hub),
            None => {
                self.advance(rt, desk, board, gate);
                self.send(rt, hub)
            }
        }
    }

    /// Takes the stepper one look further, and lets what is to be said of it wait.
    fn advance<R: Wait, G: Gate>(&mut self, rt: &R, desk: &mut S::Desk, board: &Board, gate: &G)
    where
        F::Tables: Drop,
        S::Mark: Drop,
        requires none { self.old.waiting ≡ None }
        requires runs { IsSome (seen_job S.view F.values self.old).running }
        requires job { (w : Origin V F) × IsJob S.view F.values V.told (standing F.stands F.comes) w self.old }
        requires fits { FitsJob S.view V.told S.fits self.old desk.old }
        requires at { (hub : HubSeen) × IsAt (seen_job S.view F.values self.old) hub board.now }
        ensures job { (w : Origin V F) → IsJob S.view F.values V.told (standing F.stands F.comes) w self.old → IsJob S.view F.values V.told (standing F.stands F.comes) w self.new }
        ensures sender { self.new.sender ≡ self.old.sender }
        ensures number { self.new.stream ≡ self.old.stream }
        ensures advances { (s : Stepping V F) × ((seen_job S.view F.values self.old).running ≡ Some s) × Advances (standing F.stands F.comes) V.told s (seen_job S.view F.values self.old) (seen_job S.view F.values self.new) }
        ensures fits { FitsJob S.view V.told S.fits self.new desk.new }
        ensures others { OthersFit S.view S.fits (Inner self.old.sender.stream) desk.old desk.new }
    {
        match self.stage.take() {
            Some(Stage::Running(running)) => {
                let Advanced { stage, message } = running.advance(
                    rt,
                    desk,
                    &mut self.board,
                    board,
                    gate,
                );
                fill(&mut self.stage, stage);
                self.waiting = message;
            }
            Some(Stage::Left(_left)) => unreachable!(),
            None => unreachable!(),
        }
    }

    /// Makes turns until the end was sent; none where it was sent before.
    pub fn finish<A: May, R: Wait, G: Gate>(
        &mut self,
        rt: &R,
        desk: &mut S::Desk,
        hub: &Hub<A>,
        board: &Board,
        gate: &G,
    )
    where
        F::Tables: Drop,
        S::Mark: Drop,
        requires job { (w : Origin V F) × IsJob S.view F.values V.told (standing F.stands F.comes) w self.old }
        requires fits { FitsJob S.view V.told S.fits self.old desk.old }
        requires at { IsAt (seen_job S.view F.values self.old) hub.now board.now }
        requires may { MaySendAll A.may hub.now.capacity (seen_job S.view F.values self.old).sender.stream }
        ensures job { (w : Origin V F) → IsJob S.view F.values V.told (standing F.stands F.comes) w self.old → IsJob S.view F.values V.told (standing F.stands F.comes) w self.new }
        ensures over { IsOver (seen_job S.view F.values self.new) }
        ensures same { IsSameJob (seen_job S.view F.values self.old) (seen_job S.view F.values self.new) }
        ensures fits { FitsJob S.view V.told S.fits self.new desk.new }
        ensures others { OthersFit S.view S.fits (Inner (seen_job S.view F.values self.old).sender.stream) desk.old desk.new }
    {
        'turns: for _ in rt.forever() {
            if self.is_over() {
                return;
            }
            self.turn(rt, desk, hub, board, gate);
        }
        unreachable!()
    }
}
