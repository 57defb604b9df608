//! What the collector receives.
ghost use Rattle.std.specs.Prelude.{◌≡◌, ◌≢◌, ◌⊎◌, ℕ, ◌+◌, ◌-◌, ◌^◌, ◌<◌, ◌≤◌, ◌∷◌, ◌++◌, [], List, true, false, length, vec_capacity, IfNone, IfSome};
ghost use Rattle.std.specs.List.{AllByRecursion};
ghost use Rattle.std.specs.VecDeque.{deque_capacity};
ghost use Rattle.chunk_core.specs.Elements.{elements};
ghost use Rattle.channel_bounded.specs.Ends.{ReceiverSeen};
ghost use Rattle.channel_bounded.specs.Streams.{IsWhole};
ghost use Rattle.channel_bounded.specs.declared.message.Msg.{Msg as MsgTold};
ghost use Rattle.device_port.specs.Depot.{DepotTold};
ghost use Rattle.device_port.specs.Sink.{SinkTold};
ghost use Rattle.join_report.specs.Stopping.{IsSeated, with_seat_in};
ghost use Rattle.join_tree.specs.Given.{GivesMore};
ghost use Rattle.join_tree.specs.Guests.{AreOut, Guest, IsOut};
ghost use Rattle.join_tree.specs.Mains.{IsMain};
ghost use Rattle.join_tree.specs.Progress.{Progress, joining};
ghost use Rattle.pipeline_desc.specs.Meant.{PlanMeant};
ghost use Rattle.pull_stepper.specs.Held.{FinishesDevice};
ghost use Rattle.pull_turns.specs.Piping.{standing};
ghost use Rattle.res_ledger.specs.declared.event.StreamNo.TheVariants.{Inner, Outer};
ghost use Rattle.row_seat.specs.Views.{OthersFit, joined};
ghost use Rattle.scope_tree.specs.Calls.{KeepsScopes, TakesRoom};
ghost use Rattle.scope_tree.specs.Trees.{Fits, seen};
ghost use Rattle.scope_tree.specs.Trace.{owed};
ghost use Rattle.stream_jobs.specs.Jobs.{EndsJob, FitsJob, IsAt, IsJob, seen_job};
ghost use Rattle.stream_jobs.specs.Messages.{end_message, load_message};
ghost use Rattle.stream_jobs.specs.Running.{Origin};
ghost use Rattle.tree_families.specs.Families.{Split};
ghost use Rattle.collector.specs.Collecting.{GoesOn, IsUnderWay, between, having_job, having_received};
ghost use Rattle.collector.specs.Members.{members};
ghost use Rattle.collector.specs.Receiving.{EndsWith, GoesBehind, HasGot, StopsOne, StopsThose, TakesOut};
ghost use Rattle.collector.specs.Streams.{guest_of};

use crate::collector::Collector;
use channel_bounded::{Body, Msg};
use chunk_core::{How, Load};
use dealt_streams::Leftover;
use device_port::{Device, Gate, Sink};
use interrupt_ctx::{Stop, Why};
use join_report::Stops;
use join_tree::take_in;
use pipeline_desc::Plan;
use pull_nodes::PipeState;
use pull_stepper::Held;
use row_seat::{MarksFront, RowSeat};
use std::alloc::Global;
use std::sync::Wait;
use std::thread::Threads;
use stream_jobs::JobEnd;
use stream_workers::Open;

/// Whether the stream is to end with another one.
fn ends_with(plan: &Plan, i: u32, stream: u32) -> bool
    requires { i < length plan.now.streams }
    ensures yes { result ≡ true → EndsWith plan.now stream i }
    ensures no { result ≡ false → ¬ (EndsWith plan.now stream i) }
{
    match plan.stream(i).until {
        Some(k) => k == stream,
        None => false,
    }
}

/// Interrupts the stream i, if it is to end with this one, behind so much of the ledger.
fn stop_until(stops: &mut Stops, plan: &Plan, i: u32, stream: u32, at: u64)
    requires at { at < 2 ^ 60 }
    requires seated { IsSeated stops.old }
    requires context { i + 1 < stops.old.board.contexts }
    requires number { i < length plan.now.streams }
    requires small { i < 2 ^ 32 - 1 }
    ensures stops { StopsOne plan.now stream i at stops.old stops.new }
    ensures seated { IsSeated stops.new }
{
    if ends_with(plan, i, stream) {
        let stop = Stop {
            why: Why::Until,
            at,
        };
        stops.interrupt(1 + i, stop);
    }
}

/// Interrupts each stream that is to end with this one, behind so much of the ledger.
fn stop_those_until(stops: &mut Stops, plan: &Plan, stream: u32, at: u64)
    requires at { at < 2 ^ 60 }
    requires seated { IsSeated stops.old }
    requires contexts { length plan.now.streams < stops.old.board.contexts }
    ensures stops { StopsThose plan.now stream (length plan.now.streams) at stops.old stops.new }
    ensures seated { IsSeated stops.new }
{
    for i in 0..plan.streams().len() as u32 {
        stop_until(stops, plan, i, stream, at);
    }
}

impl<V: Device + Drop, S: MarksFront + RowSeat<Pay = Held<V>>, F: PipeState> Collector<S, V, F>
where
    S::Mark: Drop,
{
    /// Receives the next message, where one is queued.
    pub(crate) fn receive_next<R: Threads + Wait, K: Sink, G: Gate>(
        &mut self,
        rt: &R,
        alloc: Global,
        desk: &mut S::Desk,
        plan: &Plan,
        out: &mut K,
        gate: &G,
    ) -> bool
    where
        F::Tables: Drop,
        requires collecting { (depot : DepotTold) × IsUnderWay (members S.view V.told S.fits F.values (standing F.stands F.comes)) plan.now (between 1 depot (K.told out.old) desk.old self.old) }
        ensures collecting { (depot : DepotTold) → GoesOn (members S.view V.told S.fits F.values (standing F.stands F.comes)) plan.now (between 1 depot (K.told out.old) desk.old self.old) (between 1 depot (K.told out.new) desk.new self.new) }
    {
        match self.receiver.try_recv(rt, self.hub.get()) {
            Some(message) => {
                self.receive(rt, alloc, desk, plan, out, gate, message);
                true
            }
            None => false,
        }
    }

    /// A message came: a load is written as a frame, unless it is too late for that, and a stream that
    /// has ended is taken in.
    fn receive<R: Threads + Wait, K: Sink, G: Gate>(
        &mut self,
        rt: &R,
        alloc: Global,
        desk: &mut S::Desk,
        plan: &Plan,
        out: &mut K,
        gate: &G,
        message: Msg,
    )
    where
        F::Tables: Drop,
        requires collecting { (depot : DepotTold) × (had : ReceiverSeen) × HasGot had message self.old.receiver × IsUnderWay (members S.view V.told S.fits F.values (standing F.stands F.comes)) plan.now (having_received had (between 1 depot (K.told out.old) desk.old self.old)) }
        ensures collecting { (depot : DepotTold) (had : ReceiverSeen) → HasGot had message self.old.receiver → GoesOn (members S.view V.told S.fits F.values (standing F.stands F.comes)) plan.now (having_received had (between 1 depot (K.told out.old) desk.old self.old)) (between 1 depot (K.told out.new) desk.new self.new) }
    {
        let Msg { stream, body } = message;
        match body {
            Body::Load(load) => self.write(alloc, out, stream, &load),
            Body::End(how) => self.end(rt, desk, plan, gate, stream, how),
        }
    }

    /// A load of an open stream came: it is written as a frame, unless it is too late for that.
    fn write<K: Sink>(&mut self, alloc: Global, out: &mut K, stream: u32, load: &Load)
        requires collecting { (p : PlanMeant) × (depot : DepotTold) × (d : S.Desk) × (had : ReceiverSeen) × HasGot had (load_message stream load.now) self.old.receiver × IsUnderWay (members S.view V.told S.fits F.values (standing F.stands F.comes)) p (having_received had (between 1 depot (K.told out.old) d self.old)) }
        ensures collecting { (p : PlanMeant) (depot : DepotTold) (d : S.Desk) (had : ReceiverSeen) → HasGot had (load_message stream load.now) self.old.receiver → GoesOn (members S.view V.told S.fits F.values (standing F.stands F.comes)) p (having_received had (between 1 depot (K.told out.old) d self.old)) (between 1 depot (K.told out.new) d self.new) }
    {
        match self.report.write(alloc, out, stream, load) {
            Some(why) => self.stops.interrupt(0, Stop { why, at: 0 }),
            None => {}
        }
    }

    /// The end of an open stream came: its job is taken out of the open ones, and taken in.
    fn end<R: Threads + Wait, G: Gate>(
        &mut self,
        rt: &R,
        desk: &mut S::Desk,
        plan: &Plan,
        gate: &G,
        stream: u32,
        how: How,
    )
    where
        F::Tables: Drop,
        requires collecting { (depot : DepotTold) × (sink : SinkTold) × (had : ReceiverSeen) × HasGot had (end_message stream how) self.old.receiver × IsUnderWay (members S.view V.told S.fits F.values (standing F.stands F.comes)) plan.now (having_received had (between 1 depot sink desk.old self.old)) }
        ensures collecting { (depot : DepotTold) (sink : SinkTold) (had : ReceiverSeen) → HasGot had (end_message stream how) self.old.receiver → GoesOn (members S.view V.told S.fits F.values (standing F.stands F.comes)) plan.now (having_received had (between 1 depot sink desk.old self.old)) (between 1 depot sink desk.new self.new) }
    {
        match self.take_job(stream) {
            Some(job) => self.end_job(rt, desk, plan, gate, stream, how, job),
            None => unreachable!(),
        }
    }

    /// Takes the job of a stream out of the open ones.
    fn take_job(&mut self, stream: u32) -> Option<Open<S, V, F>>
        requires jobs { AllByRecursion (λ j. (w : Origin V F) × IsJob S.view F.values V.told (standing F.stands F.comes) w j) self.old.jobs.items }
        requires room { length self.old.jobs.items ≤ deque_capacity self.old.jobs }
        ensures some { IfSome result (TakesOut stream self.old.jobs.items self.new.jobs.items) }
        ensures none { IfNone result (AllByRecursion (λ j. j.sender.stream ≢ stream) self.old.jobs.items) }
        ensures room { deque_capacity self.new.jobs ≡ deque_capacity self.old.jobs }
        ensures same { self.new ≡ record self.old { jobs = self.new.jobs } }
    {
        for _passed in 0..self.jobs.len() {
            match self.next_job(stream) {
                Some(job) => return Some(job),
                None => {}
            }
        }
        None
    }

    /// Takes the first open job out, if it is that of the stream; else it is the last one then.
    fn next_job(&mut self, stream: u32) -> Option<Open<S, V, F>>
        requires some { 0 < length self.old.jobs.items }
        requires jobs { AllByRecursion (λ j. (w : Origin V F) × IsJob S.view F.values V.told (standing F.stands F.comes) w j) self.old.jobs.items }
        requires room { length self.old.jobs.items ≤ deque_capacity self.old.jobs }
        ensures some { IfSome result (λ j. (j.sender.stream ≡ stream) × (self.old.jobs.items ≡ j ∷ self.new.jobs.items)) }
        ensures none { IfNone result (GoesBehind stream self.old.jobs.items self.new.jobs.items) }
        ensures room { deque_capacity self.new.jobs ≡ deque_capacity self.old.jobs }
        ensures same { self.new ≡ record self.old { jobs = self.new.jobs } }
    {
        match self.jobs.pop_front() {
            Some(job) => {
                if job.stream() == stream {
                    return Some(job);
                }
                self.jobs.push_back_reserved(job);
                None
            }
            None => unreachable!(),
        }
    }

    /// The end of an open stream came, whose job was taken out of the open ones: what is left of it is
    /// taken in, and the streams that are to end with it are interrupted behind that.
    fn end_job<R: Threads + Wait, G: Gate>(
        &mut self,
        rt: &R,
        desk: &mut S::Desk,
        plan: &Plan,
        gate: &G,
        stream: u32,
        how: How,
        job: Open<S, V, F>,
    )
    where
        F::Tables: Drop,
        requires number { job.sender.stream ≡ stream }
        requires collecting { (depot : DepotTold) × (sink : SinkTold) × (had : ReceiverSeen) × HasGot had (end_message stream how) self.old.receiver × IsUnderWay (members S.view V.told S.fits F.values (standing F.stands F.comes)) plan.now (having_job job (having_received had (between 1 depot sink desk.old self.old))) }
        ensures collecting { (depot : DepotTold) (sink : SinkTold) (had : ReceiverSeen) → HasGot had (end_message stream how) self.old.receiver → GoesOn (members S.view V.told S.fits F.values (standing F.stands F.comes)) plan.now (having_job job (having_received had (between 1 depot sink desk.old self.old))) (between 1 depot sink desk.new self.new) }
    {
        let left = self.finish(rt, desk, gate, job);
        self.take_back(desk, left);
        self.report.end(stream, how);
        let (at, _mark) = self.tree.mark(desk);
        stop_those_until(&mut self.stops, plan, stream, at);
    }

    /// Waits for the worker of a job, runs the job to its end if it was here, and takes it apart.
    fn finish<R: Threads + Wait, G: Gate>(
        &self,
        rt: &R,
        desk: &mut S::Desk,
        gate: &G,
        job: Open<S, V, F>,
    ) -> JobEnd<S, V>
    where
        F::Tables: Drop,
        requires job { (w : Origin V F) × IsJob S.view F.values V.told (standing F.stands F.comes) w job }
        requires fits { FitsJob S.view V.told S.fits job desk.old }
        requires at { IsAt (seen_job S.view F.values job) self.now.hub self.now.stops.board }
        ensures ends { (w : Origin V F) → IsJob S.view F.values V.told (standing F.stands F.comes) w job → EndsJob S.view V.told (standing F.stands F.comes) w result }
        ensures seats { (result.sender.hub ≡ job.sender.hub) × (result.board.board ≡ job.board.board) }
        ensures fits { S.fits result.seat desk.new }
        ensures others { OthersFit S.view S.fits (Inner job.sender.stream) desk.old desk.new }
    {
        let mut job = job.settle(rt);
        job.finish(rt, desk, self.hub.get(), self.stops.board(), gate);
        job.end()
    }

    /// Takes in what is left of a job: its seats and its sender. Its devices are kept.
    fn take_back(&mut self, desk: &mut S::Desk, end: JobEnd<S, V>)
        requires fits { Fits S.view S.fits self.old.tree desk.old × S.fits end.seat desk.old }
        requires main { (width n : ℕ) × (p : Progress V) × (w : Origin V F) × IsMain (FinishesDevice V.told) width n (seen S.view self.old.tree) p × IsOut (seen S.view self.old.tree) p.splits (guest_of w) × EndsJob S.view V.told (standing F.stands F.comes) w end }
        requires seated { IsSeated self.old.stops }
        requires board { end.board.board ≡ self.old.stops.board.id }
        requires hub { (self.old.receiver.hub ≡ self.old.hub.id) × (end.sender.hub ≡ self.old.hub.id) }
        requires room { length self.old.left.items < vec_capacity self.old.left }
        ensures main { (width n : ℕ) (p : Progress V) (w : Origin V F) (e : EndsJob S.view V.told (standing F.stands F.comes) w end) → IsMain (FinishesDevice V.told) width n (seen S.view self.old.tree) p → IsOut (seen S.view self.old.tree) p.splits (guest_of w) → IsMain (FinishesDevice V.told) width n (seen S.view self.new.tree) (joining p e.left.leaves.last) }
        ensures out { (ms : List Split) (w : Origin V F) (gs : List Guest) → EndsJob S.view V.told (standing F.stands F.comes) w end → AreOut (seen S.view self.old.tree) ms (guest_of w ∷ gs) → AreOut (seen S.view self.new.tree) ms gs }
        ensures seen { seen S.view self.new.tree ≡ record (seen S.view self.old.tree) { seat = joined (seen S.view self.old.tree).seat (S.view end.seat) } }
        ensures owed { owed (seen S.view self.new.tree).seat ≡ owed (seen S.view self.old.tree).seat }
        ensures gives { GivesMore [] (seen S.view self.old.tree) (seen S.view self.new.tree) }
        ensures scopes { KeepsScopes (seen S.view self.old.tree) (seen S.view self.new.tree) }
        ensures room { TakesRoom 0 0 (seen S.view self.old.tree) (seen S.view self.new.tree) }
        ensures fits { Fits S.view S.fits self.new.tree desk.new }
        ensures others { (o : S) → (S.view o).by ≢ Outer → (S.view o).by ≢ (S.view end.seat).by → S.fits o desk.old → S.fits o desk.new }
        ensures seated { IsSeated self.new.stops }
        ensures whole { (queued : List MsgTold) × IsWhole end.sender.stream end.sender.sent self.old.receiver.got queued }
        ensures kept { self.new.left.items ≡ self.old.left.items ++ record { shelf = end.shelf; unopened = end.unopened } ∷ [] }
        ensures capacity { vec_capacity self.new.left ≡ vec_capacity self.old.left }
        ensures same { self.new ≡ record self.old { tree = self.new.tree; stops = with_seat_in self.old.stops end.board; receiver = record self.old.receiver { closed = self.old.receiver.closed ++ (end.sender.stream, end.sender.sent) ∷ [] }; left = self.new.left } }
    {
        let JobEnd {
            seat,
            board,
            sender,
            shelf,
            unopened,
            how: _,
        } = end;
        take_in(&mut self.tree, desk, seat);
        self.stops.take_in(board);
        self.receiver.join(self.hub.get(), sender);
        self.left.push_reserved(Leftover { shelf, unopened });
    }
}
