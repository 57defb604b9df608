//! The collector's own state.
ghost use Rattle.std.specs.Prelude.{◌≡◌, ℕ, ◌+◌, ◌-◌, ◌^◌, ◌<◌, ◌≤◌, ◌∷◌, [], List, Some, None, IfOk, length, max};
ghost use Rattle.std.specs.VecDeque.{deque_capacity};
ghost use Rattle.join_report.specs.Calls.{EndsOuter};
ghost use Rattle.join_tree.specs.Mains.{IsMain};
ghost use Rattle.join_tree.specs.Progress.{Progress};
ghost use Rattle.pull_stepper.specs.Held.{FinishesDevice};
ghost use Rattle.res_ledger.specs.declared.event.StreamNo.TheVariants.{Outer as outer_name};
ghost use Rattle.row_seat.specs.Views.{OthersFit};
ghost use Rattle.scope_tree.specs.Released.{away};
ghost use Rattle.scope_tree.specs.Trees.{Fits, seen};
ghost use Rattle.scope_tree.specs.Trace.{owed};
ghost use Rattle.scope_tree.specs.Visible.{lessee, rows_covered};
ghost use Rattle.collector.specs.Starting.{ClosesOuter, IsRoomFor, PassesOver, unpulled};

use crate::filled::Filled;
use crate::parts::parts_of;
use crate::waiting::Waiting;
use channel_bounded::{Hub, HubRef, Receiver};
use chunk_core::{How, List};
use dealt_streams::Leftover;
use device_port::Device;
use join_report::{Report, Stops};
use join_tree::{cancel_waiting, close_outer};
use outer_source::OuterSource;
use outer_stream::OuterPart;
use pipeline_desc::Plan;
use pull_nodes::PipeState;
use pull_stepper::Held;
use row_seat::RowSeat;
use scope_tree::{Lease, Tree};
use std::alloc::{AllocError, Global};
use std::collections::VecDeque;
use stream_workers::Open;

/// The streams that wait, and the jobs of the open ones.
pub(crate) struct Queues<S: RowSeat<Pay = Held<V>>, V: Device, F: PipeState> {
    pub(crate) waiting: VecDeque<Waiting>,
    pub(crate) jobs: VecDeque<Open<S, V, F>>,
}

impl<S: RowSeat<Pay = Held<V>>, V: Device, F: PipeState> Queues<S, V, F> {
    /// Room for two streams that wait and so many jobs.
    fn new(alloc: Global, max_open: u32) -> Result<Queues<S, V, F>, AllocError>
        ensures waiting { IfOk result (λ q. (q.waiting.items ≡ []) × (deque_capacity q.waiting ≡ 2)) }
        ensures jobs { IfOk result (λ q. (q.jobs.items ≡ []) × (deque_capacity q.jobs ≡ max_open)) }
    {
        let waiting = VecDeque::with_capacity(alloc, 2)?;
        match VecDeque::with_capacity(alloc, max_open as usize) {
            Ok(jobs) => Ok(Queues { waiting, jobs }),
            Err(AllocError) => {
                waiting.destroy_empty();
                Err(AllocError)
            }
        }
    }
}

/// What a collector takes for good before the outer stream begins, beside what each stream is made of.
pub struct JoinRoom<S: RowSeat<Pay = Held<V>>, V: Device, F: PipeState> {
    pub(crate) stops: Stops,
    pub(crate) hub: HubRef<Filled>,
    pub(crate) receiver: Receiver,
    pub(crate) report: Report,
    pub(crate) queues: Queues<S, V, F>,
    pub(crate) left: Vec<Leftover<V>>,
    pub(crate) parts: List<OuterPart>,
}

impl<V: Device + Drop, S: RowSeat<Pay = Held<V>>, F: PipeState> JoinRoom<S, V, F> {
    /// Room for the streams of a plan, as many as there may be.
    pub fn new(alloc: Global, plan: &Plan) -> Result<JoinRoom<S, V, F>, AllocError>
        ensures { IfOk result (IsRoomFor plan.now) }
    {
        let streams = plan.stream_limit();
        let stops = Stops::new(alloc, streams)?;
        let (hub, receiver) = Hub::new(alloc, plan.queue())?;
        let hub = HubRef::new(alloc, hub)?;
        let report = Report::new(alloc, streams, plan.take())?;
        let left = Vec::with_capacity(alloc, streams as usize)?;
        let parts = parts_of(alloc, plan)?;
        let queues = Queues::new(alloc, plan.max_open())?;
        Ok(JoinRoom {
            stops,
            hub,
            receiver,
            report,
            queues,
            left,
            parts,
        })
    }
}

/// The outer stream, and the streams that it gave which are open.
pub struct Collector<S: RowSeat<Pay = Held<V>>, V: Device, F: PipeState> {
    pub(crate) tree: Tree<S>,
    pub(crate) stops: Stops,
    pub(crate) hub: HubRef<Filled>,
    pub(crate) receiver: Receiver,
    pub(crate) report: Report,
    /// How the outer stream ended, once it has.
    pub(crate) outer: Option<How>,
    /// The outer stream, which gives the streams, and its parts.
    pub(crate) outer_stream: OuterSource,
    pub(crate) parts: List<OuterPart>,
    /// The first stream that wasn't dealt with.
    pub(crate) next: u32,
    /// The streams that wait, of which there are at most two.
    pub(crate) waiting: VecDeque<Waiting>,
    pub(crate) jobs: VecDeque<Open<S, V, F>>,
    pub(crate) left: Vec<Leftover<V>>,
}

/// What is left of a collector: the main tree, which may be settled, what is reported, how the outer
/// stream ended, how many streams there were, and their devices.
pub struct Ended<S: RowSeat, V> {
    pub tree: Tree<S>,
    pub report: Report,
    pub outer: How,
    pub streams: u32,
    pub left: Vec<Leftover<V>>,
}

impl<V: Device + Drop, S: RowSeat<Pay = Held<V>>, F: PipeState> Collector<S, V, F> {
    /// The collector of a main tree that has begun.
    pub fn new(alloc: Global, tree: Tree<S>, room: JoinRoom<S, V, F>) -> Collector<S, V, F>
        ensures { result ≡ record { tree = tree; stops = room.stops; hub = room.hub; receiver = room.receiver; report = room.report; outer = None; outer_stream = unpulled; parts = room.parts; next = 0; waiting = room.queues.waiting; jobs = room.queues.jobs; left = room.left } }
    {
        let JoinRoom {
            stops,
            hub,
            receiver,
            report,
            queues,
            left,
            parts,
        } = room;
        let Queues { waiting, jobs } = queues;
        Collector {
            tree,
            stops,
            hub,
            receiver,
            report,
            outer: None,
            outer_stream: OuterSource::new(alloc),
            parts,
            next: 0,
            waiting,
            jobs,
            left,
        }
    }

    /// What is left once no stream waits and none is open. The streams are those that the plan describes,
    /// and those of its list that were given.
    pub fn into_ended(self, plan: &Plan) -> Ended<S, V>
        requires waiting { self.waiting.items ≡ [] }
        requires jobs { self.jobs.items ≡ [] }
        ensures tree { result.tree ≡ self.tree }
        ensures report { result.report ≡ self.report }
        ensures outer { (h : How) → self.outer ≡ Some h → result.outer ≡ h }
        ensures streams { result.streams ≡ max (length plan.now.streams) self.outer_stream.outer.leased }
        ensures left { result.left ≡ self.left }
    {
        let described = plan.streams().len() as u32;
        let streams = described.max(self.outer_stream.outer.leased);
        let Collector {
            tree,
            report,
            outer,
            waiting,
            jobs,
            left,
            outer_stream: _,
            stops: _,
            hub: _,
            receiver: _,
            parts: _,
            next: _,
        } = self;
        waiting.destroy_empty();
        jobs.destroy_empty();
        Ended {
            tree,
            report,
            outer: outer.unwrap_or(How::Halted),
            streams,
            left,
        }
    }

    /// Cancels the lease of the stream that is next, which is never begun.
    pub(crate) fn pass_over(&mut self, desk: &mut S::Desk, lease: Lease)
        requires fits { Fits S.view S.fits self.old.tree desk.old }
        requires main { (width n : ℕ) × (p : Progress V) × (us : List (ℕ × List ℕ)) × IsMain (FinishesDevice V.told) width n (seen S.view self.old.tree) p × (p.waits ≡ (lessee lease, rows_covered lease) ∷ us) }
        requires free { owed (seen S.view self.old.tree).seat + 1 + away (rows_covered lease) (seen S.view self.old.tree).seat.opened ≤ (seen S.view self.old.tree).seat.spare }
        requires number { self.old.next < 2 ^ 32 - 1 }
        ensures passes { PassesOver (FinishesDevice V.told) (lessee lease) (rows_covered lease) (seen S.view self.old.tree) (seen S.view self.new.tree) }
        ensures same { self.new ≡ record self.old { tree = self.new.tree; next = self.old.next + 1 } }
        ensures fits { Fits S.view S.fits self.new.tree desk.new }
        ensures others { OthersFit S.view S.fits outer_name desk.old desk.new }
    {
        cancel_waiting(&mut self.tree, desk, lease);
        self.next += 1;
    }

    /// Ends the outer stream, which gives no further stream.
    pub(crate) fn close(&mut self, desk: &mut S::Desk, how: How)
        requires fits { Fits S.view S.fits self.old.tree desk.old }
        requires main { (width n : ℕ) × (p : Progress V) × IsMain (FinishesDevice V.told) width n (seen S.view self.old.tree) p × (p.root ≡ None) }
        ensures closes { ClosesOuter (FinishesDevice V.told) how (seen S.view self.old.tree) (seen S.view self.new.tree) }
        ensures report { EndsOuter how self.old.report self.new.report }
        ensures same { self.new ≡ record self.old { tree = self.new.tree; report = self.new.report; outer = Some how } }
        ensures fits { Fits S.view S.fits self.new.tree desk.new }
        ensures others { OthersFit S.view S.fits outer_name desk.old desk.new }
    {
        close_outer(&mut self.tree, desk, how.exit());
        self.report.outer(how);
        self.outer = Some(how);
    }
}
