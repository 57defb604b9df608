//! The pulls of the outer stream.
ghost use Rattle.std.specs.Prelude.{◌≡◌, ℕ, ◌+◌, ◌-◌, ◌^◌, ◌<◌, ◌≤◌, ◌∷◌, ◌++◌, [], length, None, Some, IfSome, true, false};
ghost use Rattle.std.specs.VecDeque.{deque_capacity};
ghost use Rattle.device_port.specs.Depot.{DepotTold};
ghost use Rattle.device_port.specs.Sink.{SinkTold};
ghost use Rattle.join_report.specs.Calls.{EndsOuter};
ghost use Rattle.join_report.specs.Stopping.{IsSeated, IsUnknown, view_of};
ghost use Rattle.join_tree.specs.Mains.{IsMain};
ghost use Rattle.join_tree.specs.Progress.{Progress};
ghost use Rattle.pipeline_desc.specs.Meant.{PlanMeant};
ghost use Rattle.pull_stepper.specs.Held.{FinishesDevice};
ghost use Rattle.pull_turns.specs.Piping.{standing};
ghost use Rattle.res_ledger.specs.declared.event.StreamNo.TheVariants.{Outer as outer_name};
ghost use Rattle.row_seat.specs.Fronts.{sight_of};
ghost use Rattle.row_seat.specs.Views.{OthersFit};
ghost use Rattle.scope_tree.specs.Trees.{Fits, seen};
ghost use Rattle.collector.specs.Collecting.{GoesOn, IsCollecting, IsUnderWay, between};
ghost use Rattle.collector.specs.Members.{members};
ghost use Rattle.collector.specs.Starting.{ClosesOuter, ClosesOuterBehind, GivesNoneIfStopped, IsFresh, MaySkip, StopsBehind, cause_of};

use crate::collector::Collector;
use crate::waiting::Waiting;
use chunk_core::{How, Word};
use device_port::{Depot, Device};
use interrupt_ctx::{Stop, Why};
use outer_source::Next;
use pipeline_desc::Plan;
use pull_nodes::PipeState;
use pull_stepper::Held;
use row_seat::{MarksFront, RowSeat};
use scope_tree::Lease;
use std::alloc::Global;
use std::sync::Wait;

/// Whether no frame is wanted.
fn wants_none(most: Option<u64>) -> bool
    ensures none { result ≡ true → most ≡ Some 0 }
    ensures some { result ≡ false → IfSome most (λ n. 1 ≤ n) }
{
    matches!(most, Some(0))
}

/// Why the run is interrupted where the outer stream is over so: it failed, or memory was wanting.
fn why_stopped(how: How) -> Option<Why>
    ensures { result ≡ cause_of how }
{
    match how {
        How::Fault(_) => Some(Why::Fault),
        How::Memory => Some(Why::Memory),
        How::Done | How::Halted => None,
    }
}

impl<V: Device + Drop, S: MarksFront + RowSeat<Pay = Held<V>>, F: PipeState> Collector<S, V, F>
where
    S::Mark: Drop,
{
    /// Passes over the stream that waits, where one does.
    fn skip(&mut self, desk: &mut S::Desk)
        requires collecting { (p : PlanMeant) × (depot : DepotTold) × (sink : SinkTold) × IsUnderWay (members S.view V.told S.fits F.values (standing F.stands F.comes)) p (between 1 depot sink desk.old self.old) }
        requires may { MaySkip self.old }
        ensures collecting { (p : PlanMeant) (depot : DepotTold) (sink : SinkTold) → GoesOn (members S.view V.told S.fits F.values (standing F.stands F.comes)) p (between 1 depot sink desk.old self.old) (between 0 depot sink desk.new self.new) }
        ensures stops { self.new.stops ≡ self.old.stops }
        ensures outer { self.new.outer ≡ self.old.outer }
        ensures given { self.new.outer_stream ≡ self.old.outer_stream }
        ensures jobs { self.new.jobs ≡ self.old.jobs }
    {
        match self.waiting.pop_front() {
            Some(Waiting { lease, path: _ }) => self.pass_over(desk, lease),
            None => {}
        }
    }

    /// Ends the outer stream, and interrupts the whole run behind that.
    fn stop(&mut self, desk: &mut S::Desk, why: Why, how: How)
        requires seated { IsSeated self.old.stops }
        requires context { 0 < self.old.stops.board.contexts }
        requires fits { Fits S.view S.fits self.old.tree desk.old }
        requires main { (width n : ℕ) × (p : Progress V) × IsMain (FinishesDevice V.told) width n (seen S.view self.old.tree) p × (p.root ≡ None) }
        ensures marks { StopsBehind (seen S.view self.new.tree) self.old.stops self.new.stops why }
        ensures seated { IsSeated self.new.stops }
        ensures closes { ClosesOuter (FinishesDevice V.told) how (seen S.view self.old.tree) (seen S.view self.new.tree) }
        ensures report { EndsOuter how self.old.report self.new.report }
        ensures same { self.new ≡ record self.old { tree = self.new.tree; stops = self.new.stops; report = self.new.report; outer = Some how } }
        ensures fits { Fits S.view S.fits self.new.tree desk.new }
        ensures others { OthersFit S.view S.fits outer_name desk.old desk.new }
    {
        self.close(desk, how);
        let (at, _mark) = self.tree.mark(desk);
        self.stops.interrupt(0, Stop { why, at });
    }

    /// Waits until the main tree's seat sees that the ledger has so many events. The mark keeps what it
    /// saw then.
    fn see_so_far<R: Wait>(&mut self, rt: &R, desk: &mut S::Desk, least: u64) -> S::Mark
        requires fits { Fits S.view S.fits self.old.tree desk.old }
        ensures front { least ≤ (S.sight result).front }
        ensures sight { S.sight result ≡ sight_of (seen S.view self.old.tree).seat (S.sight result).front }
        ensures marked { S.marked result desk.new }
        ensures seen { seen S.view self.new.tree ≡ seen S.view self.old.tree }
        ensures same { self.new ≡ record self.old { tree = self.new.tree } }
        ensures fits { Fits S.view S.fits self.new.tree desk.new }
        ensures others { OthersFit S.view S.fits (seen S.view self.old.tree).seat.by desk.old desk.new }
    {
        'looks: for _ in rt.forever() {
            let (front, mark) = self.tree.mark(desk);
            if least <= front {
                return mark;
            }
        }
        unreachable!()
    }

    /// Ends the outer stream, which is interrupted, behind so many events of the ledger.
    fn halt<R: Wait>(&mut self, rt: &R, desk: &mut S::Desk, at: u64)
        requires fits { Fits S.view S.fits self.old.tree desk.old }
        requires main { (width n : ℕ) × (p : Progress V) × IsMain (FinishesDevice V.told) width n (seen S.view self.old.tree) p × (p.root ≡ None) }
        ensures closes { ClosesOuter (FinishesDevice V.told) How.Halted (seen S.view self.old.tree) (seen S.view self.new.tree) }
        ensures behind { ClosesOuterBehind at (seen S.view self.new.tree) }
        ensures report { EndsOuter How.Halted self.old.report self.new.report }
        ensures same { self.new ≡ record self.old { tree = self.new.tree; report = self.new.report; outer = Some How.Halted } }
        ensures fits { Fits S.view S.fits self.new.tree desk.new }
        ensures others { OthersFit S.view S.fits outer_name desk.old desk.new }
    {
        let mark = self.see_so_far(rt, desk, at);
        self.close(desk, How::Halted);
        self.tree.recall(desk, mark);
    }

    /// No frame is wanted: the run is interrupted, and the outer stream ends, which finds that.
    fn want_none<R: Wait>(&mut self, rt: &R, desk: &mut S::Desk, plan: &Plan)
        requires none { plan.now.take ≡ Some 0 }
        requires fresh { IsFresh (members S.view V.told S.fits F.values (standing F.stands F.comes)) plan.now desk.old self.old }
        ensures collecting { (d0 : DepotTold) (s0 : SinkTold) → s0.faults < 2 ^ 64 - 1 → IsCollecting (members S.view V.told S.fits F.values (standing F.stands F.comes)) plan.now d0 s0 (between 1 d0 s0 desk.new self.new) }
    {
        let stop = Stop {
            why: Why::Take,
            at: 0,
        };
        self.stops.interrupt(0, stop);
        match self.stops.look(0) {
            Some(found) => self.halt(rt, desk, found.at),
            None => {}
        }
    }

    /// Pulls the outer stream: the stream that it gives waits too. Where it gives none any more it ends;
    /// and where it failed, or memory was wanting, the run is interrupted, and the stream that waits is
    /// never begun.
    fn draw<D: Depot<Dev = V>>(
        &mut self,
        alloc: Global,
        desk: &mut S::Desk,
        plan: &Plan,
        depot: &mut D,
    )
        requires waits { length self.old.waiting.items ≤ 1 }
        requires few { length self.old.jobs.items + length self.old.waiting.items ≤ plan.now.max_open }
        requires outer { self.old.outer ≡ None }
        requires first { length self.old.waiting.items ≡ 0 → self.old.next ≡ 0 }
        requires unknown { IsUnknown (view_of self.old.stops) 0 }
        requires collecting { (sink : SinkTold) × IsUnderWay (members S.view V.told S.fits F.values (standing F.stands F.comes)) plan.now (between (length self.old.waiting.items) (D.told depot.old) sink desk.old self.old) }
        ensures collecting { (sink : SinkTold) → GoesOn (members S.view V.told S.fits F.values (standing F.stands F.comes)) plan.now (between (length self.old.waiting.items) (D.told depot.old) sink desk.old self.old) (between (1 + length self.old.waiting.items) (D.told depot.new) sink desk.new self.new) }
        ensures ahead { self.new.outer ≡ None → length self.new.waiting.items ≡ 1 + length self.old.waiting.items }
        ensures jobs { self.new.jobs ≡ self.old.jobs }
    {
        match self.outer_stream.pull::<D, S>(
            alloc,
            &mut self.tree,
            desk,
            self.parts.as_slice(),
            plan,
            depot,
        ) {
            Next::Leased(lease) => self.let_wait(lease, None),
            Next::Listed(lease, path) => self.let_wait(lease, Some(path)),
            Next::Over(how) => match why_stopped(how) {
                Some(why) => {
                    self.stop(desk, why, how);
                    self.skip(desk);
                }
                None => self.close(desk, how),
            },
        }
    }

    /// The next stream waits, which has this lease, and reads this file if it is one of the list.
    fn let_wait(&mut self, lease: Lease, path: Option<Word>)
        requires room { length self.old.waiting.items < deque_capacity self.old.waiting }
        ensures items { self.new.waiting.items ≡ self.old.waiting.items ++ record { lease = lease; path = path } ∷ [] }
        ensures room { deque_capacity self.new.waiting ≡ deque_capacity self.old.waiting }
        ensures same { self.new ≡ record self.old { waiting = self.new.waiting } }
    {
        self.waiting.push_back_reserved(Waiting { lease, path });
    }

    /// Pulls the outer stream for the first time, unless no frame is wanted.
    pub(crate) fn open<R: Wait, D: Depot<Dev = V>>(
        &mut self,
        rt: &R,
        alloc: Global,
        desk: &mut S::Desk,
        plan: &Plan,
        depot: &mut D,
    )
        requires fresh { IsFresh (members S.view V.told S.fits F.values (standing F.stands F.comes)) plan.now desk.old self.old }
        ensures collecting { (s0 : SinkTold) → s0.faults < 2 ^ 64 - 1 → IsCollecting (members S.view V.told S.fits F.values (standing F.stands F.comes)) plan.now (D.told depot.old) s0 (between 1 (D.told depot.new) s0 desk.new self.new) }
    {
        if wants_none(plan.take()) {
            self.want_none(rt, desk, plan);
        } else {
            self.draw::<D>(alloc, desk, plan, depot);
        }
    }

    /// Pulls the outer stream once more, unless it has ended: where the run is interrupted the stream
    /// that waits is never begun and the outer stream ends behind what the interruption names, else it
    /// gives the next stream, which waits too.
    pub(crate) fn pull<R: Wait, D: Depot<Dev = V>>(
        &mut self,
        rt: &R,
        alloc: Global,
        desk: &mut S::Desk,
        plan: &Plan,
        depot: &mut D,
    )
        requires few { length self.old.jobs.items < plan.now.max_open }
        requires collecting { (sink : SinkTold) × IsUnderWay (members S.view V.told S.fits F.values (standing F.stands F.comes)) plan.now (between 1 (D.told depot.old) sink desk.old self.old) }
        ensures collecting { (sink : SinkTold) → GoesOn (members S.view V.told S.fits F.values (standing F.stands F.comes)) plan.now (between 1 (D.told depot.old) sink desk.old self.old) (between 2 (D.told depot.new) sink desk.new self.new) }
        ensures ahead { self.new.outer ≡ None → length self.new.waiting.items ≡ 2 }
        ensures stops { GivesNoneIfStopped self.old self.new }
        ensures jobs { self.new.jobs ≡ self.old.jobs }
    {
        if self.outer.is_some() {
            return;
        }
        match self.stops.look(0) {
            Some(found) => {
                self.skip(desk);
                self.halt(rt, desk, found.at);
            }
            None => self.draw::<D>(alloc, desk, plan, depot),
        }
    }
}
