//! The rounds.
ghost use Rattle.std.specs.Prelude.{◌≡◌, ◌⊎◌, ℕ, ◌-◌, ◌^◌, ◌<◌, ◌≤◌, [], List, length, true, false};
ghost use Rattle.csv_pipes.specs.Dictionaries.{Dictionary, values_of};
ghost use Rattle.device_port.specs.Depot.{DepotTold};
ghost use Rattle.device_port.specs.Sink.{SinkTold};
ghost use Rattle.pipeline_desc.specs.Meant.{PlanMeant};
ghost use Rattle.pull_turns.specs.Piping.{standing};
ghost use Rattle.res_ledger.specs.declared.event.StreamNo.TheVariants.{Inner};
ghost use Rattle.row_seat.specs.Views.{OthersFit};
ghost use Rattle.stream_jobs.specs.Jobs.{FitsJob, IsAt, IsJob, IsSameJob, seen_job};
ghost use Rattle.stream_jobs.specs.Running.{Origin};
ghost use Rattle.collector.specs.Collecting.{GoesOn, IsCollecting, IsUnderWay, between};
ghost use Rattle.collector.specs.Members.{members};
ghost use Rattle.collector.specs.Starting.{IsFresh};

use crate::collector::Collector;
use csv_pipes::Dicts;
use device_port::{Depot, Device, Gate, Sink};
use pipeline_desc::Plan;
use pull_nodes::PipeState;
use pull_stepper::Held;
use row_seat::{MarksFront, RowSeat};
use row_shared::SharesDesk;
use std::alloc::Global;
use std::sync::Wait;
use std::thread::{Scope, Threads};
use stream_workers::{Open, Pause, Place};

impl<V: Device + Drop, S: SharesDesk + MarksFront + RowSeat<Pay = Held<V>>, F: PipeState> Collector<
    S,
    V,
    F,
>
where
    S::Mark: Drop,
{
    /// Receives the next message; where none is queued it gives each open stream that is here a turn.
    /// Whether one came, or such a stream is open.
    fn go_on<R: Threads + Wait, K: Sink, G: Gate>(
        &mut self,
        rt: &R,
        alloc: Global,
        desk: &mut S::Desk,
        plan: &Plan,
        out: &mut K,
        gate: &G,
    ) -> bool
    where
        F::Tables: Drop,
        requires collecting { (depot : DepotTold) × IsUnderWay (members S.view V.told S.fits F.values (standing F.stands F.comes)) plan.now (between 1 depot (K.told out.old) desk.old self.old) }
        ensures collecting { (depot : DepotTold) → GoesOn (members S.view V.told S.fits F.values (standing F.stands F.comes)) plan.now (between 1 depot (K.told out.old) desk.old self.old) (between 1 depot (K.told out.new) desk.new self.new) }
    {
        if self.receive_next(rt, alloc, desk, plan, out, gate) {
            return true;
        }
        self.give_turns(rt, desk, gate)
    }

    /// Gives each open stream that is here a turn. Whether one is.
    fn give_turns<R: Wait, G: Gate>(&mut self, rt: &R, desk: &mut S::Desk, gate: &G) -> bool
    where
        F::Tables: Drop,
        requires collecting { (p : PlanMeant) × (depot : DepotTold) × (sink : SinkTold) × IsUnderWay (members S.view V.told S.fits F.values (standing F.stands F.comes)) p (between 1 depot sink desk.old self.old) }
        ensures collecting { (p : PlanMeant) (depot : DepotTold) (sink : SinkTold) → GoesOn (members S.view V.told S.fits F.values (standing F.stands F.comes)) p (between 1 depot sink desk.old self.old) (between 1 depot sink desk.new self.new) }
    {
        let mut here = false;
        'turns: for _ in 0..self.jobs.len() {
            if self.give_turn(rt, desk, gate) {
                here = true;
            }
        }
        here
    }

    /// Gives the first open stream a turn, if it is here; it is the last one then.
    fn give_turn<R: Wait, G: Gate>(&mut self, rt: &R, desk: &mut S::Desk, gate: &G) -> bool
    where
        F::Tables: Drop,
        requires collecting { (p : PlanMeant) × (depot : DepotTold) × (sink : SinkTold) × IsUnderWay (members S.view V.told S.fits F.values (standing F.stands F.comes)) p (between 1 depot sink desk.old self.old) }
        ensures collecting { (p : PlanMeant) (depot : DepotTold) (sink : SinkTold) → GoesOn (members S.view V.told S.fits F.values (standing F.stands F.comes)) p (between 1 depot sink desk.old self.old) (between 1 depot sink desk.new self.new) }
    {
        match self.jobs.pop_front() {
            Some(job) => {
                let here = job.is_here();
                let job = self.turn(rt, desk, gate, job);
                self.jobs.push_back_reserved(job);
                here
            }
            None => false,
        }
    }

    /// Gives the job a turn, if it is here and not over.
    fn turn<R: Wait, G: Gate>(
        &self,
        rt: &R,
        desk: &mut S::Desk,
        gate: &G,
        job: Open<S, V, F>,
    ) -> Open<S, V, F>
    where
        F::Tables: Drop,
        requires job { (w : Origin V F) × IsJob S.view F.values V.told (standing F.stands F.comes) w job }
        requires fits { FitsJob S.view V.told S.fits job desk.old }
        requires at { IsAt (seen_job S.view F.values job) self.now.hub self.now.stops.board }
        ensures job { (w : Origin V F) → IsJob S.view F.values V.told (standing F.stands F.comes) w job → IsJob S.view F.values V.told (standing F.stands F.comes) w result }
        ensures same { IsSameJob (seen_job S.view F.values job) (seen_job S.view F.values result) }
        ensures fits { FitsJob S.view V.told S.fits result desk.new }
        ensures others { OthersFit S.view S.fits (Inner job.sender.stream) desk.old desk.new }
    {
        job.turn(rt, desk, self.hub.get(), self.stops.board(), gate)
    }
}

impl<
    V: Device + Drop + Send,
    S: SharesDesk + MarksFront + RowSeat<Pay = Held<V>> + Drop + Send,
    F: PipeState<Tables = Dicts> + Send,
> Collector<S, V, F>
where
    S::Desk: Drop + Send,
    S::Mark: Drop + Send,
{
    /// Runs the outer stream and all that it gives to their ends.
    pub fn run<
        's,
        E,
        R: Threads + Wait + Sync + 's,
        D: Depot<Dev = V>,
        K: Sink,
        G: Gate + Sync + 's,
    >(
        &mut self,
        scope: &Scope<'s, E>,
        place: &'s Place<'s, R, G>,
        alloc: Global,
        desk: &mut S::Desk,
        plan: &Plan,
        depot: &mut D,
        out: &mut K,
    )
    where
        V: 's,
        S: 's,
        F: 's,
        S::Desk: 's,
        requires fresh { IsFresh (members S.view V.told S.fits F.values (standing F.stands F.comes)) plan.now desk.old self.old }
        requires values { (tables : List Dictionary) → F.values tables ≡ values_of tables }
        requires sink { (K.told out.old).faults < 2 ^ 64 - 1 }
        ensures collecting { IsCollecting (members S.view V.told S.fits F.values (standing F.stands F.comes)) plan.now (D.told depot.old) (K.told out.old) (between 1 (D.told depot.new) (K.told out.new) desk.new self.new) }
        ensures waiting { self.new.waiting.items ≡ [] }
        ensures jobs { self.new.jobs.items ≡ [] }
    {
        self.open::<R, D>(place.rt, alloc, desk, plan, depot);
        self.run_rounds(scope, place, alloc, desk, plan, depot, out)
    }

    /// Goes round until no stream waits and none is open.
    fn run_rounds<
        's,
        E,
        R: Threads + Wait + Sync + 's,
        D: Depot<Dev = V>,
        K: Sink,
        G: Gate + Sync + 's,
    >(
        &mut self,
        scope: &Scope<'s, E>,
        place: &'s Place<'s, R, G>,
        alloc: Global,
        desk: &mut S::Desk,
        plan: &Plan,
        depot: &mut D,
        out: &mut K,
    )
    where
        V: 's,
        S: 's,
        F: 's,
        S::Desk: 's,
        requires values { (tables : List Dictionary) → F.values tables ≡ values_of tables }
        requires collecting { IsUnderWay (members S.view V.told S.fits F.values (standing F.stands F.comes)) plan.now (between 1 (D.told depot.old) (K.told out.old) desk.old self.old) }
        ensures collecting { GoesOn (members S.view V.told S.fits F.values (standing F.stands F.comes)) plan.now (between 1 (D.told depot.old) (K.told out.old) desk.old self.old) (between 1 (D.told depot.new) (K.told out.new) desk.new self.new) }
        ensures waiting { self.new.waiting.items ≡ [] }
        ensures jobs { self.new.jobs.items ≡ [] }
    {
        let mut pause = Pause::new();
        'rounds: for _ in place.rt.forever() {
            if !self.round(scope, place, alloc, desk, plan, depot, out, &mut pause) {
                return;
            }
        }
        unreachable!()
    }

    /// Begins the stream that waits where there is room for one, and else receives a message. Where none
    /// came it gives the streams that are here a turn each, and waits a little where none is. Whether there
    /// was anything to do.
    fn round<'s, E, R: Threads + Wait + Sync + 's, D: Depot<Dev = V>, K: Sink, G: Gate + Sync + 's>(
        &mut self,
        scope: &Scope<'s, E>,
        place: &'s Place<'s, R, G>,
        alloc: Global,
        desk: &mut S::Desk,
        plan: &Plan,
        depot: &mut D,
        out: &mut K,
        pause: &mut Pause,
    ) -> bool
    where
        V: 's,
        S: 's,
        F: 's,
        S::Desk: 's,
        requires values { (tables : List Dictionary) → F.values tables ≡ values_of tables }
        requires collecting { IsUnderWay (members S.view V.told S.fits F.values (standing F.stands F.comes)) plan.now (between 1 (D.told depot.old) (K.told out.old) desk.old self.old) }
        ensures collecting { GoesOn (members S.view V.told S.fits F.values (standing F.stands F.comes)) plan.now (between 1 (D.told depot.old) (K.told out.old) desk.old self.old) (between 1 (D.told depot.new) (K.told out.new) desk.new self.new) }
        ensures over { result ≡ false → (self.new.waiting.items ≡ []) × (self.new.jobs.items ≡ []) }
    {
        if self.may_begin(plan) {
            self.start(scope, place, alloc, desk, plan, depot);
            return true;
        }
        if self.jobs.len() == 0 {
            return false;
        }
        if self.go_on(place.rt, alloc, desk, plan, out, place.gate) {
            pause.reset();
        } else {
            pause.step(place.rt);
        }
        true
    }

    /// Whether a stream waits, and one more may be open.
    fn may_begin(&self, plan: &Plan) -> bool
        ensures yes { result ≡ true → (1 ≤ length self.now.waiting.items) × (length self.now.jobs.items < plan.now.max_open) }
        ensures no { result ≡ false → (length self.now.waiting.items ≡ 0) ⊎ (plan.now.max_open ≤ length self.now.jobs.items) }
    {
        if self.waiting.len() == 0 {
            return false;
        }
        self.jobs.len() < plan.max_open() as usize
    }
}
