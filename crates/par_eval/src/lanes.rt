//! The queues that a dealer shares with its hands.
ghost use Rattle.std.specs.Prelude.{◌≡◌, ◌∷◌, [], IfOk};
ghost use Rattle.chunk_core.specs.Totals.{IsAt};
ghost use Rattle.channel_bounded.specs.Ends.{HubSeen, ReceiverSeen};
ghost use Rattle.par_eval.specs.Lanes.{IsSized, LaneHubs};

use channel_bounded::{Anything, Hub, May, Receiver};
use std::alloc::{AllocError, Global};
use std::marker::{Model, PhantomData};

/// A fact of a caller's own, beside that a result comes as its load and then its end.
pub struct Paired<A> {
    of: PhantomData<A>,
}

impl<A: May> May for Paired<A> {
    ghost use Rattle.par_eval.specs.Messages.{paired};

    ghost may = { paired A.may };
}

/// The queues of one hand: its tasks, and its results.
#[derive(Drop)]
pub struct Lane<A: May> {
    pub(crate) tasks: Hub<A>,
    pub(crate) results: Hub<Paired<A>>,
}

impl<A: May> Model for Lane<A> {
    ghost use Rattle.par_eval.specs.Lanes.{LaneHubs, IsSized};

    ghost Value = { LaneHubs };

    ghost view = { λ lane. record { tasks = lane.tasks; results = lane.results } };

    ghost invariant = { λ lane. IsSized (record { tasks = lane.tasks; results = lane.results }) };
}

/// The queues of each hand, which threads share.
#[derive(Drop)]
pub struct Lanes<A: May> {
    pub(crate) lanes: Vec<Lane<A>>,
}

/// The queues of a caller who has no fact of its own that they are to carry.
pub type PlainLanes = Lanes<Anything>;

impl<A: May> Model for Lanes<A> {
    ghost use Rattle.std.specs.Prelude.{List};
    ghost use Rattle.par_eval.specs.Lanes.{LaneHubs};

    ghost Value = { List LaneHubs };

    ghost view = { λ lanes. lanes.lanes.items };
}

impl<A: May> Lanes<A> {
    pub(crate) fn lane(&self, number: u32) -> &Lane<A>
        requires { (lane : LaneHubs) × IsAt self.now number lane }
        ensures { IsAt self.now number result.now }
    {
        let lanes = self.lanes.as_slice();
        &lanes[number as usize]
    }
}

/// The queues of a hand, with the receiver of its tasks and that of its results.
pub(crate) struct NewLane<A: May> {
    pub(crate) lane: Lane<A>,
    pub(crate) tasks: Receiver,
    pub(crate) results: Receiver,
}

impl<A: May> Lane<A> {
    pub(crate) fn new(alloc: Global) -> Result<NewLane<A>, AllocError>
        requires may { A.may [] [] }
        ensures tasks { IfOk result (λ new. new.tasks ≡ record { hub = new.lane.tasks.id; got = []; made = []; closed = [] }) }
        ensures results { IfOk result (λ new. new.results ≡ record { hub = new.lane.results.id; got = []; made = []; closed = [] }) }
    {
        let (tasks, tasks_end) = Hub::<A>::new(alloc, 1)?;
        let (results, results_end) = Hub::<Paired<A>>::new(alloc, 2)?;
        Ok(NewLane {
            lane: Lane { tasks, results },
            tasks: tasks_end,
            results: results_end,
        })
    }

    /// The queue of tasks.
    pub(crate) fn tasks(&self) -> &Hub<A>
        ensures hub { result.now ≡ self.now.tasks }
        ensures sized { IsSized self.now }
    {
        &self.tasks
    }

    /// The queue of results.
    pub(crate) fn results(&self) -> &Hub<Paired<A>>
        ensures hub { result.now ≡ self.now.results }
        ensures sized { IsSized self.now }
    {
        &self.results
    }
}
