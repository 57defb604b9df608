//! What is left of a node.
ghost use Rattle.std.specs.Prelude.{◌≡◌};
ghost use Rattle.pull_turns.specs.Moves.{begins};

use crate::turn::Turn;
use crate::writing::Written;
use chunk_core::{Code, Load};
use known::Known;
use pull_nodes::Node;
use stream_sides::{MergeState, ZipState};

/// Which end of the first part begins the second.
#[derive(Clone, Copy, Debug, PartialEq, Eq)]
pub enum When {
    /// The end with all elements given.
    Done,
    /// A fault.
    Fault,
}

impl When {
    /// This turn of the first part begins the second.
    pub(crate) fn begins(self, turn: &Turn) -> bool
        ensures { result ≡ begins self turn.now }
    {
        match self {
            When::Done => matches!(turn, Turn::Done),
            When::Fault => matches!(turn, Turn::Fault(_)),
        }
    }
}

/// What is left of a node that was begun, over pipes with states of the type `F`.
#[derive(Drop)]
pub enum Rest<F> {
    /// Nothing.
    Nil,
    /// A node that was not entered.
    Start(Node),
    /// A device that is open: its place, and how many bytes it gave.
    Read(u32, u64),
    /// What is left in a scope of its own.
    Within(u32, Box<Rest<F>>),
    /// What is left of the first part, and the second, which runs where the first ends so.
    Then(When, Box<Rest<F>>, Box<Node>),
    /// What is left below a pipe, and the pipe's state.
    Through(Box<Rest<F>>, F),
    /// A pipe whose input has ended, and which has more to give.
    Finishing(F),
    /// A fault that comes next.
    Faulty(Code),
    /// What is left of a pipe that gives groups, and of which no step gets the loads: the size of a
    /// group, and the groups that wait. Each leaves the run in a turn of its own.
    Groups(u32, Option<Load>, Box<Rest<F>>),
    /// How many elements are still wanted.
    Take(u64, Box<Rest<F>>),
    /// A place at which is written what is left gives, and what was written there.
    Into(u32, Known<Written>, Box<Rest<F>>),
    /// Two sides whose lines are paired, and what waits of one of them.
    Zip(ZipState, Box<Rest<F>>, Box<Rest<F>>),
    /// Two sides that are merged, and which is next.
    Merge(MergeState, Box<Rest<F>>, Box<Rest<F>>),
}
