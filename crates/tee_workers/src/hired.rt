//! A branch that is here or with a worker.
ghost use Rattle.std.specs.Prelude.{◌≡◌};
ghost use Rattle.tee_branches.specs.Branches.{IsOver};
ghost use Rattle.tee_branches.specs.declared.branch.Branch.{Branch as ABranch};
ghost use Rattle.tee_workers.specs.Hiring.{IsHired};
ghost use Rattle.tee_workers.specs.Returns.{ComesBack, IsReady};

use crate::away::{AsBegun, run_branch, turn_once};
use crate::site::Site;
use channel_bounded::May;
use chunk_core::Feed;
use device_port::Gate;
use std::sync::Wait;
use std::thread::{PromisedHandle, Threads};
use tee_branches::Branch;

/// A branch that is here, or with a worker.
#[derive(Drop)]
pub enum Hired<F: Feed> {
    Here(Branch<F>),
    Away(PromisedHandle<Branch<F>, AsBegun<F>>),
}

/// Gives a branch a turn, unless it is over.
fn step<F: Feed, A: May, B: May, R: Wait, G: Gate>(
    site: &Site<'_, R, G, A, B>,
    branch: &mut Branch<F>,
)
    requires ready { IsReady F.stands F.comes A.may B.may branch.old site.now.topic.now site.now.hub.now site.now.board.now }
    ensures { ComesBack F.stands F.comes branch.old branch.new }
{
    if !branch.is_over() {
        turn_once(site, branch);
    }
}

impl<F: Feed> Hired<F> {
    /// Gives a branch that is here a turn, unless it is over.
    pub fn turn<A: May, B: May, R: Wait, G: Gate>(&mut self, site: &Site<'_, R, G, A, B>)
        requires at { (first : ABranch F) × IsHired F.stands F.comes first self.old × IsReady F.stands F.comes A.may B.may first site.now.topic.now site.now.hub.now site.now.board.now }
        ensures hired { (first : ABranch F) → IsHired F.stands F.comes first self.old → IsHired F.stands F.comes first self.new }
    {
        match self {
            Hired::Here(branch) => step(site, branch),
            Hired::Away(_) => {}
        }
    }

    /// The branch, once it is over: its worker is joined, or it makes turns here.
    pub fn settle<A: May, B: May, R: Threads + Wait, G: Gate>(
        self,
        site: &Site<'_, R, G, A, B>,
    ) -> Branch<F>
        requires at { (first : ABranch F) × IsHired F.stands F.comes first self × IsReady F.stands F.comes A.may B.may first site.now.topic.now site.now.hub.now site.now.board.now }
        ensures back { (first : ABranch F) → IsHired F.stands F.comes first self → ComesBack F.stands F.comes first result }
        ensures over { IsOver result }
    {
        match self {
            Hired::Here(branch) => run_branch(site, branch),
            Hired::Away(handle) => run_branch(site, handle.join(site.rt)),
        }
    }
}
