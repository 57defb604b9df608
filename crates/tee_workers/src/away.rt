//! What a worker does with a branch.
ghost use Rattle.std.specs.Prelude.{◌≡◌};
ghost use Rattle.tee_branches.specs.Branches.{IsOver};
ghost use Rattle.tee_workers.specs.Returns.{ComesBack, IsReady};

use crate::site::Site;
use channel_bounded::May;
use chunk_core::Feed;
use device_port::Gate;
use std::snapshot::Snapshot;
use std::sync::Wait;
use std::sync::atomic::Ordering::SeqCst;
use std::thread::Promise;
use stream_workers::Pause;
use tee_branches::{Branch, BranchTurn};

/// A worker gives back the branch that it was given, as the same branch.
#[derive(Drop)]
pub struct AsBegun<F: Feed>(Snapshot<Branch<F>>);

impl<F: Feed> AsBegun<F> {
    /// The promise for this branch.
    pub(crate) fn of(branch: &Branch<F>) -> AsBegun<F>
        ensures { result.0.value ≡ branch.now }
    {
        AsBegun(Snapshot::of(branch))
    }
}

impl<F: Feed> Promise<Branch<F>> for AsBegun<F> {
    ghost use Rattle.tee_workers.specs.Returns.{ComesBack};

    ghost kept_by = { λ p b. ComesBack F.stands F.comes p.0.value b };
}

/// Gives a branch one turn.
pub(crate) fn turn_once<F: Feed, A: May, B: May, R: Wait, G: Gate>(
    site: &Site<'_, R, G, A, B>,
    branch: &mut Branch<F>,
) -> BranchTurn
    requires over { ¬ (IsOver branch.old) }
    requires ready { IsReady F.stands F.comes A.may B.may branch.old site.now.topic.now site.now.hub.now site.now.board.now }
    ensures { ComesBack F.stands F.comes branch.old branch.new }
{
    branch.turn(site.rt, site.topic, site.hub, site.board, site.gate)
}

/// Gives a branch turns until it is over. Where nothing comes, or the queue is full, it waits a little before it
/// tries again.
pub(crate) fn run_branch<F: Feed, A: May, B: May, R: Wait, G: Gate>(
    site: &Site<'_, R, G, A, B>,
    branch: Branch<F>,
) -> Branch<F>
    requires ready { IsReady F.stands F.comes A.may B.may branch site.now.topic.now site.now.hub.now site.now.board.now }
    ensures back { ComesBack F.stands F.comes branch result }
    ensures over { IsOver result }
{
    let mut branch = branch;
    let mut pause = Pause::new();
    'turns: for _ in site.rt.forever() {
        if branch.is_over() {
            return branch;
        }
        match turn_once(site, &mut branch) {
            BranchTurn::Blocked | BranchTurn::Empty => pause.step(site.rt),
            BranchTurn::More | BranchTurn::Over => pause.reset(),
        }
    }
    unreachable!()
}

/// Gives a branch turns until it is over, unless its number is refused: then it comes back as it is.
pub(crate) fn run_unless<F: Feed, A: May, B: May, R: Wait, G: Gate>(
    site: &Site<'_, R, G, A, B>,
    branch: Branch<F>,
) -> Branch<F>
    requires ready { IsReady F.stands F.comes A.may B.may branch site.now.topic.now site.now.hub.now site.now.board.now }
    ensures { ComesBack F.stands F.comes branch result }
{
    if site.refused.load(SeqCst) == u64::from(branch.number()) + 1 {
        return branch;
    }
    run_branch(site, branch)
}
