//! How a worker begins.
ghost use Rattle.std.specs.Prelude.{◌≡◌};
ghost use Rattle.tee_workers.specs.Hiring.{IsHired};
ghost use Rattle.tee_workers.specs.Returns.{ComesBack, IsReady};

use crate::away::{AsBegun, run_unless};
use crate::hired::Hired;
use crate::site::Site;
use channel_bounded::May;
use chunk_core::Feed;
use device_port::Gate;
use std::sync::Wait;
use std::sync::atomic::Ordering::SeqCst;
use std::thread::Scope;
use tee_branches::Branch;

/// Begins a worker for a branch. Where no thread can be started the branch stays here.
pub fn begin<
    's,
    E,
    F: Feed + Send + 's,
    A: May + Sync + 's,
    B: May + Sync + 's,
    R: Wait + Sync + 's,
    G: Gate + Sync + 's,
>(scope: &Scope<'s, E>, site: &'s Site<'s, R, G, A, B>, branch: Branch<F>) -> Hired<F>
    requires ready { IsReady F.stands F.comes A.may B.may branch site.now.topic.now site.now.hub.now site.now.board.now }
    ensures { IsHired F.stands F.comes branch result }
{
    let number = branch.number();
    let promise = AsBegun::of(&branch);
    let started = scope.spawn_with(
        promise,
        move || -> Branch<F>
            requires { IsReady F.stands F.comes A.may B.may branch site.now.topic.now site.now.hub.now site.now.board.now }
            ensures { ComesBack F.stands F.comes branch result }
        { run_unless(site, branch) },
    );
    match started {
        Ok(handle) => Hired::Away(handle),
        Err(back) => {
            site.refused.store(u64::from(number) + 1, SeqCst);
            let branch = (back.value)();
            site.refused.store(0, SeqCst);
            Hired::Here(branch)
        }
    }
}
