//! A caller of workers that sees their public clauses alone.
ghost use Rattle.pull_turns.specs.Piping.{standing};
ghost use Rattle.stream_workers.specs.Returns.{ComesBack, IsReady};

use channel_bounded::{HubRef, May};
use device_port::{Device, Gate};
use interrupt_ctx::BoardRef;
use pull_nodes::PipeState;
use pull_stepper::Held;
use row_seat::{MarksFront, RowSeat};
use row_shared::SharesDesk;
use std::sync::Wait;
use std::thread;
use std::thread::Threads;
use stream_jobs::Job;
use stream_workers::{Place, begin};

/// What a worker takes.
#[derive(Drop)]
pub struct Hired<S: RowSeat, V, F: PipeState, A: May> {
    pub hub: HubRef<A>,
    pub board: BoardRef,
    pub desk: S::Desk,
    pub job: Job<S, V, F>,
}

/// Two jobs at once, each with a worker of its own, from which they come back.
pub fn run_both<
    A: May + Send + Sync,
    S: SharesDesk + MarksFront + RowSeat<Pay = Held<V>> + Drop + Send,
    V: Device + Drop + Send,
    F: PipeState + Send,
    R: Threads + Wait + Sync,
    G: Gate + Sync,
>(
    place: &Place<'_, R, G>,
    first: Hired<S, V, F, A>,
    second: Hired<S, V, F, A>,
) -> (Job<S, V, F>, Job<S, V, F>)
where
    S::Desk: Drop + Send,
    S::Mark: Drop + Send,
    F::Tables: Drop + Send,
    requires first { IsReady S.view F.values V.told (standing F.stands F.comes) S.fits A.may first.job first.desk first.hub first.board }
    requires second { IsReady S.view F.values V.told (standing F.stands F.comes) S.fits A.may second.job second.desk second.hub second.board }
    ensures first { ComesBack S.view F.values V.told (standing F.stands F.comes) S.fits first.job result.0 }
    ensures second { ComesBack S.view F.values V.told (standing F.stands F.comes) S.fits second.job result.1 }
{
    thread::scope(
        thread::scope_env(),
        place.rt,
        move |scope| -> (Job<S, V, F>, Job<S, V, F>)
            requires { IsReady S.view F.values V.told (standing F.stands F.comes) S.fits A.may first.job first.desk first.hub first.board × IsReady S.view F.values V.told (standing F.stands F.comes) S.fits A.may second.job second.desk second.hub second.board }
            ensures { ComesBack S.view F.values V.told (standing F.stands F.comes) S.fits first.job result.0 × ComesBack S.view F.values V.told (standing F.stands F.comes) S.fits second.job result.1 }
        {
            let Hired {
                hub,
                board,
                desk,
                job,
            } = first;
            let one = begin(scope, place, hub, board, desk, job);
            let Hired {
                hub,
                board,
                desk,
                job,
            } = second;
            let two = begin(scope, place, hub, board, desk, job);
            let one = one.settle(place.rt);
            (one, two.settle(place.rt))
        },
    )
}
