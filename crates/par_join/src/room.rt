//! The room that a run takes.
ghost use Rattle.std.specs.Prelude.{◌≡◌, ◌+◌, ◌^◌, ◌<◌, ◌≤◌, IfOk};
ghost use Rattle.collector.specs.Starting.{child_scopes};
ghost use Rattle.pipeline_desc.specs.Sound.{IsSoundPlan};
ghost use Rattle.row_shared.specs.Seats.{SharedFits, shown};
ghost use Rattle.par_join.specs.Room.{IsRoomOfRun, all_events, all_rows};

use device_port::Device;
use pipeline_desc::{Plan, events, outer_rows, rows};
use pull_stepper::Held;
use res_ledger::StreamNo;
use row_shared::{SharedSeat, TableRef};
use scope_tree::Room;
use std::alloc::{AllocError, Global};

/// The room that the outer stream takes before its first event: its seat with all rows and all
/// events of the run, and room for its tree.
#[derive(Drop)]
pub(crate) struct RunRoom<S, P> {
    pub(crate) seat: S,
    pub(crate) scopes: Room<P>,
}

/// A seat of the outer stream in its room, and a handle on the table at which it sits, which threads share.
type SharedRoom<V> = (RunRoom<SharedSeat<Held<V>>, Held<V>>, TableRef<Held<V>>);

/// Makes room for the rows, the seats and the events of a plan's streams, as many as there may be.
pub(crate) fn make_room<V: Device + Drop>(
    alloc: Global,
    plan: &Plan,
) -> Result<SharedRoom<V>, AllocError>
    requires limits { IsSoundPlan plan.now }
    ensures { IfOk result (λ made. IsRoomOfRun shown plan.now made.0 × SharedFits made.0.seat made.1) }
{
    let scopes = Room::new(alloc, 1 + child_scopes(plan), outer_rows(plan))?;
    let (seat, table) = SharedSeat::new(
        alloc,
        StreamNo::Outer,
        all_rows(plan),
        plan.stream_limit() + 1,
        all_events(plan),
    )?;
    Ok((RunRoom { seat, scopes }, table))
}

/// How many scopes the outer stream opens: one for each group, and one for the list.
fn child_scopes(plan: &Plan) -> u32
    ensures value { result ≡ child_scopes plan.now }
    ensures few { result ≤ 17 }
{
    let listed = match plan.list() {
        Some(_) => 1,
        None => 0,
    };
    plan.groups().len() as u32 + listed
}

/// How many rows the outer stream and the streams of a plan have, as many as there may be.
fn all_rows(plan: &Plan) -> u32
    ensures { result ≡ all_rows plan.now }
{
    match plan.stream_limit() {
        0 => outer_rows(plan),
        count => rows(plan, count - 1).to,
    }
}

/// How many events a run of a plan notes at most.
fn all_events(plan: &Plan) -> u64
    ensures events { result ≡ all_events plan.now }
    ensures few { result < 2 ^ 40 }
{
    let of_rows = 2 * u64::from(outer_rows(plan));
    let of_scopes = 2 * u64::from(child_scopes(plan));
    let mut count = 1 + of_rows + of_scopes;
    for k in 0..plan.stream_limit() {
        count += 1 + events(plan, k);
    }
    count
}
