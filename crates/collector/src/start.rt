//! How streams begin.
ghost use Rattle.std.specs.Prelude.{◌≡◌, ◌≢◌, ℕ, ◌+◌, ◌-◌, ◌^◌, ◌<◌, ◌≤◌, ◌∷◌, [], List, length, take, IfOk, OnErr, Option, None, Some};
ghost use Rattle.chunk_core.specs.Lists.{IsAmong};
ghost use Rattle.csv_pipes.specs.Dictionaries.{Dictionary, values_of};
ghost use Rattle.device_port.specs.Depot.{DepotTold};
ghost use Rattle.device_port.specs.Sink.{SinkTold};
ghost use Rattle.join_report.specs.Stopping.{IsSeated};
ghost use Rattle.pipeline_desc.specs.Meant.{stream_limit};
ghost use Rattle.pipeline_desc.specs.declared.stream.StreamSpec.{StreamSpec};
ghost use Rattle.pull_stepper.specs.Stepping.{IsSupplied};
ghost use Rattle.pull_turns.specs.Piping.{standing};
ghost use Rattle.res_ledger.specs.declared.event.StreamNo.TheVariants.{Inner};
ghost use Rattle.row_seat.specs.Views.{OthersFit};
ghost use Rattle.plan_work.specs.Plans.{visible};
ghost use Rattle.stream_parts.specs.Named.{IsNamed, named_stream};
ghost use Rattle.stream_parts.specs.Parts.{MakesNoParts, MakesParts};
ghost use Rattle.tree_laws.specs.Visits.{IsNewGuest};
ghost use Rattle.collector.specs.Collecting.{GoesOn, IsUnderWay, between, holding};
ghost use Rattle.collector.specs.Members.{members};
ghost use Rattle.dealt_streams.specs.Parts.{MakesUnmade};
ghost use Rattle.collector.specs.Starting.{HasRoomAsGuest, IsAhead, MakesJob, MayBegin, with_seats_out};
ghost use Rattle.scope_tree.specs.Visible.{lessee, rows_covered};

use crate::collector::Collector;
use crate::filled::Filled;
use crate::tables::share_visible;
use crate::waiting::Waiting;
use channel_bounded::HubRef;
use chunk_core::{List, Word};
use csv_pipes::Dicts;
use dealt_streams::Leftover;
use device_port::{Depot, Device, Gate};
use interrupt_ctx::{BoardRef, Stop, Why};
use join_report::Stops;
use join_tree::split_off;
use pipeline_desc::{Plan, events, rows};
use pull_nodes::PipeState;
use pull_stepper::{Held, Stepper, Unmade};
use row_seat::{MarksFront, RowSeat};
use row_shared::SharesDesk;
use scope_tree::{Lease, Tree};
use std::alloc::{AllocError, Global};
use std::sync::Wait;
use std::thread::Scope;
use stream_jobs::Job;
use stream_parts::{StreamParts, make_parts};
use stream_workers::{Place, begin};

/// What a stream is made of, beside its seat.
pub(crate) struct Made<V> {
    pub(crate) tables: Dicts,
    pub(crate) parts: StreamParts<V>,
}

impl<V: Device + Drop> Made<V> {
    /// The devices of a stream that isn't begun.
    fn into_devices(self) -> List<V>
        ensures { result ≡ self.parts.devices }
    {
        let Made { tables: _, parts } = self;
        let StreamParts {
            node: _,
            room: _,
            devices,
        } = parts;
        devices
    }
}

/// Makes what stream k takes, which reads this file if it is one of the list, and shares with it the
/// tables that it may look up.
fn make_one<D: Depot>(
    alloc: Global,
    tables: &Dicts,
    plan: &Plan,
    k: u32,
    path: &Option<Word>,
    depot: &mut D,
) -> Result<Made<D::Dev>, AllocError>
    requires within { k < stream_limit plan.now }
    requires named { IsNamed plan.now k path.now }
    ensures tables { IfOk result (λ made. made.tables ≡ take (visible plan.now k) tables.now) }
    ensures parts { IfOk result (λ made. MakesParts D.Dev.Device.told plan.now k path.now (D.told depot.old) (D.told depot.new) made.parts) }
    ensures unmade { OnErr result (MakesNoParts plan.now k path.now (D.told depot.old) (D.told depot.new)) }
{
    let tables = share_visible(alloc, tables, plan, k)?;
    let parts = make_parts(alloc, plan, k, path, depot)?;
    Ok(Made { tables, parts })
}

/// What the worker of a stream has for itself: a desk, and handles on the queue and on the board.
#[derive(Drop)]
struct Own<S: RowSeat> {
    desk: S::Desk,
    hub: HubRef<Filled>,
    board: BoardRef,
}

/// A further desk, and further handles.
fn share_all<S: SharesDesk>(
    desk: &S::Desk,
    hub: &HubRef<Filled>,
    stops: &Stops,
) -> Result<Own<S>, AllocError>
where
    S::Desk: Drop,
    ensures desk { IfOk result (λ o. (s : S) → S.fits s desk.now → S.fits s o.desk) }
    ensures handles { IfOk result (λ o. (o.hub ≡ hub.now) × (o.board ≡ stops.now.board)) }
{
    let desk = S::share(desk)?;
    let hub = hub.share()?;
    let board = stops.share()?;
    Ok(Own { desk, hub, board })
}

/// What a stream is made of, and what its worker has for itself.
struct Outfit<S: RowSeat, V> {
    made: Made<V>,
    own: Own<S>,
}

/// Makes what stream k takes, with a desk and handles of its own.
fn equip<S: SharesDesk, D: Depot>(
    alloc: Global,
    tables: &Dicts,
    plan: &Plan,
    k: u32,
    path: &Option<Word>,
    depot: &mut D,
    desk: &S::Desk,
    hub: &HubRef<Filled>,
    stops: &Stops,
) -> Result<Outfit<S, D::Dev>, AllocError>
where
    S::Desk: Drop,
    requires within { k < stream_limit plan.now }
    requires named { IsNamed plan.now k path.now }
    ensures tables { IfOk result (λ o. o.made.tables ≡ take (visible plan.now k) tables.now) }
    ensures parts { IfOk result (λ o. MakesParts D.Dev.Device.told plan.now k path.now (D.told depot.old) (D.told depot.new) o.made.parts) }
    ensures desk { IfOk result (λ o. (s : S) → S.fits s desk.now → S.fits s o.own.desk) }
    ensures handles { IfOk result (λ o. (o.own.hub ≡ hub.now) × (o.own.board ≡ stops.now.board)) }
    ensures unmade { OnErr result (MakesNoParts plan.now k path.now (D.told depot.old) (D.told depot.new)) }
{
    let own = share_all::<S>(desk, hub, stops)?;
    let made = make_one(alloc, tables, plan, k, path, depot)?;
    Ok(Outfit { made, own })
}

impl<
    V: Device + Drop + Send,
    S: SharesDesk + MarksFront + RowSeat<Pay = Held<V>> + Drop + Send,
    F: PipeState<Tables = Dicts> + Send,
> Collector<S, V, F>
where
    S::Desk: Drop + Send,
    S::Mark: Drop + Send,
{
    /// Begins the stream that waits, once the outer stream was pulled for the one behind it. Where
    /// it is interrupted by then, or memory is wanting, its lease is cancelled instead.
    pub(crate) fn start<'s, E, R: Wait + Sync + 's, G: Gate + Sync + 's, D: Depot<Dev = V>>(
        &mut self,
        scope: &Scope<'s, E>,
        place: &'s Place<'s, R, G>,
        alloc: Global,
        desk: &mut S::Desk,
        plan: &Plan,
        depot: &mut D,
    )
    where
        V: 's,
        S: 's,
        F: 's,
        S::Desk: 's,
        requires values { (tables : List Dictionary) → F.values tables ≡ values_of tables }
        requires waits { 1 ≤ length self.old.waiting.items }
        requires few { length self.old.jobs.items < plan.now.max_open }
        requires collecting { (sink : SinkTold) × IsUnderWay (members S.view V.told S.fits F.values (standing F.stands F.comes)) plan.now (between 1 (D.told depot.old) sink desk.old self.old) }
        ensures collecting { (sink : SinkTold) → GoesOn (members S.view V.told S.fits F.values (standing F.stands F.comes)) plan.now (between 1 (D.told depot.old) sink desk.old self.old) (between 1 (D.told depot.new) sink desk.new self.new) }
    {
        self.pull::<R, D>(place.rt, alloc, desk, plan, depot);
        if let Some(waiting) = self.waiting.pop_front() {
            self.start_waiting(scope, place, alloc, desk, waiting, plan, depot);
        }
    }

    /// Begins the stream that is next, which was the first that waits.
    fn start_waiting<'s, E, R: Wait + Sync + 's, G: Gate + Sync + 's, D: Depot<Dev = V>>(
        &mut self,
        scope: &Scope<'s, E>,
        place: &'s Place<'s, R, G>,
        alloc: Global,
        desk: &mut S::Desk,
        waiting: Waiting,
        plan: &Plan,
        depot: &mut D,
    )
    where
        V: 's,
        S: 's,
        F: 's,
        S::Desk: 's,
        requires values { (tables : List Dictionary) → F.values tables ≡ values_of tables }
        requires ahead { IsAhead self.old }
        requires few { length self.old.jobs.items < plan.now.max_open }
        requires collecting { (sink : SinkTold) × IsUnderWay (members S.view V.told S.fits F.values (standing F.stands F.comes)) plan.now (holding waiting (between 2 (D.told depot.old) sink desk.old self.old)) }
        ensures collecting { (sink : SinkTold) → GoesOn (members S.view V.told S.fits F.values (standing F.stands F.comes)) plan.now (holding waiting (between 2 (D.told depot.old) sink desk.old self.old)) (between 1 (D.told depot.new) sink desk.new self.new) }
    {
        let Waiting { lease, path } = waiting;
        if self.stops.is_set(1 + self.next) {
            self.pass_over(desk, lease);
            return;
        }
        match equip::<S, D>(
            alloc,
            &self.outer_stream.outer.tables,
            plan,
            self.next,
            &path,
            depot,
            desk,
            &self.hub,
            &self.stops,
        ) {
            Ok(Outfit { made, own }) => {
                self.begin(scope, place, alloc, desk, lease, made, own, plan)
            }
            Err(AllocError) => self.miss(alloc, desk, plan, lease, List::new(alloc)),
        }
    }

    /// There is no memory for the stream that is next: it is never begun, and the run is interrupted.
    /// The devices that were made for it are kept.
    fn miss(
        &mut self,
        alloc: Global,
        desk: &mut S::Desk,
        plan: &Plan,
        lease: Lease,
        unopened: List<V>,
    )
        requires ahead { IsAhead self.old }
        requires collecting { (path : Option (List ℕ)) × (before : DepotTold) × (sink : SinkTold) × IsUnderWay (members S.view V.told S.fits F.values (standing F.stands F.comes)) plan.now (holding (record { lease = lease; path = path }) (between 2 before sink desk.old self.old)) }
        ensures collecting { (path : Option (List ℕ)) (before now : DepotTold) (sink : SinkTold) (s : StreamSpec) → named_stream plan.now self.old.next path ≡ Some s → MakesUnmade V.told s before now unopened → GoesOn (members S.view V.told S.fits F.values (standing F.stands F.comes)) plan.now (holding (record { lease = lease; path = path }) (between 2 before sink desk.old self.old)) (between 1 now sink desk.new self.new) }
    {
        let stop = Stop {
            why: Why::Memory,
            at: 0,
        };
        self.stops.interrupt(0, stop);
        self.report.miss(self.next);
        self.pass_over(desk, lease);
        self.left.push_reserved(Leftover {
            shelf: List::new(alloc),
            unopened,
        });
    }

    /// Splits off the seat of the stream that is next, makes its job, and begins a worker for it.
    fn begin<'s, E, R: Wait + Sync + 's, G: Gate + Sync + 's>(
        &mut self,
        scope: &Scope<'s, E>,
        place: &'s Place<'s, R, G>,
        alloc: Global,
        desk: &mut S::Desk,
        lease: Lease,
        made: Made<V>,
        own: Own<S>,
        plan: &Plan,
    )
    where
        V: 's,
        S: 's,
        F: 's,
        S::Desk: 's,
        requires own { (s : S) → S.fits s desk.old → S.fits s own.desk }
        requires handles { (own.hub ≡ self.old.hub) × (own.board ≡ self.old.stops.board) }
        requires ahead { IsAhead self.old }
        requires may { MayBegin self.old }
        requires few { length self.old.jobs.items < plan.now.max_open }
        requires tables { F.values made.tables ≡ values_of (take (visible plan.now self.old.next) self.old.outer_stream.outer.tables) }
        requires collecting { (path : Option (List ℕ)) × (before now : DepotTold) × (sink : SinkTold) × MakesParts V.told plan.now self.old.next path before now made.parts × IsUnderWay (members S.view V.told S.fits F.values (standing F.stands F.comes)) plan.now (holding (record { lease = lease; path = path }) (between 2 before sink desk.old self.old)) }
        ensures collecting { (path : Option (List ℕ)) (before now : DepotTold) (sink : SinkTold) → MakesParts V.told plan.now self.old.next path before now made.parts → GoesOn (members S.view V.told S.fits F.values (standing F.stands F.comes)) plan.now (holding (record { lease = lease; path = path }) (between 2 before sink desk.old self.old)) (between 1 now sink desk.new self.new) }
    {
        let k = self.next;
        match split_off(
            alloc,
            &mut self.tree,
            desk,
            k,
            rows(plan, k),
            events(plan, k),
        ) {
            Ok(seat) => {
                let job = self.job_of(alloc, desk, seat, lease, made, plan.chunk());
                let Own {
                    desk: own_desk,
                    hub,
                    board,
                } = own;
                let open = begin(scope, place, hub, board, own_desk, job);
                self.jobs.push_back_reserved(open);
                self.next += 1;
            }
            Err(AllocError) => self.miss(alloc, desk, plan, lease, made.into_devices()),
        }
    }

    /// The job of the stream that is next over its seat, which is over at once where there is no memory for its stepper.
    fn job_of(
        &mut self,
        alloc: Global,
        desk: &mut S::Desk,
        seat: S,
        lease: Lease,
        made: Made<V>,
        chunk: u32,
    ) -> Job<S, V, F>
        requires seated { IsSeated self.old.stops }
        requires hub { self.old.receiver.hub ≡ self.old.hub.id }
        requires fresh { ¬ (IsAmong self.old.next self.old.receiver.made) }
        requires context { 1 + self.old.next < self.old.stops.board.contexts }
        requires number { 1 + self.old.next < 2 ^ 32 }
        requires lease { lessee lease ≡ self.old.next }
        requires guest { IsNewGuest (S.view seat) self.old.next (S.view seat).floor (rows_covered lease) }
        requires supplied { IsSupplied V.told made.parts.node made.parts.devices }
        requires room { HasRoomAsGuest (S.view seat) made.parts.node made.parts.room (rows_covered lease) }
        requires chunk { 1 ≤ chunk }
        requires fits { S.fits seat desk.old }
        ensures makes { MakesJob (members S.view V.told S.fits F.values (standing F.stands F.comes)) self.old (S.view seat) (rows_covered lease) made.parts.node made.parts.devices (F.values made.tables) chunk desk.new result }
        ensures same { self.new ≡ with_seats_out self.old }
        ensures others { OthersFit S.view S.fits (Inner self.old.next) desk.old desk.new }
    {
        let Made { tables, parts } = made;
        let StreamParts {
            node,
            room,
            devices,
        } = parts;
        let k = self.next;
        let board = self.stops.seat_for();
        let sender = self.receiver.split(self.hub.get(), k);
        let tree = Tree::new(seat, room);
        match Stepper::new(alloc, node, tree, devices, tables, chunk) {
            Ok(stepper) => Job::new(alloc, k, stepper, board, sender, lease),
            Err(Unmade { tree, devices }) => {
                Job::unmade(
                    k,
                    tree,
                    devices,
                    board,
                    self.stops.board(),
                    sender,
                    lease,
                    desk,
                )
            }
        }
    }
}
