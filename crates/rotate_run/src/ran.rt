//! A rotation in its room, from the open to the last close.
ghost use Rattle.std.specs.Prelude.{◌≡◌, ◌≤◌, ℕ, List, [], ◌∷◌, false, vec_capacity};
ghost use Rattle.res_ledger.specs.declared.event.StreamNo.TheVariants.{Inner};
ghost use Rattle.run_rules.specs.Facts.{is_memory};
ghost use Rattle.device_port.specs.Device.{to_read};
ghost use Rattle.device_port.specs.Depot.{DepotTold};
ghost use Rattle.rotate_files.specs.Told.{HasMade, made_device};
ghost use Rattle.rotate_run.specs.Rans.{RanRotation};
ghost use Rattle.rotate_run.specs.Rooms.{IsRoom};

use crate::closed::{Closed, rotate_over};
use crate::room::Room;
use cat_run::Outcome;
use chunk_core::{How, List, Word};
use device_port::{Depot, Device};
use pull_stepper::Held;
use res_ledger::{Ledger, StreamNo};
use row_seat::{PlainSeat, RowSeat};
use run_rules::EndOf;
use scope_tree::{Spent, Tree};
use std::alloc::Global;

/// What a rotation did, and its devices: those that were opened, and the one that couldn't be.
pub(crate) struct Ran<V> {
    pub(crate) outcome: Outcome,
    pub(crate) shelf: List<Spent<Held<V>>>,
    pub(crate) unopened: Option<V>,
}

/// What stream 0 did that ended so, in the room that was made for its end.
fn outcome_of(ends: Vec<EndOf>, how: How, ledger: Ledger) -> Outcome
    requires none { ends.items ≡ [] }
    requires room { vec_capacity ends ≡ 1 }
    ensures ends { result.ends ≡ record { who = Inner 0; how = how } ∷ [] }
    ensures ledger { result.ledger ≡ ledger }
    ensures sink { result.sink_failed ≡ false }
    ensures memory { result.memory ≡ is_memory how }
{
    let mut ends = ends;
    let end = EndOf {
        who: StreamNo::Inner(0),
        how,
    };
    ends.push(end).unwrap();
    Outcome {
        ends: List::of_vec(ends),
        ledger,
        sink_failed: false,
        memory: matches!(how, How::Memory),
    }
}

/// Opens the file that is read, copies it, and closes all.
pub(crate) fn run_rotation<D: Depot>(
    alloc: Global,
    room: Room<D::Dev>,
    device: D::Dev,
    depot: &mut D,
    prefix: &Word,
    bytes: u32,
) -> Ran<D::Dev>
    requires room { IsRoom room }
    requires some { 1 ≤ bytes }
    requires device { (old : DepotTold) × (path : List ℕ) × (D.Dev.Device.told device ≡ made_device old 0 (to_read path)) × HasMade old path prefix.now 0 (D.told depot.old) }
    ensures { (old : DepotTold) (path : List ℕ) → D.Dev.Device.told device ≡ made_device old 0 (to_read path) → HasMade old path prefix.now 0 (D.told depot.old) → RanRotation D.Dev.Device.told old prefix.now bytes path (D.told depot.new) result }
{
    let Room {
        seat,
        mut table,
        scopes,
        ends,
        mut buffer,
    } = room;
    let tree = Tree::new(seat, scopes);
    let closed = rotate_over::<D, PlainSeat<Held<D::Dev>>>(
        alloc,
        tree,
        &mut table,
        depot,
        device,
        prefix,
        bytes,
        &mut buffer,
    );
    let Closed {
        seat,
        shelf,
        how,
        unopened,
    } = closed;
    let ledger = seat.finish(&mut table);
    Ran {
        outcome: outcome_of(ends, how, ledger),
        shelf,
        unopened,
    }
}
