//! A rotation over a tree, from the file that is read to the last close.
ghost use Rattle.std.specs.Prelude.{◌≡◌, ◌≤◌, ◌<◌, ℕ, false, List, length};
ghost use Rattle.device_port.specs.Device.{to_read};
ghost use Rattle.device_port.specs.Depot.{DepotTold};
ghost use Rattle.row_seat.specs.Views.{CanFinish};
ghost use Rattle.scope_tree.specs.Trees.{Fits, seen};
ghost use Rattle.rotate_files.specs.Beginning.{IsUnused};
ghost use Rattle.rotate_files.specs.Told.{HasMade, made_device, source_told};
ghost use Rattle.rotate_run.specs.Rans.{ClosesEither, ClosesRotation, ClosesUnopened, how_of, unopened_of};

use chunk_core::{Code, Exit, How, List, Word};
use device_port::{Depot, Device};
use hot_swap::Hotswap;
use pull_stepper::Held;
use rotate_files::{Stop, begin, copy, end};
use row_seat::RowSeat;
use scope_tree::{Spent, Tree};
use std::alloc::Global;

/// The seat of a rotation that is closed, its devices that were opened, in the order of their closes,
/// how it ended, and the device that couldn't be opened.
pub(crate) struct Closed<S, V> {
    pub(crate) seat: S,
    pub(crate) shelf: List<Spent<Held<V>>>,
    pub(crate) how: How,
    pub(crate) unopened: Option<V>,
}

/// How a rotation ended, and the device that couldn't be opened.
fn how_it_ended<V>(copied: Result<(), Stop<V>>) -> (How, Option<V>)
    ensures how { result.0 ≡ how_of copied }
    ensures unopened { result.1 ≡ unopened_of copied }
{
    match copied {
        Ok(()) => (How::Done, None),
        Err(Stop::Unread) => (How::Fault(Code::Read), None),
        Err(Stop::Unopened(device)) => (How::Fault(Code::Open), Some(device)),
        Err(Stop::Unwritten) => (How::Fault(Code::Write), None),
        Err(Stop::TooMany) => (How::Fault(Code::TooMany), None),
        Err(Stop::Memory) => (How::Memory, None),
    }
}

/// Closes the tree of a file that couldn't be opened to be read.
pub(crate) fn close_unopened<V: Device, S: RowSeat<Pay = Held<V>>>(
    tree: Tree<S>,
    desk: &mut S::Desk,
    device: V,
) -> Closed<S, V>
    requires fits { Fits S.view S.fits tree desk.old }
    requires unused { IsUnused (seen S.view tree) }
    ensures closes { ClosesUnopened V.told device (seen S.view tree) (S.view result.seat) result.shelf result.how result.unopened }
    ensures finish { CanFinish (S.view result.seat) }
    ensures fits { S.fits result.seat desk.new }
{
    let files = Hotswap::new(tree);
    let (seat, shelf) = files.end(desk, Exit::Errored);
    Closed {
        seat,
        shelf,
        how: How::Fault(Code::Open),
        unopened: Some(device),
    }
}

/// Copies the file that was opened into files, and closes all.
pub(crate) fn copy_all<D: Depot, S: RowSeat<Pay = Held<D::Dev>>>(
    alloc: Global,
    tree: Tree<S>,
    desk: &mut S::Desk,
    depot: &mut D,
    device: D::Dev,
    prefix: &Word,
    bytes: u32,
    buffer: &mut [u8],
) -> Closed<S, D::Dev>
    requires fits { Fits S.view S.fits tree desk.old }
    requires unused { IsUnused (seen S.view tree) }
    requires some { (0 < length buffer.old) × (1 ≤ bytes) }
    requires device { (old : DepotTold) × (path : List ℕ) × (D.Dev.Device.told device ≡ source_told old path 0 false 0) × HasMade old path prefix.now 0 (D.told depot.old) }
    ensures closes { (old : DepotTold) (path : List ℕ) → D.Dev.Device.told device ≡ source_told old path 0 false 0 → HasMade old path prefix.now 0 (D.told depot.old) → ClosesRotation D.Dev.Device.told old prefix.now bytes path (D.told depot.new) (S.view result.seat) result.shelf result.how result.unopened }
    ensures finish { CanFinish (S.view result.seat) }
    ensures fits { S.fits result.seat desk.new }
{
    let mut rotation = begin::<D::Dev, S>(tree, desk, device);
    let copied = copy::<D, S>(alloc, &mut rotation, desk, depot, prefix, bytes, buffer);
    let (how, unopened) = how_it_ended(copied);
    let (seat, shelf) = end::<D::Dev, S>(rotation, desk, how.exit());
    Closed {
        seat,
        shelf,
        how,
        unopened,
    }
}

/// Opens the file that is read, copies it into files, and closes all.
pub(crate) fn rotate_over<D: Depot, S: RowSeat<Pay = Held<D::Dev>>>(
    alloc: Global,
    tree: Tree<S>,
    desk: &mut S::Desk,
    depot: &mut D,
    device: D::Dev,
    prefix: &Word,
    bytes: u32,
    buffer: &mut [u8],
) -> Closed<S, D::Dev>
    requires fits { Fits S.view S.fits tree desk.old }
    requires unused { IsUnused (seen S.view tree) }
    requires some { (0 < length buffer.old) × (1 ≤ bytes) }
    requires device { (old : DepotTold) × (path : List ℕ) × (D.Dev.Device.told device ≡ made_device old 0 (to_read path)) × HasMade old path prefix.now 0 (D.told depot.old) }
    ensures closes { (old : DepotTold) (path : List ℕ) → D.Dev.Device.told device ≡ made_device old 0 (to_read path) → HasMade old path prefix.now 0 (D.told depot.old) → ClosesEither D.Dev.Device.told old prefix.now bytes path (D.told depot.new) (S.view result.seat) result.shelf result.how result.unopened }
    ensures finish { CanFinish (S.view result.seat) }
    ensures fits { S.fits result.seat desk.new }
{
    let mut device = device;
    if device.open().is_err() {
        return close_unopened::<D::Dev, S>(tree, desk, device);
    }
    copy_all::<D, S>(alloc, tree, desk, depot, device, prefix, bytes, buffer)
}
