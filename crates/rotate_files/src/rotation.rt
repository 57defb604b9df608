//! Bytes are given to files, of which each takes so many.
ghost use Rattle.std.specs.Prelude.{◌≡◌, ◌+◌, ◌≤◌, ◌<◌, ◌-◌, ◌^◌, ℕ, List, [], length, Ok, IfOk};
ghost use Rattle.device_port.specs.Depot.{DepotTold};
ghost use Rattle.rotate_files.specs.Rotating.{IsInStep, IsRotation};
ghost use Rattle.rotate_files.specs.Stops.{GivesAll, GivesSome, NextFile};
ghost use Rattle.rotate_files.specs.Visible.{FitsFiles, files_of, held_file, room_of, seen_files};

use crate::name::file_path;
use crate::row::write_row;
use crate::stop::Stop;
use chunk_core::Word;
use device_port::{Depot, Device, Failed, Mode};
use hot_swap::Hotswap;
use pull_stepper::Held;
use row_seat::RowSeat;
use std::alloc::Global;

/// The most files.
const MOST_FILES: u32 = 1024;

/// Files of so many bytes each, of which one is written at a time.
pub struct Rotation<S: RowSeat> {
    pub(crate) files: Hotswap<S>,
    pub(crate) count: u32,
    pub(crate) left: u32,
}

/// Makes the next file, opens it, and puts it in the place of the last one.
fn next_file<D: Depot, S: RowSeat<Pay = Held<D::Dev>>>(
    alloc: Global,
    rotation: &mut Rotation<S>,
    desk: &mut S::Desk,
    depot: &mut D,
    prefix: &Word,
    bytes: u32,
) -> Result<(), Stop<D::Dev>>
    requires fits { FitsFiles S.view S.fits rotation.old desk.old }
    requires rotation { IsRotation D.Dev.Device.told prefix.now bytes (seen_files S.view rotation.old) (held_file rotation.old) (D.told depot.old) (files_of rotation.old) 0 }
    requires full { room_of rotation.old ≡ 0 }
    ensures next { (old : DepotTold) (path given : List ℕ) (src : D.Dev) → IsInStep D.Dev.Device.told old prefix.now bytes path (seen_files S.view rotation.old) (held_file rotation.old) (D.told depot.old) (files_of rotation.old) 0 given src → NextFile D.Dev.Device.told old prefix.now bytes path (seen_files S.view rotation.new) (held_file rotation.new) (D.told depot.new) (files_of rotation.new) given src result }
    ensures left { IfOk result (λ _. (room_of rotation.new ≡ bytes) × (1 ≤ files_of rotation.new)) }
    ensures fits { FitsFiles S.view S.fits rotation.new desk.new }
{
    if rotation.count == MOST_FILES {
        return Err(Stop::TooMany);
    }
    let path = file_path(alloc, prefix, rotation.count)?;
    let mut device = depot.make(alloc, &path, Mode::Write)?;
    if device.open().is_err() {
        return Err(Stop::Unopened(device));
    }
    rotation.count += 1;
    rotation.left = bytes;
    rotation.files.swap(desk, rotation.count, Held::new(device));
    Ok(())
}

/// Writes a front of the piece to the last file, as much as it takes, and tells its length.
fn write_last<V: Device, S: RowSeat<Pay = Held<V>>>(
    rotation: &mut Rotation<S>,
    piece: &[u8],
) -> Result<usize, Stop<V>>
    requires some { 0 < length piece.now }
    requires left { 1 ≤ room_of rotation.old }
    requires rotation { (prefix : List ℕ) × (n : ℕ) × (now : DepotTold) × IsRotation V.told prefix n (seen_files S.view rotation.old) (held_file rotation.old) now (files_of rotation.old) (room_of rotation.old) }
    ensures gives { (old : DepotTold) (prefix : List ℕ) (n : ℕ) (path : List ℕ) (now : DepotTold) (given : List ℕ) (src : V) → IsInStep V.told old prefix n path (seen_files S.view rotation.old) (held_file rotation.old) now (files_of rotation.old) (room_of rotation.old) given src → GivesSome V.told old prefix n path (seen_files S.view rotation.new) (held_file rotation.new) now (files_of rotation.new) (room_of rotation.new) given piece.now src result }
    ensures count { IfOk result (λ k. (1 ≤ k) × (k ≤ length piece.now)) }
    ensures left { room_of rotation.new ≤ room_of rotation.old }
    ensures less { IfOk result (λ k. room_of rotation.new < room_of rotation.old) }
    ensures fits { (d : S.Desk) → FitsFiles S.view S.fits rotation.old d → FitsFiles S.view S.fits rotation.new d }
{
    let count = piece.len().min(rotation.left as usize);
    match write_row::<V, S>(&mut rotation.files, rotation.count, &piece[..count]) {
        Ok(()) => {
            rotation.left -= count as u32;
            Ok(count)
        }
        Err(Failed) => Err(Stop::Unwritten),
    }
}

/// Gives a front of the piece to the last file, or where that is full to the next one, and tells its
/// length.
fn give_some<D: Depot, S: RowSeat<Pay = Held<D::Dev>>>(
    alloc: Global,
    rotation: &mut Rotation<S>,
    desk: &mut S::Desk,
    depot: &mut D,
    prefix: &Word,
    bytes: u32,
    piece: &[u8],
) -> Result<usize, Stop<D::Dev>>
    requires fits { FitsFiles S.view S.fits rotation.old desk.old }
    requires some { (0 < length piece.now) × (1 ≤ bytes) }
    requires rotation { IsRotation D.Dev.Device.told prefix.now bytes (seen_files S.view rotation.old) (held_file rotation.old) (D.told depot.old) (files_of rotation.old) (room_of rotation.old) }
    ensures gives { (old : DepotTold) (path given : List ℕ) (src : D.Dev) → IsInStep D.Dev.Device.told old prefix.now bytes path (seen_files S.view rotation.old) (held_file rotation.old) (D.told depot.old) (files_of rotation.old) (room_of rotation.old) given src → GivesSome D.Dev.Device.told old prefix.now bytes path (seen_files S.view rotation.new) (held_file rotation.new) (D.told depot.new) (files_of rotation.new) (room_of rotation.new) given piece.now src result }
    ensures count { IfOk result (λ k. (1 ≤ k) × (k ≤ length piece.now)) }
    ensures left { IfOk result (λ _. room_of rotation.old ≤ bytes → room_of rotation.new < bytes) }
    ensures fits { FitsFiles S.view S.fits rotation.new desk.new }
{
    if rotation.left > 0 {
        return write_last::<D::Dev, S>(rotation, piece);
    }
    next_file(alloc, rotation, desk, depot, prefix, bytes)?;
    write_last::<D::Dev, S>(rotation, piece)
}

/// Gives all the bytes to files.
pub(crate) fn give<D: Depot, S: RowSeat<Pay = Held<D::Dev>>>(
    alloc: Global,
    rotation: &mut Rotation<S>,
    desk: &mut S::Desk,
    depot: &mut D,
    prefix: &Word,
    bytes: u32,
    piece: &[u8],
) -> Result<(), Stop<D::Dev>>
    requires fits { FitsFiles S.view S.fits rotation.old desk.old }
    requires some { 1 ≤ bytes }
    requires left { room_of rotation.old < bytes }
    requires rotation { IsRotation D.Dev.Device.told prefix.now bytes (seen_files S.view rotation.old) (held_file rotation.old) (D.told depot.old) (files_of rotation.old) (room_of rotation.old) }
    ensures gives { (old : DepotTold) (path given : List ℕ) (src : D.Dev) → IsInStep D.Dev.Device.told old prefix.now bytes path (seen_files S.view rotation.old) (held_file rotation.old) (D.told depot.old) (files_of rotation.old) (room_of rotation.old) given src → GivesAll D.Dev.Device.told old prefix.now bytes path (seen_files S.view rotation.new) (held_file rotation.new) (D.told depot.new) (files_of rotation.new) (room_of rotation.new) given piece.now src result }
    ensures left { IfOk result (λ _. room_of rotation.new < bytes) }
    ensures fits { FitsFiles S.view S.fits rotation.new desk.new }
{
    let mut at = 0;
    while at < piece.len() {
        at += give_some(alloc, rotation, desk, depot, prefix, bytes, &piece[at..])?;
    }
    Ok(())
}
