//! A file is copied into files.
ghost use Rattle.std.specs.Prelude.{◌≡◌, ◌<◌, ◌≤◌, ℕ, List, Bool, length};
ghost use Rattle.device_port.specs.Depot.{DepotTold};
ghost use Rattle.rotate_files.specs.Copies.{Copies, IsCopying};
ghost use Rattle.rotate_files.specs.Visible.{FitsFiles, files_of, held_file, room_of, seen_files};

use crate::rotation::{Rotation, give};
use crate::row::read_row;
use crate::stop::Stop;
use chunk_core::Word;
use device_port::{Depot, Failed};
use pull_stepper::Held;
use row_seat::RowSeat;
use std::alloc::Global;

/// Copies what is left of the device in row 0 into files, in reads of at most the buffer's length.
pub fn copy<D: Depot, S: RowSeat<Pay = Held<D::Dev>>>(
    alloc: Global,
    rotation: &mut Rotation<S>,
    desk: &mut S::Desk,
    depot: &mut D,
    prefix: &Word,
    bytes: u32,
    buffer: &mut [u8],
) -> Result<(), Stop<D::Dev>>
    requires fits { FitsFiles S.view S.fits rotation.old desk.old }
    requires some { (0 < length buffer.old) × (1 ≤ bytes) }
    requires left { room_of rotation.old < bytes }
    requires begun { (old : DepotTold) × (path : List ℕ) × (ended : Bool) × IsCopying D.Dev.Device.told old prefix.now bytes path (seen_files S.view rotation.old) (held_file rotation.old) (D.told depot.old) (files_of rotation.old) (room_of rotation.old) ended 0 }
    ensures copies { (old : DepotTold) (path : List ℕ) (ended : Bool) → IsCopying D.Dev.Device.told old prefix.now bytes path (seen_files S.view rotation.old) (held_file rotation.old) (D.told depot.old) (files_of rotation.old) (room_of rotation.old) ended 0 → Copies D.Dev.Device.told old prefix.now bytes path (seen_files S.view rotation.new) (held_file rotation.new) (D.told depot.new) (files_of rotation.new) (room_of rotation.new) result }
    ensures fits { FitsFiles S.view S.fits rotation.new desk.new }
{
    'copying: loop {
        let count = match read_row::<D::Dev, S>(&mut rotation.files, 0, buffer) {
            Ok(count) => count,
            Err(Failed) => return Err(Stop::Unread),
        };
        if count == 0 {
            return Ok(());
        }
        give(
            alloc,
            rotation,
            desk,
            depot,
            prefix,
            bytes,
            &buffer[..count],
        )?;
    }
}
