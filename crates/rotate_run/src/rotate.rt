//! The command `rotate`: one file, copied into files of so many bytes each.
ghost use Rattle.std.specs.Prelude.{◌≡◌, ◌≤◌, [], None, false, length};
ghost use Rattle.cat_run.specs.Cat.{run_record_of};
ghost use Rattle.rotate_rules.specs.Pieces.{IsApart};
ghost use Rattle.rotate_rules.specs.Rotation.{RotatesFiles};

use crate::back::retire;
use crate::ran::run_rotation;
use crate::room::make_room;
use cat_run::Outcome;
use chunk_core::Word;
use device_port::{Depot, Mode};
use std::alloc::{AllocError, Global};

/// Copies the file at a path into files of `bytes` bytes each but the last, whose paths are the
/// prefix, a dot and a number from 0 on. The room for what is noted and closed is made before the
/// file is opened. Nothing is printed.
pub fn run_rotate<D: Depot>(
    alloc: Global,
    path: &Word,
    prefix: &Word,
    bytes: u32,
    depot: &mut D,
) -> Outcome
    requires some { 1 ≤ bytes }
    requires few { bytes ≤ 1000000000 }
    requires name { (1 ≤ length prefix.now) × (length prefix.now ≤ 1019) }
    requires apart { IsApart path.now prefix.now }
    ensures rotates { RotatesFiles path.now prefix.now bytes (run_record_of (D.told depot.old) (D.told depot.new) [] None [] result) }
    ensures unwritten { result.sink_failed ≡ false }
{
    let Ok(room) = make_room(alloc) else {
        return Outcome::unmade(alloc);
    };
    match depot.make(alloc, path, Mode::Read) {
        Ok(device) => {
            let ran = run_rotation(alloc, room, device, depot, prefix, bytes);
            retire(depot, ran)
        }
        Err(AllocError) => Outcome::unmade(alloc),
    }
}
