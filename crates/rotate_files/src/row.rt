//! The devices of rows.
ghost use Rattle.std.specs.Prelude.{◌≡◌, ◌<◌, length};
ghost use Rattle.chunk_core.specs.Lists.{IsAmong};
ghost use Rattle.row_seat.specs.Views.{HasRow};
ghost use Rattle.hot_swap.specs.Swaps.{FitsSwap, held, seen_tree};
ghost use Rattle.rotate_files.specs.Acts.{IsReadable, IsWritable, ReadsRow, WritesRow};

use crate::write::write_all;
use device_port::{Device, Failed};
use hot_swap::Hotswap;
use pull_stepper::Held;
use row_seat::RowSeat;

/// Writes bytes to the device in an open row.
pub(crate) fn write_row<V: Device, S: RowSeat<Pay = Held<V>>>(
    files: &mut Hotswap<S>,
    row: u32,
    bytes: &[u8],
) -> Result<(), Failed>
    requires row { HasRow (seen_tree S.view files.old).seat.opened row }
    requires device { (d : V) → IsAmong (row, d) (seen_tree S.view files.old).seat.opened → IsWritable (V.told d) }
    ensures writes { WritesRow V.told row (seen_tree S.view files.old) (seen_tree S.view files.new) bytes.now result }
    ensures held { held files.new ≡ held files.old }
    ensures fits { (d : S.Desk) → FitsSwap S.view S.fits files.old d → FitsSwap S.view S.fits files.new d }
{
    write_all(files.pay_mut(row).device_mut(), bytes)
}

/// Reads some of the next bytes of the device in an open row.
pub(crate) fn read_row<V: Device, S: RowSeat<Pay = Held<V>>>(
    files: &mut Hotswap<S>,
    row: u32,
    buf: &mut [u8],
) -> Result<usize, Failed>
    requires some { 0 < length buf.old }
    requires row { HasRow (seen_tree S.view files.old).seat.opened row }
    requires device { (d : V) → IsAmong (row, d) (seen_tree S.view files.old).seat.opened → IsReadable (V.told d) }
    ensures reads { ReadsRow V.told row (seen_tree S.view files.old) (seen_tree S.view files.new) buf.new result }
    ensures held { held files.new ≡ held files.old }
    ensures fits { (d : S.Desk) → FitsSwap S.view S.fits files.old d → FitsSwap S.view S.fits files.new d }
{
    files.pay_mut(row).device_mut().read(buf)
}
