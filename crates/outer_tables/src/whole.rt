//! A device is read to its end.
ghost use Rattle.outer_tables.specs.Whole.{IsReadable, ReadsWhole};

use crate::not_read::NotRead;
use chunk_core::{Code, Line};
use device_port::Device;
use std::alloc::Global;

/// The most bytes that are read: one more than a table may have.
const MOST: usize = 16_777_217;

/// The most bytes that one read asks for.
const PIECE: usize = 4096;

/// All that the device gives from its place on, or the first 16,777,217 bytes of that. No read is
/// tried after one that failed.
pub(crate) fn read_whole<V: Device>(alloc: Global, device: &mut V) -> Result<Line, NotRead>
    requires { IsReadable (V.told device.old) }
    ensures { ReadsWhole (V.told device.old) (V.told device.new) result }
{
    let mut bytes = Vec::new(alloc);
    let mut piece = [0; PIECE];
    while bytes.len() < MOST {
        let room = PIECE.min(MOST - bytes.len());
        let Ok(count) = device.read(&mut piece[..room]) else {
            return Err(NotRead::Fault(Code::Read));
        };
        if count == 0 {
            break;
        }
        bytes.extend_from_slice(&piece[..count])?;
    }
    Ok(Line::of_vec(bytes))
}
