//! Bytes are written to a device.
ghost use Rattle.std.specs.Prelude.{◌≡◌, ◌-◌, ◌^◌, ◌<◌, true};
ghost use Rattle.rotate_files.specs.Acts.{IsWritable, WritesAll};

use device_port::{Device, Failed};

/// Writes all the bytes. A short write goes on from where it stopped, and nothing is written after
/// a failure.
pub(crate) fn write_all<V: Device>(device: &mut V, bytes: &[u8]) -> Result<(), Failed>
    requires { IsWritable (V.told device.old) }
    ensures { WritesAll (V.told device.old) (V.told device.new) bytes.now result }
{
    let mut at = 0;
    while at < bytes.len() {
        at += device.write(&bytes[at..])?;
    }
    Ok(())
}
