//! A device of the outer stream is made and opened.
ghost use Rattle.outer_tables.specs.Devices.{OpensDevice};

use crate::not_read::NotRead;
use chunk_core::{Code, Word};
use device_port::{Depot, Device, Mode};
use std::alloc::Global;

/// An open device for the path, to be read. One that doesn't open goes back at once.
pub fn open_device<D: Depot>(alloc: Global, path: &Word, depot: &mut D) -> Result<D::Dev, NotRead>
    ensures { OpensDevice D.Dev.Device.told path.now (D.told depot.old) (D.told depot.new) result }
{
    let mut device = depot.make(alloc, path, Mode::Read)?;
    if device.open().is_err() {
        depot.retire(device);
        return Err(NotRead::Fault(Code::Open));
    }
    Ok(device)
}
