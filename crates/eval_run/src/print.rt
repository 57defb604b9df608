//! The result of a group, printed.
ghost use Rattle.std.specs.Prelude.{◌≡◌, ◌-◌, ◌^◌, ◌<◌};
ghost use Rattle.eval_run.specs.Printing.{PrintsPart, PrintsResult};

use crate::stop::Stop;
use chunk_core::{How, Load};
use device_port::Sink;
use frames::{NotPut, put_load};
use par_eval::Worked;
use std::alloc::Global;

/// Prints a load as a frame of stream 0, unless it is empty.
fn print_part<K: Sink>(alloc: Global, out: &mut K, load: &Load) -> Result<(), Stop>
    requires room { (K.told out.old).faults < 2 ^ 64 - 1 }
    ensures { PrintsPart (K.told out.old) (K.told out.new) load.now result }
{
    let len = load.len();
    if len == 0 {
        return Ok(());
    }
    match put_load(alloc, out, 0, load) {
        Ok(()) => Ok(()),
        Err(NotPut::Unwritten) => Err(Stop::Unwritten),
        Err(NotPut::Memory) => Err(Stop::Memory),
    }
}

/// Prints what came of a group, and tells why nothing may be printed behind it, where that is so.
pub(crate) fn print_result<K: Sink>(alloc: Global, out: &mut K, worked: &Worked) -> Result<(), Stop>
    requires room { (K.told out.old).faults < 2 ^ 64 - 1 }
    ensures { PrintsResult (K.told out.old) (K.told out.new) worked.now result }
{
    match worked.how {
        How::Done => print_part(alloc, out, &worked.out),
        How::Fault(code) => {
            print_part(alloc, out, &worked.out)?;
            Err(Stop::Fault(code))
        }
        How::Halted | How::Memory => Err(Stop::Memory),
    }
}
