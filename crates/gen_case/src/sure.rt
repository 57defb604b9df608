//! A depot in memory whose devices fail no open, read or close.
ghost use Rattle.std.specs.Prelude.{◌≡◌, ◌&&◌, not, true, false, []};
ghost use Rattle.device_port.specs.Device.{is_read};
ghost use Rattle.device_port.specs.MemDepot.{depot_told};
ghost use Rattle.device_port.specs.Records.{record_told};
ghost use Rattle.gen_case.specs.Sure.{are_unfailed, faults_but_writes, is_spared, is_unwritten};

use chunk_core::{Exit, List, Word};
use device_port::{Depot, Device, Failed, FileOf, MemDepot, MemDevice, Mode};
use std::alloc::{AllocError, Global};

/// A device in memory, which is there if it is to be read. A write fails for want of memory, and no
/// other call fails.
#[derive(Drop)]
pub struct SureDevice {
    device: MemDevice,
    ghost present: { is_read device.facts.mode && not device.facts.present ≡ false },
    ghost spared: { is_spared device.calls ≡ true },
    ghost unfailed: { faults_but_writes (record_told device.facts) ≡ 0 },
    ghost reads: { is_unwritten (record_told device.facts) ≡ true },
}

impl Device for SureDevice {
    ghost use Rattle.device_port.specs.Records.{record_told};
    ghost use Rattle.device_port.specs.Stage.{open_once_at, no_exit_at, no_open_at};

    ghost told = { λ d. record_told d.device.facts };

    ghost open_once = { λ d. open_once_at d.device.facts.stage };

    ghost no_exit = { λ d. no_exit_at d.device.facts.stage };

    ghost within = { λ d. d.device.within };

    ghost no_open = { λ d. no_open_at d.device.facts.mode d.device.facts.present d.device.facts.stage d.device.unopened };

    fn number(&self) -> u64 {
        self.device.number()
    }

    fn is_open(&self) -> bool {
        self.device.is_open()
    }

    fn open(&mut self) -> Result<(), Failed> {
        self.device.open()
    }

    fn read(&mut self, buf: &mut [u8]) -> Result<usize, Failed> {
        self.device.read(buf)
    }

    fn write(&mut self, bytes: &[u8]) -> Result<usize, Failed> {
        self.device.write(bytes)
    }

    fn close(&mut self, exit: Exit) -> Result<(), Failed> {
        self.device.close(exit)
    }
}

/// Files in memory, and the devices that were made for them, of which none failed but at a write.
#[derive(Drop)]
pub struct SureDepot {
    depot: MemDepot,
    ghost spared: { depot.fail ≡ [] },
    ghost unfailed: { are_unfailed (depot_told depot).retired ≡ true },
}

impl SureDepot {
    ghost use Rattle.std.specs.Prelude.{◌≡◌, [], Some, IfOk};
    ghost use Rattle.device_port.specs.Files.{bytes_at};
    ghost use Rattle.gen_case.specs.SureTold.{sure_told};

    /// A depot of these files, which made no device. Of two files with one path the first counts.
    pub fn new(alloc: Global, files: List<FileOf>) -> Result<SureDepot, AllocError>
        ensures { IfOk result (λ d. sure_told d ≡ record { files = Some (bytes_at files []); made = []; retired = [] }) }
    {
        let depot = MemDepot::new(alloc, files, List::new(alloc))?;
        Ok(SureDepot { depot })
    }
}

impl Depot for SureDepot {
    ghost use Rattle.gen_case.specs.SureTold.{sure_told};

    type Dev = SureDevice;

    ghost told = { sure_told };

    /// Makes a device to write to, or to read a file that is there. To read another one it gives up
    /// as for want of memory.
    fn make(&mut self, alloc: Global, path: &Word, mode: Mode) -> Result<SureDevice, AllocError> {
        if mode == Mode::Read && self.depot.file(path.as_str()).is_none() {
            return Err(AllocError);
        }
        let device = self.depot.make(alloc, path, mode)?;
        Ok(SureDevice { device })
    }

    fn retire(&mut self, dev: SureDevice) {
        self.depot.retire(dev.device);
    }
}
