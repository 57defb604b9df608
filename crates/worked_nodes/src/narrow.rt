//! A device in memory that takes a few bytes a write.
ghost use Rattle.std.specs.Prelude.{◌≡◌, ◌≤◌};

use chunk_core::Exit;
use device_port::{Device, Failed, MemDevice, Record};

/// A device in memory that takes at most so many bytes a write.
#[derive(Drop)]
pub struct Narrow {
    device: MemDevice,
    most: usize,
    ghost some: { 1 ≤ most },
}

impl Narrow {
    pub fn new(device: MemDevice, most: usize) -> Narrow
        requires { 1 ≤ most }
        ensures { result.device ≡ device }
    {
        Narrow { device, most }
    }

    /// What it has come to.
    pub fn facts(&self) -> &Record
        ensures { result.now ≡ self.now.device.facts }
    {
        self.device.facts()
    }
}

impl Device for Narrow {
    ghost use Rattle.device_port.specs.Records.{record_told};
    ghost use Rattle.device_port.specs.Stage.{open_once_at, no_exit_at, no_open_at};

    ghost told = { λ d. record_told d.device.facts };

    ghost open_once = { λ d. open_once_at d.device.facts.stage };

    ghost no_exit = { λ d. no_exit_at d.device.facts.stage };

    ghost within = { λ d. d.device.within };

    ghost no_open = { λ d. no_open_at d.device.facts.mode d.device.facts.present d.device.facts.stage d.device.unopened };

    fn number(&self) -> u64 {
        self.device.number()
    }

    fn is_open(&self) -> bool {
        self.device.is_open()
    }

    fn open(&mut self) -> Result<(), Failed> {
        self.device.open()
    }

    fn read(&mut self, buf: &mut [u8]) -> Result<usize, Failed> {
        self.device.read(buf)
    }

    fn write(&mut self, bytes: &[u8]) -> Result<usize, Failed> {
        let count = bytes.len().min(self.most);
        self.device.write(&bytes[..count])
    }

    fn close(&mut self, exit: Exit) -> Result<(), Failed> {
        self.device.close(exit)
    }
}
