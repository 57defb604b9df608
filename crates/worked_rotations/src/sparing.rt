//! Devices that read and write a few bytes a call.
use chunk_core::{Exit, Word};
use device_port::{Depot, Device, Failed, Mode};
use std::alloc::{AllocError, Global};

/// A device that reads and writes at most so many bytes a call, and one more.
#[derive(Drop)]
pub(crate) struct Sparing<V> {
    device: V,
    more: usize,
}

impl<V: Device> Device for Sparing<V> {
    ghost told = { λ d. V.told d.device };

    ghost open_once = { λ d. V.open_once d.device };

    ghost no_exit = { λ d. V.no_exit d.device };

    ghost within = { λ d. V.within d.device };

    ghost no_open = { λ d. V.no_open d.device };

    fn number(&self) -> u64 {
        self.device.number()
    }

    fn is_open(&self) -> bool {
        self.device.is_open()
    }

    fn open(&mut self) -> Result<(), Failed> {
        self.device.open()
    }

    fn read(&mut self, buf: &mut [u8]) -> Result<usize, Failed> {
        let last = (buf.len() - 1).min(self.more);
        self.device.read(&mut buf[..=last])
    }

    fn write(&mut self, bytes: &[u8]) -> Result<usize, Failed> {
        let last = (bytes.len() - 1).min(self.more);
        self.device.write(&bytes[..=last])
    }

    fn close(&mut self, exit: Exit) -> Result<(), Failed> {
        self.device.close(exit)
    }
}

/// A depot of such devices.
#[derive(Drop)]
pub(crate) struct SparingDepot<D> {
    pub(crate) depot: D,
    pub(crate) more: usize,
}

impl<D: Depot> Depot for SparingDepot<D> {
    type Dev = Sparing<D::Dev>;

    ghost told = { λ d. D.told d.depot };

    fn make(
        &mut self,
        alloc: Global,
        path: &Word,
        mode: Mode,
    ) -> Result<Sparing<D::Dev>, AllocError> {
        Ok(Sparing {
            device: self.depot.make(alloc, path, mode)?,
            more: self.more,
        })
    }

    fn retire(&mut self, dev: Sparing<D::Dev>) {
        self.depot.retire(dev.device);
    }
}
