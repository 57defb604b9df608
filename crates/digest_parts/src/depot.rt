//! A depot that counts.
use chunk_core::Word;
use device_port::{Depot, Mode};
use std::alloc::{AllocError, Global};

/// Hands on what another depot makes and takes back, and counts both.
#[derive(Drop)]
pub struct CountingDepot<D> {
    inner: D,
    made: u64,
    back: u64,
}

impl<D: Depot> CountingDepot<D> {
    ghost use Rattle.std.specs.Prelude.{◌≡◌};

    /// Around a depot, with nothing counted yet.
    pub fn new(inner: D) -> CountingDepot<D>
        ensures { ⟦<CountingDepot<D> as Depot>⟧.told result ≡ D.Depot.told inner }
    {
        CountingDepot {
            inner,
            made: 0,
            back: 0,
        }
    }

    /// How many devices were made, and how many came back; neither goes above 2^64 - 1.
    pub fn counts(&self) -> (u64, u64) {
        (self.made, self.back)
    }
}

impl<D: Depot> Depot for CountingDepot<D> {
    type Dev = D::Dev;

    ghost told = { λ depot. D.Depot.told depot.inner };

    fn make(&mut self, alloc: Global, path: &Word, mode: Mode) -> Result<D::Dev, AllocError> {
        let device = self.inner.make(alloc, path, mode)?;
        self.made = self.made.saturating_add(1);
        Ok(device)
    }

    fn retire(&mut self, dev: D::Dev) {
        self.inner.retire(dev);
        self.back = self.back.saturating_add(1);
    }
}
