//! A device as what a row holds.
ghost use Rattle.std.specs.Prelude.{◌≡◌};
ghost use Rattle.std.specs.Borrow.{Lends, sem};
ghost use Rattle.pull_stepper.specs.Lending.{lends_device};

use chunk_core::Exit;
use device_port::Device;
use scope_tree::Finish;
use std::marker::Model;

/// A device in a row, which is seen as the device.
#[derive(Drop)]
pub struct Held<V> {
    device: V,
}

impl<V> Model for Held<V> {
    ghost use Rattle.std.specs.Prelude.{◌≡◌};

    ghost Value = { V };

    ghost view = { λ held. held.device };
}

impl<V> Held<V> {
    pub fn new(device: V) -> Held<V>
        ensures { result ≡ device }
    {
        Held { device }
    }

    pub fn device_mut(&mut self) -> &mut V
        ensures* back { sem 𝓛 (lends_device V.row self.entry result) }
        ensures value { result.now ≡ self.old }
    {
        &mut self.device
    }

    pub fn into_device(self) -> V
        ensures { result ≡ self }
    {
        let Held { device } = self;
        device
    }
}

impl<V: Device> Finish for Held<V> {
    ghost use Rattle.pull_stepper.specs.Held.{FinishesDevice};

    ghost ends = { FinishesDevice V.told };

    fn finish(&mut self, exit: Exit) -> bool {
        if !self.device.is_open() {
            return true;
        }
        self.device.close(exit).is_ok()
    }
}
