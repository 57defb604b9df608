//! Devices that go back to their depot.
ghost use Rattle.std.specs.Prelude.{map};
ghost use Rattle.stream_parts.specs.Retire.{MayReturnAll, Returns};

use chunk_core::List;
use device_port::Depot;
use pull_stepper::Held;
use scope_tree::Spent;

/// Gives devices back to the depot that made them.
pub fn retire_all<D: Depot>(depot: &mut D, devices: List<D::Dev>)
    requires { MayReturnAll (D.told depot.old) (map (λ d. D.Dev.Device.told d) devices) }
    ensures { Returns (D.told depot.old) (D.told depot.new) (map (λ d. D.Dev.Device.told d) devices) }
{
    let mut left = devices.into_vec();
    while let Some(device) = left.pop() {
        depot.retire(device);
    }
}

/// Gives the devices on a shelf back to the depot that made them.
pub fn retire_shelf<D: Depot>(depot: &mut D, shelf: List<Spent<Held<D::Dev>>>)
    requires { MayReturnAll (D.told depot.old) (map (λ x. D.Dev.Device.told x.pay) shelf) }
    ensures { Returns (D.told depot.old) (D.told depot.new) (map (λ x. D.Dev.Device.told x.pay) shelf) }
{
    let mut left = shelf.into_vec();
    while let Some(spent) = left.pop() {
        let Spent { pay, .. } = spent;
        depot.retire(pay.into_device());
    }
}
