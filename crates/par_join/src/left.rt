//! The devices that are left of streams, which go back to their depot.
ghost use Rattle.stream_parts.specs.Retire.{MayReturnAll, Returns, devices_of};
ghost use Rattle.par_join.specs.Left.{left_devices};

use collector::Leftover;
use device_port::Depot;
use stream_parts::{retire_all, retire_shelf};

/// Gives back what is left of one stream.
fn retire_one<D: Depot>(depot: &mut D, left: Leftover<D::Dev>)
    requires { MayReturnAll (D.told depot.old) (devices_of D.Dev.Device.told left.shelf left.unopened) }
    ensures { Returns (D.told depot.old) (D.told depot.new) (devices_of D.Dev.Device.told left.shelf left.unopened) }
{
    let Leftover { shelf, unopened } = left;
    retire_shelf(depot, shelf);
    retire_all(depot, unopened);
}

/// Gives back what is left of each stream.
pub(crate) fn retire_left<D: Depot>(depot: &mut D, left: Vec<Leftover<D::Dev>>)
    requires { MayReturnAll (D.told depot.old) (left_devices D.Dev.Device.told left.items) }
    ensures { Returns (D.told depot.old) (D.told depot.new) (left_devices D.Dev.Device.told left.items) }
{
    let mut left = left;
    while let Some(one) = left.pop() {
        retire_one(depot, one);
    }
}
