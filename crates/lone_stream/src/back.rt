//! The devices of a stream go back.
ghost use Rattle.stream_parts.specs.Retire.{MayReturnAll, Returns, devices_of};

use chunk_core::List;
use device_port::Depot;
use pull_stepper::Held;
use scope_tree::Spent;
use stream_parts::{retire_all, retire_shelf};

/// Gives the devices of a stream back: those that were opened, and those that never were.
pub fn retire<D: Depot>(depot: &mut D, shelf: List<Spent<Held<D::Dev>>>, unopened: List<D::Dev>)
    requires { MayReturnAll (D.told depot.old) (devices_of D.Dev.Device.told shelf unopened) }
    ensures { Returns (D.told depot.old) (D.told depot.new) (devices_of D.Dev.Device.told shelf unopened) }
{
    retire_shelf(depot, shelf);
    retire_all(depot, unopened);
}
