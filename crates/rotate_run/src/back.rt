//! The devices of a rotation go back.
ghost use Rattle.std.specs.Prelude.{◌≡◌, map};
ghost use Rattle.stream_parts.specs.Retire.{MayReturnAll, Returns, devices_of};
ghost use Rattle.rotate_run.specs.Rans.{waiting_of};

use crate::ran::Ran;
use cat_run::Outcome;
use device_port::Depot;
use stream_parts::retire_shelf;

/// Gives the device that couldn't be opened back, if there is one.
fn retire_one<D: Depot>(depot: &mut D, unopened: Option<D::Dev>)
    requires { MayReturnAll (D.told depot.old) (map (λ d. D.Dev.Device.told d) (waiting_of unopened)) }
    ensures { Returns (D.told depot.old) (D.told depot.new) (map (λ d. D.Dev.Device.told d) (waiting_of unopened)) }
{
    if let Some(device) = unopened {
        depot.retire(device);
    }
}

/// Gives the devices of a rotation back, and tells what it did.
pub(crate) fn retire<D: Depot>(depot: &mut D, ran: Ran<D::Dev>) -> Outcome
    requires { MayReturnAll (D.told depot.old) (devices_of D.Dev.Device.told ran.shelf (waiting_of ran.unopened)) }
    ensures returns { Returns (D.told depot.old) (D.told depot.new) (devices_of D.Dev.Device.told ran.shelf (waiting_of ran.unopened)) }
    ensures outcome { result ≡ ran.outcome }
{
    let Ran {
        outcome,
        shelf,
        unopened,
    } = ran;
    retire_shelf(depot, shelf);
    retire_one(depot, unopened);
    outcome
}
