//! The law of collectors at their end, the contract of a function that does nothing.
ghost use Rattle.pull_turns.specs.Piping.{standing};
ghost use Rattle.collected.specs.Laws.{CollectedRuns};

use device_port::Device;
use pull_nodes::PipeState;
use pull_stepper::Held;
use row_seat::RowSeat;

/// What was done once the main tree of a collector at its end has settled and all devices went back.
pub fn collected_runs<V: Device, S: RowSeat<Pay = Held<V>>, F: PipeState>()
    ensures { CollectedRuns S.view V.told (standing F.stands F.comes) }
{}
