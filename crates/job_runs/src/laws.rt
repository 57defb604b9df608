//! Laws of jobs that are over, each the contract of a function that does nothing.
ghost use Rattle.pull_turns.specs.Piping.{standing};
ghost use Rattle.job_runs.specs.Origins.{OriginsBegin};
ghost use Rattle.job_runs.specs.Runs.{JobsEnd};

use device_port::Device;
use pull_nodes::PipeState;
use pull_stepper::Held;
use row_seat::RowSeat;

/// There is room for a node over a new tree of a stream's seat, and what begins so is the origin of a
/// job of this node.
pub fn origins_begin<V: Device, S: RowSeat<Pay = Held<V>>, F: PipeState>()
    ensures { OriginsBegin V F V V.told }
{}

/// What a job has done whose stream was to run a node.
pub fn jobs_end<V: Device, S: RowSeat<Pay = Held<V>>, F: PipeState>()
    ensures { JobsEnd S.view V.told (standing F.stands F.comes) }
{}
