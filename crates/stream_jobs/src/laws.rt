//! Laws of jobs, each the contract of a function that does nothing.
ghost use Rattle.pull_turns.specs.Piping.{standing};
ghost use Rattle.stream_jobs.specs.Laws.{OthersLeaveJobs};

use device_port::Device;
use pull_nodes::PipeState;
use pull_stepper::Held;
use row_seat::RowSeat;

/// What another stream or the outer one does at the desk leaves a job its fit.
pub fn others_leave_jobs<V: Device, S: RowSeat<Pay = Held<V>>, F: PipeState>()
    ensures { OthersLeaveJobs S.view F.values V.told (standing F.stands F.comes) S.fits }
{}
