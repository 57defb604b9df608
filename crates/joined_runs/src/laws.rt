//! Laws of runs whose streams ran side by side, each the contract of a function that does nothing.
ghost use Rattle.joined_runs.specs.Laws.{PlansRunTogether};
ghost use Rattle.joined_runs.specs.Worked.{AreRefused, IsWorked};

/// What a collector of many streams leaves is the work of its plan.
pub fn plans_run_together()
    ensures { PlansRunTogether }
{}

/// A run of two streams side by side that is written out, and eight that can't be.
pub fn worked()
    ensures run { IsWorked }
    ensures refused { AreRefused }
{}
