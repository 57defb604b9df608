//! What holds of chains: each function does nothing, and its contract is the law.
ghost use Rattle.chain_pipes.specs.Worked.{AreWorked, ChainsAreSteady, OverIsARun};

/// Chains that are written out.
pub fn worked()
    ensures { AreWorked }
{}

/// What a chain gives of an input with its end is a run of that input through its steps.
pub fn over_is_a_run()
    ensures { OverIsARun }
{}

/// What a chain gave stays given, and its faults are final.
pub fn chains_are_steady()
    ensures { ChainsAreSteady }
{}
