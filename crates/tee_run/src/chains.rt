//! The pipes of the branches.
ghost use Rattle.std.specs.Prelude.{IfOk};
ghost use Rattle.chain_pipes.specs.Chains.{StandsFor};
ghost use Rattle.tee_pump.specs.Making.{ArePipes};
ghost use Rattle.tee_run.specs.Chains.{AreChains, meanings_of};

use chain_pipes::Chain;
use chunk_core::List;
use pipeline_desc::Step;
use std::alloc::{AllocError, Global};

/// A chain for the steps of each branch.
pub(crate) fn chains_of(
    alloc: Global,
    branches: &List<List<Step>>,
) -> Result<Vec<Chain>, AllocError>
    requires { AreChains branches.now }
    ensures { IfOk result (λ chains. ArePipes StandsFor (meanings_of branches.now) chains.items) }
{
    let items = branches.as_slice();
    let mut chains = Vec::with_capacity(alloc, items.len())?;
    for steps in items {
        chains.push_reserved(Chain::new(alloc, steps)?);
    }
    Ok(chains)
}
