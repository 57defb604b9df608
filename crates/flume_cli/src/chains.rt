//! The chains that the words of steps mean.
ghost use Rattle.std.specs.Prelude.{◌≡◌, IfOk, length};
ghost use Rattle.step_words.specs.Words.{steps_of};
ghost use Rattle.flume_cli.specs.Chains.{AreChains, GivesMeant, IsChain, chains_of};

use crate::status::Status;
use chunk_core::{List, Word};
use pipeline_desc::Step;
use std::alloc::Global;
use step_words::{StepsRefused, steps};

/// The chain that a word means, or the status of a call that has none.
pub(crate) fn read_chain(alloc: Global, word: &Word) -> Result<List<Step>, Status>
    ensures { GivesMeant IsChain (steps_of word.now) result }
{
    match steps(alloc, word.as_str().as_bytes()) {
        Ok(steps) => Ok(steps),
        Err(StepsRefused::Bad) => Err(Status::BadWords),
        Err(StepsRefused::Memory) => Err(Status::Memory),
    }
}

/// The chain that each word means, or the status of a call of which one means none.
pub(crate) fn read_chains(alloc: Global, words: &List<Word>) -> Result<List<List<Step>>, Status>
    ensures meant { GivesMeant AreChains (chains_of words.now) result }
    ensures count { IfOk result (λ chains. length chains ≡ length words.now) }
{
    let mut chains = List::new(alloc);
    for word in words.as_slice() {
        let chain = read_chain(alloc, word)?;
        if chains.push(chain).is_err() {
            return Err(Status::Memory);
        }
    }
    Ok(chains)
}
