//! Steps on the text of a group.
ghost use Rattle.std.specs.Prelude.{◌≡◌, true, IfOk, IsSome};
ghost use Rattle.std.specs.List.{list_all};
ghost use Rattle.chunk_core.specs.Elements.{elements, rendering_of};
ghost use Rattle.chunk_core.specs.Elements.LoadKind.{Bytes};
ghost use Rattle.eval_rules.specs.Answers.{group_over, how_of};
ghost use Rattle.eval_work.specs.Works.{ends_by};
ghost use Rattle.par_eval.specs.Hows.{IsDoneOrFault};
ghost use Rattle.step_words.specs.Words.{kind_behind, needs_no_table};

use crate::text::{PouredText, into_bytes, pour_text};
use chain_pipes::Chain;
use chunk_core::{Chunk, Code, How, List, Load};
use par_eval::{Work, Worked};
use pipeline_desc::Step;
use std::alloc::{AllocError, Global};
use std::marker::Model;

/// Steps that fit behind bytes and look nothing up, as work on groups of lines.
#[derive(Drop)]
pub struct GroupWork {
    steps: List<Step>,
}

impl Model for GroupWork {
    ghost use Rattle.std.specs.Prelude.{List};
    ghost use Rattle.pipeline_desc.specs.declared.step.Step.{Step};
    ghost use Rattle.eval_work.specs.Works.{IsChain};

    ghost Value = { List Step };

    ghost view = { λ work. work.steps };

    ghost invariant = { λ work. IsChain work.steps };
}

impl GroupWork {
    /// The work of these steps.
    pub fn new(steps: List<Step>) -> GroupWork
        requires kinds { IsSome (kind_behind steps Bytes) }
        requires tables { list_all needs_no_table steps ≡ true }
        ensures { result ≡ steps }
    {
        GroupWork { steps }
    }

    /// What the steps give of the text of a load, as text, and the fault in which they ended, if one came.
    fn poured(&self, alloc: Global, load: Load) -> Result<PouredText, AllocError>
        ensures text { IfOk result (λ p. p.text.items ≡ rendering_of (group_over self.now (elements load)).list) }
        ensures end { IfOk result (λ p. ends_by p.fault ≡ how_of (group_over self.now (elements load)).end) }
    {
        let bytes = into_bytes(alloc, load)?;
        let chain = Chain::new(alloc, &self.steps)?;
        pour_text(alloc, chain, bytes)
    }
}

/// How work ends that ended in this fault, if in one.
fn ended(fault: Option<Code>) -> How
    ensures by { result ≡ ends_by fault }
    ensures how { IsDoneOrFault result }
{
    match fault {
        None => How::Done,
        Some(code) => How::Fault(code),
    }
}

impl Work for GroupWork {
    ghost use Rattle.eval_work.specs.Works.{result_of};

    ghost result_of = { result_of };

    fn work(&self, alloc: Global, load: Load) -> Result<Worked, AllocError> {
        let PouredText { text, fault } = self.poured(alloc, load)?;
        let out = Load::Bytes(Chunk::of_vec(alloc, text)?);
        Ok(Worked {
            out,
            how: ended(fault),
        })
    }
}
