//! The work that hands do.
ghost use Rattle.std.specs.Prelude.{◌≡◌, IfOk};
ghost use Rattle.chunk_core.specs.Elements.{elements};
ghost use Rattle.par_eval.specs.Hows.{IsDoneOrFault};
ghost use Rattle.par_eval.specs.Messages.{IsResult};

use chunk_core::{How, Load};
use std::alloc::{AllocError, Global};

/// What a load was worked to, and how that ended.
#[derive(Drop)]
pub struct Worked {
    pub out: Load,
    pub how: How,
}

/// The work on a load.
pub trait Work {
    ghost use Rattle.std.specs.Prelude.{List};
    ghost use Rattle.chunk_core.specs.Elements.{Element};
    ghost use Rattle.chunk_core.specs.declared.code.How.{How};

    /// What comes of elements, and how that ends.
    ghost result_of: { Self → List Element → List Element × How };

    fn work(&self, alloc: Global, load: Load) -> Result<Worked, AllocError>
        ensures gives { IfOk result (λ w. (elements w.out, w.how) ≡ result_of self.now (elements load)) }
        ensures how { IfOk result (λ w. IsDoneOrFault w.how) };
}

/// What comes of the load, or of want of memory.
pub(crate) fn result_for<W: Work>(work: &W, alloc: Global, load: Load) -> Worked
    ensures { IsResult (W.result_of work.now) load result }
{
    match work.work(alloc, load) {
        Ok(worked) => worked,
        Err(AllocError) => Worked {
            out: Load::empty(),
            how: How::Memory,
        },
    }
}
