//! All but the first elements.
ghost use Rattle.std.specs.Prelude.{[], IfOk};
ghost use Rattle.chunk_core.specs.Feed.{Meaning};
ghost use Rattle.pull_nodes.specs.Pipes.{IsMeaningOf};
ghost use Rattle.pull_nodes.specs.declared.pipe.Pipe.TheVariants as pipe;
ghost use Rattle.stream_ops.specs.DropState.{StandsFor};

use chunk_core::{Fed, Feed, Load};
use std::alloc::{AllocError, Global};

/// `Drop`: how many elements are still to be passed over.
#[derive(Drop)]
pub struct DropPipe {
    left: u64,
}

impl DropPipe {
    /// Nothing was read.
    pub fn new(_alloc: Global, n: u64) -> Result<DropPipe, AllocError>
        ensures { IfOk result (λ q. (m : Meaning) → IsMeaningOf (pipe.Drop n) m → StandsFor q m []) }
    {
        Ok(DropPipe { left: n })
    }
}

impl Feed for DropPipe {
    ghost use Rattle.std.specs.Prelude.{refl};
    ghost use Rattle.pull_nodes.specs.declared.pipe.Pipe.TheVariants as pipe;
    ghost use Rattle.pull_nodes.proofs.Meanings.{sound_from};
    ghost use Rattle.stream_ops.specs.DropState.{StandsFor};
    ghost use Rattle.chunk_core.specs.Feed.{NothingComes};

    ghost stands = { StandsFor };

    ghost comes = { NothingComes };

    ghost sound = { λ q m xs h. sound_from (pipe.Drop h.0) m h.1 xs refl };

    fn feed(&mut self, _alloc: Global, mut load: Load) -> Result<Fed, AllocError> {
        let len = load.len() as u64;
        load.split(self.left as usize)?;
        self.left = self.left.saturating_sub(len);
        Ok(Fed::Out(load))
    }

    fn finish(&mut self, _alloc: Global) -> Result<Fed, AllocError> {
        Ok(Fed::End)
    }
}
