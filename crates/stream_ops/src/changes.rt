//! Elements that differ from the one before them.
ghost use Rattle.std.specs.Prelude.{◌≡◌, ◌≢◌, [], IfOk, OnOk, map, option_map, slice_get};
ghost use Rattle.std.specs.List.{last_or};
ghost use Rattle.chunk_core.specs.Elements.{elements, kind_of};
ghost use Rattle.chunk_core.specs.Elements.LoadKind.{Bytes};
ghost use Rattle.chunk_core.specs.Feed.{Meaning};
ghost use Rattle.pull_nodes.specs.Pipes.{IsMeaningOf};
ghost use Rattle.pull_nodes.specs.declared.pipe.Pipe.TheVariants as pipe;
ghost use Rattle.stream_ops.specs.Changed.{changed_behind};
ghost use Rattle.stream_ops.specs.ChangesState.{StandsFor};

use crate::compared::{Compared, changed, first_line, first_row};
use crate::loads::{Refilled, Spares, copied_load};
use chunk_core::{Chunk, Fed, Feed, Load};
use std::alloc::{AllocError, Global};

/// `Changes`: a load that has the last element alone, or none.
#[derive(Drop)]
pub struct ChangesPipe {
    last: Load,
    spare: Box<Spares>,
}

/// The elements that differ from the one before them, and those as a chunk of which a share is kept.
fn given<T: Compared>(
    alloc: Global,
    spare: &mut T::Spare,
    before: Option<&T>,
    items: &[T],
) -> Result<Chunk<T>, AllocError>
    ensures { IfOk result (λ kept. map T.element kept ≡ changed_behind (option_map (λ y. T.element y.now) before.entry) (map T.element items.now)) }
{
    T::regain(spare);
    let kept = changed(alloc, spare, before, items)?;
    T::give(alloc, spare, kept)
}

fn changes_of(
    alloc: Global,
    spare: &mut Spares,
    last: &Load,
    load: &Load,
) -> Result<Load, AllocError>
    requires { kind_of load.now ≢ Bytes }
    ensures list { IfOk result (λ kept. elements kept ≡ changed_behind (slice_get (elements last.now) 0) (elements load.now)) }
    ensures kind { IfOk result (λ kept. kind_of kept ≡ kind_of load.now) }
{
    match load {
        Load::Lines(lines) => {
            let kept = given(alloc, &mut spare.lines, first_line(last), lines.as_slice())?;
            Ok(Load::Lines(kept))
        }
        Load::Rows(rows) => {
            let kept = given(alloc, &mut spare.rows, first_row(last), rows.as_slice())?;
            Ok(Load::Rows(kept))
        }
        Load::Bytes(_) => unreachable!(),
    }
}

impl ChangesPipe {
    /// Nothing was read.
    pub fn new(alloc: Global) -> Result<ChangesPipe, AllocError>
        ensures { IfOk result (λ q. (m : Meaning) → IsMeaningOf pipe.Changes m → StandsFor q m []) }
    {
        let none = Chunk::of_vec(alloc, Vec::new(alloc))?;
        Ok(ChangesPipe {
            last: Load::Lines(none),
            spare: Spares::new(alloc)?,
        })
    }

    /// Keeps a copy of the last element, where there is one; a window would keep the whole load.
    fn note(&mut self, alloc: Global, mut load: Load) -> Result<(), AllocError>
        ensures { OnOk result (slice_get (elements self.new.last) 0 ≡ last_or (slice_get (elements self.old.last) 0) (elements load)) }
    {
        if load.is_empty() {
            return Ok(());
        }
        load.split(load.len() - 1)?;
        let load = copied_load(alloc, &mut self.spare, &load)?;
        self.last = load;
        Ok(())
    }
}

impl Feed for ChangesPipe {
    ghost use Rattle.std.specs.Prelude.{refl};
    ghost use Rattle.pull_nodes.specs.declared.pipe.Pipe.TheVariants as pipe;
    ghost use Rattle.pull_nodes.proofs.Meanings.{sound_from};
    ghost use Rattle.stream_ops.specs.ChangesState.{StandsFor};
    ghost use Rattle.chunk_core.specs.Feed.{NothingComes};

    ghost stands = { StandsFor };

    ghost comes = { NothingComes };

    ghost sound = { λ q m xs h. sound_from pipe.Changes m h.0 xs refl };

    fn feed(&mut self, alloc: Global, load: Load) -> Result<Fed, AllocError> {
        let kept = changes_of(alloc, &mut self.spare, &self.last, &load)?;
        self.note(alloc, load)?;
        Ok(Fed::Out(kept))
    }

    fn finish(&mut self, _alloc: Global) -> Result<Fed, AllocError> {
        Ok(Fed::End)
    }
}
