//! What a load holds, where its kind is known, and copies of elements.
ghost use Rattle.std.specs.Prelude.{◌≡◌, ◌++◌, [], ◌∷◌, IfOk, OnOk, map};
ghost use Rattle.chunk_core.specs.Elements.{elements, kind_of};
ghost use Rattle.chunk_core.specs.Elements.Element.{Line};
ghost use Rattle.chunk_core.specs.Elements.LoadKind.{Lines};

use chunk_core::{Chunk, Line, Load, Row, Spare, SpareRows};
use std::alloc::{AllocError, Global};

pub(crate) fn into_lines(load: Load) -> Chunk<Line>
    requires { kind_of load ≡ Lines }
    ensures { elements load ≡ map Line result }
{
    match load {
        Load::Lines(lines) => lines,
        _ => unreachable!(),
    }
}

/// The memory of what a pipe gave last, for each kind of elements that take memory of their own.
#[derive(Drop)]
pub(crate) struct Spares {
    pub(crate) lines: Spare,
    pub(crate) rows: SpareRows,
}

impl Spares {
    pub(crate) fn new(alloc: Global) -> Result<Box<Spares>, AllocError> {
        let lines = Spare::new(alloc);
        let rows = SpareRows::new(alloc);
        Ok(Box::new(alloc, Spares { lines, rows })?)
    }
}

/// Elements whose copies take the memory of elements that were given before, where there is some.
pub(crate) trait Refilled: Drop {
    ghost use Rattle.std.specs.Prelude.{◌≡◌, IfOk};

    type Spare: Drop;

    fn copied(&self, alloc: Global, spare: &mut Self::Spare) -> Result<Self, AllocError>
        ensures { IfOk result (λ copy. copy ≡ self.now) };

    /// Takes back what was given last, where nobody else has it.
    fn regain(spare: &mut Self::Spare);

    /// The elements as a chunk, of which a share is kept.
    fn give(
        alloc: Global,
        spare: &mut Self::Spare,
        items: Vec<Self>,
    ) -> Result<Chunk<Self>, AllocError>
        ensures { IfOk result (λ chunk. chunk ≡ items.items) };
}

impl Refilled for u8 {
    type Spare = ();

    fn copied(&self, _alloc: Global, _spare: &mut ()) -> Result<u8, AllocError> {
        Ok(*self)
    }

    fn regain(_spare: &mut ()) {}

    fn give(alloc: Global, _spare: &mut (), items: Vec<u8>) -> Result<Chunk<u8>, AllocError>
        ensures { IfOk result (λ chunk. chunk ≡ items.items) }
    {
        Chunk::of_vec(alloc, items)
    }
}

impl Refilled for Line {
    type Spare = Spare;

    fn copied(&self, alloc: Global, spare: &mut Spare) -> Result<Line, AllocError> {
        spare.line(alloc, self.as_slice())
    }

    fn regain(spare: &mut Spare) {
        spare.regain();
    }

    fn give(alloc: Global, spare: &mut Spare, items: Vec<Line>) -> Result<Chunk<Line>, AllocError>
        ensures { IfOk result (λ chunk. chunk ≡ items.items) }
    {
        spare.give(alloc, items)
    }
}

impl Refilled for Row {
    type Spare = SpareRows;

    fn copied(&self, alloc: Global, spare: &mut SpareRows) -> Result<Row, AllocError> {
        let mut fields = spare.empty(alloc)?;
        for field in self.as_slice() {
            fields.push(spare.line(alloc, field.as_slice())?)?;
        }
        Ok(Row::of_vec(fields))
    }

    fn regain(spare: &mut SpareRows) {
        spare.regain();
    }

    fn give(alloc: Global, spare: &mut SpareRows, items: Vec<Row>) -> Result<Chunk<Row>, AllocError>
        ensures { IfOk result (λ chunk. chunk ≡ items.items) }
    {
        spare.give(alloc, items)
    }
}

/// Appends a copy of the element.
pub(crate) fn push_copy<T: Refilled>(
    alloc: Global,
    spare: &mut T::Spare,
    items: &mut Vec<T>,
    item: &T,
) -> Result<(), AllocError>
    ensures { OnOk result (items.new.items ≡ items.old.items ++ item.now ∷ []) }
{
    items.push(item.copied(alloc, spare)?)?;
    Ok(())
}

/// Elements that are appended many at once.
pub(crate) trait Appended: Refilled {
    ghost use Rattle.std.specs.Prelude.{◌≡◌, ◌++◌, OnOk};

    /// Appends copies of the elements.
    fn append(
        alloc: Global,
        spare: &mut Self::Spare,
        items: &mut Vec<Self>,
        others: &[Self],
    ) -> Result<(), AllocError>
        ensures { OnOk result (items.new.items ≡ items.old.items ++ others.now) };
}

impl Appended for u8 {
    fn append(
        _alloc: Global,
        _spare: &mut (),
        items: &mut Vec<u8>,
        others: &[u8],
    ) -> Result<(), AllocError> {
        items.extend_from_slice(others)
    }
}

impl Appended for Line {
    fn append(
        alloc: Global,
        spare: &mut Spare,
        items: &mut Vec<Line>,
        others: &[Line],
    ) -> Result<(), AllocError> {
        for other in others {
            push_copy(alloc, spare, items, other)?;
        }
        Ok(())
    }
}

impl Appended for Row {
    fn append(
        alloc: Global,
        spare: &mut SpareRows,
        items: &mut Vec<Row>,
        others: &[Row],
    ) -> Result<(), AllocError> {
        for other in others {
            push_copy(alloc, spare, items, other)?;
        }
        Ok(())
    }
}

/// Copies of the elements in a chunk of their own.
fn copied<T: Appended>(
    alloc: Global,
    spare: &mut T::Spare,
    items: &[T],
) -> Result<Chunk<T>, AllocError>
    ensures { IfOk result (λ chunk. chunk ≡ items.now) }
{
    let mut copies = Vec::new(alloc);
    T::append(alloc, spare, &mut copies, items)?;
    Chunk::of_vec(alloc, copies)
}

/// Copies of a load's elements, which share nothing with it.
pub(crate) fn copied_load(
    alloc: Global,
    spare: &mut Spares,
    load: &Load,
) -> Result<Load, AllocError>
    ensures { IfOk result (λ given. elements given ≡ elements load.now) }
{
    match load {
        Load::Bytes(bytes) => Ok(Load::Bytes(copied(alloc, &mut (), bytes.as_slice())?)),
        Load::Lines(lines) => {
            let lines = copied(alloc, &mut spare.lines, lines.as_slice())?;
            Ok(Load::Lines(lines))
        }
        Load::Rows(rows) => {
            let rows = copied(alloc, &mut spare.rows, rows.as_slice())?;
            Ok(Load::Rows(rows))
        }
    }
}
