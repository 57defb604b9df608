//! Elements that are compared, and those that differ from the one before them.
ghost use Rattle.std.specs.Prelude.{◌≡◌, IfOk, map, option_map, slice_get};
ghost use Rattle.std.specs.List.{list_all, zip};
ghost use Rattle.std.specs.Option.{option_copied};
ghost use Rattle.std.specs.Str.{bytes_eq};
ghost use Rattle.stream_ops.specs.Changed.{changed_behind, is_change, lines_in, rows_in};

use crate::loads::{Refilled, push_copy};
use chunk_core::{Line, Load, Row};
use std::alloc::{AllocError, Global};

pub(crate) trait Compared: Refilled {
    ghost use Rattle.std.specs.Prelude.{◌≡◌};
    ghost use Rattle.chunk_core.specs.Elements.{Element};
    ghost use Rattle.pull_nodes.specs.Changes.{same_element};

    ghost element: { Self → Element };

    fn is_same(&self, other: &Self) -> bool
        ensures { result ≡ same_element (element self.now) (element other.now) };
}

impl Compared for Line {
    ghost use Rattle.chunk_core.specs.Elements.Element.{Line};

    ghost element = { Line };

    fn is_same(&self, other: &Line) -> bool {
        self.as_slice() == other.as_slice()
    }
}

/// Whether the fields are the same, as far as both go.
fn same_fields(some: &[Line], others: &[Line]) -> bool
    ensures { result ≡ list_all (λ p. bytes_eq p.0 p.1) (zip some.now others.now) }
{
    some.iter()
        .zip(others)
        .all(|(a, b)| a.as_slice() == b.as_slice())
}

impl Compared for Row {
    ghost use Rattle.chunk_core.specs.Elements.Element.{Row};

    ghost element = { Row };

    fn is_same(&self, other: &Row) -> bool {
        self.len() == other.len() && same_fields(self.as_slice(), other.as_slice())
    }
}

fn is_new<T: Compared>(last: Option<&T>, item: &T) -> bool
    ensures { result ≡ is_change (option_map (λ y. T.element y.now) last.entry) (T.element item.now) }
{
    match last {
        Some(last) => !last.is_same(item),
        None => true,
    }
}

/// Copies of the elements that differ from the one before them; one may stand before the first.
pub(crate) fn changed<T: Compared>(
    alloc: Global,
    spare: &mut T::Spare,
    before: Option<&T>,
    items: &[T],
) -> Result<Vec<T>, AllocError>
    ensures { IfOk result (λ kept. map T.element kept.items ≡ changed_behind (option_map (λ y. T.element y.now) before.entry) (map T.element items.now)) }
{
    let mut kept = Vec::new(alloc);
    let mut last = before;
    for item in items {
        if is_new(last, item) {
            push_copy(alloc, spare, &mut kept, item)?;
        }
        last = Some(item);
    }
    Ok(kept)
}

/// Its first line, where it is a load of lines.
pub(crate) fn first_line(load: &Load) -> Option<&Line>
    ensures { option_copied result ≡ slice_get (lines_in load.now) 0 }
{
    match load {
        Load::Lines(lines) => lines.get(0),
        _ => None,
    }
}

/// Its first row, where it is a load of rows.
pub(crate) fn first_row(load: &Load) -> Option<&Row>
    ensures { option_copied result ≡ slice_get (rows_in load.now) 0 }
{
    match load {
        Load::Rows(rows) => rows.get(0),
        _ => None,
    }
}
