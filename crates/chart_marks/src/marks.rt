//! The marks of a ledger.
ghost use Rattle.std.specs.Prelude.{◌≡◌, ◌++◌, IfOk, OnOk};
ghost use Rattle.std.specs.HashMap.{get};
ghost use Rattle.chart_marks.specs.Marks.{begun_by, end_or, ended_by, mark_for, marks_of, same_thing};
ghost use Rattle.chart_marks.specs.declared.marks.Thing.{Thing};

use chunk_core::Exit;
use res_ledger::{Event, Ledger, StreamNo, What};
use std::alloc::{AllocError, Global};
use std::collections::HashMap;

/// What a mark stands for: a row, the lease for a stream, or a Close of a scope.
#[derive(Clone, Copy, Debug, PartialEq, Eq, Hash)]
pub enum Thing {
    Row(u32),
    Lease(u32),
    Close(u32),
}

/// The event that ends something: its place, its exit, and whether the finalizer did well, if it is a
/// Final.
#[derive(Clone, Copy, Debug, PartialEq, Eq)]
pub struct End {
    pub place: u64,
    pub exit: Exit,
    pub ok: bool,
}

/// What a stream began in a scope at a place of the ledger, and how it was ended, if it was.
#[derive(Clone, Copy, Debug, PartialEq, Eq)]
pub struct Mark {
    pub by: StreamNo,
    pub thing: Thing,
    pub scope: u32,
    pub begin: u64,
    pub end: Option<End>,
}

fn begun_by(what: What) -> Option<(Thing, u32)>
    ensures { result ≡ begun_by what }
{
    match what {
        What::Acquire { row, scope } => Some((Thing::Row(row), scope)),
        What::Lease { stream, scope } => Some((Thing::Lease(stream), scope)),
        What::Close { scope, .. } => Some((Thing::Close(scope), scope)),
        _ => None,
    }
}

fn ended_by(what: What) -> Option<(Thing, Exit, bool)>
    ensures { result ≡ ended_by what }
{
    match what {
        What::Final { row, exit, ok } => Some((Thing::Row(row), exit, ok)),
        What::Cancel { stream, exit } => Some((Thing::Lease(stream), exit, true)),
        What::Close { scope, exit } => Some((Thing::Close(scope), exit, true)),
        _ => None,
    }
}

/// Keeps what the event ends, in place of what stands behind it.
fn keep_end(ends: &mut HashMap<Thing, End>, event: Event) -> Result<(), AllocError>
    ensures { OnOk result ((q : Thing) → get same_thing ends.new q ≡ end_or q event.stamp (ended_by event.what) (get same_thing ends.old q)) }
{
    let Some((thing, exit, ok)) = ended_by(event.what) else {
        return Ok(());
    };
    let place = event.stamp;
    let Ok(_) = ends.insert(thing, End { place, exit, ok }) else {
        return Err(AllocError);
    };
    Ok(())
}

/// Adds the mark of what the event begins.
fn add_mark(
    marks: &mut Vec<Mark>,
    ends: &HashMap<Thing, End>,
    event: Event,
) -> Result<(), AllocError>
    ensures { OnOk result (marks.new.items ≡ marks.old.items ++ mark_for event (begun_by event.what) (λ q. get same_thing ends.now q)) }
{
    let Some((thing, scope)) = begun_by(event.what) else {
        return Ok(());
    };
    let (by, begin, end) = (event.by, event.stamp, ends.get(&thing).copied());
    marks.push(Mark {
        by,
        thing,
        scope,
        begin,
        end,
    })?;
    Ok(())
}

/// The marks of a ledger, in its order.
pub fn marks_of(alloc: Global, ledger: &Ledger) -> Result<Vec<Mark>, AllocError>
    ensures { IfOk result (λ marks. marks.items ≡ marks_of ledger.now) }
{
    let events = ledger.as_slice();
    let mut ends = HashMap::new(alloc);
    let mut marks = Vec::new(alloc);
    let mut n = events.len();
    while n > 0 {
        n -= 1;
        keep_end(&mut ends, events[n])?;
        add_mark(&mut marks, &ends, events[n])?;
    }
    marks.reverse();
    Ok(marks)
}
