//! Where a legal ledger first breaks the order of its streams.
ghost use Rattle.std.specs.Prelude.{◌≡◌, ◌≢◌, ◌≤◌, ◌+◌, ℕ, Bool, true, false, List, [], ◌∷◌, ◌++◌, IfOk, OnOk, MatchOption, None, Some, length, nat_eq, slice_get, take, if◌then◌else◌};
ghost use Rattle.std.specs.HashMap.{get};
ghost use Rattle.chunk_core.specs.Lists.{has};
ghost use Rattle.chunk_core.specs.declared.code.Exit.{Exit};
ghost use Rattle.res_ledger.specs.declared.event.Event.{Event};
ghost use Rattle.res_ledger.specs.declared.event.What.TheVariants.{Final};
ghost use Rattle.res_ledger.specs.Ledger.{IsLegal};
ghost use Rattle.res_ledger.specs.Own.{own, teardown};
ghost use Rattle.res_ledger.specs.Order.{covered};
ghost use Rattle.ledger_verdict.specs.Pending.{Due};
ghost use Rattle.ledger_verdict.specs.Verdict.{IsOrderedSoFar};
ghost use Rattle.ledger_books.specs.Kept.{Keeps};
ghost use Rattle.ledger_audit.specs.Marks.{Tells};
ghost use Rattle.ledger_audit.specs.Orders.{IsFirstDisordered, IsJudged, begins, due_next, due_upto, mark_of};
ghost use Rattle.ledger_audit.specs.Trees.{HasTrees};

use crate::marks::{Mark, after_cancel, after_final, is_over};
use crate::trees::Trees;
use chunk_core::Exit;
use ledger_books::scopes::number;
use ledger_books::{Books, Lenders};
use res_ledger::{Event, StreamNo, What};
use std::alloc::{AllocError, Global};
use std::collections::HashMap;

/// What is kept of the events so far: the scopes and rows of each stream, what its last Close or
/// Cancel still has to come, and the rows that were taken down.
#[derive(Drop)]
pub struct Order {
    trees: Trees,
    marks: HashMap<u64, Mark>,
    torn: Vec<u32>,
}

/// What is due after a Close of the scope, at a place, with this exit.
fn after_close(
    alloc: Global,
    books: &Books,
    past: &[Event],
    trees: &Trees,
    torn: &mut Vec<u32>,
    by: StreamNo,
    scope: u32,
    exit: Exit,
    place: u64,
) -> Result<Mark, AllocError>
    requires keeps { Keeps books.now past.now }
    requires legal { IsLegal past.now }
    requires within { place ≤ length past.now }
    requires trees { HasTrees trees.now (take place past.now) }
    ensures tells { IfOk result (λ m. Tells past.now torn.new.items m (record { exit = exit; strict = true; rows = teardown (own by (take place past.now)) scope })) }
    ensures grows { OnOk result ((xs : List ℕ) × (torn.new.items ≡ torn.old.items ++ xs)) }
{
    let from = torn.len() as u64;
    trees.add_torn(alloc, &books.index, past, by, scope, place, torn)?;
    Ok(Mark::Closed(exit, from, torn.len() as u64))
}

/// What is due after an event, at a place, that is no Final.
fn begun(
    alloc: Global,
    books: &Books,
    past: &[Event],
    trees: &Trees,
    torn: &mut Vec<u32>,
    event: Event,
    place: u64,
) -> Result<Mark, AllocError>
    requires keeps { Keeps books.now past.now }
    requires legal { IsLegal past.now }
    requires stands { slice_get past.now place ≡ Some event }
    requires trees { HasTrees trees.now (take place past.now) }
    ensures tells { IfOk result (λ m. (d : Due) → Tells past.now torn.new.items m (begins past.now (take place past.now) event.by d event.what)) }
    ensures grows { OnOk result ((xs : List ℕ) × (torn.new.items ≡ torn.old.items ++ xs)) }
{
    match event.what {
        What::Cancel { stream, exit } => Ok(after_cancel(books, past, stream, exit)),
        What::Close { scope, exit } => {
            after_close(
                alloc, books, past, trees, torn, event.by, scope, exit, place,
            )
        }
        _ => Ok(Mark::Nothing),
    }
}

/// What is due after an event at a place, if it may come there.
fn next(
    alloc: Global,
    books: &Books,
    lenders: &Lenders,
    past: &[Event],
    trees: &Trees,
    torn: &mut Vec<u32>,
    event: Event,
    place: u64,
    mark: Mark,
) -> Result<Option<Mark>, AllocError>
    requires keeps { Keeps books.now past.now }
    requires legal { IsLegal past.now }
    requires stands { slice_get past.now place ≡ Some event }
    requires trees { HasTrees trees.now (take place past.now) }
    ensures tells { IfOk result (λ o. (d : Due) → Tells past.now torn.old.items mark d → MatchOption o (due_next past.now (take place past.now) event.by d event.what ≡ None) (λ m. (e : Due) × (due_next past.now (take place past.now) event.by d event.what ≡ Some e) × Tells past.now torn.new.items m e)) }
    ensures grows { OnOk result ((xs : List ℕ) × (torn.new.items ≡ torn.old.items ++ xs)) }
{
    if let What::Final { row, exit, .. } = event.what {
        return after_final(alloc, books, lenders, past, torn, mark, row, exit);
    }
    if !is_over(alloc, books, lenders, past, torn, mark)? {
        return Ok(None);
    }
    let mark = begun(alloc, books, past, trees, torn, event, place)?;
    Ok(Some(mark))
}

/// No stream has a mark.
fn no_marks(alloc: Global) -> HashMap<u64, Mark>
    ensures { (n : ℕ) → get nat_eq result n ≡ None }
{
    HashMap::new(alloc)
}

/// Sets the mark of a stream.
fn put_mark(marks: &mut HashMap<u64, Mark>, stream: u64, mark: Mark) -> Result<(), AllocError>
    ensures { OnOk result ((n : ℕ) → get nat_eq marks.new n ≡ (if nat_eq stream n then Some mark else get nat_eq marks.old n)) }
{
    let Ok(_) = marks.insert(stream, mark) else {
        return Err(AllocError);
    };
    Ok(())
}

impl Order {
    /// Of no event.
    pub fn new(alloc: Global) -> Order
        ensures { (L : List Event) → IsJudged result L [] }
    {
        Order {
            trees: Trees::new(alloc),
            marks: no_marks(alloc),
            torn: Vec::new(alloc),
        }
    }

    /// What the last Close or Cancel of a stream still has to come.
    fn mark(&self, stream: u64) -> Mark
        ensures { result ≡ mark_of self.now stream }
    {
        self.marks.get(&stream).copied().unwrap_or(Mark::Nothing)
    }

    /// Whether the streams are in order so far with the event at a place, which is kept if so.
    pub fn step(
        &mut self,
        alloc: Global,
        books: &Books,
        lenders: &Lenders,
        past: &[Event],
        event: Event,
        place: u64,
    ) -> Result<bool, AllocError>
        requires keeps { Keeps books.now past.now }
        requires legal { IsLegal past.now }
        requires stands { slice_get past.now place ≡ Some event }
        requires judged { IsJudged self.now past.now (take place past.now) }
        ensures kept { IfOk result (λ b. b ≡ true → IsJudged self.new past.now (take place past.now ++ event ∷ [])) }
        ensures broken { IfOk result (λ b. b ≡ false → due_upto past.now event.by (take place past.now ++ event ∷ []) ≡ None) }
    {
        let stream = number(event.by);
        let mark = self.mark(stream);
        let Some(mark) = next(
            alloc,
            books,
            lenders,
            past,
            &self.trees,
            &mut self.torn,
            event,
            place,
            mark,
        )?
        else {
            return Ok(false);
        };
        self.trees.note(event)?;
        put_mark(&mut self.marks, stream, mark)?;
        Ok(true)
    }
}

/// The place of the first event with which a stream isn't in order so far.
pub fn first_disordered(
    alloc: Global,
    books: &Books,
    events: &[Event],
) -> Result<Option<u64>, AllocError>
    requires keeps { Keeps books.now events.now }
    requires legal { IsLegal events.now }
    ensures { IfOk result (λ o. MatchOption o (IsOrderedSoFar events.now) (IsFirstDisordered events.now)) }
{
    let lenders = Lenders::of(alloc, events)?;
    let mut order = Order::new(alloc);
    for (i, event) in events.iter().enumerate() {
        if !order.step(alloc, books, &lenders, events, *event, i as u64)? {
            return Ok(Some(i as u64));
        }
    }
    Ok(None)
}
