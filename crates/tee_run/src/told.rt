//! What is told of a tee.
ghost use Rattle.std.specs.Prelude.{◌≡◌, ◌+◌, ◌≤◌, ◌++◌, ◌||◌, ℕ, [], ◌∷◌, length, vec_capacity, vec_len};
ghost use Rattle.std.specs.List.{list_any};
ghost use Rattle.res_ledger.specs.declared.event.StreamNo.TheVariants.{Outer};
ghost use Rattle.run_rules.specs.Facts.{is_memory};
ghost use Rattle.tee_run.specs.Telling.{all_halted, ends_from};

use cat_run::Outcome;
use chunk_core::{How, List};
use pull_stepper::Held;
use res_ledger::StreamNo;
use run_rules::EndOf;
use scope_tree::Spent;

/// What a tee did, and the devices of its reader: those that were opened, and those that never were.
pub(crate) struct Teeing<V> {
    pub(crate) outcome: Outcome,
    pub(crate) shelf: List<Spent<Held<V>>>,
    pub(crate) unopened: List<V>,
}

/// The end of the reader goes first.
fn with_reader(ends: Vec<EndOf>, how: How) -> Vec<EndOf>
    requires none { ends.items ≡ [] }
    requires room { 1 ≤ vec_capacity ends }
    ensures items { result.items ≡ record { who = Outer; how = how } ∷ [] }
    ensures len { vec_len result ≡ 1 }
    ensures capacity { vec_capacity result ≡ vec_capacity ends }
{
    let mut ends = ends;
    ends.push_reserved(EndOf {
        who: StreamNo::Outer,
        how,
    });
    ends
}

/// The end of each branch follows.
fn with_branches(ends: Vec<EndOf>, branches: &[How]) -> List<EndOf>
    requires few { length branches.now ≤ 16 }
    requires room { vec_len ends + length branches.now ≤ vec_capacity ends }
    ensures { result ≡ ends.items ++ ends_from 0 branches.now }
{
    let mut ends = ends;
    let mut number = 0u32;
    for how in branches {
        ends.push_reserved(EndOf {
            who: StreamNo::Inner(number),
            how: *how,
        });
        number += 1;
    }
    List::of_vec(ends)
}

/// So many branches that were halted follow.
fn with_halted(ends: Vec<EndOf>, count: u32) -> List<EndOf>
    requires room { vec_len ends + count ≤ vec_capacity ends }
    ensures { result ≡ ends.items ++ ends_from 0 (all_halted count) }
{
    let mut ends = ends;
    for number in 0..count {
        ends.push_reserved(EndOf {
            who: StreamNo::Inner(number),
            how: How::Halted,
        });
    }
    List::of_vec(ends)
}

/// The end of the reader and of each branch, in the room that was made for them.
pub(crate) fn ends_of(ends: Vec<EndOf>, how: How, branches: &Vec<How>) -> List<EndOf>
    requires none { ends.items ≡ [] }
    requires few { length branches.now.items ≤ 16 }
    requires room { length branches.now.items + 1 ≤ vec_capacity ends }
    ensures { result ≡ record { who = Outer; how = how } ∷ ends_from 0 branches.now.items }
{
    with_branches(with_reader(ends, how), branches.as_slice())
}

/// The ends where the reader couldn't be begun: so many branches were halted.
pub(crate) fn unbegun_ends(ends: Vec<EndOf>, how: How, count: u32) -> List<EndOf>
    requires none { ends.items ≡ [] }
    requires room { count + 1 ≤ vec_capacity ends }
    ensures { result ≡ record { who = Outer; how = how } ∷ ends_from 0 (all_halted count) }
{
    with_halted(with_reader(ends, how), count)
}

/// Whether memory was wanting for one of these.
pub(crate) fn has_wanted(how: How, branches: &Vec<How>) -> bool
    ensures { result ≡ list_any is_memory (how ∷ branches.now.items) }
{
    match how {
        How::Memory => true,
        How::Done | How::Halted | How::Fault(_) => any_wanting(branches.as_slice()),
    }
}

/// Whether memory was wanting for a branch.
fn any_wanting(branches: &[How]) -> bool
    ensures { result ≡ list_any is_memory branches.now }
{
    branches.iter().any(is_wanting)
}

/// Whether it ended for want of memory.
fn is_wanting(how: &How) -> bool
    ensures { result ≡ is_memory how.now }
{
    matches!(how, How::Memory)
}
