//! One turn of what is left of a node.
ghost use Rattle.std.specs.Prelude.{◌≡◌, ◌<◌, true, IfOk, OnErr, if◌then◌else◌};
ghost use Rattle.pull_turns.specs.Groups.{HasNoGroups};
ghost use Rattle.pull_turns.specs.Piping.{standing};
ghost use Rattle.pull_turns.specs.Rest.{CanStep};
ghost use Rattle.pull_turns.specs.Stepped.{Broken, Stepped};
ghost use Rattle.pull_turns.specs.Moves.{begins, behind, turn_of_first, LeavesAtEnd};

use crate::groups::grouped;
use crate::leaf::leaf;
use crate::loads::taken;
use crate::outside::Outside;
use crate::piping::{go_through, pass};
use crate::reading::SparePiece;
use crate::rest::{Rest, When};
use crate::sided::{merged, zipped};
use crate::turn::Turn;
use crate::writing::write_load;
use pull_nodes::PipeState;
use std::alloc::{AllocError, Global};
use std::mem;
use stream_sides::Side;

/// One turn in an open scope, with a read of at most `chunk` bytes. Where a step stands above, which
/// gets each load whole, no part is grouped.
pub(crate) fn step<O: Outside, F: PipeState>(
    alloc: Global,
    tables: &F::Tables,
    rest: &mut Rest<F>,
    outside: &mut O,
    desk: &mut O::Desk,
    scope: u32,
    chunk: u32,
    spare: &mut SparePiece,
    whole: bool,
) -> Result<Turn, AllocError>
    requires fits { O.fits outside.old desk.old }
    requires ready { CanStep (standing F.stands F.comes (F.values tables.now)) (O.seen outside.old) scope rest.old }
    requires chunk { 0 < chunk }
    requires whole { whole ≡ true → HasNoGroups rest.old }
    ensures stepped { IfOk result (λ t. Stepped (standing F.stands F.comes (F.values tables.now)) F.due (O.seen outside.old) (O.seen outside.new) scope chunk whole rest.old rest.new t) }
    ensures broken { OnErr result (Broken (O.seen outside.old) (O.seen outside.new) rest.old) }
    ensures fits { O.fits outside.new desk.new }
    ensures since { O.since outside.old desk.old outside.new desk.new }
{
    match rest {
        Rest::Within(child, a) => {
            let turn = step(alloc, tables, a, outside, desk, *child, chunk, spare, whole)?;
            leave_at_end(outside, desk, *child, &turn);
            Ok(turn)
        }
        Rest::Then(when, a, _) => {
            let when = *when;
            let turn = step(alloc, tables, a, outside, desk, scope, chunk, spare, whole)?;
            Ok(after_first(rest, when, turn))
        }
        Rest::Through(a, state) => {
            let below = step(alloc, tables, a, outside, desk, scope, chunk, spare, true)?;
            let (turn, after) = pass(alloc, state, below)?;
            go_through(rest, after);
            Ok(turn)
        }
        Rest::Groups(size, waits, a) => {
            if let Some(load) = waits.take() {
                return grouped(*size, waits, Turn::Chunk(load));
            }
            let turn = step(alloc, tables, a, outside, desk, scope, chunk, spare, true)?;
            grouped(*size, waits, turn)
        }
        Rest::Take(wanted, a) => {
            if *wanted == 0 {
                return Ok(Turn::Done);
            }
            let turn = step(alloc, tables, a, outside, desk, scope, chunk, spare, true)?;
            taken(wanted, turn)
        }
        Rest::Into(place, written, a) => {
            let below = step(alloc, tables, a, outside, desk, scope, chunk, spare, true)?;
            write_load(alloc, outside, desk, *place, written, below)
        }
        Rest::Zip(state, a, b) => match state.need() {
            Side::Left => {
                let below = step(alloc, tables, a, outside, desk, scope, chunk, spare, true)?;
                zipped(state, Side::Left, below)
            }
            Side::Right => {
                let below = step(alloc, tables, b, outside, desk, scope, chunk, spare, true)?;
                zipped(state, Side::Right, below)
            }
        },
        Rest::Merge(state, a, b) => match state.next() {
            Side::Left => {
                let below = step(alloc, tables, a, outside, desk, scope, chunk, spare, whole)?;
                Ok(merged(state, Side::Left, a, below))
            }
            Side::Right => {
                let below = step(alloc, tables, b, outside, desk, scope, chunk, spare, whole)?;
                Ok(merged(state, Side::Right, b, below))
            }
        },
        _ => leaf(
            alloc, tables, rest, outside, desk, scope, chunk, spare, whole,
        ),
    }
}

/// A scope is closed where what ran in it has ended, with the exit of that end.
pub(crate) fn leave_at_end<O: Outside>(outside: &mut O, desk: &mut O::Desk, scope: u32, turn: &Turn)
    requires fits { O.fits outside.old desk.old }
    requires scope { (O.seen outside.old).opened scope }
    ensures ends { LeavesAtEnd O.seen outside.old scope turn.now outside.new }
    ensures fits { O.fits outside.new desk.new }
    ensures since { O.since outside.old desk.old outside.new desk.new }
{
    if let Some(how) = turn.how() {
        outside.leave(desk, scope, how.exit());
    }
}

/// The second part is all that is left.
fn go_on<F: Drop>(rest: &mut Rest<F>)
    ensures { rest.new ≡ behind rest.old }
{
    match mem::replace(rest, Rest::Nil) {
        Rest::Then(_when, _a, b) => *rest = Rest::Start(Box::into_inner(b)),
        other => *rest = other,
    }
}

/// A turn of the first part, or where it begins the second a quiet turn.
fn after_first<F: Drop>(rest: &mut Rest<F>, when: When, turn: Turn) -> Turn
    ensures rest { rest.new ≡ (if begins when turn then behind rest.old else rest.old) }
    ensures turn { result ≡ turn_of_first when turn }
{
    if when.begins(&turn) {
        go_on(rest);
        return Turn::Quiet;
    }
    turn
}
