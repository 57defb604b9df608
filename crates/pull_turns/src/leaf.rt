//! One turn of a part with no part below it.
ghost use Rattle.std.specs.Prelude.{ℕ, ◌<◌, IfOk, OnErr};
ghost use Rattle.pull_turns.specs.Piping.{standing};
ghost use Rattle.pull_turns.specs.Rest.{CanStep};
ghost use Rattle.pull_turns.specs.Stepped.{Broken, IsLeaf, Stepped};
ghost use Rattle.pull_turns.specs.declared.rest.Rest.TheVariants as variants;

use crate::enter::enter;
use crate::outside::Outside;
use crate::piping::{finish, go_through};
use crate::reading::{SparePiece, read_piece};
use crate::rest::Rest;
use crate::turn::Turn;
use pull_nodes::{Node, PipeState};
use std::alloc::{AllocError, Global};
use std::mem;

/// One turn of a part with no part below it, in an open scope, with a read of at most `chunk` bytes.
/// Where a step stands above, which gets each load whole, no part is grouped.
pub(crate) fn leaf<O: Outside, F: PipeState>(
    alloc: Global,
    tables: &F::Tables,
    rest: &mut Rest<F>,
    outside: &mut O,
    desk: &mut O::Desk,
    scope: u32,
    chunk: u32,
    spare: &mut SparePiece,
    whole: bool,
) -> Result<Turn, AllocError>
    requires fits { O.fits outside.old desk.old }
    requires ready { CanStep (standing F.stands F.comes (F.values tables.now)) (O.seen outside.old) scope rest.old }
    requires chunk { 0 < chunk }
    requires leaf { IsLeaf rest.old }
    ensures stepped { IfOk result (λ t. Stepped (standing F.stands F.comes (F.values tables.now)) F.due (O.seen outside.old) (O.seen outside.new) scope chunk whole rest.old rest.new t) }
    ensures broken { OnErr result (Broken (O.seen outside.old) (O.seen outside.new) rest.old) }
    ensures fits { O.fits outside.new desk.new }
    ensures since { O.since outside.old desk.old outside.new desk.new }
{
    match rest {
        Rest::Nil => Ok(Turn::Done),
        Rest::Start(node) => {
            let node = mem::replace(node, Node::Nil);
            start(alloc, tables, rest, node, outside, desk, scope, whole)
        }
        Rest::Read(place, given) => {
            read_piece(alloc, outside, desk, *place, given, chunk, spare)
        }
        Rest::Finishing(state) => {
            let (turn, after) = finish(alloc, state)?;
            go_through(rest, after);
            Ok(turn)
        }
        Rest::Faulty(code) => Ok(Turn::Fault(*code)),
        _ => unreachable!(),
    }
}

/// A node is entered, and what is left of it stands in its place.
fn start<O: Outside, F: PipeState>(
    alloc: Global,
    tables: &F::Tables,
    rest: &mut Rest<F>,
    node: Node,
    outside: &mut O,
    desk: &mut O::Desk,
    scope: u32,
    whole: bool,
) -> Result<Turn, AllocError>
    requires fits { O.fits outside.old desk.old }
    requires ready { CanStep (standing F.stands F.comes (F.values tables.now)) (O.seen outside.old) scope (variants.Start node) }
    ensures stepped { IfOk result (λ t. (n : ℕ) → Stepped (standing F.stands F.comes (F.values tables.now)) F.due (O.seen outside.old) (O.seen outside.new) scope n whole (variants.Start node) rest.new t) }
    ensures broken { OnErr result (Broken {F = F} (O.seen outside.old) (O.seen outside.new) (variants.Start node)) }
    ensures fits { O.fits outside.new desk.new }
    ensures since { O.since outside.old desk.old outside.new desk.new }
{
    let (new, turn) = enter(alloc, tables, node, outside, desk, scope, whole)?;
    *rest = new;
    Ok(turn)
}
