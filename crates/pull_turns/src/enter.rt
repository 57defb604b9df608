//! A node is entered.
ghost use Rattle.std.specs.Prelude.{◌≡◌, ℕ, IfOk, OnErr};
ghost use Rattle.pull_turns.specs.Piping.{standing};
ghost use Rattle.pull_turns.specs.Rest.{CanStep};
ghost use Rattle.pull_turns.specs.Stepped.{Broken, OpensNothing, Stepped};
ghost use Rattle.pull_turns.specs.declared.rest.Rest.TheVariants as rest;

use crate::groups::{group_size, in_groups};
use crate::loads::give;
use crate::outside::Outside;
use crate::rest::{Rest, When};
use crate::turn::Turn;
use crate::writing::written_at;
use chunk_core::Code;
use device_port::Failed;
use pull_nodes::{Node, PipeState};
use std::alloc::{AllocError, Global};
use stream_sides::{MergeState, ZipState};

/// Enters a node in an open scope: what is left of it, and what that turn gives. Where a step stands
/// above, which gets each load whole, no part is grouped.
pub(crate) fn enter<O: Outside, F: PipeState>(
    alloc: Global,
    tables: &F::Tables,
    node: Node,
    outside: &mut O,
    desk: &mut O::Desk,
    scope: u32,
    whole: bool,
) -> Result<(Rest<F>, Turn), AllocError>
    requires fits { O.fits outside.old desk.old }
    requires ready { CanStep (standing F.stands F.comes (F.values tables.now)) (O.seen outside.old) scope (rest.Start node) }
    ensures stepped { IfOk result (λ r. (n : ℕ) → Stepped (standing F.stands F.comes (F.values tables.now)) F.due (O.seen outside.old) (O.seen outside.new) scope n whole (rest.Start node) r.0 r.1) }
    ensures broken { OnErr result (Broken {F = F} (O.seen outside.old) (O.seen outside.new) (rest.Start node)) }
    ensures fits { O.fits outside.new desk.new }
    ensures since { O.since outside.old desk.old outside.new desk.new }
{
    match node {
        Node::Weak(place, a) => match outside.open(desk, scope, place) {
            Ok(()) => Ok((Rest::Start(Box::into_inner(a)), Turn::Quiet)),
            Err(Failed) => Ok((Rest::Nil, Turn::Fault(Code::Open))),
        },
        Node::Scope(a) => {
            let a = begin(alloc, a)?;
            let child = outside.enter(desk, scope);
            Ok((Rest::Within(child, a), Turn::Quiet))
        }
        node => enter_part(alloc, tables, node, outside, scope, whole),
    }
}

/// Enters a node that opens no device and no scope.
fn enter_part<O: Outside, F: PipeState>(
    alloc: Global,
    tables: &F::Tables,
    node: Node,
    outside: &O,
    scope: u32,
    whole: bool,
) -> Result<(Rest<F>, Turn), AllocError>
    requires opens { OpensNothing node }
    requires ready { CanStep (standing F.stands F.comes (F.values tables.now)) (O.seen outside.now) scope (rest.Start node) }
    ensures { IfOk result (λ r. (n : ℕ) → Stepped (standing F.stands F.comes (F.values tables.now)) F.due (O.seen outside.now) (O.seen outside.now) scope n whole (rest.Start node) r.0 r.1) }
{
    match node {
        Node::Nil => Ok((Rest::Nil, Turn::Done)),
        Node::Emit(load) => Ok((Rest::Nil, give(load))),
        Node::Raise(number) => Ok((Rest::Nil, Turn::Fault(Code::Raised(number)))),
        Node::Read(place) => Ok((Rest::Read(place, 0), Turn::Quiet)),
        Node::Append(a, b) => {
            let a = begin(alloc, a)?;
            Ok((Rest::Then(When::Done, a, b), Turn::Quiet))
        }
        Node::OnFault(a, b) => {
            let a = begin(alloc, a)?;
            Ok((Rest::Then(When::Fault, a, b), Turn::Quiet))
        }
        Node::Through(a, pipe) => {
            let size = group_size(&pipe, whole);
            let state = F::of(alloc, tables, pipe)?;
            let a = begin(alloc, a)?;
            let rest = in_groups(alloc, size, Rest::Through(a, state))?;
            Ok((rest, Turn::Quiet))
        }
        Node::Zip(a, b) => {
            let a = begin(alloc, a)?;
            let b = begin(alloc, b)?;
            Ok((Rest::Zip(ZipState::new(alloc), a, b), Turn::Quiet))
        }
        Node::Merge(a, b) => {
            let a = begin(alloc, a)?;
            let b = begin(alloc, b)?;
            Ok((Rest::Merge(MergeState::new(), a, b), Turn::Quiet))
        }
        Node::Take(wanted, a) => {
            let a = begin(alloc, a)?;
            Ok((Rest::Take(wanted, a), Turn::Quiet))
        }
        Node::Into(place, a) => {
            let a = begin(alloc, a)?;
            let written = written_at(outside, place);
            Ok((Rest::Into(place, written, a), Turn::Quiet))
        }
        _ => unreachable!(),
    }
}

fn begin<F: Drop>(alloc: Global, node: Box<Node>) -> Result<Box<Rest<F>>, AllocError>
    ensures { IfOk result (λ r. r.value ≡ rest.Start node.value) }
{
    Ok(Box::new(alloc, Rest::Start(Box::into_inner(node)))?)
}
