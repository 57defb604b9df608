//! Nodes of which the tests put theirs together.
ghost use Rattle.std.specs.Prelude.{◌≡◌, ◌+◌, ◌<◌, ◌≤◌, ◌^◌, true, IfSome};
ghost use Rattle.pull_nodes.specs.Shape.{node_count};

use chunk_core::{Chunk, Line, Load};
use pull_nodes::{Node, Pipe};
use std::alloc::{AllocError, Global};
use std::process::Abort;

pub(crate) fn boxed(rt: &(impl Abort + AllocGlobal), node: Node) -> Box<Node> {
    Box::new(rt.alloc(), node).expect(rt, "memory")
}

/// The end at once.
pub(crate) fn nil(rt: &(impl Abort + AllocGlobal)) -> Box<Node> {
    boxed(rt, Node::Nil)
}

/// A fault.
pub(crate) fn fault(rt: &(impl Abort + AllocGlobal)) -> Box<Node> {
    boxed(rt, Node::Raise(9))
}

/// Acquires a place and reads it.
pub(crate) fn source(rt: &(impl Abort + AllocGlobal), place: u32) -> Box<Node> {
    let read = boxed(rt, Node::Read(place));
    boxed(rt, Node::Weak(place, read))
}

/// A part in a scope of its own.
pub(crate) fn scope(rt: &(impl Abort + AllocGlobal), part: Box<Node>) -> Box<Node> {
    boxed(rt, Node::Scope(part))
}

/// What a pipe gives of a part.
pub(crate) fn through(rt: &(impl Abort + AllocGlobal), part: Box<Node>, pipe: Pipe) -> Box<Node> {
    boxed(rt, Node::Through(part, pipe))
}

/// The lines of the file at a place.
pub(crate) fn lines_of(rt: &(impl Abort + AllocGlobal), place: u32) -> Box<Node> {
    through(rt, source(rt, place), Pipe::Lines)
}

/// Acquires a place, and writes there what comes of a part.
pub(crate) fn into(rt: &(impl Abort + AllocGlobal), place: u32, part: Box<Node>) -> Node {
    Node::Weak(place, boxed(rt, Node::Into(place, part)))
}

fn load_of(alloc: Global, texts: &[&[u8]]) -> Result<Load, AllocError> {
    let mut lines = Vec::new(alloc);
    for text in texts {
        lines.push(Line::copy_of(alloc, text)?)?;
    }
    Ok(Load::Lines(Chunk::of_vec(alloc, lines)?))
}

/// Each text as a line.
pub(crate) fn emit(rt: &(impl Abort + AllocGlobal), texts: &[&[u8]]) -> Box<Node> {
    let load = load_of(rt.alloc(), texts).expect(rt, "memory");
    boxed(rt, Node::Emit(load))
}

/// Two lines.
pub(crate) fn two_lines(rt: &(impl Abort + AllocGlobal)) -> Box<Node> {
    emit(rt, &[b"a", b"b"])
}

/// How many nodes are left of so many, if there are no more in this one.
fn left_of(most: u32, node: &Node) -> Option<u32>
    ensures { IfSome result (λ k. k + node_count node.now ≤ most) }
{
    if most == 0 {
        return None;
    }
    let rest = most - 1;
    match node {
        Node::Nil | Node::Emit(_) | Node::Raise(_) | Node::Read(_) => Some(rest),
        Node::Scope(a) | Node::Take(_, a) | Node::Weak(_, a) | Node::Into(_, a) => left_of(rest, a),
        Node::Through(a, _) => left_of(rest, a),
        Node::Append(a, b) | Node::OnFault(a, b) | Node::Zip(a, b) | Node::Merge(a, b) => {
            left_of(left_of(rest, a)?, b)
        }
    }
}

/// There are few nodes in this one.
pub(crate) fn is_few(node: &Node) -> bool
    ensures { result ≡ true → node_count node.now < 2 ^ 16 }
{
    left_of(1000, node).is_some()
}
