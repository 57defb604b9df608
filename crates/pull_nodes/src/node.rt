//! The nodes of a stream.
ghost use Rattle.std.specs.Prelude.{◌≡◌, ◌+◌, ◌*◌, ◌<◌, ◌^◌, length};
ghost use Rattle.std.specs.Result.{result_ok};
ghost use Rattle.pull_nodes.specs.Kinds.{node_kind};
ghost use Rattle.pull_nodes.specs.Shape.{node_count, scope_count, places_of};

use crate::kind::{Kind, KindFault};
use crate::pipe::Pipe;
use chunk_core::Load;

/// A stream as plain data. The number in `Read`, `Weak` and `Into` is a place: the row of a device.
#[derive(Drop)]
pub enum Node {
    /// The end at once.
    Nil,
    /// The elements of a load.
    Emit(Load),
    /// The fault `Raised` with this number.
    Raise(u16),
    /// The bytes of a device that is open.
    Read(u32),
    /// Acquires a device in the current scope, and then runs the node. The device is released
    /// when that scope ends.
    Weak(u32, Box<Node>),
    /// Runs the node in a scope of its own, a child of the current one, that ends with the node.
    Scope(Box<Node>),
    /// The first node, and the second where the first came to its end.
    Append(Box<Node>, Box<Node>),
    /// The first node, and the second where the first ended in a fault.
    OnFault(Box<Node>, Box<Node>),
    /// What the pipe gives of the node's elements. What the pipe holds back is given only at the end
    /// of the whole input.
    Through(Box<Node>, Pipe),
    /// The first so many elements, and then the end: the node is asked no more.
    Take(u64, Box<Node>),
    /// Lines of the first node and of the second in pairs, as rows of two fields, until one side
    /// ends.
    Zip(Box<Node>, Box<Node>),
    /// The elements of both nodes, in any order between the two, until both have ended or one ends
    /// in a fault.
    Merge(Box<Node>, Box<Node>),
    /// Writes the node's elements as text to a device that is open, and gives nothing.
    Into(u32, Box<Node>),
}

/// Whatever the node is: what is said of a node with no part, with one, or with two.
macro_rules! by_parts {
    ($node:expr, $none:expr, |$part:ident| $one:expr, |$first:ident, $second:ident| $two:expr) => {
        match $node {
            Node::Nil | Node::Emit(_) | Node::Raise(_) | Node::Read(_) => $none,
            Node::Weak(_, $part)
            | Node::Scope($part)
            | Node::Through($part, _)
            | Node::Take(_, $part)
            | Node::Into(_, $part) => $one,
            Node::Append($first, $second)
            | Node::OnFault($first, $second)
            | Node::Zip($first, $second)
            | Node::Merge($first, $second) => $two,
        }
    };
}

pub(crate) use by_parts;

impl Node {
    /// The kind of its elements, or the fault where the two sides of a join have different
    /// kinds, or a join or a pipe doesn't take the kind that it gets.
    pub fn kind(&self) -> Result<Kind, KindFault>
        ensures { result_ok result ≡ node_kind self.now }
    {
        match self {
            Node::Emit(load) => Ok(Kind::of_load(load)),
            Node::Read(_) => Ok(Kind::Bytes),
            Node::Through(a, pipe) => pipe.kind(a.kind()?),
            Node::Zip(a, b) => a.kind()?.join(b.kind()?)?.paired(),
            Node::Merge(a, b) => a.kind()?.join(b.kind()?)?.merged(),
            Node::Into(_, a) => {
                a.kind()?;
                Ok(Kind::Any)
            }
            node => by_parts!(
                node,
                Ok(Kind::Any),
                |a| a.kind(),
                |a, b| a.kind()?.join(b.kind()?)
            ),
        }
    }

    /// The number of `Weak` nodes.
    #[tactic(auto, using(crate::proofs::Counts::places_le))]
    pub fn places(&self) -> u32
        requires few { node_count self.now < 2 ^ 32 }
        ensures { result ≡ length (places_of self.now) }
    {
        match self {
            Node::Weak(_, a) => a.places() + 1,
            node => by_parts!(node, 0, |a| a.places(), |a, b| a.places() + b.places()),
        }
    }

    /// The number of `Scope` nodes.
    #[tactic(auto, using(crate::proofs::Counts::scopes_le))]
    pub fn scopes(&self) -> u32
        requires few { node_count self.now < 2 ^ 32 }
        ensures { result ≡ scope_count self.now }
    {
        match self {
            Node::Scope(a) => a.scopes() + 1,
            node => by_parts!(node, 0, |a| a.scopes(), |a, b| a.scopes() + b.scopes()),
        }
    }

    /// The most events that a run notes: two for each place, two for each scope, and the close of
    /// the root.
    pub fn events(&self) -> u64
        requires few { node_count self.now < 2 ^ 32 }
        ensures { result ≡ 2 * length (places_of self.now) + 2 * scope_count self.now + 1 }
    {
        2 * self.places() as u64 + 2 * self.scopes() as u64 + 1
    }
}
