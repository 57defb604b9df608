//! The room that one stream takes before its devices are made.
ghost use Rattle.std.specs.Prelude.{◌≡◌, IfOk, length};
ghost use Rattle.pull_nodes.specs.Shape.{places_of, scope_count};
ghost use Rattle.pull_nodes.specs.declared.node.Node.{Node as NodeOf};
ghost use Rattle.row_seat.specs.PlainSeats.{shown, Sits};
ghost use Rattle.lone_stream.specs.Rooms.{IsFileNode, IsRoomFor};

use pull_nodes::Node;
use pull_stepper::Held;
use res_ledger::StreamNo;
use row_seat::{PlainSeat, PlainTable};
use std::alloc::{AllocError, Global};

/// The room that a stream takes before its devices are made: its seat, and room for its tree.
#[derive(Drop)]
pub struct StreamRoom<S, P> {
    pub seat: S,
    pub scopes: scope_tree::Room<P>,
}

/// Room for a stream with a plain seat, and the table at which it sits.
pub type PlainRoom<V> = (StreamRoom<PlainSeat<Held<V>>, Held<V>>, PlainTable<Held<V>>);

/// Makes the seat of a stream with room for one row and its events, and room for a tree of one scope.
pub fn make_room<V: Drop>(alloc: Global, who: StreamNo) -> Result<PlainRoom<V>, AllocError>
    ensures room { IfOk result (λ made. (n : NodeOf) → length (places_of n) ≡ 1 → scope_count n ≡ 0 → IsRoomFor shown who n made.0) }
    ensures sits { IfOk result (λ made. Sits made.0.seat made.1) }
{
    let scopes = scope_tree::Room::new(alloc, 1, 1)?;
    let (seat, table) = PlainSeat::new(alloc, who, 1, 3)?;
    Ok((StreamRoom { seat, scopes }, table))
}

/// A file that is opened and read.
pub fn file_node(alloc: Global) -> Result<Node, AllocError>
    ensures { IfOk result IsFileNode }
{
    let read = Box::new(alloc, Node::Read(0))?;
    Ok(Node::Weak(0, read))
}
