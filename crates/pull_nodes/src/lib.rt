//! What a stream is: a node, its kind and its places, and the pipes; in the specs what each node may
//! give and how it may end, and what each pipe gives.
//!
//! - `Node` is a stream as plain data. A device is named by its place, which is the row that it will
//!   have: `Weak` acquires it, `Read` reads it and `Into` writes it.
//! - `kind` tells what its elements are, or `KindFault` where a pipe gets a kind that it doesn't
//!   take, or a join two kinds. `placed` tells whether each device is acquired in one place and used
//!   in one, and `places`, `scopes` and `events` how many rows, scopes and events a run needs.
//! - `Pipe` is a step as plain data. `PipeState::of` makes the state that runs it, which needs
//!   memory; no other call does.
//! - `node_laws` has what holds of every run (`IsRun`) and of every pipe.
//!
//! ```
//! let alloc = rt.alloc();
//! let file = Node::Weak(0, Box::new(alloc, Node::Read(0))?);
//! let lines = Node::Through(Box::new(alloc, file)?, Pipe::Lines);
//! let part = Node::Scope(Box::new(alloc, lines)?);
//! let other = Box::new(alloc, Node::Raise(9))?;
//! let node = Node::OnFault(Box::new(alloc, part)?, other);
//!
//! assert_eq!(rt; node.kind(), Ok(Kind::Lines));
//! assert!(rt; node.placed(Span { from: 0, to: 1 }));
//! assert_eq!(rt; node.places(), 1);
//! assert_eq!(rt; node.scopes(), 1);
//! assert_eq!(rt; node.events(), 5);
//!
//! let twice = Node::Through(Box::new(alloc, node)?, Pipe::Lines);
//! assert_eq!(rt; twice.kind(), Err(KindFault));
//! ```
#![tactic(auto)]

pub mod crossing;
pub mod kind;
pub mod node;
pub mod pipe;
pub mod placed;
pub mod state;

pub use kind::{Kind, KindFault};
pub use node::Node;
pub use pipe::Pipe;
pub use state::PipeState;
