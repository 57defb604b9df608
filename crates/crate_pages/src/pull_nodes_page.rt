//! A node's kind, places and events.
use chunk_core::Span;
use pull_nodes::{Kind, KindFault, Node, Pipe};
use std::test::Fail;

#[test]
fn a_node_tells_its_kind_places_and_events(rt: HostRuntime) -> Result<(), Fail> {
    let alloc = rt.alloc();
    let file = Node::Weak(0, Box::new(alloc, Node::Read(0))?);
    let lines = Node::Through(Box::new(alloc, file)?, Pipe::Lines);
    let part = Node::Scope(Box::new(alloc, lines)?);
    let other = Box::new(alloc, Node::Raise(9))?;
    let node = Node::OnFault(Box::new(alloc, part)?, other);

    assert_eq!(rt; node.kind(), Ok(Kind::Lines));
    assert!(rt; node.placed(Span { from: 0, to: 1 }));
    assert_eq!(rt; node.places(), 1);
    assert_eq!(rt; node.scopes(), 1);
    assert_eq!(rt; node.events(), 5);

    let twice = Node::Through(Box::new(alloc, node)?, Pipe::Lines);
    assert_eq!(rt; twice.kind(), Err(KindFault));
    Ok(())
}
