//! A node may go to another thread.
use crate::Node;

fn is_send<T: Send>(_value: &T) {}

/// A node is plain data.
pub fn nodes_cross(node: &Node) {
    is_send(node)
}
