//! The places of a node, and the devices for them.
ghost use Rattle.std.specs.Prelude.{◌≡◌, ◌≤◌, [], Some, map, filter_map, vec_len, vec_capacity};
ghost use Rattle.pull_nodes.specs.Shape.{places_of};
ghost use Rattle.pull_stepper.specs.Placing.{least, lesser_of};

use pull_nodes::Node;

/// The least place of a node, if it has any.
#[tactic(auto, using(crate::proofs::Firsts::least_append))]
pub(crate) fn first_place(node: &Node) -> Option<u32>
    ensures { result ≡ least (places_of node.now) }
{
    match node {
        Node::Nil | Node::Emit(_) | Node::Raise(_) | Node::Read(_) => None,
        Node::Weak(place, a) => lesser(Some(*place), first_place(a)),
        Node::Scope(a) | Node::Take(_, a) | Node::Into(_, a) => first_place(a),
        Node::Through(a, _) => first_place(a),
        Node::Append(a, b) | Node::OnFault(a, b) | Node::Zip(a, b) | Node::Merge(a, b) => {
            lesser(first_place(a), first_place(b))
        }
    }
}

fn lesser(a: Option<u32>, b: Option<u32>) -> Option<u32>
    ensures { result ≡ lesser_of a b }
{
    match (a, b) {
        (Some(a), Some(b)) => Some(a.min(b)),
        (Some(a), None) => Some(a),
        (None, b) => b,
    }
}

/// Puts each device into a slot of its own.
pub(crate) fn to_slots<V>(devices: &mut Vec<V>, slots: &mut Vec<Option<V>>)
    requires empty { slots.old.items ≡ [] }
    requires room { vec_len devices.old ≤ vec_capacity slots.old }
    ensures slots { slots.new.items ≡ map Some devices.old.items }
    ensures devices { devices.new.items ≡ [] }
    ensures room { vec_capacity devices.new ≡ vec_capacity devices.old }
{
    devices.reverse();
    'each: while let Some(device) = devices.pop() {
        slots.push_reserved(Some(device));
    }
}

/// Takes the devices out of their slots again.
pub(crate) fn from_slots<V>(mut slots: Vec<Option<V>>, devices: &mut Vec<V>)
    requires empty { devices.old.items ≡ [] }
    requires room { vec_len slots ≤ vec_capacity devices.old }
    ensures { devices.new.items ≡ filter_map (λ o. o) slots.items }
{
    slots.reverse();
    'each: while let Some(slot) = slots.pop() {
        if let Some(device) = slot {
            devices.push_reserved(device);
        }
    }
    slots.destroy_empty();
}
