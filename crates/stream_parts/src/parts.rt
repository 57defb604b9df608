//! What a stream takes before it begins.
ghost use Rattle.std.specs.Prelude.{◌<◌, IfOk, OnErr};
ghost use Rattle.pipeline_desc.specs.Meant.{stream_limit};
ghost use Rattle.stream_parts.specs.Named.{IsNamed};
ghost use Rattle.stream_parts.specs.Parts.{MakesNoParts, MakesParts};

use crate::make::make_devices;
use chunk_core::{List, Word};
use device_port::Depot;
use pipeline_desc::{Plan, node, outer_rows};
use pull_nodes::Node;
use pull_stepper::Held;
use scope_tree::Room;
use std::alloc::{AllocError, Global};

/// What a stream takes before its seat is split off: its node, room for its tree, and its devices in
/// the order of its rows.
pub struct StreamParts<V> {
    pub node: Node,
    pub room: Room<Held<V>>,
    pub devices: List<V>,
}

/// Makes the node of stream k, room for its tree, and its devices; one of the list reads the file at
/// this path. The tree has room for the rows of the outer stream too, since those of its lease may end
/// there. Where there is no memory for all of it, the devices that were made have gone back.
pub fn make_parts<D: Depot>(
    alloc: Global,
    plan: &Plan,
    k: u32,
    path: &Option<Word>,
    depot: &mut D,
) -> Result<StreamParts<D::Dev>, AllocError>
    requires within { k < stream_limit plan.now }
    requires named { IsNamed plan.now k path.now }
    ensures made { IfOk result (λ parts. MakesParts D.Dev.Device.told plan.now k path.now (D.told depot.old) (D.told depot.new) parts) }
    ensures unmade { OnErr result (MakesNoParts plan.now k path.now (D.told depot.old) (D.told depot.new)) }
{
    let node = node(alloc, plan, k)?;
    let rows = node.places() + outer_rows(plan);
    let room = Room::new(alloc, node.scopes() + 1, rows)?;
    let devices = make_devices(alloc, plan, k, path, depot)?;
    Ok(StreamParts {
        node,
        room,
        devices,
    })
}
