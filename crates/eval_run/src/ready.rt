//! What an evaluation makes before its device.
ghost use Rattle.std.specs.Prelude.{◌≡◌, ◌<◌, ◌≤◌, true, IfOk, IsSome};
ghost use Rattle.std.specs.List.{list_all};
ghost use Rattle.chunk_core.specs.Elements.LoadKind.{Bytes};
ghost use Rattle.step_words.specs.Words.{kind_behind, needs_no_table};
ghost use Rattle.eval_run.specs.Ready.{IsLinesNode, IsReady, IsStaffed};

use crate::copied::copy_steps;
use crate::lent::Staff;
use chunk_core::List;
use eval_hands::Bells;
use eval_work::GroupWork;
use lone_stream::{StreamRoom, make_room};
use par_eval::{Dealer, PlainLanes, Work};
use pipeline_desc::Step;
use pull_nodes::{Node, Pipe};
use pull_stepper::Held;
use res_ledger::StreamNo;
use row_seat::{PlainSeat, PlainTable};
use run_rules::EndOf;
use std::alloc::{AllocError, Global};

/// What an evaluation makes before its device: the node, its room and table, room for the device and for the end
/// of the stream, the hands with their queues and bells, and their work.
#[derive(Drop)]
pub(crate) struct Ready<V> {
    pub(crate) node: Node,
    pub(crate) room: StreamRoom<PlainSeat<Held<V>>, Held<V>>,
    pub(crate) table: PlainTable<Held<V>>,
    pub(crate) devices: Vec<V>,
    pub(crate) ends: Vec<EndOf>,
    pub(crate) lanes: PlainLanes,
    pub(crate) staff: Staff<GroupWork>,
    pub(crate) bells: Bells,
    pub(crate) work: GroupWork,
}

/// The lines of a file that is opened and read.
fn lines_node(alloc: Global) -> Result<Node, AllocError>
    ensures { IfOk result IsLinesNode }
{
    let read = Box::new(alloc, Node::Read(0))?;
    let lines = Box::new(alloc, Node::Through(read, Pipe::Lines))?;
    Ok(Node::Weak(0, lines))
}

/// So many hands, and room for them where they are at work.
fn make_staff<W: Work>(alloc: Global, jobs: u32) -> Result<(PlainLanes, Staff<W>), AllocError>
    requires jobs { (0 < jobs) × (jobs ≤ 64) }
    ensures { IfOk result (λ made. IsStaffed jobs made.0 made.1) }
{
    let (lanes, dealer, hands) = Dealer::new(alloc, jobs)?;
    let room = Vec::with_capacity(alloc, jobs as usize)?;
    Ok((
        lanes,
        Staff {
            dealer,
            hands,
            room,
        },
    ))
}

/// Makes all that is made before the device.
pub(crate) fn make_ready<V: Drop>(
    alloc: Global,
    jobs: u32,
    steps: &List<Step>,
) -> Result<Ready<V>, AllocError>
    requires jobs { (0 < jobs) × (jobs ≤ 64) }
    requires kinds { IsSome (kind_behind steps.now Bytes) }
    requires tables { list_all needs_no_table steps.now ≡ true }
    ensures ready { IfOk result (IsReady jobs) }
    ensures work { IfOk result (λ r. r.work ≡ steps.now) }
{
    let node = lines_node(alloc)?;
    let devices = Vec::with_capacity(alloc, 1)?;
    let ends = Vec::with_capacity(alloc, 1)?;
    let (room, table) = make_room(alloc, StreamNo::Inner(0))?;
    let (lanes, staff) = make_staff(alloc, jobs)?;
    let bells = Bells::new(alloc, jobs)?;
    let work = GroupWork::new(copy_steps(alloc, steps)?);
    Ok(Ready {
        node,
        room,
        table,
        devices,
        ends,
        lanes,
        staff,
        bells,
        work,
    })
}
