//! The nodes, the rows and the events of a plan's streams.
ghost use Rattle.std.specs.Prelude.{◌≡◌, ℕ, ◌+◌, ◌*◌, ◌^◌, ◌≤◌, ◌<◌, true, Some, IsOk, IsSome, length, [], None, option_to_list, IfOk};
ghost use Rattle.std.specs.List.{sum_by};
ghost use Rattle.pull_nodes.specs.Kinds.{node_kind};
ghost use Rattle.pull_nodes.specs.Placed.{is_placed};
ghost use Rattle.pull_nodes.specs.Shape.{node_count, places_of, reads_of, scope_count, writes_of};
ghost use Rattle.pipeline_desc.specs.Steps.{kind_given};
ghost use Rattle.pull_nodes.specs.declared.kind.Kind.{Kind};
ghost use Rattle.device_port.specs.Device.{is_read, is_write};
ghost use Rattle.pipeline_desc.specs.Nodes.{IsBehind, IsBehindStep, IsBeside, IsBody, IsCore, IsJoined, IsMade, IsNodeOf, IsOrText, IsStreamNode, IsWritten, event_count, events_of, load_of, path_row, rows_for, scopes_of};
ghost use Rattle.pipeline_desc.specs.Limits.{most_tables};
ghost use Rattle.pipeline_desc.specs.Meant.{listed_stream, stream_limit};
ghost use Rattle.pipeline_desc.specs.Places.{first_row, outer_rows, row_count, rows_within, rows_of};

use crate::join::Join;
use crate::listing::ListSpec;
use crate::plan::Plan;
use crate::step::Step;
use crate::stream::{Second, StreamSpec};
use chunk_core::{Chunk, Line, List, Load, Span, Word};
use pull_nodes::{Kind, Node, Pipe};
use std::alloc::{AllocError, Global};

/// A node behind a step.
fn behind_step(alloc: Global, step: &Step, part: Node) -> Result<Node, AllocError>
    ensures { IfOk result (λ n. IsBehindStep step.now part n) }
{
    match step {
        Step::Take(n) => Ok(Node::Take(*n, Box::new(alloc, part)?)),
        Step::Pipe(pipe) => {
            let pipe = Pipe::copy_of(alloc, pipe)?;
            Ok(Node::Through(Box::new(alloc, part)?, pipe))
        }
    }
}

/// A node behind steps.
fn behind(alloc: Global, steps: &[Step], part: Node) -> Result<Node, AllocError>
    ensures { IfOk result (λ n. IsBehind steps.now part n) }
{
    let mut node = part;
    for step in steps {
        node = behind_step(alloc, step, node)?;
    }
    Ok(node)
}

/// A join of two sides.
fn joined(alloc: Global, join: Join, first: Node, second: Node) -> Result<Node, AllocError>
    ensures { IfOk result (λ n. IsJoined join first second n) }
{
    let (first, second) = (Box::new(alloc, first)?, Box::new(alloc, second)?);
    Ok(match join {
        Join::Append => Node::Append(first, second),
        Join::Zip => Node::Zip(first, second),
        Join::Merge => Node::Merge(first, second),
    })
}

/// The node that reads the device at a place, and with a second side the one behind it.
fn core_of(alloc: Global, place: u32, stream: &StreamSpec) -> Result<Node, AllocError>
    requires { place + 1 < 2 ^ 32 }
    ensures { IfOk result (λ n. IsCore place stream.now.steps stream.now.second n) }
{
    let steps = stream.steps.as_slice();
    let first = behind(alloc, steps, Node::Read(place))?;
    let Some(second) = &stream.second else {
        return Ok(first);
    };
    let other = behind(alloc, steps, Node::Read(place + 1))?;
    let both = joined(alloc, second.join, first, other)?;
    behind(alloc, second.after.as_slice(), both)
}

/// The node, behind the acquisition of the second side's device, where there is one.
fn beside(
    alloc: Global,
    place: u32,
    second: &Option<Second>,
    part: Node,
) -> Result<Node, AllocError>
    requires { place + 1 < 2 ^ 32 }
    ensures { IfOk result (λ n. IsBeside place second.now part n) }
{
    match second {
        Some(_) => Ok(Node::Weak(place + 1, Box::new(alloc, part)?)),
        None => Ok(part),
    }
}

/// The node that acquires the devices from a place on, reads them, and goes through the stream's
/// steps.
fn body_of(alloc: Global, place: u32, stream: &StreamSpec) -> Result<Node, AllocError>
    requires { place + 1 < 2 ^ 32 }
    ensures { IfOk result (λ n. IsBody place stream.now n) }
{
    let core = core_of(alloc, place, stream)?;
    let inner = beside(alloc, place, &stream.second, core)?;
    Ok(Node::Weak(place, Box::new(alloc, inner)?))
}

/// A text as a load of a kind: its bytes, one line, or one row of one field.
fn load_of(alloc: Global, kind: Kind, text: &[u8]) -> Result<Load, AllocError>
    ensures { IfOk result (λ l. l ≡ load_of kind text.now) }
{
    match kind {
        Kind::Bytes | Kind::Any => {
            let bytes = Chunk::of_vec(alloc, Vec::from_slice(alloc, text)?)?;
            Ok(Load::Bytes(bytes))
        }
        Kind::Lines => {
            let mut lines = Vec::new(alloc);
            lines.push(Line::copy_of(alloc, text)?)?;
            Ok(Load::Lines(Chunk::of_vec(alloc, lines)?))
        }
        Kind::Rows => {
            let mut row = List::new(alloc);
            row.push(Line::copy_of(alloc, text)?)?;
            let mut rows = Vec::new(alloc);
            rows.push(row)?;
            Ok(Load::Rows(Chunk::of_vec(alloc, rows)?))
        }
    }
}

/// The node in a scope of its own, or in its place after a fault the text.
fn or_text(alloc: Global, kind: Kind, text: &[u8], part: Node) -> Result<Node, AllocError>
    ensures { IfOk result (λ n. IsOrText kind (Some text.now) part n) }
{
    let load = load_of(alloc, kind, text)?;
    let scope = Node::Scope(Box::new(alloc, part)?);
    let other = Node::Emit(load);
    Ok(Node::OnFault(Box::new(alloc, scope)?, Box::new(alloc, other)?))
}

/// The node, or in its place after a fault the text, where there is one.
fn with_text(alloc: Global, text: &Option<Line>, body: Node) -> Result<Node, AllocError>
    requires { IsSome (node_kind body) }
    ensures { IfOk result (λ n. (k : Kind) × (node_kind body ≡ Some k) × IsOrText k text.now body n) }
{
    let Ok(kind) = body.kind() else {
        unreachable!()
    };
    match text {
        Some(text) => or_text(alloc, kind, text.as_slice(), body),
        None => Ok(body),
    }
}

/// The node, written to the device at a place, where there is a path to write.
fn written(alloc: Global, place: u32, to: &Option<Word>, part: Node) -> Result<Node, AllocError>
    ensures { IfOk result (λ n. IsWritten place to.now part n) }
{
    match to {
        Some(_) => {
            let into = Node::Into(place, Box::new(alloc, part)?);
            Ok(Node::Weak(place, Box::new(alloc, into)?))
        }
        None => Ok(part),
    }
}

/// The node of a stream whose first row is this.
fn stream_node(alloc: Global, place: u32, stream: &StreamSpec) -> Result<Node, AllocError>
    requires kind { (k : ℕ) × IsOk (kind_given k stream.now.steps stream.now.second) }
    requires few { place + 2 < 2 ^ 32 }
    ensures { IfOk result (λ n. IsStreamNode place stream.now n) }
{
    let body = body_of(alloc, path_row(place, stream), stream)?;
    let part = with_text(alloc, &stream.on_fault, body)?;
    written(alloc, place, &stream.to, part)
}

/// The node that acquires the device at a place, reads it, and goes through the list's steps.
fn listed_body(alloc: Global, place: u32, list: &ListSpec) -> Result<Node, AllocError>
    ensures { IfOk result (λ n. IsBody place (listed_stream list.now []) n) }
{
    let core = behind(alloc, list.steps.as_slice(), Node::Read(place))?;
    Ok(Node::Weak(place, Box::new(alloc, core)?))
}

/// The node of a stream of the list whose row is this.
fn listed_node(alloc: Global, place: u32, list: &ListSpec) -> Result<Node, AllocError>
    requires { (k : ℕ) × IsOk (kind_given k list.now.steps None) }
    ensures { IfOk result (λ n. IsStreamNode place (listed_stream list.now []) n) }
{
    let body = listed_body(alloc, place, list)?;
    with_text(alloc, &list.on_fault, body)
}

/// The row of a stream's path: behind that of its `to`.
fn path_row(place: u32, stream: &StreamSpec) -> u32
    requires { place + 1 < 2 ^ 32 }
    ensures value { result ≡ path_row place stream.now }
    ensures next { result ≤ place + 1 }
{
    match stream.to {
        Some(_) => place + 1,
        None => place,
    }
}

/// How many rows a stream has: one each for its `to`, its `path` and its `with`, where they are
/// given.
fn row_count(stream: &StreamSpec) -> u32
    ensures { result ≡ row_count stream.now }
{
    let written = match stream.to {
        Some(_) => 1,
        None => 0,
    };
    let read = match stream.second {
        Some(_) => 2,
        None => 1,
    };
    written + read
}

/// How many rows streams have.
fn rows_of_all(streams: &[StreamSpec]) -> u32
    requires { sum_by row_count streams.now < 2 ^ 32 }
    ensures { result ≡ sum_by row_count streams.now }
{
    let mut rows = 0;
    for stream in streams {
        rows += row_count(stream);
    }
    rows
}

/// How many rows the outer stream has: one for each table, and one for the list.
pub fn outer_rows(plan: &Plan) -> u32
    ensures value { result ≡ outer_rows plan.now }
    ensures few { result ≤ most_tables + 1 }
{
    let listed = match plan.list() {
        Some(_) => 1,
        None => 0,
    };
    plan.tables().len() as u32 + listed
}

/// The first row of stream k, or behind the last stream the one behind its rows.
fn first_row(plan: &Plan, k: usize) -> u32
    requires { k ≤ stream_limit plan.now }
    ensures row { result ≡ first_row plan.now k }
    ensures few { result + 2 < 2 ^ 32 }
{
    plan.limits();
    let described = plan.streams().as_slice();
    let outer = outer_rows(plan);
    if k <= described.len() {
        return outer + rows_of_all(&described[..k]);
    }
    outer + rows_of_all(described) + (k - described.len()) as u32
}

/// The rows of stream k, in the order in which the outer stream's devices, then all described
/// streams', and then those of the list's streams are numbered.
pub fn rows(plan: &Plan, k: u32) -> Span
    requires { k < stream_limit plan.now }
    ensures { result ≡ rows_of plan.now k }
{
    let k = k as usize;
    Span {
        from: first_row(plan, k),
        to: first_row(plan, k + 1),
    }
}

/// The node of stream k, which is described.
fn described_node(alloc: Global, plan: &Plan, k: u32) -> Result<Node, AllocError>
    requires { k < length plan.now.streams }
    ensures { IfOk result (IsMade plan.now k) }
{
    let place = first_row(plan, k as usize);
    let stream = plan.stream(k);
    stream_node(alloc, place, stream)
}

/// The node of stream k, which is one of the list.
fn node_of_list(alloc: Global, plan: &Plan, k: u32) -> Result<Node, AllocError>
    requires behind { length plan.now.streams ≤ k }
    requires within { k < stream_limit plan.now }
    ensures { IfOk result (IsMade plan.now k) }
{
    plan.limits();
    let place = first_row(plan, k as usize);
    let list = plan.listed();
    listed_node(alloc, place, list)
}

/// The node of stream k as it is made.
fn node_made(alloc: Global, plan: &Plan, k: u32) -> Result<Node, AllocError>
    requires { k < stream_limit plan.now }
    ensures { IfOk result (IsMade plan.now k) }
{
    if (k as usize) < plan.streams().len() {
        described_node(alloc, plan, k)
    } else {
        node_of_list(alloc, plan, k)
    }
}

/// The node of stream k. It has a kind and acquires the devices of the stream's rows in their
/// order: it writes the first where the stream has a `to`, and reads the others. That of a stream of
/// the list is the same whichever file it reads.
pub fn node(alloc: Global, plan: &Plan, k: u32) -> Result<Node, AllocError>
    requires { k < stream_limit plan.now }
    ensures node { IfOk result (IsNodeOf plan.now k) }
    ensures kind { IfOk result (λ n. IsSome (node_kind n)) }
    ensures few { IfOk result (λ n. node_count n < 2 ^ 32) }
    ensures placed { IfOk result (λ n. is_placed (rows_of plan.now k) n ≡ true) }
    ensures places { IfOk result (λ n. places_of n ≡ rows_within (rows_of plan.now k)) }
    ensures reads { IfOk result (λ n. rows_for is_read plan.now k ≡ Some (reads_of n)) }
    ensures writes { IfOk result (λ n. rows_for is_write plan.now k ≡ Some (writes_of n)) }
    ensures scopes { IfOk result (λ n. scopes_of plan.now k ≡ Some (scope_count n)) }
    ensures events { IfOk result (λ n. events_of plan.now k ≡ Some (event_count n + 1 + outer_rows plan.now)) }
{
    node_made(alloc, plan, k)
}

/// How many scopes the node of a stream has.
fn scope_count(on_fault: &Option<Line>) -> u32
    ensures { result ≡ length (option_to_list on_fault.now) }
{
    match on_fault {
        Some(_) => 1,
        None => 0,
    }
}

/// The most events that a stream of so many rows notes beside so many of the outer stream's.
fn events_by(places: u32, on_fault: &Option<Line>, outer: u32) -> u64
    ensures { result ≡ 2 * places + 2 * length (option_to_list on_fault.now) + 1 + 1 + outer }
{
    let scopes = u64::from(scope_count(on_fault));
    2 * u64::from(places) + 2 * scopes + 1 + 1 + u64::from(outer)
}

/// The most events that stream k notes, which is described.
fn described_events(plan: &Plan, k: u32) -> u64
    requires { k < length plan.now.streams }
    ensures { events_of plan.now k ≡ Some result }
{
    let stream = plan.stream(k);
    events_by(row_count(stream), &stream.on_fault, outer_rows(plan))
}

/// The most events that stream k notes, which is one of the list.
fn listed_events(plan: &Plan, k: u32) -> u64
    requires behind { length plan.now.streams ≤ k }
    requires within { k < stream_limit plan.now }
    ensures { events_of plan.now k ≡ Some result }
{
    let list = plan.listed();
    events_by(1, &list.on_fault, outer_rows(plan))
}

/// The most events that stream k notes: two for each of its rows, two for each scope, the close of
/// the root, the end of its lease, and then the end of each row of the outer stream.
pub fn events(plan: &Plan, k: u32) -> u64
    requires { k < stream_limit plan.now }
    ensures { events_of plan.now k ≡ Some result }
{
    if (k as usize) < plan.streams().len() {
        described_events(plan, k)
    } else {
        listed_events(plan, k)
    }
}
