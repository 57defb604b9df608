//! The parts of a plan's outer stream.
ghost use Rattle.std.specs.Prelude.{◌≡◌, IfOk};
ghost use Rattle.dealt_streams.specs.Standing.{group_part, plan_parts, top_part};

use chunk_core::{List, Span};
use outer_stream::OuterPart;
use pipeline_desc::{GroupSpec, Plan};
use std::alloc::{AllocError, Global};

/// The tables of the top, and the first stream behind its own.
pub(crate) fn top_part(plan: &Plan) -> OuterPart
    ensures { result ≡ top_part plan.now }
{
    let (tables, behind) = match plan.groups().as_slice().first() {
        Some(group) => (group.tables.from, group.streams.from),
        None => (plan.tables().len() as u32, plan.streams().len() as u32),
    };
    OuterPart {
        tables: Span {
            from: 0,
            to: tables,
        },
        behind,
    }
}

/// The tables of a group, and the first stream behind its own.
fn group_part(group: &GroupSpec) -> OuterPart
    ensures { result ≡ group_part group.now }
{
    OuterPart {
        tables: group.tables,
        behind: group.streams.to,
    }
}

/// What stands at the top, and then each group.
pub(crate) fn parts_of(alloc: Global, plan: &Plan) -> Result<List<OuterPart>, AllocError>
    ensures { IfOk result (λ parts. parts ≡ plan_parts plan.now) }
{
    let mut parts = List::new(alloc);
    parts.push(top_part(plan))?;
    let groups = plan.groups().as_slice();
    for group in groups {
        parts.push(group_part(group))?;
    }
    Ok(parts)
}
