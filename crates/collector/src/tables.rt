//! The tables that a stream may look up.
ghost use Rattle.std.specs.Prelude.{◌≡◌, IfOk, take};
ghost use Rattle.plan_work.specs.Plans.{visible};
ghost use Rattle.plan_work.specs.Seen.{visible_in};

use crate::parts::top_part;
use csv_pipes::Dicts;
use pipeline_desc::{GroupSpec, Plan};
use std::alloc::{AllocError, Global};

/// How many tables there are up to the last one that stream k may look up, where so many stand at the
/// top: those of its group, or of the top where it stands in none.
fn visible_in(top: u32, groups: &[GroupSpec], k: u32) -> u32
    ensures { result ≡ visible_in top groups.now k }
{
    for group in groups {
        if group.streams.from <= k && k < group.streams.to {
            return group.tables.to;
        }
    }
    top
}

/// The same of a plan.
fn visible(plan: &Plan, k: u32) -> u32
    ensures { result ≡ visible plan.now k }
{
    visible_in(top_part(plan).tables.to, plan.groups().as_slice(), k)
}

/// The dictionaries of the tables that stream k may look up, of those that were read.
pub(crate) fn share_visible(
    alloc: Global,
    tables: &Dicts,
    plan: &Plan,
    k: u32,
) -> Result<Dicts, AllocError>
    ensures { IfOk result (λ dicts. dicts ≡ take (visible plan.now k) tables.now) }
{
    tables.share_first(alloc, visible(plan, k))
}
