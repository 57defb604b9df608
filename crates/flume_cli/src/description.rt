//! The description that the source has.
ghost use Rattle.std.specs.Prelude.{◌≡◌, ◌-◌, ◌^◌, ◌<◌, ◌≤◌, IfSome};
ghost use Rattle.flume_cli.specs.Description.{GivesPlan, ReadsPlan, with_most as with_most_of};

use crate::status::Status;
use device_port::Source;
use pipeline_desc::{Plan, Refused};
use source_input::{NotRead, read_source};
use std::alloc::Global;

/// The most bytes that are read: one more than a description may have.
const MOST: usize = 1_048_577;

/// The plan that the source describes, or the status of a call that has none.
pub(crate) fn read_plan<S: Source>(alloc: Global, src: &mut S) -> Result<Plan, Status>
    requires room { (S.told src.old).faults < 2 ^ 64 - 1 }
    ensures { ReadsPlan (S.told src.old) (S.told src.new) result }
{
    match read_source(alloc, src, MOST) {
        Ok(bytes) => plan_of(alloc, bytes.as_slice()),
        Err(NotRead::Failed) => Err(Status::Unread),
        Err(NotRead::Memory) => Err(Status::Memory),
    }
}

/// The plan that the bytes describe, or the status of a call that has none.
fn plan_of(alloc: Global, bytes: &[u8]) -> Result<Plan, Status>
    ensures { GivesPlan bytes.now result }
{
    match pipeline_desc::read(alloc, bytes) {
        Ok(plan) => Ok(plan),
        Err(Refused::Desc(refusal)) => Err(Status::Refused(refusal)),
        Err(Refused::Memory) => Err(Status::Memory),
    }
}

/// The plan, with as many streams open at a time as the words tell.
pub(crate) fn with_most(plan: Plan, most: Option<u32>) -> Plan
    requires { IfSome most (λ n. (1 ≤ n) × (n ≤ 64)) }
    ensures { result ≡ with_most_of most plan }
{
    match most {
        Some(most) => plan.with_max_open(most),
        None => plan,
    }
}
