//! A ledger is read, judged and told of.
ghost use Rattle.std.specs.Prelude.{◌-◌, ◌^◌, ◌<◌};
ghost use Rattle.audit_run.specs.Audit.{IsAudit, TellsVerdict};

use crate::lines::line_of;
use crate::reading::{AuditEnd, read_ledger};
use device_port::{Failed, Sink, Source, put};
use ledger_audit::audit;
use res_ledger::Ledger;
use std::alloc::{AllocError, Global};

/// How an audit ended, and the ledger that was read, which is empty where none was.
#[derive(Drop)]
pub struct Audited {
    pub end: AuditEnd,
    pub ledger: Ledger,
}

/// Reads the ledger whose text `src` has, to its end or to 524,289 bytes, and prints the verdict on
/// it to `out`, in a line.
pub fn run_audit<S: Source, K: Sink>(alloc: Global, src: &mut S, out: &mut K) -> Audited
    requires source { (S.told src.old).faults < 2 ^ 64 - 1 }
    requires out { (K.told out.old).faults < 2 ^ 64 - 1 }
    ensures { IsAudit (S.told src.old) (S.told src.new) (K.told out.old) (K.told out.new) result.ledger result.end }
{
    match read_ledger(alloc, src) {
        Ok(ledger) => {
            let end = tell_verdict(alloc, &ledger, out);
            Audited { end, ledger }
        }
        Err(end) => Audited {
            end,
            ledger: Ledger::empty(alloc),
        },
    }
}

/// Prints the verdict on a ledger, and gives how the audit ended.
fn tell_verdict<K: Sink>(alloc: Global, ledger: &Ledger, out: &mut K) -> AuditEnd
    requires room { (K.told out.old).faults < 2 ^ 64 - 1 }
    ensures { TellsVerdict ledger.now (K.told out.old) (K.told out.new) result }
{
    match audit(alloc, ledger) {
        Ok(verdict) => match put(out, line_of(verdict).as_str().as_bytes()) {
            Ok(()) => AuditEnd::Told(verdict),
            Err(Failed) => AuditEnd::NotWritten,
        },
        Err(AllocError) => AuditEnd::Memory,
    }
}
