//! The ledger that a source has.
ghost use Rattle.std.specs.Prelude.{◌-◌, ◌^◌, ◌<◌};
ghost use Rattle.audit_run.specs.Audit.{GivesLedger, ReadsLedger};

use device_port::Source;
use ledger_text::{LedgerRefused, read};
use ledger_verdict::Verdict;
use res_ledger::Ledger;
use source_input::{NotRead, read_source};
use std::alloc::Global;

/// The most bytes that the text of a ledger may have.
const MOST: usize = 524_288;

/// Why a text is the text of no ledger that is judged.
#[derive(Clone, Copy, Debug, PartialEq, Eq)]
pub enum LedgerRefusal {
    /// It has more than 524,288 bytes.
    Size,
    /// The place of the first line that isn't well spelled, from the head, which is line 0.
    Line(u64),
    /// How many events the head says, and how many there are.
    Count(u64, u64),
}

/// How an audit ended.
#[derive(Clone, Copy, Debug, PartialEq, Eq)]
pub enum AuditEnd {
    /// The verdict was printed.
    Told(Verdict),
    /// A write of the verdict failed, and was the last.
    NotWritten,
    /// Memory was wanting, and nothing was printed.
    Memory,
    /// The source has no text of a ledger.
    Refused(LedgerRefusal),
    /// A read of the source failed, and was the last.
    Unread,
}

/// The ledger whose text the source has, or the end of an audit that has none.
pub(crate) fn read_ledger<S: Source>(alloc: Global, src: &mut S) -> Result<Ledger, AuditEnd>
    requires room { (S.told src.old).faults < 2 ^ 64 - 1 }
    ensures { ReadsLedger (S.told src.old) (S.told src.new) result }
{
    match read_source(alloc, src, MOST + 1) {
        Ok(bytes) => ledger_of(alloc, bytes.as_slice()),
        Err(NotRead::Failed) => Err(AuditEnd::Unread),
        Err(NotRead::Memory) => Err(AuditEnd::Memory),
    }
}

/// The ledger whose text the bytes are, or the end of an audit that has none.
fn ledger_of(alloc: Global, bytes: &[u8]) -> Result<Ledger, AuditEnd>
    ensures { GivesLedger bytes.now result }
{
    if bytes.len() > MOST {
        return Err(AuditEnd::Refused(LedgerRefusal::Size));
    }
    match read(alloc, bytes) {
        Ok(ledger) => Ok(ledger),
        Err(LedgerRefused::BadLine(line)) => Err(AuditEnd::Refused(LedgerRefusal::Line(line))),
        Err(LedgerRefused::BadCount(said, found)) => {
            Err(AuditEnd::Refused(LedgerRefusal::Count(said, found)))
        }
        Err(LedgerRefused::Memory) => Err(AuditEnd::Memory),
    }
}
