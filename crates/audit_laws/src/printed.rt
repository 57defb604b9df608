//! The audit of a printed ledger.
ghost use Rattle.std.specs.Prelude.{◌≡◌, IfErr, IfOk};
ghost use Rattle.audit_laws.specs.Printed.{IsPrintedLedger};

use crate::laws;
use ledger_audit::audit;
use ledger_text::{LedgerRefused, read};
use ledger_verdict::Verdict;
use std::alloc::Global;

/// The verdict on a ledger that `cat` or `run` printed: it is clean, unless memory is wanting.
pub fn audit_printed(alloc: Global, printed: &[u8]) -> Result<Verdict, LedgerRefused>
    requires { IsPrintedLedger printed.now }
    ensures clean { IfOk result (λ verdict. verdict ≡ Verdict.Clean) }
    ensures memory { IfErr result (λ why. why ≡ LedgerRefused.Memory) }
{
    laws::printed_ledgers_are_clean();
    ledger_text::laws::reading_is_one();
    ledger_verdict::laws::verdict_is_one();
    let ledger = read(alloc, printed)?;
    let Ok(verdict) = audit(alloc, &ledger) else {
        return Err(LedgerRefused::Memory);
    };
    Ok(verdict)
}
