//! A ledger's text is read back as that ledger.
ghost use Rattle.std.specs.Prelude.{◌≡◌, IfErr, IfOk};

use ledger_text::{LedgerRefused, laws, read};
use res_ledger::{Ledger, text};
use std::alloc::Global;

/// What is read from the text of a ledger: that ledger, unless memory is wanting.
pub fn read_back(alloc: Global, ledger: &Ledger) -> Result<Ledger, LedgerRefused>
    ensures same { IfOk result (λ back. back ≡ ledger.now) }
    ensures memory { IfErr result (λ why. why ≡ LedgerRefused.Memory) }
{
    laws::reading_is_one();
    let _events = ledger.as_slice();
    let Ok(line) = text(alloc, ledger) else {
        return Err(LedgerRefused::Memory);
    };
    read(alloc, line.as_slice())
}
