//! A ledger's text is read, judged and printed.
use ledger_text::{LedgerRefused, read};
use res_ledger::{What, text};
use std::test::Fail;

#[test]
fn a_ledger_is_read_judged_and_printed(rt: HostRuntime) -> Result<(), Fail> {
    let alloc = rt.alloc();
    let written = b"ledger 3\n0 acquire 0 0\n0 close 0 errored\n0 final 0 errored fault\n";
    let ledger = read(alloc, written.as_slice())?;
    let mut failed = 0u32;
    for event in ledger.as_slice() {
        if let What::Final { row, ok: false, .. } = event.what {
            assert_eq!(rt; row, 0);
            failed = failed.saturating_add(1);
        }
    }
    assert_eq!(rt; failed, 1);
    assert_eq!(rt; text(alloc, &ledger)?.as_slice(), written.as_slice());

    let short = read(alloc, b"ledger 2\n0 close 0 succeeded\n");
    assert_eq!(rt; short.err(), Some(LedgerRefused::BadCount(2, 1)));
    let misspelled = read(alloc, b"ledger 1\n0 shut 0 succeeded\n");
    assert_eq!(rt; misspelled.err(), Some(LedgerRefused::BadLine(1)));
    Ok(())
}
