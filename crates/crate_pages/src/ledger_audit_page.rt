//! Ledgers are read and audited.
use ledger_audit::audit;
use ledger_text::read;
use ledger_verdict::{Rule, Verdict};
use std::test::Fail;

#[test]
fn ledgers_are_audited(rt: HostRuntime) -> Result<(), Fail> {
    let alloc = rt.alloc();
    let text = b"ledger 3\n0 acquire 0 0\n0 close 0 errored\n0 final 0 errored ok\n";
    let ledger = read(alloc, text.as_slice())?;
    assert_eq!(rt; audit(alloc, &ledger)?, Verdict::Clean);

    let unended = read(alloc, b"ledger 2\n0 acquire 0 0\n0 close 0 succeeded\n")?;
    assert_eq!(rt; audit(alloc, &unended)?, Verdict::Broken(2, Rule::Complete));
    let unknown = read(alloc, b"ledger 1\n0 final 0 succeeded ok\n")?;
    assert_eq!(rt; audit(alloc, &unknown)?, Verdict::Broken(0, Rule::Legal));
    let overtaken =
        b"ledger 4\n0 acquire 0 0\n0 acquire 1 0\n0 close 0 errored\n0 final 0 errored ok\n";
    let ledger = read(alloc, overtaken.as_slice())?;
    assert_eq!(rt; audit(alloc, &ledger)?, Verdict::Broken(3, Rule::Ordered));
    Ok(())
}
