//! A ledger is audited.
use audit_run::{AuditEnd, run_audit};
use chunk_core::List;
use device_port::{MemSink, MemSource};
use ledger_verdict::{Rule, Verdict};
use std::test::Fail;

#[test]
fn a_ledger_is_read_and_its_verdict_printed(rt: HostRuntime) -> Result<(), Fail> {
    let alloc = rt.alloc();
    let text = b"ledger 2\n0 acquire 0 0\n0 close 0 succeeded\n";
    let mut src = MemSource::new(alloc, text.as_slice(), List::new(alloc))?;
    let mut out = MemSink::new(alloc, List::new(alloc))?;
    let audited = run_audit(alloc, &mut src, &mut out);
    let unended = Verdict::Broken(2, Rule::Complete);
    assert_eq!(rt; audited.end, AuditEnd::Told(unended));
    assert_eq!(rt; out.written(), b"audit end complete\n".as_slice());
    Ok(())
}
