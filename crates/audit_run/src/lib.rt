//! The command `audit`: a ledger is read of a source, judged, and the verdict printed.
//!
//! `run_audit` reads the text of a ledger to its end, or to one byte more than a ledger's text may
//! have, and prints a line: `audit ok`, `audit line I legal`, `audit line I ordered` or
//! `audit end complete`, where I is the place of the event from 0. It makes no device, and writes
//! nothing else. `AuditEnd` tells how it ended: with a verdict (`ledger_verdict`), with a failed read
//! or write, for want of memory, or with a `LedgerRefusal`, the reason why the source has no text of
//! a ledger. The ledger that was read comes back beside it.
//!
//! ```
//! let text = b"ledger 2\n0 acquire 0 0\n0 close 0 succeeded\n";
//! let mut src = MemSource::new(alloc, text.as_slice(), List::new(alloc))?;
//! let mut out = MemSink::new(alloc, List::new(alloc))?;
//! let audited = run_audit(alloc, &mut src, &mut out);
//! let unended = Verdict::Broken(2, Rule::Complete);
//! assert_eq!(rt; audited.end, AuditEnd::Told(unended));
//! assert_eq!(rt; out.written(), b"audit end complete\n".as_slice());
//! ```
#![tactic(auto)]

pub mod laws;
pub(crate) mod lines;
pub mod reading;
pub mod run;

pub use reading::{AuditEnd, LedgerRefusal};
pub use run::{Audited, run_audit};
