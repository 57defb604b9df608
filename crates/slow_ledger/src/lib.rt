//! The rules of a ledger as facts about the places of its events, looked up anew for each event: slow, and apart from what audits a ledger.
//!
//! `verdict_of` tells the first event that breaks a rule. `is_lawful` and `keeps_order` tell whether an event may stand behind others, and
//! `due_of` which Finals are still to follow what a stream noted last.
//!
//! ```
//! let verdict = verdict_of(alloc, &events)?;
//! let line = verdict_line(alloc, verdict)?.into_bytes();
//! ```
#![tactic(auto)]

pub mod covers;
pub mod places;
pub mod rules;
pub mod teardown;

pub use rules::{Verdict, is_lawful, keeps_order, verdict_of};
pub use teardown::{Due, due_of};
