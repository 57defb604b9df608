//! What an audit answers on the ledgers that `cat` and `run` print.
//!
//! - `laws::printed_ledgers_are_clean` says of each call that has the contract of the top call, and
//!   whose words ask for a `cat` or a `run`: the ledger that it reports is clean, whatever the status;
//!   and at the statuses 0, 1 and 7 the text of that ledger was printed last, behind the frames and
//!   the lines of the ends.
//! - `audit_printed` reads such a text and audits it: it answers `Clean`, or that memory was wanting.
#![tactic(auto)]

pub mod laws;
pub mod printed;

pub use printed::audit_printed;
