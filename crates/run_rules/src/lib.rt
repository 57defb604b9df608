//! What a run may show, as plain data: the devices that it made, its ledger, what it printed and how
//! its streams ended. The commands above meet one contract, which is stated here.
//!
//! All but `EndOf` are definitions in the specs, and nothing here runs or fails. A command says
//! which streams it runs, of which rows and with which runs (`Work`), and what it did (`RunRecord`);
//! `Performs` is the relation of the two that its function ensures. It has three parts: the devices
//! (`DevicesAccounted`), the ledger (`KeepsRules`), and what was run with its rows, outputs, ends
//! and exits (`Ran`), or that for want of memory nothing was begun (`IsUnmade`). `EndOf` is how one
//! stream ended, as a report tells it:
//!
//! ```
//! let end = EndOf {
//!     who: StreamNo::Inner(0),
//!     how,
//! };
//! assert_eq!(rt; seen.report.ends.as_slice(), [end].as_slice());
//! ```
#![tactic(auto)]

pub mod end;

pub use end::EndOf;
