//! The work of the command `tee`: one file, read once for several branches of steps.
//!
//! `run_tee` reads a file on the caller's thread, over a seat and a tree of its own as the outer stream, and sends what
//! it gives to each of 1 to 16 branches, which have threads of their own where these can be started; what the steps of
//! branch i give is printed in frames under the number i. It answers an `Outcome`: how the reader and each branch
//! ended, in order, the ledger, which is the reader's alone, and whether a write failed or memory was wanting. A fault
//! of a branch, a write that fails and want of memory halt the reader, and the branches that go on. Nothing is an error
//! of the call itself.
//!
//! Nothing here runs by itself: the top call of `flume_cli` has the caller, which reads the words of steps first.
#![tactic(auto)]

pub(crate) mod chains;
pub(crate) mod read;
pub(crate) mod room;
pub(crate) mod scoped;
pub mod tee;
pub(crate) mod told;

pub use tee::run_tee;
