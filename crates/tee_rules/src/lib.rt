//! What a run may leave that reads one file and sends it through several chains of steps, as plain data.
//! Nothing here runs.
//!
//! `TeesFile` says of a run (`RunRecord` of run_rules) that it did so: one device was made for the file, and
//! is accounted for; only the outer stream notes something in the ledger, and its exits tell how it ended; and
//! each branch printed, under its own number, pieces of what its steps give (`over` of chain_pipes) of a front
//! of what the outer stream gave (`IsBranch`), of all of it where the branch is done. A frame that could not be
//! written whole counts as printed, and its branch didn't end by itself, so what is said of each branch is so of
//! the whole frames alone, too. `HasCauseToHalt` says why something may be halted, and where nothing failed
//! (`NothingFailed`) all is done, unless memory was wanting.
//!
//! `prints_whole` says what was printed of a branch that is done, `worked_tees` has runs as they may be, and
//! `refused_tees` runs as none may be.
#![tactic(auto)]

pub mod laws;
