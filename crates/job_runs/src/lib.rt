//! What a job has done that is over, for whoever joined it and has the ledger of its run.
//!
//! Nothing here runs. `origins_begin` says that what begins over a new tree of a stream's seat, which has
//! room for a node, is the origin of a job of this node (`IsOriginOf`). `jobs_end` says of a job whose stream was to run a node over a tree and devices:
//! its loads are those of a run of the node, by what its devices tell that came back, and of each
//! ledger that has its events this is its share (`IsShare`): the rows that it acquired are those of the
//! devices that were opened, each was ended as its device was closed, and its root was closed, and its
//! lease cancelled behind that, as the stream ended.
#![tactic(auto)]

pub mod laws;
