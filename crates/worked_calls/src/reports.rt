//! What a run of a description printed and reported.
use crate::outside::{Aftermath, Case, run};
use flume_cli::Status;
use flume_cli::tail::tail_of;
use std::alloc::{AllocError, Global};
use std::sync::Wait;
use std::thread::Threads;

/// The tail of a run whose one stream ended well.
pub const DONE: &str = "end outer done\nend 0 done\nledger 6\n\
    outer lease 0 0\nouter close 0 succeeded\n0 acquire 0 0\n0 close 0 succeeded\n\
    0 final 0 succeeded ok\n0 cancel 0 succeeded\n";

/// The tail of a run whose one stream was halted when its file was open.
pub const HALTED: &str = "end outer done\nend 0 halted\nledger 6\n\
    outer lease 0 0\nouter close 0 succeeded\n0 acquire 0 0\n0 close 0 canceled\n\
    0 final 0 canceled ok\n0 cancel 0 canceled\n";

/// The tail of a run whose one stream has a text for its fault, which came when its file was open.
pub const CAUGHT: &str = "end outer done\nend 0 done\nledger 8\n\
    outer lease 0 0\nouter close 0 succeeded\n0 open 1 0\n0 acquire 0 1\n0 close 1 errored\n\
    0 final 0 errored ok\n0 close 0 succeeded\n0 cancel 0 succeeded\n";

/// The tail of a run whose one stream ended with this fault when its file was open.
pub fn faulty(alloc: Global, fault: &str) -> Result<String, AllocError> {
    format!(in alloc;
        "end outer done\nend 0 fault {fault}\nledger 6\n\
        outer lease 0 0\nouter close 0 succeeded\n0 acquire 0 0\n0 close 0 errored\n\
        0 final 0 errored ok\n0 cancel 0 errored\n"
    )
}

/// Whether the case ends with this status, and all is printed and reported.
pub fn runs_as<R: Threads + Wait + Sync>(
    rt: &R,
    alloc: Global,
    case: &Case,
    status: Status,
    frames: &[u8],
    tail: &str,
) -> Result<bool, AllocError> {
    let seen = run(rt, alloc, case)?;
    seen.is_whole(alloc, status, frames, tail)
}

impl Aftermath {
    /// Whether the run ended with this status, and printed and reported all.
    pub fn is_whole(
        &self,
        alloc: Global,
        status: Status,
        frames: &[u8],
        tail: &str,
    ) -> Result<bool, AllocError> {
        let mut text = Vec::from_slice(alloc, frames)?;
        text.extend_from_slice(tail.as_bytes())?;
        Ok(self.printed(status, &text) && self.reported(alloc, tail)?)
    }

    /// Whether the ends and the ledger of the report have this text, and each device came back.
    pub fn reported(&self, alloc: Global, tail: &str) -> Result<bool, AllocError> {
        let told = tail_of(alloc, &self.report.ends, &self.report.ledger)?;
        Ok(told.as_slice() == tail.as_bytes() && self.returned())
    }

    /// Whether each device that was made came back once, closed as often as it was opened.
    pub fn returned(&self) -> bool {
        let records = self.depot.retired();
        self.depot.made().len() == records.len()
            && records
                .iter()
                .all(|record| record.closes() == record.opens())
    }
}
