//! What a call reports to its caller.
use crate::status::Status;
use chunk_core::List;
use res_ledger::Ledger;
use run_rules::EndOf;

/// How a call ended, how each stream ended, and the ledger.
#[derive(Drop)]
pub struct Report {
    pub status: Status,
    pub ends: List<EndOf>,
    pub ledger: Ledger,
}
