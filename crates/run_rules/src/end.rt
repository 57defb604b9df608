//! How a stream ended.
use chunk_core::How;
use res_ledger::StreamNo;

/// How a stream ended.
#[derive(Clone, Copy, Debug, PartialEq, Eq)]
pub struct EndOf {
    pub who: StreamNo,
    pub how: How,
}
