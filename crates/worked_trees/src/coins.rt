//! Payloads of rows, and how the rows ended.
use crate::asserts::same;
use chunk_core::Exit;
use scope_tree::Spent;
use std::process::Abort;
use tree_scripts::scripts::Coin;

/// A payload whose finalizer succeeds.
pub(crate) const GOOD: Coin = Coin { good: true };

/// A payload whose finalizer fails.
pub(crate) const BAD: Coin = Coin { good: false };

/// Fails the test unless these rows ended in this order: of each, its number, what its finalizer was
/// told, and whether it succeeded.
pub(crate) fn ended(rt: &impl Abort, rows: &[Spent<Coin>], want: &[(u32, Exit, bool)]) {
    same(rt, rows.len(), want.len());
    for (row, want) in rows.iter().zip(want) {
        same(rt, (row.row, row.exit, row.ok), *want);
    }
}
