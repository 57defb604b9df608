//! What a command's work did, below the top call.
use chunk_core::List;
use res_ledger::Ledger;
use run_rules::EndOf;
use std::alloc::Global;

/// What a command's work did.
#[derive(Drop)]
pub struct Outcome {
    /// How each stream ended, in order; empty only where memory was wanting before the first seat.
    pub ends: List<EndOf>,
    pub ledger: Ledger,
    /// Whether a write to the output failed.
    pub sink_failed: bool,
    /// Whether memory was wanting.
    pub memory: bool,
}

impl Outcome {
    ghost use Rattle.std.specs.Prelude.{◌≡◌, [], true, false};

    /// Nothing was begun for want of memory.
    pub fn unmade(alloc: Global) -> Outcome
        ensures ends { result.ends ≡ [] }
        ensures ledger { result.ledger ≡ [] }
        ensures sink { result.sink_failed ≡ false }
        ensures memory { result.memory ≡ true }
    {
        Outcome {
            ends: List::new(alloc),
            ledger: Ledger::empty(alloc),
            sink_failed: false,
            memory: true,
        }
    }
}
