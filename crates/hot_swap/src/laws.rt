//! What is open along swaps.
ghost use Rattle.hot_swap.specs.TwoRows.{SwapsHoldTwo};

/// At most two rows are open at each position of what swaps note.
pub fn swaps_hold_two()
    ensures { SwapsHoldTwo }
{}
