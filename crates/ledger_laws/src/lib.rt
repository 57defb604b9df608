//! What the rules of a ledger say of ledgers that are written out: which ones they take, and that
//! each mistake breaks the rule that is against it.
#![tactic(auto)]

pub mod back;
pub mod broken;
pub mod stands;
pub mod torn;
pub mod worked;
