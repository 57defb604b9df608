//! Audits of ledgers that were changed: each ledger of a run, with one event dropped, doubled, moved,
//! renumbered, noted by another stream or given another exit, has the verdict that a slow judge gives
//! it, who goes through the definitions front by front.
#![tactic(auto)]

#[cfg(test)]
mod asserts;
#[cfg(test)]
mod audits;
#[cfg(test)]
mod blocks;
#[cfg(test)]
mod changes;
#[cfg(test)]
mod facts;
#[cfg(test)]
mod judge;
#[cfg(test)]
mod ledgers;
#[cfg(test)]
mod teardowns;
