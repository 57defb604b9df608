//! Calls of `tee` and `eval` over an outside in memory, with what they print and report written out by
//! hand: whole ones, those of which a call on the device or a write fails, branches that stop early or
//! fail, as many lines and loads as fill every queue, and branches and hands that have to run at once.
#![tactic(auto)]

#[cfg(test)]
mod asserts;
#[cfg(test)]
mod evaluating;
#[cfg(test)]
mod failing_groups;
#[cfg(test)]
mod failing_writes;
#[cfg(test)]
mod many;
#[cfg(test)]
mod meeting;
#[cfg(test)]
mod memory;
#[cfg(test)]
mod page;
#[cfg(test)]
mod teeing;
#[cfg(test)]
mod tripping;
