//! Nodes that are run over a runner, and whole over a stepper, by callers that see public clauses alone,
//! and what they show over devices in memory. A test of the states of nodes with two sides stands here
//! too, above its crate.
#![tactic(auto)]

#[cfg(test)]
mod asserts;
#[cfg(test)]
mod files;
#[cfg(test)]
mod into_tests;
#[cfg(test)]
mod narrow;
#[cfg(test)]
mod parts;
#[cfg(test)]
mod pipe_tests;
#[cfg(test)]
mod runs;
#[cfg(test)]
mod shown;
#[cfg(test)]
mod side_tests;
#[cfg(test)]
mod state_tests;
#[cfg(test)]
mod table_tests;
#[cfg(test)]
mod tests;
pub mod turns;
pub mod uses;
