//! Calls over an outside in memory, of which calls of devices, of the output or of memory fail, with what
//! they print and leave written out by hand: `cat`, descriptions that can't be read, runs of one stream
//! and of many, side by side, of groups and of lists, cases that are made of numbers, and audits.
#![tactic(auto)]

#[cfg(test)]
mod asserts;
#[cfg(test)]
mod audits;
#[cfg(test)]
mod calls;
#[cfg(test)]
mod cats;
#[cfg(test)]
mod closes;
#[cfg(test)]
mod crowd;
#[cfg(test)]
mod crowds;
#[cfg(test)]
mod described;
#[cfg(test)]
mod failing;
#[cfg(test)]
mod faults;
#[cfg(test)]
mod generated;
#[cfg(test)]
mod grouped;
#[cfg(test)]
mod in_turn;
#[cfg(test)]
mod listed;
#[cfg(test)]
mod meeting;
#[cfg(test)]
mod memory;
#[cfg(test)]
mod missing;
#[cfg(test)]
mod mixed;
#[cfg(test)]
mod numbers;
#[cfg(test)]
mod outputs;
#[cfg(test)]
mod payloads;
#[cfg(test)]
mod refusals;
#[cfg(test)]
mod reports;
#[cfg(test)]
mod runs;
#[cfg(test)]
mod sides;
#[cfg(test)]
mod stops;
#[cfg(test)]
mod tables;
#[cfg(test)]
mod whole;
#[cfg(test)]
mod words;
