//! Rotations over an outside in memory, with what they print, note and leave in their files written out
//! by hand: whole ones, those of which a call on a device fails, those over devices that read and write
//! a few bytes at a time, and as many files as there may be, and one more.
#![tactic(auto)]

#[cfg(test)]
mod asserts;
#[cfg(test)]
mod failing;
#[cfg(test)]
mod many;
#[cfg(test)]
mod page;
#[cfg(test)]
mod rotations;
#[cfg(test)]
mod slow_devices;
#[cfg(test)]
mod sparing;
