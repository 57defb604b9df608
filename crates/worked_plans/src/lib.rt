//! Tests of the nodes of descriptions and of the case of three numbers, by the public calls of
//! `pipeline_desc` and `gen_case` alone. They stand above both crates, so that neither is proved twice for its tests.
#![tactic(auto)]

#[cfg(test)]
mod asserts;
#[cfg(test)]
mod cases;
#[cfg(test)]
mod nodes;
#[cfg(test)]
mod parts;
#[cfg(test)]
mod plans;
#[cfg(test)]
mod several;
