//! Which refusal a description gets, and what its plan is, stated of what stands in the document: laws, and nothing here runs.
#![tactic(auto)]

pub mod laws;
