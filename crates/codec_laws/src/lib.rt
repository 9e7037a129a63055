//! Laws of descriptor sets and their bytes. It has no code.
#![tactic(auto)]

pub mod laws;
