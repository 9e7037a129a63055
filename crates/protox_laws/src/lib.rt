//! That one source has one record, or one list of faults, whatever memory the tree between takes.
//! It has no code.
#![tactic(auto)]

pub mod laws;
pub mod worked;
