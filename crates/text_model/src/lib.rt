//! Definitions of what texts of messages mean and of what is printed, and the laws about them. It
//! has no code.
#![tactic(auto)]

pub mod laws;
