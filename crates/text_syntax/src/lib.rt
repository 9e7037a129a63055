//! Definitions of the tree that the tokens of a text spell, and the laws about them. It has no
//! code.
#![tactic(auto)]

pub mod laws;
