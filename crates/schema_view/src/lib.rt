//! What a schema says whatever the order of its files: the laws of linking, over definitions alone.
//! It has no code.
#![tactic(auto)]

pub mod laws;
