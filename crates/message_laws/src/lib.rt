//! Laws of messages of the types of a pool, and of their bytes. It has no code.
#![tactic(auto)]

pub mod laws;
pub mod maps;
