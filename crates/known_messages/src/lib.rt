//! Laws of messages of which a type knows all. It has no code.
#![tactic(auto)]

pub mod laws;
