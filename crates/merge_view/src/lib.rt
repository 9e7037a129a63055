//! Laws of what `merge` says of bytes and messages, in the words of the model. It has no code.
#![tactic(auto)]

pub mod copies;
pub mod laws;
