//! The types of a pool and messages of them in the words of `text_model`, and laws of what the
//! parser of texts says of these. It has no code.
#![tactic(auto)]

pub mod laws;
pub mod names;
