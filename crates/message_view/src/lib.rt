//! Types of a pool and messages of them in the words of the model, and laws of what `decode` and
//! `encode` say of these. It has no code.
#![tactic(auto)]

pub mod laws;
pub mod order;
pub mod shape;
