//! Reads whole sources off their tokens, as trees.
#![tactic(auto)]

mod files;
pub mod laws;
mod statements;

pub use files::tree;
