//! That linking accepts files exactly where they are lawful behind those that are there: the passes
//! over a batch, and the statements on the set of its files that they decide; and that a pool is
//! sound which files were linked into. Nothing here does anything.
#![tactic(auto)]

pub mod laws;
mod pools;
pub mod soundness;

pub use pools::pools_are_whole;
