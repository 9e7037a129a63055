//! Laws of the names in linked pools: they are as sources give them where each file's record is.
//! Nothing here does anything.
#![tactic(auto)]

pub mod laws;
