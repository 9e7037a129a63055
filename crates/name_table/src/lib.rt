//! A table of names, found by their hashes: a name whose hash another name has stands in an ordered
//! map beside, so that names that share hashes by chance or design cost no more than that map does.
#![tactic(auto)]

mod hash;
mod key;
mod put;
mod slot;
mod table;

pub use table::{NameTable, ValueTest};
