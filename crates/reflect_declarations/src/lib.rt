//! Definitions: the declarations of files as one list, each with its path, its name and its place.
#![tactic(auto)]

mod offsets;

pub use offsets::Offsets;
