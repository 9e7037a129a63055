//! Texts in lines, and records of undeclared numbers as text.
#![tactic(auto)]

mod lines;
mod options;
mod output;
mod place;
mod unknown;

pub use lines::{Items, Lines};
pub use options::FormatOptions;
pub use place::Place;
