//! Reads names, numbers, strings, ranges of numbers and options off the tokens of a source.
#![tactic(auto)]

mod names;
mod option_rules;
mod range;

pub use names::{full_ident, int, is_string, parts_after, strings, type_name};
pub use option_rules::{option, options};
pub use range::{ranges, reserved};
