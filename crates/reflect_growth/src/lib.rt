//! How what a pool keeps changes: further entries, whose places are tested, stand behind the
//! others, later ones are cut off, and options are settled in records.
#![tactic(auto)]

mod appending;
mod cutting;
mod from;
mod settle;
mod within;

pub use appending::append;
pub use cutting::cut;
pub use from::are_from;
pub use settle::{Edit, settle_all};
pub use within::are_within;
