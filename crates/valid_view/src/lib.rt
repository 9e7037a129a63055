//! Laws of values that are valid for their fields, as the calls test it, and of messages that are
//! typed: what is asked of them in the words of `message_view` and of the model. Nothing is changed
//! here.
#![tactic(auto)]

pub mod calls;
pub mod keeping;
pub mod laws;
pub mod merged;
pub mod messages;
mod whole;

pub use whole::{slices_are_of_bytes, values_are_whole};
