//! Copies of messages and of their values, with all that they hold.
#![tactic(auto)]

mod clone_message;
mod clone_value;
mod message;
mod value;

pub use clone_message::CloneMessage;
pub use clone_value::CloneValue;
