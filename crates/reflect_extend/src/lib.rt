//! Values put behind those that a message holds.
#![tactic(auto)]

mod extend;
mod extend_message;

pub use extend_message::ExtendMessage;
