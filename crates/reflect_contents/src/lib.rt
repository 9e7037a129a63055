//! Walks over what messages hold, and what they hold taken out.
#![tactic(auto)]

mod taken;
mod walks;

pub use taken::{TakeContents, TakenExtensions, TakenFields};
pub use walks::{ExtensionValues, FieldValues, MessageWalks, UnknownFields};
