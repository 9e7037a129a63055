//! The records that the messages of a syntax tree describe.
#![tactic(auto)]

mod item;
mod member;
mod message;
mod names;
mod synthetic;

pub use message::{message_record, types_of_extend};
