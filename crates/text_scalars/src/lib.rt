//! The tokens of a message's text, one ahead, and what stands at the front of them: names, and
//! the values that are no messages.
#![tactic(auto)]

pub mod laws;
mod names;
mod number;
mod scalar;
mod tokens;

pub use names::{AnyName, Name};
pub use tokens::{Brace, Tokens};
