//! What is wrong with a message's text: the first fault, its place, and what is said of it.
#![tactic(auto)]

mod error;
mod lines;

pub use error::{ParseError, ParseErrorKind};
