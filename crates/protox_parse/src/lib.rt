//! Reads a protobuf source as the record that it describes, or says what is wrong with it.
#![tactic(auto)]

mod error;
mod error_text;
pub mod laws;
mod source;

pub use error::{ParseError, Refusal};
pub use protox_tree as tree;
pub use protox_tree::{ExpectedToken, ParseErrorKind};
pub use source::parse;
