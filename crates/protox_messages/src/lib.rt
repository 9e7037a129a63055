//! Reads messages and extensions, which nest, off the tokens of a source.
#![tactic(auto)]

mod messages;

pub use messages::{extend, message};
