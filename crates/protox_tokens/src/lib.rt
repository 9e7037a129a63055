//! The tokens of a source, one ahead, and why they are not read on.
#![tactic(auto)]

mod fault;
mod parts;
mod tokens;

pub use fault::{Fault, Stop};
pub use parts::one;
pub use protox_lex::across;
pub use tokens::Tokens;
