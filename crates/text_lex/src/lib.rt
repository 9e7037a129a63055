//! Cuts a message's text into its tokens, each the longest that stands at its place, and says where
//! they stand.
#![tactic(auto)]

mod escape;
pub mod laws;
mod lexer;
mod token;

pub use lexer::{LexError, Lexeme, Lexer};
pub use protox_lex::Span;
pub use token::{Int, Radix, Token};
