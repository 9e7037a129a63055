//! Cuts a protobuf source into its tokens, each the longest that stands at its place, and says
//! where they and the comments stand.
#![tactic(auto)]

mod class;
mod comments;
mod error;
mod escape;
mod front;
pub mod laws;
mod lexer;
mod lines;
mod literal;
mod number;
mod quoted;
mod span;
pub mod token;

pub use class::{Class, is_in, past};
pub use comments::Comments;
pub use error::{LexError, LexErrorKind};
pub use escape::{Escaped, Meaning, is_escaped, unescape, unit};
pub use lexer::{Lexeme, Lexer};
pub use lines::LineResolver;
pub use literal::{Float, Int, String};
pub use number::value as digits_value;
pub use span::{Span, across};
pub use token::{MAX_BRACES, Sign, Token};
