//! Messages are read from text, or the first fault is told with its place.
#![tactic(auto)]

mod fault;
mod parser;
mod scalar;
mod target;

pub use parser::Parser;
pub use target::Target;
pub use text_error::{ParseError, ParseErrorKind};
pub use text_lex::{Int, Radix, Span, Token};
