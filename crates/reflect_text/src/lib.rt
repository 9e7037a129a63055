//! Text format and options: a text is read into a message or refused with its first fault, and a
//! message is written as text; options are read by the types of the pool alone, and settled as a
//! whole or not at all.
#![tactic(auto)]

pub use reflect_format::{Int, ParseError, ParseErrorKind, Parser, Radix, Span, Token};
pub use reflect_options::{
    OptionError, OptionErrorKind, OptionsVisitor, ResolveOptions, copy_typed_options,
    require_option_types,
};
pub use reflect_print::{FormatOptions, WriteError, Writer};
pub use text_format::TextFormat;
