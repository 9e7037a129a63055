//! Messages are read from text and written as text.
#![tactic(auto)]

mod text_format;

pub use text_format::TextFormat;
