//! What a run of the program does apart from any schema: files are read, lines and usage written.
#![tactic(auto)]

mod files;
mod lines;

pub use files::{FileFault, ReadFault, SourceFiles, read_file, read_sources, sources, text_of};
pub use lines::{tell_untyped, tell_usage, write_line};
