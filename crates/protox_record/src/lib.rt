//! The record that a syntax tree describes.
#![tactic(auto)]

mod file;
mod import;
pub mod laws;

pub use file::file_record;
