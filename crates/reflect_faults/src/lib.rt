//! Faults of protobuf files, with where they stand in their records and in their sources.
#![tactic(auto)]

mod error;
mod faults;
mod label;
pub mod laws;
mod spans;

pub use error::DescriptorErrorKind;
pub use faults::Faults;
pub use label::{Label, SourceSpan};
