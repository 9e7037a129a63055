//! Where the parts of a source stand, with the comments of its statements, as `SourceCodeInfo` of
//! protobuf's `descriptor.proto` says.
#![tactic(auto, using(crate::proofs::Meets::meets_append))]

mod enums;
mod fields;
mod file;
mod gap;
mod locator;
mod messages;
mod options;
mod ranges;
mod services;
mod slot;

pub use file::source_info;
