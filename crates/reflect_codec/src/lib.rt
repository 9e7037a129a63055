//! Descriptor records and their wire bytes: files and descriptor sets are read and written.
//!
//! The records are messages of protobuf's `descriptor.proto`, written as "Encoding" at protobuf.dev
//! says.
#![tactic(auto)]

mod backward;
mod codec;
mod enums;
mod field;
mod fields;
mod file;
pub mod laws;
mod message;
mod options;
mod service;
mod source_info;

pub use backward::Backward;
pub use codec::{decode_file, decode_set, encode_file, encode_set};
