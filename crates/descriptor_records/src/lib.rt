//! The records that describe protobuf files, as plain data: a clone has the content of its source.
//!
//! The records and their fields are those of protobuf's own `descriptor.proto`, under the names
//! that `prost-types` gives them.
#![tactic(auto)]

mod enums;
mod field;
mod file;
mod message;
mod options;
mod path;
mod service;
mod source_info;
pub mod tag;
mod text;

pub use enums::{EnumDescriptorProto, EnumReservedRange, EnumValueDescriptorProto};
pub use field::{FieldDescriptorProto, FieldType, Label, MAX_FIELD_NUMBER, OneofDescriptorProto};
pub use file::{FileDescriptorProto, FileDescriptorSet};
pub use message::{DescriptorProto, ExtensionRange, ReservedRange};
pub use options::{DoubleValue, NamePart, Options, UninterpretedOption};
pub use path::join_path;
pub use service::{MethodDescriptorProto, ServiceDescriptorProto};
pub use source_info::{Location, SourceCodeInfo};
pub use text::text_of;
