//! Linked files in one pool, and descriptors that borrow it.
#![tactic(auto)]

mod access;
mod enums;
mod extension;
mod field;
mod kind;
mod message;
mod oneof;
mod parts;
mod pool;
mod reading;

pub use enums::{EnumDescriptor, EnumValueDescriptor, EnumValues};
pub use extension::{ExtensionDescriptor, MessageExtensions};
pub use field::FieldDescriptor;
pub use kind::{DefaultValue, Kind};
pub use message::{Fields, MessageDescriptor};
pub use oneof::{OneofDescriptor, OneofFields, Oneofs};
pub use parts::PoolParts;
pub use pool::DescriptorPool;
pub use reflect_tables::{Cardinality, Syntax};
