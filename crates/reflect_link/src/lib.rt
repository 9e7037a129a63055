//! Linking: files in, one pool out whose descriptors answer every question, or the faults of the
//! first faulty pass.
#![tactic(auto)]

mod file;
mod in_file;
mod lists;
mod pool_readers;
mod ranges;
mod readers;
mod records;
mod same;
mod service;

pub use file::{FileDescriptor, Files};
pub use in_file::InFile;
pub use lists::{Enums, Extensions, Messages};
pub use pool_readers::{
    AllEnums, AllExtensions, AllFiles, AllMessages, AllServices, FileRecords, PoolReaders,
};
pub use ranges::{EnumReservedRanges, ExtensionRanges, ReservedNames, ReservedRanges};
pub use readers::{EnumReaders, EnumValueReaders, FieldReaders, MessageReaders, OneofReaders};
pub use reflect_pool::{
    Cardinality, DefaultValue, DescriptorPool, EnumDescriptor, EnumValueDescriptor, EnumValues,
    ExtensionDescriptor, FieldDescriptor, Fields, Kind, MessageDescriptor, MessageExtensions,
    OneofDescriptor, OneofFields, Oneofs, Syntax,
};
pub use service::{MethodDescriptor, Methods, ServiceDescriptor, Services};
