//! What is kept of each declaration: places in place of names.

use crate::kind::Cardinality;
use crate::lists::{FieldList, ValueList};
use crate::ranges::NumberRanges;
use descriptor_records::FileDescriptorProto;
use reflect_scope::{
    EnumIndex, ExtensionIndex, FieldIndex, FileIndex, MessageIndex, OneofIndex, ServiceIndex,
};

/// What a field holds, with a message or an enum by its place in the pool.
#[derive(Clone, Copy)]
pub enum StoredKind {
    Double,
    Float,
    Int32,
    Int64,
    Uint32,
    Uint64,
    Sint32,
    Sint64,
    Fixed32,
    Fixed64,
    Sfixed32,
    Sfixed64,
    Bool,
    String,
    Bytes,
    Message(MessageIndex),
    Enum(EnumIndex),
}

/// The default that a field's declaration gives.
#[derive(Drop)]
pub enum StoredDefault {
    I64(i64),
    U64(u64),
    Bool(bool),
    Text(String),
    Bytes(Vec<u8>),
    /// The name of an enum's value.
    Enum(String),
    /// The text of a floating-point number, which nothing has read.
    Float(String),
}

/// The places of the types and extensions that a file or a message declares itself, as they were
/// declared.
#[derive(Drop)]
pub struct Children {
    pub messages: Vec<MessageIndex>,
    pub enums: Vec<EnumIndex>,
    pub extensions: Vec<ExtensionIndex>,
}

/// A type or an extension by its place in the pool.
#[derive(Clone, Copy)]
pub enum Child {
    Message(MessageIndex),
    Enum(EnumIndex),
    Extension(ExtensionIndex),
}

/// A linked file.
#[derive(Drop)]
pub struct StoredFile {
    pub record: FileDescriptorProto,
    pub declared: Declared,
}

/// What a file declares.
#[derive(Drop)]
pub struct Declared {
    pub children: Children,
    /// The places of the services, as they were declared.
    pub services: Vec<ServiceIndex>,
}

/// A field of a message type, or what an extension has in common with one.
#[derive(Drop)]
pub struct StoredField {
    pub path: Vec<i32>,
    pub name: String,
    pub full_name: String,
    /// The JSON name that was written, if one was.
    pub json_name: Option<String>,
    pub number: u32,
    pub kind: StoredKind,
    pub cardinality: Cardinality,
    pub is_group: bool,
    pub is_packed: bool,
    pub supports_presence: bool,
    pub is_proto3_optional: bool,
    /// The place of the oneof in the message's list.
    pub oneof: Option<OneofIndex>,
    pub default: Option<StoredDefault>,
}

/// A oneof of a message type.
#[derive(Drop)]
pub struct StoredOneof {
    pub path: Vec<i32>,
    pub name: String,
    pub full_name: String,
    /// The places of its members in the message's fields, as they were declared.
    pub fields: Vec<FieldIndex>,
    /// It stands for one field of a proto3 file that was declared `optional`.
    pub is_synthetic: bool,
}

/// The places of a map entry's two fields.
#[derive(Clone, Copy)]
pub struct StoredEntry {
    pub key: FieldIndex,
    pub value: FieldIndex,
}

/// A message type.
#[derive(Drop)]
pub struct StoredMessage {
    pub file: FileIndex,
    pub parent: Option<MessageIndex>,
    pub path: Vec<i32>,
    pub name: String,
    pub full_name: String,
    /// The record says that the type is one of a map's entries.
    pub is_entry: bool,
    /// The key and the value of a map's entry.
    pub entry: Option<StoredEntry>,
    pub fields: FieldList,
    /// The oneofs, as they were declared.
    pub oneofs: Vec<StoredOneof>,
    pub children: Children,
    /// The numbers that no field or extension may have.
    pub reserved_numbers: NumberRanges,
    /// The numbers that extensions may have.
    pub extension_numbers: NumberRanges,
}

/// A value of an enum type.
#[derive(Drop)]
pub struct StoredValue {
    pub path: Vec<i32>,
    pub name: String,
    pub full_name: String,
    pub number: i32,
}

/// An enum type.
#[derive(Drop)]
pub struct StoredEnum {
    pub file: FileIndex,
    pub parent: Option<MessageIndex>,
    pub path: Vec<i32>,
    pub name: String,
    pub full_name: String,
    pub values: ValueList,
}

/// An extension.
#[derive(Drop)]
pub struct StoredExtension {
    pub file: FileIndex,
    /// The message that the extension is declared in, whatever it extends.
    pub parent: Option<MessageIndex>,
    /// The message that it extends.
    pub extendee: MessageIndex,
    pub field: StoredField,
    /// The full name in brackets.
    pub json_name: String,
}

/// A method of a service.
#[derive(Drop)]
pub struct StoredMethod {
    pub path: Vec<i32>,
    pub name: String,
    pub full_name: String,
    /// The place of the message type that the method takes.
    pub input: MessageIndex,
    /// The place of the message type that the method answers.
    pub output: MessageIndex,
    pub is_client_streaming: bool,
    pub is_server_streaming: bool,
}

/// A service.
#[derive(Drop)]
pub struct StoredService {
    pub file: FileIndex,
    pub path: Vec<i32>,
    pub name: String,
    pub full_name: String,
    /// The methods, as they were declared.
    pub methods: Vec<StoredMethod>,
}
