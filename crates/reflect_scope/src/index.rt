//! What files and their declarations are named by: places in the lists in which they stand.

/// A file, by its place among all files.
pub type FileIndex = u32;

/// A message type, by its place among those of all files.
pub type MessageIndex = u32;

/// A field, by its place in its message type.
pub type FieldIndex = u32;

/// A oneof, by its place in its message type.
pub type OneofIndex = u32;

/// An enum type, by its place among those of all files.
pub type EnumIndex = u32;

/// A value, by its place in its enum type.
pub type EnumValueIndex = u32;

/// An extension, by its place among those of all files.
pub type ExtensionIndex = u32;

/// A service, by its place among those of all files.
pub type ServiceIndex = u32;

/// A method, by its place in its service.
pub type MethodIndex = u32;
