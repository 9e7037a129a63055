//! What a name in a scope means, and which files a file sees: each answer is what the public
//! scoping rules of protobuf say.
#![tactic(auto)]

mod definition;
mod index;
mod resolve;
mod seen;

pub use definition::{Definition, DefinitionKind, ResolveNameFilter};
pub use index::{
    EnumIndex, EnumValueIndex, ExtensionIndex, FieldIndex, FileIndex, MessageIndex, MethodIndex,
    OneofIndex, ServiceIndex,
};
pub use resolve::{ResolveNameError, Resolved, joined, outer_of, resolve_name, write_joined};
pub use seen::{Links, SeenFiles};
