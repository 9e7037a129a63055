//! What messages of a type known at run time hold, and how it is read and changed.
#![tactic(auto)]

mod accessors;
mod by_extension;
mod by_field;
mod content;
mod declared;
mod defaults;
mod entry;
mod field_of;
mod field_ref;
mod lent;
mod lent_cases;
mod message;
mod message_parts;
mod parts;
mod scalar_value;
mod value;

pub use declared::{declared_extension, declared_field};
pub use defaults::{default_of, default_one, is_default_scalar, is_present, is_present_scalar};
pub use entry::entry_fields;
pub use field_of::{ExtensionOf, FieldOf};
pub use field_ref::FieldRef;
pub use message::{DynamicMessage, MessageOf};
pub use message_parts::MessageParts;
pub use parts::{Held, HeldOf, Parts, PartsOf};
pub use reflect_scalar::{AnyField, FieldDescriptorLike, MapKey};
pub use scalar_value::ScalarValue;
pub use value::{Value, ValueOf};
