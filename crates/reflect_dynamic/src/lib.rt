//! Messages of a type known at run time: bytes are read as exactly what the type's fields allow,
//! and a refusal changes nothing.
#![tactic(auto)]

mod descriptor_ext;
mod read_options;

pub use descriptor_ext::{FieldDefault, KindExt};
pub use read_options::ReadOptions;
pub use reflect_access::{
    ExtensionValues, FieldValues, FieldsByName, FieldsByNameMut, FieldsByNumber, FieldsByNumberMut,
    LendError, MessageTests, MessageWalks, NamedFields, NumberedFields, SetFieldError,
    TakeContents, TakenExtensions, TakenFields, TrySetField, UnknownFields, ValueTests,
};
pub use reflect_copies::{CloneMessage, CloneValue};
pub use reflect_decode::DecodeMessage;
pub use reflect_encode::EncodeMessage;
pub use reflect_extend::ExtendMessage;
pub use reflect_message::{AnyField, DynamicMessage, FieldDescriptorLike, FieldRef, MapKey, Value};
