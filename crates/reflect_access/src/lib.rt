//! Messages by the names of their fields, and values that are asked about fields.
#![tactic(auto)]

mod by_name;
mod by_name_mut;
mod value_tests;

pub use by_name::FieldsByName;
pub use by_name_mut::{FieldsByNameMut, NamedFields};
pub use reflect_contents::{
    ExtensionValues, FieldValues, MessageWalks, TakeContents, TakenExtensions, TakenFields,
    UnknownFields,
};
pub use reflect_numbered::{
    FieldsByNumber, FieldsByNumberMut, LendError, MessageTests, NumberedFields, SetFieldError,
    TrySetField,
};
pub use value_tests::ValueTests;
