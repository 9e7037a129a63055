//! What the records of fields and extensions say of them.
#![tactic(auto)]

mod default;
mod field;

pub use field::{extension_entry, field_entry, scalar_kind, text_copy};
