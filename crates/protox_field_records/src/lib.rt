//! The records that the fields of a syntax tree describe, and those of the types of map entries.
#![tactic(auto)]

mod field;
mod place;

pub use field::{entry_record, extensions, field_name, field_record, is_group};
pub use place::index;
