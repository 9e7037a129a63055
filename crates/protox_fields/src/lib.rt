//! Reads what of messages nothing nests in off the tokens of a source: fields, what all fields
//! have, flat statements, and what oneofs and extensions begin with.
#![tactic(auto)]

mod field;
mod statements;

pub use field::{extensions, label, numbered_name, plain_field};
pub use statements::{extend_head, flat_item, oneof_head};
