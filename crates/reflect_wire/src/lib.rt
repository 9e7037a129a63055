//! Wire records: bytes are read as exactly the records that they spell, and records are written in
//! one form.
#![tactic(auto)]

pub mod laws;
mod read;
mod unknown;
mod wire_error;
mod wire_key;
mod write;

pub use read::{delimited_at, fixed32_at, fixed64_at, key_at, low_half, varint_at};
pub use unknown::{MAX_LEVELS, UnknownField, UnknownFieldSet, UnknownFieldValue, value_at};
pub use wire_error::WireError;
pub use wire_key::{MAX_FIELD_NUMBER, WireKey, WireType};
pub use write::{
    code_of_key, delimited_len, key_len, push_delimited, push_key, sign_extended, varint_len,
};
