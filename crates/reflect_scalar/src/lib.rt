//! Values that are no messages: what fields and extensions have in common, single values with their
//! wire forms, map keys.
#![tactic(auto)]

mod field_like;
pub mod laws;
mod map_key;
mod read_scalar;
mod scalar;
mod write_scalar;

pub use field_like::{AnyField, FieldDescriptorLike, holds_floats};
pub use map_key::MapKey;
pub use read_scalar::{is_packable, scalar_at, varint_scalar, wire_type};
pub use scalar::{Scalar, WireScalar, default_scalar};
pub use write_scalar::{put_scalar, scalar_len, wire_scalar};
