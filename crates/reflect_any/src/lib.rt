//! The type that keeps a message of any type.
#![tactic(auto)]

mod any;

pub use any::{AnyFields, any_fields};
