//! What is printed of messages, one entry after another, and in place of a `google.protobuf.Any`.
#![tactic(auto)]

mod any;
mod entries;

pub use any::{Held, held_message};
pub use entries::{Declared, Other, declared_fields, other_entries};
