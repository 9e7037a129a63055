//! What the texts of defaults say, as `descriptor.proto` writes them.
#![tactic(auto)]

mod default;

pub use default::{DefaultText, read_default};
